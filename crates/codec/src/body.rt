// Questions that more than one body is asked, and those that come after the body's. The chunk and what was read of it are two parameters: a
// struct of both is no plainer, since only the second changes, and it is what is answered.
ghost use Rattle.std.specs.Prelude.{◌≡◌, ◌≤◌, IfOk};
ghost use Rattle.format.specs.Answers.{outcome_of};
ghost use Rattle.format.specs.Varint.{first_padded, validate_uvarints};
ghost use Rattle.format.specs.Parts.{packed_extent, settled};

use bitpack::width::Width;
use format::{Extent, Kind, Refusal, Uvarint};

// The first padded varint, when the one at `at` is read too.
pub fn first_padded(padded: Option<usize>, at: usize, unpadded: bool) -> Option<usize>
    ensures { result ≡ first_padded padded at unpadded }
{
    padded.or((!unpadded).then_some(at))
}

// What was read before, and a varint that begins where it ends.
pub fn with_varint(before: Extent, read: Uvarint) -> Extent
    ensures { result ≡ record { end = read.next; padded = first_padded before.padded before.end read.unpadded } }
{
    Extent {
        end: read.next,
        padded: first_padded(before.padded, before.end, read.unpadded),
    }
}

// n varints in a row, after what was read before.
#[tactic(auto, using(crate::proofs::Rows::row_next, crate::proofs::Rows::row_end))]
pub fn settle_uvarints(chunk: &[u8], before: Extent, n: usize) -> Result<Extent, Refusal>
    ensures { outcome_of result ≡ validate_uvarints chunk.now before.end n before.padded }
{
    let mut end = before.end;
    let mut padded = before.padded;
    // By its fields. Tried: `with_varint` of it, with `?`; handed on whole it goes through memory, and a varint took 19 cycles in place of 6.
    for _ in 0..n {
        match varint::read_uvarint(chunk, end) {
            Ok(read) => {
                padded = first_padded(padded, end, read.unpadded);
                end = read.next;
            }
            Err(refusal) => return Err(refusal),
        }
    }
    Ok(Extent { end, padded })
}

// A width byte after what was read before, and a packed body of `count` values after it. Question 21 comes before there is a width byte, 10,
// and 12 after it, so that `bitpack`'s asking of 21 and 12 in one is no plainer here.
#[tactic(auto, unfolding(format::specs::Parts::packed_extent, format::specs::Packing::width_at, format::specs::Packing::packed_end, format::specs::Standalone::packed_len_answer))]
pub fn settle_packed(chunk: &[u8], before: Extent, count: usize) -> Result<Extent, Refusal>
    ensures { outcome_of result ≡ packed_extent chunk.now before.end count before.padded }
{
    if count > format::limits::MAX_CHUNK_ELEMENTS {
        return Err(Kind::ColumnAboveLimit.at(0));
    }
    let Some(&width) = chunk.get(before.end) else {
        return Err(Kind::NoWidth.at(before.end));
    };
    let needed = Width::new(u32::from(width))?.packed_len(count);
    let packed = &chunk[before.end + 1..];
    if packed.len() < needed {
        return Err(Kind::PackedCut.at(packed.len()));
    }
    Ok(Extent {
        end: before.end + 1 + needed,
        ..before
    })
}

// The answer to reading, by what its body answered: of one that was passed strict reading asks for padded varints and for bytes after
// it, and any reading whether the column's buffer is long enough.
#[tactic(auto, unfolding(format::specs::Parts::settled, format::specs::Read::strict_checks))]
pub fn settle(
    chunk: &[u8],
    strict: bool,
    count: usize,
    room: usize,
    body: Result<Extent, Refusal>,
) -> Result<usize, Refusal>
    ensures told { outcome_of result ≡ settled strict chunk.now count room (outcome_of body) }
    ensures counted { IfOk result (λ n. (n ≡ count) × (count ≤ room)) }
{
    let body = body?;
    if strict {
        if let Some(start) = body.padded {
            return Err(Kind::VarintPadded.at(start));
        }
        if body.end != chunk.len() {
            return Err(Kind::BytesAfterBody.at(body.end));
        }
    }
    if room < count {
        return Err(Kind::BufferTooShort.at(count));
    }
    Ok(count)
}
