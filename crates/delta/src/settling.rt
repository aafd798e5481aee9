// The questions on a body, in layout order. Nothing is stored.
ghost use Rattle.std.specs.Prelude.{◌≡◌, ◌≤◌};
ghost use Rattle.format.specs.Answers.{outcome_of};
ghost use Rattle.format.specs.Delta.{block_count, validate_blocks, validate_delta};
ghost use Rattle.format.specs.Encodings.{max_chunk_elements};
ghost use Rattle.delta.specs.There.{block_extent};

use codec::body::{first_padded, settle_packed, with_varint};
use codec::chunk::Body;
use format::limits::MAX_DELTA_BLOCK_SIZE;
use format::{Extent, Kind, Refusal};

// A block of n deltas: the varint of its least delta, its width byte, its packed offsets.
#[tactic(auto, unfolding(crate::specs::There::block_extent))]
fn settle_block(chunk: &[u8], before: Extent, n: usize) -> Result<Extent, Refusal>
    ensures { outcome_of result ≡ block_extent chunk.now before.end n before.padded }
{
    // By its fields, as in `settle_uvarints`.
    match varint::read_uvarint(chunk, before.end) {
        Ok(least) => {
            let read = Extent {
                end: least.next,
                padded: first_padded(before.padded, before.end, least.unpadded),
            };
            settle_packed(chunk, read, n)
        }
        Err(refusal) => Err(refusal),
    }
}

// Blocks of `deltas` deltas in all, after what was read before.
#[tactic(auto, using(crate::proofs::Asking::block_next, crate::proofs::Asking::block_end))]
fn settle_blocks(
    chunk: &[u8],
    size: usize,
    before: Extent,
    deltas: usize,
) -> Result<Extent, Refusal>
    requires { (1 ≤ size) × (deltas ≤ max_chunk_elements) }
    ensures { outcome_of result ≡ validate_blocks chunk.now size before.end (block_count size deltas) deltas before.padded }
{
    let mut read = before;
    for done in (0..deltas).step_by(size) {
        let n = (deltas - done).min(size);
        read = settle_block(chunk, read, n)?;
    }
    Ok(read)
}

// A body: nothing where there are no values; else the first value, the block size, the blocks.
#[tactic(auto, using(crate::proofs::Asking::body_none, crate::proofs::Asking::body_more))]
pub(crate) fn settle_body(body: Body<'_>) -> Result<Extent, Refusal>
    ensures { let h = body.entry.header in outcome_of result ≡ validate_delta body.entry.chunk.now h.start h.count h.padded }
{
    let Body { chunk, header } = body;
    if header.count == 0 {
        return Ok(body.before());
    }
    let first = varint::read_uvarint(chunk, header.start)?;
    let size = varint::read_uvarint(chunk, first.next)?;
    if size.value == 0 || size.value > MAX_DELTA_BLOCK_SIZE {
        return Err(Kind::BlockSizeOutOfRange.at(size.next));
    }
    let before = with_varint(with_varint(body.before(), first), size);
    settle_blocks(chunk, size.value as usize, before, header.count - 1)
}
