// Bit packing at a width of 0 to 64 bits: value i is at bit i * width, lowest bit of a byte first (the Rust's
// `bitpack.rs`). Every call answers for every argument; a refusal leaves the buffer as it was.
#![tactic(auto)]

ghost use Rattle.std.specs.Prelude.{◌≡◌, ◌++◌, ◌≤◌, length, take, drop, MatchResult};
ghost use Rattle.format.specs.Answers.{outcome_of};
ghost use Rattle.format.specs.Encodings.{max_chunk_elements};
ghost use Rattle.format.specs.Outcome.{refused};
ghost use Rattle.format.specs.Refusals.{kind_number};
ghost use Rattle.format.specs.Standalone.{packed_len_answer, pack_answer, pack_output, unpack_answer, unpack_buffer};

use crate::width::Width;
use format::limits::MAX_CHUNK_ELEMENTS;
use format::{Kind, Refusal};

pub(crate) mod packing;
pub(crate) mod unpacking;
pub mod width;
pub(crate) mod words;

// Asks what all calls here ask first: question 21, at most 2^24 values? And 12, at most 64 bits?
fn admitted(count: usize, width: u32) -> Result<Width, Refusal>
    ensures { MatchResult result (λ admitted. (admitted.bits ≡ width) × (count ≤ max_chunk_elements))
        (λ refusal. refused (kind_number refusal.kind) refusal.offset ≡ packed_len_answer count width) }
{
    if count > MAX_CHUNK_ELEMENTS {
        return Err(Kind::ColumnAboveLimit.at(0));
    }
    Width::new(width)
}

// Bytes needed to pack `count` values at `width` bits each.
pub fn packed_len(count: usize, width: u32) -> Result<usize, Refusal>
    ensures { outcome_of result ≡ packed_len_answer count width }
{
    let width = admitted(count, width)?;
    Ok(width.packed_len(count))
}

// Packs `values` at `width` bits each to the front of `out`. Bits above the width are dropped.
pub fn pack(values: &[u64], width: u32, out: &mut [u8]) -> Result<usize, Refusal>
    ensures { (outcome_of result ≡ pack_answer values.now width (length out.old))
        × (out.new ≡ pack_output values.now width out.old) }
{
    let width = admitted(values.len(), width)?;
    let needed = width.packed_len(values.len());
    // No bytes: no values, or all at width 0, which need not be walked over.
    if needed == 0 {
        return Ok(0);
    }
    if out.len() < needed {
        return Err(Kind::BufferTooShort.at(needed));
    }
    packing::pack_into(values, width, out);
    Ok(needed)
}

// Unpacks `count` values of `width` bits from `bytes` to the front of `out`. Spare bits, and bytes after them, are ignored.
pub fn unpack(bytes: &[u8], width: u32, count: usize, out: &mut [u64]) -> Result<usize, Refusal>
    ensures { (outcome_of result ≡ unpack_answer bytes.now width count (length out.old))
        × (out.new ≡ unpack_buffer bytes.now width count out.old) }
{
    let width = admitted(count, width)?;
    if bytes.len() < width.packed_len(count) {
        return Err(Kind::PackedCut.at(bytes.len()));
    }
    if out.len() < count {
        return Err(Kind::BufferTooShort.at(count));
    }
    unpacking::unpack_into(bytes, width, &mut out[..count]);
    Ok(count)
}

// Unpacks a body that begins at `at` in a chunk to the part of `out` from `from` on. Past an end the part is empty.
pub fn unpack_part(
    chunk: &[u8],
    at: usize,
    width: u32,
    count: usize,
    out: &mut [u64],
    from: usize,
) -> Result<usize, Refusal>
    ensures { (outcome_of result ≡ unpack_answer (drop at chunk.now) width count (length (drop from out.old)))
        × (out.new ≡ take from out.old ++ unpack_buffer (drop at chunk.now) width count (drop from out.old)) }
{
    let start = at.min(chunk.len());
    let front = from.min(out.len());
    unpack(&chunk[start..], width, count, &mut out[front..])
}
