// Varints whose first byte is not their last: from one load of eight bytes, or byte by byte.
ghost use Rattle.std.specs.Prelude.{◌≡◌, ◌+◌, ◌<◌, ◌≤◌, min, length, slice_index};
ghost use Rattle.format.specs.Answers.{outcome_of};
ghost use Rattle.format.specs.Varint.{read_uvarint};
ghost use Rattle.varint.specs.Reading.{Reading};

use crate::words::{group, groups};
use format::{Kind, Refusal, Uvarint};
use number::words::load;

// The varint at `at`, whose bytes up to `from` are read, worth `low`. One limit stands for both questions, so that a byte costs
// two tests; past it, an eleventh byte must be there to be one too many, else the varint is cut.
fn read_long(bytes: &[u8], at: usize, low: u64, from: usize, bits: u32) -> Result<Uvarint, Refusal>
    requires { Reading bytes.now at low from bits }
    ensures { outcome_of result ≡ read_uvarint bytes.now at }
{
    // Ten bytes on, or where the bytes end. Where ten are known to be there, so is the end, and the compiler unrolls the loop.
    let end = at + (bytes.len() - at).min(10);
    let mut value = low;
    let mut shift = bits;
    for (k, &b) in bytes[from..end].iter().enumerate() {
        value = value.wrapping_add(group(b) << shift);
        if b < 128 {
            return Ok(Uvarint {
                value,
                next: from + k + 1,
                unpadded: b != 0,
            });
        }
        shift += 7;
    }
    if end < bytes.len() {
        return Err(Kind::VarintTooLong.at(at));
    }
    Err(Kind::VarintCut.at(at))
}

// The same from its first byte on, where ten bytes are there. A byte below 128 is the last: in the complement its top bit is set.
fn read_word(bytes: &[u8], at: usize) -> Result<Uvarint, Refusal>
    requires { (at + 10 ≤ length bytes.now) × (128 ≤ slice_index bytes.now at) }
    ensures { outcome_of result ≡ read_uvarint bytes.now at }
{
    let x = load(bytes, at);
    let ends = !x & 0x8080808080808080;
    // The bits up to the lowest of these: the varint, if it ends in the word, and else the whole word.
    let y = x & (ends ^ ends.wrapping_sub(1));
    let low = groups(y);
    if ends == 0 {
        return read_long(bytes, at, low, at + 8, 56);
    }
    let n = ends.trailing_zeros() / 8;
    Ok(Uvarint {
        value: low,
        next: at + n as usize + 1,
        unpadded: y >> (8 * n) != 0,
    })
}

// The same of any bytes: from one load of eight, and byte by byte near the end. It has two callers, so the compiler keeps it a
// function, and these stay short.
#[tactic(auto, using(crate::proofs::Reading::begin))]
pub(crate) fn read_rest(bytes: &[u8], at: usize) -> Result<Uvarint, Refusal>
    requires { (at < length bytes.now) × (128 ≤ slice_index bytes.now at) }
    ensures { outcome_of result ≡ read_uvarint bytes.now at }
{
    if 10 <= bytes.len() - at {
        return read_word(bytes, at);
    }
    read_long(bytes, at, group(bytes[at]), at + 1, 7)
}
