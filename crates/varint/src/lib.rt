// Varints: the Rust's varint.rs, but its ZigZag, which is in the crate number. The position that the Rust lends as `&mut usize`
// is a place passed in and the next place handed back: past the end is a place too, so a struct of bytes and place is no plainer. The `Vec`
// that it appends to is the front of a lent slice.
#![tactic(auto)]

ghost use Rattle.std.specs.Prelude.{◌≡◌, length, nat_lt};
ghost use Rattle.format.specs.Answers.{outcome_of};
ghost use Rattle.format.specs.Varint.{uvarint_len, varint_len, read_uvarint};
ghost use Rattle.format.specs.Standalone.{read_varint, uvarint_write_answer, uvarint_write_output, varint_write_answer, varint_write_output};

use crate::long::read_rest;
use crate::words::group;
use format::{Kind, Refusal, Uvarint, Varint};

pub mod checked;
pub mod find;
pub(crate) mod long;
pub(crate) mod words;

// How many bytes `write_uvarint` stores: one for each 7 bits, and one at least.
pub fn uvarint_len(value: u64) -> usize
    ensures { result ≡ uvarint_len value }
{
    let bits = number::required_width(value);
    if bits == 0 {
        1
    } else {
        ((bits + 6) / 7) as usize
    }
}

// The same where most values are below 128: for these no leading zeros are counted.
#[tactic(auto, using(crate::proofs::Bytes::uvarint_len_one))]
pub fn uvarint_len_small(value: u64) -> usize
    ensures { result ≡ uvarint_len value }
{
    if value < 128 {
        return 1;
    }
    uvarint_len(value)
}

// How many bytes `write_varint` stores.
#[tactic(auto, unfolding(format::specs::Varint::varint_len))]
pub fn varint_len(value: i64) -> usize
    ensures { result ≡ varint_len value }
{
    uvarint_len(number::zigzag_encode(value))
}

// Reads the varint that begins at a place, past the end or not. Most are of one byte, which is asked first, or of two. This much
// the compiler inlines into a caller's loop; a longer one costs a call.
#[tactic(auto, using(crate::proofs::Reading::answer_none, crate::proofs::Reading::answer_one, crate::proofs::Reading::answer_two))]
pub fn read_uvarint(bytes: &[u8], at: usize) -> Result<Uvarint, Refusal>
    ensures { outcome_of result ≡ read_uvarint bytes.now at }
{
    if bytes.len() <= at {
        return Err(Kind::VarintCut.at(at));
    }
    let b = bytes[at];
    if b < 128 {
        return Ok(Uvarint {
            value: u64::from(b),
            next: at + 1,
            unpadded: true,
        });
    }
    if 2 <= bytes.len() - at {
        let c = bytes[at + 1];
        if c < 128 {
            return Ok(Uvarint {
                value: group(b) + u64::from(c) * 128,
                next: at + 2,
                unpadded: c != 0,
            });
        }
    }
    read_rest(bytes, at)
}

// The same for a signed varint. Tried: `?` in place of `map`, which copies the varint whole; a call for one byte took 9.4 ns in place of 4.1.
#[tactic(auto, unfolding(format::specs::Standalone::read_varint))]
pub fn read_varint(bytes: &[u8], at: usize) -> Result<Varint, Refusal>
    ensures { outcome_of result ≡ read_varint bytes.now at }
{
    read_uvarint(bytes, at).map(|read| Varint {
        value: number::zigzag_decode(read.value),
        next: read.next,
        unpadded: read.unpadded,
    })
}

// Whether `space` bytes are too few for a varint. It is measured only where they are fewer than ten, which is enough for any.
#[tactic(auto, using(format::proofs::Numbers::Widths::uvarint_len_le))]
fn too_short(space: usize, value: u64) -> bool
    ensures { result ≡ nat_lt space (uvarint_len value) }
{
    if 10 <= space {
        return false;
    }
    space < uvarint_len(value)
}

// Stores a varint at the front of `out`; refused, with the length needed, it stores nothing.
pub fn write_uvarint(value: u64, out: &mut [u8]) -> Result<usize, Refusal>
    ensures value { outcome_of result ≡ uvarint_write_answer value (length out.old) }
    ensures out_after { out.new ≡ uvarint_write_output value out.old }
{
    if too_short(out.len(), value) {
        return Err(Kind::BufferTooShort.at(uvarint_len(value)));
    }
    let mut rest = value;
    let mut pos = 0;
    // The Rust writes LEB128 with this loop too: how often it turns is known from `rest` alone.
    while rest >= 128 {
        out[pos] = (rest % 128) as u8 + 128;
        rest >>= 7;
        pos += 1;
    }
    out[pos] = rest as u8;
    Ok(pos + 1)
}

// The same for a signed varint.
#[tactic(auto, unfolding(format::specs::Standalone::varint_write_answer, format::specs::Standalone::varint_write_output))]
pub fn write_varint(value: i64, out: &mut [u8]) -> Result<usize, Refusal>
    ensures value { outcome_of result ≡ varint_write_answer value (length out.old) }
    ensures out_after { out.new ≡ varint_write_output value out.old }
{
    write_uvarint(number::zigzag_encode(value), out)
}
