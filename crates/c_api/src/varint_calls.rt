// Varints, read at a place and written to the front of a buffer.
ghost use Rattle.std.specs.Prelude.{◌≡◌, length};
ghost use Rattle.format.specs.Answers.{outcome_of};
ghost use Rattle.format.specs.Varint.{read_uvarint};
ghost use Rattle.format.specs.Standalone.{read_varint, uvarint_write_answer, uvarint_write_output, varint_write_answer, varint_write_output};
ghost use Rattle.c_api.specs.Told.{told, read_told, uvarint_told, varint_told};

use crate::tell;
use format::{Read, Refusal};

// Tells a varint that was read: its value, whether it is unpadded, and the place after it; the value is `none` where it is refused. Each
// arm stores for itself. Tried: `map` and `unwrap_or` for each field, or `unwrap_or_default` of the varint, which copy it whole; a call for
// one byte took 9.4 ns in place of 3.9.
fn tell_read<T: Copy>(
    answer: Result<Read<T>, Refusal>,
    none: T,
    value: &mut T,
    unpadded: &mut bool,
    place: &mut usize,
) -> u32
    ensures { (result, value.new, unpadded.new, place.new) ≡ read_told none (outcome_of answer) }
{
    let answer = match answer {
        Ok(read) => {
            *value = read.value;
            *unpadded = read.unpadded;
            Ok(read.next)
        }
        Err(refusal) => {
            *value = none;
            *unpadded = false;
            Err(refusal)
        }
    };
    tell(answer, place)
}

// Reads the varint at a place.
#[unsafe(no_mangle)]
pub extern "C" fn wb_read_uvarint(
    bytes: &[u8],
    at: usize,
    value: &mut u64,
    unpadded: &mut bool,
    place: &mut usize,
) -> u32
    ensures { (result, value.new, unpadded.new, place.new) ≡ uvarint_told (read_uvarint bytes.now at) }
{
    tell_read(varint::read_uvarint(bytes, at), 0, value, unpadded, place)
}

// The same for a signed one.
#[unsafe(no_mangle)]
pub extern "C" fn wb_read_varint(
    bytes: &[u8],
    at: usize,
    value: &mut i64,
    unpadded: &mut bool,
    place: &mut usize,
) -> u32
    ensures { (result, value.new, unpadded.new, place.new) ≡ varint_told (read_varint bytes.now at) }
{
    tell_read(varint::read_varint(bytes, at), 0, value, unpadded, place)
}

// Writes a varint to the front of `out`.
#[unsafe(no_mangle)]
pub extern "C" fn wb_write_uvarint(value: u64, out: &mut [u8], place: &mut usize) -> u32
    ensures place_after { (result, place.new) ≡ told (uvarint_write_answer value (length out.old)) }
    ensures out_after { out.new ≡ uvarint_write_output value out.old }
{
    tell(varint::write_uvarint(value, out), place)
}

// The same for a signed one.
#[unsafe(no_mangle)]
pub extern "C" fn wb_write_varint(value: i64, out: &mut [u8], place: &mut usize) -> u32
    ensures place_after { (result, place.new) ≡ told (varint_write_answer value (length out.old)) }
    ensures out_after { out.new ≡ varint_write_output value out.old }
{
    tell(varint::write_varint(value, out), place)
}
