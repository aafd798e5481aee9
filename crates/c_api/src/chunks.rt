// Chunks: a column written in an encoding, and read back.
ghost use Rattle.std.specs.Prelude.{◌≡◌, length};
ghost use Rattle.format.specs.Header.{unnamed, named};
ghost use Rattle.format.specs.Read.{read_answer, read_column};
ghost use Rattle.format.specs.Write.{write_answer, write_output, write_scratch};
ghost use Rattle.c_api.specs.Told.{told};

use crate::tell;

// Writes a column in the encoding with a number, 1 to 7, to the front of `out`.
#[unsafe(no_mangle)]
pub extern "C" fn wb_encode_integers(
    column: &[i64],
    encoding: u32,
    scratch: &mut [i64],
    out: &mut [u8],
    place: &mut usize,
) -> u32
    ensures place_after { (result, place.new)
        ≡ told (write_answer encoding column.now (length scratch.old) (length out.old)) }
    ensures scratch_after { scratch.new ≡ write_scratch encoding column.now scratch.old }
    ensures out_after { out.new ≡ write_output encoding column.now (length scratch.old) out.old }
{
    tell(
        integer::encode_integers(column, encoding, scratch, out),
        place,
    )
}

// Reads a chunk, strictly or not, to the front of `column`. Its first byte says the encoding.
#[unsafe(no_mangle)]
pub extern "C" fn wb_decode_integers(
    chunk: &[u8],
    strict: bool,
    column: &mut [i64],
    place: &mut usize,
) -> u32
    ensures place_after { (result, place.new) ≡ told (read_answer strict unnamed chunk.now (length column.old)) }
    ensures column_after { column.new ≡ read_column strict unnamed chunk.now column.old }
{
    tell(integer::decode_integers(chunk, strict, column), place)
}

// The same by a reading that names the encoding, by its number.
#[unsafe(no_mangle)]
pub extern "C" fn wb_decode_named(
    chunk: &[u8],
    encoding: u32,
    strict: bool,
    column: &mut [i64],
    place: &mut usize,
) -> u32
    ensures place_after { (result, place.new)
        ≡ told (read_answer strict (named encoding) chunk.now (length column.old)) }
    ensures column_after { column.new ≡ read_column strict (named encoding) chunk.now column.old }
{
    tell(
        integer::decode_named(chunk, encoding, strict, column),
        place,
    )
}
