// The two public calls of the Rust's integer.rs, `encode_integers` and `decode_integers`, and the reading that names its encoding.
#![tactic(auto)]

ghost use Rattle.std.specs.Prelude.{◌≡◌, length};
ghost use Rattle.format.specs.Answers.{outcome_of, stored_answer, buffer_after};
ghost use Rattle.format.specs.Encodings.{id_of};
ghost use Rattle.format.specs.Header.{unnamed, named};
ghost use Rattle.format.specs.Keys.{Keys};
ghost use Rattle.format.specs.Read.{read_answer, read_column};
ghost use Rattle.format.specs.Write.{write_answer, write_output, write_scratch};
ghost use Rattle.integer.specs.Back.{naming_of, back_outcome};

use bitpacked::BitPacked;
use codec::chunk::{decode_as, encode_as};
use codec::header::peek_encoding;
use delta::DeltaBinaryPacked;
use dictionary::Dictionary;
use format::{Encoding, Refusal};
use frame::FrameOfReference;
use plain::Plain;
use runs::RunLength;
use varints::Varint;

// Writes a column in an encoding to the front of `out`. Dictionary collects the column's distinct values in the scratch; no other
// encoding looks at it. A rule of the project, here and in `decode`: document 01 names this form, "`Codec` becomes a match on `Encoding`".
#[tactic(auto, using(crate::proofs::Numbered::scratch_by))]
pub fn encode(
    encoding: Encoding,
    column: &[i64],
    scratch: &mut [i64],
    out: &mut [u8],
) -> Result<usize, Refusal>
    ensures value { outcome_of result ≡ write_answer (id_of encoding) column.now (length scratch.old) (length out.old) }
    ensures scratch_after { scratch.new ≡ write_scratch (id_of encoding) column.now scratch.old }
    ensures out_after { out.new ≡ write_output (id_of encoding) column.now (length scratch.old) out.old }
{
    match encoding {
        Encoding::Plain => encode_as::<Plain>(column, out),
        Encoding::Varint => encode_as::<Varint>(column, out),
        Encoding::BitPacked => encode_as::<BitPacked>(column, out),
        Encoding::FrameOfReference => encode_as::<FrameOfReference>(column, out),
        Encoding::RunLength => encode_as::<RunLength>(column, out),
        Encoding::Dictionary => dictionary::encode(column, scratch, out),
        Encoding::DeltaBinaryPacked => encode_as::<DeltaBinaryPacked>(column, out),
    }
}

// The same in the encoding with a number, 1 to 7. It may name no encoding: an `Encoding` would ask more of a caller, here and in
// `decode_named`.
#[tactic(auto, using(crate::proofs::Numbered::known_number, crate::proofs::Numbered::unknown_write, crate::proofs::Numbered::unknown_scratch, crate::proofs::Numbered::unknown_output))]
pub fn encode_integers(
    column: &[i64],
    number: u32,
    scratch: &mut [i64],
    out: &mut [u8],
) -> Result<usize, Refusal>
    ensures value { outcome_of result ≡ write_answer number column.now (length scratch.old) (length out.old) }
    ensures scratch_after { scratch.new ≡ write_scratch number column.now scratch.old }
    ensures out_after { out.new ≡ write_output number column.now (length scratch.old) out.old }
{
    let encoding = Encoding::try_from(number)?;
    encode(encoding, column, scratch, out)
}

// Reads a chunk of an encoding, strictly or not, into the front of `column`: the Rust's `decode` of one codec.
pub fn decode(
    encoding: Encoding,
    chunk: &[u8],
    strict: bool,
    column: &mut [i64],
) -> Result<usize, Refusal>
    ensures value { outcome_of result ≡ read_answer strict (named (id_of encoding)) chunk.now (length column.old) }
    ensures column_after { column.new ≡ read_column strict (named (id_of encoding)) chunk.now column.old }
{
    match encoding {
        Encoding::Plain => decode_as::<Plain>(chunk, strict, column),
        Encoding::Varint => decode_as::<Varint>(chunk, strict, column),
        Encoding::BitPacked => decode_as::<BitPacked>(chunk, strict, column),
        Encoding::FrameOfReference => decode_as::<FrameOfReference>(chunk, strict, column),
        Encoding::RunLength => decode_as::<RunLength>(chunk, strict, column),
        Encoding::Dictionary => decode_as::<Dictionary>(chunk, strict, column),
        Encoding::DeltaBinaryPacked => decode_as::<DeltaBinaryPacked>(chunk, strict, column),
    }
}

// Reads a chunk, strictly or not, into the front of `column`. Its first byte says the encoding.
#[tactic(auto, using(crate::proofs::Reading::peek_known, crate::proofs::Reading::peek_unknown, crate::proofs::Reading::peek_kept))]
pub fn decode_integers(chunk: &[u8], strict: bool, column: &mut [i64]) -> Result<usize, Refusal>
    ensures value { outcome_of result ≡ read_answer strict unnamed chunk.now (length column.old) }
    ensures column_after { column.new ≡ read_column strict unnamed chunk.now column.old }
{
    let encoding = peek_encoding(chunk)?;
    decode(encoding, chunk, strict, column)
}

// The same by a reading that names the encoding, by its number.
#[tactic(auto, using(crate::proofs::Numbered::known_number, crate::proofs::Numbered::unknown_name, crate::proofs::Numbered::unknown_column))]
pub fn decode_named(
    chunk: &[u8],
    name: u32,
    strict: bool,
    column: &mut [i64],
) -> Result<usize, Refusal>
    ensures value { outcome_of result ≡ read_answer strict (named name) chunk.now (length column.old) }
    ensures column_after { column.new ≡ read_column strict (named name) chunk.now column.old }
{
    let encoding = Encoding::try_from(name)?;
    decode(encoding, chunk, strict, column)
}

// Reads a chunk by one of the two calls above: by the one that names an encoding, by its number, or by the other.
pub fn decode_either(
    chunk: &[u8],
    name: Option<u32>,
    strict: bool,
    column: &mut [i64],
) -> Result<usize, Refusal>
    ensures value { outcome_of result ≡ read_answer strict (naming_of name) chunk.now (length column.old) }
    ensures column_after { column.new ≡ read_column strict (naming_of name) chunk.now column.old }
{
    match name {
        Some(number) => decode_named(chunk, number, strict, column),
        None => decode_integers(chunk, strict, column),
    }
}

// Reads every value, and so knows that each is a key: of 64 bits. A function knows that only of what it reads, and the law of the
// round trip asks it of all.
pub fn read_all(column: &[i64])
    ensures { Keys column.now }
{
    for &_key in column {}
}

// Writes a column in any encoding and reads the bytes that writing stored, named by the same number or not, strictly or not: the
// keys come back. Where writing refuses, that is the answer, and nothing is read. `naming` stays a `bool`: an `Option` of the number, which
// the call has already, is no plainer.
pub fn encode_then_decode(
    column: &[i64],
    number: u32,
    naming: bool,
    strict: bool,
    scratch: &mut [i64],
    out: &mut [u8],
    back: &mut [i64],
) -> Result<usize, Refusal>
    ensures value { outcome_of result ≡ stored_answer (back_outcome number column.now (length scratch.old) (length out.old) (length back.old)) }
    ensures scratch_after { scratch.new ≡ write_scratch number column.now scratch.old }
    ensures out_after { out.new ≡ write_output number column.now (length scratch.old) out.old }
    ensures back_after { back.new ≡ buffer_after (back_outcome number column.now (length scratch.old) (length out.old) (length back.old)) back.old }
{
    read_all(column);
    let stored = encode_integers(column, number, scratch, out)?;
    decode_either(&out[..stored], naming.then_some(number), strict, back)
}
