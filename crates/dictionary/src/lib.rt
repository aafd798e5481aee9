// Encoding 6, Dictionary: entry total, first entry as a signed varint, gaps as varints, width byte, packed codes (the Rust's
// `DictionaryCodec`).
#![tactic(auto)]

ghost use Rattle.format.specs.Answers.{outcome_of};
ghost use Rattle.format.specs.Write.{write_answer, write_output, write_scratch};
ghost use Rattle.format.specs.declared.encoding.Encoding.TheVariants as Encodings;
ghost use Rattle.std.specs.Prelude.{length, ◌≡◌};

use crate::guess::Entries;
use codec::checked::put_header;
use codec::chunk::{Body, Codec};
use codec::header::header_len;
use entries::checked::body_len;
use format::{Column, Encoding, Extent, Kind, Refusal};

pub(crate) mod coded;
pub(crate) mod guess;
pub(crate) mod lookup;
pub(crate) mod reading;
pub(crate) mod row;
pub(crate) mod table;
pub(crate) mod writing;

// Writes the column's chunk to the front of `out`. The entries are collected in `scratch`, which keeps them, also where the
// output is too short.
pub fn encode(column: &[i64], scratch: &mut [i64], out: &mut [u8]) -> Result<usize, Refusal>
    ensures value { outcome_of result ≡ write_answer 6 column.now (length scratch.old) (length out.old) }
    ensures scratch_after { scratch.new ≡ write_scratch 6 column.now scratch.old }
    ensures out_after { out.new ≡ write_output 6 column.now (length scratch.old) out.old }
{
    let held = distinct::collect(column, scratch)?;
    let entries = Entries {
        values: &scratch[..held],
    };
    // Collecting has asked whether there are too many of either.
    let body = body_len(entries.values, column.len()).unwrap();
    let needed = header_len(column.len()) + body;
    if out.len() < needed {
        return Err(Kind::BufferTooShort.at(needed));
    }
    let at = put_header(Encoding::Dictionary, column.len(), out).unwrap();
    writing::store(Column { values: column }, entries, out, at);
    Ok(needed)
}

pub struct Dictionary;

impl Codec for Dictionary {
    ghost ENCODING = { Encodings.Dictionary };

    const ENCODING: Encoding = Encoding::Dictionary;

    #[tactic(auto, using(codec::proofs::Settling::settled_as), unfolding(format::specs::Chunk::validate_body))]
    fn settle_body(body: Body<'_>, strict: bool) -> Result<Extent, Refusal> {
        reading::settle_body(body)
    }

    fn fill(body: Body<'_>, column: &mut [i64]) {
        lookup::fill(body, column)
    }
}
