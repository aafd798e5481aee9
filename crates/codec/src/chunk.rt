// A chunk in any of the encodings: what differs between them is a `Codec`, and writing and reading with it is proved once.
ghost use Rattle.std.specs.Prelude.{◌≡◌, ℕ, ℤ, List, ◌+◌, ◌^◌, ◌≤◌, ◌<◌, length};
ghost use Rattle.std.proofs.lemmas.List.Edits.{sets};
ghost use Rattle.format.specs.Answers.{outcome_of};
ghost use Rattle.format.specs.Chunk.{body_of, validate_body, body_values};
ghost use Rattle.format.specs.Encodings.{id_of, max_chunk_elements};
ghost use Rattle.format.specs.Header.{header_len, named};
ghost use Rattle.format.specs.Outcome.{Outcome, ok};
ghost use Rattle.format.specs.Parts.{settled};
ghost use Rattle.format.specs.Read.{read_answer, read_column};
ghost use Rattle.format.specs.Write.{for_dictionary, write_answer, write_output};
ghost use Rattle.format.specs.declared.encoding.Encoding.{Encoding};
ghost use Rattle.codec.specs.Lacking.{Lacking};
ghost use Rattle.codec.specs.Valid.{Valid};

use crate::body::settle;
use crate::checked::put_header;
use crate::header::{header_len, read_header};
use format::{Column, Encoding, Extent, Header, Kind, Refusal};

// A chunk whose header was read: what is left to be asked and read is its body.
#[derive(Clone, Copy)]
pub struct Body<'a> {
    pub chunk: &'a [u8],
    pub header: Header,
    ghost few: { header.count ≤ max_chunk_elements },
    ghost within: { header.start ≤ length chunk.now },
}

impl<'a> Body<'a> {
    // What was read before the body: the header.
    pub fn before(self) -> Extent
        ensures { result ≡ record { end = self.entry.header.start; padded = self.entry.header.padded } }
    {
        Extent {
            end: self.header.start,
            padded: self.header.padded,
        }
    }
}

// One of the encodings: how a body of it is asked, and how its values are filled in. The seven `impl`s begin alike; each names its encoding
// and what it measures, so that one text for all is no plainer.
pub trait Codec {
    ghost ENCODING: { Encoding };

    const ENCODING: Encoding;

    // The body's questions. What only strict reading looks at need not be told to another.
    fn settle_body(body: Body<'_>, strict: bool) -> Result<Extent, Refusal>
        ensures { (room : ℕ) → let s = body.entry.chunk.now in let h = body.entry.header in
            settled strict s h.count room (outcome_of result) ≡ settled strict s h.count room (validate_body ENCODING s h.start h.count h.padded) };

    // Stores the values of a body that was passed to the front of `column`, which may be longer: a slice of just as many places would ask
    // more of a caller.
    fn fill(body: Body<'_>, column: &mut [i64])
        requires passed { Valid ENCODING body.chunk.now body.header }
        requires room { body.header.count ≤ length column.old }
        ensures { column.new ≡ sets column.old 0 (body_values ENCODING body.entry.chunk.now body.entry.header.start body.entry.header.count) };
}

// One of those that are written without a scratch: all but Dictionary.
pub trait Encoder: Codec {
    // What writing measures of a column first.
    type Measured: Copy;

    // What such a measure says of the column.
    ghost suits: { List ℤ → Self.Measured → Type 0 };

    fn measure(column: Column<'_>) -> Self::Measured
        ensures { suits column.entry.values.now result };

    // The length of the column's chunk, where `space` bytes are too few for it.
    fn lacking(column: Column<'_>, measured: Self::Measured, space: usize) -> Option<usize>
        requires { suits column.values.now measured }
        ensures { Lacking (header_len (length column.entry.values.now) + length (body_of Self.ENCODING column.entry.values.now)) space result };

    // Stores the body of a column from `at` on, and answers the place after it.
    fn store(column: Column<'_>, measured: Self::Measured, out: &mut [u8], at: usize) -> usize
        requires measured { suits column.values.now measured }
        requires room { at + length (body_of Self.ENCODING column.values.now) ≤ length out.old }
        ensures value { result ≡ at + length (body_of Self.ENCODING column.entry.values.now) }
        ensures out_after { out.new ≡ sets out.old at (body_of Self.ENCODING column.entry.values.now) };

    ghost scratchless: { (k : Outcome (Unit {0})) → for_dictionary (ok tt) k Self.ENCODING ≡ ok tt };
}

// The length of a chunk of `count` values whose body has `body` bytes, where `space` is too few for it. The limit of a count that is of no
// column is asked by a `requires`, here, of `Width::packed_len`, and of a number of deltas: a type of such numbers is no plainer, since each
// is made by a sum or a difference, and would have to be unwrapped and made again.
pub fn lacking_for(count: usize, body: usize, space: usize) -> Option<usize>
    requires few { count ≤ max_chunk_elements }
    requires short { body < 2 ^ 32 }
    ensures { Lacking (header_len count + body) space result }
{
    let needed = header_len(count) + body;
    (needed > space).then_some(needed)
}

// Writes a column as a chunk to the front of `out`.
pub fn encode_as<C: Encoder>(column: &[i64], out: &mut [u8]) -> Result<usize, Refusal>
    ensures value { (room : ℕ) → outcome_of result ≡ write_answer (id_of C.ENCODING) column.now room (length out.old) }
    ensures out_after { (room : ℕ) → out.new ≡ write_output (id_of C.ENCODING) column.now room out.old }
{
    let column = Column::new(column)?;
    let measured = C::measure(column);
    if let Some(needed) = C::lacking(column, measured, out.len()) {
        return Err(Kind::BufferTooShort.at(needed));
    }
    let at = put_header(C::ENCODING, column.values.len(), out).unwrap();
    Ok(C::store(column, measured, out, at))
}

// Reads a chunk into the front of `column`.
#[tactic(auto, using(crate::proofs::Reading::answer_steps, crate::proofs::Reading::column_steps))]
pub fn decode_as<C: Codec>(chunk: &[u8], strict: bool, column: &mut [i64]) -> Result<usize, Refusal>
    ensures value { outcome_of result ≡ read_answer strict (named (id_of C.ENCODING)) chunk.now (length column.old) }
    ensures column_after { column.new ≡ read_column strict (named (id_of C.ENCODING)) chunk.now column.old }
{
    let header = read_header(chunk, u32::from(C::ENCODING.id()))?;
    let body = Body { chunk, header };
    let extent = C::settle_body(body, strict)?;
    let count = settle(chunk, strict, header.count, column.len(), Ok(extent))?;
    C::fill(body, column);
    Ok(count)
}
