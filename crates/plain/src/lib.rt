// Encoding 1, Plain: eight bytes a value, little-endian (the Rust's `PlainCodec`).
#![tactic(auto)]

ghost use Rattle.std.specs.Prelude.{refl};
ghost use Rattle.format.specs.declared.encoding.Encoding.TheVariants as Encodings;

use codec::chunk::{Body, Codec, Encoder, lacking_for};
use format::{Column, Encoding, Extent, Header, Kind, Refusal};
use number::words;

pub struct Plain;

impl Codec for Plain {
    ghost ENCODING = { Encodings.Plain };

    const ENCODING: Encoding = Encoding::Plain;

    // "eight bytes a value left?"
    #[tactic(auto, unfolding(format::specs::Chunk::validate_body, format::specs::Plain::validate_plain))]
    fn settle_body(body: Body<'_>, strict: bool) -> Result<Extent, Refusal> {
        let start = body.header.start;
        let needed = 8 * body.header.count;
        if body.chunk.len() - start < needed {
            return Err(Kind::PlainCut.at(start));
        }
        Ok(Extent {
            end: start + needed,
            padded: body.header.padded,
        })
    }

    fn fill(body: Body<'_>, column: &mut [i64]) {
        let Header { count, start, .. } = body.header;
        // By places, here and in `store`: of `zip` with `iter_mut` the library says nothing of the elements, and no proof closes.
        for (i, slot) in column[..count].iter_mut().enumerate() {
            *slot = number::of_bits(words::load(body.chunk, start + 8 * i));
        }
    }
}

impl Encoder for Plain {
    type Measured = ();

    ghost suits = { λ column measured. Unit {0} };

    ghost scratchless = { λ k. refl };

    fn measure(column: Column<'_>) {}

    fn lacking(column: Column<'_>, measured: (), space: usize) -> Option<usize> {
        let count = column.values.len();
        lacking_for(count, 8 * count, space)
    }

    fn store(column: Column<'_>, measured: (), out: &mut [u8], at: usize) -> usize {
        for (i, &key) in column.values.iter().enumerate() {
            words::store(number::bits_of(key), out, at + 8 * i);
        }
        at + 8 * column.values.len()
    }
}
