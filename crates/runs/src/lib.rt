// Encoding 5, RunLength: how many runs, then each run's value and length (the Rust's `RunLengthCodec`). There is no `Vec` of runs here: they
// are counted, measured where the output could be too short, and stored.
#![tactic(auto)]

ghost use Rattle.std.specs.Prelude.{◌≡◌, length, refl};
ghost use Rattle.format.specs.Runs.{runs};
ghost use Rattle.format.specs.declared.encoding.Encoding.TheVariants as Encodings;

use codec::chunk::{Body, Codec, Encoder};
use format::{Column, Encoding, Extent, Refusal};
use keys::fill_keys;
use varint::checked::find_any;

pub(crate) mod near;
pub(crate) mod reading;
pub(crate) mod writing;

pub struct RunLength;

impl Codec for RunLength {
    ghost ENCODING = { Encodings.RunLength };

    const ENCODING: Encoding = Encoding::RunLength;

    #[tactic(auto, using(codec::proofs::Settling::settled_as), unfolding(format::specs::Chunk::validate_body))]
    fn settle_body(body: Body<'_>, strict: bool) -> Result<Extent, Refusal> {
        reading::settle_body(body)
    }

    // A body that passed has no more runs than a chunk has values; how many was read before.
    fn fill(body: Body<'_>, column: &mut [i64]) {
        let total = find_any(body.chunk, body.header.start).unwrap();
        fill_keys(body.chunk, total.next, total.value as usize, true, column)
    }
}

impl Encoder for RunLength {
    // How many runs there are.
    type Measured = usize;

    ghost suits = { λ column count. count ≡ length (runs column) };

    ghost scratchless = { λ k. refl };

    fn measure(column: Column<'_>) -> usize {
        writing::count_runs(column.values)
    }

    #[tactic(auto, unfolding(format::specs::Chunk::body_of))]
    fn lacking(column: Column<'_>, count: usize, space: usize) -> Option<usize> {
        writing::lacking(column, count, space)
    }

    #[tactic(auto, unfolding(format::specs::Chunk::body_of))]
    fn store(column: Column<'_>, count: usize, out: &mut [u8], at: usize) -> usize {
        writing::store(column.values, count, out, at)
    }
}
