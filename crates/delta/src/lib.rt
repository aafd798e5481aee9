// Encoding 7, DeltaBinaryPacked: the first value, and blocks of bit-packed deltas, each with its own least delta (the Rust's
// `DeltaBinaryPackedCodec`). Deltas are taken, and summed again, modulo 2^64.
#![tactic(auto)]

ghost use Rattle.std.specs.Prelude.{◌≡◌, length, refl};
ghost use Rattle.format.specs.Delta.{delta_body};
ghost use Rattle.format.specs.declared.encoding.Encoding.TheVariants as Encodings;

use codec::chunk::{Body, Codec, Encoder, lacking_for};
use format::{Column, Encoding, Extent, Refusal};

pub(crate) mod filling;
pub(crate) mod running;
pub(crate) mod settling;
pub(crate) mod writing;

pub struct DeltaBinaryPacked;

impl Codec for DeltaBinaryPacked {
    ghost ENCODING = { Encodings.DeltaBinaryPacked };

    const ENCODING: Encoding = Encoding::DeltaBinaryPacked;

    #[tactic(auto, using(codec::proofs::Settling::settled_as), unfolding(format::specs::Chunk::validate_body))]
    fn settle_body(body: Body<'_>, strict: bool) -> Result<Extent, Refusal> {
        settling::settle_body(body)
    }

    fn fill(body: Body<'_>, column: &mut [i64]) {
        filling::fill(body, column)
    }
}

impl Encoder for DeltaBinaryPacked {
    // The body's length.
    type Measured = usize;

    ghost suits = { λ column body. body ≡ length (delta_body column) };

    ghost scratchless = { λ k. refl };

    fn measure(column: Column<'_>) -> usize {
        writing::body_len(column)
    }

    fn lacking(column: Column<'_>, body: usize, space: usize) -> Option<usize> {
        lacking_for(column.values.len(), body, space)
    }

    fn store(column: Column<'_>, body: usize, out: &mut [u8], at: usize) -> usize {
        writing::store(column.values, out, at);
        at + body
    }
}
