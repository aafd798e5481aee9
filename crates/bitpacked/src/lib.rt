// Encoding 3, BitPacked: a width byte, and the ZigZags of the column packed at that width (the Rust's `BitPackedCodec`).
#![tactic(auto)]

ghost use Rattle.std.specs.Prelude.{◌≡◌, map, refl};
ghost use Rattle.format.specs.Folds.{largest};
ghost use Rattle.format.specs.Keys.{zigzag};
ghost use Rattle.format.specs.Width.{width};
ghost use Rattle.format.specs.declared.encoding.Encoding.TheVariants as Encodings;

use bitpack::width::Width;
use codec::body::settle_packed;
use codec::chunk::{Body, Codec, Encoder, lacking_for};
use format::{Column, Encoding, Extent, Header, Refusal};
use places::block::Blocks;
use places::packed::pack_by;
use places::unpacked::fill_by;
use zigzags::ZigZags;

pub(crate) mod zigzags;

pub struct BitPacked;

impl Codec for BitPacked {
    ghost ENCODING = { Encodings.BitPacked };

    const ENCODING: Encoding = Encoding::BitPacked;

    fn settle_body(body: Body<'_>, strict: bool) -> Result<Extent, Refusal> {
        settle_packed(body.chunk, body.before(), body.header.count)
    }

    fn fill(body: Body<'_>, column: &mut [i64]) {
        let Header { count, start, .. } = body.header;
        fill_by(Blocks::new(body.chunk, start, count), &mut ZigZags, column)
    }
}

impl Encoder for BitPacked {
    // The width of the largest ZigZag.
    type Measured = Width;

    ghost suits = { λ column packed. packed.bits ≡ width (largest (map zigzag column)) };

    ghost scratchless = { λ k. refl };

    fn measure(column: Column<'_>) -> Width {
        Width::of(number::zigzag_bits(column.values))
    }

    #[tactic(auto, using(places::proofs::Packing::packed_short, crate::proofs::Body::body_length))]
    fn lacking(column: Column<'_>, width: Width, space: usize) -> Option<usize> {
        let count = column.values.len();
        lacking_for(count, 1 + width.packed_len(count), space)
    }

    #[tactic(auto, using(places::proofs::Packing::packed_short, crate::proofs::Body::body_length, crate::proofs::Body::body_is))]
    fn store(column: Column<'_>, width: Width, out: &mut [u8], at: usize) -> usize {
        out[at] = width.bits as u8;
        pack_by(column.values, &mut ZigZags, width, out, at + 1);
        at + 1 + width.packed_len(column.values.len())
    }
}
