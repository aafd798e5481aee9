// Encoding 4, FrameOfReference: the least value, a width byte, and the differences from the least value packed at that width (the
// Rust's `FrameOfReferenceCodec`).
#![tactic(auto)]

ghost use Rattle.std.specs.Prelude.{refl};
ghost use Rattle.format.specs.declared.encoding.Encoding.TheVariants as Encodings;
ghost use Rattle.frame.specs.Fit.{Fitted};

use crate::differences::Differences;
use codec::body::settle_packed;
use codec::chunk::{Body, Codec, Encoder, lacking_for};
use format::{Column, Encoding, Extent, Header, Kind, Refusal};
use places::block::Blocks;
use places::checked::put_key;
use places::load::key_at;
use places::packed::pack_by;
use places::unpacked::fill_by;
use writing::Fit;

pub(crate) mod differences;
pub mod writing;

pub struct FrameOfReference;

impl Codec for FrameOfReference {
    ghost ENCODING = { Encodings.FrameOfReference };

    const ENCODING: Encoding = Encoding::FrameOfReference;

    // The nine bytes there? Then the questions of a packed body.
    #[tactic(auto, unfolding(format::specs::Chunk::validate_body, format::specs::Frame::validate_frame))]
    fn settle_body(body: Body<'_>, strict: bool) -> Result<Extent, Refusal> {
        let before = body.before();
        if body.chunk.len() < before.end + 9 {
            return Err(Kind::FrameCut.at(before.end));
        }
        let end = before.end + 8;
        settle_packed(body.chunk, Extent { end, ..before }, body.header.count)
    }

    fn fill(body: Body<'_>, column: &mut [i64]) {
        let Header { count, start, .. } = body.header;
        let mut differences = Differences {
            least: key_at(body.chunk, start),
        };
        let blocks = Blocks::new(body.chunk, start + 8, count);
        fill_by(blocks, &mut differences, column)
    }
}

impl Encoder for FrameOfReference {
    type Measured = Fit;

    ghost suits = { λ column fit. Fitted column fit };

    ghost scratchless = { λ k. refl };

    fn measure(column: Column<'_>) -> Fit {
        writing::fit_of(column.values)
    }

    #[tactic(auto, using(places::proofs::Packing::packed_short, crate::proofs::Body::body_length))]
    fn lacking(column: Column<'_>, fit: Fit, space: usize) -> Option<usize> {
        let count = column.values.len();
        lacking_for(count, 9 + fit.width.packed_len(count), space)
    }

    #[tactic(auto, using(places::proofs::Packing::packed_short, crate::proofs::Body::body_length))]
    fn store(column: Column<'_>, fit: Fit, out: &mut [u8], at: usize) -> usize {
        let Fit { least, width } = fit;
        let next = put_key(least, out, at).unwrap();
        out[next] = width.bits as u8;
        pack_by(
            column.values,
            &mut Differences { least },
            width,
            out,
            next + 1,
        );
        at + 9 + width.packed_len(column.values.len())
    }
}
