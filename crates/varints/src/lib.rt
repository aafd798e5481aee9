// Encoding 2, Varint: one signed varint each (the Rust's `VarintCodec`).
#![tactic(auto)]

ghost use Rattle.std.specs.Prelude.{refl};
ghost use Rattle.format.specs.declared.encoding.Encoding.TheVariants as Encodings;

use crate::scan::readable;
use codec::body::settle_uvarints;
use codec::chunk::{Body, Codec, Encoder};
use format::{Column, Encoding, Extent, Header, Refusal};
use keys::fill_keys;
use places::checked::put_varint;

pub(crate) mod lengths;
pub(crate) mod scan;

pub struct Varint;

impl Codec for Varint {
    ghost ENCODING = { Encodings.Varint };

    const ENCODING: Encoding = Encoding::Varint;

    // Strict reading alone looks at where a body that passes ends, and at padding: for another the varints are asked one after
    // the other only where the scan cannot tell that all are readable.
    fn settle_body(body: Body<'_>, strict: bool) -> Result<Extent, Refusal> {
        let before = body.before();
        if !strict && readable(body) {
            return Ok(before);
        }
        settle_uvarints(body.chunk, before, body.header.count)
    }

    fn fill(body: Body<'_>, column: &mut [i64]) {
        let Header { count, start, .. } = body.header;
        fill_keys(body.chunk, start, count, false, column)
    }
}

impl Encoder for Varint {
    type Measured = ();

    ghost suits = { λ column measured. Unit {0} };

    ghost scratchless = { λ k. refl };

    fn measure(column: Column<'_>) {}

    #[tactic(auto, unfolding(format::specs::Chunk::body_of))]
    fn lacking(column: Column<'_>, measured: (), space: usize) -> Option<usize> {
        lengths::lacking(column, space)
    }

    fn store(column: Column<'_>, measured: (), out: &mut [u8], at: usize) -> usize {
        let mut next = at;
        for &value in column.values {
            next = put_varint(value, out, next).unwrap();
        }
        next
    }
}
