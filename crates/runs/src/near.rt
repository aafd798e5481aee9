// Reading the varints of runs: a key is mostly there and unpadded, and a length mostly has one byte. The functions here tell just
// these cases, so that the compiler inlines them, and leave the others to the calls for any varint.
ghost use Rattle.std.specs.Prelude.{◌≡◌};
ghost use Rattle.format.specs.Answers.{outcome_of};
ghost use Rattle.format.specs.Varint.{read_uvarint, validate_uvarints};

use codec::body::with_varint;
use format::{Extent, Refusal, Uvarint};
use varint::checked::uvarint_end;

// A run's length. Tried: `varint::read_uvarint` alone, which tells a byte below 128 first too, and is inlined with more; runs of one value
// took 7 instructions more each, a fifth longer.
#[tactic(auto, using(varint::proofs::Reading::answer_one))]
pub(crate) fn read_length(chunk: &[u8], at: usize) -> Result<Uvarint, Refusal>
    ensures { outcome_of result ≡ read_uvarint chunk.now at }
{
    match chunk.get(at) {
        Some(&only) if only < 128 => Ok(Uvarint {
            value: u64::from(only),
            next: at + 1,
            unpadded: true,
        }),
        _ => varint::read_uvarint(chunk, at),
    }
}

// The questions of a run's key, of which only the extent counts. Mostly it is there and unpadded: it has an end, and one byte or a last
// one that is not 0.
#[tactic(auto, using(crate::proofs::Keys::end_range, crate::proofs::Keys::tight_last, crate::proofs::Keys::tight_one), unfolding(format::specs::Varint::validate_uvarints))]
pub(crate) fn settle_key(chunk: &[u8], before: Extent) -> Result<Extent, Refusal>
    ensures { outcome_of result ≡ validate_uvarints chunk.now before.end 1 before.padded }
{
    if let Some(end) = uvarint_end(chunk, before.end) {
        if chunk[end - 1] != 0 || end - before.end == 1 {
            return Ok(Extent { end, ..before });
        }
    }
    let read = varint::read_uvarint(chunk, before.end)?;
    Ok(with_varint(before, read))
}
