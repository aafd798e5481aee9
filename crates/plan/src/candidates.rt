// The best of the seven candidates: the shortest that is available. Of one length the one that is cheaper to read wins, and else
// the earlier one.
ghost use Rattle.std.specs.Prelude.{◌≡◌};
ghost use Rattle.format.specs.Estimates.{length_in};
ghost use Rattle.format.specs.Plan.{better, best};

use codec::decode_cost_rank;
use format::{Encoding, SizeEstimates};

// The candidates, in the order of the ids.
const ENCODINGS: [Encoding; 7] = [
    Encoding::Plain,
    Encoding::Varint,
    Encoding::BitPacked,
    Encoding::FrameOfReference,
    Encoding::RunLength,
    Encoding::Dictionary,
    Encoding::DeltaBinaryPacked,
];

// A candidate's length, 0 where it is not available. Who asks has Plain or the best one, which are; an `Option` would be no plainer, since
// a plan's lengths are numbers and it would only be unwrapped again.
#[tactic(auto, unfolding(format::specs::Estimates::length_in))]
pub(crate) fn length_in(estimates: SizeEstimates, encoding: Encoding) -> usize
    ensures { result ≡ length_in estimates encoding }
{
    estimates.lengths[encoding as usize].unwrap_or(0)
}

// Whether a candidate is available and comes before the best that was found so far.
#[tactic(auto, unfolding(format::specs::Plan::better, format::specs::Estimates::available_in, format::specs::Estimates::length_in))]
fn better(estimates: SizeEstimates, encoding: Encoding, found: Encoding) -> bool
    ensures { result ≡ better estimates encoding found }
{
    let Some(bytes) = estimates.lengths[encoding as usize] else {
        return false;
    };
    let least = length_in(estimates, found);
    (bytes, decode_cost_rank(encoding)) < (least, decode_cost_rank(found))
}

// The best candidate. Plain, with which the search begins, is always available.
#[tactic(auto, using(crate::proofs::Choosing::best_none, crate::proofs::Choosing::best_taken, crate::proofs::Choosing::best_kept, crate::proofs::Choosing::best_done), unfolding(format::specs::Encodings::encodings))]
pub(crate) fn best(estimates: SizeEstimates) -> Encoding
    ensures { result ≡ best estimates }
{
    let mut found = Encoding::Plain;
    for encoding in ENCODINGS {
        if better(estimates, encoding, found) {
            found = encoding;
        }
    }
    found
}
