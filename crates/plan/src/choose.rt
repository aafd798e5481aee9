// From the estimates to the plan: the Rust's `choose_integer_encoding`.
ghost use Rattle.std.specs.Prelude.{◌≡◌, List, ℤ};
ghost use Rattle.format.specs.Estimates.{estimates_from};
ghost use Rattle.format.specs.Plan.{reason_of, encoding_for, plan_from};

use crate::candidates::{best, length_in};
use crate::gain::meets_gain;
use crate::ratio::{estimated_ratio, run_density};
use format::{Encoding, EncodingPlan, IntegerStats, PlanReason, SizeEstimates};

// Why the plan is what it is, the best candidate being known: what is not Plain has to save enough to be worth its slower reading.
#[tactic(auto, unfolding(format::specs::Plan::reason_of))]
fn reason(level: u32, count: usize, estimates: SizeEstimates, candidate: Encoding) -> PlanReason
    ensures { result ≡ reason_of level count estimates candidate }
{
    if count == 0 {
        return PlanReason::Empty;
    }
    if level == 0 {
        return PlanReason::CompressionDisabled;
    }
    if candidate == Encoding::Plain {
        return PlanReason::SmallestEstimate;
    }
    let plain = length_in(estimates, Encoding::Plain);
    if meets_gain(level, plain, length_in(estimates, candidate)) {
        PlanReason::SmallestEstimate
    } else {
        PlanReason::GainBelowThreshold
    }
}

// The encoding planned for a reason: the best candidate, or Plain.
fn encoding_for(reason: PlanReason, candidate: Encoding) -> Encoding
    ensures { result ≡ encoding_for reason candidate }
{
    match reason {
        PlanReason::SmallestEstimate => candidate,
        _ => Encoding::Plain,
    }
}

// The plan of a record and of the estimates made of it, whichever distinct values these were made of.
#[tactic(auto, unfolding(format::specs::Plan::plan_from))]
pub(crate) fn choose_integer_encoding(
    stats: IntegerStats,
    estimates: SizeEstimates,
    level: u32,
) -> EncodingPlan
    ensures { (entries : List ℤ) → estimates ≡ estimates_from stats entries → result ≡ plan_from level stats entries }
{
    let candidate = best(estimates);
    let reason = reason(level, stats.count, estimates, candidate);
    let encoding = encoding_for(reason, candidate);
    let estimated_bytes = length_in(estimates, encoding);
    let plain_bytes = length_in(estimates, Encoding::Plain);
    EncodingPlan {
        encoding,
        estimated_bytes,
        plain_bytes,
        reason,
        run_density: run_density(stats),
        estimated_ratio: estimated_ratio(plain_bytes, estimated_bytes),
        estimates,
    }
}
