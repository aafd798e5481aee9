// The two quotients that travel with a plan, as f64.
ghost use Rattle.std.specs.Prelude.{◌≡◌};
ghost use Rattle.format.specs.Plan.{run_density, estimated_ratio};
ghost use Rattle.plan.specs.Ratio.{quotient_or};

use format::IntegerStats;
use std::num::nearest_usize_to_f64;

// A quotient of two numbers, or `none` where the divisor is 0. The Rust has `as f64`. Tried, and no proof closed: Rattle's rule holds only of
// a number that an f64 holds exactly.
fn quotient(n: usize, divisor: usize, none: f64) -> f64
    ensures { result ≡ quotient_or n divisor none }
{
    if divisor == 0 {
        return none;
    }
    nearest_usize_to_f64(n) / nearest_usize_to_f64(divisor)
}

// Runs by values.
#[tactic(auto, using(crate::proofs::Literals::zero), unfolding(format::specs::Plan::run_density))]
pub(crate) fn run_density(stats: IntegerStats) -> f64
    ensures { result ≡ run_density stats }
{
    quotient(stats.run_count, stats.count, 0.0)
}

// Plain bytes by estimated bytes.
#[tactic(auto, using(crate::proofs::Literals::one), unfolding(format::specs::Plan::estimated_ratio))]
pub(crate) fn estimated_ratio(plain: usize, bytes: usize) -> f64
    ensures { result ≡ estimated_ratio plain bytes }
{
    quotient(plain, bytes, 1.0)
}
