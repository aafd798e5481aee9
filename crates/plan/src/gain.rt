// The test of gain: a chunk that is slower to read than Plain's has to save enough of Plain's length.
ghost use Rattle.std.specs.Prelude.{◌≡◌, ◌≤◌};
ghost use Rattle.format.specs.Plan.{meets_gain};
ghost use Rattle.plan.specs.Gain.{level_gain};

use std::num::nearest_usize_to_f64;

// The fraction of Plain's length that has to be saved at a level: the Rust's `CompressionLevel::minimum_gain`. Nothing gains
// what level 0 asks for, and a plan at level 0 does not ask.
#[tactic(auto, using(crate::proofs::Literals::one, crate::proofs::Literals::gain_20, crate::proofs::Literals::gain_5, crate::proofs::Literals::gain_1), unfolding(crate::specs::Gain::level_gain, format::specs::Plan::minimum_gain))]
pub fn minimum_gain(level: u32) -> f64
    ensures { result ≡ level_gain level }
{
    match level {
        0 => 1.0,
        1..=3 => 0.20,
        4..=6 => 0.05,
        _ => 0.01,
    }
}

// Whether a length, as f64, does not exceed what is left of Plain's when the gain is taken off: one product, rounded once.
// The nearest f64s are made as in `ratio`.
#[tactic(auto, using(crate::proofs::Literals::one), unfolding(crate::specs::Gain::level_gain, format::specs::Plan::meets_gain, format::specs::Plan::threshold))]
pub(crate) fn meets_gain(level: u32, plain: usize, bytes: usize) -> bool
    requires { 1 ≤ level }
    ensures { result ≡ meets_gain level plain bytes }
{
    let threshold = nearest_usize_to_f64(plain) * (1.0 - minimum_gain(level));
    !(nearest_usize_to_f64(bytes) > threshold)
}
