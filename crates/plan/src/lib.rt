// The plan of a column: the Rust's `choose_integer_encoding` and `analyze`, and the gain of its `CompressionLevel`.
#![tactic(auto)]

ghost use Rattle.std.specs.Prelude.{◌≡◌, length};
ghost use Rattle.format.specs.Plan.{plan_answer, plan_scratch};
ghost use Rattle.plan.specs.Told.{plan_told};

use crate::choose::choose_integer_encoding;
use format::limits::MAX_LEVEL;
use format::{EncodingPlan, Kind, Refusal};

// The lengths, without a plan.
pub use estimates::estimate_sizes;

pub(crate) mod candidates;
pub(crate) mod choose;
pub mod gain;
pub(crate) mod ratio;

// A column's plan, and how many of its distinct values are stored at the front of the scratch.
#[derive(Clone, Copy, Debug)]
pub struct Planned {
    pub plan: EncodingPlan,
    pub stored: usize,
}

// The plan of a column at a level, 0 to 9.
#[tactic(auto, using(crate::proofs::Surveying::level_refused, crate::proofs::Surveying::survey_refused, crate::proofs::Surveying::plan_scratch_low, crate::proofs::Surveying::plan_scratch_high))]
pub fn analyze(column: &[i64], level: u32, scratch: &mut [i64]) -> Result<Planned, Refusal>
    ensures value { plan_told result ≡ plan_answer level column.now (length scratch.old) }
    ensures scratch_after { scratch.new ≡ plan_scratch level column.now scratch.old }
{
    if level > MAX_LEVEL {
        return Err(Kind::LevelAbove9.at(0));
    }
    let survey = estimate_sizes(column, scratch)?;
    let stats = survey.analysis.stats;
    Ok(Planned {
        plan: choose_integer_encoding(stats, survey.estimates, level),
        stored: survey.analysis.stored,
    })
}
