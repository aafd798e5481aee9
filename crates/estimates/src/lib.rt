// The seven candidate lengths of a column: the Rust's `estimate_sizes`. They are made of the column's statistics and distinct
// values, and handed on with the statistics, so that a plan analyses the column once.
#![tactic(auto)]

ghost use Rattle.std.specs.Prelude.{◌≡◌, length};
ghost use Rattle.format.specs.Estimates.{estimates_answer};
ghost use Rattle.format.specs.Statistics.{stats_answer, analysis_scratch};
ghost use Rattle.stats.specs.Told.{stats_told};
ghost use Rattle.estimates.specs.Told.{analysis_in, estimates_told};

use crate::sizes::Measured;
use format::{Refusal, SizeEstimates};
use stats::{Analysis, analyze_integers};

pub(crate) mod sizes;

// A column's analysis, and the estimates made of it.
#[derive(Clone, Copy, Debug, PartialEq, Eq)]
pub struct Survey {
    pub analysis: Analysis,
    pub estimates: SizeEstimates,
}

// The statistics and the estimates of a column; the scratch is as after a call for statistics.
pub fn estimate_sizes(column: &[i64], scratch: &mut [i64]) -> Result<Survey, Refusal>
    ensures analysed { stats_told (analysis_in result) ≡ stats_answer column.now (length scratch.old) }
    ensures estimated { estimates_told result ≡ estimates_answer column.now (length scratch.old) }
    ensures scratch_after { scratch.new ≡ analysis_scratch column.now scratch.old }
{
    let analysis = analyze_integers(column, scratch)?;
    let measured = Measured {
        stats: analysis.stats,
    };
    let estimates = measured.estimates(&scratch[..analysis.stored]);
    Ok(Survey {
        analysis,
        estimates,
    })
}
