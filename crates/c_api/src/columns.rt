// Columns: statistics, distinct values, estimates and the plan.
ghost use Rattle.std.specs.Prelude.{◌≡◌, length};
ghost use Rattle.format.specs.Answers.{number_of};
ghost use Rattle.format.specs.Statistics.{stats_answer, analysis_scratch, distinct_values_part};
ghost use Rattle.format.specs.Estimates.{estimates_answer};
ghost use Rattle.format.specs.Plan.{plan_answer, plan_scratch};
ghost use Rattle.plan.specs.Gain.{level_gain};
ghost use Rattle.rows.specs.Rows.{stats_row, estimates_row, plan_row};
ghost use Rattle.c_api.specs.Told.{told};

use crate::tell;
use format::Kind;
use rows::{EstimatesRow, PlanRow, StatsRow};

// The statistics of a column; the scratch's front has its distinct values.
#[unsafe(no_mangle)]
pub extern "C" fn wb_analyze_integers(
    column: &[i64],
    scratch: &mut [i64],
    stats: &mut StatsRow,
    place: &mut usize,
) -> u32
    ensures place_after { (result, place.new) ≡ told (stats_answer column.now (length scratch.old)).answer }
    ensures stats_after { stats.new ≡ stats_row (stats_answer column.now (length scratch.old)).stats }
    ensures scratch_after { scratch.new ≡ analysis_scratch column.now scratch.old }
{
    let answer = stats::analyze_integers(column, scratch);
    let record = answer.map(|analysis| analysis.stats);
    *stats = record.unwrap_or_default().into();
    tell(answer.map(|analysis| analysis.stored), place)
}

// The distinct values of a column, rising, at the front of the scratch, and how many: 0 above 16,384. A refusal's offset is 0 too.
#[unsafe(no_mangle)]
pub extern "C" fn wb_distinct_values(column: &[i64], scratch: &mut [i64], place: &mut usize) -> u32
    ensures value { result ≡ number_of (stats_answer column.now (length scratch.old)).answer }
    ensures place_after { place.new ≡ length (distinct_values_part column.now (length scratch.old)) }
    ensures scratch_after { scratch.new ≡ analysis_scratch column.now scratch.old }
{
    match distinct::collect(column, scratch) {
        Ok(count) => tell(Ok(count), place),
        Err(refusal) if refusal.kind == Kind::TooManyDistinct => tell(Ok(0), place),
        Err(refusal) => tell(Err(refusal.kind.at(0)), place),
    }
}

// The seven lengths of a column and which are available, with the statistics that they are made of.
#[unsafe(no_mangle)]
pub extern "C" fn wb_estimate_sizes(
    column: &[i64],
    scratch: &mut [i64],
    stats: &mut StatsRow,
    estimates: &mut EstimatesRow,
    place: &mut usize,
) -> u32
    ensures place_after { (result, place.new) ≡ told (stats_answer column.now (length scratch.old)).answer }
    ensures stats_after { stats.new ≡ stats_row (stats_answer column.now (length scratch.old)).stats }
    ensures estimates_after { estimates.new ≡ estimates_row (estimates_answer column.now (length scratch.old)).estimates }
    ensures scratch_after { scratch.new ≡ analysis_scratch column.now scratch.old }
{
    let answer = estimates::estimate_sizes(column, scratch);
    let record = answer.map(|survey| survey.analysis.stats);
    let sizes = answer.map(|survey| survey.estimates);
    *stats = record.unwrap_or_default().into();
    *estimates = sizes.unwrap_or_default().into();
    tell(answer.map(|survey| survey.analysis.stored), place)
}

// The plan of a column at a level.
#[unsafe(no_mangle)]
pub extern "C" fn wb_analyze(
    column: &[i64],
    level: u32,
    scratch: &mut [i64],
    plan: &mut PlanRow,
    place: &mut usize,
) -> u32
    ensures place_after { (result, place.new) ≡ told (plan_answer level column.now (length scratch.old)).answer }
    ensures plan_after { plan.new ≡ plan_row (plan_answer level column.now (length scratch.old)).plan }
    ensures scratch_after { scratch.new ≡ plan_scratch level column.now scratch.old }
{
    let answer = plan::analyze(column, level, scratch);
    let record = answer.map(|planned| planned.plan);
    *plan = record.unwrap_or_default().into();
    tell(answer.map(|planned| planned.stored), place)
}

// The fraction of Plain's length that has to be saved at a level.
#[unsafe(no_mangle)]
pub extern "C" fn wb_minimum_gain(level: u32) -> f64
    ensures { result ≡ level_gain level }
{
    plan::gain::minimum_gain(level)
}
