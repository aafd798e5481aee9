// Calls that document 01 refuses and no stored record makes, on scratch and levels. A line for each, as for the entries.
use crate::buffers::{Element, KEYS, are_old};
use crate::text::entry;
use format::limits::MAX_DICTIONARY_CARDINALITY;
use format::{Encoding, EncodingPlan, IntegerStats, Kind};
use rows::{EstimatesRow, PlanRow, StatsRow};
use std::io;

pub(crate) fn run(rt: &impl Print) -> io::Result<()> {
    short_scratch(rt)?;
    one_too_many(rt)?;
    no_records(rt)
}

// A scratch of one place too few is left as it was.
fn short_scratch(rt: &impl Print) -> io::Result<()> {
    let mut scratch = [i64::OLD; 2];
    let answer = integer::encode(Encoding::Dictionary, &[3, 1, 2], &mut scratch, &mut [0; 16]);
    entry(
        rt,
        "three keys as a Dictionary chunk, into a scratch of two places",
        answer,
        answer == Err(Kind::ScratchTooShort.at(0)) && are_old(&scratch),
    )
}

// Of the keys 16,384 to 0, falling, the first 16,384 met are 16,384 to 1: the scratch has them rising, and then what it held. Statistics
// of these keys are not refused, and leave the scratch the same.
fn one_too_many(rt: &impl Print) -> io::Result<()> {
    let column = falling();
    let mut scratch = [i64::OLD; KEYS];
    let answer = integer::encode(Encoding::Dictionary, &column, &mut scratch, &mut [0; 16]);
    entry(
        rt,
        "16,385 falling keys as a Dictionary chunk, and the scratch then",
        answer,
        answer == Err(Kind::TooManyDistinct.at(0)) && rises(&scratch),
    )?;
    let mut scratch = [i64::OLD; KEYS];
    let answer = stats::analyze_integers(&column, &mut scratch).map(|found| found.stored);
    entry(
        rt,
        "their statistics, and the scratch then",
        answer,
        answer == Ok(MAX_DICTIONARY_CARDINALITY) && rises(&scratch),
    )
}

fn falling() -> [i64; MAX_DICTIONARY_CARDINALITY + 1] {
    let mut keys = [0; MAX_DICTIONARY_CARDINALITY + 1];
    for (key, n) in keys.iter_mut().rev().zip(0..16385) {
        *key = n;
    }
    keys
}

// Does the scratch begin with 1 to 16,384, and is the rest as it was lent?
fn rises(scratch: &[i64]) -> bool {
    let Some((front, rest)) = scratch.split_at_checked(MAX_DICTIONARY_CARDINALITY) else {
        return false;
    };
    front.iter().copied().eq(1..16385) && are_old(rest)
}

// The rows of a refused call, by include/warpboulder.h: "number 0 (the encoding of a plan 1, a cardinality exact)".
const NO_STATS: StatsRow = StatsRow {
    count: 0,
    first: 0,
    min: 0,
    max: 0,
    run_count: 0,
    sortedness: 0,
    cardinality: 0,
    cardinality_is_exact: 1,
    value_span: 0,
    max_zigzag: 0,
    varint_body_bytes: 0,
    run_length_body_bytes: 0,
    delta_min: 0,
    delta_max: 0,
    delta_span: 0,
};

const NO_ESTIMATES: EstimatesRow = EstimatesRow {
    lengths: [0; 7],
    available: [0; 7],
};

const NO_PLAN: PlanRow = PlanRow {
    encoding: 1,
    estimated_bytes: 0,
    plain_bytes: 0,
    reason: 0,
    run_density: 0.0,
    estimated_ratio: 0.0,
    estimates: NO_ESTIMATES,
};

// A refused call has no record; the C interface then stores the default's row. The level is asked first: before the
// scratch, which is too short as well.
fn no_records(rt: &impl Print) -> io::Result<()> {
    let mut scratch = [i64::OLD; 2];
    let answer = stats::analyze_integers(&[3, 1, 2], &mut scratch).map(|found| found.stored);
    let has_no_stats = StatsRow::from(IntegerStats::default()) == NO_STATS;
    entry(
        rt,
        "the statistics of three keys, with a scratch of two places",
        answer,
        answer == Err(Kind::ScratchTooShort.at(0)) && are_old(&scratch) && has_no_stats,
    )?;
    let answer = plan::analyze(&[3, 1, 2], 10, &mut scratch).map(|found| found.stored);
    let has_no_plan = PlanRow::from(EncodingPlan::default()) == NO_PLAN;
    entry(
        rt,
        "their plan at level 10",
        answer,
        answer == Err(Kind::LevelAbove9.at(0)) && are_old(&scratch) && has_no_plan,
    )
}
