// What the port finds in a column, against what a record of data/columns.bin begins with: the statistics, the distinct values and the
// estimates.
use crate::buffers::{Element, Form, KEYS, are_old, holds as buffer_holds};
use crate::columns::chunk_at;
use crate::fields::{after, size_at, u8_at, u64_at};
use format::limits::MAX_DICTIONARY_CARDINALITY;
use format::{Cardinality, IntegerStats, SizeEstimates};

// The calls for statistics, distinct values and estimates. `scratch` gets what it holds after the first of them, and is left so by the others.
pub(crate) fn holds(r: &[u8], form: Form, column: &[i64], scratch: &mut [i64]) -> bool {
    let Ok(found) = stats::analyze_integers(column, scratch) else {
        return false;
    };
    found.stored == stored(r)
        && stats_hold(r, found.stats)
        && scratch_holds(r, form, scratch)
        && part_holds(r, form, column, scratch)
        && sizes_hold(r, column, scratch)
}

fn is_exact(r: &[u8]) -> bool {
    u8_at(r, 33) == 0
}

// How many distinct values the scratch's front gets.
pub(crate) fn stored(r: &[u8]) -> usize {
    if is_exact(r) {
        size_at(r, 34)
    } else {
        MAX_DICTIONARY_CARDINALITY
    }
}

fn stats_hold(r: &[u8], stats: IntegerStats) -> bool {
    values_hold(r, stats) && order_holds(r, stats) && runs_hold(r, stats) && deltas_hold(r, stats)
}

fn values_hold(r: &[u8], stats: IntegerStats) -> bool {
    stats.count == size_at(r, 0)
        && stats.first == key_at(r, 4)
        && stats.min == key_at(r, 12)
        && stats.max == key_at(r, 20)
        && stats.value_span == u64_at(r, 38)
        && stats.max_zigzag == u64_at(r, 46)
        && stats.varint_body_bytes == size_at(r, 54)
}

fn order_holds(r: &[u8], stats: IntegerStats) -> bool {
    let cardinality = match stats.cardinality {
        Cardinality::Exact(count) => is_exact(r) && count == size_at(r, 34),
        Cardinality::AtLeast(count) => !is_exact(r) && count == size_at(r, 34),
    };
    stats.sortedness as u64 == u64::from(u8_at(r, 32)) && cardinality
}

fn runs_hold(r: &[u8], stats: IntegerStats) -> bool {
    stats.run_count == size_at(r, 28) && stats.run_length_body_bytes == size_at(r, 58)
}

fn deltas_hold(r: &[u8], stats: IntegerStats) -> bool {
    stats.delta_min == key_at(r, 62)
        && stats.delta_max == key_at(r, 70)
        && stats.delta_span == u64_at(r, 78)
}

fn key_at(r: &[u8], at: usize) -> i64 {
    u64_at(r, at).cast_signed()
}

// Does the scratch begin with the distinct values, and is the rest as it was? Above 16,384 the record has none.
fn scratch_holds(r: &[u8], form: Form, scratch: &[i64]) -> bool {
    if is_exact(r) {
        return distinct_hold(r, form, scratch);
    }
    scratch
        .get(MAX_DICTIONARY_CARDINALITY..)
        .is_some_and(are_old)
}

// Does the buffer begin with the distinct values that the record tells, and is the rest as it was lent?
pub(crate) fn distinct_hold(r: &[u8], form: Form, buffer: &[i64]) -> bool {
    let at = chunk_at(r, form, 8);
    buffer_holds(buffer, r, form, after(at, 4), size_at(r, at))
}

// The part of the scratch that is handed back is just the distinct values. Above 16,384 the record has none, and the part is empty.
fn part_holds(r: &[u8], form: Form, column: &[i64], left: &[i64]) -> bool {
    let mut scratch = [i64::OLD; KEYS];
    let part = stats::distinct_values(column, &mut scratch);
    let is_right = part.len() == size_at(r, chunk_at(r, form, 8)) && distinct_hold(r, form, part);
    is_right && scratch.as_slice() == left
}

fn sizes_hold(r: &[u8], column: &[i64], left: &[i64]) -> bool {
    let mut scratch = [i64::OLD; KEYS];
    let Ok(survey) = estimates::estimate_sizes(column, &mut scratch) else {
        return false;
    };
    survey.analysis.stored == stored(r)
        && estimates_hold(r, survey.estimates)
        && scratch.as_slice() == left
}

// The seven lengths, each after a byte that says whether it is available; one that is not is stored as 0.
pub(crate) fn estimates_hold(r: &[u8], estimates: SizeEstimates) -> bool {
    let mut at = 94;
    for length in estimates.lengths {
        let is_told = u8_at(r, at) == 1;
        if is_told != length.is_some() || length.unwrap_or(0) != size_at(r, after(at, 1)) {
            return false;
        }
        at = after(at, 5);
    }
    true
}
