// The record of a column's statistics, made of the pass.
ghost use Rattle.std.specs.Prelude.{◌≡◌};
ghost use Rattle.format.specs.Statistics.{sortedness_from, cardinality_of, stats_of};

use crate::pass::walk;
use format::{Cardinality, Column, IntegerStats, Sortedness};
use number::gap;

// By whether the values never fall, and whether they never rise.
fn sortedness_of(ascending: bool, descending: bool) -> Sortedness
    ensures { result ≡ sortedness_from ascending descending }
{
    match (ascending, descending) {
        (true, true) => Sortedness::Constant,
        (true, false) => Sortedness::Ascending,
        (false, true) => Sortedness::Descending,
        (false, false) => Sortedness::Unsorted,
    }
}

// The record of a column whose cardinality was found.
pub(crate) fn stats_of(column: Column<'_>, cardinality: Cardinality) -> IntegerStats
    requires { cardinality ≡ cardinality_of column.values.now }
    ensures { result ≡ stats_of column.entry.values.now }
{
    if column.values.is_empty() {
        return IntegerStats::default();
    }
    let pass = walk(column);
    let values = pass.values;
    let steps = pass.steps;
    IntegerStats {
        count: column.values.len(),
        first: column.values[0],
        min: values.low,
        max: values.high,
        run_count: pass.run_count,
        sortedness: sortedness_of(steps.ascending, steps.descending),
        cardinality,
        value_span: gap(values.low, values.high),
        max_zigzag: values.largest,
        varint_body_bytes: values.bytes,
        run_length_body_bytes: pass.run_bytes,
        delta_min: steps.low,
        delta_max: steps.high,
        delta_span: gap(steps.low, steps.high),
    }
}
