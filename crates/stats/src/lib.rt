// Statistics of a column: the Rust's `analyze_integers`. The record is made in one pass, but for the cardinality: the distinct
// values, which the Rust keeps in a `HashSet`, are collected in the scratch by a pass of their own.
#![tactic(auto)]

ghost use Rattle.std.specs.Prelude.{◌≡◌, length};
ghost use Rattle.format.specs.Statistics.{stats_answer, analysis_scratch, distinct_values_part};
ghost use Rattle.stats.specs.Told.{stats_told};

use crate::record::stats_of;
use format::limits::MAX_DICTIONARY_CARDINALITY;
use format::{Cardinality, Column, IntegerStats, Kind, Refusal};

pub(crate) mod pass;
pub(crate) mod record;

// A column's statistics, and how many of its distinct values are stored at the front of the scratch.
#[derive(Clone, Copy, Debug, PartialEq, Eq)]
pub struct Analysis {
    pub stats: IntegerStats,
    pub stored: usize,
}

// The statistics of a column, and its distinct values, rising, at the front of the scratch: of more than 16,384 the first
// 16,384 met.
#[tactic(auto, using(crate::proofs::Answering::same_scratch, crate::proofs::Answering::above, crate::proofs::Answering::left))]
pub fn analyze_integers(column: &[i64], scratch: &mut [i64]) -> Result<Analysis, Refusal>
    ensures value { stats_told result ≡ stats_answer column.now (length scratch.old) }
    ensures scratch_after { scratch.new ≡ analysis_scratch column.now scratch.old }
{
    // `collect` asks this first too; here it makes the type that the pass wants.
    let within = Column::new(column)?;
    match distinct::collect(column, scratch) {
        Ok(count) => Ok(Analysis {
            stats: stats_of(within, Cardinality::Exact(count)),
            stored: count,
        }),
        Err(refusal) if refusal.kind == Kind::TooManyDistinct => Ok(Analysis {
            stats: stats_of(within, Cardinality::AtLeast(MAX_DICTIONARY_CARDINALITY + 1)),
            stored: MAX_DICTIONARY_CARDINALITY,
        }),
        Err(refusal) => Err(refusal),
    }
}

// The distinct values of a column, rising: the front part of the scratch, in which they are collected. It is empty where there are
// more than 16,384, and where a call for statistics is refused: a rule of the project, by which this call cannot fail. (01: "the part is
// empty above 16,384 and where 21 or 22 refuses".) What the scratch holds behind the part no contract can say, since the scratch is
// lent on with it; `analyze_integers` says it of the same column.
pub fn distinct_values<'a>(column: &[i64], scratch: &'a mut [i64]) -> &'a mut [i64]
    ensures result_value { result.now ≡ distinct_values_part column.now (length scratch.old) }
    ensures ref_ptr_value { result.ref_ptr ≡ scratch.entry.ref_ptr }
{
    let count = distinct::collect(column, scratch).unwrap_or(0);
    &mut scratch[..count]
}
