// Columns that a chunk can have.
ghost use Rattle.std.specs.Prelude.{◌≡◌, ◌<◌, ◌≤◌, length, MatchResult};
ghost use Rattle.format.specs.Encodings.{max_chunk_elements};
ghost use Rattle.format.specs.declared.refusals.Kind.TheVariants.{ColumnAboveLimit};

use crate::limits::MAX_CHUNK_ELEMENTS;
use crate::refusals::{Kind, Refusal};

// A column of at most 2^24 values.
#[derive(Clone, Copy)]
pub struct Column<'a> {
    pub values: &'a [i64],
    ghost few: { length values.now ≤ max_chunk_elements },
}

impl<'a> Column<'a> {
    // Asks question 21: at most 2^24 values?
    pub fn new(values: &'a [i64]) -> Result<Column<'a>, Refusal>
        ensures { MatchResult result (λ column. column.values ≡ values.entry)
            (λ refusal. (refusal ≡ record { kind = ColumnAboveLimit; offset = 0 }) × (max_chunk_elements < length values.now)) }
    {
        if values.len() > MAX_CHUNK_ELEMENTS {
            return Err(Kind::ColumnAboveLimit.at(0));
        }
        Ok(Column { values })
    }
}
