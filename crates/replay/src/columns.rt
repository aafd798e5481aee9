// The original Rust's answers on columns, replayed: data/columns.bin. docs/ORACLE.md says what a record of each kind holds. The keys
// of a record, which are stored or described, go into one buffer, of which each question is then asked by a module of its own: what
// is found in the column, what is planned, and what is written.
ghost use Rattle.std.specs.Prelude.{◌≤◌};

use crate::buffers::{Element, Form, KEYS, load};
use crate::fields::{after, size_at, u8_at};
use crate::formula::Formula;
use crate::tally::{Question, Tally};
use crate::{analysed, planned, written};

pub(crate) const QUESTIONS: [Question; 6] = [
    Question::StoredColumn,
    Question::DescribedColumn,
    Question::NoKeysWritten,
    Question::Written,
    Question::TooManyDistinct,
    Question::Planned,
];

pub(crate) fn holds(kind: u8, record: &[u8], tally: &mut Tally) -> Option<Question> {
    match kind {
        1 => column_holds(record, Form::Stored, tally).then_some(Question::StoredColumn),
        2 => column_holds(record, Form::Summed, tally).then_some(Question::DescribedColumn),
        3 => written::none_holds(record).then_some(Question::NoKeysWritten),
        _ => None,
    }
}

// A column and its chunks, stored; or a column by its formula, and its chunks by their lengths and checksums.
fn column_holds(r: &[u8], form: Form, tally: &mut Tally) -> bool {
    let mut keys = [i64::OLD; KEYS];
    let Some(column) = keys.get_mut(..size_at(r, 0)) else {
        return false;
    };
    fill(column, r, form);
    let mut scratch = [i64::OLD; KEYS];
    is_whole(r, form)
        & analysed::holds(r, form, column, &mut scratch)
        & planned::hold(r, column, &scratch, tally)
        & written::hold(r, form, column, tally)
}

// Puts the record's keys into a buffer. Stored, they are the end of the first chunk, Plain.
fn fill(column: &mut [i64], r: &[u8], form: Form) {
    match form {
        Form::Stored => {
            let end = chunk_at(r, form, 2);
            load(column, r, end.wrapping_sub(8 * size_at(r, 0)));
        }
        Form::Summed => Formula::at(r, after_plans(r)).fill(column),
    }
}

// Does the record end with its distinct values, or their checksum?
fn is_whole(r: &[u8], form: Form) -> bool {
    let distinct = chunk_at(r, form, 8);
    let length = match form {
        Form::Stored => 4 + 8 * size_at(r, distinct),
        Form::Summed => 12,
    };
    r.len() == after(distinct, length)
}

// The place of a chunk's length, before the chunk or its checksum; for the id 8, of the number of distinct values, before these or
// their checksum.
pub(crate) fn chunk_at(r: &[u8], form: Form, id: u8) -> usize {
    let first = after_plans(r);
    match form {
        Form::Stored => {
            let mut at = first;
            for _ in 1..id {
                at = after(at, 4 + size_at(r, at));
            }
            at
        }
        Form::Summed => first + 68 + 12 * usize::from(id),
    }
}

// The place after the statistics, the estimates and the plans: of the first stored chunk, or of the formula.
fn after_plans(r: &[u8]) -> usize
    ensures { result ≤ 5230 }
{
    130 + 20 * usize::from(u8_at(r, 129))
}
