// The original Rust's answers on reading chunks, replayed: data/chunks.bin. docs/ORACLE.md says what a record of each kind holds.
ghost use Rattle.std.specs.Prelude.{◌<◌, ◌≤◌};

use crate::buffers::{Element, Form, KEYS, are_old, holds as buffer_holds};
use crate::fields::{accepted, after, answer_is, size_at, u8_at, u16_at, u32_at};
use crate::tally::{Question, Tally};
use format::limits::MAX_CHUNK_ELEMENTS;
use format::{Kind, Refusal};

pub(crate) const QUESTIONS: [Question; 5] = [
    Question::StoredChunk,
    Question::SummedChunk,
    Question::Accepted,
    Question::Refused,
    Question::Large,
];

// Places in the column buffer where the values are stored: more than these chunks give. Where they are summed the chunks give no more
// than a column has, but for those of 2^24 values.
const FEW: usize = 128;

pub(crate) fn holds(kind: u8, record: &[u8], tally: &mut Tally) -> Option<Question> {
    match kind {
        1 => few_hold(record, tally).then_some(Question::StoredChunk),
        2 => many_hold(record, tally).then_some(Question::SummedChunk),
        _ => None,
    }
}

// By `&`, here and in `columns`: the readings are asked, and counted, of a record of a wrong length too.
fn few_hold(r: &[u8], tally: &mut Tally) -> bool {
    let mut column = [0; FEW];
    let is_whole = r.len() == count_at(r) + 4 + 8 * size_at(r, count_at(r));
    is_whole & readings_hold(r, Form::Stored, &mut column, tally)
}

fn many_hold(r: &[u8], tally: &mut Tally) -> bool {
    let mut column = [0; KEYS];
    let is_whole = r.len() == count_at(r) + 12;
    is_whole & readings_hold(r, Form::Summed, &mut column, tally)
}

// The places of a record's parts: the end of the chunk, which has its length before it, and the count after the answers, before the
// values.
fn chunk_end(r: &[u8]) -> usize
    ensures { (3 ≤ result) × (result < 65539) }
{
    3 + usize::from(u16_at(r, 1))
}

fn count_at(r: &[u8]) -> usize
    ensures { result < 67070 }
{
    let end = chunk_end(r);
    end + 1 + 6 * usize::from(u8_at(r, end))
}

// The eight readings: the unnamed one, and one by each encoding. The first that does not hold ends them.
fn readings_hold(r: &[u8], form: Form, column: &mut [i64], tally: &mut Tally) -> bool {
    for reading in 0..8 {
        let Some(question) = reading_holds(r, reading, form, column) else {
            return false;
        };
        tally.add(question);
    }
    true
}

// What a reading counts as.
fn reading_holds(r: &[u8], reading: u32, form: Form, column: &mut [i64]) -> Option<Question> {
    let end = chunk_end(r);
    let chunk = r.get(3..end)?;
    column.fill(i64::OLD);
    let name = (reading > 0).then_some(reading);
    let answer = integer::decode_either(chunk, name, false, column);
    let at = answer_at(r, end, reading);
    match u8_at(r, after(at, 1)) {
        0 => accepted_holds(answer, r, form, column),
        number => {
            let offset = u64::from(u32_at(r, after(at, 2)));
            let is_right = answer_is(answer, u32::from(number), offset, 0) && are_old(column);
            is_right.then_some(Question::Refused)
        }
    }
}

// The place of the Rust's answer to a reading: of the answers after the chunk, the first that has its bit.
fn answer_at(r: &[u8], end: usize, reading: u32) -> usize {
    let mut at = after(end, 1);
    for _ in 0..u8_at(r, end) {
        if (u64::from(u8_at(r, at)) >> reading.min(63)) & 1 == 1 {
            return at;
        }
        at = after(at, 6);
    }
    at
}

// The front of the buffer has the values, and the rest is as it was. A column of 2^24 values takes 128 MiB: there the port must refuse the
// buffer, with that length, which it does only when the chunk has passed every other question.
fn accepted_holds(
    answer: Result<usize, Refusal>,
    r: &[u8],
    form: Form,
    column: &[i64],
) -> Option<Question> {
    let count = size_at(r, count_at(r));
    if count > column.len() {
        let is_right = answer == Err(Kind::BufferTooShort.at(count)) && are_old(column);
        return (is_right && count == MAX_CHUNK_ELEMENTS).then_some(Question::Large);
    }
    let is_right = accepted(answer, count) && buffer_holds(column, r, form, count_at(r) + 4, count);
    is_right.then_some(Question::Accepted)
}
