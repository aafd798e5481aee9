// What the port writes of a column, and reads back, in each encoding: the chunks and the distinct values of data/columns.bin.
use crate::analysed::distinct_hold;
use crate::buffers::{BYTES, Element, Form, KEYS, are_old, begins, holds as buffer_holds};
use crate::columns::chunk_at;
use crate::fields::{accepted, after, answer_is, size_at, u8_at};
use crate::tally::{Question, Tally};
use format::limits::MAX_DICTIONARY_CARDINALITY;
use format::{Encoding, Kind};

// The seven chunks. The first that does not hold ends them.
pub(crate) fn hold(r: &[u8], form: Form, column: &[i64], tally: &mut Tally) -> bool {
    for id in 1..8 {
        let Some(question) = chunk(r, form, id, column) else {
            return false;
        };
        tally.add(question);
    }
    true
}

// What the chunk counts as. A length of 0 stands for a Dictionary chunk of too many distinct values.
fn chunk(r: &[u8], form: Form, id: u8, column: &[i64]) -> Option<Question> {
    let at = chunk_at(r, form, id);
    let length = size_at(r, at);
    if length == 0 {
        return too_many_holds(column, id).then_some(Question::TooManyDistinct);
    }
    chunk_holds(r, form, id, column).then_some(Question::Written)
}

fn chunk_holds(r: &[u8], form: Form, id: u8, column: &[i64]) -> bool {
    let at = chunk_at(r, form, id);
    let length = size_at(r, at);
    let mut scratch = [i64::OLD; KEYS];
    let mut out = [u8::OLD; BYTES];
    let answer = integer::encode_integers(column, u32::from(id), &mut scratch, &mut out);
    let Some(chunk) = out.get(..length) else {
        return false;
    };
    accepted(answer, length)
        && buffer_holds(&out, r, form, after(at, 4), length)
        && scratch_holds(r, form, id, &scratch)
        && short_holds(column, id, length, &scratch)
        && reads_back(chunk, u32::from(id), column)
}

// Does the scratch begin with the distinct values, if the encoding is Dictionary, and is the rest as it was?
fn scratch_holds(r: &[u8], form: Form, id: u8, scratch: &[i64]) -> bool {
    if id == Encoding::Dictionary.id() {
        distinct_hold(r, form, scratch)
    } else {
        are_old(scratch)
    }
}

// With one byte less than needed the answer is that length, and the scratch is left as by the call that has room.
fn short_holds(column: &[i64], id: u8, needed: usize, left: &[i64]) -> bool {
    let mut scratch = [i64::OLD; KEYS];
    let number = Kind::BufferTooShort.number();
    let room = needed.saturating_sub(1);
    is_refused(column, id, room, number, needed, &mut scratch) && scratch.as_slice() == left
}

// Document 01 refuses a Dictionary chunk of too many distinct values, some of which are then in the scratch.
fn too_many_holds(column: &[i64], id: u8) -> bool {
    let mut scratch = [i64::OLD; KEYS];
    let number = Kind::TooManyDistinct.number();
    id == Encoding::Dictionary.id()
        && is_refused(column, id, BYTES, number, 0, &mut scratch)
        && are_old(&scratch[MAX_DICTIONARY_CARDINALITY..])
}

// An encoding that writes no keys. Document 01 has the offset 0, the Rust none.
pub(crate) fn none_holds(r: &[u8]) -> bool {
    let mut scratch = [i64::OLD; 4];
    r.len() == 2
        && is_refused(
            &[1, 2, 3],
            u8_at(r, 0),
            64,
            u32::from(u8_at(r, 1)),
            0,
            &mut scratch,
        )
        && are_old(&scratch)
}

// Is the column refused so many bytes of room, with this number and offset, and is the output then as it was?
fn is_refused(
    column: &[i64],
    id: u8,
    room: usize,
    number: u32,
    offset: usize,
    scratch: &mut [i64],
) -> bool {
    let mut out = [u8::OLD; BYTES];
    let Some(lent) = out.get_mut(..room) else {
        return false;
    };
    let answer = integer::encode_integers(column, u32::from(id), scratch, lent);
    answer_is(answer, number, offset as u64, 0) && are_old(&out)
}

// Does the chunk read back, unnamed and named, strict and not?
fn reads_back(chunk: &[u8], id: u32, column: &[i64]) -> bool {
    for name in [None, Some(id)] {
        for strict in [false, true] {
            let mut back = [i64::OLD; KEYS];
            let answer = integer::decode_either(chunk, name, strict, &mut back);
            if !accepted(answer, column.len()) || !begins(&back, column) {
                return false;
            }
        }
    }
    true
}
