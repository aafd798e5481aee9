// The original Rust's answers on numbers, varints and packing, replayed: data/leaves.bin. docs/ORACLE.md says what a record of
// each kind holds.
use crate::fields::{accepted, after, u8_at, u16_at, u64_at};
use crate::packing;
use crate::tally::Question;
use format::Refusal;

pub(crate) const QUESTIONS: [Question; 6] = [
    Question::Number,
    Question::VarintRead,
    Question::Packing,
    Question::Unpacking,
    Question::PackedLength,
    Question::PackingOfMany,
];

pub(crate) fn holds(kind: u8, record: &[u8]) -> Option<Question> {
    match kind {
        1 => number_holds(record).then_some(Question::Number),
        2 => reading_holds(record).then_some(Question::VarintRead),
        3 => packing::pack_holds(record).then_some(Question::Packing),
        4 => packing::unpack_holds(record).then_some(Question::Unpacking),
        5 => packing::length_holds(record).then_some(Question::PackedLength),
        6 => packing::many_hold(record).then_some(Question::PackingOfMany),
        _ => None,
    }
}

// A number's ZigZag both ways, its width, its length and bytes as a varint, unsigned and signed.
fn number_holds(r: &[u8]) -> bool {
    let x = u64_at(r, 0);
    let key = x.cast_signed();
    let mut out = [0; 10];
    let answer = varint::write_uvarint(x, &mut out);
    let is_written = written_holds(answer, varint::uvarint_len(x), &out, r, 25);
    let mut out = [0; 10];
    let answer = varint::write_varint(key, &mut out);
    r.len() == 47
        && u64_at(r, 8) == number::zigzag_encode(key)
        && u64_at(r, 16) == number::zigzag_decode(x).cast_unsigned()
        && u32::from(u8_at(r, 24)) == number::required_width(x)
        && is_written
        && written_holds(answer, varint::varint_len(key), &out, r, 36)
}

// Has the record this length at `at`, and behind it ten bytes to which this was written?
fn written_holds(
    answer: Result<usize, Refusal>,
    length: usize,
    out: &[u8; 10],
    r: &[u8],
    at: usize,
) -> bool {
    usize::from(u8_at(r, at)) == length
        && accepted(answer, length)
        && r.get(after(at, 1)..)
            .is_some_and(|rest| rest.starts_with(out))
}

// Reading at a place, unsigned and signed.
fn reading_holds(r: &[u8]) -> bool {
    let Some(bytes) = r.get(44..) else {
        return false;
    };
    let place = u64_at(r, 0) as usize;
    let unsigned = varint::read_uvarint(bytes, place).map(|read| (read.value, read.next));
    let signed = varint::read_varint(bytes, place).map(|read| (read.value, read.next));
    bytes.len() == usize::from(u16_at(r, 42))
        && read_holds(unsigned, 18, r)
        && read_holds(signed.map(|(key, next)| (key.cast_unsigned(), next)), 26, r)
}

// Is this what the record tells: the value at a place of its own, and the next place; or the refusal?
fn read_holds(answer: Result<(u64, usize), Refusal>, field: usize, r: &[u8]) -> bool {
    match answer {
        Ok((value, next)) => {
            u8_at(r, 8) == 0 && u64_at(r, field) == value && u64_at(r, 34) == next as u64
        }
        Err(Refusal { kind, offset }) => {
            u32::from(u8_at(r, 8)) == kind.number() && u64_at(r, 10) == offset as u64
        }
    }
}
