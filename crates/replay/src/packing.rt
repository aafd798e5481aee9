// The original Rust's answers on packing, in data/leaves.bin.
use crate::buffers::{BYTES, Element, Form, holds, load};
use crate::fields::{accepted, after, answer_is, size_at, u8_at, u32_at, u64_at};
use crate::made;
use crate::made::VALUES;
use format::Refusal;

// The answer of packing the first n of these values; none, if a damaged record tells of more.
fn pack_front(
    values: &[u64],
    n: usize,
    width: u32,
    out: &mut [u8],
) -> Option<Result<usize, Refusal>> {
    let front = values.get(..n)?;
    Some(bitpack::pack(front, width, out))
}

// Packing values, which may be wider than the width. Where the Rust holds no offset, the file and document 01 have 0.
pub(crate) fn pack_holds(r: &[u8]) -> bool {
    let mut values = [u64::OLD; VALUES];
    load(&mut values, r, 18);
    let n = size_at(r, 14);
    let mut out = [u8::OLD; BYTES];
    let answer = pack_front(&values, n, u32_at(r, 0), &mut out);
    let at = 18 + 8 * n;
    let length = size_at(r, at);
    r.len() == after(at, 4 + length)
        && answer.is_some_and(|answer| answer_is(
            answer,
            u32::from(u8_at(r, 4)),
            u64_at(r, 6),
            length,
        ))
        && holds(&out, r, Form::Stored, after(at, 4), length)
}

// Unpacking a body, which may be longer than needed.
pub(crate) fn unpack_holds(r: &[u8]) -> bool {
    let length = size_at(r, 18);
    let Some(body) = r.get(22..22 + length) else {
        return false;
    };
    let at = 22 + length;
    let n = size_at(r, at);
    r.len() == after(at, 4 + 8 * n)
        && unpacking_holds(
            body,
            r,
            u32::from(u8_at(r, 8)),
            u64_at(r, 10),
            Form::Stored,
            after(at, 4),
            n,
        )
}

// Unpacks a body, by the width and the count that the record begins with: is the answer this one, and are the values the n that the
// record tells at `at`?
fn unpacking_holds(
    body: &[u8],
    r: &[u8],
    number: u32,
    offset: u64,
    form: Form,
    at: usize,
    n: usize,
) -> bool {
    let count = size_at(r, 4);
    let mut out = [u64::OLD; VALUES];
    let answer = bitpack::unpack(body, u32_at(r, 0), count, &mut out);
    answer_is(answer, number, offset, count) && holds(&out, r, form, at, n)
}

// A packed length.
pub(crate) fn length_holds(r: &[u8]) -> bool {
    let answer = bitpack::packed_len(size_at(r, 0), u32_at(r, 4));
    r.len() == 12 && accepted(answer, size_at(r, 8))
}

// Packing many values, then unpacking those bytes; both by their checksums.
pub(crate) fn many_hold(r: &[u8]) -> bool {
    let n = size_at(r, 4);
    let mut out = [u8::OLD; BYTES];
    let answer = pack_front(&made::values(u64_at(r, 8)), n, u32_at(r, 0), &mut out);
    let length = size_at(r, 16);
    r.len() == 36
        && answer.is_some_and(|answer| accepted(answer, length))
        && holds(&out, r, Form::Summed, 20, length)
        && unpacking_holds(&out, r, 0, 0, Form::Summed, 28, n)
}
