// Buffers lent to the port: what they hold before a call, and whether they hold after it what a record tells, in front, and what they
// held, behind.
use crate::fields::{after, byte_at, u64_at};
use crate::made::{FNV_START, fnv};

// More keys than a column has, more bytes than its longest chunk and than any file.
pub(crate) const KEYS: usize = 20480;

pub(crate) const BYTES: usize = 262144;

// What a buffer is made of.
pub(crate) trait Element: Copy + PartialEq {
    // What it holds before a call.
    const OLD: Self;

    // The element i places after `at` in a record.
    fn of(record: &[u8], at: usize, i: usize) -> Self;

    // The checksum with its bytes added.
    fn add_to(self, sum: u64) -> u64;
}

impl Element for u8 {
    const OLD: u8 = 0xa5;

    fn of(record: &[u8], at: usize, i: usize) -> u8 {
        byte_at(record, at, i)
    }

    fn add_to(self, sum: u64) -> u64 {
        fnv(sum, &[self])
    }
}

impl Element for u64 {
    const OLD: u64 = 0x5a5a_5a5a_5a5a_5a5a;

    fn of(record: &[u8], at: usize, i: usize) -> u64 {
        u64_at(record, after(at, i.wrapping_mul(8)))
    }

    fn add_to(self, sum: u64) -> u64 {
        fnv(sum, &self.to_le_bytes())
    }
}

impl Element for i64 {
    const OLD: i64 = 0x5a5a_5a5a_5a5a_5a5a;

    fn of(record: &[u8], at: usize, i: usize) -> i64 {
        u64::of(record, at, i).cast_signed()
    }

    fn add_to(self, sum: u64) -> u64 {
        fnv(sum, &self.to_le_bytes())
    }
}

// Are the elements as they were lent?
pub(crate) fn are_old<T: Element>(elements: &[T]) -> bool {
    elements.iter().all(|element| *element == T::OLD)
}

// Does the buffer begin with these elements, and is the rest as it was lent?
pub(crate) fn begins<T: Element>(buffer: &[T], front: &[T]) -> bool {
    buffer.strip_prefix(front).is_some_and(are_old)
}

// Puts the elements that a record has from `at` on into a buffer, as many as it holds.
pub(crate) fn load<T: Element>(buffer: &mut [T], record: &[u8], at: usize) {
    for (i, element) in buffer.iter_mut().enumerate() {
        *element = T::of(record, at, i);
    }
}

// Whether a record has the elements that it tells of, or their checksum.
#[derive(Clone, Copy, PartialEq, Eq)]
pub(crate) enum Form {
    Stored,
    Summed,
}

// Does the buffer begin with the n elements that a record tells at `at`, and is the rest as it was lent? Not, if a damaged record tells of
// more than the buffer has.
pub(crate) fn holds<T: Element>(
    buffer: &[T],
    record: &[u8],
    form: Form,
    at: usize,
    n: usize,
) -> bool {
    let Some((front, rest)) = buffer.split_at_checked(n) else {
        return false;
    };
    let is_told = match form {
        Form::Stored => are_stored(front, record, at),
        Form::Summed => front.iter().fold(FNV_START, |sum, x| x.add_to(sum)) == u64_at(record, at),
    };
    is_told && are_old(rest)
}

fn are_stored<T: Element>(elements: &[T], record: &[u8], at: usize) -> bool {
    for (i, element) in elements.iter().enumerate() {
        if *element != T::of(record, at, i) {
            return false;
        }
    }
    true
}
