// Finding varints, most of which are short and there. What is found is two numbers, or none, and not why, so that a caller's loop
// keeps it in registers; the compiler unrolls the walks here, so that the next place waits for no load, only for tests that are mostly
// foreseen. The ninth byte is not tested but counted: of random keys half have a tenth. That ten bytes are there stands in three contracts,
// here and in `long`: an array of ten in place of the slice is no plainer, since what is found is said of places in all the bytes.
ghost use Rattle.std.specs.Prelude.{◌≡◌, ◌+◌, ◌/◌, ◌<◌, ◌≤◌, length};
ghost use Rattle.varint.specs.Reading.{Reading};
ghost use Rattle.varint.specs.Finding.{Walked, found_in, end_in};

use crate::find::Found;
use crate::long::read_rest;
use crate::words::group;
use format::Uvarint;

// Finds a varint that stands alone, or one that is mostly of one byte: a longer one costs a call.
#[tactic(auto, using(crate::proofs::Finding::found_none, crate::proofs::Finding::found_one, crate::proofs::Finding::found_some))]
pub fn find_any(bytes: &[u8], at: usize) -> Option<Found>
    ensures { result ≡ found_in bytes.now at }
{
    let only = *bytes.get(at)?;
    if only < 128 {
        return Some(Found {
            value: u64::from(only),
            next: at + 1,
        });
    }
    let Uvarint { value, next, .. } = read_rest(bytes, at).ok()?;
    Some(Found { value, next })
}

// A varint of more than eight bytes, which are worth `low`.
#[tactic(auto, using(crate::proofs::Finding::found_long, crate::proofs::Finding::found_over))]
fn find_long(bytes: &[u8], at: usize, low: u64) -> Option<Found>
    requires { (at + 10 ≤ length bytes.now) × Reading bytes.now at low (at + 8) 56 }
    ensures { result ≡ found_in bytes.now at }
{
    let ninth = bytes[at + 8];
    let more = usize::from(ninth >= 128);
    let last = bytes[at + 8 + more];
    if last >= 128 {
        return None;
    }
    let value = low.wrapping_add(group(ninth) << 56);
    Some(Found {
        value: value.wrapping_add((group(last) * more as u64) << 63),
        next: at + 9 + more,
    })
}

// Finds a varint in a loop.
pub fn find_uvarint(bytes: &[u8], at: usize) -> Option<Found>
    ensures { result ≡ found_in bytes.now at }
{
    // Fewer than ten bytes there? By one test, of which a caller's loop repeats the comparison alone.
    if bytes.len().saturating_sub(9) <= at {
        return find_any(bytes, at);
    }
    let first = bytes[at];
    if first < 128 {
        return Some(Found {
            value: u64::from(first),
            next: at + 1,
        });
    }
    let mut value = group(first);
    // Tried: the bytes of a slice by `iter().enumerate()`, a loop that is not unrolled: keys of more than one byte took 1.9 to 3.4 times as long.
    for k in 1..8 {
        let b = bytes[at + k];
        value = value.wrapping_add(group(b) << (7 * k as u32));
        if b < 128 {
            return Some(Found {
                value,
                next: at + k + 1,
            });
        }
    }
    find_long(bytes, at, value)
}

// The end of a varint of more than eight bytes.
#[tactic(auto, using(crate::proofs::Finding::end_long, crate::proofs::Finding::end_over))]
fn end_of_long(bytes: &[u8], at: usize) -> Option<usize>
    requires { (at + 10 ≤ length bytes.now) × Walked bytes.now at 8 }
    ensures { result ≡ end_in bytes.now at }
{
    let more = usize::from(bytes[at + 8] >= 128);
    if bytes[at + 8 + more] >= 128 {
        return None;
    }
    Some(at + 9 + more)
}

// The place after the varint that begins at a place.
pub fn uvarint_end(bytes: &[u8], at: usize) -> Option<usize>
    ensures { result ≡ end_in bytes.now at }
{
    // Fewer than ten bytes there? By one test, as in `find_uvarint`.
    if bytes.len().saturating_sub(9) <= at {
        return find_any(bytes, at).map(|found| found.next);
    }
    // Tried: the eight bytes by `iter().position(..)`; keys of one byte took 13 instructions in place of 9, and half as much time again.
    for k in 0..8 {
        if bytes[at + k] < 128 {
            return Some(at + k + 1);
        }
    }
    end_of_long(bytes, at)
}
