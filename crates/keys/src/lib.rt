// Keys in a row: Varint's body has them alone, RunLength's each with a length after it. One walk fills a column from both, since
// the compiler inlines the finding of a key, which is long, only where it is called once. Tried: `lengths` as a const parameter, whose
// two instances call it twice, took 1.2 to 1.4 times as long for keys alone and up to 2.1 times for runs.
#![tactic(auto)]

ghost use Rattle.std.specs.Prelude.{◌≡◌, ◌+◌, ◌≤◌, ◌<◌, length, replicate};
ghost use Rattle.std.proofs.lemmas.List.Edits.{sets};
ghost use Rattle.varint.specs.Finding.{found_in};
ghost use Rattle.keys.specs.Rows.{times_after, filled_from};

use format::limits::MAX_CHUNK_ELEMENTS;
use varint::checked::{find_any, find_uvarint};
use varint::find::Found;

// A length: mostly of one byte. Tried: `find_any` alone, which asks the same, but is called and not inlined; runs of one value took 14
// instructions more each, and 1.3 times as long.
#[tactic(auto, using(varint::proofs::Finding::found_none, varint::proofs::Finding::found_one))]
fn find_length(chunk: &[u8], at: usize) -> Option<Found>
    ensures { result ≡ found_in chunk.now at }
{
    let only = *chunk.get(at)?;
    if only < 128 {
        return Some(Found {
            value: u64::from(only),
            next: at + 1,
        });
    }
    find_any(chunk, at)
}

// How often a key stands that ends at `at`, and the place after that: its length, or once where there are no lengths. After a refused
// varint it is 0 and 0, here and in `fill_keys`, which cannot fail and must not.
fn times_after(chunk: &[u8], at: usize, lengths: bool) -> Found
    ensures { result ≡ times_after lengths chunk.now at }
{
    if lengths {
        return find_length(chunk, at).unwrap_or_default();
    }
    Found { value: 1, next: at }
}

// Stores a key `times` times from `at` on. Mostly that is once. Tried: `fill`, with which the compiler makes no loop of its own for
// keys without lengths, so that these cost a tenth more and short runs a half; and a loop over the slice, an instruction more a key.
fn fill_run(column: &mut [i64], at: usize, times: usize, key: i64)
    requires { at + times ≤ length column.old }
    ensures { column.new ≡ sets column.old at (replicate times key) }
{
    if times == 1 {
        column[at] = key;
        return;
    }
    for i in 0..times {
        column[at + i] = key;
    }
}

// Fills the front of a column from n keys in a row, with lengths or without, as far as there is room. A chunk has no more than
// 2^24 keys: asked of more, it stores nothing, so that no number makes the walk longer.
#[tactic(auto, using(crate::proofs::Filling::filling_refused, crate::proofs::Filling::filling_room, crate::proofs::Filling::filling_done))]
pub fn fill_keys(chunk: &[u8], from: usize, n: usize, lengths: bool, column: &mut [i64])
    ensures { column.new ≡ filled_from lengths chunk.now from n column.old }
{
    if n > MAX_CHUNK_ELEMENTS {
        return;
    }
    let mut next = from;
    let mut at = 0;
    for _ in 0..n {
        let key = find_uvarint(chunk, next).unwrap_or_default();
        let times = times_after(chunk, key.next, lengths);
        let count = times.value.min((column.len() - at) as u64) as usize;
        fill_run(column, at, count, number::zigzag_decode(key.value));
        at += count;
        next = times.next;
    }
}
