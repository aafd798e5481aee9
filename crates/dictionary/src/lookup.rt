// The values of a Dictionary body. No scratch is lent for its entries: they are read into a local table, as many at a time as
// it holds, and for each table the codes are walked through. Entries that no code of the body's width can name are left out: a
// chunk may have millions of them. So codes of up to 14 bits, as all that we write are, need one table; wider ones cost a walk
// over the codes for each 16,384 entries.
ghost use Rattle.std.specs.Prelude.{◌≡◌, ◌+◌, ◌^◌, ◌≤◌, ◌<◌, min, length, drop, get_or, pos};
ghost use Rattle.std.proofs.lemmas.List.Edits.{sets};
ghost use Rattle.format.specs.Answers.{stored};
ghost use Rattle.format.specs.Varint.{uvarint_values, after_uvarints};
ghost use Rattle.format.specs.Packing.{packed_values};
ghost use Rattle.format.specs.Dictionary.{dictionary_values};
ghost use Rattle.places.specs.Blocks.{to_come};
ghost use Rattle.dictionary.specs.Reading.{entry_at, entries_at, picked, picked_all, ReadBody};

use crate::row::Row;
use crate::table::Table;
use codec::chunk::Body;
use format::limits::MAX_DICTIONARY_CARDINALITY;
use places::block::Blocks;
use places::unpacked::fill_by;
use varint::checked::find_any;

// Entry i: the first by itself, any other by its gap from the last.
#[tactic(auto, unfolding(crate::specs::Reading::entry_at))]
fn entry_at(i: usize, last: i64, value: u64) -> i64
    ensures { result ≡ entry_at i last value }
{
    if i == 0 {
        return number::zigzag_decode(value);
    }
    number::wrapping_add(last, number::of_bits(value))
}

// Fills a table with the entries of a row, of which the first is entry `done`, and answers the place after them.
fn load(row: Row<'_>, done: usize, before: i64, table: &mut [i64]) -> usize
    requires { (row.count ≡ length table.old) × (done + row.count ≤ length row.chunk.now) }
    ensures value { result ≡ after_uvarints row.entry.chunk.now row.entry.start (length table.old) }
    ensures table_after { table.new ≡ entries_at done before (uvarint_values row.entry.chunk.now row.entry.start (length table.old)) }
{
    let mut at = row.start;
    let mut last = before;
    for (i, slot) in table.iter_mut().enumerate() {
        let gap = find_any(row.chunk, at).unwrap();
        last = entry_at(done + i, last, gap.value);
        *slot = last;
        at = gap.next;
    }
    at
}

// How many of n entries codes of w bits can name: a code is below 2^w.
fn in_reach(n: usize, w: u32) -> usize
    ensures { result ≡ min n (2 ^ w) }
{
    if w >= 64 {
        return n;
    }
    n.min(1usize << w)
}

// The values of all codes, by as many tables of N entries as these fill. A table of 128 KiB is kept out of the callers, which
// read chunks of any encoding, and it is local: there is no heap.
#[inline(never)]
fn fill_by_tables<const N: usize>(entries: Row<'_>, codes: Blocks<'_>, column: &mut [i64])
    requires some { (0 < N) × (N ≤ 65536) }
    requires there { (entries.count ≤ length entries.chunk.now) × (length (to_come codes) ≤ length column.old) }
    ensures { column.new ≡ sets column.old 0
        (picked_all 0 (entries_at 0 (pos 0) (uvarint_values entries.entry.chunk.now entries.entry.start entries.entry.count)) (to_come codes.entry) column.old) }
{
    let mut table = [0i64; N];
    let mut at = entries.start;
    let mut last = 0;
    for done in (0..entries.count).step_by(N) {
        let held = (entries.count - done).min(N);
        let part = Row {
            chunk: entries.chunk,
            start: at,
            count: held,
        };
        at = load(part, done, last, &mut table[..held]);
        let mut decoding = Table {
            done,
            entries: &table[..held],
        };
        fill_by(codes, &mut decoding, column);
        last = table[held - 1];
    }
}

// The values of a body that was passed. A small table serves for few entries, since a local one is cleared first.
pub(crate) fn fill(body: Body<'_>, column: &mut [i64])
    requires { (body.header.count ≤ length column.old) × ReadBody body.chunk.now body.header.start body.header.count }
    ensures { column.new ≡ stored (dictionary_values body.entry.chunk.now body.entry.header.start body.entry.header.count) column.old }
{
    let Body { chunk, header } = body;
    let total = find_any(chunk, header.start).unwrap();
    let all = Row {
        chunk,
        start: total.next,
        count: total.value as usize,
    };
    let place = all.end();
    let entries = Row {
        chunk,
        start: all.start,
        count: in_reach(all.count, u32::from(chunk[place])),
    };
    let codes = Blocks::new(chunk, place, header.count);
    if entries.count <= 256 {
        fill_by_tables::<256>(entries, codes, column);
    } else {
        fill_by_tables::<MAX_DICTIONARY_CARDINALITY>(entries, codes, column);
    }
}
