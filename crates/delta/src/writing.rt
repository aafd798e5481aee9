// Measuring and storing a body. A block's deltas are those of a window of the column, one value longer than the block.
ghost use Rattle.std.specs.Prelude.{◌≡◌, [], ◌++◌, map, ◌+◌, ◌≤◌, ◌<◌, pos, length, get_or};
ghost use Rattle.std.proofs.lemmas.List.Edits.{sets};
ghost use Rattle.format.specs.Keys.{gap, delta};
ghost use Rattle.format.specs.Width.{width};
ghost use Rattle.format.specs.Encodings.{max_chunk_elements};
ghost use Rattle.format.specs.Folds.{least, greatest, deltas};
ghost use Rattle.format.specs.Delta.{block_bytes, delta_body};
ghost use Rattle.std.specs.Iterator.{YieldsFirstBy, item_count};
ghost use Rattle.delta.specs.Written.{blocks_of, to_come};

use bitpack::width::Width;
use format::Column;
use format::limits::DELTA_BLOCK_SIZE;
use places::block::BLOCK;
use places::checked::{put_packed, put_uvarint, put_varint};

// The least and the greatest of some deltas.
#[derive(Clone, Copy)]
struct Bounds {
    low: i64,
    high: i64,
}

impl Bounds {
    // The width that holds every offset from the least delta: that of the greatest's.
    fn width(self) -> Width
        ensures { result.bits ≡ width (gap self.low self.high) }
    {
        Width::of(number::gap(self.low, self.high))
    }
}

// A window of a column: the values of a block, behind the one before them.
#[derive(Clone, Copy)]
struct Window<'a> {
    values: &'a [i64],
    ghost long: { 2 ≤ length values.now },
    ghost short: { length values.now ≤ 129 },
}

impl<'a> Window<'a> {
    // The delta at a place.
    fn delta(self, i: usize) -> i64
        requires { i + 1 < length self.values.now }
        ensures { result ≡ delta (get_or self.entry.values.now i (pos 0)) (get_or self.entry.values.now (i + 1) (pos 0)) }
    {
        number::wrapping_sub(self.values[i + 1], self.values[i])
    }

    // The bounds of the deltas.
    fn bounds(self) -> Bounds
        ensures { (result.low ≡ least (deltas self.entry.values.now)) × (result.high ≡ greatest (deltas self.entry.values.now)) }
    {
        let first = self.delta(0);
        let mut low = first;
        let mut high = first;
        // Tried: `array_windows`, here and in `offsets`, with which encoding took a tenth to a fifth more: LLVM carries each value over a turn.
        for i in 1..self.values.len() - 1 {
            let delta = self.delta(i);
            low = number::lesser(low, delta);
            high = number::greater(high, delta);
        }
        Bounds { low, high }
    }

    // The offsets of the deltas from the least of them, at the front of `block`.
    fn offsets(self, low: i64, block: &mut [u64; BLOCK])
        ensures { block.new ≡ sets block.old 0 (map (gap low) (deltas self.entry.values.now)) }
    {
        for i in 0..self.values.len() - 1 {
            block[i] = number::gap(low, self.delta(i));
        }
    }

    // How many bytes the block has.
    fn block_len(self) -> usize
        ensures { result ≡ length (block_bytes (deltas self.entry.values.now)) }
    {
        let bounds = self.bounds();
        varint::varint_len(bounds.low) + 1 + bounds.width().packed_len(self.values.len() - 1)
    }

    // Stores the block from `at` on, and answers where it ends.
    // Tried: `inline(never)`, as on dictionary's `store_codes`, with which encoding took a tenth more.
    fn store(self, out: &mut [u8], at: usize) -> usize
        requires { at + length (block_bytes (deltas self.values.now)) ≤ length out.old }
        ensures value { result ≡ at + length (block_bytes (deltas self.entry.values.now)) }
        ensures out_after { out.new ≡ sets out.old at (block_bytes (deltas self.entry.values.now)) }
    {
        let bounds = self.bounds();
        let width = bounds.width();
        let mut block = [0u64; BLOCK];
        self.offsets(bounds.low, &mut block);
        let next = put_varint(bounds.low, out, at).unwrap();
        out[next] = width.bits as u8;
        let n = self.values.len() - 1;
        put_packed(&block[..n], width.bits, out, next + 1).unwrap()
    }
}

// What is left of a column for blocks that were not passed yet: the values after the last one's, and that before them.
#[derive(Drop)]
struct Windows<'a>(&'a [i64]);

impl<'a> Iterator for Windows<'a> {
    type Item = Window<'a>;

    ghost next_gives = { YieldsFirstBy (λ window. deltas window.values.now) to_come };

    ghost remaining = { item_count to_come };

    #[tactic(auto, using(crate::proofs::Measured::none_left))]
    fn next(&mut self) -> Option<Window<'a>> {
        let rest = self.0;
        if rest.len() < 2 {
            return None;
        }
        let n = (rest.len() - 1).min(DELTA_BLOCK_SIZE);
        self.0 = &rest[n..];
        Some(Window {
            values: &rest[..n + 1],
        })
    }
}

// How many bytes all blocks of a column have.
#[tactic(auto, using(crate::proofs::Measured::block_counted, crate::proofs::Measured::none_counted, crate::proofs::Measured::blocks_limit))]
fn blocks_len(column: Column<'_>) -> usize
    ensures { result ≡ length (blocks_of (deltas column.entry.values.now)) }
{
    let mut total = 0;
    for window in Windows(column.values) {
        total += window.block_len();
    }
    total
}

// How many bytes `store` stores.
pub(crate) fn body_len(column: Column<'_>) -> usize
    ensures { result ≡ length (delta_body column.entry.values.now) }
{
    let Some(&first) = column.values.first() else {
        return 0;
    };
    let block_size = varint::uvarint_len(DELTA_BLOCK_SIZE as u64);
    varint::varint_len(first) + block_size + blocks_len(column)
}

// Stores all blocks of a column from `start` on.
fn store_blocks(column: &[i64], out: &mut [u8], start: usize)
    requires { start + length (blocks_of (deltas column.now)) ≤ length out.old }
    ensures { out.new ≡ sets out.old start (blocks_of (deltas column.now)) }
{
    let mut at = start;
    for window in Windows(column) {
        at = window.store(out, at);
    }
}

// Stores the body of a column from `at` on: nothing where there are no values; else the first value, the block size, the blocks.
pub(crate) fn store(column: &[i64], out: &mut [u8], at: usize)
    requires { at + length (delta_body column.now) ≤ length out.old }
    ensures { out.new ≡ sets out.old at (delta_body column.now) }
{
    let Some(&first) = column.first() else {
        return;
    };
    let size_at = put_varint(first, out, at).unwrap();
    let blocks_at = put_uvarint(DELTA_BLOCK_SIZE as u64, out, size_at).unwrap();
    store_blocks(column, out, blocks_at);
}
