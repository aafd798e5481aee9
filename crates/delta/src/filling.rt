// Values stored in the column, by the deltas of blocks that were read before.
ghost use Rattle.std.specs.Prelude.{◌≡◌, ◌+◌, ◌≤◌, ◌<◌, length};
ghost use Rattle.format.specs.Encodings.{max_chunk_elements};
ghost use Rattle.format.specs.Answers.{stored};
ghost use Rattle.format.specs.Delta.{block_count, block_deltas, delta_values};
ghost use Rattle.delta.specs.Summed.{from_least, summed};
ghost use Rattle.delta.specs.There.{BlocksThere, BodyThere};
ghost use Rattle.places.specs.Blocks.{to_come};

use crate::running::RunningSum;
use codec::chunk::Body;
use places::block::Blocks;
use places::unpacked::fill_by;

// The values of a block, by its least delta and its offsets, behind the value at `from`.
fn fill_block(offsets: Blocks<'_>, least: i64, column: &mut [i64], from: usize)
    requires { from + length (to_come offsets) < length column.old }
    ensures { column.new ≡ summed column.old from (from_least least (to_come offsets.entry)) }
{
    let mut sum = RunningSum {
        last: column[from],
        least,
    };
    fill_by(offsets, &mut sum, &mut column[from + 1..]);
}

// The values of blocks of `deltas` deltas in all, from a place on, behind the first value.
fn fill_blocks(chunk: &[u8], size: usize, from: usize, deltas: usize, column: &mut [i64])
    requires { (1 ≤ size) × (deltas ≤ max_chunk_elements) × (deltas < length column.old) × BlocksThere chunk.now size from deltas }
    ensures { column.new ≡ summed column.old 0 (block_deltas chunk.now size from (block_count size deltas) deltas) }
{
    let mut at = from;
    for done in (0..deltas).step_by(size) {
        let n = (deltas - done).min(size);
        // It was read before.
        let least = varint::read_varint(chunk, at).unwrap();
        let offsets = Blocks::new(chunk, least.next, n);
        fill_block(offsets, least.value, column, done);
        at = offsets.end();
    }
}

// The values of a body that was asked for and found.
pub(crate) fn fill(body: Body<'_>, column: &mut [i64])
    requires { (body.header.count ≤ length column.old) × BodyThere body.chunk.now body.header.start body.header.count }
    ensures { column.new ≡ stored (delta_values body.entry.chunk.now body.entry.header.start body.entry.header.count) column.old }
{
    let Body { chunk, header } = body;
    if header.count == 0 {
        return;
    }
    // Both varints were read before.
    let first = varint::read_varint(chunk, header.start).unwrap();
    let size = varint::read_uvarint(chunk, first.next).unwrap();
    column[0] = first.value;
    let deltas = header.count - 1;
    fill_blocks(chunk, size.value as usize, size.next, deltas, column);
}
