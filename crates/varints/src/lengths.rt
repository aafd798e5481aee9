// How long the chunk of a column is, and whether it has room.
ghost use Rattle.std.specs.Prelude.{◌≡◌, ◌+◌, ◌<◌, length};
ghost use Rattle.format.specs.Header.{header_len};
ghost use Rattle.format.specs.VarintBody.{varint_body};
ghost use Rattle.codec.specs.Lacking.{Lacking};
ghost use Rattle.varints.specs.Lengths.{Within, longer};

use codec::header::header_len;
use format::Column;

// How many values have a ZigZag with a bit from `shift` on.
#[tactic(auto, using(crate::proofs::Measuring::longer_end, crate::proofs::Measuring::longer_more))]
fn longer_than(column: Column<'_>, shift: u32) -> usize
    requires { shift < 64 }
    ensures { result ≡ longer shift column.entry.values.now }
{
    let mut count = 0;
    for &value in column.values {
        count += usize::from(number::zigzag_encode(value) >> shift > 0);
    }
    count
}

// The length of the body of a column, byte by byte: every varint has one, and so many have a second, a third. The compiler makes
// vector code of each pass.
#[tactic(auto, using(crate::proofs::Measuring::capped_one, crate::proofs::Measuring::longest))]
fn len_by_bytes(column: Column<'_>, bits: u64) -> usize
    requires { Within column.values.now bits }
    ensures { result ≡ length (varint_body column.entry.values.now) }
{
    let mut len = column.values.len();
    for k in 1..varint::uvarint_len(bits) {
        len += longer_than(column, 7 * k as u32);
    }
    len
}

// The same, value by value.
#[tactic(auto, using(crate::proofs::Turns::body_end, crate::proofs::Turns::length_more, crate::proofs::Measuring::body_most))]
fn len_by_values(column: Column<'_>) -> usize
    ensures { result ≡ length (varint_body column.entry.values.now) }
{
    let mut len = 0;
    for &value in column.values {
        len += varint::varint_len(value);
    }
    len
}

// The length of the body of a column, by what is quicker. Up to four bytes that is a pass for each.
fn body_len(column: Column<'_>, bits: u64) -> usize
    requires { Within column.values.now bits }
    ensures { result ≡ length (varint_body column.entry.values.now) }
{
    if bits >> 28 > 0 {
        len_by_values(column)
    } else {
        len_by_bytes(column, bits)
    }
}

// The length of a column's chunk where `space` bytes are too few for it. The body is measured only where there is no room for
// all varints at ten bytes, or at the length of the longest.
#[tactic(auto, using(format::proofs::Numbers::Widths::uvarint_len_le, crate::proofs::Measuring::body_most, crate::proofs::Measuring::longest_most, crate::proofs::Measuring::body_longest), unfolding(format::specs::Header::header_len))]
pub(crate) fn lacking(column: Column<'_>, space: usize) -> Option<usize>
    ensures { Lacking (header_len (length column.entry.values.now) + length (varint_body column.entry.values.now)) space result }
{
    let count = column.values.len();
    let header = header_len(count);
    if header + 10 * count <= space {
        return None;
    }
    let bits = number::zigzag_bits(column.values);
    if header + varint::uvarint_len(bits) * count <= space {
        return None;
    }
    let needed = header + body_len(column, bits);
    (needed > space).then_some(needed)
}
