// The seven candidate lengths, in the order of the ids: each is the header and the layout as it is written, but Delta's, which is
// at least that.
ghost use Rattle.std.specs.Prelude.{◌≡◌, ◌+◌, ◌*◌, ◌≤◌, max, leb, length};
ghost use Rattle.format.specs.Width.{width};
ghost use Rattle.format.specs.Packing.{packed_len};
ghost use Rattle.format.specs.Encodings.{max_chunk_elements, max_dictionary_cardinality};
ghost use Rattle.format.specs.Varint.{varint_len};
ghost use Rattle.format.specs.Delta.{delta_block_size, block_count};
ghost use Rattle.format.specs.Estimates.{plain_estimate, varint_estimate, bit_packed_estimate, frame_estimate, run_length_estimate};
ghost use Rattle.format.specs.Estimates.{dictionary_estimate, delta_estimate, estimates_from, is_exact, size_if};
ghost use Rattle.estimates.specs.Sizes.{Within};

use bitpack::width::Width;
use codec::header::header_len;
use format::limits::DELTA_BLOCK_SIZE;
use format::{Cardinality, IntegerStats, SizeEstimates};
use varint::{uvarint_len, varint_len};

// Numbers packed at the width of the largest. The limit of a count is a `requires`, here and of `charge`, as in `codec`'s `lacking_for`.
fn packed_size(count: usize, largest: u64) -> usize
    requires { count ≤ max_chunk_elements }
    ensures { result ≡ packed_len count (width largest) }
{
    Width::of(largest).packed_len(count)
}

// What the blocks of so many deltas are charged before their offsets: each the longer varint of the least and the greatest delta,
// and a width byte. No block has more, since its least delta lies between the two.
#[tactic(auto, using(crate::proofs::Parts::blocks_most, crate::proofs::Parts::varint_most), unfolding(format::specs::Delta::block_count))]
fn charge(deltas: usize, low: i64, high: i64) -> usize
    requires { deltas ≤ max_chunk_elements }
    ensures { result ≡ block_count delta_block_size deltas * (max (varint_len low) (varint_len high) + 1) }
{
    let blocks = deltas.div_ceil(DELTA_BLOCK_SIZE);
    blocks * (varint_len(low).max(varint_len(high)) + 1)
}

// The statistics of a column of up to 2^24 values, of which its lengths are made: so no length is too large for a sum.
#[derive(Clone, Copy)]
pub(crate) struct Measured {
    pub stats: IntegerStats,
    ghost within: { Within stats },
}

impl Measured {
    // The lengths, in the order of the ids. The entries' limit stands here, in `dictionary_size` and in `entries`, which measures them: a type for
    // three private functions of two crates is no plainer.
    #[tactic(auto, unfolding(format::specs::Estimates::estimates_from))]
    pub(crate) fn estimates(self, entries: &[i64]) -> SizeEstimates
        requires { length entries.now ≤ max_dictionary_cardinality }
        ensures { result ≡ estimates_from self.stats entries.now }
    {
        SizeEstimates {
            lengths: [
                Some(self.plain_size()),
                Some(self.varint_size()),
                Some(self.bit_packed_size()),
                Some(self.frame_size()),
                Some(self.run_length_size()),
                self.dictionary_size(entries),
                self.delta_size(),
            ],
        }
    }

    // 8 bytes a value.
    #[tactic(auto, using(crate::proofs::Parts::header_most), unfolding(format::specs::Estimates::plain_estimate))]
    fn plain_size(self) -> usize
        ensures { result ≡ plain_estimate self.stats }
    {
        header_len(self.stats.count) + 8 * self.stats.count
    }

    // One signed varint each.
    #[tactic(auto, using(crate::proofs::Parts::header_most), unfolding(format::specs::Estimates::varint_estimate))]
    fn varint_size(self) -> usize
        ensures { result ≡ varint_estimate self.stats }
    {
        header_len(self.stats.count) + self.stats.varint_body_bytes
    }

    // Width byte, packed ZigZags.
    #[tactic(auto, using(crate::proofs::Parts::header_most, crate::proofs::Parts::packed_most), unfolding(format::specs::Estimates::bit_packed_estimate))]
    fn bit_packed_size(self) -> usize
        ensures { result ≡ bit_packed_estimate self.stats }
    {
        header_len(self.stats.count) + 1 + packed_size(self.stats.count, self.stats.max_zigzag)
    }

    // Least value (8 bytes), width byte, packed differences from it.
    #[tactic(auto, using(crate::proofs::Parts::header_most, crate::proofs::Parts::packed_most), unfolding(format::specs::Estimates::frame_estimate))]
    fn frame_size(self) -> usize
        ensures { result ≡ frame_estimate self.stats }
    {
        header_len(self.stats.count) + 9 + packed_size(self.stats.count, self.stats.value_span)
    }

    // Run total, then per run a signed varint and a length.
    #[tactic(auto, using(crate::proofs::Parts::header_most, format::proofs::Numbers::Widths::uvarint_len_le), unfolding(format::specs::Estimates::run_length_estimate))]
    fn run_length_size(self) -> usize
        ensures { result ≡ run_length_estimate self.stats }
    {
        header_len(self.stats.count)
            + uvarint_len(self.stats.run_count as u64)
            + self.stats.run_length_body_bytes
    }

    // Entry total, entries, width byte, packed codes; none where there are too many distinct values.
    #[tactic(auto, using(crate::proofs::Parts::header_most, crate::proofs::Parts::entries_there, crate::proofs::Parts::entries_made, crate::proofs::Parts::entries_most), unfolding(format::specs::Estimates::dictionary_estimate, entries::specs::Measured::body_len))]
    fn dictionary_size(self, entries: &[i64]) -> Option<usize>
        requires { length entries.now ≤ max_dictionary_cardinality }
        ensures { result ≡ size_if (is_exact self.stats.cardinality) (dictionary_estimate self.stats entries.now) }
    {
        match self.stats.cardinality {
            Cardinality::Exact(_) => {
                let body = entries::checked::body_len(entries, self.stats.count)?;
                Some(header_len(self.stats.count) + body)
            }
            Cardinality::AtLeast(_) => None,
        }
    }

    // First value, block size, what the blocks are charged, and all deltas packed at the width of their whole span; none where there
    // are no two values.
    #[tactic(auto, using(crate::proofs::Parts::header_most, crate::proofs::Parts::varint_most, format::proofs::Numbers::Widths::uvarint_len_le, crate::proofs::Parts::packed_most, crate::proofs::Parts::charge_most), unfolding(format::specs::Estimates::delta_estimate))]
    fn delta_size(self) -> Option<usize>
        ensures { result ≡ size_if (leb 2 self.stats.count) (delta_estimate self.stats) }
    {
        if self.stats.count < 2 {
            return None;
        }
        let deltas = self.stats.count - 1;
        let begun = header_len(self.stats.count)
            + varint_len(self.stats.first)
            + uvarint_len(DELTA_BLOCK_SIZE as u64);
        Some(
            begun
                + charge(deltas, self.stats.delta_min, self.stats.delta_max)
                + packed_size(deltas, self.stats.delta_span),
        )
    }
}
