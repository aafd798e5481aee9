// The length of a dictionary's body, for those who ask whether it is measured at all.
ghost use Rattle.std.specs.Prelude.{◌≡◌};
ghost use Rattle.entries.specs.Measured.{measured_in};

use crate::{code_width, entries_len};
use format::limits::{MAX_CHUNK_ELEMENTS, MAX_DICTIONARY_CARDINALITY};

// How many bytes the body of a Dictionary chunk has for these entries and `count` values; none where there are more of either than
// writing takes.
#[tactic(auto, using(crate::proofs::Within::measured_long, crate::proofs::Within::measured_many, crate::proofs::Within::measured_parts, format::proofs::Numbers::Widths::uvarint_len_le, crate::proofs::Limits::codes_most, crate::proofs::Walking::entries_most))]
pub fn body_len(entries: &[i64], count: usize) -> Option<usize>
    ensures { result ≡ measured_in entries.now count }
{
    if MAX_CHUNK_ELEMENTS < count || MAX_DICTIONARY_CARDINALITY < entries.len() {
        return None;
    }
    let codes = code_width(entries.len()).packed_len(count);
    Some(varint::uvarint_len(entries.len() as u64) + entries_len(entries) + 1 + codes)
}
