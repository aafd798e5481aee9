// The entries of a dictionary: as numbers to write, in `gap`, and measured, for writing one and for its estimate.
#![tactic(auto)]

ghost use Rattle.std.specs.Prelude.{◌≡◌, ◌≤◌, length};
ghost use Rattle.format.specs.Encodings.{max_dictionary_cardinality};
ghost use Rattle.format.specs.Dictionary.{code_width};
ghost use Rattle.format.specs.Estimates.{entries_len};
ghost use Rattle.entries.specs.Measured.{measured};

use crate::gap::Gaps;
use bitpack::width::Width;

pub mod checked;
pub mod gap;

// The width of the codes for so many entries, which is that of the last code; 0 for none.
#[tactic(auto, unfolding(format::specs::Dictionary::code_width))]
pub fn code_width(entries: usize) -> Width
    ensures { result.bits ≡ code_width entries }
{
    Width::of(entries.saturating_sub(1) as u64)
}

// How many bytes the entries have.
#[tactic(auto, using(crate::proofs::Walking::len_begun, crate::proofs::Walking::len_next, crate::proofs::Walking::len_end, crate::proofs::Walking::entries_most))]
fn entries_len(entries: &[i64]) -> usize
    requires { length entries.now ≤ max_dictionary_cardinality }
    ensures { result ≡ entries_len entries.now }
{
    let mut sum = 0;
    for number in Gaps::new(entries) {
        sum += varint::uvarint_len(number);
    }
    sum
}

// How many bytes the body of a Dictionary chunk has for these entries and `count` values; 0 where there are more of either than
// writing takes, of which `checked` tells none.
#[tactic(auto, using(crate::proofs::Within::measured_or))]
pub fn body_len(entries: &[i64], count: usize) -> usize
    ensures { result ≡ measured entries.now count }
{
    checked::body_len(entries, count).unwrap_or(0)
}
