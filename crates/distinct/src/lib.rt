// The distinct values of a column, rising, at the front of a lent scratch, and a search among them: the Rust's `HashSet` in
// stats.rs, and the sorted `Vec` and `partition_point` of its DictionaryCodec.
#![tactic(auto)]

ghost use Rattle.std.specs.Prelude.{◌≡◌, length};
ghost use Rattle.format.specs.Answers.{outcome_of};
ghost use Rattle.format.specs.Write.{write_scratch};
ghost use Rattle.distinct.specs.Collect.{collect_outcome};
ghost use Rattle.distinct.specs.Search.{searched, slot_of, stands_at};

use crate::fill::{fill_few, fill_many};
use crate::quarters::{begin, half, power, quarter, step};
use format::limits::MAX_DICTIONARY_CARDINALITY;
use format::{Column, Kind, Refusal};

pub(crate) mod fill;
pub(crate) mod known;
pub(crate) mod merge;
pub(crate) mod quarters;
pub(crate) mod sorted;

// A search by quarters. Among rising values it finds how many are less than the key; in any other list, where the turns lead.
// The answer lies in 2^left places from `low` on, and every turn leaves a quarter of them; to begin with these are the first or the
// last of the values, whichever the answer lies in. Tried: the library's `partition_point` and `binary_search`; among 16,384 values a
// search took 91 and 81 ns in place of 38. And of a list that does not rise they promise a bound alone (docs/DECISIONS.md, 56).
pub fn search(values: &[i64], key: i64) -> usize
    ensures { result ≡ searched values.now key }
{
    let count = values.len();
    if count == 0 {
        return 0;
    }
    let mut left = number::required_width(count as u64) - 1;
    let last = count - power(left);
    let mut low = begin(values[last], key, last);
    // Tried: `for turn in (0..left / 2).rev()`, with the shift made of both; in a copy in C a search took 1.4 to 2.4 times as long.
    while left > 1 {
        left -= 2;
        low = quarter(values, key, low, left);
    }
    let at = half(values, key, low, left);
    at + step(values[at], key, 0)
}

// Whether a key stands at a place.
#[tactic(auto, unfolding(crate::specs::Search::stands_at))]
pub fn stands(values: &[i64], at: usize, key: i64) -> bool
    ensures { result ≡ stands_at values.now at key }
{
    values.get(at) == Some(&key)
}

// The slot of a key in a table of a power of two of slots: bits of its halves' sum multiplied by a prime, so that near keys have
// slots far apart, on both sides of 0. A table of another length is not used evenly, and one of no slots has slot 0.
#[tactic(auto, unfolding(crate::specs::Search::slot_of, crate::specs::Search::mixed))]
pub fn slot_of(key: i64, slots: usize) -> usize
    ensures { result ≡ slot_of key slots }
{
    if slots == 0 {
        return 0;
    }
    let bits = number::bits_of(key);
    let folded = (bits % 4294967296 + (bits >> 32)) % 4294967296;
    (folded * 2654435761 / 131072) as usize & (slots - 1)
}

// Collects the distinct values of a column in a scratch: at most 2^24 values? 21. A scratch of min(count, 16,384)? 22. At most
// 16,384 distinct? 23. From then on the first 16,384 met stand at its front, rising, also where 23 refuses. The limits of 384 and
// 4,096 keys were found by measuring: the fewer keys there are, the fewer should wait for a merge.
#[tactic(auto, unfolding(crate::specs::Collect::collect_outcome, format::specs::Write::write_scratch, format::specs::Write::write_checks, format::specs::Distinct::scratch_check, format::specs::Encodings::encoding_of, format::specs::Encodings::encodings))]
pub fn collect(column: &[i64], scratch: &mut [i64]) -> Result<usize, Refusal>
    ensures value { outcome_of result ≡ collect_outcome column.now (length scratch.old) }
    ensures scratch_after { scratch.new ≡ write_scratch 6 column.now scratch.old }
{
    Column::new(column)?;
    if scratch.len() < column.len().min(MAX_DICTIONARY_CARDINALITY) {
        return Err(Kind::ScratchTooShort.at(0));
    }
    if column.len() <= 384 {
        return fill_few(column, scratch);
    }
    if column.len() <= 4096 {
        return fill_many(column, scratch, 128);
    }
    fill_many(column, scratch, 256)
}
