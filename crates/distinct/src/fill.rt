// Collecting distinct values. New keys wait, rising, in a buffer beside the scratch, and when it is full it is merged into the
// values that are held, so a key moves few others. A table `seen` has, for every slot, a key that was met: it answers for keys
// that come again soon, and a slot that was not used yet says that a key is new. What it does not know is searched for among
// the values held and those that wait. So whatever the keys, and also where all of them have one slot, n keys cost at most 2n
// searches, at most 16,384 shifts in the buffer, and a merge for every buffer that is full.
ghost use Rattle.std.specs.Prelude.{◌≡◌, ℕ, ◌≤◌, ◌<◌, pos, length, get_or};
ghost use Rattle.format.specs.Encodings.{max_dictionary_cardinality};
ghost use Rattle.format.specs.Answers.{outcome_of};
ghost use Rattle.format.specs.Distinct.{scratch_needed, collected};
ghost use Rattle.distinct.specs.Collect.{count_outcome};

use crate::known::{Seen, find};
use crate::sorted::Sorted;
use format::limits::MAX_DICTIONARY_CARDINALITY;
use format::{Kind, Refusal};

// Collects the distinct values in a scratch that is long enough. To begin with, every slot has the first key.
fn fill(
    column: &[i64],
    scratch: &mut [i64],
    pending: &mut [i64],
    seen: &mut Seen<'_>,
) -> Result<usize, Refusal>
    requires column_in_bounds { (scratch_needed column.now ≤ length scratch.old) × (0 < length column.now) × (1 < length pending.old) }
    requires begun { seen.old.first ≡ get_or column.now 0 (pos 0) }
    requires by_index { (k : ℕ) → k < length seen.old.slots.now → get_or seen.old.slots.now k (pos 0) ≡ get_or column.now 0 (pos 0) }
    ensures value { outcome_of result ≡ count_outcome column.now }
    ensures scratch_after { scratch.new ≡ collected column.now scratch.old }
{
    let mut held = Sorted::new(scratch);
    let mut waiting = Sorted::of(pending, column[0]);
    for &key in &column[1..] {
        let asked = seen.to_ask(key, held.values());
        if seen.note(key) {
            continue;
        }
        if find(asked, key).is_ok() {
            continue;
        }
        let Ok(()) = waiting.take_in(MAX_DICTIONARY_CARDINALITY - held.len(), key) else {
            held.merge(&waiting);
            return Err(Kind::TooManyDistinct.at(0));
        };
        if waiting.is_full() {
            held.merge(&waiting);
            waiting.clear();
        }
    }
    held.merge(&waiting);
    Ok(held.len())
}

// The same with a buffer and a table of its own, for `wait` keys to wait at most. It has two callers, so the compiler keeps it
// a function: a column of few keys does not pay for the pages of its frame, 64 of them.
pub(crate) fn fill_many(column: &[i64], scratch: &mut [i64], wait: usize) -> Result<usize, Refusal>
    requires { (scratch_needed column.now ≤ length scratch.old) × (0 < length column.now) × (1 < wait) × (wait ≤ 256) }
    ensures value { outcome_of result ≡ count_outcome column.now }
    ensures scratch_after { scratch.new ≡ collected column.now scratch.old }
{
    let first = column[0];
    let mut pending = [0; 256];
    let mut seen = [first; 32768];
    fill(
        column,
        scratch,
        &mut pending[..wait],
        &mut Seen::new(&mut seen, first),
    )
}

// The same for few keys: each is taken in at once, with no buffer and no table, which would have to be filled first.
pub(crate) fn fill_few(column: &[i64], scratch: &mut [i64]) -> Result<usize, Refusal>
    requires { (length column.now ≤ max_dictionary_cardinality) × (length column.now ≤ length scratch.old) }
    ensures value { outcome_of result ≡ count_outcome column.now }
    ensures scratch_after { scratch.new ≡ collected column.now scratch.old }
{
    let mut held = Sorted::new(scratch);
    for &key in column {
        held.take_in(MAX_DICTIONARY_CARDINALITY, key).unwrap();
    }
    Ok(held.len())
}
