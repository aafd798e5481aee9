// Measuring and storing the runs of a column.
ghost use Rattle.std.specs.Prelude.{◌≡◌, ◌+◌, ◌<◌, ◌≤◌, length};
ghost use Rattle.std.proofs.lemmas.List.Edits.{sets};
ghost use Rattle.format.specs.Header.{header_len};
ghost use Rattle.format.specs.Keys.{eq_z};
ghost use Rattle.format.specs.Varint.{uvarint_len, varint_len};
ghost use Rattle.format.specs.Runs.{runs, run_bytes, run_body};
ghost use Rattle.codec.specs.Lacking.{Lacking};
ghost use Rattle.std.specs.Iterator.{YieldsFirst, item_count};
ghost use Rattle.std.specs.List.{list_all};
ghost use Rattle.runs.specs.RunAt.{FirstRun, Running, same_key, to_come};

use codec::header::header_len;
use format::Column;
use places::checked::{put_uvarint, put_varint};
use varint::uvarint_len_small;

// Whether the value at `at` is the first, by the name of the definition of which the invariants speak: `==` in its callers is no plainer.
#[tactic(auto, using(crate::proofs::RunEnds::same_key_lem))]
fn same_key(values: &[i64], at: usize) -> bool
    requires { at < length values.now }
    ensures { result ≡ same_key values.now at }
{
    values[0] == values[at]
}

// Whether all of some values are the key. `&` leaves no branch between them.
#[tactic(auto, using(crate::proofs::RunEnds::all_none, crate::proofs::RunEnds::all_more, number::proofs::Signed::same_bits))]
fn all_same(values: &[i64], key: i64) -> bool
    ensures { result ≡ list_all (eq_z key) values.now }
{
    let mut same = true;
    for &value in values {
        same &= key == value;
    }
    same
}

// How far the first run goes that is known up to `from`, eight values at a time.
fn skip_eights(values: &[i64], from: usize) -> usize
    requires { Running values.now from }
    ensures { Running values.now result }
{
    let mut end = from;
    // Tried: `step_by`: a column of one value took 6 percent longer, and runs of 100 took 4. `chunks_exact` with `take_while`: runs of 3
    // and 8 values took 6 and 4 percent more instructions, and those of 8 up to 8 percent longer.
    while values.len() - end >= 8 && all_same(&values[end..end + 8], values[0]) {
        end += 8;
    }
    end
}

// Where the first run ends that is known up to `from`: the place of the next other value, or the values' end.
#[tactic(auto, using(crate::proofs::RunEnds::running_more, crate::proofs::RunEnds::running_other, crate::proofs::RunEnds::running_last))]
fn end_from(values: &[i64], from: usize) -> usize
    requires { Running values.now from }
    ensures { FirstRun values.now result }
{
    // Tried: `position`: runs of 3 and 8 values took 3 percent more instructions, and those of 3 up to 15 percent longer.
    for end in from..values.len() {
        if !same_key(values, end) {
            return end;
        }
    }
    values.len()
}

// How many values the first run has. A run of one value is told at once; a longer one is walked in eights first.
#[tactic(auto, using(crate::proofs::RunEnds::running_one))]
fn first_run(values: &[i64]) -> usize
    requires { 0 < length values.now }
    ensures { FirstRun values.now result }
{
    if values.len() <= 1 || !same_key(values, 1) {
        return 1;
    }
    end_from(values, skip_eights(values, 1))
}

// The runs of the values that are left of a column: each run's key, and how many values it has.
#[derive(Drop)]
struct Runs<'a>(&'a [i64]);

impl<'a> Iterator for Runs<'a> {
    type Item = (i64, usize);

    ghost next_gives = { YieldsFirst to_come };

    ghost remaining = { item_count to_come };

    #[tactic(auto, using(crate::proofs::RunEnds::none_left))]
    fn next(&mut self) -> Option<(i64, usize)> {
        let key = *self.0.first()?;
        let times = first_run(self.0);
        self.0 = &self.0[times..];
        Some((key, times))
    }
}

// How many runs a column has: the first value begins one, and so does each that is not the one before it. The compiler makes
// vector code of this walk.
#[tactic(auto, using(crate::proofs::Counts::runs_most, crate::proofs::Counts::left_first, crate::proofs::Counts::left_next, crate::proofs::Counts::left_some, crate::proofs::Counts::left_end))]
pub(crate) fn count_runs(column: &[i64]) -> usize
    ensures { result ≡ length (runs column.now) }
{
    if column.is_empty() {
        return 0;
    }
    let mut count = 1;
    // Tried: `windows(2)`, and `zip` with the values after the first: a seventh more instructions, and a tenth longer.
    for i in 1..column.len() {
        count += usize::from(column[i - 1] != column[i]);
    }
    count
}

// How many bytes a run has.
#[tactic(auto, using(format::proofs::Numbers::Widths::uvarint_len_le), unfolding(format::specs::Varint::varint_len))]
fn run_len(key: i64, times: usize) -> usize
    ensures { result ≡ varint_len key + uvarint_len times }
{
    uvarint_len_small(number::zigzag_encode(key)) + uvarint_len_small(times as u64)
}

// How many bytes the runs have.
#[tactic(auto, using(crate::proofs::Measures::measure_next, crate::proofs::Measures::measure_end, crate::proofs::Measures::run_bytes_most))]
fn runs_len(column: Column<'_>) -> usize
    ensures { result ≡ length (run_bytes (runs column.entry.values.now)) }
{
    let mut bytes = 0;
    for (key, times) in Runs(column.values) {
        bytes += run_len(key, times);
    }
    bytes
}

// The length of the chunk of a column with `count` runs where `space` bytes are too few for it. The runs are measured only where
// there is no room for two varints of ten bytes a value.
#[tactic(auto, using(crate::proofs::Measures::body_len, crate::proofs::Measures::run_bytes_most, format::proofs::Numbers::Widths::uvarint_len_le, crate::proofs::Measures::header_most))]
pub(crate) fn lacking(column: Column<'_>, count: usize, space: usize) -> Option<usize>
    requires { count ≡ length (runs column.values.now) }
    ensures { Lacking (header_len (length column.entry.values.now) + length (run_body column.entry.values.now)) space result }
{
    let front = header_len(column.values.len()) + varint::uvarint_len(count as u64);
    if front + 20 * column.values.len() <= space {
        return None;
    }
    let needed = front + runs_len(column);
    (needed > space).then_some(needed)
}

// Stores the runs of a column from `from` on, and answers the place after them.
#[tactic(auto, using(crate::proofs::Puts::putting_none, crate::proofs::Puts::putting_done))]
fn store_runs(column: &[i64], out: &mut [u8], from: usize) -> usize
    requires { from + length (run_bytes (runs column.now)) ≤ length out.old }
    ensures value { result ≡ from + length (run_bytes (runs column.now)) }
    ensures out_after { out.new ≡ sets out.old from (run_bytes (runs column.now)) }
{
    let mut at = from;
    for (key, times) in Runs(column) {
        let after_key = put_varint(key, out, at).unwrap();
        at = put_uvarint(times as u64, out, after_key).unwrap();
    }
    at
}

// Stores the body, how many runs there are and the runs, and answers the place after it.
pub(crate) fn store(column: &[i64], count: usize, out: &mut [u8], at: usize) -> usize
    requires { (count ≡ length (runs column.now)) × (at + length (run_body column.now) ≤ length out.old) }
    ensures value { result ≡ at + length (run_body column.now) }
    ensures out_after { out.new ≡ sets out.old at (run_body column.now) }
{
    let from = put_uvarint(count as u64, out, at).unwrap();
    store_runs(column, out, from)
}
