// The one pass over a column: its values, its runs, and its steps from each value to the next.
ghost use Rattle.std.specs.Prelude.{◌≡◌, ◌+◌, ◌*◌, ◌<◌, ◌≤◌, length};
ghost use Rattle.format.specs.Encodings.{max_chunk_elements};
ghost use Rattle.format.specs.Varint.{uvarint_len};
ghost use Rattle.stats.specs.Pass.{measured, first_values, next_values, first_runs, next_runs, first_delta, first_steps, next_steps, pass_of};

use format::Column;

// A value, its ZigZag and the bytes of its varint, which are made once, for its own sake and for its run.
#[derive(Clone, Copy)]
pub(crate) struct Measured {
    pub value: i64,
    pub zigzag: u64,
    pub bytes: usize,
}

impl Measured {
    // Measures a value.
    #[tactic(auto, using(number::proofs::Signed::held), unfolding(format::specs::Varint::varint_len))]
    fn new(value: i64) -> Measured
        ensures { result ≡ measured value }
    {
        let zigzag = number::zigzag_encode(value);
        Measured {
            value,
            zigzag,
            bytes: varint::uvarint_len(zigzag),
        }
    }
}

// Of the values so far: the least and the greatest, the largest ZigZag, and the bytes of their varints.
#[derive(Clone, Copy)]
pub(crate) struct Values {
    pub low: i64,
    pub high: i64,
    pub largest: u64,
    pub bytes: usize,
}

impl Values {
    // The first value.
    fn first(measured: Measured) -> Values
        ensures { result ≡ first_values measured }
    {
        Values {
            low: measured.value,
            high: measured.value,
            largest: measured.zigzag,
            bytes: measured.bytes,
        }
    }

    // A value more.
    #[tactic(auto, using(number::proofs::Signed::max_greater), unfolding(format::specs::Keys::lesser))]
    fn next(self, measured: Measured) -> Values
        requires { (self.bytes ≤ 10 * max_chunk_elements) × (measured.bytes ≤ 10) }
        ensures { result ≡ next_values self measured }
    {
        Values {
            low: self.low.min(measured.value),
            high: self.high.max(measured.value),
            largest: self.largest.max(measured.zigzag),
            bytes: self.bytes + measured.bytes,
        }
    }
}

// The runs so far, the bytes of their keys and of all lengths but the last, and that length. The bound on the bytes stays in two contracts:
// tried as a ghost field, `bytes ≤ 20 * count`, and the definitions `first_runs` and `next_runs`, which make a record of any numbers, would
// have to prove it of all.
#[derive(Clone, Copy)]
pub(crate) struct Runs {
    pub count: usize,
    pub bytes: usize,
    pub length: usize,
}

impl Runs {
    // The run of the first value, with the bytes of its varint.
    fn first(bytes: usize) -> Runs
        ensures { result ≡ first_runs bytes }
    {
        Runs {
            count: 1,
            bytes,
            length: 1,
        }
    }

    // A value more: another one than the last begins a run, so that the last one's length is known.
    #[tactic(auto, using(format::proofs::Numbers::Widths::uvarint_len_le))]
    fn next(self, last: i64, measured: Measured) -> Runs
        requires { (self.count ≤ max_chunk_elements) × (self.bytes ≤ 20 * max_chunk_elements) × (self.length ≤ max_chunk_elements) × (measured.bytes ≤ 10) }
        ensures { result ≡ next_runs self last measured }
    {
        if last == measured.value {
            return Runs {
                length: self.length + 1,
                ..self
            };
        }
        Runs {
            count: self.count + 1,
            bytes: self.bytes + varint::uvarint_len_small(self.length as u64) + measured.bytes,
            length: 1,
        }
    }

    // The bytes of all runs, with the last one's length.
    #[tactic(auto, using(format::proofs::Numbers::Widths::uvarint_len_le))]
    fn all_bytes(self) -> usize
        requires { self.bytes ≤ 20 * max_chunk_elements }
        ensures { result ≡ self.bytes + uvarint_len self.length }
    {
        self.bytes + varint::uvarint_len(self.length as u64)
    }
}

// Whether no step so far went down, and none up; and the least and the greatest delta.
#[derive(Clone, Copy)]
pub(crate) struct Steps {
    pub ascending: bool,
    pub descending: bool,
    pub low: i64,
    pub high: i64,
}

impl Steps {
    // Before the first step the first delta is taken for the least and the greatest one, so that no step is a special case.
    fn first(delta: i64) -> Steps
        ensures { result ≡ first_steps delta }
    {
        Steps {
            ascending: true,
            descending: true,
            low: delta,
            high: delta,
        }
    }

    // A step more, from the last value to the next.
    fn next(self, last: i64, value: i64) -> Steps
        ensures { result ≡ next_steps self last value }
    {
        let delta = number::wrapping_sub(value, last);
        Steps {
            ascending: self.ascending & (last <= value),
            descending: self.descending & (value <= last),
            low: self.low.min(delta),
            high: self.high.max(delta),
        }
    }
}

#[derive(Clone, Copy)]
pub(crate) struct Pass {
    pub values: Values,
    pub run_count: usize,
    pub run_bytes: usize,
    pub steps: Steps,
}

// The first delta, or 0 where there is none.
fn first_delta(column: &[i64]) -> i64
    ensures { result ≡ first_delta column.now }
{
    if column.len() < 2 {
        return 0;
    }
    number::wrapping_sub(column[1], column[0])
}

// The pass. The index is counted from 1. Tried: a walk over `column.values[1..]`, for which the compiler spills a register, at 3
// instructions more a value.
pub(crate) fn walk(column: Column<'_>) -> Pass
    requires { 0 < length column.values.now }
    ensures { result ≡ pass_of column.entry.values.now }
{
    let mut last = column.values[0];
    let first = Measured::new(last);
    let mut values = Values::first(first);
    let mut runs = Runs::first(first.bytes);
    let mut steps = Steps::first(first_delta(column.values));
    for i in 1..column.values.len() {
        let value = column.values[i];
        let measured = Measured::new(value);
        values = values.next(measured);
        runs = runs.next(last, measured);
        steps = steps.next(last, value);
        last = value;
    }
    Pass {
        values,
        run_count: runs.count,
        run_bytes: runs.all_bytes(),
        steps,
    }
}
