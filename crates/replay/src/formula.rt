// The keys of a described column, by the formula that docs/ORACLE.md has ("columns.bin", kind 2).
use crate::fields::{after, u64_at};
use crate::made::next_state;

// The formula's ten numbers, as they stand in a record.
#[derive(Clone, Copy)]
pub(crate) struct Formula {
    start: u64,
    step: u64,
    every: u64,
    factor: u64,
    wrap: u64,
    seed: u64,
    shift: u64,
    modulus: u64,
    rare: u64,
    other: u64,
}

impl Formula {
    pub(crate) fn at(record: &[u8], at: usize) -> Formula {
        Formula {
            start: u64_at(record, at),
            step: u64_at(record, after(at, 8)),
            every: u64_at(record, after(at, 16)),
            factor: u64_at(record, after(at, 24)),
            wrap: u64_at(record, after(at, 32)),
            seed: u64_at(record, after(at, 40)),
            shift: u64_at(record, after(at, 48)),
            modulus: u64_at(record, after(at, 56)),
            rare: u64_at(record, after(at, 64)),
            other: u64_at(record, after(at, 72)),
        }
    }

    // Puts the keys of the formula into a buffer, as many as it holds.
    pub(crate) fn fill(self, keys: &mut [i64]) {
        let mut state = self.seed;
        for (i, key) in keys.iter_mut().enumerate() {
            state = next_state(state);
            *key = self.key(i as u64, state).cast_signed();
        }
    }

    // By a number that no record has, a divisor of 0 or a shift above 63, comes 0.
    fn key(self, i: u64, state: u64) -> u64 {
        if remainder(i, self.rare).wrapping_add(1) == self.rare {
            return self.other;
        }
        let level = i.checked_div(self.every).unwrap_or(0);
        let level = remainder(level.wrapping_mul(self.factor), self.wrap);
        let noise = if self.shift > 63 {
            0
        } else {
            state >> self.shift
        };
        self.start
            .wrapping_add(self.step.wrapping_mul(level))
            .wrapping_add(remainder(noise, self.modulus))
    }
}

fn remainder(a: u64, b: u64) -> u64 {
    a.checked_rem(b).unwrap_or(0)
}
