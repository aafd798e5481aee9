// The values behind one that is known, by the least delta and the offsets from it.
ghost use Rattle.delta.specs.Summed.{running, running-none};

use number::{of_bits, wrapping_add};
use places::unpacked::Decoding;

#[derive(Drop)]
pub(crate) struct RunningSum {
    pub(crate) last: i64,
    pub(crate) least: i64,
}

impl Decoding for RunningSum {
    ghost values = { λ s offsets _. running s.last s.least offsets };

    // Every sum wraps.
    fn value(&mut self, code: u64, old: i64) -> i64 {
        let delta = wrapping_add(self.least, of_bits(code));
        self.last = wrapping_add(self.last, delta);
        self.last
    }

    ghost none = { λ s _. running-none s.last s.least };
}
