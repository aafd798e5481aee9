// What a body packs of a value: its difference from the least value.
ghost use Rattle.std.specs.Prelude.{map, pos, refl};
ghost use Rattle.format.specs.Keys.{gap, wrapping_add};

use places::packed::Coding;
use places::unpacked::Decoding;

#[derive(Drop)]
pub(crate) struct Differences {
    pub(crate) least: i64,
}

impl Coding for Differences {
    ghost code = { λ d. gap d.least };

    fn code(&mut self, value: i64) -> u64 {
        number::gap(self.least, value)
    }
}

impl Decoding for Differences {
    ghost values = { λ d codes _. map (λ n. wrapping_add d.least (pos n)) codes };

    // The sum wraps.
    fn value(&mut self, code: u64, old: i64) -> i64 {
        number::wrapping_add(self.least, number::of_bits(code))
    }

    ghost none = { λ _ _. refl };
}
