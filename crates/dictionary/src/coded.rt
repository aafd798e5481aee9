// What a body packs of a value: its code, the place among the entries.
ghost use Rattle.std.specs.Prelude.{◌<◌};
ghost use Rattle.format.specs.Dictionary.{code_of};

use crate::guess::Entries;
use places::packed::Coding;

// The entries, and where values were found among them before. The guesses are a part of it and no map, since every buffer is lent
// or local: there is no heap.
#[derive(Drop)]
pub(crate) struct Codes<'a, const N: usize> {
    pub(crate) entries: Entries<'a>,
    pub(crate) guesses: [u16; N],
    ghost some: { 0 < N },
}

impl<'a, const N: usize> Coding for Codes<'a, N> {
    ghost code = { λ c. code_of c.entries.values.now };

    fn code(&mut self, value: i64) -> u64 {
        self.entries.rank(value, &mut self.guesses) as u64
    }
}
