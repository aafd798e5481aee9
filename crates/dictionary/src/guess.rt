// Guesses of places: a column's keys come back, and where a key stood is often where it stands. A guess is kept for every key
// with the same slot and is asked before it is believed, so a wrong one costs a search and nothing else.
ghost use Rattle.std.specs.Prelude.{◌≡◌, ◌<◌, length};
ghost use Rattle.format.specs.Dictionary.{code_of};
ghost use Rattle.format.specs.Distinct.{Rising};
ghost use Rattle.distinct.specs.Rising.{rising-prop};

// The entries to write, which rise.
#[derive(Clone, Copy)]
pub(crate) struct Entries<'a> {
    pub(crate) values: &'a [i64],
    ghost rising: { Rising values.now } by { rising-prop values.now },
}

impl<'a> Entries<'a> {
    // How many entries are less than a key. `guesses` holds where keys were found before: whatever it holds, the result is the
    // same.
    pub(crate) fn rank(self, key: i64, guesses: &mut [u16]) -> usize
        requires { 0 < length guesses.old }
        ensures { result ≡ code_of self.entry.values.now key }
    {
        let slot = distinct::slot_of(key, guesses.len());
        let guess = usize::from(guesses[slot]);
        if distinct::stands(self.values, guess, key) {
            return guess;
        }
        let place = distinct::search(self.values, key);
        // Places from 65,536 on are guessed wrong.
        guesses[slot] = (place % 65536) as u16;
        place
    }
}
