// A part of the entries, by which codes are looked up.
ghost use Rattle.std.specs.Prelude.{◌≡◌};
ghost use Rattle.dictionary.specs.Reading.{picked_all, picked_all-none};

use places::unpacked::Decoding;

// The entries from `done` on.
#[derive(Drop)]
pub(crate) struct Table<'a> {
    pub(crate) done: usize,
    pub(crate) entries: &'a [i64],
}

impl<'a> Decoding for Table<'a> {
    ghost values = { λ t. picked_all t.done t.entries.now };

    // The entry of a code, if it is here; else the value stays.
    #[tactic(auto, unfolding(crate::specs::Reading::picked, crate::specs::Reading::picked_all))]
    fn value(&mut self, code: u64, old: i64) -> i64 {
        if code < self.done as u64 {
            return old;
        }
        let i = code - self.done as u64;
        if i < self.entries.len() as u64 {
            return self.entries[i as usize];
        }
        old
    }

    ghost none = { λ t. picked_all-none t.done t.entries.now };
}
