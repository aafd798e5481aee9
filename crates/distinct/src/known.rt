// Whether a key was met: asked of a table that forgets, and of the values held.
ghost use Rattle.std.specs.Prelude.{◌≡◌, true, false, ◌<◌, length, IfOk, IfErr};
ghost use Rattle.format.specs.Dictionary.{code_of};
ghost use Rattle.format.specs.Distinct.{Rising};
ghost use Rattle.distinct.specs.Collect.{has};

use crate::{search, slot_of, stands};

// A table that has, for every slot, a key that was met; and the key that every slot had at first.
#[derive(Drop)]
pub(crate) struct Seen<'a> {
    slots: &'a mut [i64],
    first: i64,
    ghost some: { 0 < length slots.now },
}

impl<'a> Seen<'a> {
    ghost use Rattle.std.specs.Prelude.{◌≡◌, cond, ◌<◌, pos, [], length, get_or};
    ghost use Rattle.format.specs.Keys.{eq_z};
    ghost use Rattle.distinct.specs.Collect.{vacant};
    ghost use Rattle.distinct.specs.Search.{slot_of};
    ghost use Rattle.distinct.specs.Seen.{Noted};

    pub(crate) fn new(slots: &'a mut [i64], first: i64) -> Seen<'a>
        requires { 0 < length slots.old }
        ensures table { result.slots.now ≡ slots.old }
        ensures begun { result.first ≡ first }
    {
        Seen { slots, first }
    }

    // The values that are to be asked for a key: none where its slot is vacant, since then no key with this slot was met. So most keys
    // that are new are not searched for among the values held.
    #[tactic(auto, using(crate::proofs::Slots::slot_lt), unfolding(crate::specs::Collect::vacant))]
    pub(crate) fn to_ask<'v>(&self, key: i64, held: &'v [i64]) -> &'v [i64]
        ensures { result.now ≡ cond (vacant self.now.slots.now self.now.first key) [] held.now }
    {
        let slot = slot_of(key, self.slots.len());
        if slot == slot_of(self.first, self.slots.len()) {
            return held;
        }
        if self.slots[slot] == self.first {
            &held[..0]
        } else {
            held
        }
    }

    // Whether a key stands in its slot; from then on it does.
    #[tactic(auto, using(crate::proofs::Slots::slot_lt))]
    pub(crate) fn note(&mut self, key: i64) -> bool
        ensures value { result ≡ eq_z (get_or self.old.slots.now (slot_of key (length self.old.slots.now)) (pos 0)) key }
        ensures noted { Noted self.old self.new key }
    {
        let slot = slot_of(key, self.slots.len());
        let there = self.slots[slot];
        self.slots[slot] = key;
        there == key
    }
}

// Where a key stands among rising values, or else where it would: as the library's `binary_search`.
#[tactic(auto, using(crate::proofs::Searching::searched_code, crate::proofs::Standing::stands_has))]
pub(crate) fn find(values: &[i64], key: i64) -> Result<usize, usize>
    requires { Rising values.now }
    ensures found { IfOk result (λ at. (at ≡ code_of values.now key) × (has values.now key ≡ true)) }
    ensures absent { IfErr result (λ at. (at ≡ code_of values.now key) × (has values.now key ≡ false)) }
{
    let at = search(values, key);
    if stands(values, at, key) {
        Ok(at)
    } else {
        Err(at)
    }
}
