// Rising values at the front of a lent buffer, as in a sorted `Vec`. A rule of the project: nothing below the programs is on the heap,
// and every buffer is lent or local. So there is no `Vec` here, and no `BTreeSet`.
ghost use Rattle.std.specs.Prelude.{◌≡◌, ◌∷◌, ◌++◌, suc, ◌≤◌, ◌<◌, length, take, drop, IfOk, OnErr};
ghost use Rattle.std.proofs.Math.Seq.{slice};
ghost use Rattle.format.specs.Answers.{stored};
ghost use Rattle.format.specs.Distinct.{insert, Rising};
ghost use Rattle.distinct.specs.Rising.{rising-prop};

use crate::known::find;
use crate::merge::merge;

// A buffer, and how many of its places have values.
#[derive(Drop)]
pub(crate) struct Sorted<'a> {
    slots: &'a mut [i64],
    held: usize,
    ghost inside: { held ≤ length slots.now },
    ghost rising: { Rising (take held slots.now) } by { rising-prop (take held slots.now) },
}

// As many are held as may be.
#[derive(Clone, Copy, Debug, PartialEq, Eq)]
pub(crate) struct Full;

impl<'a> Sorted<'a> {
    ghost use Rattle.std.specs.Prelude.{◌≡◌, ◌+◌, ◌≤◌, ◌<◌, ◌↔◌, [], ◌∷◌, length, IsTrue, OnOk, OnErr};
    ghost use Rattle.format.specs.Distinct.{insert, distinct_from};
    ghost use Rattle.format.specs.Answers.{stored};
    ghost use Rattle.distinct.specs.Sorted.{values_of, Becomes};

    // None, to begin with.
    pub(crate) fn new(slots: &'a mut [i64]) -> Sorted<'a>
        ensures same_buffer { result.slots.ghost_name ≡ slots.entry.ghost_name }
        ensures buffer { result.slots.now ≡ slots.old }
        ensures count { result.held ≡ 0 }
    {
        Sorted { slots, held: 0 }
    }

    // One key.
    pub(crate) fn of(slots: &'a mut [i64], key: i64) -> Sorted<'a>
        requires { 0 < length slots.old }
        ensures same_buffer { result.slots.ghost_name ≡ slots.entry.ghost_name }
        ensures buffer { result.slots.now ≡ stored (key ∷ []) slots.old }
        ensures count { result.held ≡ 1 }
    {
        slots[0] = key;
        Sorted { slots, held: 1 }
    }

    pub(crate) fn len(&self) -> usize
        ensures { result ≡ self.now.held }
    {
        self.held
    }

    // Whether every place of the buffer has a value.
    pub(crate) fn is_full(&self) -> bool
        ensures { IsTrue result ↔ (self.now.held ≡ length self.now.slots.now) }
    {
        self.held == self.slots.len()
    }

    pub(crate) fn values(&self) -> &[i64]
        ensures { result.now ≡ values_of self.now }
    {
        &self.slots[..self.held]
    }

    pub(crate) fn clear(&mut self)
        ensures { Becomes self.old self.new [] }
    {
        self.held = 0;
    }

    // Takes a key in, unless it is there. With it they are at most `cap`, or it is not taken.
    pub(crate) fn take_in(&mut self, cap: usize, key: i64) -> Result<(), Full>
        requires { (self.old.held ≤ cap) × (self.old.held < length self.old.slots.now) }
        ensures ok { OnOk result ((length (insert key (values_of self.old)) ≤ cap) × Becomes self.old self.new (insert key (values_of self.old))) }
        ensures full { OnErr result ((cap < length (insert key (values_of self.old))) × Becomes self.old self.new (values_of self.old)) }
    {
        self.held = take_in(self.slots, self.held, cap, key)?;
        Ok(())
    }

    // Takes all values of another in, none of which is here.
    pub(crate) fn merge(&mut self, other: &Sorted)
        requires room { self.old.held + other.now.held ≤ length self.old.slots.now }
        requires apart { length (distinct_from (values_of self.old) (values_of other.now)) ≡ self.old.held + other.now.held }
        ensures { Becomes self.old self.new (distinct_from (values_of self.old) (values_of other.now)) }
    {
        merge(self.slots, self.held, other.values());
        self.held += other.held;
    }
}

// The functions below break the order for a while, so they are over the buffer, with the number held beside it: the place after the
// values is written too, and in a part that is lent with it the values would be all but the last, which is no plainer.

// The values from `at` to `held` go up by one place, the last first, and the key is put at `at`. Tried: the library's `rotate_right`; it
// moves them by memmove, as `nm` shows, and of C's library the archive may call memset alone. And `slots[at..held + 1]` lent, for a
// contract without `at` and `held`; then the compiler makes a memmove of the loop.
fn put_in(slots: &mut [i64], at: usize, held: usize, key: i64)
    requires { (at ≤ held) × (held < length slots.old) }
    ensures { slots.new ≡ take at slots.old ++ (key ∷ (slice at held slots.old ++ drop (suc held) slots.old)) }
{
    for i in (at..held).rev() {
        slots[i + 1] = slots[i];
    }
    slots[at] = key;
}

// What the method does to the buffer, and how many values it has then. Tried: all of it in the method, and `find` with an `insert` of its
// own in the callers; the search's first instruction then waits for the answer of the search before, and 300 keys of ten values took
// 1.8 times as long, ascending ones or those of one slot up to 1.27 times.
#[inline(never)]
fn take_in(slots: &mut [i64], held: usize, cap: usize, key: i64) -> Result<usize, Full>
    requires { (held ≤ cap) × (held < length slots.old) × Rising (take held slots.old) }
    ensures ok { IfOk result (λ n. (n ≤ cap) × (n ≡ length (insert key (take held slots.old))) × (slots.new ≡ stored (insert key (take held slots.old)) slots.old)) }
    ensures full { OnErr result ((cap < length (insert key (take held slots.old))) × (slots.new ≡ slots.old)) }
{
    let Err(at) = find(&slots[..held], key) else {
        return Ok(held);
    };
    if held == cap {
        return Err(Full);
    }
    put_in(slots, at, held, key);
    Ok(held + 1)
}
