// Two rising lists made one: the front of a buffer, and others that wait beside it. From the top down no value is stored
// where one stands that has not been moved yet. While that goes on the front does not rise, so these are functions over the buffer.
// The count stays beside it: in a part lent for both lists it would be what the part has more than wait, which is no plainer.
ghost use Rattle.std.specs.Prelude.{◌≡◌, false, ◌-◌, ◌≤◌, ◌<◌, pos, length, get_or};
ghost use Rattle.std.specs.Int.Signed.{lt_z};
ghost use Rattle.distinct.specs.Merge.{merged, Mergeable, Raised};

// The values that are greater than the last that waits go up by as many places as wait, the last first. Returns how many are
// left below.
fn raise(slots: &mut [i64], from: usize, waiting: &[i64]) -> usize
    requires { (0 < length waiting.now) × Mergeable slots.old from waiting.now }
    ensures raised { Raised slots.old from waiting.now slots.new result }
    ensures below { 0 < result → lt_z (get_or waiting.now (length waiting.now - 1) (pos 0)) (get_or slots.new (result - 1) (pos 0)) ≡ false }
{
    let by = waiting.len();
    let key = waiting[by - 1];
    // By index, since both places lie in one slice: the library moves values within one by memmove, which the archive may not call.
    for i in (0..from).rev() {
        let value = slots[i];
        if value <= key {
            return i + 1;
        }
        slots[i + by] = value;
    }
    0
}

// Takes all that wait in among the first `held` values. It moves each value at most once.
pub(crate) fn merge(slots: &mut [i64], held: usize, waiting: &[i64])
    requires { Mergeable slots.old held waiting.now }
    ensures { slots.new ≡ merged slots.old held waiting.now }
{
    let mut i = held;
    // By index, since a place is made of two, and those up to it are lent.
    for j in (0..waiting.len()).rev() {
        i = raise(slots, i, &waiting[..j + 1]);
        slots[i + j] = waiting[j];
    }
}
