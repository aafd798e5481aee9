// The steps of a search, without a branch on what is compared: on random keys a branch is guessed wrong every other time, and
// costs more than the whole rest of a turn.
ghost use Rattle.std.specs.Prelude.{◌≡◌, cond, ◌+◌, ◌*◌, ◌^◌, ◌<◌, ◌≤◌, eqb, pos, length, get_or};
ghost use Rattle.distinct.specs.Search.{up_over, quartered};

// 2 to the power k.
pub(crate) fn power(k: u32) -> usize
    requires { k < 64 }
    ensures { result ≡ 2 ^ k }
{
    1usize << k
}

// How far to go up over 2^k values whose middle one, or last, is `value`: all of them where it is less, else not at all. A shift, since
// the compiler makes a branch of a choice here: in a copy in C, random keys took 41 ns in place of 17 among 1,000 values.
pub(crate) fn step(value: i64, key: i64, k: u32) -> usize
    requires { k < 64 }
    ensures { (result ≡ up_over value key (2 ^ k)) × (result ≤ 2 ^ k) }
{
    usize::from(value < key) << k
}

// Where to begin: at `at` if the value there is less, else at 0.
pub(crate) fn begin(value: i64, key: i64, at: usize) -> usize
    ensures { result ≡ up_over value key at }
{
    if value < key { at } else { 0 }
}

// Which of the quarters of 2^(k + 2) values from `low` on. The three values between them are read at the same time, so that a turn
// waits for memory once, and leaves a quarter: halvings would wait twice for that.
pub(crate) fn quarter(values: &[i64], key: i64, low: usize, k: u32) -> usize
    requires { (k < 62) × (low + 4 * 2 ^ k ≤ length values.now) }
    ensures { result ≡ quartered values.now key low (2 ^ k) }
{
    let far = power(k);
    let lower = step(values[low + far], key, k);
    let middle = step(values[low + 2 * far], key, k);
    let upper = step(values[low + 3 * far], key, k);
    low + lower + (middle + upper)
}

// Which of the last two values, where there are two left.
pub(crate) fn half(values: &[i64], key: i64, low: usize, left: u32) -> usize
    requires { (left < 2) × (low + 2 ^ left ≤ length values.now) }
    ensures { result ≡ cond (eqb left 0) low (low + up_over (get_or values.now (low + 1) (pos 0)) key 1) }
{
    if left == 0 {
        return low;
    }
    low + step(values[low + 1], key, 0)
}
