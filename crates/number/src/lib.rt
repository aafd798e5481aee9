// Keys and their 64 bits, the lesser and the greater of two, sums and differences that wrap, ZigZag, the bits of a column's, and the width of a number:
// the Rust's casts, its `min` and `max`, its `wrapping_add` and `wrapping_sub`, the ZigZag of varint.rs and `required_width` of bitpack.rs.
// Six of them are one call of the library each. They stay, since the call in a caller's place is no plainer: each caller would have to
// cite that the library's words are the format's, which is proved here once.
#![tactic(auto)]

ghost use Rattle.std.specs.Prelude.{ℕ, ◌≡◌, ◌≤◌, ◌<◌, pos, map, length, get_or};
ghost use Rattle.format.specs.Keys.{residue, as_signed, wrapping_add, delta, zigzag, unzigzag};
ghost use Rattle.format.specs.Keys as Keys;
ghost use Rattle.format.specs.Folds.{largest};
ghost use Rattle.format.specs.Width.{width};

pub mod words;

// The 64 bits of v, in two's complement: the Rust's `v as u64`.
pub fn bits_of(v: i64) -> u64
    ensures { result ≡ residue v }
{
    v.cast_unsigned()
}

// The key whose 64 bits are b: the Rust's `b as i64`.
#[tactic(auto, using(crate::proofs::Signed::signed_cast))]
pub fn of_bits(b: u64) -> i64
    ensures { result ≡ as_signed b }
{
    b.cast_signed()
}

// The lesser of two keys.
#[tactic(auto, unfolding(format::specs::Keys::lesser))]
pub fn lesser(a: i64, b: i64) -> i64
    ensures { result ≡ Keys.lesser a b }
{
    a.min(b)
}

// The greater of two keys.
#[tactic(auto, using(crate::proofs::Signed::max_greater))]
pub fn greater(a: i64, b: i64) -> i64
    ensures { result ≡ Keys.greater a b }
{
    a.max(b)
}

// a + b modulo 2^64.
#[tactic(auto, using(crate::proofs::Signed::add_wraps))]
pub fn wrapping_add(a: i64, b: i64) -> i64
    ensures { result ≡ wrapping_add a b }
{
    a.wrapping_add(b)
}

// a - b modulo 2^64: the delta from b to a.
#[tactic(auto, using(crate::proofs::Signed::sub_wraps))]
pub fn wrapping_sub(a: i64, b: i64) -> i64
    ensures { result ≡ delta b a }
{
    a.wrapping_sub(b)
}

// How far b lies above a, modulo 2^64: a gap, a difference from the least value, a span. It may be above every key.
#[tactic(auto, using(crate::proofs::Signed::gap_bits))]
pub fn gap(a: i64, b: i64) -> u64
    ensures { result ≡ Keys.gap a b }
{
    b.wrapping_sub(a).cast_unsigned()
}

// 2 v for v of 0 or more, else -2 v - 1. Twice v may wrap; the complement is -x - 1 modulo 2^64.
pub fn zigzag_encode(v: i64) -> u64
    ensures { result ≡ zigzag v }
{
    let twice = (v << 1).cast_unsigned();
    if v < 0 { !twice } else { twice }
}

// The key whose ZigZag is u.
#[tactic(auto, unfolding(format::specs::Keys::unzigzag))]
pub fn zigzag_decode(u: u64) -> i64
    ensures { result ≡ unzigzag u }
{
    let half = (u >> 1).cast_signed();
    if u & 1 == 0 { half } else { !half }
}

// Every bit that the ZigZag of a value has. They are gathered faster than the largest ZigZag is found, and have the same width as it.
pub fn zigzag_bits(column: &[i64]) -> u64
    ensures widest { width result ≡ width (largest (map zigzag column.now)) }
    ensures within { (i : ℕ) → i < length column.now → zigzag (get_or column.now i (pos 0)) ≤ result }
{
    let mut bits = 0;
    for &value in column {
        bits |= zigzag_encode(value);
    }
    bits
}

// The least width that holds every number up to max: 64 less the leading zeros.
#[tactic(auto, unfolding(format::specs::Width::width))]
pub fn required_width(max: u64) -> u32
    ensures { result ≡ width max }
{
    64 - max.leading_zeros()
}
