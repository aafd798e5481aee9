// Packed bodies in blocks: writing what a coding makes of each value of a column.
ghost use Rattle.std.specs.Prelude.{◌≡◌, ℕ, ℤ, map, ◌+◌, ◌≤◌, length};
ghost use Rattle.std.proofs.lemmas.List.Edits.{sets};
ghost use Rattle.format.specs.Packing.{packed_len, packed};

use crate::block::BLOCK;
use crate::checked::put_packed;
use bitpack::width::Width;

// What is packed of each value of a column: its code.
pub trait Coding {
    ghost code: { Self → ℤ → ℕ };

    // What a coding remembers may change with a call; its codes do not.
    fn code(&mut self, value: i64) -> u64
        ensures value { result ≡ code self.old value }
        ensures kept { code self.new ≡ code self.old };
}

// The codes of a part of a column, at the front of `block`. Tried: `iter_mut` with `zip` in place of `block[j]`; no proof closed, as the library
// says nothing of the elements that are lent so.
fn put_codes<C: Coding>(part: &[i64], coding: &mut C, block: &mut [u64])
    requires { length part.now ≤ length block.old }
    ensures value { block.new ≡ sets block.old 0 (map (C.code coding.old) part.now) }
    ensures kept { C.code coding.new ≡ C.code coding.old }
{
    for (j, &value) in part.iter().enumerate() {
        block[j] = coding.code(value);
    }
}

// Packs the codes of a column to `out` from `start` on.
pub fn pack_by<C: Coding>(
    column: &[i64],
    coding: &mut C,
    width: Width,
    out: &mut [u8],
    start: usize,
)
    requires { start + packed_len (length column.now) width.bits ≤ length out.old }
    ensures { out.new ≡ sets out.old start (packed width.bits (map (C.code coding.old) column.now)) }
{
    let mut block = [0u64; BLOCK];
    let mut at = start;
    for part in column.chunks(BLOCK) {
        put_codes(part, coding, &mut block);
        at = put_packed(&block[..part.len()], width.bits, out, at).unwrap();
    }
}
