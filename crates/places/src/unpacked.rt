// Storing what is made of each value of a packed body.
ghost use Rattle.std.specs.Prelude.{◌≡◌, ℕ, ℤ, List, [], ◌∷◌, ◌++◌, ◌+◌, ◌≤◌, length, drop};
ghost use Rattle.std.proofs.lemmas.List.Edits.{sets};
ghost use Rattle.places.specs.Blocks.{to_come};

use crate::block::{BLOCK, Blocks};

// What is made of packed values, one after the other, and of what stood in their places of the column.
pub trait Decoding {
    ghost values: { Self → List ℕ → List ℤ → List ℤ };

    fn value(&mut self, code: u64, old: i64) -> i64
        ensures { (codes : List ℕ) (olds : List ℤ) → values self.old (code ∷ codes) (old ∷ olds) ≡ result ∷ values self.new codes olds };

    ghost none: { (s : Self) (olds : List ℤ) → values s [] olds ≡ [] };
}

// The values of a block, stored in the column from `from` on, by places as in `put_codes` of `packed`.
fn put_values<D: Decoding>(block: &[u64], decoding: &mut D, column: &mut [i64], from: usize)
    requires { from + length block.now ≤ length column.old }
    ensures { (later : List ℕ) → sets column.new (from + length block.now) (D.values decoding.new later (drop (from + length block.now) column.new))
        ≡ sets column.old from (D.values decoding.old (block.now ++ later) (drop from column.old)) }
{
    for (j, &code) in block.iter().enumerate() {
        column[from + j] = decoding.value(code, column[from + j]);
    }
}

// Fills the front of a column with what is made of the values that are to come. The cursor says how many values a block has, and `i` adds
// them up: a walk over `chunks_mut` beside it is no plainer, since it would count the blocks a second time.
pub fn fill_by<D: Decoding>(blocks: Blocks<'_>, decoding: &mut D, column: &mut [i64])
    requires { length (to_come blocks) ≤ length column.old }
    ensures { column.new ≡ sets column.old 0 (D.values decoding.old (to_come blocks.entry) column.old) }
{
    let mut blocks = blocks;
    let mut block = [0u64; BLOCK];
    let mut i = 0;
    while let Some(n) = blocks.next(&mut block) {
        put_values(&block[..n], decoding, column, i);
        i += n;
    }
}
