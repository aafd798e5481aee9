// Reading a key at a place of a chunk.
ghost use Rattle.std.specs.Prelude.{◌≡◌};
ghost use Rattle.format.specs.Keys.{key_at};

use number::words::load_padded;

// The key whose eight bytes are at a place; bytes past the end count 0.
#[tactic(auto, unfolding(format::specs::Keys::key_at))]
pub fn key_at(chunk: &[u8], at: usize) -> i64
    ensures { result ≡ key_at chunk.now at }
{
    number::of_bits(load_padded(chunk, at))
}
