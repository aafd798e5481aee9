// A packed body goes in blocks of 128 values, which end on a byte at every width: how many values are left of it, where it ends, and
// the values themselves, a block at a time.
ghost use Rattle.std.specs.Prelude.{◌≡◌, ℕ, ◌++◌, ◌+◌, ◌≤◌, ◌<◌, min, [], length, take, get_or, MatchOption};
ghost use Rattle.format.specs.Answers.{count_of, stored};
ghost use Rattle.format.specs.Encodings.{max_chunk_elements};
ghost use Rattle.format.specs.Packing.{packed_len, packed_values};
ghost use Rattle.format.specs.Standalone.{packed_len_answer};
ghost use Rattle.places.specs.Packed.{Inside};

use bitpack::width::Width;

// Values in a block: 8k values of w bits are k * w whole bytes, so the bytes of blocks join.
pub const BLOCK: usize = 128;

// The smaller of a number and a limit.
pub fn at_most(n: usize, limit: usize) -> usize
    ensures { result ≡ min n limit }
{
    n.min(limit)
}

// How many values the next block has, where so many are left.
pub fn block_len(left: usize) -> usize
    ensures { result ≡ min left 128 }
{
    left.min(BLOCK)
}

// Bytes of n values packed at a width; 0 where a packed length alone is refused.
pub fn packed_bytes(n: usize, width: u32) -> usize
    ensures { result ≡ count_of (packed_len_answer n width) }
{
    bitpack::packed_len(n, width).unwrap_or(0)
}

// What is left of a packed body: `left` values from byte `at` on.
#[derive(Clone, Copy)]
pub struct Blocks<'a> {
    chunk: &'a [u8],
    width: Width,
    at: usize,
    left: usize,
    ghost bytes: { (i : ℕ) → get_or chunk.now i 0 < 256 },
    ghost few: { left ≤ max_chunk_elements },
    ghost there: { at + packed_len left width.bits ≤ length chunk.now },
}

impl<'a> Blocks<'a> {
    ghost use Rattle.places.specs.Blocks.{to_come, body_end};

    // All values of a body of `count`, whose width byte is at `place`.
    #[tactic(auto, unfolding(crate::specs::Blocks::to_come, crate::specs::Blocks::body_end))]
    pub fn new(chunk: &'a [u8], place: usize, count: usize) -> Blocks<'a>
        requires { Inside chunk.now place count }
        ensures values { to_come result ≡ packed_values chunk.now (place + 1) (get_or chunk.now place 0) count }
        ensures end { body_end result ≡ place + 1 + packed_len count (get_or chunk.now place 0) }
    {
        Blocks {
            chunk,
            width: Width {
                bits: u32::from(chunk[place]),
            },
            at: place + 1,
            left: count,
        }
    }

    // How many values are to come.
    pub fn left(&self) -> usize
        ensures { result ≡ length (to_come self.now) }
    {
        self.left
    }

    // The place after the body.
    #[tactic(auto, unfolding(crate::specs::Blocks::body_end))]
    pub fn end(&self) -> usize
        ensures { result ≡ body_end self.now }
    {
        self.at + self.width.packed_len(self.left)
    }

    // Unpacks the next block to the front of `block`, and answers how many values it has: the last one may be shorter, and behind it
    // `block` stays. Where nothing is left, all of it does.
    pub fn next(&mut self, block: &mut [u64; BLOCK]) -> Option<usize>
        ensures taken { MatchOption result (to_come self.old ≡ [])
            (λ n. (0 < n) × (n ≡ min (length (to_come self.old)) 128) × (length (to_come self.old) ≡ n + length (to_come self.new))
            × (to_come self.old ≡ take n block.new ++ to_come self.new)) }
        ensures after { MatchOption result ((self.new ≡ self.old) × (block.new ≡ block.old))
            (λ n. (body_end self.new ≡ body_end self.old) × (block.new ≡ stored (take n (to_come self.old)) block.old)) }
    {
        if self.left == 0 {
            return None;
        }
        let n = self.left.min(BLOCK);
        // The bytes are there, and the block has room.
        bitpack::unpack(&self.chunk[self.at..], self.width.bits, n, block).unwrap();
        self.at += self.width.packed_len(n);
        self.left -= n;
        Some(n)
    }
}
