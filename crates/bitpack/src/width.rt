// Widths of packed values.
ghost use Rattle.std.specs.Prelude.{◌≡◌, ◌-◌, ◌^◌, ◌<◌, ◌≤◌, MatchResult};
ghost use Rattle.format.specs.Encodings.{max_chunk_elements};
ghost use Rattle.format.specs.Packing.{packed_len};
ghost use Rattle.format.specs.Width.{width};
ghost use Rattle.format.specs.declared.refusals.Kind.TheVariants.{WidthAbove64};

use format::{Kind, Refusal};

// A width of at most 64 bits.
#[derive(Clone, Copy, Debug, PartialEq, Eq)]
pub struct Width {
    pub bits: u32,
    ghost narrow: { bits ≤ 64 },
}

impl Width {
    // Asks question 12: at most 64 bits?
    pub fn new(bits: u32) -> Result<Width, Refusal>
        ensures { MatchResult result (λ width. width.bits ≡ bits)
            (λ refusal. (refusal ≡ record { kind = WidthAbove64; offset = 0 }) × (64 < bits)) }
    {
        if bits > 64 {
            return Err(Kind::WidthAbove64.at(0));
        }
        Ok(Width { bits })
    }

    // The least width that holds every number up to the largest.
    pub fn of(largest: u64) -> Width
        ensures { result.bits ≡ width largest }
    {
        Width {
            bits: number::required_width(largest),
        }
    }

    // Bytes for `count` values.
    #[tactic(auto, unfolding(format::specs::Packing::packed_len))]
    pub fn packed_len(self, count: usize) -> usize
        requires { count ≤ max_chunk_elements }
        ensures { result ≡ packed_len count self.bits }
    {
        (count * self.bits as usize).div_ceil(8)
    }

    // The lowest bits set, as many as the width.
    pub(crate) fn mask(self) -> u64
        ensures { result ≡ 2 ^ self.bits - 1 }
    {
        if self.bits == 64 {
            u64::MAX
        } else {
            (1u64 << self.bits) - 1
        }
    }
}
