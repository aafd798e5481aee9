// The groups of seven bits in bytes, and in a word of eight bytes.
ghost use Rattle.std.specs.Prelude.{◌≡◌, ◌%◌};
ghost use Rattle.varint.specs.Reading.{groups8};

// The 7 bits of a byte that count.
pub(crate) fn group(b: u8) -> u64
    ensures { result ≡ b % 128 }
{
    u64::from(b & 0x7f)
}

// The groups of the eight bytes of x, one after the other: those of each pair of bytes are joined at once, then the four pairs.
#[tactic(auto, using(crate::proofs::Pairs::groups_are))]
pub(crate) fn groups(x: u64) -> u64
    ensures { result ≡ groups8 x }
{
    let a = (x & 0x007f007f007f007f) + ((x & 0x7f007f007f007f00) >> 1);
    a % 65536
        + a / 65536 % 65536 * 16384
        + a / 4294967296 % 65536 * 268435456
        + a / 281474976710656 * 4398046511104
}
