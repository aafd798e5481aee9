// What the seven codecs share (the Rust's codec.rs): in `chunk` the traits that each implements and the whole calls that are made of
// them, in `header` a chunk's first bytes, which `checked` stores too, in `body` the questions that more than one body is asked; and here
// an encoding's number and its rank.
#![tactic(auto)]

ghost use Rattle.std.specs.Prelude.{◌≡◌};
ghost use Rattle.format.specs.Answers.{outcome_of};
ghost use Rattle.format.specs.Encodings.{decode_cost_rank, id_of};
ghost use Rattle.format.specs.Parts.{encoding_named};

use format::{Encoding, Refusal};

pub mod body;
pub mod checked;
pub mod chunk;
pub mod header;

// The id that a chunk's first byte is, as the number that the calls take.
pub fn encoding_id(encoding: Encoding) -> u32
    ensures { result ≡ id_of encoding }
{
    u32::from(encoding.id())
}

// The encoding with a number: the Rust's `from_u8`.
pub fn encoding_of(number: u32) -> Result<Encoding, Refusal>
    ensures { outcome_of result ≡ encoding_named number }
{
    Encoding::try_from(number)
}

// How costly its chunks are to read, by rank; of candidates of one length the plan takes the lowest.
pub fn decode_cost_rank(encoding: Encoding) -> u32
    ensures { result ≡ decode_cost_rank encoding }
{
    match encoding {
        Encoding::Plain => 0,
        Encoding::Varint => 5,
        Encoding::BitPacked => 1,
        Encoding::FrameOfReference => 1,
        Encoding::RunLength => 4,
        Encoding::Dictionary => 3,
        Encoding::DeltaBinaryPacked => 2,
    }
}
