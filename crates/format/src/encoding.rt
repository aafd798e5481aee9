// The seven integer encodings.
ghost use Rattle.std.specs.Prelude.{◌≡◌};
ghost use Rattle.format.specs.Answers.{outcome_of};
ghost use Rattle.format.specs.Encodings.{id_of};
ghost use Rattle.format.specs.Parts.{encoding_named};

use crate::refusals::{Kind, Refusal};

// In the order of their ids, 1 to 7.
#[derive(Clone, Copy, Debug, Default, PartialEq, Eq)]
pub enum Encoding {
    #[default]
    Plain,
    Varint,
    BitPacked,
    FrameOfReference,
    RunLength,
    Dictionary,
    DeltaBinaryPacked,
}

impl Encoding {
    // The id that a chunk's first byte is.
    pub fn id(self) -> u8
        ensures { result ≡ id_of self }
    {
        self as u8 + 1
    }
}

#[tactic(auto, unfolding(crate::specs::Parts::encoding_named, crate::specs::Encodings::encoding_of, crate::specs::Encodings::encodings))]
impl TryFrom<u32> for Encoding {
    type Error = Refusal;

    ghost try_from_gives = { λ number r. outcome_of r ≡ encoding_named number };

    fn try_from(number: u32) -> Result<Encoding, Refusal> {
        match number {
            1 => Ok(Encoding::Plain),
            2 => Ok(Encoding::Varint),
            3 => Ok(Encoding::BitPacked),
            4 => Ok(Encoding::FrameOfReference),
            5 => Ok(Encoding::RunLength),
            6 => Ok(Encoding::Dictionary),
            7 => Ok(Encoding::DeltaBinaryPacked),
            _ => Err(Kind::NotAnIntegerEncoding.at(0)),
        }
    }
}
