// Why something is refused, and where.
ghost use Rattle.std.specs.Prelude.{◌≡◌};
ghost use Rattle.format.specs.Refusals.{kind_number, Numbered};

use std::error::Error;
use std::fmt;

// The reasons, each with its number.
#[derive(Clone, Copy, Debug, PartialEq, Eq)]
pub enum Kind {
    UnknownId,
    NotAnIntegerEncoding,
    NoHeader,
    OtherEncoding,
    UnknownVersion,
    VarintCut,
    VarintTooLong,
    CountAboveLimit,
    PlainCut,
    NoWidth,
    FrameCut,
    WidthAbove64,
    PackedCut,
    RunsAboveCount,
    RunAboveRest,
    RunsBelowCount,
    EntriesAboveBytes,
    CodeAboveEntries,
    BlockSizeOutOfRange,
    BufferTooShort,
    ColumnAboveLimit,
    ScratchTooShort,
    TooManyDistinct,
    LevelAbove9,
    VarintPadded,
    BytesAfterBody,
}

// A refusal: its kind, and the offset that goes with it.
#[derive(Clone, Copy, Debug, PartialEq, Eq)]
pub struct Refusal {
    pub kind: Kind,
    pub offset: usize,
}

// A number that no refusal has.
#[derive(Clone, Copy, Debug, PartialEq, Eq)]
pub struct UnknownNumber(pub u32);

impl Kind {
    // The number that the format gives it.
    pub fn number(self) -> u32
        ensures { result ≡ kind_number self }
    {
        self as u32 + 1
    }

    // A refusal of this kind, with its offset.
    #[inline]
    pub fn at(self, offset: usize) -> Refusal
        ensures { result ≡ record { kind = self; offset = offset } }
    {
        Refusal { kind: self, offset }
    }
}

impl TryFrom<u32> for Kind {
    type Error = UnknownNumber;

    ghost try_from_gives = { Numbered };

    fn try_from(number: u32) -> Result<Kind, UnknownNumber> {
        match number {
            1 => Ok(Kind::UnknownId),
            2 => Ok(Kind::NotAnIntegerEncoding),
            3 => Ok(Kind::NoHeader),
            4 => Ok(Kind::OtherEncoding),
            5 => Ok(Kind::UnknownVersion),
            6 => Ok(Kind::VarintCut),
            7 => Ok(Kind::VarintTooLong),
            8 => Ok(Kind::CountAboveLimit),
            9 => Ok(Kind::PlainCut),
            10 => Ok(Kind::NoWidth),
            11 => Ok(Kind::FrameCut),
            12 => Ok(Kind::WidthAbove64),
            13 => Ok(Kind::PackedCut),
            14 => Ok(Kind::RunsAboveCount),
            15 => Ok(Kind::RunAboveRest),
            16 => Ok(Kind::RunsBelowCount),
            17 => Ok(Kind::EntriesAboveBytes),
            18 => Ok(Kind::CodeAboveEntries),
            19 => Ok(Kind::BlockSizeOutOfRange),
            20 => Ok(Kind::BufferTooShort),
            21 => Ok(Kind::ColumnAboveLimit),
            22 => Ok(Kind::ScratchTooShort),
            23 => Ok(Kind::TooManyDistinct),
            24 => Ok(Kind::LevelAbove9),
            25 => Ok(Kind::VarintPadded),
            26 => Ok(Kind::BytesAfterBody),
            _ => Err(UnknownNumber(number)),
        }
    }
}

impl fmt::Display for Kind {
    fn fmt<W: fmt::Write>(&self, f: &mut fmt::Formatter<W>) -> fmt::Result {
        f.write_str(match self {
            Kind::UnknownId => "the first byte is missing or is no encoding id from 1 to 9",
            Kind::NotAnIntegerEncoding =>
                "the encoding is not one of the seven for integers, which have the ids 1 to 7",
            Kind::NoHeader => "there are fewer than the two bytes that a header begins with",
            Kind::OtherEncoding => "the chunk is in another encoding than the one named",
            Kind::UnknownVersion => "the version byte is not 1",
            Kind::VarintCut => "the bytes end in the middle of a varint",
            Kind::VarintTooLong => "a varint has more than ten bytes",
            Kind::CountAboveLimit => "the header claims more than 16,777,216 keys",
            Kind::PlainCut => "there are fewer than eight bytes for each key",
            Kind::NoWidth => "the width byte is missing",
            Kind::FrameCut => "the least key or the width byte of a frame of reference is missing",
            Kind::WidthAbove64 => "a width is above 64 bits",
            Kind::PackedCut =>
                "there are too few packed bytes, and the offset is how many there are",
            Kind::RunsAboveCount => "there are more runs than keys",
            Kind::RunAboveRest => "a run is longer than what is left of the count",
            Kind::RunsBelowCount => "the runs hold fewer keys than the header claims",
            Kind::EntriesAboveBytes =>
                "the dictionary claims more entries than there are bytes left",
            Kind::CodeAboveEntries => "a code names no entry of the dictionary",
            Kind::BlockSizeOutOfRange => "the block size of the deltas is not from 1 to 1,048,576",
            Kind::BufferTooShort =>
                "the buffer lent is too short, and the offset is the length needed",
            Kind::ColumnAboveLimit => "there are more than 16,777,216 keys or values",
            Kind::ScratchTooShort => "the scratch lent is too short",
            Kind::TooManyDistinct =>
                "there are more than 16,384 distinct keys, which no dictionary holds",
            Kind::LevelAbove9 => "the compression level is above 9",
            Kind::VarintPadded =>
                "a varint is longer than it needs to be, which strict reading refuses",
            Kind::BytesAfterBody =>
                "bytes follow the body of the chunk, which strict reading refuses",
        })
    }
}

impl fmt::Display for Refusal {
    fn fmt<W: fmt::Write>(&self, f: &mut fmt::Formatter<W>) -> fmt::Result {
        write!(
            f,
            "{} (refusal {} at offset {})",
            self.kind,
            self.kind.number(),
            self.offset
        )
    }
}

impl Error for Refusal {}

impl fmt::Display for UnknownNumber {
    fn fmt<W: fmt::Write>(&self, f: &mut fmt::Formatter<W>) -> fmt::Result {
        write!(f, "no refusal has the number {}", self.0)
    }
}

impl Error for UnknownNumber {}

#[cfg(test)]
mod tests {
    use super::*;
    use std::test::Fail;

    #[test]
    fn is_told(rt: HostRuntime) -> Result<(), Fail> {
        let refusal = Refusal {
            kind: Kind::VarintCut,
            offset: 7,
        };
        let text = format!(in rt.alloc(); "{refusal}")?;
        assert_eq!(rt;
            text.as_str(),
            "the bytes end in the middle of a varint (refusal 6 at offset 7)"
        );
        let debug = format!(in rt.alloc(); "{refusal:?}")?;
        assert_eq!(rt; debug.as_str(), "Refusal { kind: VarintCut, offset: 7 }");
        Ok(())
    }

    #[test]
    fn numbers(rt: HostRuntime) -> Result<(), Fail> {
        assert_eq!(rt; Kind::BytesAfterBody.number(), 26);
        assert_eq!(rt; Kind::try_from(26)?, Kind::BytesAfterBody);
        assert_eq!(rt; Kind::try_from(27), Err(UnknownNumber(27)));
        Ok(())
    }
}
