// How many answers hold, of each kind.
use std::{fmt, io};

// What is counted, file by file, in the order of the print.
#[derive(Clone, Copy, Debug, PartialEq, Eq)]
pub(crate) enum Question {
    Number,
    VarintRead,
    Packing,
    Unpacking,
    PackedLength,
    PackingOfMany,
    StoredColumn,
    DescribedColumn,
    NoKeysWritten,
    Written,
    TooManyDistinct,
    Planned,
    StoredChunk,
    SummedChunk,
    Accepted,
    Refused,
    Large,
}

const QUESTIONS: usize = 17;

impl fmt::Display for Question {
    fn fmt<W: fmt::Write>(&self, f: &mut fmt::Formatter<W>) -> fmt::Result {
        f.write_str(match self {
            Question::Number => "numbers",
            Question::VarintRead => "varints read",
            Question::Packing => "packings",
            Question::Unpacking => "unpackings",
            Question::PackedLength => "packed lengths",
            Question::PackingOfMany => "packings of many values, and back",
            Question::StoredColumn => "columns, stored",
            Question::DescribedColumn => "columns, described",
            Question::NoKeysWritten => "encodings that write no keys",
            Question::Written => "chunks written, and read back in four ways",
            Question::TooManyDistinct => "Dictionary chunks of too many distinct values, refused",
            Question::Planned => "plans, at the levels 0 to 9",
            Question::StoredChunk => "chunks, their values stored",
            Question::SummedChunk => "chunks, a checksum of their values stored",
            Question::Accepted => "readings accepted",
            Question::Refused => "readings refused",
            Question::Large => "readings of 2^24 values, refused for our shorter column alone",
        })
    }
}

#[derive(Clone, Copy)]
pub(crate) struct Tally {
    held: [u64; QUESTIONS],
}

impl Tally {
    pub(crate) fn new() -> Tally {
        Tally {
            held: [0; QUESTIONS],
        }
    }

    // One more holds.
    pub(crate) fn add(&mut self, question: Question) {
        if let Some(count) = self.held.get_mut(question as usize) {
            *count = count.wrapping_add(1);
        }
    }

    // A line for each of a file's questions, also where nothing holds.
    pub(crate) fn print(&self, rt: &impl Print, questions: &[Question]) -> io::Result<()> {
        for question in questions {
            let count = self.held.get(*question as usize).copied().unwrap_or(0);
            println!(rt; "{question}: {count}")?;
        }
        Ok(())
    }
}
