// Document 01's sample sheet: the entries on chunks and estimates that are not proved. A line for each: the port's answer, and whether it
// is document 01's.
use crate::buffers::Element;
use crate::text::entry;
use format::{Encoding, Kind, Refusal};
use std::io;

const KEYS: usize = 130;

pub(crate) fn run(rt: &impl Print) -> io::Result<()> {
    rising_at_the_end(rt)?;
    one_value(rt)
}

// 129 zeros, then 1000: a block of 128 deltas 0, and one of a single delta, both of width 0.
fn rising_at_the_end(rt: &impl Print) -> io::Result<()> {
    let chunk = b"\x07\x01\x82\x01\x00\x80\x01\x00\x00\xd0\x0f\x00";
    let mut column = [0; KEYS];
    column[KEYS - 1] = 1000;

    let mut out = [0; 12];
    let answer = integer::encode(Encoding::DeltaBinaryPacked, &column, &mut [], &mut out);
    let is_right = answer == Ok(12) && out == *chunk;
    entry(
        rt,
        "129 zeros, then 1000, as a Delta chunk",
        answer,
        is_right,
    )?;

    let mut back = [1; KEYS];
    let answer = integer::decode_integers(chunk, false, &mut back);
    let is_right = answer == Ok(KEYS) && back == column;
    entry(rt, "that chunk, read", answer, is_right)?;

    // The estimate packs all deltas at the width of the widest.
    let mut scratch = [0; KEYS];
    let survey = estimates::estimate_sizes(&column, &mut scratch);
    let delta = Encoding::DeltaBinaryPacked as usize;
    let answer = survey.map(|survey| survey.estimates.lengths[delta].unwrap_or(0));
    let stored = survey.map(|survey| survey.analysis.stored);
    entry(
        rt,
        "its estimate",
        answer,
        answer == Ok(175) && stored == Ok(2),
    )
}

// What is asked, a chunk, and what reading it must answer.
type Entry = (&'static str, &'static [u8], Result<usize, Refusal>);

fn entries() -> [Entry; 6] {
    [
        // BitPacked chunks of width 0, whose body is empty. The column is too short for the values of the first, which is the last
        // question.
        (
            "a count of 2^24, into one place",
            b"\x03\x01\x80\x80\x80\x08\x00",
            Err(Kind::BufferTooShort.at(16777216)),
        ),
        (
            "one more",
            b"\x03\x01\x81\x80\x80\x08\x00",
            Err(Kind::CountAboveLimit.at(2)),
        ),
        // Delta chunks of one value, which have no block.
        (
            "a block size of 2^20",
            b"\x07\x01\x01\x00\x80\x80\x40",
            Ok(1),
        ),
        (
            "one more",
            b"\x07\x01\x01\x00\x81\x80\x40",
            Err(Kind::BlockSizeOutOfRange.at(7)),
        ),
        // Varint chunks of one value.
        (
            "a varint of FF ten times",
            b"\x02\x01\x01\xff\xff\xff\xff\xff\xff\xff\xff\xff\xff",
            Err(Kind::VarintCut.at(3)),
        ),
        (
            "one byte more",
            b"\x02\x01\x01\xff\xff\xff\xff\xff\xff\xff\xff\xff\xff\xff",
            Err(Kind::VarintTooLong.at(3)),
        ),
    ]
}

// The chunks read into a column of one place, which gets 0 where they are accepted, and is left as it was where not.
fn one_value(rt: &impl Print) -> io::Result<()> {
    for (what, chunk, expected) in entries() {
        let mut column = [i64::OLD];
        let answer = integer::decode_integers(chunk, false, &mut column);
        let value = if expected.is_ok() { 0 } else { i64::OLD };
        entry(rt, what, answer, answer == expected && column == [value])?;
    }
    Ok(())
}
