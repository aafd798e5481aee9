// The round trip: document 01's columns, planned, written and read back. A line has the encoding planned and the bytes estimated; what
// writing answers, and its chunk; and what reading answers, and the buffer of four keys then.
use crate::text::{Answer, Hex, Numbers, Refused};
use format::Refusal;
use std::{fmt, io};

// What writing or reading answered, if it ran.
#[derive(Drop)]
struct Step(Option<Result<usize, Refusal>>);

impl fmt::Display for Step {
    fn fmt<W: fmt::Write>(&self, f: &mut fmt::Formatter<W>) -> fmt::Result {
        match self.0 {
            None => f.write_str(" not run"),
            Some(answer) => write!(f, "{}", Answer(answer)),
        }
    }
}

pub(crate) fn show(rt: &impl Print) -> io::Result<()> {
    println!(rt;
        "\nColumns planned, written in the encoding planned, and read back (document 01)"
    )?;
    trip(rt, "0, at level 6", &[0], 6, &mut [0; 40])?;
    trip(rt, "5 5 5 5, at level 6", &[5, 5, 5, 5], 6, &mut [0; 40])?;
    trip(rt, "5 5 5 5, at level 0", &[5, 5, 5, 5], 0, &mut [0; 40])?;
    let ends = [i64::MIN, i64::MAX];
    trip(
        rt,
        "the least and the greatest key, at level 4",
        &ends,
        4,
        &mut [0; 40],
    )?;
    trip(
        rt,
        "the least and the greatest key, at level 3",
        &ends,
        3,
        &mut [0; 40],
    )?;
    trip(rt, "0, at level 10", &[0], 10, &mut [0; 40])?;
    trip(
        rt,
        "1 2 3 4 5, at level 6",
        &[1, 2, 3, 4, 5],
        6,
        &mut [0; 40],
    )?;
    trip(
        rt,
        "5 5 5 5, at level 6, to five bytes",
        &[5, 5, 5, 5],
        6,
        &mut [0; 5],
    )
}

fn trip(rt: &impl Print, what: &str, column: &[i64], level: u32, out: &mut [u8]) -> io::Result<()> {
    let mut scratch = [77; 5];
    let mut back = [77; 4];
    let trip = round_trip::round_trip(column, level, true, true, &mut scratch, out, &mut back);
    print!(rt; "{what}:")?;
    match trip.planned {
        Ok(planned) => {
            let plan = planned.plan;
            print!(rt;
                " encoding {} of {} bytes",
                plan.encoding.id(),
                plan.estimated_bytes
            )?;
        }
        Err(refusal) => print!(rt; "{}", Refused(refusal))?,
    }
    let stored = trip.written.and_then(|answer| answer.ok()).unwrap_or(0);
    print!(rt;
        "; written:{}{}",
        Step(trip.written),
        Hex(out.get(..stored).unwrap_or(out))
    )?;
    println!(rt; "; read:{}:{}", Step(trip.read), Numbers(&back))
}
