// Replays the stored answers of the original Rust (docs/ORACLE.md): asks the port each question that the files in data/ hold and
// compares; then runs document 01's entries that are not proved, and calls that it refuses. Prints how many answers hold, of each kind, which `rt`
// holds to the file stdout, and the place of each record that does not.
#![tactic(auto)]

ghost use Rattle.std.specs.Prelude.{◌≤◌, length, IfOk};

use buffers::BYTES;
use fields::{after_header, first_record};
use std::io::Read;
use std::rt::Files;
use std::{fs, io};
use tally::{Question, Tally};

mod analysed;
mod buffers;
mod chunks;
mod columns;
mod fields;
mod formula;
mod gains;
mod leaves;
mod made;
mod packing;
mod planned;
mod refused;
mod sheet;
mod tally;
mod text;
mod written;

fn main(rt: HostRuntime) -> io::Result<()> {
    replay(&rt, "leaves.bin", &leaves::QUESTIONS, |kind, record, _| {
        leaves::holds(kind, record)
    })?;
    replay(
        &rt,
        "columns.bin",
        &columns::QUESTIONS,
        |kind, record, tally| { columns::holds(kind, record, tally) },
    )?;
    replay(
        &rt,
        "chunks.bin",
        &chunks::QUESTIONS,
        |kind, record, tally| { chunks::holds(kind, record, tally) },
    )?;
    sheet::run(&rt)?;
    gains::run(&rt)?;
    refused::run(&rt)
}

// Asks every record of a file, by its kind, and prints for each question how many hold. A record that does not hold is named by its place
// in the file, and so is what is no whole record.
fn replay<F: Fn(u8, &[u8], &mut Tally) -> Option<Question>>(
    rt: &(impl Files + Print + Eprint),
    path: &str,
    questions: &[Question],
    holds: F,
) -> io::Result<()>
    requires { F.IsAlwaysCallable holds }
{
    let mut room = [0; BYTES];
    let length = load(rt, path, &mut room)?;
    let file = &room[..length];
    let mut tally = Tally::new();
    let mut rest = after_header(file);
    while let Some((kind, record, others)) = first_record(rest) {
        match holds(kind, record, &mut tally) {
            Some(question) => tally.add(question),
            None => does_not_hold(rt, file, rest)?,
        }
        rest = others;
    }
    if !rest.is_empty() {
        does_not_hold(rt, file, rest)?;
    }
    tally.print(rt, questions)
}

// Reads a file and answers its length, of which no more than the room counts: 0, and says so, where it cannot be opened.
fn load(rt: &(impl Files + Eprint), path: &str, room: &mut [u8]) -> io::Result<usize>
    ensures { IfOk result (λ count. count ≤ length room.new) }
{
    match fs::open(rt, path) {
        Ok(mut file) => read_full(&mut file, room),
        Err(error) => {
            eprintln!(rt; "{path}: {error}")?;
            Ok(0)
        }
    }
}

// Reads until the room is full or the file has no more, and answers how many bytes.
fn read_full(file: &mut impl Read, room: &mut [u8]) -> io::Result<usize>
    ensures { IfOk result (λ count. count ≤ length room.new) }
{
    let mut done = 0;
    while done < room.len() {
        let count = file.read(&mut room[done..])?;
        if count == 0 {
            break;
        }
        done += count;
    }
    Ok(done)
}

fn does_not_hold(rt: &impl Print, file: &[u8], rest: &[u8]) -> io::Result<()> {
    let at = file.len().saturating_sub(rest.len());
    println!(rt; "does not hold: the record at {at}")
}
