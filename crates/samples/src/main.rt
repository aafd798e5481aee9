// Runs numbers, varints, packing and the round trip on samples from published papers and prints what they answer, a line each, so
// that the file stdout, to which `rt` holds the print, can be read beside those papers.
#![tactic(auto)]

use std::io;

mod numbers;
mod packed;
mod text;
mod trips;
mod varint_samples;

fn main(rt: HostRuntime) -> io::Result<()> {
    numbers::show(&rt)?;
    varint_samples::show(&rt)?;
    packed::show(&rt)?;
    trips::show(&rt)
}
