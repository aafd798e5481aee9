// Document 01's entry on the test of gain: "Plain 1,060 at level 6: a best of 1,007 is kept, 1,008 is not". The Plain chunk of 132 keys
// has 1,060 bytes. Of these keys 96 are so far apart that every encoding but Varint needs nearly eight bytes for each key, and 35 are
// small, so Varint is the best: 999 bytes and those of the last key's varint, 8 or 9.
use crate::text::entry;
use format::{Encoding, PlanReason};
use std::io;

const KEYS: usize = 132;

const LEVEL: u32 = 6;

// A plan's encoding, the reason for it, and its bytes.
type Choice = (Encoding, PlanReason, usize);

pub(crate) fn run(rt: &impl Print) -> io::Result<()> {
    let kept = (Encoding::Varint, PlanReason::SmallestEstimate, 1007);
    gain(
        rt,
        "Plain 1,060, a best of 1,007, at level 6",
        1 << 49,
        1007,
        kept,
    )?;
    let not_kept = (Encoding::Plain, PlanReason::GainBelowThreshold, 1060);
    gain(
        rt,
        "Plain 1,060, a best of 1,008, at level 6",
        1 << 56,
        1008,
        not_kept,
    )
}

// The plan of the column with this last key, whose Varint chunk has `best` bytes.
fn gain(rt: &impl Print, what: &str, last: i64, best: usize, choice: Choice) -> io::Result<()> {
    let column = column_with(last);
    let mut scratch = [0; KEYS];
    let planned = plan::analyze(&column, LEVEL, &mut scratch).map(|found| found.plan);
    let is_right = planned.is_ok_and(|plan| {
        plan.plain_bytes == 1060
            && plan.estimates.lengths[Encoding::Varint as usize] == Some(best)
            && (plan.encoding, plan.reason, plan.estimated_bytes) == choice
    });
    entry(rt, what, planned.map(|plan| plan.estimated_bytes), is_right)
}

// From 2^62 up by 2^56, from -2^62 - 2^56 down by 2^56, from 0 up by 1, and the last.
fn column_with(last: i64) -> [i64; KEYS] {
    let rising = (64..112).map(|key: i64| key << 56);
    let falling = (-112..-64).rev().map(|key: i64| key << 56);
    let mut keys = [last; KEYS];
    for (slot, key) in keys.iter_mut().zip(rising.chain(falling).chain(0..35)) {
        *slot = key;
    }
    keys
}
