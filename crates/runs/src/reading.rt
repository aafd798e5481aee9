// Asking the questions of a body of runs.
ghost use Rattle.std.specs.Prelude.{◌≡◌};
ghost use Rattle.format.specs.Answers.{outcome_of};
ghost use Rattle.format.specs.Runs.{validate_runs, validate_run_length};

use crate::near::{read_length, settle_key};
use codec::body::with_varint;
use codec::chunk::Body;
use format::{Extent, Kind, Refusal};

// n runs after what was read before, which are to have `count` values in all. A damaged length can be near 2^64, so it is compared with
// what is left, and no sum is made of it.
#[tactic(auto, using(crate::proofs::Asks::run_next, crate::proofs::Asks::runs_end))]
fn settle_runs(chunk: &[u8], before: Extent, n: usize, count: usize) -> Result<Extent, Refusal>
    ensures { outcome_of result ≡ validate_runs chunk.now before.end n count before.padded }
{
    let mut read = before;
    let mut left = count;
    for _ in 0..n {
        let key = settle_key(chunk, read)?;
        let times = read_length(chunk, key.end)?;
        if times.value > left as u64 {
            return Err(Kind::RunAboveRest.at(times.next));
        }
        left -= times.value as usize;
        read = with_varint(key, times);
    }
    if left > 0 {
        return Err(Kind::RunsBelowCount.at(0));
    }
    Ok(read)
}

// The questions of a body.
#[tactic(auto, unfolding(format::specs::Runs::validate_run_length))]
pub(crate) fn settle_body(body: Body<'_>) -> Result<Extent, Refusal>
    ensures { let h = body.entry.header in outcome_of result ≡ validate_run_length body.entry.chunk.now h.start h.count h.padded }
{
    let Body { chunk, header } = body;
    let total = varint::read_uvarint(chunk, header.start)?;
    if total.value > header.count as u64 {
        return Err(Kind::RunsAboveCount.at(total.next));
    }
    let before = with_varint(body.before(), total);
    settle_runs(chunk, before, total.value as usize, header.count)
}
