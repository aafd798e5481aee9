// The third demand: a column is planned, written in the encoding planned, and read back from the bytes that were written.
#![tactic(auto)]

ghost use Rattle.std.specs.Prelude.{◌≡◌, length, None};
ghost use Rattle.format.specs.Answers.{buffer_after};
ghost use Rattle.format.specs.Plan.{plan_scratch};
ghost use Rattle.round_trip.specs.Claim.{Lent, Claim};
ghost use Rattle.round_trip.specs.Told.{trip_told};
ghost use Rattle.round_trip.specs.Trip.{trip_of, write_trip, read_trip};

use format::Refusal;
use integer::{decode_either, encode_integers, read_all};
use plan::{Planned, analyze};

// What planning, writing and reading answered; nothing where a step did not run, since one before it was refused.
#[derive(Clone, Copy, Debug)]
pub struct Trip {
    pub planned: Result<Planned, Refusal>,
    pub written: Option<Result<usize, Refusal>>,
    pub read: Option<Result<usize, Refusal>>,
}

// A trip that ends before reading.
fn ended(planned: Result<Planned, Refusal>, written: Option<Result<usize, Refusal>>) -> Trip
    ensures { result ≡ record { planned = planned; written = written; read = None } }
{
    Trip {
        planned,
        written,
        read: None,
    }
}

// Plans a column at a level, writes it in the encoding planned, and reads the bytes that writing stored, named by that encoding or
// not, strictly or not: what comes back is the same in all four. The scratch that planning left is lent on to writing. Whatever the
// arguments, the contract says what each step answers and what the buffers hold; and that the third demand holds where what it
// names is lent. `naming` stays a `bool`: it says only whether the encoding that was planned is named too, and is no value of the caller's,
// so an `Option` is no plainer.
pub fn round_trip(
    column: &[i64],
    level: u32,
    naming: bool,
    strict: bool,
    scratch: &mut [i64],
    out: &mut [u8],
    back: &mut [i64],
) -> Trip
    ensures value { trip_told result ≡ trip_of level column.now (length scratch.old) (length out.old) (length back.old) }
    ensures scratch_after { scratch.new ≡ plan_scratch level column.now scratch.old }
    ensures out_after { out.new
        ≡ buffer_after (write_trip level column.now (length scratch.old) (length out.old)) out.old }
    ensures back_after { back.new
        ≡ buffer_after (read_trip level column.now (length scratch.old) (length out.old) (length back.old))
        back.old }
    ensures claim { Lent column.now level scratch.old out.old back.old
        → Claim column.now level scratch.old out.old back.old (trip_told result) out.new back.new }
{
    read_all(column);
    let planned = analyze(column, level, scratch);
    let Ok(found) = planned else {
        return ended(planned, None);
    };
    let encoding = found.plan.encoding;
    let number = u32::from(encoding.id());
    let written = encode_integers(column, number, scratch, out);
    let Ok(stored) = written else {
        return ended(planned, Some(written));
    };
    let name = naming.then_some(number);
    let read = decode_either(&out[..stored], name, strict, back);
    Trip {
        planned,
        written: Some(written),
        read: Some(read),
    }
}
