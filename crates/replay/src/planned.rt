// The port's plans of a column, at the levels 0 to 9, against those of a record of data/columns.bin.
use crate::analysed::{estimates_hold, stored};
use crate::buffers::{Element, KEYS};
use crate::fields::{after, has_bits, size_at, u8_at, u16_at, u64_at};
use crate::tally::{Question, Tally};
use format::EncodingPlan;

// The ten plans; each leaves the scratch as the call for statistics left it. The first that does not hold ends them.
pub(crate) fn hold(r: &[u8], column: &[i64], left: &[i64], tally: &mut Tally) -> bool {
    for level in 0..10 {
        if !plan_holds(r, column, level, left) {
            return false;
        }
        tally.add(Question::Planned);
    }
    true
}

fn plan_holds(r: &[u8], column: &[i64], level: u32, left: &[i64]) -> bool {
    let mut scratch = [i64::OLD; KEYS];
    let Ok(found) = plan::analyze(column, level, &mut scratch) else {
        return false;
    };
    found.stored == stored(r)
        && plan_is(found.plan, r, plan_at(r, level), level)
        && estimates_hold(r, found.plan.estimates)
        && scratch.as_slice() == left
}

// The place of the plan at a level: of the first that has the level's bit, or of the last.
fn plan_at(r: &[u8], level: u32) -> usize {
    let mut at = 130;
    for _ in 1..u8_at(r, 129) {
        if has_level(r, at, level) {
            return at;
        }
        at = after(at, 20);
    }
    at
}

fn has_level(r: &[u8], at: usize, level: u32) -> bool {
    level < 10 && (u16_at(r, at) >> level) & 1 == 1
}

fn plan_is(plan: EncodingPlan, r: &[u8], at: usize, level: u32) -> bool {
    has_level(r, at, level)
        && plan.encoding.id() == u8_at(r, after(at, 2))
        && plan.reason as u64 == u64::from(u8_at(r, after(at, 3)))
        && plan.estimated_bytes == size_at(r, after(at, 4))
        && plan.plain_bytes == size_at(r, after(at, 8))
        && has_bits(plan.estimated_ratio, u64_at(r, after(at, 12)))
        && has_bits(plan.run_density, u64_at(r, 86))
}
