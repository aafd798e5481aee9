// The C interface: what include/warpboulder.h declares. `tools/library c_api` writes target/staticlib/libc_api.a. Each call hands on
// what a proved call answers and leaves; nothing is decided here.
//
// A caller in C passes a slice as two arguments, a pointer and a count of elements, and `&mut usize` as a pointer. An enum does not
// cross `extern "C"`: of an answer the number is returned, and the count or the offset is stored through the last pointer. A record is a
// struct of `rows`, which has the fields of the header's; of a refused call it is the default: every number 0, but a plan's encoding 1
// and a cardinality exact.
#![tactic(auto)]

ghost use Rattle.std.specs.Prelude.{◌≡◌};
ghost use Rattle.format.specs.Answers.{outcome_of};
ghost use Rattle.c_api.specs.Told.{told};

use format::Refusal;

pub mod chunks;
pub mod columns;
pub mod numbers;
pub mod packing;
pub mod varint_calls;

// Tells an answer: 0 and the count, or why it is refused and the offset.
pub(crate) fn tell(answer: Result<usize, Refusal>, place: &mut usize) -> u32
    ensures { (result, place.new) ≡ told (outcome_of answer) }
{
    match answer {
        Ok(count) => {
            *place = count;
            0
        }
        Err(refusal) => {
            *place = refusal.offset;
            refusal.kind.number()
        }
    }
}
