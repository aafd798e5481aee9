// Finding varints where the caller goes on after one that is refused, as after any other: no answer to take apart, and 0 and 0 of
// such a one. `checked` tells the two apart.
ghost use Rattle.std.specs.Prelude.{◌≡◌};
ghost use Rattle.format.specs.Varint.{uvarint_at};
ghost use Rattle.varint.specs.Finding.{found_at};

use crate::checked;

// The value of a varint, and the place after it. The default stands for one that is refused, where a caller goes on after it.
#[derive(Clone, Copy, Default)]
pub struct Found {
    pub value: u64,
    pub next: usize,
}

// Finds a varint that stands alone, or one that is mostly of one byte: a longer one costs a call.
pub fn find_any(bytes: &[u8], at: usize) -> Found
    ensures { result ≡ found_at bytes.now at }
{
    checked::find_any(bytes, at).unwrap_or_default()
}

// Finds a varint in a loop.
pub fn find_uvarint(bytes: &[u8], at: usize) -> Found
    ensures { result ≡ found_at bytes.now at }
{
    checked::find_uvarint(bytes, at).unwrap_or_default()
}

// The place after the varint that begins at a place; 0 if it is refused.
#[tactic(auto, using(crate::proofs::Finding::end_or_zero))]
pub fn uvarint_end(bytes: &[u8], at: usize) -> usize
    ensures { result ≡ (uvarint_at bytes.now at).next }
{
    checked::uvarint_end(bytes, at).unwrap_or(0)
}
