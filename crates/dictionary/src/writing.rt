// The parts of a body, stored: the entries, which are the column's distinct values, and a code for each value, its place among
// them.
ghost use Rattle.std.specs.Prelude.{◌≡◌, map, ◌+◌, ◌≤◌, ◌<◌, length};
ghost use Rattle.std.proofs.lemmas.List.Edits.{sets};
ghost use Rattle.format.specs.Packing.{packed_len, packed};
ghost use Rattle.format.specs.Dictionary.{entry_bytes, code_of, dictionary_body_with};
ghost use Rattle.entries.specs.Measured.{body_len};

use crate::coded::Codes;
use crate::guess::Entries;
use bitpack::width::Width;
use entries::code_width;
use entries::gap::Gaps;
use format::Column;
use places::checked::put_uvarint;
use places::packed::pack_by;

// Stores the entries from `start` on, and returns the place after them.
#[tactic(auto, using(crate::proofs::Entries::putting_begun, crate::proofs::Entries::putting_done))]
fn put_entries(entries: &[i64], out: &mut [u8], start: usize) -> usize
    requires { start + length (entry_bytes entries.now) ≤ length out.old }
    ensures value { result ≡ start + length (entry_bytes entries.now) }
    ensures out_after { out.new ≡ sets out.old start (entry_bytes entries.now) }
{
    let mut at = start;
    for number in Gaps::new(entries) {
        at = put_uvarint(number, out, at).unwrap();
    }
    at
}

// Stores the column's codes packed from `start` on, with N guesses. Tried: inlined among the other encodings, which took a tenth
// longer.
#[inline(never)]
fn store_codes<const N: usize>(
    column: Column<'_>,
    entries: Entries<'_>,
    width: Width,
    out: &mut [u8],
    start: usize,
)
    requires some { (0 < N) × (N ≤ 65536) }
    requires room { start + packed_len (length column.values.now) width.bits ≤ length out.old }
    ensures { out.new ≡ sets out.old start (packed width.bits (map (code_of entries.entry.values.now) column.entry.values.now)) }
{
    let mut codes = Codes {
        entries,
        guesses: [0u16; N],
    };
    pack_by(column.values, &mut codes, width, out, start);
}

// Stores the body from `start` on: the total, the entries, the width byte, the codes. A short column has few guesses, since a
// local table is cleared first.
pub(crate) fn store(column: Column<'_>, entries: Entries<'_>, out: &mut [u8], start: usize)
    requires { start + body_len entries.values.now (length column.values.now) ≤ length out.old }
    ensures { out.new ≡ sets out.old start (dictionary_body_with entries.entry.values.now column.entry.values.now) }
{
    let total = entries.values.len();
    let first = put_uvarint(total as u64, out, start).unwrap();
    let at = put_entries(entries.values, out, first);
    let width = code_width(total);
    out[at] = width.bits as u8;
    let codes = at + 1;
    if column.values.len() <= 1024 {
        store_codes::<128>(column, entries, width, out, codes);
    } else {
        store_codes::<32768>(column, entries, width, out, codes);
    }
}
