// Whether varints in a row can be read, asked of all their bytes at once: enough bytes end a varint, and no ten in a row are
// continued. The compiler makes vector code of the two loops, which is faster than to walk from varint to varint.
ghost use Rattle.std.specs.Prelude.{◌≡◌, true, ℕ, ◌+◌, ◌*◌, ◌≤◌, length};
ghost use Rattle.format.specs.Encodings.{max_chunk_elements};
ghost use Rattle.varints.specs.Readable.{Passes};
ghost use Rattle.varints.specs.Scans.{lasts, least5, least10, NoTen};

use codec::chunk::Body;
use format::Header;

// How many bytes end a varint.
#[tactic(auto, using(crate::proofs::Scanning::lasts_end, crate::proofs::Scanning::lasts_more))]
fn last_bytes(bytes: &[u8]) -> u32
    requires { length bytes.now ≤ 10 * max_chunk_elements }
    ensures { result ≡ lasts bytes.now }
{
    let mut count = 0;
    for &byte in bytes {
        count += u32::from(byte < 128);
    }
    count
}

// The least of five bytes in a row.
#[tactic(auto, unfolding(crate::specs::Scans::least5))]
fn least_of_five(bytes: &[u8], i: usize) -> u8
    requires { i + 5 ≤ length bytes.now }
    ensures { result ≡ least5 bytes.now i }
{
    let high = bytes[i + 3].min(bytes[i + 4]);
    bytes[i].min(bytes[i + 1].min(bytes[i + 2].min(high)))
}

// The least of ten bytes in a row.
#[tactic(auto, unfolding(crate::specs::Scans::least10))]
fn least_of_ten(ten: &[u8]) -> u8
    requires { length ten.now ≡ 10 }
    ensures { result ≡ least10 ten.now 0 }
{
    least_of_five(ten, 0).min(least_of_five(ten, 5))
}

// The greatest such least: 128 or more if ten bytes in a row are continued.
fn greatest_of_tens(bytes: &[u8]) -> u8
    ensures { (i : ℕ) → i + 10 ≤ length bytes.now → least10 bytes.now i ≤ result }
{
    let mut most = 0;
    for ten in bytes.windows(10) {
        most = most.max(least_of_ten(ten));
    }
    most
}

// Whether the bytes have `count` varints in a row.
fn rows(bytes: &[u8], count: usize) -> bool
    requires { length bytes.now ≤ 10 * max_chunk_elements }
    ensures { result ≡ true → (count ≤ lasts bytes.now) × NoTen bytes.now }
{
    count <= last_bytes(bytes) as usize && greatest_of_tens(bytes) < 128
}

// Whether all varints of a body can surely be read. They have ten bytes each at most; what is after these does not matter.
pub(crate) fn readable(body: Body<'_>) -> bool
    ensures { result ≡ true → Passes body.entry.chunk.now body.entry.header.start body.entry.header.count }
{
    let Header { count, start, .. } = body.header;
    let end = (start + 10 * count).min(body.chunk.len());
    rows(&body.chunk[start..end], count)
}
