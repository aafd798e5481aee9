// The values that packed bytes hold. What is past the end of the bytes counts 0.
ghost use Rattle.std.specs.Prelude.{◌≡◌, ◌-◌, ◌/◌, ◌%◌, ◌^◌, ◌<◌, ◌≤◌, length};
ghost use Rattle.format.specs.Digits.{of_digits};
ghost use Rattle.format.specs.Encodings.{max_chunk_elements};
ghost use Rattle.format.specs.Packing.{unpacked};
ghost use Rattle.bitpack.specs.Loads.{Within};

use crate::width::Width;
use number::words::{byte_at, load, load_padded};

// The bits of a value that begins at a bit. The mask is handed in. Tried: made anew for each value, which at width 64 took an instruction
// a value more, 4 to 6 percent of decoding.
fn value_at(s: &[u8], width: Width, mask: u64, bit: usize) -> u64
    requires { (mask ≡ 2 ^ width.bits - 1) × (bit < 2 ^ 62) }
    ensures { result ≡ of_digits 256 s.now / 2 ^ bit % 2 ^ width.bits }
{
    let w = width.bits as usize;
    // A width of 0 has no bytes to load.
    if w == 0 {
        return 0;
    }
    let p = bit / 8;
    let off = bit % 8;
    let lo = load_padded(s, p) >> off;
    if off + w <= 64 {
        return lo & mask;
    }
    let hi = u64::from(byte_at(s, p + 8)) << (64 - off);
    (lo | hi) & mask
}

// How many of n values are in a word that is inside len bytes. At widths up to 57 a word that begins at the byte of a
// value's first bit has all its bits. Tried: at 64 too, it takes 1.14 ns a value in place of 1.78, but widths up to 57 take 1.14 in
// place of 0.94.
fn within(len: usize, w: usize, n: usize) -> usize
    ensures { Within len w n result }
{
    if w == 0 || w > 57 || len < 8 {
        return 0;
    }
    let q = (len - 8) / w;
    q.min(n / 8) * 8
}

// Values whose words are all inside: one load, shift and mask for each.
fn unpack_words(s: &[u8], width: Width, out: &mut [u64])
    requires { (length out.old ≤ max_chunk_elements) × Within (length s.now) width.bits (length out.old) (length out.old) }
    ensures { out.new ≡ unpacked width.bits (length out.old) s.now }
{
    let m = width.mask();
    let w = width.bits as usize;
    for (i, value) in out.iter_mut().enumerate() {
        let bit = i * w;
        *value = (load(s, bit / 8) >> (bit % 8)) & m;
    }
}

// The first values of a width, as many as `out` has places.
pub(crate) fn unpack_into(s: &[u8], width: Width, out: &mut [u64])
    requires { length out.old ≤ max_chunk_elements }
    ensures { out.new ≡ unpacked width.bits (length out.old) s.now }
{
    let mask = width.mask();
    let w = width.bits as usize;
    let k = within(s.len(), w, out.len());
    unpack_words(s, width, &mut out[..k]);
    for (i, value) in out[k..].iter_mut().enumerate() {
        *value = value_at(s, width, mask, (k + i) * w);
    }
}
