// Values packed into bytes, a word of 64 bits at a time.
ghost use Rattle.std.specs.Prelude.{◌≡◌, ◌++◌, ◌≤◌, length, drop};
ghost use Rattle.format.specs.Packing.{packed_len, packed};

use crate::width::Width;
use crate::words::put_bytes;
use number::words::store;

// acc holds the bits, fewer than 64, that are not stored yet; p bytes are stored.
pub(crate) fn pack_into(vs: &[u64], width: Width, out: &mut [u8])
    requires { packed_len (length vs.now) width.bits ≤ length out.old }
    ensures { out.new ≡ packed width.bits vs.now ++ drop (packed_len (length vs.now) width.bits) out.old }
{
    let m = width.mask();
    let w = width.bits as usize;
    let mut acc: u64 = 0;
    let mut bits: usize = 0;
    let mut p: usize = 0;
    for &value in vs {
        let v = value & m;
        let x = acc | (v << bits);
        if bits + w < 64 {
            acc = x;
            bits += w;
        } else {
            store(x, out, p);
            // Never a shift by 64.
            acc = (v >> (63 - bits)) >> 1;
            p += 8;
            bits = bits + w - 64;
        }
    }
    put_bytes(out, p, acc, bits.div_ceil(8));
}
