// The last bytes of what is packed.
ghost use Rattle.std.specs.Prelude.{◌≡◌, ◌+◌, ◌≤◌, length};
ghost use Rattle.std.proofs.lemmas.List.Edits.{sets};
ghost use Rattle.format.specs.Digits.{digits};

// The t lowest bytes of x from p on. Tried: a copy from `to_le_bytes`, which is a call here, and a tenth of the time that packing 7 values
// takes.
pub(crate) fn put_bytes(out: &mut [u8], p: usize, x: u64, t: usize)
    requires { p + t ≤ length out.old }
    ensures { out.new ≡ sets out.old p (digits 256 t x) }
{
    let mut rest = x;
    for byte in &mut out[p..p + t] {
        *byte = (rest % 256) as u8;
        rest /= 256;
    }
}
