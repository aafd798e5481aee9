// Words of eight bytes in a slice, the lowest byte first: parts of the library's own loops, which ask once for all the bytes that
// they go over, and so ask here by `requires`. The compiler makes one load or store of each.
ghost use Rattle.std.specs.Prelude.{◌≡◌, ◌+◌, ◌≤◌, length, get_or, take, drop};
ghost use Rattle.std.proofs.lemmas.List.Edits.{sets};
ghost use Rattle.format.specs.Digits.{of_digits, digits};

// The word at a place.
pub fn load(bytes: &[u8], at: usize) -> u64
    requires { at + 8 ≤ length bytes.now }
    ensures { result ≡ of_digits 256 (take 8 (drop at bytes.now)) }
{
    u64::from_le_bytes(*bytes[at..at + 8].as_array().unwrap())
}

// The byte at a place, and 0 past the end.
pub fn byte_at(bytes: &[u8], at: usize) -> u8
    ensures { result ≡ get_or bytes.now at 0 }
{
    bytes.get(at).copied().unwrap_or(0)
}

// The word at any place: bytes past the end count 0. Whether eight are there is asked of the place; tried: of what is behind it, which took
// 5 instructions more a value. Fewer than eight are taken one by one; tried: a copy of them, which is a call, and up to 1.7 times as long.
pub fn load_padded(bytes: &[u8], at: usize) -> u64
    ensures { result ≡ of_digits 256 (take 8 (drop at bytes.now)) }
{
    if at < bytes.len().saturating_sub(7) {
        return load(bytes, at);
    }
    let rest = &bytes[at.min(bytes.len())..];
    u64::from_le_bytes([
        byte_at(rest, 0),
        byte_at(rest, 1),
        byte_at(rest, 2),
        byte_at(rest, 3),
        byte_at(rest, 4),
        byte_at(rest, 5),
        byte_at(rest, 6),
        0,
    ])
}

// Stores a word at a place.
pub fn store(word: u64, out: &mut [u8], at: usize)
    requires { at + 8 ≤ length out.old }
    ensures { out.new ≡ sets out.old at (digits 256 8 word) }
{
    out[at..at + 8].copy_from_slice(&word.to_le_bytes());
}
