// Varints in a row, for tools/bench alone: `tools/library bench` writes target/staticlib/libbench.a. The crate c_api exports a varint
// at a time, and a call into a library for each would be most of what is timed, so these loops stand inside it. They store as many as
// they can and tell how many, but not why they stopped. For all else tools/bench calls c_api.
//
// The driver passes a slice as two arguments, a pointer and a count of elements.
#![tactic(auto)]

ghost use Rattle.std.specs.Prelude.{◌≡◌, length};
ghost use Rattle.format.specs.Answers.{stored};
ghost use Rattle.bench.specs.Rows.{row_values, row_bytes};

// Reads varints in a row from the front of `bytes` to the front of `out`, until it is full or one is refused. Returns how many.
#[unsafe(no_mangle)]
pub extern "C" fn bench_read_uvarints(bytes: &[u8], out: &mut [u64]) -> usize
    ensures { (result ≡ length (row_values bytes.now 0 (length out.old)))
        × (out.new ≡ stored (row_values bytes.now 0 (length out.old)) out.old) }
{
    let mut pos: usize = 0;
    let mut i: usize = 0;
    // Tried: with `for i in 0..out.len()` a varint of one byte takes 11 instructions in place of 8, and 0.81 ns in place of 0.65.
    while i < out.len() {
        let Ok(read) = varint::read_uvarint(bytes, pos) else {
            return i;
        };
        out[i] = read.value;
        pos = read.next;
        i += 1;
    }
    i
}

// Writes the varints of `values` in a row to the front of `out`, until all are written or one does not fit. Returns how many
// bytes.
#[unsafe(no_mangle)]
pub extern "C" fn bench_write_uvarints(values: &[u64], out: &mut [u8]) -> usize
    ensures { (result ≡ length (row_bytes values.now (length out.old)))
        × (out.new ≡ stored (row_bytes values.now (length out.old)) out.old) }
{
    let mut at: usize = 0;
    for &value in values {
        let Ok(written) = varint::write_uvarint(value, &mut out[at..]) else {
            return at;
        };
        at += written;
    }
    at
}
