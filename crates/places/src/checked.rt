// Storing parts of a chunk at their places.
// Each call that stores answers the place after what it stored; where that does not fit, it stores nothing and answers none.
//
// The output and a place in it are two parameters here and in the codecs. Tried: a struct of both. Lent, it is kept in memory where a loop is
// not inlined: keys of one byte took 16 instructions in place of 14, and 1.8 times as long. Handed back by value it costs nothing, but
// no proof of a caller closed, which is not told what the output holds at the end.
ghost use Rattle.std.specs.Prelude.{◌≡◌, ◌-◌, length};
ghost use Rattle.format.specs.Keys.{key_bytes, zigzag};
ghost use Rattle.format.specs.Standalone.{pack_outcome, uvarint_write_outcome};
ghost use Rattle.places.specs.Places.{fitting, laid, laid_place};

use number::words::store;

// A varint of any length.
fn put_long(value: u64, out: &mut [u8], at: usize) -> Option<usize>
    ensures value { result ≡ laid_place (uvarint_write_outcome value (length out.old - at)) at }
    ensures out_after { out.new ≡ laid (uvarint_write_outcome value (length out.old - at)) at out.old }
{
    if out.len() < at {
        return None;
    }
    let n = varint::write_uvarint(value, &mut out[at..]).ok()?;
    Some(at + n)
}

// A varint. One of one or two bytes, as most are, needs no call.
pub fn put_uvarint(value: u64, out: &mut [u8], at: usize) -> Option<usize>
    ensures value { result ≡ laid_place (uvarint_write_outcome value (length out.old - at)) at }
    ensures out_after { out.new ≡ laid (uvarint_write_outcome value (length out.old - at)) at out.old }
{
    if out.len() <= at {
        return None;
    }
    if value < 128 {
        out[at] = value as u8;
        return Some(at + 1);
    }
    if value >= 16384 {
        return put_long(value, out, at);
    }
    if out.len() - at < 2 {
        return None;
    }
    out[at] = (value % 128) as u8 + 128;
    out[at + 1] = (value / 128) as u8;
    Some(at + 2)
}

// A signed varint.
pub fn put_varint(value: i64, out: &mut [u8], at: usize) -> Option<usize>
    ensures value { result ≡ laid_place (uvarint_write_outcome (zigzag value) (length out.old - at)) at }
    ensures out_after { out.new ≡ laid (uvarint_write_outcome (zigzag value) (length out.old - at)) at out.old }
{
    put_uvarint(number::zigzag_encode(value), out, at)
}

// A packed block.
pub fn put_packed(values: &[u64], width: u32, out: &mut [u8], at: usize) -> Option<usize>
    ensures value { result ≡ laid_place (pack_outcome values.now width (length out.old - at)) at }
    ensures out_after { out.new ≡ laid (pack_outcome values.now width (length out.old - at)) at out.old }
{
    let front = at.min(out.len());
    let n = bitpack::pack(values, width, &mut out[front..]).ok()?;
    Some(at + n)
}

// The eight bytes of a key.
pub fn put_key(value: i64, out: &mut [u8], at: usize) -> Option<usize>
    ensures value { result ≡ laid_place (fitting (key_bytes value) (length out.old - at)) at }
    ensures out_after { out.new ≡ laid (fitting (key_bytes value) (length out.old - at)) at out.old }
{
    if out.len() < at || out.len() - at < 8 {
        return None;
    }
    store(number::bits_of(value), out, at);
    Some(at + 8)
}
