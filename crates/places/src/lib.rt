// Parts of a chunk at their places: storing here and in `checked`, reading a key in `load`; and packed bodies, in `block` how they are cut into
// blocks, in `packed` and `unpacked` how they are written and read.
// Each call that stores answers the place after what it stored; where that does not fit, it stores nothing and answers the place
// that it was given. Those of `checked` tell the two apart.
#![tactic(auto)]

ghost use Rattle.std.specs.Prelude.{◌≡◌, ◌-◌, length};
ghost use Rattle.format.specs.Keys.{key_bytes, zigzag};
ghost use Rattle.format.specs.Standalone.{pack_outcome, uvarint_write_outcome};
ghost use Rattle.places.specs.Places.{fitting, laid, laid_end};

pub mod block;
pub mod checked;
pub mod load;
pub mod packed;
pub mod unpacked;

// A varint.
pub fn put_uvarint(value: u64, out: &mut [u8], at: usize) -> usize
    ensures value { result ≡ laid_end (uvarint_write_outcome value (length out.old - at)) at }
    ensures out_after { out.new ≡ laid (uvarint_write_outcome value (length out.old - at)) at out.old }
{
    checked::put_uvarint(value, out, at).unwrap_or(at)
}

// A signed varint.
pub fn put_varint(value: i64, out: &mut [u8], at: usize) -> usize
    ensures value { result ≡ laid_end (uvarint_write_outcome (zigzag value) (length out.old - at)) at }
    ensures out_after { out.new ≡ laid (uvarint_write_outcome (zigzag value) (length out.old - at)) at out.old }
{
    checked::put_varint(value, out, at).unwrap_or(at)
}

// A packed block.
pub fn put_packed(values: &[u64], width: u32, out: &mut [u8], at: usize) -> usize
    ensures value { result ≡ laid_end (pack_outcome values.now width (length out.old - at)) at }
    ensures out_after { out.new ≡ laid (pack_outcome values.now width (length out.old - at)) at out.old }
{
    checked::put_packed(values, width, out, at).unwrap_or(at)
}

// The eight bytes of a key.
pub fn put_key(value: i64, out: &mut [u8], at: usize) -> usize
    ensures value { result ≡ laid_end (fitting (key_bytes value) (length out.old - at)) at }
    ensures out_after { out.new ≡ laid (fitting (key_bytes value) (length out.old - at)) at out.old }
{
    checked::put_key(value, out, at).unwrap_or(at)
}
