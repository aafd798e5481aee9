// Numbers: ZigZag, widths, and how long a varint is. Each export, here and in the other files, has a name of the header's, so that those
// which differ in a name alone stay as many.
ghost use Rattle.std.specs.Prelude.{◌≡◌};
ghost use Rattle.format.specs.Keys.{zigzag, unzigzag};
ghost use Rattle.format.specs.Varint.{uvarint_len, varint_len};
ghost use Rattle.format.specs.Width.{width};

#[unsafe(no_mangle)]
pub extern "C" fn wb_zigzag_encode(value: i64) -> u64
    ensures { result ≡ zigzag value }
{
    number::zigzag_encode(value)
}

#[unsafe(no_mangle)]
pub extern "C" fn wb_zigzag_decode(value: u64) -> i64
    ensures { result ≡ unzigzag value }
{
    number::zigzag_decode(value)
}

#[unsafe(no_mangle)]
pub extern "C" fn wb_required_width(max: u64) -> u32
    ensures { result ≡ width max }
{
    number::required_width(max)
}

#[unsafe(no_mangle)]
pub extern "C" fn wb_uvarint_len(value: u64) -> usize
    ensures { result ≡ uvarint_len value }
{
    varint::uvarint_len(value)
}

#[unsafe(no_mangle)]
pub extern "C" fn wb_varint_len(value: i64) -> usize
    ensures { result ≡ varint_len value }
{
    varint::varint_len(value)
}
