// Packing alone: values at a fixed width of bits.
ghost use Rattle.std.specs.Prelude.{◌≡◌, length};
ghost use Rattle.format.specs.Standalone.{packed_len_answer, pack_answer, pack_output, unpack_answer, unpack_buffer};
ghost use Rattle.c_api.specs.Told.{told};

use crate::tell;

// How many bytes so many values are packed in.
#[unsafe(no_mangle)]
pub extern "C" fn wb_packed_len(count: usize, width: u32, place: &mut usize) -> u32
    ensures { (result, place.new) ≡ told (packed_len_answer count width) }
{
    tell(bitpack::packed_len(count, width), place)
}

// Packs values to the front of `out`.
#[unsafe(no_mangle)]
pub extern "C" fn wb_pack(values: &[u64], width: u32, out: &mut [u8], place: &mut usize) -> u32
    ensures place_after { (result, place.new) ≡ told (pack_answer values.now width (length out.old)) }
    ensures out_after { out.new ≡ pack_output values.now width out.old }
{
    tell(bitpack::pack(values, width, out), place)
}

// Unpacks values to the front of `out`.
#[unsafe(no_mangle)]
pub extern "C" fn wb_unpack(
    bytes: &[u8],
    width: u32,
    count: usize,
    out: &mut [u64],
    place: &mut usize,
) -> u32
    ensures place_after { (result, place.new) ≡ told (unpack_answer bytes.now width count (length out.old)) }
    ensures out_after { out.new ≡ unpack_buffer bytes.now width count out.old }
{
    tell(bitpack::unpack(bytes, width, count, out), place)
}
