// Samples of packing. The numbers 0 to 7 at 3 bits are the example in the Parquet format's description of bit-packed runs, which
// has the same order of bits; the refusals are those that document 01 lists for packing, unpacking and the packed length alone.
use crate::text::{Answer, Hex, Input, Numbers};
use format::limits::MAX_CHUNK_ELEMENTS;
use std::io;

pub(crate) fn show(rt: &impl Print) -> io::Result<()> {
    lengths(rt)?;
    packed(rt)?;
    unpacked(rt)?;
    parts(rt)
}

fn lengths(rt: &impl Print) -> io::Result<()> {
    println!(rt; "\nPacked lengths (document 01)")?;
    for (count, width) in [
        (0, 64),
        (1, 1),
        (8, 1),
        (9, 1),
        (3, 13),
        (MAX_CHUNK_ELEMENTS, 0),
        (MAX_CHUNK_ELEMENTS, 64),
        (0, 65),
        (MAX_CHUNK_ELEMENTS + 1, 64),
        (MAX_CHUNK_ELEMENTS + 1, 65),
    ] {
        let length = Answer(bitpack::packed_len(count, width));
        println!(rt; "{count} of width {width}:{length}")?;
    }
    Ok(())
}

fn packed(rt: &impl Print) -> io::Result<()> {
    println!(rt;
        "\nValues packed into bytes ee, and all bytes then (0 to 7 of width 3: Parquet; refusals: document 01)"
    )?;
    let rising = [0, 1, 2, 3, 4, 5, 6, 7];
    pack(rt, &rising, 3, &mut [0xee; 4])?;
    pack(rt, &rising, 3, &mut [0xee; 2])?;
    pack(rt, &[9, 14], 3, &mut [0xee; 2])?;
    pack(rt, &[1, 2, 3], 0, &mut [0xee; 2])?;
    pack(rt, &[], 64, &mut [0xee; 2])?;
    pack(rt, &[1], 64, &mut [0xee; 2])?;
    pack(rt, &[8191, 4096], 13, &mut [0xee; 4])?;
    pack(rt, &[1], 65, &mut [0xee; 4])?;
    pack(rt, &[u64::MAX], 64, &mut [0xee; 9])?;
    pack(rt, &[1, u64::MAX], 33, &mut [0xee; 9])
}

fn pack(rt: &impl Print, values: &[u64], width: u32, out: &mut [u8]) -> io::Result<()> {
    let answer = Answer(bitpack::pack(values, width, out));
    println!(rt;
        "values{} of width {width}:{answer}:{}",
        Numbers(values),
        Hex(out)
    )
}

fn unpacked(rt: &impl Print) -> io::Result<()> {
    println!(rt; "\nValues unpacked into ten of 77, and all of them then (document 01)")?;
    unpack(rt, b"\x88\xc6\xfa", 3, 8)?;
    unpack(rt, b"\x88\xc6\xfa\xff", 3, 7)?;
    unpack(rt, b"\x88\xc6\xfa", 3, 9)?;
    unpack(rt, b"\xff", 3, 2)?;
    unpack(rt, b"", 0, 10)?;
    unpack(rt, b"", 0, 11)?;
    unpack(rt, b"\xff\xff\xff\xff\xff\xff\xff\xff", 64, 1)?;
    unpack(rt, b"\xff\xff\xff\xff\xff\xff\xff", 64, 1)?;
    unpack(rt, b"\x00", 64, 11)?;
    unpack(rt, b"\x00", 65, 0)?;
    unpack(rt, b"\x00", 1, MAX_CHUNK_ELEMENTS + 1)
}

fn unpack(rt: &impl Print, bytes: &[u8], width: u32, count: usize) -> io::Result<()> {
    let mut out = [77; 10];
    let answer = Answer(bitpack::unpack(bytes, width, count, &mut out));
    print!(rt; "{count} in{}, of width {width}:", Input(bytes))?;
    println!(rt; "{answer}:{}", Numbers(&out))
}

fn parts(rt: &impl Print) -> io::Result<()> {
    println!(rt;
        "\nThe same from a place of the bytes on, to a place of the ten on (document 01)"
    )?;
    unpack_part(rt, b"\x03\x03\x88\xc6\xfa\x00", 2, 3, 8, 1)?;
    unpack_part(rt, b"\x03\x03\x88\xc6\xfa\x00", 2, 3, 8, 3)?;
    unpack_part(rt, b"\x03\x03\x88\xc6", 2, 3, 8, 1)?;
    unpack_part(rt, b"\x03\x03\x88\xc6", 5, 3, 1, 1)?;
    unpack_part(rt, b"\x03\x03\x88\xc6", 5, 0, 1, 9)?;
    unpack_part(rt, b"\x03\x03\x88\xc6", 2, 3, 1, usize::MAX)
}

fn unpack_part(
    rt: &impl Print,
    bytes: &[u8],
    at: usize,
    width: u32,
    count: usize,
    from: usize,
) -> io::Result<()> {
    let mut out = [77; 10];
    let answer = Answer(bitpack::unpack_part(bytes, at, width, count, &mut out, from));
    print!(rt;
        "{count} at place {at} of{}, to place {from}, of width {width}:",
        Input(bytes)
    )?;
    println!(rt; "{answer}:{}", Numbers(&out))
}
