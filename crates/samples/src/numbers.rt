// Samples of ZigZag, widths, and sums and differences that wrap. The ZigZags are those of document 01's sample sheet, of the
// table in Protocol Buffers' encoding document, and of its test wire_format_unittest.
use std::io;

pub(crate) fn show(rt: &impl Print) -> io::Result<()> {
    zigzags(rt)?;
    widths(rt)?;
    sums(rt)
}

fn zigzags(rt: &impl Print) -> io::Result<()> {
    println!(rt; "ZigZag and back (Protocol Buffers; document 01)")?;
    let keys = [
        0,
        -1,
        1,
        -2,
        1073741823,
        -1073741824,
        2147483647,
        -2147483648,
        14927,
        -3612,
        856912304801416,
        -75123905439571256,
        i64::MAX,
        i64::MIN,
    ];
    for key in keys {
        let zigzag = number::zigzag_encode(key);
        println!(rt; "{key} is {zigzag} is {}", number::zigzag_decode(zigzag))?;
    }
    Ok(())
}

fn widths(rt: &impl Print) -> io::Result<()> {
    println!(rt; "\nWidths (document 01)")?;
    for greatest in [0, 1, 2, 255, 256, u64::MAX >> 1, u64::MAX] {
        println!(rt; "{greatest}: {}", number::required_width(greatest))?;
    }
    Ok(())
}

fn sums(rt: &impl Print) -> io::Result<()> {
    println!(rt; "\nSums and differences modulo 2^64, read as signed (document 01)")?;
    for (a, b) in [(2, 3), (i64::MAX, 1), (i64::MIN, -1)] {
        println!(rt; "{a} + {b} = {}", number::wrapping_add(a, b))?;
    }
    for (a, b) in [
        (2, 3),
        (i64::MAX, i64::MIN),
        (i64::MIN, i64::MAX),
        (0, i64::MIN),
    ] {
        println!(rt; "{a} - {b} = {}", number::wrapping_sub(a, b))?;
    }
    Ok(())
}
