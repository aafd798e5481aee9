// Samples of varints. 150, 300 and the ten bytes of -2 are in Protocol Buffers' encoding document; the numbers from 14882 to
// 11964378330978735131, the cut inputs and the eleven bytes of 80 and 01 are in its test coded_stream_unittest; ff nine times
// before 03, and ff ten and eleven times, are in document 01's sample sheet.
use crate::text::{Answer, Hex, Input, Refused};
use format::{Read, Refusal};
use std::{fmt, io};

// A number of either kind of varint: unsigned, or signed by its ZigZag.
trait Sample: Copy + fmt::Display {
    fn len(self) -> usize;

    fn write(self, out: &mut [u8]) -> Result<usize, Refusal>;

    fn read(bytes: &[u8], at: usize) -> Result<Read<Self>, Refusal>;
}

impl Sample for u64 {
    fn len(self) -> usize {
        varint::uvarint_len(self)
    }

    fn write(self, out: &mut [u8]) -> Result<usize, Refusal> {
        varint::write_uvarint(self, out)
    }

    fn read(bytes: &[u8], at: usize) -> Result<Read<u64>, Refusal> {
        varint::read_uvarint(bytes, at)
    }
}

impl Sample for i64 {
    fn len(self) -> usize {
        varint::varint_len(self)
    }

    fn write(self, out: &mut [u8]) -> Result<usize, Refusal> {
        varint::write_varint(self, out)
    }

    fn read(bytes: &[u8], at: usize) -> Result<Read<i64>, Refusal> {
        varint::read_varint(bytes, at)
    }
}

pub(crate) fn show(rt: &impl Print) -> io::Result<()> {
    written(rt)?;
    written_short(rt)?;
    read(rt)?;
    refused(rt)
}

fn written(rt: &impl Print) -> io::Result<()> {
    println!(rt; "\nVarints: length, and the bytes written (Protocol Buffers; document 01)")?;
    for number in [
        0,
        1,
        127,
        128,
        150,
        300,
        14882,
        2961488830,
        7256456126,
        41256202580718336,
        11964378330978735131,
        18446744073709551614,
        u64::MAX,
    ] {
        write(rt, number)?;
    }
    println!(rt; "\nSigned varints: length, and the bytes written (Protocol Buffers' sint64)")?;
    for key in [0, -1, 1, -64, 64, i64::MAX, i64::MIN] {
        write(rt, key)?;
    }
    Ok(())
}

fn write<T: Sample>(rt: &impl Print, number: T) -> io::Result<()> {
    let mut out = [0; 10];
    print!(rt; "{number}: {}:", number.len())?;
    match number.write(&mut out) {
        Ok(count) => println!(rt; "{}", Hex(out.get(..count).unwrap_or(&out))),
        Err(refusal) => println!(rt; "{}", Refused(refusal)),
    }
}

// Writing into two bytes, which are too few for 16384 and more.
fn written_short(rt: &impl Print) -> io::Result<()> {
    println!(rt; "\nVarints written into two bytes ee, and both then (document 01)")?;
    for number in [127, 16383, 16384, u64::MAX] {
        let mut out = [0xee; 2];
        let answer = Answer(varint::write_uvarint(number, &mut out));
        println!(rt; "{number}:{answer}:{}", Hex(&out))?;
    }
    Ok(())
}

fn read(rt: &impl Print) -> io::Result<()> {
    println!(rt; "\nVarints read (Protocol Buffers; document 01; fe ff .. 01 is -2 as an int64)")?;
    read_at::<u64>(rt, b"\x00", 0)?;
    read_at::<u64>(rt, b"\x96\x01", 0)?;
    read_at::<u64>(rt, b"\xac\x02", 0)?;
    read_at::<u64>(rt, b"\xac\x02", 1)?;
    read_at::<u64>(rt, b"\xa2\x74", 0)?;
    read_at::<u64>(rt, b"\xbe\xf7\x92\x84\x0b", 0)?;
    read_at::<u64>(rt, b"\x80\xe6\xeb\x9c\xc3\xc9\xa4\x49", 0)?;
    read_at::<u64>(rt, b"\x9b\xa8\xf9\xc2\xbb\xd6\x80\x85\xa6\x01", 0)?;
    read_at::<u64>(rt, b"\xfe\xff\xff\xff\xff\xff\xff\xff\xff\x01", 0)?;
    read_at::<u64>(rt, b"\xff\xff\xff\xff\xff\xff\xff\xff\xff\x03", 0)?;
    read_at::<u64>(rt, b"\xff\xff\xff\xff\xff\xff\xff\xff\xff\x7e", 0)?;
    read_at::<u64>(rt, b"\xac\x82\x00\x07", 0)?;
    read_at::<u64>(rt, b"\x80\x80\x80\x80\x80\x80\x80\x80\x80\x00", 0)?;
    println!(rt; "\nSigned varints read (Protocol Buffers' sint64)")?;
    read_at::<i64>(rt, b"\x00", 0)?;
    read_at::<i64>(rt, b"\x01", 0)?;
    read_at::<i64>(rt, b"\x02", 0)?;
    read_at::<i64>(rt, b"\xac\x02", 0)?;
    read_at::<i64>(rt, b"\xff\xff\xff\xff\xff\xff\xff\xff\xff\x01", 0)?;
    read_at::<i64>(rt, b"\xfe\xff\xff\xff\xff\xff\xff\xff\xff\x01", 0)?;
    read_at::<i64>(rt, b"\x81\x80", 0)?;
    read_at::<i64>(rt, b"\x81\x80\x00", 0)
}

fn refused(rt: &impl Print) -> io::Result<()> {
    println!(rt; "\nVarints refused (document 01; Protocol Buffers' tests refuse the same)")?;
    read_at::<u64>(rt, b"", 0)?;
    read_at::<u64>(rt, b"\xf0\xab", 0)?;
    read_at::<u64>(rt, b"\xf0\xab\xc9\x9a\xf8\xb2", 0)?;
    read_at::<u64>(rt, b"\xff\xff\xff\xff\xff\xff\xff\xff\xff\xff", 0)?;
    read_at::<u64>(rt, b"\xff\xff\xff\xff\xff\xff\xff\xff\xff\xff\xff", 0)?;
    read_at::<u64>(rt, b"\x80\x80\x80\x80\x80\x80\x80\x80\x80\x80\x01", 0)?;
    read_at::<u64>(rt, b"\x05\x80\x80\x80\x80\x80\x80\x80\x80\x80\x80\x01", 1)?;
    read_at::<u64>(rt, b"\xac\x02", 2)?;
    read_at::<u64>(rt, b"\xac\x02", usize::MAX)
}

fn read_at<T: Sample>(rt: &impl Print, bytes: &[u8], at: usize) -> io::Result<()> {
    print!(rt; "place {at} of{}:", Input(bytes))?;
    match T::read(bytes, at) {
        Ok(read) => {
            let padded = if read.unpadded { "" } else { ", padded" };
            println!(rt; " {}, next {}{padded}", read.value, read.next)
        }
        Err(refusal) => println!(rt; "{}", Refused(refusal)),
    }
}
