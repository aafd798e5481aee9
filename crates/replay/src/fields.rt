// A file's records, and their fields, which are little-endian. What lies past a record's end reads as 0, so each kind compares the
// record's length too. All of a record is asked, also where a part does not hold: what does is counted.
ghost use Rattle.std.specs.Prelude.{◌<◌, length, IfSome};

use format::Refusal;

const END: &[u8] = b"#end\n";

// What stands after the header, whose last line is `#end`: nothing, if there is no such line.
pub(crate) fn after_header(file: &[u8]) -> &[u8] {
    let end = file.windows(END.len()).position(|line| line == END);
    end.and_then(|end| file.get(end + END.len()..))
        .unwrap_or(&[])
}

// The first record's kind and its fields, and the records after it.
pub(crate) fn first_record(file: &[u8]) -> Option<(u8, &[u8], &[u8])>
    ensures { IfSome result (λ first. length first.2.now < length file.now) }
{
    let (kind, rest) = file.split_first()?;
    let (length, rest) = rest.split_first_chunk()?;
    let length = usize::try_from(u32::from_le_bytes(*length)).ok()?;
    let (fields, others) = rest.split_at_checked(length)?;
    Some((*kind, fields, others))
}

// The byte i places after `at`.
pub(crate) fn byte_at(record: &[u8], at: usize, i: usize) -> u8 {
    let rest = record.get(at..).unwrap_or(&[]);
    rest.get(i).copied().unwrap_or(0)
}

// The place n bytes after `at`. A damaged record may tell of any.
pub(crate) fn after(at: usize, n: usize) -> usize {
    at.wrapping_add(n)
}

pub(crate) fn u8_at(record: &[u8], at: usize) -> u8 {
    byte_at(record, at, 0)
}

pub(crate) fn u16_at(record: &[u8], at: usize) -> u16 {
    u16::from_le_bytes([byte_at(record, at, 0), byte_at(record, at, 1)])
}

pub(crate) fn u32_at(record: &[u8], at: usize) -> u32 {
    u32::from(u16_at(record, at)) | u32::from(u16_at(record, after(at, 2))) << 16
}

pub(crate) fn u64_at(record: &[u8], at: usize) -> u64 {
    u64::from(u32_at(record, at)) | u64::from(u32_at(record, after(at, 4))) << 32
}

// The same as a size, which is a number of 32 bits in a record.
pub(crate) fn size_at(record: &[u8], at: usize) -> usize
    ensures { result < 4294967296 }
{
    u32_at(record, at) as usize
}

// Is the answer accepted with this count, where the number is 0, or refused with this number and this offset?
pub(crate) fn answer_is(
    answer: Result<usize, Refusal>,
    number: u32,
    offset: u64,
    count: usize,
) -> bool {
    match answer {
        Ok(found) => number == 0 && found == count,
        Err(
            Refusal {
                kind,
                offset: place,
            },
        ) => { number != 0 && kind.number() == number && place as u64 == offset }
    }
}

// Is it accepted with this count?
pub(crate) fn accepted(answer: Result<usize, Refusal>, count: usize) -> bool {
    answer_is(answer, 0, 0, count)
}

// Has the number these 64 bits? What is not a number has none that could be asked.
pub(crate) fn has_bits(x: f64, bits: u64) -> bool {
    !x.is_nan() && x.to_bits() == bits
}
