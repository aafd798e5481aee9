// The chunk's header: id, version, count.
ghost use Rattle.std.specs.Prelude.{◌≡◌, ◌≤◌, IfOk, length};
ghost use Rattle.format.specs.Encodings.{id_of, max_chunk_elements};
ghost use Rattle.format.specs.Answers.{outcome_of};
ghost use Rattle.format.specs.Header.{header_bytes, header_len, named, read_header};
ghost use Rattle.format.specs.Parts.{peeked};
ghost use Rattle.places.specs.Places.{fitting, laid, laid_end};

use crate::body::first_padded;
use crate::checked;
use format::limits::{CODEC_VERSION, MAX_CHUNK_ELEMENTS};
use format::{Encoding, Header, Kind, Refusal};

// How many bytes a header has.
pub fn header_len(count: usize) -> usize
    ensures { result ≡ header_len count }
{
    2 + varint::uvarint_len(count as u64)
}

// Stores a header at the front of `out` and answers where it ends; where it does not fit, nothing, and 0. That of `checked` tells the two
// apart.
pub fn put_header(encoding: Encoding, count: usize, out: &mut [u8]) -> usize
    ensures value { result ≡ laid_end (fitting (header_bytes (id_of encoding) count) (length out.old)) 0 }
    ensures out_after { out.new ≡ laid (fitting (header_bytes (id_of encoding) count) (length out.old)) 0 out.old }
{
    checked::put_header(encoding, count, out).unwrap_or(0)
}

// The encoding that a chunk's first byte says: the first questions of a reading that names none.
#[tactic(auto, unfolding(format::specs::Parts::peeked, format::specs::Header::read_id, format::specs::Parts::encoding_named))]
pub fn peek_encoding(chunk: &[u8]) -> Result<Encoding, Refusal>
    ensures { outcome_of result ≡ peeked chunk.now }
{
    let Some(&id) = chunk.first() else {
        return Err(Kind::UnknownId.at(0));
    };
    if !(1..=9).contains(&id) {
        return Err(Kind::UnknownId.at(0));
    }
    let encoding = Encoding::try_from(u32::from(id))?;
    if chunk.len() < 2 {
        return Err(Kind::NoHeader.at(0));
    }
    Ok(encoding)
}

// Reads the header of a chunk by a reading that names its encoding. The name may be no encoding's number, which is a question of its own:
// an `Encoding` in its place would ask more of a caller.
#[tactic(auto, unfolding(format::specs::Header::read_header, format::specs::Header::read_id, format::specs::Parts::encoding_named))]
pub fn read_header(chunk: &[u8], name: u32) -> Result<Header, Refusal>
    ensures told { outcome_of result ≡ read_header (named name) chunk.now }
    ensures found { IfOk result (λ h. (h.count ≤ max_chunk_elements) × (h.start ≤ length chunk.now)) }
{
    Encoding::try_from(name)?;
    if chunk.len() < 2 {
        return Err(Kind::NoHeader.at(0));
    }
    let id = chunk[0];
    if !(1..=9).contains(&id) {
        return Err(Kind::UnknownId.at(0));
    }
    if u32::from(id) != name {
        return Err(Kind::OtherEncoding.at(0));
    }
    if chunk[1] != CODEC_VERSION {
        return Err(Kind::UnknownVersion.at(1));
    }
    let count = varint::read_uvarint(chunk, 2)?;
    if count.value > MAX_CHUNK_ELEMENTS as u64 {
        return Err(Kind::CountAboveLimit.at(2));
    }
    Ok(Header {
        id,
        count: count.value as usize,
        start: count.next,
        padded: first_padded(None, 2, count.unpadded),
    })
}
