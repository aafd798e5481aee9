// Storing a chunk's header, told from where there is no room for it, as the `checked` of `places` tells it.
ghost use Rattle.std.specs.Prelude.{◌≡◌, length};
ghost use Rattle.format.specs.Encodings.{id_of};
ghost use Rattle.format.specs.Header.{header_bytes};
ghost use Rattle.places.specs.Places.{fitting, laid, laid_place};

use crate::header::header_len;
use format::Encoding;
use format::limits::CODEC_VERSION;
use places::checked::put_uvarint;

// Stores a header at the front of `out` and answers where it ends; where it does not fit, it stores nothing and answers none.
pub fn put_header(encoding: Encoding, count: usize, out: &mut [u8]) -> Option<usize>
    ensures value { result ≡ laid_place (fitting (header_bytes (id_of encoding) count) (length out.old)) 0 }
    ensures out_after { out.new ≡ laid (fitting (header_bytes (id_of encoding) count) (length out.old)) 0 out.old }
{
    if out.len() < header_len(count) {
        return None;
    }
    out[0] = encoding.id();
    out[1] = CODEC_VERSION;
    put_uvarint(count as u64, out, 2)
}
