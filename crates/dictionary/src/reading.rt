// The questions of a Dictionary body. Every code is checked before a value is stored.
ghost use Rattle.std.specs.Prelude.{◌≡◌};
ghost use Rattle.format.specs.Answers.{outcome_of};
ghost use Rattle.format.specs.Dictionary.{validate_dictionary, all_below};
ghost use Rattle.places.specs.Blocks.{to_come};
ghost use Rattle.dictionary.specs.Reading.{settled_codes};

use codec::body::{settle_packed, settle_uvarints, with_varint};
use codec::chunk::Body;
use format::{Extent, Kind, Refusal};
use places::block::{BLOCK, Blocks};

// Is every code of a block below the number of entries?
fn block_below(codes: &[u64], entries: u64) -> bool
    ensures { result ≡ all_below entries codes.now }
{
    codes.iter().all(|&code| code < entries)
}

// The same of all codes.
fn codes_below(codes: Blocks<'_>, entries: u64) -> bool
    ensures { result ≡ all_below entries (to_come codes.entry) }
{
    let mut codes = codes;
    let mut block = [0u64; BLOCK];
    while let Some(n) = codes.next(&mut block) {
        if !block_below(&block[..n], entries) {
            return false;
        }
    }
    true
}

// The width byte, the packed codes, and then the codes themselves, after the entries' varints.
#[tactic(auto, using(crate::proofs::Questions::codes_there), unfolding(crate::specs::Reading::settled_codes))]
fn settle_codes(chunk: &[u8], gaps: Extent, count: usize, entries: u64) -> Result<Extent, Refusal>
    ensures { outcome_of result ≡ settled_codes chunk.now gaps.end count entries gaps.padded }
{
    let body = settle_packed(chunk, gaps, count)?;
    if !codes_below(Blocks::new(chunk, gaps.end, count), entries) {
        return Err(Kind::CodeAboveEntries.at(gaps.end));
    }
    Ok(body)
}

// The whole body: the total, the entries' varints, the codes.
#[tactic(auto, using(crate::proofs::Questions::codes_last), unfolding(format::specs::Dictionary::validate_dictionary))]
pub(crate) fn settle_body(body: Body<'_>) -> Result<Extent, Refusal>
    ensures { let h = body.entry.header in outcome_of result ≡ validate_dictionary body.entry.chunk.now h.start h.count h.padded }
{
    let Body { chunk, header } = body;
    let total = varint::read_uvarint(chunk, header.start)?;
    if total.value > (chunk.len() - total.next) as u64 {
        return Err(Kind::EntriesAboveBytes.at(total.next));
    }
    let before = with_varint(body.before(), total);
    let gaps = settle_uvarints(chunk, before, total.value as usize)?;
    settle_codes(chunk, gaps, header.count, total.value)
}
