// The check of a chunk by itself, against the header and before the session; and how long the chunk at the front of some bytes
// is.
ghost use Rattle.std.specs.Prelude.{◌≡◌, ◌+◌, ◌≤◌, length};
ghost use Rattle.sfc.specs.answer.Numbers.{verdict};
ghost use Rattle.sfc.specs.format.Chunk.{index_of, payload_length, type_for, length_checks, seal_checks, head_checks, chunk_checks, measure_chunk};
ghost use Rattle.sfc.specs.format.Spot.{check_chunk};

use crate::answer::checks::refuse_if;
use crate::answer::places::{BlockNumber, BytePlace};
use crate::answer::reason::Reason;
use crate::format::header::Head;
use crate::format::layout::*;
use crate::format::spot::spot_for;
use crate::format::text::stands_at;

// Where the payload begins, as an answer says it.
const PAYLOAD_AT: u32 = CHUNK_HEADER as u32;

// The types of a chunk: numbers of the file, which any bytes may stand for, and so no enum.
const DATA: u32 = 1;

const RECOVERY: u32 = 2;

// A whole chunk: its index, and the place in it where the payload begins.
#[derive(Clone, Copy, PartialEq, Eq, Debug)]
pub struct WholeChunk {
    pub index: BlockNumber,
    pub payload_at: BytePlace,
}

// A refused one: why, and where it broke, if its reason has a place.
#[derive(Clone, Copy, PartialEq, Eq, Debug)]
pub struct BrokenChunk {
    pub reason: Reason,
    pub spot: Option<BytePlace>,
}

// This field and the next by their names: one line each.
pub(crate) fn index_of(c: &[u8]) -> u32
    ensures { result ≡ index_of c.now }
{
    little::read32(c, CHUNK_INDEX_AT)
}

pub(crate) fn payload_length(c: &[u8]) -> u32
    ensures { result ≡ payload_length c.now }
{
    little::read32(c, CHUNK_LENGTH_AT)
}

pub(crate) fn type_for(n: u32, index: u32) -> u32
    ensures { result ≡ type_for n index }
{
    if index < n { DATA } else { RECOVERY }
}

// 30, 31, 32, 30: what must hold before the rest can be looked at.
fn check_length(s: u32, c: &[u8]) -> Result<(), Reason>
    ensures { result ≡ verdict (length_checks s c.now) }
{
    let payload = payload_length(c);
    refuse_if(c.len() < CHUNK_HEADER, Reason::ChunkShort)?;
    refuse_if(!stands_at(c, 0, &CHUNK_MAGIC), Reason::ChunkMagic)?;
    refuse_if((2 * (s as u64)) < (payload as u64), Reason::PayloadLong)?;
    refuse_if(c.len() < CHUNK_OUTER + payload as usize, Reason::ChunkShort)
}

// How far the next chunk is to be looked for; 30, 31 and 32 say that none is to be found.
pub fn measure_chunk(h: Head, b: &[u8]) -> Result<usize, Reason>
    ensures { result ≡ measure_chunk h b.now }
{
    refuse_if(h.is_shape_wrong(), Reason::Lent)?;
    check_length(h.s, b)?;
    Ok(CHUNK_OUTER + payload_length(b) as usize)
}

// 33 and 34.
fn check_seal(c: &[u8]) -> Result<(), Reason>
    requires { 84 + payload_length c.now ≤ length c.now }
    ensures { result ≡ verdict (seal_checks c.now) }
{
    let payload = payload_length(c) as usize;
    let end = CHUNK_HEADER + payload;
    let hash = blake3::hash(&c[..end]);
    refuse_if(!stands_at(c, end, &hash), Reason::ChunkHash)?;
    let ended = stands_at(c, END_MARKER_AT + payload, &END_MARKER);
    refuse_if(!ended, Reason::EndMarker)
}

// 35 to 40.
fn check_against_head(h: Head, c: &[u8]) -> Result<(), Reason>
    ensures { result ≡ verdict (head_checks h c.now) }
{
    let uuid = h.uuid;
    refuse_if(!stands_at(c, CHUNK_UUID_AT, &uuid), Reason::OtherFile)?;
    let index = index_of(c);
    refuse_if(h.n as u64 + h.m as u64 <= index as u64, Reason::IndexRange)?;
    let kind = little::read32(c, CHUNK_TYPE_AT);
    refuse_if(kind != type_for(h.n, index), Reason::TypeIndex)?;
    let zeros = [0u8; CHUNK_RESERVED];
    refuse_if(!stands_at(c, CHUNK_RESERVED_AT, &zeros), Reason::Reserved)?;
    let compression = little::byte_at(c, CHUNK_COMPRESSION_AT) != h.compression;
    let erasure = little::byte_at(c, CHUNK_ERASURE_AT) != h.erasure;
    refuse_if(compression | erasure, Reason::Identifiers)?;
    refuse_if(payload_length(c) != h.s, Reason::PayloadLength)
}

// The checks in order; a hash is computed only of a chunk that is all there.
pub(crate) fn check_all(h: Head, c: &[u8]) -> Result<(), Reason>
    ensures { result ≡ verdict (chunk_checks h c.now) }
{
    check_length(h.s, c)?;
    check_seal(c)?;
    check_against_head(h, c)
}

// What follows a whole chunk is not looked at. A head of zeros has N = 0, and is refused by 71. It matches on what the checks
// came to, and has no `map_err`: a place is found only for a reason that this very chunk was refused for, which a closure is not
// told.
pub fn check_chunk(h: Head, c: &[u8]) -> Result<WholeChunk, BrokenChunk>
    ensures { result ≡ check_chunk h c.now }
{
    if h.is_shape_wrong() {
        return Err(BrokenChunk {
            reason: Reason::Lent,
            spot: None,
        });
    }
    let verdict = check_all(h, c);
    match verdict {
        Err(reason) => Err(BrokenChunk {
            reason,
            spot: spot_for(h, c, reason),
        }),
        Ok(()) => Ok(WholeChunk {
            index: BlockNumber(index_of(c)),
            payload_at: BytePlace(PAYLOAD_AT),
        }),
    }
}
