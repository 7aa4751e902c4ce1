// Where a chunk broke: the place that belongs to the number of its refusal, counted from the chunk's first byte.
ghost use Rattle.std.specs.Prelude.{◌≡◌, ◌+◌, ◌<◌, ◌^◌, length};
ghost use Rattle.little.specs.Fields.{bytes_of};
ghost use Rattle.sfc.specs.answer.Numbers.{number_of};
ghost use Rattle.sfc.specs.format.Spot.{agreeing, spot_at, first_other, spot_for};
ghost use Rattle.sfc.specs.inner.Spots.{SpotFits};

use crate::answer::places::BytePlace;
use crate::answer::reason::Reason;
use crate::format::chunk::{index_of, payload_length, type_for};
use crate::format::header::Head;
use crate::format::layout::*;

fn spot_at(p: usize) -> Option<BytePlace>
    requires { p < 2 ^ 32 }
    ensures { result ≡ spot_at p }
{
    Some(BytePlace(p as u32))
}

// How many of `wanted` stand from `at` on, before the first that does not.
fn count_agreeing(c: &[u8], at: usize, wanted: &[u8]) -> usize
    requires { at + length wanted.now < 2 ^ 64 }
    ensures { result ≡ agreeing c.now at wanted.now }
{
    (at..at + wanted.len())
        .zip(wanted)
        .take_while(|(place, byte)| little::byte_at(c, *place) == **byte)
        .count()
}

// The first byte from `at` on that is another than the wanted one.
fn first_other(c: &[u8], at: usize, wanted: &[u8]) -> Option<BytePlace>
    requires { at + length wanted.now < 2 ^ 32 }
    ensures { result ≡ first_other c.now at wanted.now }
{
    spot_at(at + count_agreeing(c, at, wanted))
}

// The same of a number of four bytes.
fn first_other_of(c: &[u8], at: usize, wanted: u32) -> Option<BytePlace>
    requires { at + 4 < 2 ^ 32 }
    ensures { result ≡ first_other c.now at (bytes_of 4 wanted) }
{
    first_other(c, at, &wanted.to_le_bytes())
}

// By the reason alone: a check that wants certain bytes names the first that is another, and one that wants a number within a
// range names the field.
pub(crate) fn spot_for(h: Head, c: &[u8], reason: Reason) -> Option<BytePlace>
    requires { SpotFits c.now (number_of reason) }
    ensures { result ≡ spot_for h c.now (number_of reason) }
{
    let uuid = h.uuid;
    let identifiers = [h.compression, h.erasure];
    let zeros = [0u8; CHUNK_RESERVED];
    let payload = payload_length(c) as usize;
    match reason {
        Reason::ChunkShort => spot_at(c.len()),
        Reason::ChunkMagic => first_other(c, 0, &CHUNK_MAGIC),
        Reason::PayloadLong => spot_at(CHUNK_LENGTH_AT),
        Reason::ChunkHash => spot_at(CHUNK_HEADER + payload),
        Reason::EndMarker => first_other(c, END_MARKER_AT + payload, &END_MARKER),
        Reason::OtherFile => first_other(c, CHUNK_UUID_AT, &uuid),
        Reason::IndexRange => spot_at(CHUNK_INDEX_AT),
        Reason::TypeIndex => first_other_of(c, CHUNK_TYPE_AT, type_for(h.n, index_of(c))),
        Reason::Reserved => first_other(c, CHUNK_RESERVED_AT, &zeros),
        Reason::Identifiers => first_other(c, CHUNK_COMPRESSION_AT, &identifiers),
        Reason::PayloadLength => first_other_of(c, CHUNK_LENGTH_AT, h.s),
        Reason::Conflict => spot_at(CHUNK_INDEX_AT),
        Reason::Barred => spot_at(CHUNK_INDEX_AT),
        _ => None,
    }
}
