// Reading a header: the first check that fails gives the reason, and an accepted header its fields.
ghost use Rattle.std.specs.Prelude.{◌≡◌, ◌++◌, ◌+◌, ◌≤◌, length, Ok, Err};
ghost use Rattle.sfc.specs.answer.Numbers.{verdict, checked};
ghost use Rattle.sfc.specs.format.Header.{head_of, start_checks, number_checks, list_checks, region_checks, trailer_checks, read_header};

use crate::answer::checks::refuse_if;
use crate::answer::reason::Reason;
use crate::format::extension::are_fields_wrong;
use crate::format::layout::*;
use crate::format::limits::{Shape, are_flags_barred, is_length_wrong, is_mispaired};
use crate::format::priority::is_priority_wrong;
use crate::format::text::{name_length, stands_at};

// The fields of a header region, in their order: H is header_length, P is priorities. The name has name_length bytes, and
// zeros after them: there is no heap, so a head owns its name. The identifiers are bytes of the file, which any byte may stand
// for, and so no enums.
#[derive(Clone, Copy)]
pub struct Head {
    pub header_length: u32,
    pub uuid: [u8; 16],
    pub size: u64,
    pub format: u16,
    pub name: [u8; NAME_ROOM],
    pub name_length: u8,
    pub hash: [u8; 32],
    pub n: u32,
    pub m: u32,
    pub s: u32,
    pub erasure: u8,
    pub compression: u8,
    pub flags: u16,
    pub priorities: u16,
}

// 10 to 13, and 10.
fn check_start(b: &[u8]) -> Result<(), Reason>
    ensures { result ≡ verdict (start_checks b.now) }
{
    refuse_if(b.len() < AFTER_LENGTH, Reason::HeaderShort)?;
    refuse_if(!stands_at(b, 0, &MAGIC), Reason::HeaderMagic)?;
    let major = little::read16(b, MAJOR_AT) != 0;
    let minor = little::read16(b, MINOR_AT) != 1;
    refuse_if(major | minor, Reason::Version)?;
    let h = little::read32(b, LENGTH_AT);
    refuse_if(is_length_wrong(h), Reason::HeaderLength)?;
    refuse_if(b.len() < h as usize + HEADER_OUTER, Reason::HeaderShort)
}

// 14 to 19 of a region.
fn check_numbers(r: &[u8]) -> Result<(), Reason>
    ensures { result ≡ verdict (number_checks (head_of r.now)) }
{
    let n = little::read32(r, N_AT);
    let m = little::read32(r, M_AT);
    let s = little::read32(r, S_AT);
    let erasure = little::byte_at(r, ERASURE_AT);
    let size = little::read64(r, SIZE_AT);
    let shape = Shape { size, n, m, s };
    refuse_if(shape.is_unlawful(), Reason::Unlawful)?;
    refuse_if(shape.is_above_house(), Reason::HouseLimit)?;
    refuse_if(is_mispaired(m, erasure), Reason::ErasurePairing)?;
    refuse_if(1 < erasure, Reason::ErasureUnknown)?;
    let compressed = 0 < little::byte_at(r, COMPRESSION_AT);
    refuse_if(compressed, Reason::CompressionUnknown)?;
    let barred = are_flags_barred(little::read16(r, FLAGS_AT));
    refuse_if(barred, Reason::Flags)
}

// 20 and 21 of a region.
fn check_lists(r: &[u8]) -> Result<(), Reason>
    ensures { result ≡ verdict (list_checks (head_of r.now) r.now) }
{
    let n = little::read32(r, N_AT);
    let p = little::read16(r, PRIORITIES_AT);
    refuse_if(is_priority_wrong(r, n, p), Reason::Priority)?;
    let start = HEADER_BEFORE_LISTS + 4 * p as usize;
    let blocks = n as u64 + little::read32(r, M_AT) as u64;
    let wrong = are_fields_wrong(blocks, little::read16(r, FLAGS_AT), &r[start..]);
    refuse_if(wrong, Reason::Extension)
}

// The lists, which cost up to N² and H steps, are looked at only where the numbers are within the limits.
pub(crate) fn check_region(r: &[u8]) -> Result<(), Reason>
    ensures { result ≡ verdict (region_checks r.now) }
{
    check_numbers(r)?;
    check_lists(r)
}

// 22 and 23 of a region and a trailer.
fn check_trailer(r: &[u8], t: &[u8]) -> Result<(), Reason>
    ensures { result ≡ verdict (trailer_checks r.now t.now) }
{
    let zeros = [0u8; 16];
    let other = !stands_at(t, 0, &TRAILER_MAGIC);
    let used = !stands_at(t, TRAILER_RESERVED_AT, &zeros);
    refuse_if(other | used, Reason::TrailerShape)?;
    let hash = blake3::hash(r);
    refuse_if(!stands_at(t, TRAILER_HASH_AT, &hash), Reason::TrailerHash)
}

fn head_of(r: &[u8]) -> Head
    requires { 335 ≤ length r.now }
    ensures { result ≡ head_of r.now }
{
    let mut uuid = [0u8; 16];
    uuid.copy_from_slice(&r[UUID_AT..SIZE_AT]);
    let mut hash = [0u8; 32];
    hash.copy_from_slice(&r[HASH_AT..N_AT]);
    let mut name = [0u8; NAME_ROOM];
    let length = name_length(&r[NAME_AT..HASH_AT]);
    let end = NAME_AT + length;
    name[..length].copy_from_slice(&r[NAME_AT..end]);
    Head {
        header_length: little::read32(r, 0),
        uuid,
        size: little::read64(r, SIZE_AT),
        format: little::read16(r, FORMAT_AT),
        name,
        name_length: length as u8,
        hash,
        n: little::read32(r, N_AT),
        m: little::read32(r, M_AT),
        s: little::read32(r, S_AT),
        erasure: little::byte_at(r, ERASURE_AT),
        compression: little::byte_at(r, COMPRESSION_AT),
        flags: little::read16(r, FLAGS_AT),
        priorities: little::read16(r, PRIORITIES_AT),
    }
}

fn read_region(r: &[u8], t: &[u8]) -> Result<Head, Reason>
    requires { 335 ≤ length r.now }
    ensures { result ≡ checked (region_checks r.now ++ trailer_checks r.now t.now) Err (Ok (head_of r.now)) }
{
    check_region(r)?;
    check_trailer(r, t)?;
    Ok(head_of(r))
}

// The region stands after the preamble, and the trailer at the input's end; no byte between them is read.
pub fn read_header(input: &[u8]) -> Result<Head, Reason>
    ensures { result ≡ read_header input.now }
{
    check_start(input)?;
    let end = AFTER_LENGTH + little::read32(input, LENGTH_AT) as usize;
    let trailer = input.len() - TRAILER;
    read_region(&input[REGION_AT..end], &input[trailer..])
}
