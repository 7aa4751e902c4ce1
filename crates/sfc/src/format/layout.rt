// The container's places and lengths in bytes, and the house's limits, each said once.

// A UUID, a hash, and the room for a name, which zeros fill up.
pub(crate) const UUID_ROOM: usize = 16;

pub(crate) const HASH_ROOM: usize = 32;

pub(crate) const NAME_ROOM: usize = 255;

// The file begins with magic and version; the header region comes after them, and begins with H.
pub(crate) const PREAMBLE: usize = 8;

pub(crate) const MAGIC: [u8; 4] = *b"SFC\0";

pub(crate) const MAJOR_AT: usize = 4;

pub(crate) const MINOR_AT: usize = 6;

pub(crate) const LENGTH_AT: usize = PREAMBLE;

pub(crate) const REGION_AT: usize = PREAMBLE;

// H's own bytes, which it does not count.
pub(crate) const LENGTH_FIELD: usize = 4;

pub(crate) const AFTER_LENGTH: usize = LENGTH_AT + LENGTH_FIELD;

// Places in the header region, H's own bytes counted.
pub(crate) const UUID_AT: usize = LENGTH_FIELD;

pub(crate) const SIZE_AT: usize = 20;

pub(crate) const FORMAT_AT: usize = 28;

pub(crate) const NAME_AT: usize = 30;

pub(crate) const HASH_AT: usize = 285;

pub(crate) const N_AT: usize = 317;

pub(crate) const M_AT: usize = 321;

pub(crate) const S_AT: usize = 325;

pub(crate) const ERASURE_AT: usize = 329;

pub(crate) const COMPRESSION_AT: usize = 330;

pub(crate) const FLAGS_AT: usize = 331;

pub(crate) const PRIORITIES_AT: usize = 333;

// Bytes of a region before its priority list.
pub(crate) const HEADER_BEFORE_LISTS: usize = 335;

// H with empty lists, and at most.
pub(crate) const LEAST_H: u32 = 331;

pub(crate) const MOST_H: u32 = 65536;

// The trailer, and places in it.
pub(crate) const TRAILER: usize = 64;

pub(crate) const TRAILER_HASH_AT: usize = 8;

pub(crate) const TRAILER_TIME_AT: usize = 40;

pub(crate) const TRAILER_RESERVED_AT: usize = 48;

pub(crate) const TRAILER_MAGIC: [u8; 8] = *b"TRLR\0\0\0\0";

// What a file has beside the bytes that H counts, and beside its chunks.
pub(crate) const HEADER_OUTER: usize = AFTER_LENGTH + TRAILER;

// A chunk is header, payload and trailer: all of it but the payload is outer.
pub(crate) const CHUNK_HEADER: usize = 48;

pub(crate) const CHUNK_TRAILER: usize = 36;

pub(crate) const CHUNK_OUTER: usize = CHUNK_HEADER + CHUNK_TRAILER;

// Where the end marker stands, in a chunk without payload.
pub(crate) const END_MARKER_AT: usize = CHUNK_OUTER - 4;

// Places in a chunk's header.
pub(crate) const CHUNK_UUID_AT: usize = 4;

pub(crate) const CHUNK_INDEX_AT: usize = 20;

pub(crate) const CHUNK_TYPE_AT: usize = 24;

pub(crate) const CHUNK_LENGTH_AT: usize = 28;

pub(crate) const CHUNK_COMPRESSION_AT: usize = 32;

pub(crate) const CHUNK_ERASURE_AT: usize = 33;

pub(crate) const CHUNK_RESERVED_AT: usize = 34;

pub(crate) const CHUNK_RESERVED: usize = 14;

pub(crate) const CHUNK_MAGIC: [u8; 4] = *b"CHK\0";

pub(crate) const END_MARKER: [u8; 4] = *b"/CHK";

// The house's limits on N, M and S.
pub(crate) const MOST_DATA: u32 = 1024;

pub(crate) const MOST_RECOVERY: u32 = 32;

pub(crate) const MOST_BLOCK: u32 = 4096;
