// How much a listing is lent and looks at: the program's own limits, and the two lengths that bound a file's chunks.

// The longest file that is looked at, and the most bytes that all its blocks may take up.
pub const FILE_MOST: usize = 65536;

pub(crate) const BLOCKS_MOST: usize = 32768;

// What is lent for the program's limits, to the byte: the store, a mark for each block, the scratch and its numbers, the content,
// first and last of each missing range.
pub const STORE: usize = BLOCKS_MOST;

pub const MARKS: usize = 1056;

pub const SCRATCH: usize = BLOCKS_MOST;

pub const NUMBERS: usize = 1024;

pub const CONTENT: usize = BLOCKS_MOST;

pub const BOUNDS: usize = 1024;

// Room for any listing: a refused line of at most 50 bytes for each 84 of the file, 512 missing ranges of at most 50 bytes each,
// and 270 bytes more.
pub const TEXT: usize = 65536;

// H, the region's length, stands at this place, and counts the bytes after itself; the chunks come after them.
pub(crate) const LENGTH_AT: usize = 8;

pub(crate) const AFTER_LENGTH: usize = 12;

pub(crate) const TRAILER: usize = 64;
