// The house limits of the code and the sizes that follow from them (document 01, "The receiver and its house limits").
pub(crate) const MOST_DATA: usize = 1024;

pub(crate) const MOST_RECOVERY: usize = 32;

pub(crate) const LEAST_BLOCK: usize = 2;

pub(crate) const MOST_BLOCK: usize = 4096;

pub(crate) const MOST_WORDS: usize = MOST_BLOCK / 2;

// How many field elements the room has that is lent to a rebuilding.
pub(crate) const NUMBERS_ROOM: usize = 1024;

// The mark of an index that is held; every other mark is of one that is not. A mark is a byte of lent memory, which may be any
// byte, and so no enum.
pub(crate) const HELD: u8 = 1;
