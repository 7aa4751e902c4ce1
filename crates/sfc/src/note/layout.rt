// Where the fields of a resend note stand, and how long they are.
pub(crate) const LENGTH_BYTES: usize = 4;

pub(crate) const VERSION_AT: usize = 4;

pub(crate) const UUID_AT: usize = 5;

pub(crate) const COUNT_AT: usize = 21;

pub(crate) const COUNT_BYTES: usize = 2;

pub(crate) const PAIRS_AT: usize = 23;
// A pair is the first index of a range and its last.
pub(crate) const INDEX_BYTES: usize = 4;

pub(crate) const PAIR_BYTES: usize = 2 * INDEX_BYTES;

pub(crate) const LASTS_AT: usize = PAIRS_AT + INDEX_BYTES;
// What the length field says of a note without pairs: how many bytes follow that field.
pub(crate) const FOLLOWING: usize = PAIRS_AT - LENGTH_BYTES;

pub(crate) const VERSION: u8 = 1;
