// Which block, which byte, and how many word columns: three types, so that none can pass for another. Each call says what it
// counts from.
#[derive(Clone, Copy, PartialEq, Eq, Debug)]
pub struct BlockNumber(pub u32);

#[derive(Clone, Copy, PartialEq, Eq, Debug)]
pub struct BytePlace(pub u32);

#[derive(Clone, Copy, PartialEq, Eq, Debug)]
pub struct ColumnCount(pub u32);
