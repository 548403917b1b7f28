//! The fixed bytes of a file, and what its index says.

use td_layer::Seq;

/// The four bytes that begin a file, `TDD1`, as a number of 32 bits with the lowest byte first.
pub const FILE_MAGIC: u32 = 0x3144_4454;

/// The four bytes that end a file, `TDDE`.
pub const FILE_END: u32 = 0x4544_4454;

/// What the index says of a column of a block: how many of its values aren't NULL, and the sum, the least and the
/// greatest of these. All are 0 where there is none.
#[derive(Clone, Copy, Debug, PartialEq, Eq)]
pub struct Summary {
    pub count: u32,
    pub sum: i128,
    pub least: i128,
    pub greatest: i128,
}

/// What the index says of a block: where it begins, how many bytes it takes, the number of its table, how many rows it
/// has, its first and its last timestamp, and a summary of each column but the timestamp.
#[derive(Debug, Drop)]
pub struct Entry {
    pub offset: u64,
    pub size: u32,
    pub table: u32,
    pub rows: u32,
    pub first: u64,
    pub last: u64,
    pub columns: Seq<Summary>,
}
