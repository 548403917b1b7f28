//! The fixed bytes of a file, and its cuts.

/// The four bytes that begin a file, `TDS1`, as a number of 32 bits with the lowest byte first.
pub const FILE_MAGIC: u32 = 0x3153_4454;

/// The four bytes that end a file, `TDSE`.
pub const FILE_END: u32 = 0x4553_4454;

/// A cut of a file: a table's range of timestamps, whose ends belong to it.
#[derive(Clone, Copy, Debug, PartialEq, Eq)]
pub struct FileCut {
    pub table: u32,
    pub lo: u64,
    pub hi: u64,
}
