//! [formats] Data files: what a merge writes for one day range, the rows of many tables with an index of their blocks.
//!
//! A file has a magic, its day range, its blocks in the order of their keys, an index, and where the index begins. In
//! its blocks every cell is named, and it has no cuts. The index says of each block where it stands, of which table it
//! is, its first and its last timestamp, and of each column how many values it has, their sum, the least and the
//! greatest. [`write_file`] writes a list of tables with their rows. [`scan`] gives the partials of one table in a
//! range of timestamps, by key: it reads the front, the end and the index, and then those blocks of the table that can
//! have such rows, one after the other as rows are asked for. [`fold`] gives the tally of a column over such rows: by
//! the index for blocks that the range covers whole, and by the rows of at most two that it covers in part. For the
//! first and the last value it reads at most two blocks more.
//!
//! Promised: the bytes written are exactly those of the list, and a failure comes only where the writer's count of
//! faults rose. A scan gives exactly what the definition of reading gives of the file's bytes, where the file tells
//! them: the partials before the first field that is cut short or breaks its rule, in the order read, and then that
//! place. It ends only where there is none. A reader's failure comes only where its count of faults rose. A file that
//! was written gives what was put into it. A fold takes a step for each row of a block that the range covers in part,
//! at most 2048, and answers what the definition of folding gives of the file's bytes; of a file that was written this
//! is the tally of the rows that were put into it.
//!
//! Not looked at: blocks of other tables, blocks none of whose timestamps can lie in the range, and whether the sums of
//! a column are those of its block; of such sums only that so many numbers can have them. A fold takes them as they
//! are.
//!
//! It stands on `td_fileio` for reading, writing and lists of rows, on `td_block` for blocks, and on `td_aggr` for what
//! a sum is.
#![tactic(auto)]

mod blocks;
mod entries;
mod folding;
mod format;
mod laws;
mod opening;
mod ranges;
mod scans;
mod sums;
mod writing;

pub use folding::fold;
pub use format::{FILE_END, FILE_MAGIC, Summary};
pub use laws::{what_was_written_is_folded, what_was_written_is_scanned};
pub use ranges::scans_of_a_file;
pub use scans::{FileScan, scan};
pub use td_fileio::{RowList, TableRows};
pub use writing::write_file;
