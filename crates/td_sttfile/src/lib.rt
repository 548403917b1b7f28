//! [formats] Stt files: what a commit writes for one day range, the cuts and then the puts of many tables.
//!
//! A file has a magic, its day range, its cuts in order, its blocks in the order of their keys, and an end mark. A
//! cut stands under the puts of its own file. [`write_file`] writes a list of tables with their cuts and rows.
//! [`scan`] gives the partials of one table in a range of timestamps, by key, and the file's cuts: it reads what stands
//! before the blocks at once, then one block after the other as rows are asked for, up to the first block of a table
//! above. A block of another table, or one whose timestamps lie all outside the range, isn't decoded: it is passed over
//! by its head, its first and last timestamp and its columns' codes.
//!
//! Promised: the bytes written are exactly those of the list, and a failure comes only where the writer's count of
//! faults rose. A scan gives exactly what the definition of reading gives of the file's bytes, where the file tells
//! them: the partials before the first field that is cut short or breaks its rule, in the order read, and then that
//! place. It ends only where there is none. A reader's failure comes only where its count of faults rose. A file that
//! was written gives what was put into it. Where a scan of a range finds no fault, a scan of a narrower range finds none
//! and gives just the partials there.
//!
//! Not looked at: of a block that is passed over, all but the fields above; blocks behind a table above; the end mark.
//!
//! It stands on `td_fileio` for reading, writing and lists of rows, and on `td_block` for blocks.
#![tactic(auto)]

mod blocks;
mod format;
mod laws;
mod opening;
mod places;
mod scans;
mod writing;

pub use format::{FILE_END, FILE_MAGIC, FileCut};
pub use laws::{scans_of_a_file, what_was_written_is_scanned};
pub use scans::{FileScan, scan};
pub use td_fileio::{RowList, TableRows};
pub use writing::write_file;
