//! [store] What a commit writes: the parts of a frozen memtable, one stt file for each day range.
//!
//! A [`Frozen`] has a memtable, the day ranges that it is to be written to, and the kinds of each table's columns.
//! [`write_files`] writes the file of each range to a writer of its own. It needs no more than the Frozen and the
//! writers, so that it runs while the store goes on. The file of a range has each table with a put or a cut there, by
//! number, with its puts there by timestamp, and its cuts cut down to the range and joined.
//!
//! It is promised that the bytes of each file are just those of the tables of its range, where the writer tells its
//! bytes, and that such a file gives the parts of the memtable in its range: a scan gives the puts there, and a key is
//! cut exactly where it lies in the range and is cut by the memtable. A failure comes only where a writer's count of
//! faults rose.
//!
//! It stands on `td_memtable` for the parts, and on `td_sttfile` for the files.
#![tactic(auto)]

mod frozen;
mod laws;
mod tables;
mod writing;

pub use frozen::Frozen;
pub use laws::{
    a_file_gives_the_parts_of_its_range, the_files_give_the_parts_of_their_ranges,
    the_tables_are_one_list,
};
pub use writing::write_files;
