//! [store] The levels that the rows of a store lie in: the memtable that takes entries, the frozen one, and the files
//! of day ranges.
//!
//! The rows of a store are what its levels make, the newer over the older (`Levels`). An entry goes into the active
//! memtable; a freeze puts that aside, and a new one takes entries; a commit writes the frozen one to files, one for
//! each day range that gets one, and the files take its place.
//!
//! It is promised that the rows are those of the state after each of these: an entry makes of them what it makes of the
//! rows of a state, and a freeze and a commit leave them as they are. A plan reads the rows of its tables in its range
//! of timestamps from the files alone whose day ranges meet that.
//!
//! It stands on `td_fileset` for layers over one another, on `td_memtable` and `td_commit` for memtables and what is
//! written of them, on `td_catalog` for the entries that may come next, and on `td_verdict` and `td_model` for states.
#![tactic(auto)]

mod files;
mod laws;
mod levels;
mod ranges;

pub use laws::{commits_keep_rows, entries_are_taken, freezes_keep_rows, plans_read_rows};
pub use levels::RowLevels;
