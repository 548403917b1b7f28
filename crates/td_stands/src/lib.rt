//! [run] What a store stands for: the state of its head, with the rows that its files make, and then the items of its
//! logs.
//!
//! Nothing is read here: `Stands` says for which state an image stands, and `Breaks` where an image that stands for none
//! first breaks that form. It is promised that an image stands for one state at most, breaks first at one place at most,
//! and never does both; and that a store with neither a head nor logs stands for the empty state. What items of logs
//! make is one state and one memtable, in one go or in two. The rows have no part in the rest of it, so a break is found
//! without a look into files.
//!
//! It stands on `td_manifest` for the head, on `td_wal` for the logs, on `td_levels` for the rows, on `td_parse` for the
//! texts in logs, and on `td_told` for the verdict on them.
#![tactic(auto)]

mod file_id;
mod laws;

pub use file_id::FileId;
pub use laws::{an_empty_store_stands, one_place, one_state, replays_are_one, stands_or_breaks};
