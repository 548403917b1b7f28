//! [run] The log that is written: which state a store stands for by it, and writing an item to it.
//!
//! A store stands for the state that the items of its first log, and then those of the second, make of the state of its
//! head. One of the two is written: the first one where nothing is frozen, else the second. [`write`] appends an item
//! to it, and makes the log first where it isn't there.
//!
//! Promised of a write: after `Ok` the store stands for what the entry of the item makes of each state that it stood
//! for; after a fault it stands for that or for the state from before; after want of memory it stands for what it stood
//! for. The files and their readers stay.
//!
//! It stands on `td_wal` for the form of logs, on `td_outside` for the store, on `td_levels` and `td_stands` for what a
//! store stands for, and on `td_state` for the state but for its rows.
#![tactic(auto)]

mod active_log;
mod writing;

pub use active_log::ActiveLog;
pub use writing::{has_place, item_of, write};
