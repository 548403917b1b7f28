//! [formats] The log of a store: items behind gates, appended one by one, and read back up to the first gate that isn't
//! open.
//!
//! An item is what a store keeps of one version: the text of a statement that was accepted, or a stream's step with
//! what it changed of the stream's result. A log is a gate, then items, each followed by a gate; a gate is one byte,
//! open where it is 1. The first closed gate ends the log, whatever stands behind it. [`append`] adds an item there,
//! and [`read_all`] gives the items.
//!
//! Promised: the items that are read are exactly those of which the bytes are a log from a version on; where the bytes
//! are none, the answer is the place of the first field that is cut short or breaks its rule, with the items that stand
//! whole before it. Only want of memory keeps it from that answer. What is a log is a relation of bytes and items, by
//! the bytes of each item, and it is proved that bytes are one log at most, or break the form of a log at one place.
//!
//! An item that was appended stands at the end of the log, all of it is stable, and nothing else of the store has
//! changed. Where the store failed, the log that a read gives, and each that a crash may leave, is that of the items
//! from before, or of these and the item.
//!
//! It stands on `td_codec` for the fields of an item, on `td_outside` for the store and on `td_model` for the windows
//! of a step.
#![tactic(auto)]

mod appending;
mod item;
mod laws;
mod reading;

pub use appending::{WalFault, append};
pub use item::{LogBody, LogItem};
pub use laws::{
    a_crash_leaves_a_log, a_new_log_is_empty, nothing_behind_a_closed_gate, one_log,
    what_continues_a_log, where_the_next_gate_stands,
};
pub use reading::{LogFault, read_all, read_to_gate};
