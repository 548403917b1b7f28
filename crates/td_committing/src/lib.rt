//! [run] A commit from its start to its end: what was entered since the last one goes into files, under a new head.
//!
//! [`commit_once`] freezes the active memtable of a core, or takes one that an earlier commit left frozen, writes its
//! files and installs them. [`commit`] does so until all that was entered stands in files.
//!
//! Promised: after `Committed` the head of the store has that version, and the log of the entries up to it is gone; the
//! rows are as they were, and so is what the store stands for. After a fault the entries stand in the log as before.
//! Only a fault of the head's swap, or of the drop of the log, halts the core.
//!
//! It stands on `td_engine` for the core and on `td_commit` for what is written.
#![tactic(auto)]

mod commits;

pub use commits::{CommitEnd, commit, commit_once};
