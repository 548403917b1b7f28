//! [run] The core of a store whose rows lie in levels: the events on it, one at a time. It takes the place of `td_core`
//! once statements are played on it.
//!
//! A core keeps the state in memory but for its rows; these lie in an active and a frozen memtable and in files. It
//! writes each accepted statement to the log of its store before it takes it in. [`open_core`] makes the core of a
//! store, or says where the store first breaks its form; [`Core::submit`] takes a statement, and [`close_core`] gives
//! the store back. [`Core::freeze`] hands out the entries above the head's version to be written to files, and
//! [`Core::install`] puts these files under a new head.
//!
//! Promised of an opened core: the store stands for its state, and stood for it before; and of a store that isn't
//! opened: it breaks at the place that is named, or its count of faults rose, or there was no memory. An accepted
//! statement is the next entry, and is in the log before it is answered; where the log can't be written, a halt is the
//! next entry and the last. A freeze and an install leave the rows as they are; behind an install the head has the
//! version of what was frozen, and the log of its entries is gone.
//!
//! It stands on `td_opening` for what a store stands for as it is opened, on `td_active` for the log that is written,
//! on `td_state` for the state, on `td_levels` for the rows, on `td_outside` for the store and the clock, and on
//! `td_told` for the definitions.
#![tactic(auto)]

mod freezing;
mod installing;
mod journal;
mod kept;
mod opening;
mod submit;

pub use freezing::Freeze;
pub use installing::Install;
pub use kept::{Core, Flight, close_core};
pub use opening::{OpenRefused, open_core};
pub use submit::Submitted;
pub use td_opening::OpenCause;
pub use td_stands::FileId;
