//! [run] The core of a store over its log: what a store stands for when it is opened, and the events on it.
//!
//! A core keeps the state in memory and writes each accepted statement to the log of its store before it takes it in. A
//! store without a head stands for the state that the items of its first log, and then those of the second, make of the
//! empty state, each judged again in the state before it. [`open_core`] makes the core of a store, or says where the
//! store first breaks that form; [`Core::submit`] takes a statement, [`Core::pin`] gives a query the state as it is,
//! whatever comes after, and [`close_core`] gives the store back.
//!
//! Promised of an opened core: the store stands for its state, and stood for it before; and of a store that isn't
//! opened: it breaks at the place that is named, or its count of faults rose, or there was no memory. An accepted
//! statement is the next entry, and is in the log before it is answered; where the log can't be written, a halt is the
//! next entry and the last. A pinned query answers over the state in which it was pinned. A store stands for one state
//! at most, breaks at one place at most, and never does both.
//!
//! It stands on `td_tables` for the state, on `td_wal` for the log, on `td_parse` for the texts in it, on `td_answer`
//! for the answers of row queries, on `td_query` for those of queries with aggregates or windows, on `td_rows` for the
//! rows beneath them, on `td_outside` for the store and the clock, and on `td_told` for the definitions.
#![tactic(auto)]

mod causes;
mod journal;
mod kept;
mod laws;
mod opening;
mod pin;
mod submit;
mod writing;

pub use causes::{FileId, OpenCause, OpenRefused};
pub use kept::{Core, close_core};
pub use laws::{one_place, one_state, stands_or_breaks};
pub use opening::open_core;
pub use pin::{PinEnd, Pinned, Room};
pub use submit::Submitted;
