//! [run] Opening a store: what its head and its logs make, and settling what a crash may have left.
//!
//! A store stands for the state that the items of its first log, and then those of the second, make of the state of its
//! head, each judged again in the state before it. [`open_store`] makes that state, the levels that hold its rows, and
//! the log that is written; or says where the store first breaks the form. No file but the head and the logs is read.
//!
//! Promised of an opened store: it stands for the states that it stood for, which the state and the levels are; its
//! logs are stable, and its finished files are those that the head names. Of a store that isn't opened: it breaks first
//! at the place that is named, or its count of faults rose, or there was no memory; and it stands for the states that
//! it stood for.
//!
//! It stands on `td_manifest` for the head, on `td_wal` for the logs, on `td_parse` for the texts in them, on
//! `td_state` and `td_levels` for what their entries make, on `td_stands` for what a store stands for, on `td_active`
//! for the log that is written, and on `td_outside` for the store.
#![tactic(auto)]

mod causes;
mod head;
mod numbers;
mod opening;
mod replaying;
mod settling;

pub use causes::OpenCause;
pub use opening::{Opened, open_store};
