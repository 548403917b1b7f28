//! [base] What the program meets outside: a source, a sink, a clock, a gate, and a place with its store.
//!
//! Each is a trait whose ghost members are its meaning: the bytes that a source has left, those that a sink took, the
//! readings that a clock has left, the image of a store: its head, its logs with the bytes that aren't synced yet, its
//! files finished and in making, its open readers. A meaning is optional: a device in memory tells it, a real one
//! doesn't. How many bytes a source gave, and whether a place's store is out, is always told.
//!
//! All but clock and gate count their faults. A count never falls, and a call answers [`Failed`] only where it rose, or
//! stands at its type's end; a value that is handed back gives its faults to the one that takes it. What each call
//! makes of an image is an equation over it, or a relation where the outside may choose. The images that a crash may
//! leave are a definition over what is told, in `specs/Crash.antt`.
//!
//! The crate has the traits alone; it stands on `td_layer` for lists and on `td_limits` for the last moment.
#![tactic(auto)]

mod faults;
mod store;
mod streams;

pub use faults::{Failed, IoFault};
pub use store::{Place, Reader, Store, Writer};
pub use streams::{Clock, Gate, GatePoint, Sink, Source};
