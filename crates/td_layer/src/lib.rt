//! [base] Lists, values, keys, rows and cells, and the parts of layers with the traits of their scans.
//!
//! Contracts see a list as the list of its items. It is promised that a list does what its name says: what `push`,
//! `pop`, `insert` and `set` leave is said exactly, a copy equals what it copies, and a call that runs out of memory
//! leaves the list as it was. A [`Roomy`] list shows its spare room beside its items, so that its owner can promise
//! that a later `push` finds memory.
//!
//! A layer of a store holds a [`Part`] of a key: a cut, then a put. [`compose`] gives the part that does to any row
//! what two parts do, one after the other. A [`RowScan`] gives the partials of one layer, a [`Snapshot`] the rows over
//! all of them; what both stand for is told or not, and each fault has its cause.
//!
//! It stands on the standard library alone.
#![tactic(auto)]

mod parts;
mod roomy;
mod scans;
mod seq;
mod steps;
mod values;

pub use parts::{Part, Partial, cells_over, compose, compositions, put_over};
pub use roomy::Roomy;
pub use scans::{RowScan, ScanFault, Snapshot};
pub use seq::{Copied, Name, Seq};
pub use steps::Steps;
pub use values::{Birth, Cell, Func, Key, NoMem, Row, Value};
