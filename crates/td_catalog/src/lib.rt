//! [binding] The catalog: supertables, tables and live streams, by name and by number.
//!
//! A [`Catalog`] finds each by its name in time that doesn't grow with their number, and lends what it keeps of each by
//! its number. It changes in two steps: [`Catalog::prepare`] takes all the memory that an entry of the history needs
//! and leaves the catalog as it is, and [`Catalog::apply`] then takes none, so that the entry can be written to a log
//! between the two.
//!
//! It also lends the numbers of the subtables of each supertable.
//!
//! Promised: the catalog after a change is the one that the entry makes of it, and every look-up answers by it.
//! The crate stands on `td_model`, `td_layer` and `indexmap`.
#![tactic(auto)]

mod catalog;
mod change;
mod groups;
mod steps;

pub use catalog::Catalog;
pub use change::Change;
