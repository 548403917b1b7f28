//! [binding] The index of tags: which subtables have a tag that passes a comparison.
//!
//! A [`TagIndex`] keeps the tags of subtables and answers a comparison on a tag with the numbers of the subtables that
//! pass. It changes in two steps, as a catalog does: [`TagIndex::prepare`] takes all the memory that a subtable needs,
//! and [`TagIndex::add`] then takes none.
//!
//! Promised: an answer is the filter of all subtables, in number order. No clause speaks of time: the tags lie in an
//! ordered set, by their places and cells, so a subtable's tags are put in time that grows with their number and with
//! the logarithm of all; those that pass `=`, `<`, `<=`, `>` or `>=` lie together, and the work of finding them grows
//! with the answer and with that logarithm. For `<>`, IS NULL and IS NOT NULL each subtable is looked at. The crate
//! stands on `td_cells`, `td_model` and `td_layer`.
#![tactic(auto)]

mod cells;
mod index;
mod order;
mod slots;

pub use index::{TagChange, TagIndex};
