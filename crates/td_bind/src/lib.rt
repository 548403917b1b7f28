//! [binding] The verdict of a write that is built, and of a query with its plan.
//!
//! [`bind_write`] says what a write meets in a catalog, at a retention edge and a moment: accepted, as an entry of the
//! history with its count of rows, or refused with the first cause that applies. It promises that this is the verdict
//! of the definitions (`td_verdict`), that the catalog can take what is accepted, each value of a put being NULL or in
//! the range of its column's kind, and that no row of it lies before the edge.
//!
//! [`bind_query`] says what a query meets: it passes with its plan, or is refused with the first cause that applies,
//! BadSelect and BadWindow among them. It promises the verdict and the plan of the definitions, that the plan is sound,
//! and that its timestamps end in the range of time and its interval has durations in their bounds. A plan over a
//! supertable is looked for at the table of a name, where a condition leaves one, or else among those that the index of
//! tags gives, or else among the supertable's subtables; no clause says so. That want of memory comes only where there
//! is none is shown by tests, and by no contract.
//!
//! It stands on `td_verdict` for the definitions, on `td_catalog` for names and schemas, on `td_tagidx` for tags, on
//! `td_fields` for literals and names over a schema, and on `indexmap` for names that were seen before.
#![tactic(auto)]

mod columns;
mod found;
mod insert;
mod laws;
mod literals;
mod make;
mod names;
mod puts;
mod query;
mod ranges;
mod refusals;
mod remove;
mod seen;
mod selects;
mod subtables;
mod tables;
mod write;

pub use laws::history_stays_sound;
pub use query::bind_query;
pub use write::bind_write;
