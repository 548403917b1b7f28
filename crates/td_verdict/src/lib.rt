//! [definitions] What the rules give for a statement in a catalog, and what a query answers: definitions.
//!
//! They stand in `specs/`, one file a subject. Of verdicts: `Causes` (the one order of the causes), `Names` (which
//! names are taken, and what they name), `Values` (what a literal says at a column or a tag), `Writes` (the causes of
//! each form of a write, and the entry that it is accepted as), `Queries` (the causes of a query), `Refusals` (which
//! select lists and windows are refused), and `Streams` (the causes of CREATE STREAM, beside those of its query). Of
//! answers: `Fields` (the cells of a row, and comparisons of them), `Plans` (what a query reads), `Answers` (which rows
//! a query picks, what a row query shows, and the header), `Parts` (the cells of PARTITION BY, and their order),
//! `Groups` (the picked rows in groups), `Windowed` (their windows, and the cells of the select list), `Arranged` (the
//! order of windows), and `Answered` (the answer of any query). Of what always holds: `Valid` (of a catalog) and
//! `Sound` (of an entry that is accepted, of the rows of a state, and of a plan). `proofs/` has worked examples, which
//! the checker computes. The types are [`Comparison`] and [`Source`]; nothing runs here. `td_bind` gives these verdicts
//! and plans, `td_answer` the answers of row queries and `td_query` those of any. It stands on `td_model`, `td_times`,
//! `td_limits`, `td_layer` and `td_cols`, and on `td_aggr` and `td_window` for aggregates and windows.
#![tactic(auto)]

mod comparison;
mod source;

pub use comparison::Comparison;
pub use source::Source;
