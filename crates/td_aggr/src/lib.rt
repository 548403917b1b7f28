//! [base] Aggregates of a column, in one value of fixed size.
//!
//! A [`Tally`] sums up the rows that it was made of, so that COUNT, SUM, MIN, MAX, AVG, FIRST, LAST and SPREAD can be
//! read from it. It is promised that what is read is the aggregate of these rows, that merging two tallies gives the
//! tally of the rows of both, in whatever order rows and tallies come, and that nothing overflows. No call takes
//! memory.
//!
//! It stands on `td_layer`, which has the values, keys and cells, and says what each aggregate is.
#![tactic(auto)]

mod aggr;
mod laws;
mod tally;

pub use aggr::Aggr;
pub use laws::{aggregates_in_any_order, ends_in_row_order, tally_of_a_list};
pub use tally::Tally;
