//! [answers] Queries with aggregates, windows and PARTITION BY, over a snapshot of rows.
//!
//! [`answer`] gives a part of the answer of a plan. A plan without a session or state window needs no rows: its tables
//! are read one after another, and of the rows of each window of each group only a sum is kept, which is their number
//! and the tally of each column that an aggregate is asked of. For a session or a state window it does what [`gather`],
//! [`finish`] and [`arrange`] do one after another; so it does for a plan in which the numbers of tables don't rise.
//! [`gather`] reads the tables of the plan and gives the rows of which all conditions are true, in groups by the cells
//! of the PARTITION BY items. [`finish`] cuts a group into its windows, each with its cells; a kind of window is an
//! implementation of `cutters::Cutter`. [`arrange`] puts the windows of groups in the order of the answer and gives the
//! part of them that OFFSET and LIMIT leave. A row query's rows are picked and shown in one go.
//!
//! It is promised that what is given is that part of the answer that the definitions say, over the rows that the
//! snapshot stands for; that each table is read once, with no more steps than reading it takes; and which fault comes
//! when.
//!
//! What a query answers in a state is defined in `td_verdict`, which knows no plan: `Parts` and `Groups` (partitions
//! and the rows that are picked), `Windowed` (windows and the cells of the select list), `Arranged` and `Answered` (the
//! answer), and `Refusals` (which select lists and windows are refused). `specs/Planned` says the same of a plan, and
//! [`plans_answer_their_queries`] that both give one answer over a sound state. The crate stands on `td_verdict` for
//! the definitions, on `td_fields` and `td_cells` for what conditions mean for a row, on `td_window` and `td_aggr` for
//! windows and aggregates, and on `td_model` and `td_layer` for the types. `td_core` uses it for queries with
//! aggregates, windows and PARTITION BY. Row queries go to `td_answer` there, which stops at LIMIT and copies no row.
#![tactic(auto)]

mod answers;
mod arranging;
mod cells;
mod closing;
mod columns;
mod cutters;
mod finishing;
mod frames;
mod framing;
mod gathering;
mod groups;
mod items;
mod laws;
mod parts;
mod picks;
mod rows;
mod shown;
mod slots;
mod spans;
mod summing;
mod sums;
mod tables;
mod totals;

pub use answers::answer;
pub use arranging::arrange;
pub use finishing::finish;
pub use gathering::{Group, gather};
pub use laws::{
    interval_windows_are_all, plans_answer_their_queries, windows_that_pass_are_in_bounds,
};
