//! [run] The state in memory: a catalog with its index of tags, rows by key, and what an entry makes of them in two
//! steps.
//!
//! [`Tables`] stands for a state of `td_model`. [`Tables::judge`] gives the verdict on a write, and [`Tables::plan`]
//! that on a query, with its plan. An entry is taken in by two steps, between which it can be written to a log:
//! [`Tables::prepare`] takes all the memory that it needs and leaves the state as it is, and [`Tables::apply`] then
//! takes none; the state is then the one that the entry makes of it. [`Tables::stop`] takes a halt in.
//! [`Tables::share_rows`] gives the rows of the state, which later entries leave as they are. The state is sound at all
//! times ([`Tables::is_sound`]).
//!
//! It stands on `td_told` for the definitions, on `td_bind` for verdicts and plans, on `td_fields` for headers, on
//! `td_catalog`, `td_tagidx` and `td_rows` for what it keeps, and on `td_model` and `td_layer` for the types.
#![tactic(auto)]

mod contents;
mod latest;
mod prepared;
mod tables;

pub use prepared::Prepared;
pub use tables::Tables;
