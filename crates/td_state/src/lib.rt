//! [run] The state in memory but for its rows: a catalog with its index of tags, and what an entry makes of them in two
//! steps.
//!
//! [`Tables`] stands for a state of `td_model` whose list of rows is empty: rows lie in memtables and files.
//! [`Tables::judge`] gives the verdict on a write, and [`Tables::plan`] that on a query, with its plan. An entry is
//! taken in by two steps, between which it can be written to a log: [`Tables::prepare`] takes all the memory that it
//! needs and leaves the state as it is, and [`Tables::apply`] then takes none; the state is then the one that the entry
//! makes of it. [`Tables::stop`] takes a halt in. The state is sound at all times ([`Tables::is_sound`]).
//!
//! [`Tables::head`] writes the state down as a head, and [`Tables::of_head`] makes it of one. [`Tables::kinds`] and
//! [`Tables::plan_kinds`] tell the kinds of the columns of tables, by which rows are read.
//!
//! It stands on `td_told` for the definitions, on `td_bind` for verdicts and plans, on `td_fields` for headers, on
//! `td_catalog` and `td_tagidx` for what it keeps, on `td_manifest` for heads, and on `td_model` and `td_layer` for the
//! types.
#![tactic(auto)]

mod contents;
mod from_head;
mod kinds;
mod latest;
mod prepared;
mod tables;
mod to_head;

pub use prepared::Prepared;
pub use tables::Tables;
