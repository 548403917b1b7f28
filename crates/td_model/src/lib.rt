//! [definitions] The types of statements, entries and reports, and the definitions that the crates above are proved to
//! follow.
//!
//! The types are those of the statement language (`language`), of the catalog (`catalog`), of entries and verdicts
//! (`history`), of windows and their results (`windows`), of the plan of a query (`plan`), and of reports (`report`); a
//! copy equals what it copies. `built` has the one list of the forms of statement that are supported. The definitions
//! stand in `specs/`, one file a subject: `Catalog` (tables, supertables and streams by name and number, and what an
//! entry makes of them), `State` (what an entry makes of a state, and a history of all its entries), `Built` (which
//! statements are writes, and which are supported), `Tags` (comparisons of cells, and the subtables that a condition on
//! a tag picks), `Text` (the bytes of a report) and `Printable` (which reports can be told from their texts). Those
//! that grow with the supported forms are in `td_verdict` and `td_told`.
//!
//! It stands on `td_limits`, `td_layer` and `td_cols`.
#![tactic(auto)]

mod built;
mod catalog;
mod history;
mod language;
mod plan;
mod report;
mod windows;

pub use built::has_aggregate;
pub use catalog::{Column, Schema, StableDef, StreamEntry, TableDef};
pub use history::{Entry, Put, Verdict, What};
pub use language::{
    Cond, Item, ItemKind, Lit, Op, OrderBy, PartBy, Query, Stmt, StreamDef, Trigger, WindowDef,
};
pub use plan::Plan;
pub use report::{Cause, JournalLine, Many, Mark, Reply, Report};
pub use td_cols::{Kind, in_range};
pub use td_layer::{Cell, Func};
pub use windows::{Delta, WinKey, WinRow};
