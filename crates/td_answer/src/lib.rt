//! [answers] The answer of a row query over rows by key.
//!
//! [`answer`] reads the rows of a plan's tables in the plan's range of timestamps and gives those of which all
//! comparisons are true, in the order of the answer, or a part of them. It promises the answer of the definitions
//! (`td_verdict`), which know no plan: no row of a table that the plan leaves out would belong to it, and none outside
//! the plan's range. Comparisons are asked of rows that are lent; names, tags and values are copied of the rows that
//! are shown alone.
//!
//! It stands on `td_verdict` for the definitions, on `td_rows` for the rows, on `td_fields` for what the names of a
//! query mean, on `td_cells` for the comparison of cells, and on `td_model` and `td_layer` for the types. Queries with
//! aggregates, windows and PARTITION BY are answered by `td_query`.
#![tactic(auto)]

mod answers;
mod cells;
mod firsts;
mod picks;
mod shown;

pub use answers::answer;
