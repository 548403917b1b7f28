//! [binding] What the names and the literals of a statement mean over a schema, without a catalog.
//!
//! [`said_at`] reads a literal for a column or a tag once: it is NULL, a number or a text, or doesn't suit there.
//! Whether it suits and fits, and its value, are read off that. [`field_named`] and [`column_named`] find the column of
//! a name. [`comparisons`] makes the conditions of a query comparisons of a row's cells, [`shown_places`] says which
//! cells its select list shows, and [`header`] what they are called; [`part_of`] gives the cells of PARTITION BY for a
//! table. A row's cells are its table's name, at place 0,
//! then its columns, from place 1 on, then its table's tags. Promised is just what the definitions say (`td_verdict`).
//!
//! It stands on `td_verdict` for the definitions, on `td_times` for the texts of timestamps, and on `td_model` and
//! `td_layer` for the types.
#![tactic(auto)]

mod fields;
mod literals;
mod names;
mod parts;
mod times;
mod titles;

pub use fields::{TBNAME, comparisons, field_named, reads_one, shown_places};
pub use literals::{Said, cell_said, number_cell, said_at};
pub use names::{
    add_names, column_named, is_column_kind, is_first, is_tag_kind, is_time, lacks_time, place_of,
    same,
};
pub use parts::part_of;
pub use times::time_from;
pub use titles::header;
