//! [binding] Cells of a row, and how two of them compare.
//!
//! [`tag_matches`] says whether the cell at a place passes a comparison with another cell, [`cell_matches`] whether one
//! cell does, and [`number_of`] and [`text_of`] give what a cell is compared as. Numbers compare by their size and
//! texts by their bytes; a truth value counts as the number 1 or 0; two cells that aren't both numbers or both texts
//! don't compare, and no comparison with NULL passes. Promised is just what the definitions say (`Tags` of `td_model`).
//!
//! It stands on `td_model` for the operators and on `td_layer` for the cells.
#![tactic(auto)]

mod cells;

pub use cells::{cell_matches, number_of, tag_matches, text_matches, text_of};
