//! Comparisons of cells.
ghost use Rattle.std.specs.Prelude.{◌≡◌, false};
ghost use Rattle.std.specs.Option.{option_map_or, option_copied};
ghost use Rattle.std.specs.Ordering.{nat_cmp};
ghost use Rattle.std.specs.Cmp.Lexicographic.{slice_cmp};
ghost use Rattle.td_model.specs.Tags.{number_of, text_of, is_null, order_of, passes, compares, cell_matches, tag_matches};

use std::cmp::Ordering;
use td_layer::{Cell, Name};
use td_model::Op;

/// The number that a cell counts as: a truth value is 1 or 0. NULL, a quotient and a text are none.
pub fn number_of(cell: &Cell) -> Option<i128>
    ensures { result ≡ number_of cell.now }
{
    match cell {
        Cell::Truth(true) => Some(1),
        Cell::Truth(false) => Some(0),
        Cell::Num(n) => Some(*n),
        Cell::Null | Cell::Frac { .. } | Cell::Str(_) => None,
    }
}

/// The bytes of a text. Any other cell has none.
pub fn text_of(cell: &Cell) -> Option<&[u8]>
    ensures { option_copied result ≡ text_of cell.now }
{
    match cell {
        Cell::Str(text) => Some(text.as_slice()),
        Cell::Null | Cell::Truth(_) | Cell::Num(_) | Cell::Frac { .. } => None,
    }
}

fn is_null(cell: &Cell) -> bool
    ensures { result ≡ is_null cell.now }
{
    match cell {
        Cell::Null => true,
        Cell::Truth(_) | Cell::Num(_) | Cell::Frac { .. } | Cell::Str(_) => false,
    }
}

// Whether an order of two cells passes a comparison.
fn passes(op: Op, order: Ordering) -> bool
    ensures { result ≡ passes op order }
{
    match op {
        Op::Lt => order.is_lt(),
        Op::Le => order.is_le(),
        Op::Gt => order.is_gt(),
        Op::Ge => order.is_ge(),
        Op::Eq => order.is_eq(),
        Op::Ne => order.is_ne(),
        Op::IsNull | Op::NotNull => false,
    }
}

fn texts_pass(op: Op, a: &Cell, b: &Cell) -> bool
    ensures { result ≡ option_map_or (passes op) (order_of (slice_cmp nat_cmp) (text_of a.now) (text_of b.now)) false }
{
    match (text_of(a), text_of(b)) {
        (Some(s), Some(t)) => passes(op, s.cmp(&t)),
        _ => false,
    }
}

/// Whether a text passes a comparison with a cell, as [`cell_matches`] says of the cell that holds it.
pub fn text_matches(op: Op, text: &Name, b: &Cell) -> bool
    ensures { result ≡ cell_matches op (Cell.Str text.now) b.now }
{
    match op {
        Op::IsNull => false,
        Op::NotNull => true,
        Op::Lt | Op::Le | Op::Gt | Op::Ge | Op::Eq | Op::Ne => match text_of(b) {
            Some(other) => passes(op, text.as_slice().cmp(&other)),
            None => false,
        },
    }
}

fn compares(op: Op, a: &Cell, b: &Cell) -> bool
    ensures { result ≡ compares op a.now b.now }
{
    match (number_of(a), number_of(b)) {
        (Some(m), Some(n)) => passes(op, m.cmp(&n)),
        _ => texts_pass(op, a, b),
    }
}

/// Whether a cell passes a comparison with another. `IsNull` and `NotNull` don't look at that one, and no other
/// comparison with NULL passes.
pub fn cell_matches(op: Op, a: &Cell, b: &Cell) -> bool
    ensures { result ≡ cell_matches op a.now b.now }
{
    match op {
        Op::IsNull => is_null(a),
        Op::NotNull => !is_null(a),
        Op::Lt | Op::Le | Op::Gt | Op::Ge | Op::Eq | Op::Ne => compares(op, a, b),
    }
}

/// Whether there is a cell at a place, from 0, and it passes a comparison with another ([`cell_matches`]).
pub fn tag_matches(cells: &[Cell], place: usize, op: Op, operand: &Cell) -> bool
    ensures { result ≡ tag_matches place op operand.now cells.now }
{
    match cells.get(place) {
        None => false,
        Some(cell) => cell_matches(op, cell, operand),
    }
}
