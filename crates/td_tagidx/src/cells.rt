//! The order of the cells of tags.
ghost use Rattle.std.specs.Prelude.{◌≡◌};
ghost use Rattle.td_tagidx.specs.Order.{kind_of, is_comparable, number_or_nought, text_or_empty};

use td_cells::number_of;
use td_layer::Cell;

// The rank of a cell's kind: NULL, numbers, quotients, texts.
pub(crate) fn kind_of(cell: &Cell) -> u8
    ensures { result ≡ kind_of cell.now }
{
    match cell {
        Cell::Null => 0,
        Cell::Truth(_) | Cell::Num(_) => 1,
        Cell::Frac { .. } => 2,
        Cell::Str(_) => 3,
    }
}

// Whether cells of this one's kind compare.
pub(crate) fn is_comparable(cell: &Cell) -> bool
    ensures { result ≡ is_comparable cell.now }
{
    match cell {
        Cell::Truth(_) | Cell::Num(_) | Cell::Str(_) => true,
        Cell::Null | Cell::Frac { .. } => false,
    }
}

// The number that a cell counts as, and 0 where there is none.
pub(crate) fn number_or_nought(cell: &Cell) -> i128
    ensures { result ≡ number_or_nought cell.now }
{
    number_of(cell).unwrap_or(0)
}

// The bytes of a text, and none where there is no text.
pub(crate) fn text_or_empty(cell: &Cell) -> &[u8]
    ensures { result.now ≡ text_or_empty cell.now }
{
    match cell {
        Cell::Str(text) => text.as_slice(),
        Cell::Null | Cell::Truth(_) | Cell::Num(_) | Cell::Frac { .. } => &[],
    }
}
