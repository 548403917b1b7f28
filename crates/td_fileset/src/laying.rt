//! Partials laid over rows.
ghost use Rattle.std.specs.Prelude.{◌≡◌, Option, Some, None, if◌then◌else◌, IfOk, IfSome, OnOk};
ghost use Rattle.td_layer.specs.Columns.{AreColumnCells, AreColumnValues};
ghost use Rattle.td_layer.specs.Parts.{over, lay};

use std::alloc::Global;
use td_layer::{NoMem, Partial, Row, Seq, Value};

// Named values over the values of a row; a column that isn't named keeps what stands below, or is NULL.
fn over(alloc: Global, cells: &[Option<Value>], under: &[Value]) -> Result<Seq<Value>, NoMem>
    ensures laid { IfOk result (λ values. values ≡ over cells.now under.now) }
{
    let mut values = Seq::new(alloc);
    let mut left = cells;
    let mut below = under;
    while let Some((cell, cells)) = left.split_first() {
        match below.split_first() {
            None => values.add(cell.unwrap_or(Value::Null))?,
            Some((value, rest)) => {
                values.add(cell.unwrap_or(*value))?;
                below = rest;
            }
        }
        left = cells;
    }
    Ok(values)
}

/// A put over the row that is there. A new row has the birth of the put, and a row that is there keeps its own.
pub(crate) fn lay(alloc: Global, partial: &Partial, row: Option<Row>) -> Result<Row, NoMem>
    ensures { IfOk result (λ laid. laid ≡ lay partial.now row) }
{
    match row {
        None => {
            let values = over(alloc, partial.cells.as_slice(), &[])?;
            Ok(Row {
                birth: partial.birth,
                values,
            })
        }
        Some(row) => {
            let values = over(alloc, partial.cells.as_slice(), row.values.as_slice())?;
            Ok(Row {
                birth: row.birth,
                values,
            })
        }
    }
}

/// The row that a cut leaves: none where the key is cut.
pub(crate) fn under_cut(is_cut: bool, row: Option<Row>) -> Option<Row>
    ensures { result ≡ (if is_cut then None else row) }
{
    if is_cut { None } else { row }
}
