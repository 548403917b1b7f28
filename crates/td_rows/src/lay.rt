//! Cells laid over a row.
ghost use Rattle.std.specs.Prelude.{◌≡◌, IfOk};
ghost use Rattle.std.specs.Option.{option_copied};
ghost use Rattle.td_model.specs.State.{over, lay};
ghost use Rattle.td_rows.specs.Laid.{laid_value};

use std::alloc::Global;
use td_layer::{Birth, NoMem, Row, Seq, Value};

// A named value, else the one below, else NULL.
fn laid_value(cell: Option<Value>, below: Option<&Value>) -> Value
    ensures { result ≡ laid_value cell (option_copied below.entry) }
{
    match cell {
        Some(value) => value,
        None => match below {
            Some(value) => *value,
            None => Value::Null,
        },
    }
}

// Named values over the values of a row.
fn over(alloc: Global, cells: &[Option<Value>], values: &[Value]) -> Result<Seq<Value>, NoMem>
    ensures { IfOk result (λ laid. laid ≡ over cells.now values.now) }
{
    let mut laid = Seq::new(alloc);
    for (i, cell) in cells.iter().enumerate() {
        laid.add(laid_value(*cell, values.get(i)))?;
    }
    Ok(laid)
}

// Cells laid over the row of their key, if there is one. A new row is born at the moment, in milliseconds.
pub(crate) fn lay(
    alloc: Global,
    cells: &[Option<Value>],
    moment: u64,
    row: Option<&Row>,
) -> Result<Row, NoMem>
    ensures { IfOk result (λ laid. laid ≡ lay cells.now moment (option_copied row.entry)) }
{
    match row {
        Some(row) => {
            let values = over(alloc, cells, row.values.as_slice())?;
            Ok(Row {
                birth: row.birth,
                values,
            })
        }
        None => {
            let values = over(alloc, cells, &[])?;
            let birth = Birth { born: moment };
            Ok(Row { birth, values })
        }
    }
}
