//! The cells of a row that is lent: comparisons of them, and copies of those that are shown.
ghost use Rattle.std.specs.Prelude.{◌≡◌, ◌<◌, length, slice_get, Some, IfOk};
ghost use Rattle.std.specs.Option.{unwrap_or};
ghost use Rattle.td_layer.specs.declared.values.Cell.{Cell};
ghost use Rattle.td_layer.specs.declared.values.Value.{Value};
ghost use Rattle.td_verdict.specs.Fields.{value_cell, column_cells, holds, all_hold};
ghost use Rattle.td_query.specs.Lines.{line_cells};

use td_cells::{cell_matches, tag_matches, text_matches};
use td_fields::number_cell;
use td_layer::{Cell, Copied, Name, NoMem, Seq, Value};
use td_model::{Column, Kind};
use td_verdict::Comparison;

/// A row that is lent: its table's name and tags, its timestamp, and its values.
#[derive(Clone, Copy)]
pub(crate) struct Line<'a> {
    pub(crate) name: &'a Name,
    pub(crate) tags: &'a Seq<Cell>,
    pub(crate) ts: u64,
    pub(crate) values: &'a Seq<Value>,
}

fn value_cell(kind: Kind, value: Value) -> Cell
    ensures { result ≡ value_cell kind value }
{
    match value {
        Value::Null => Cell::Null,
        Value::Num(n) => number_cell(kind, n),
    }
}

/// The value at a place; one that is missing is NULL.
pub(crate) fn value_in(values: &Seq<Value>, at: usize) -> Value
    ensures { result ≡ unwrap_or (slice_get values.now at) Value.Null }
{
    match values.get(at) {
        Some(value) => *value,
        None => Value::Null,
    }
}

// The cell of the column at a place, from 0: the timestamp, or a value.
fn column_cell(columns: &[Column], at: usize, ts: u64, values: &Seq<Value>) -> Cell
    requires { at < length columns.now }
    ensures { slice_get (column_cells columns.now ts values.now) at ≡ Some result }
{
    if at == 0 {
        return Cell::Num(i128::from(ts));
    }
    value_cell(columns[at].kind, value_in(values, at - 1))
}

// Whether a comparison is true of a row's cells.
fn holds(columns: &[Column], line: &Line<'_>, comparison: &Comparison) -> bool
    ensures { result ≡ holds (line_cells columns.now line.now) comparison.now }
{
    let place = comparison.place;
    if place == 0 {
        return text_matches(comparison.op, line.name, &comparison.operand);
    }
    if place <= columns.len() {
        let cell = column_cell(columns, place - 1, line.ts, line.values);
        return cell_matches(comparison.op, &cell, &comparison.operand);
    }
    let tag = place - 1 - columns.len();
    tag_matches(
        line.tags.as_slice(),
        tag,
        comparison.op,
        &comparison.operand,
    )
}

// Whether all comparisons are true of a row's cells.
pub(crate) fn all_hold(columns: &[Column], line: &Line<'_>, comparisons: &[Comparison]) -> bool
    ensures { result ≡ all_hold comparisons.now (line_cells columns.now line.now) }
{
    comparisons
        .iter()
        .all(|comparison| holds(columns, line, comparison))
}

/// A copy of a cell; one that is missing is NULL.
pub(crate) fn copy_at(cells: &Seq<Cell>, at: usize) -> Result<Cell, NoMem>
    ensures { IfOk result (λ cell. cell ≡ unwrap_or (slice_get cells.now at) Cell.Null) }
{
    match cells.get(at) {
        None => Ok(Cell::Null),
        Some(cell) => {
            let cell = cell.copy()?;
            Ok(cell)
        }
    }
}

fn name_cell(name: &Name) -> Result<Cell, NoMem>
    ensures { IfOk result (λ cell. cell ≡ Cell.Str name.now) }
{
    let name = name.copy()?;
    Ok(Cell::Str(name))
}

// A copy of the cell at a place of a row; one that is missing is NULL.
pub(crate) fn cell_at(columns: &[Column], line: &Line<'_>, place: usize) -> Result<Cell, NoMem>
    ensures { IfOk result (λ cell. cell ≡ unwrap_or (slice_get (line_cells columns.now line.now) place) Cell.Null) }
{
    if place == 0 {
        let cell = name_cell(line.name)?;
        return Ok(cell);
    }
    if place <= columns.len() {
        return Ok(column_cell(columns, place - 1, line.ts, line.values));
    }
    let cell = copy_at(line.tags, place - 1 - columns.len())?;
    Ok(cell)
}
