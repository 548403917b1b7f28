//! Summaries of columns.
ghost use Rattle.std.specs.Prelude.{◌≡◌, ◌<◌, ◌≤◌, ◌^◌, ◌*◌, pos, neg_ℤ, ◌≤ℤ◌, ◌+ℤ◌, length, slice_index_or, ◌+◌, ◌==◌, if◌then◌else◌, None, IfSome};
ghost use Rattle.std.specs.Int.{int_min, int_max};
ghost use Rattle.std.specs.List.{AllByRecursion};
ghost use Rattle.td_limits.specs.declared.limits.TheConstants.{BLOCK_ROWS};
ghost use Rattle.td_layer.specs.Columns.{IsColumnNumber, IsColumnValue, AreColumnCells};
ghost use Rattle.td_block.specs.Rows.{column_at};
ghost use Rattle.td_datafile.specs.Sums.{summary_of, numbers_of, no_numbers, with_number, with_cell, HasSum};

use crate::format::Summary;
use td_layer::{Partial, Value};

/// The cell of a row in a column: none beyond the row's end.
pub(crate) fn cell_at(cells: &[Option<Value>], column: usize) -> Option<Value>
    ensures { result ≡ slice_index_or cells.now column None }
{
    match cells.get(column) {
        None => None,
        Some(cell) => *cell,
    }
}

// The least of a number and of those of a summary.
fn least_with(summary: Summary, number: i128) -> i128
    ensures { result ≡ (if summary.count == 0 then number else int_min number summary.least) }
{
    if summary.count == 0 {
        return number;
    }
    number.min(summary.least)
}

// The greatest of a number and of those of a summary.
fn greatest_with(summary: Summary, number: i128) -> i128
    ensures { result ≡ (if summary.count == 0 then number else int_max number summary.greatest) }
{
    if summary.count == 0 {
        return number;
    }
    number.max(summary.greatest)
}

// The sum of a number and of those of a summary.
fn sum_with(summary: Summary, number: i128) -> i128
    requires few { summary.count < BLOCK_ROWS }
    requires sum { HasSum summary }
    requires number { IsColumnNumber number }
    ensures sum { result ≡ number +ℤ summary.sum }
    ensures has_sum { HasSum (record summary { count = summary.count + 1; sum = result }) }
{
    number + summary.sum
}

// The summary of a number and of those of another summary.
fn with_number(summary: Summary, number: i128) -> Summary
    requires few { summary.count < BLOCK_ROWS }
    requires sum { HasSum summary }
    requires number { IsColumnNumber number }
    ensures result { result ≡ with_number number summary }
    ensures sum { HasSum result }
{
    Summary {
        count: summary.count + 1,
        sum: sum_with(summary, number),
        least: least_with(summary, number),
        greatest: greatest_with(summary, number),
    }
}

// The summary of a cell and of those of another summary.
fn with_cell(summary: Summary, cell: Option<Value>) -> Summary
    requires few { summary.count < BLOCK_ROWS }
    requires sum { HasSum summary }
    requires cell { IfSome cell IsColumnValue }
    ensures result { result ≡ with_cell cell summary }
    ensures sum { HasSum result }
{
    match cell {
        Some(Value::Num(number)) => with_number(summary, number),
        _ => summary,
    }
}

/// The summary of a column of the rows of a block.
pub(crate) fn summary_at(rows: &[(u64, Partial)], column: usize) -> Summary
    requires few { length rows.now ≤ BLOCK_ROWS }
    requires values { AllByRecursion (λ row. AreColumnCells row.1.cells) rows.now }
    ensures { result ≡ summary_of (numbers_of (column_at rows.now column)) }
{
    let mut summary = Summary {
        count: 0,
        sum: 0,
        least: 0,
        greatest: 0,
    };
    let mut left = rows;
    while let Some((row, rest)) = left.split_last() {
        summary = with_cell(summary, cell_at(row.1.cells.as_slice(), column));
        left = rest;
    }
    summary
}
