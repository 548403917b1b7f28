//! What rows hold in columns, and the aggregates of columns over rows.
ghost use Rattle.std.specs.Prelude.{◌≡◌, ◌+◌, ◌<◌, ◌^◌, ◌&&◌, if◌then◌else◌, length};
ghost use Rattle.std.specs.List.{AllByRecursion};
ghost use Rattle.td_aggr.specs.Tallies.{IsSound, merged, tally_of, tally_of_row};
ghost use Rattle.td_limits.specs.declared.limits.TheConstants.{LAST_TIMESTAMP};
ghost use Rattle.td_window.specs.Windows.{isnt_null};
ghost use Rattle.td_query.specs.Cuts.{is_kept, kept_rows, value_of, values};
ghost use Rattle.td_query.specs.Read.{IsGood};
ghost use Rattle.td_verdict.specs.Windowed.{value_at, is_end, truth_cell, has_truths, aggregate_cell};

use crate::cells::value_in;
use td_aggr::{Aggr, Tally};
use td_fields::{column_named, place_of};
use td_layer::{Cell, Func, Key, Name, Row, Seq, Value};
use td_model::{Column, Kind};

/// Which of the rows of a window belong to it: all, or those whose state, in the column at a place, isn't NULL.
#[derive(Clone, Copy)]
pub(crate) enum Kept {
    All,
    WithState(Option<usize>),
}

/// What a row of a timestamp and values holds in the column at a place, from 0: its timestamp in the first, and NULL
/// where there is none.
pub(crate) fn value_of(place: Option<usize>, ts: u64, values: &Seq<Value>) -> Value
    ensures { result ≡ value_of place ts values.now }
{
    match place {
        None => Value::Null,
        Some(at) => {
            if at == 0 {
                Value::Num(i128::from(ts))
            } else {
                value_in(values, at - 1)
            }
        }
    }
}

/// What a row holds in the column at a place.
pub(crate) fn value_at(place: Option<usize>, entry: &(Key, Row)) -> Value
    ensures { result ≡ value_at place entry.now }
{
    value_of(place, entry.0.ts, &entry.1.values)
}

fn isnt_null(value: Value) -> bool
    ensures { result ≡ isnt_null value }
{
    match value {
        Value::Null => false,
        Value::Num(_) => true,
    }
}

fn is_kept(kept: Kept, entry: &(Key, Row)) -> bool
    ensures { result ≡ is_kept kept entry.now }
{
    match kept {
        Kept::All => true,
        Kept::WithState(place) => isnt_null(value_at(place, entry)),
    }
}

// A tally with one row more, if the row belongs to the window.
#[tactic(auto, using(crate::proofs::Tallied::column_value, crate::proofs::Tallied::fit_one))]
fn tally_more(tally: &Tally, place: Option<usize>, kept: Kept, entry: &(Key, Row)) -> Tally
    requires sound { IsSound tally.now }
    requires rows { tally.now.rows + 1 < 2 ^ 62 }
    requires count { tally.now.count + 1 < 2 ^ 62 }
    requires good { IsGood LAST_TIMESTAMP entry.now }
    ensures { result ≡ (if is_kept kept entry.now
        then merged tally.now (tally_of_row (value_at place entry.now) entry.now.0) else tally.now) }
{
    if !is_kept(kept, entry) {
        return *tally;
    }
    let one = Tally::one(value_at(place, entry), entry.0);
    tally.merge(&one)
}

// The tally of a column over the rows that belong to a window.
fn tally_of(place: Option<usize>, kept: Kept, rows: &[(Key, Row)]) -> Tally
    requires few { length rows.now < 2 ^ 62 }
    requires good { AllByRecursion (IsGood LAST_TIMESTAMP) rows.now }
    ensures { result ≡ tally_of (values place (kept_rows kept rows.now)) }
{
    let mut tally = Tally::unit();
    'rows: for entry in rows {
        tally = tally_more(&tally, place, kept, entry);
    }
    tally
}

fn is_end(func: Func) -> bool
    ensures { result ≡ is_end func }
{
    matches!(func, Func::First | Func::Last)
}

fn has_truths(columns: &[Column], name: &Name) -> bool
    ensures { result ≡ has_truths columns.now name.now }
{
    match column_named(columns, name) {
        None => false,
        Some(column) => matches!(column.kind, Kind::Bool),
    }
}

fn truth_cell(cell: Cell) -> Cell
    ensures { result ≡ truth_cell cell }
{
    match cell {
        Cell::Num(n) => Cell::Truth(n == 1),
        other => other,
    }
}

/// Whether an aggregate of a column is a truth value: FIRST and LAST of a BOOL are.
pub(crate) fn gives_truth(columns: &[Column], func: Func, name: &Name) -> bool
    ensures { result ≡ (is_end func && has_truths columns.now name.now) }
{
    is_end(func) && has_truths(columns, name)
}

/// A cell, as a truth value where it is one.
pub(crate) fn cell_as(is_truth: bool, cell: Cell) -> Cell
    ensures { result ≡ (if is_truth then truth_cell cell else cell) }
{
    if is_truth { truth_cell(cell) } else { cell }
}

/// An aggregate of a column over the rows that belong to a window.
pub(crate) fn aggregate_cell(
    columns: &[Column],
    func: Func,
    name: &Name,
    kept: Kept,
    rows: &[(Key, Row)],
) -> Cell
    requires few { length rows.now < 2 ^ 62 }
    requires good { AllByRecursion (IsGood LAST_TIMESTAMP) rows.now }
    ensures { result ≡ aggregate_cell columns.now func name.now (kept_rows kept rows.now) }
{
    let tally = tally_of(place_of(columns, name), kept, rows);
    cell_as(gives_truth(columns, func, name), tally.cell(func))
}

/// How many rows belong to a window.
pub(crate) fn count_of(kept: Kept, rows: &[(Key, Row)]) -> usize
    ensures { result ≡ length (kept_rows kept rows.now) }
{
    match kept {
        Kept::All => rows.len(),
        Kept::WithState(_) => rows.iter().filter(|entry| is_kept(kept, entry)).count(),
    }
}
