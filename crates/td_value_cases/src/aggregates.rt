//! Aggregates of a column.
ghost use Rattle.std.specs.Prelude.{◌≡◌, ◌<◌, ◌≤◌, length};
ghost use Rattle.td_aggr.specs.Tallies.{IsSound};
ghost use Rattle.td_value_cases.specs.declared.aggregates.TheConstants.{MOST_ROWS};

use crate::lists::{number, push_cell, small};
use std::alloc::Global;
use td_aggr::{Aggr, Tally};
use td_cases::{CaseFault, Out};
use td_layer::{Func, Key, Seq, Value};

/// A case has fewer rows.
const MOST_ROWS: usize = 1000;

/// A row: its timestamp in milliseconds, its table, and its value.
type Row = (u64, u32, Option<i64>);

fn row_of(text: &str) -> Result<Row, CaseFault> {
    let mut words = text.split('.');
    let ts = number(words.next().unwrap_or(""))?;
    let table = small(words.next().unwrap_or(""))?;
    let value = match words.next() {
        None | Some("NULL") => None,
        Some(n) => Some(n.parse::<i64>().map_err(|_| CaseFault::Unread)?),
    };
    Ok((ts, table, value))
}

fn rows_of(alloc: Global, text: &str) -> Result<Vec<Row>, CaseFault> {
    let mut rows = Vec::new(alloc);
    match push_rows(&mut rows, text) {
        Ok(()) => Ok(rows),
        Err(fault) => {
            drop(rows);
            Err(fault)
        }
    }
}

fn push_rows(rows: &mut Vec<Row>, text: &str) -> Result<(), CaseFault> {
    if !text.is_empty() {
        for word in text.split(' ') {
            rows.push(row_of(word)?)?;
        }
    }
    Ok(())
}

fn one(row: Row) -> Tally
    ensures sound { IsSound result }
    ensures rows { result.rows ≡ 1 }
    ensures count { result.count ≤ 1 }
{
    let (ts, table, value) = row;
    let value = match value {
        None => Value::Null,
        Some(n) => Value::Num(i128::from(n)),
    };
    Tally::one(value, Key { table, ts })
}

fn tally(rows: &[Row]) -> Tally
    requires { length rows.now < MOST_ROWS }
    ensures sound { IsSound result }
    ensures rows { result.rows ≡ length rows.now }
    ensures count { result.count ≤ length rows.now }
{
    let mut tally = Tally::unit();
    for row in rows {
        tally = tally.merge(&one(*row));
    }
    tally
}

// The aggregates of a tally, in a fixed order.
fn shown(alloc: Global, tally: &Tally) -> Result<Seq<u8>, CaseFault>
    requires { IsSound tally.now }
{
    let mut out = Out::new(alloc);
    out.number(i128::from(tally.rows));
    for func in [
        Func::Count,
        Func::Sum,
        Func::Min,
        Func::Max,
        Func::Spread,
        Func::First,
        Func::Last,
        Func::Avg,
    ] {
        out.push(b" ");
        push_cell(&mut out, &tally.cell(func));
    }
    Ok(out.text()?)
}

/// `aggregate TS.TABLE.VALUE ..`: how many rows there are, their COUNT, SUM, MIN, MAX, SPREAD, FIRST, LAST and AVG,
/// and of each place at which the rows can be cut whether the tallies of the two parts, merged either way round, show
/// another.
pub(crate) fn push_aggregates(out: &mut Out, alloc: Global, text: &str) -> Result<(), CaseFault> {
    let rows = rows_of(alloc, text)?;
    let pushed = push_aggregates_of(out, alloc, rows.as_slice());
    drop(rows);
    pushed
}

fn push_aggregates_of(out: &mut Out, alloc: Global, rows: &[Row]) -> Result<(), CaseFault> {
    if rows.len() >= MOST_ROWS {
        return Err(CaseFault::Unread);
    }
    let whole = shown(alloc, &tally(rows))?;
    out.push(whole.as_slice());
    let pushed = push_cuts(out, alloc, rows, whole.as_slice());
    drop(whole);
    pushed
}

fn push_cuts(out: &mut Out, alloc: Global, rows: &[Row], whole: &[u8]) -> Result<(), CaseFault>
    requires { length rows.now < MOST_ROWS }
{
    for at in 0..rows.len() {
        push_cut(out, alloc, rows, at, whole)?;
    }
    Ok(())
}

// Says nothing where the tallies of the rows before a place and of those from there on, merged either way round, show
// this.
fn push_cut(
    out: &mut Out,
    alloc: Global,
    rows: &[Row],
    at: usize,
    whole: &[u8],
) -> Result<(), CaseFault>
    requires few { length rows.now < MOST_ROWS }
    requires inside { at < length rows.now }
{
    let (front, back) = rows.split_at(at);
    let (front, back) = (tally(front), tally(back));
    let merged = shows(alloc, &front.merge(&back), whole)?;
    let turned = shows(alloc, &back.merge(&front), whole)?;
    if !(merged && turned) {
        out.push(b" another at ");
        out.number(at as i128);
    }
    Ok(())
}

// Whether a tally shows this.
fn shows(alloc: Global, tally: &Tally, whole: &[u8]) -> Result<bool, CaseFault>
    requires { IsSound tally.now }
{
    let text = shown(alloc, tally)?;
    let same = text.as_slice() == whole;
    drop(text);
    Ok(same)
}
