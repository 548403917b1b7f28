//! The tally of a column, which serves every aggregate.
ghost use Rattle.std.specs.Prelude.{◌≡◌};
ghost use Rattle.td_aggr.specs.Tallies.{lesser, greater, earlier, later, cell_of_value, cell_of_range, cell_of_mark, unless_none, IsSound, Fit, empty_tally, tally_of_row, tally_of, merged, shown, key_of};
ghost use Rattle.td_layer.specs.Columns.{IsColumnValue};
ghost use Rattle.td_aggr.specs.Aggregates.{is_before};
ghost use Rattle.td_aggr.specs.Laws as laws;

use crate::aggr::Aggr;
use td_layer::{Cell, Func, Key, Value};

/// What is kept of rows: how many there are, how many of them have a number in the column, the sum of these numbers,
/// the least and the greatest, and the earliest and the latest in the order of rows, each with its timestamp in
/// milliseconds and its table.
///
/// The fields can be set by anyone, so what merges or reads a tally has the condition that it is sound: its numbers lie
/// from -2^63 to 2^64 - 1, and its sum between -2^64 and 2^64 times its count. What is given is sound. Two tallies can
/// be merged where their rows, and their counts, add up to less than 2^62.
#[derive(Clone, Copy, Debug, PartialEq, Eq)]
pub struct Tally {
    pub rows: u64,
    pub count: u64,
    pub sum: i128,
    pub min: Value,
    pub max: Value,
    pub first: Option<(u64, u32, i128)>,
    pub last: Option<(u64, u32, i128)>,
}

/// A number with its timestamp and table.
type Mark = (u64, u32, i128);

impl Aggr for Tally {
    ghost of_none = { empty_tally };

    ghost of_row = { tally_of_row };

    ghost of_both = { merged };

    ghost of_rows = { tally_of };

    ghost shows = { shown };

    ghost is_sound = { IsSound };

    ghost can_merge = { Fit };

    ghost unit_left = { laws.unit_left };

    ghost unit_right = { laws.unit_right };

    ghost associative = { laws.associative };

    ghost of_no_rows = { laws.of_no_rows };

    ghost of_one_row = { laws.of_one_row };

    ghost of_joined_rows = { laws.of_joined_rows };

    ghost shows_aggregates = { laws.shows_aggregates };

    fn unit() -> Tally {
        Tally {
            rows: 0,
            count: 0,
            sum: 0,
            min: Value::Null,
            max: Value::Null,
            first: None,
            last: None,
        }
    }

    fn one(v: Value, at: Key) -> Tally {
        let nothing = Tally::unit();
        match v {
            Value::Null => Tally { rows: 1, ..nothing },
            Value::Num(n) => Tally {
                rows: 1,
                count: 1,
                sum: n,
                min: v,
                max: v,
                first: Some((at.ts, at.table, n)),
                last: Some((at.ts, at.table, n)),
            },
        }
    }

    fn merge(&self, other: &Tally) -> Tally {
        Tally {
            rows: self.rows + other.rows,
            count: self.count + other.count,
            sum: self.sum + other.sum,
            min: lesser(self.min, other.min),
            max: greater(self.max, other.max),
            first: earlier(self.first, other.first),
            last: later(self.last, other.last),
        }
    }

    fn cell(&self, f: Func) -> Cell {
        match f {
            Func::Count => Cell::Num(self.count as i128),
            Func::Sum if self.count > 0 => Cell::Num(self.sum),
            Func::Avg if self.count > 0 => Cell::Frac {
                sum: self.sum,
                count: self.count,
            },
            Func::Sum | Func::Avg => Cell::Null,
            Func::Min => value_cell(self.min),
            Func::Max => value_cell(self.max),
            Func::Spread => range_cell(self.min, self.max),
            Func::First => mark_cell(self.first),
            Func::Last => mark_cell(self.last),
        }
    }
}

/// The lesser of two numbers, of which either may be missing.
fn lesser(a: Value, b: Value) -> Value
    ensures { result ≡ lesser a b }
{
    match (a, b) {
        (Value::Num(m), Value::Num(n)) => Value::Num(m.min(n)),
        (Value::Null, other) | (other, Value::Null) => other,
    }
}

/// The greater of two numbers, of which either may be missing.
fn greater(a: Value, b: Value) -> Value
    ensures { result ≡ greater a b }
{
    match (a, b) {
        (Value::Num(m), Value::Num(n)) => Value::Num(m.max(n)),
        (Value::Null, other) | (other, Value::Null) => other,
    }
}

/// The earlier of two marks, of which either may be missing; of two with one key the former.
fn earlier(a: Option<Mark>, b: Option<Mark>) -> Option<Mark>
    ensures { result ≡ earlier a b }
{
    match (a, b) {
        (Some(m), Some(n)) => Some(if stands_before(n, m) { n } else { m }),
        (None, other) | (other, None) => other,
    }
}

/// The later of two marks, of which either may be missing; of two with one key the latter.
fn later(a: Option<Mark>, b: Option<Mark>) -> Option<Mark>
    ensures { result ≡ later a b }
{
    match (a, b) {
        (Some(m), Some(n)) => Some(if stands_before(n, m) { m } else { n }),
        (None, other) | (other, None) => other,
    }
}

/// Whether one mark stands before another in the order of rows: by timestamp, then by table.
fn stands_before(m: Mark, n: Mark) -> bool
    ensures { result ≡ is_before (key_of m) (key_of n) }
{
    m.0 < n.0 || (m.0 == n.0 && m.1 < n.1)
}

fn value_cell(value: Value) -> Cell
    ensures { result ≡ cell_of_value value }
{
    match value {
        Value::Null => Cell::Null,
        Value::Num(n) => Cell::Num(n),
    }
}

fn range_cell(low: Value, high: Value) -> Cell
    requires low { IsColumnValue low }
    requires high { IsColumnValue high }
    ensures { result ≡ cell_of_range low high }
{
    match (low, high) {
        (Value::Num(m), Value::Num(n)) => Cell::Num(n - m),
        _ => Cell::Null,
    }
}

fn mark_cell(mark: Option<Mark>) -> Cell
    ensures { result ≡ cell_of_mark mark }
{
    match mark {
        None => Cell::Null,
        Some((_, _, n)) => Cell::Num(n),
    }
}
