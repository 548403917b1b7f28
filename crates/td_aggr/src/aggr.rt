//! What can be made of single rows, merged, and asked for aggregates.
ghost use Rattle.std.specs.Prelude.{◌≡◌, List, [], ◌∷◌, ◌++◌};
ghost use Rattle.td_layer.specs.declared.values.Key.{Key as RowKey};
ghost use Rattle.td_layer.specs.declared.values.Value.{Value as RowValue};
ghost use Rattle.td_layer.specs.declared.values.Func.{Func as Aggregate};
ghost use Rattle.td_layer.specs.declared.values.Cell.{Cell as Shown};
ghost use Rattle.td_layer.specs.Columns.{IsColumnValue};
ghost use Rattle.td_aggr.specs.Aggregates.{aggregate};

use td_layer::{Cell, Func, Key, Value};

/// A summary of rows in one column, for which every aggregate of these rows can be asked.
///
/// Its meanings are the summary of no row, of one row, and of two summaries together; the cell that it shows as an
/// aggregate; and which summaries are sound, and small enough to be merged. Its laws say that merging is associative
/// with the summary of no row as its unit, and that the summary of a list, merged of those of its rows in any
/// grouping, shows the aggregates of the list.
pub trait Aggr: Sized {
    ghost of_none: { Self };

    ghost of_row: { RowValue → RowKey → Self };

    ghost of_both: { Self → Self → Self };

    ghost of_rows: { List (RowKey × RowValue) → Self };

    ghost shows: { Self → Aggregate → Shown };

    ghost is_sound: { Self → Type 0 };

    ghost can_merge: { Self → Self → Type 0 };

    /// The summary of no row.
    fn unit() -> Self
        ensures value { result ≡ of_none }
        ensures sound { is_sound result };

    /// The summary of one row, of its value in the column and its key.
    fn one(v: Value, at: Key) -> Self
        requires { IsColumnValue v }
        ensures value { result ≡ of_row v at }
        ensures sound { is_sound result };

    /// The summary of the rows of both.
    fn merge(&self, other: &Self) -> Self
        requires left { is_sound self.now }
        requires right { is_sound other.now }
        requires room { can_merge self.now other.now }
        ensures value { result ≡ of_both self.now other.now }
        ensures sound { is_sound result };

    /// An aggregate of the rows.
    fn cell(&self, f: Func) -> Cell
        requires { is_sound self.now }
        ensures { result ≡ shows self.now f };

    ghost unit_left: { (a : Self) → of_both of_none a ≡ a };

    ghost unit_right: { (a : Self) → of_both a of_none ≡ a };

    ghost associative: { (a b c : Self) → of_both (of_both a b) c ≡ of_both a (of_both b c) };

    ghost of_no_rows: { of_rows [] ≡ of_none };

    ghost of_one_row: { (v : RowValue) (at : RowKey) → of_rows ((at, v) ∷ []) ≡ of_row v at };

    ghost of_joined_rows: { (xs ys : List (RowKey × RowValue))
        → of_rows (xs ++ ys) ≡ of_both (of_rows xs) (of_rows ys) };

    ghost shows_aggregates: { (f : Aggregate) (rows : List (RowKey × RowValue))
        → shows (of_rows rows) f ≡ aggregate f rows };
}
