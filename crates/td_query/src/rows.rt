//! The rows of a group, by timestamp and then by table.
ghost use Rattle.std.specs.Prelude.{◌≡◌, ◌∷◌, [], map, IfOk, OnOk};
ghost use Rattle.std.specs.List.Sorted.{IsNonDecreasing};
ghost use Rattle.td_verdict.specs.Groups.{put_rows};
ghost use Rattle.td_query.specs.Planned.{keyed};
ghost use Rattle.td_query.specs.Read.{key_of, keyed_rows, time_of, listed, is_wanted, wanted_from};

use crate::cells::{Line, all_hold};
use crate::tables::Table;
use std::alloc::Global;
use std::collections::BTreeMap;
use td_layer::{Key, NoMem, Row, Seq};
use td_model::Plan;
use td_verdict::Comparison;

/// A row's timestamp, in milliseconds since 1970, and its table, by number. They are ordered by timestamp, then by
/// table.
#[derive(Clone, Copy, PartialEq, Eq, PartialOrd, Ord)]
pub(crate) struct TimeKey {
    pub(crate) ts: u64,
    pub(crate) table: u32,
}

/// Rows by timestamp, then by table.
pub(crate) type Sorted = BTreeMap<TimeKey, Row>;

/// Whether a row of a table lies in the plan's range of timestamps, and all comparisons are true of it.
pub(crate) fn is_wanted(
    plan: &Plan,
    comparisons: &[Comparison],
    table: &Table<'_>,
    ts: u64,
    row: &Row,
) -> bool
    ensures { result ≡ is_wanted plan.now.schema.columns comparisons.now plan.now.lo plan.now.hi (listed table.now)
        (keyed table.now.number (ts, row.now)) }
{
    let line = Line {
        name: table.name,
        tags: table.tags,
        ts,
        values: &row.values,
    };
    plan.lo <= ts && ts <= plan.hi && all_hold(plan.schema.columns.as_slice(), &line, comparisons)
}

// Puts a row of a table among others, if it is wanted.
fn put_wanted(
    plan: &Plan,
    comparisons: &[Comparison],
    table: &Table<'_>,
    found: (u64, Row),
    rows: &mut Sorted,
) -> Result<(), NoMem>
    ensures { OnOk result (keyed_rows rows.new.entries
        ≡ put_rows (keyed_rows rows.old.entries)
        (wanted_from plan.now.schema.columns comparisons.now plan.now.lo plan.now.hi (listed table.now) (found ∷ []))) }
{
    let (ts, row) = found;
    if is_wanted(plan, comparisons, table, ts, &row) {
        let key = TimeKey {
            ts,
            table: table.number,
        };
        rows.insert(key, row)?;
    }
    Ok(())
}

/// Puts the rows of a table that are wanted among others.
pub(crate) fn put_table(
    plan: &Plan,
    comparisons: &[Comparison],
    table: &Table<'_>,
    found: Seq<(u64, Row)>,
    rows: &mut Sorted,
) -> Result<(), NoMem>
    ensures { OnOk result (keyed_rows rows.new.entries
        ≡ put_rows (keyed_rows rows.old.entries)
        (wanted_from plan.now.schema.columns comparisons.now plan.now.lo plan.now.hi (listed table.now) found)) }
{
    let mut left = found;
    'rows: while let Some(row) = left.pop() {
        put_wanted(plan, comparisons, table, row, rows)?;
    }
    Ok(())
}

// Rows with their keys, in their order.
fn with_keys(alloc: Global, room: usize, rows: Sorted) -> Result<Seq<(Key, Row)>, NoMem>
    ensures { IfOk result (λ all. all ≡ keyed_rows rows.entries) }
{
    let mut all = Vec::with_capacity(alloc, room)?;
    'rows: for (key, row) in rows {
        let key = Key {
            table: key.table,
            ts: key.ts,
        };
        all.push((key, row))?;
    }
    Ok(Seq::from_vec(alloc, all))
}

/// Rows with their keys, in their order.
pub(crate) fn into_rows(alloc: Global, rows: Sorted) -> Result<Seq<(Key, Row)>, NoMem>
    ensures same { IfOk result (λ all. all ≡ keyed_rows rows.entries) }
    ensures in_order { IfOk result (λ all. IsNonDecreasing (map time_of all)) }
{
    let room = rows.len();
    let all = with_keys(alloc, room, rows)?;
    Ok(all)
}
