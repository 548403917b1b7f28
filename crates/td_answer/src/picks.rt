//! The rows of a plan's tables of which all comparisons are true, by timestamp and then by table.
ghost use Rattle.std.specs.Prelude.{◌≡◌, map, slice_get, IfOk, OnOk};
ghost use Rattle.std.specs.Option.{option_map};
ghost use Rattle.td_verdict.specs.Answers.{put_in_time, ordered};
ghost use Rattle.td_answer.specs.Lines.{line_cells};
ghost use Rattle.td_answer.specs.Picks.{key_of, keyed, put_held, listed, tables_of, table_found, plan_found};

use crate::cells::{Line, all_hold};
use crate::shown::in_order;
use std::alloc::Global;
use std::collections::BTreeMap;
use td_layer::{Cell, Name, NoMem, Seq};
use td_model::{Column, OrderBy, Plan};
use td_rows::RowsByKey;
use td_verdict::Comparison;

// A row's timestamp, in milliseconds since 1970, and its table, by number. They are ordered by timestamp, then by
// table.
#[derive(Clone, Copy, PartialEq, Eq, PartialOrd, Ord)]
pub(crate) struct TimeKey {
    ts: u64,
    table: u32,
}

// Rows that are lent, in the order of an answer.
pub(crate) type Picked<'a> = BTreeMap<TimeKey, Line<'a>>;

// A table that is read.
#[derive(Clone, Copy)]
pub(crate) struct Table<'a> {
    pub(crate) number: u32,
    pub(crate) name: &'a Name,
    pub(crate) tags: &'a Seq<Cell>,
}

// The table at a place of a plan's tables.
#[tactic(auto, using(crate::proofs::Lists::get_listed))]
pub(crate) fn table_at(plan: &Plan, at: usize) -> Option<Table<'_>>
    ensures { option_map listed result ≡ slice_get (tables_of plan.now) at }
{
    match (plan.tables.get(at), plan.names.get(at), plan.tags.get(at)) {
        (Some(number), Some(name), Some(tags)) => Some(Table {
            number: *number,
            name,
            tags,
        }),
        _ => None,
    }
}

// Puts a row among others, where all comparisons are true of it.
fn put_held<'a>(
    columns: &[Column],
    comparisons: &[Comparison],
    key: TimeKey,
    line: Line<'a>,
    picked: &mut Picked<'a>,
) -> Result<(), NoMem>
    ensures { OnOk result (keyed columns.now picked.new.entries
        ≡ put_held comparisons.now (keyed columns.now picked.old.entries)
        (key_of key, line_cells columns.now line.entry)) }
{
    if all_hold(columns, &line, comparisons) {
        picked.insert(key, line)?;
    }
    Ok(())
}

// Picks from the rows of a table that a plan reads.
fn pick_table<'a, M: RowsByKey>(
    plan: &Plan,
    comparisons: &[Comparison],
    table: &Table<'a>,
    rows: &'a M,
    picked: &mut Picked<'a>,
) -> Result<(), NoMem>
    ensures { OnOk result (keyed plan.now.schema.columns picked.new.entries
        ≡ put_in_time (keyed plan.now.schema.columns picked.old.entries)
        (table_found plan.now comparisons.now (M.rows rows.now) (listed table.now))) }
{
    let columns = plan.schema.columns.as_slice();
    for (key, row) in rows.range(table.number, plan.lo, plan.hi) {
        let line = Line {
            name: table.name,
            tags: table.tags,
            ts: key.ts,
            values: &row.values,
        };
        let key = TimeKey {
            ts: key.ts,
            table: table.number,
        };
        put_held(columns, comparisons, key, line, picked)?;
    }
    Ok(())
}

// Picks from the rows of all tables that a plan reads.
pub(crate) fn pick_all<'a, M: RowsByKey>(
    alloc: Global,
    plan: &'a Plan,
    comparisons: &[Comparison],
    rows: &'a M,
) -> Result<Picked<'a>, NoMem>
    ensures { IfOk result (λ picked. keyed plan.now.schema.columns picked.entries
        ≡ plan_found plan.now comparisons.now (M.rows rows.now)) }
{
    let mut picked = BTreeMap::new(alloc);
    for at in 0..plan.tables.len() {
        if let Some(table) = table_at(plan, at) {
            pick_table(plan, comparisons, &table, rows, &mut picked)?;
        }
    }
    Ok(picked)
}

// Picked rows in the order of an answer.
pub(crate) fn lines_of<'a>(
    alloc: Global,
    order: &OrderBy,
    picked: Picked<'a>,
) -> Result<Vec<Line<'a>>, NoMem>
    ensures { IfOk result (λ all. all.items ≡ ordered order.now (map (λ e. e.1) picked.entry.entries)) }
{
    let all: Vec<Line<'a>> = picked.into_values().collect(alloc)?;
    Ok(in_order(order, all))
}
