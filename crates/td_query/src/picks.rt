//! The rows that a row query picks, by timestamp and then by table.
ghost use Rattle.std.specs.Prelude.{◌≡◌, ◌≤◌, ◌+◌, ◌∷◌, [], ℕ, IfOk, IfSome, OnOk, map, reverse};
ghost use Rattle.td_layer.specs.Scans.{HasScanCause};
ghost use Rattle.td_verdict.specs.Answers.{put_in_time, is_desc, ordered};
ghost use Rattle.td_query.specs.Planned.{found_in, found_of};
ghost use Rattle.td_query.specs.Planned.{tables_of};
ghost use Rattle.td_query.specs.Picks.{found_rows, wanted_found};
ghost use Rattle.td_query.specs.Read.{listed, held_by};

use crate::rows::{TimeKey, is_wanted};
use crate::tables::{Table, table_at};
use std::alloc::Global;
use std::collections::BTreeMap;
use std::sync::ledger::Ledger;
use td_layer::{Cell, Name, NoMem, Row, ScanFault, Seq, Snapshot, Steps};
use td_model::{OrderBy, Plan};
use td_verdict::Comparison;

/// A row that was picked: its table's name and tags, which are lent, its timestamp, and itself.
#[derive(Drop)]
pub(crate) struct Picked<'a> {
    pub(crate) name: &'a Name,
    pub(crate) tags: &'a Seq<Cell>,
    pub(crate) ts: u64,
    pub(crate) row: Row,
}

/// Rows that were picked, by timestamp, then by table.
pub(crate) type PickedRows<'a> = BTreeMap<TimeKey, Picked<'a>>;

// Puts a row of a table among others, if it is wanted.
fn put_picked<'a>(
    plan: &Plan,
    comparisons: &[Comparison],
    table: &Table<'a>,
    found: (u64, Row),
    picked: &mut PickedRows<'a>,
) -> Result<(), NoMem>
    ensures { OnOk result (found_rows plan.now.schema.columns picked.new.entries
        ≡ put_in_time (found_rows plan.now.schema.columns picked.old.entries)
        (wanted_found plan.now.schema.columns comparisons.now plan.now.lo plan.now.hi (listed table.now)
        (found ∷ []))) }
{
    let (ts, row) = found;
    if is_wanted(plan, comparisons, table, ts, &row) {
        let key = TimeKey {
            ts,
            table: table.number,
        };
        let picked_row = Picked {
            name: table.name,
            tags: table.tags,
            ts,
            row,
        };
        picked.insert(key, picked_row)?;
    }
    Ok(())
}

// Rows, the last first.
fn reversed(alloc: Global, rows: Seq<(u64, Row)>) -> Result<Vec<(u64, Row)>, NoMem>
    ensures { IfOk result (λ all. all.items ≡ reverse rows) }
{
    let mut all = Vec::with_capacity(alloc, rows.len())?;
    let mut left = rows;
    'rows: while let Some(row) = left.pop() {
        all.push(row)?;
    }
    Ok(all)
}

// Puts the rows of a table that are wanted among others, one by one.
fn pick_table<'a>(
    alloc: Global,
    plan: &Plan,
    comparisons: &[Comparison],
    table: &Table<'a>,
    found: Seq<(u64, Row)>,
    picked: &mut PickedRows<'a>,
) -> Result<(), NoMem>
    ensures { OnOk result (found_rows plan.now.schema.columns picked.new.entries
        ≡ put_in_time (found_rows plan.now.schema.columns picked.old.entries)
        (wanted_found plan.now.schema.columns comparisons.now plan.now.lo plan.now.hi (listed table.now) found)) }
{
    let mut left = reversed(alloc, found)?;
    'rows: while let Some(row) = left.pop() {
        put_picked(plan, comparisons, table, row, picked)?;
    }
    Ok(())
}

// Reads the rows of a table and puts those that are wanted among others.
fn read_picked<'a, Q: Snapshot, L: Ledger>(
    alloc: Global,
    plan: &Plan,
    comparisons: &[Comparison],
    table: &Table<'a>,
    snap: &mut Q,
    steps: &mut Steps<L>,
    picked: &mut PickedRows<'a>,
) -> Result<(), ScanFault>
    ensures found { OnOk result (IfSome (Q.rows snap.old)
        (λ all. found_rows plan.now.schema.columns picked.new.entries
        ≡ put_in_time (found_rows plan.now.schema.columns picked.old.entries)
        (found_in plan.now comparisons.now all (listed table.now)))) }
    ensures rows { Q.rows snap.new ≡ Q.rows snap.old }
    ensures held { (t l h : ℕ) → Q.held snap.new t l h ≡ Q.held snap.old t l h }
    ensures damaged { Q.damaged snap.new ≡ Q.damaged snap.old }
    ensures fault { HasScanCause (Q.damaged snap.old) (Q.count snap.old) (Q.count snap.new) result }
    ensures most_steps { IfSome (Q.held snap.old table.now.number plan.now.lo plan.now.hi)
        (λ n. steps.new ≤ steps.old + n) }
{
    let found = snap.rows_of(table.number, plan.lo, plan.hi, steps)?;
    pick_table(alloc, plan, comparisons, table, found, picked)?;
    Ok(())
}

/// The rows of the tables of a plan of which all comparisons are true, by timestamp, then by table. It reads each table
/// of the plan once.
pub(crate) fn pick_all<'a, Q: Snapshot, L: Ledger>(
    alloc: Global,
    plan: &'a Plan,
    comparisons: &[Comparison],
    snap: &mut Q,
    steps: &mut Steps<L>,
) -> Result<PickedRows<'a>, ScanFault>
    ensures found { IfOk result (λ picked. IfSome (Q.rows snap.old)
        (λ all. found_rows plan.now.schema.columns picked.entries ≡ found_of plan.now comparisons.now all)) }
    ensures rows { Q.rows snap.new ≡ Q.rows snap.old }
    ensures held { (t l h : ℕ) → Q.held snap.new t l h ≡ Q.held snap.old t l h }
    ensures damaged { Q.damaged snap.new ≡ Q.damaged snap.old }
    ensures fault { HasScanCause (Q.damaged snap.old) (Q.count snap.old) (Q.count snap.new) result }
    ensures most_steps { IfSome (held_by (Q.held snap.old) plan.now.lo plan.now.hi (tables_of plan.now))
        (λ n. steps.new ≤ steps.old + n) }
{
    let mut picked = BTreeMap::new(alloc);
    'tables: for at in 0..plan.tables.len() {
        if let Some(table) = table_at(plan, at) {
            read_picked(alloc, plan, comparisons, &table, snap, steps, &mut picked)?;
        }
    }
    Ok(picked)
}

fn is_desc(order: &OrderBy) -> bool
    ensures { result ≡ is_desc order.now }
{
    matches!(order, OrderBy::Desc(_))
}

/// Rows in the order of an answer.
pub(crate) fn in_order<'a>(
    alloc: Global,
    order: &OrderBy,
    picked: PickedRows<'a>,
) -> Result<Vec<Picked<'a>>, NoMem>
    ensures { IfOk result (λ all. all.items ≡ ordered order.now (map (λ e. e.1) picked.entry.entries)) }
{
    let mut all: Vec<Picked<'a>> = picked.into_values().collect(alloc)?;
    if is_desc(order) {
        all.reverse();
    }
    Ok(all)
}
