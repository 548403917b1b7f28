//! The groups of a plan over a snapshot.
ghost use Rattle.std.specs.Prelude.{◌≡◌, ◌≤◌, ◌+◌, ◌++◌, ◌∷◌, [], ℕ, IfOk, IfSome, OnOk, All, map, filter};
ghost use Rattle.td_layer.specs.Scans.{HasScanCause};
ghost use Rattle.td_verdict.specs.Fields.{comparisons_of};
ghost use Rattle.td_verdict.specs.Groups.{put_group, put_tables, has_one_group, first_groups, is_shown};
ghost use Rattle.td_query.specs.Planned.{tables_of, picked_in, groups_of};
ghost use Rattle.td_limits.specs.declared.limits.TheConstants.{LAST_TIMESTAMP};
ghost use Rattle.td_query.specs.Read.{grouped, all_grouped, listed, held_by, AreGood};
ghost use Rattle.td_query.specs.Gathered.{without_windows, IsInOrder, IsReady};

use crate::groups::{Gathered, put_found};
use crate::rows::{Sorted, into_rows};
use crate::tables::{Table, table_at};
use std::alloc::Global;
use std::collections::BTreeMap;
use std::sync::ledger::Ledger;
use td_fields::comparisons;
use td_layer::{Cell, Key, NoMem, Row, ScanFault, Seq, Snapshot, Steps};
use td_model::{Plan, Query, WinRow, WindowDef};
use td_verdict::Comparison;

/// A group of rows: the cells of the PARTITION BY items; the rows that were picked of the tables that have these cells,
/// by timestamp, then by table; and its windows, once they were cut.
#[derive(Debug, Drop)]
pub struct Group {
    pub part: Seq<Cell>,
    pub rows: Seq<(Key, Row)>,
    pub windows: Seq<WinRow>,
}

// Reads the rows of a table and puts those that are wanted into the group of its partition.
fn read_table<Q: Snapshot, L: Ledger>(
    alloc: Global,
    plan: &Plan,
    comparisons: &[Comparison],
    table: &Table<'_>,
    snap: &mut Q,
    steps: &mut Steps<L>,
    groups: &mut Vec<Gathered<Sorted>>,
) -> Result<(), ScanFault>
    ensures found { OnOk result (IfSome (Q.rows snap.old)
        (λ all. all_grouped groups.new.items ≡ put_group table.now.part.now
        (picked_in plan.now comparisons.now all (listed table.now)) (all_grouped groups.old.items))) }
    ensures good { AreGood plan.now.hi (all_grouped groups.old.items)
        → OnOk result (AreGood plan.now.hi (all_grouped groups.new.items)) }
    ensures rows { Q.rows snap.new ≡ Q.rows snap.old }
    ensures held { (t l h : ℕ) → Q.held snap.new t l h ≡ Q.held snap.old t l h }
    ensures damaged { Q.damaged snap.new ≡ Q.damaged snap.old }
    ensures fault { HasScanCause (Q.damaged snap.old) (Q.count snap.old) (Q.count snap.new) result }
    ensures most_steps { IfSome (Q.held snap.old table.now.number plan.now.lo plan.now.hi)
        (λ n. steps.new ≤ steps.old + n) }
{
    let found = snap.rows_of(table.number, plan.lo, plan.hi, steps)?;
    put_found(alloc, plan, comparisons, table, found, groups)?;
    Ok(())
}

// Reads the rows of all tables of a plan and puts those that are wanted into the groups of their partitions.
fn read_tables<Q: Snapshot, L: Ledger>(
    alloc: Global,
    plan: &Plan,
    comparisons: &[Comparison],
    snap: &mut Q,
    steps: &mut Steps<L>,
    groups: &mut Vec<Gathered<Sorted>>,
) -> Result<(), ScanFault>
    ensures found { OnOk result (IfSome (Q.rows snap.old)
        (λ all. all_grouped groups.new.items ≡ put_tables (picked_in plan.now comparisons.now all)
        (all_grouped groups.old.items) (tables_of plan.now))) }
    ensures good { AreGood plan.now.hi (all_grouped groups.old.items)
        → OnOk result (AreGood plan.now.hi (all_grouped groups.new.items)) }
    ensures rows { Q.rows snap.new ≡ Q.rows snap.old }
    ensures held { (t l h : ℕ) → Q.held snap.new t l h ≡ Q.held snap.old t l h }
    ensures damaged { Q.damaged snap.new ≡ Q.damaged snap.old }
    ensures fault { HasScanCause (Q.damaged snap.old) (Q.count snap.old) (Q.count snap.new) result }
    ensures most_steps { IfSome (held_by (Q.held snap.old) plan.now.lo plan.now.hi (tables_of plan.now))
        (λ n. steps.new ≤ steps.old + n) }
{
    'tables: for at in 0..plan.tables.len() {
        if let Some(table) = table_at(plan, at) {
            read_table(alloc, plan, comparisons, &table, snap, steps, groups)?;
        }
    }
    Ok(())
}

/// Whether a query has neither a window nor PARTITION BY.
pub(crate) fn has_one_group(query: &Query) -> bool
    ensures { result ≡ has_one_group query.now }
{
    matches!(query.window, WindowDef::Whole) && query.parts.is_empty()
}

// The groups before any row: the one that is there without a window and PARTITION BY, or else none.
fn first_groups(alloc: Global, one: bool) -> Result<Vec<Gathered<Sorted>>, NoMem>
    ensures { IfOk result (λ groups. all_grouped groups.items ≡ first_groups one) }
{
    let mut groups = Vec::new(alloc);
    if one {
        let part = Seq::new(alloc);
        let kept = BTreeMap::new(alloc);
        groups.push(Gathered { part, kept })?;
    }
    Ok(groups)
}

// Adds a group to those that are shown, if it is.
fn add_group(
    alloc: Global,
    one: bool,
    group: Gathered<Sorted>,
    groups: &mut Seq<Group>,
) -> Result<(), NoMem>
    ensures same { OnOk result (groups.new ≡ groups.old
        ++ map without_windows (filter (is_shown one) (grouped group ∷ []))) }
    ensures in_order { All IsInOrder groups.old → OnOk result (All IsInOrder groups.new) }
{
    let Gathered { part, kept } = group;
    if one || !kept.is_empty() {
        let rows = into_rows(alloc, kept)?;
        let windows = Seq::new(alloc);
        groups.add(Group {
            part,
            rows,
            windows,
        })?;
    }
    Ok(())
}

// The groups that are shown: the only one, or those that hold a row.
fn shown_groups(
    alloc: Global,
    one: bool,
    gathered: Vec<Gathered<Sorted>>,
) -> Result<Seq<Group>, NoMem>
    ensures groups { IfOk result (λ groups. groups
        ≡ map without_windows (filter (is_shown one) (all_grouped gathered.items))) }
    ensures in_order { IfOk result (All IsInOrder) }
{
    let mut groups = Seq::new(alloc);
    'groups: for group in gathered {
        add_group(alloc, one, group, &mut groups)?;
    }
    Ok(groups)
}

/// The picked rows of a plan in groups, by the cells of the PARTITION BY items and in the order of these, without
/// windows yet. Only groups that hold a row are given; without a window and PARTITION BY there is exactly one, also
/// over no row. It reads each table of the plan once. The snapshot stands for what it stood for, also where a fault is
/// answered; the faults are those of [`Snapshot::rows_of`], and want of memory.
pub fn gather<Q: Snapshot, L: Ledger>(
    alloc: Global,
    plan: &Plan,
    snap: &mut Q,
    steps: &mut Steps<L>,
) -> Result<Seq<Group>, ScanFault>
    ensures groups { IfOk result (λ groups. IfSome (Q.rows snap.old)
        (λ all. groups ≡ map without_windows (groups_of plan.now
        (comparisons_of plan.now.schema plan.now.query.conds) all))) }
    ensures ready { plan.now.hi ≤ LAST_TIMESTAMP → IfOk result (All IsReady) }
    ensures rows { Q.rows snap.new ≡ Q.rows snap.old }
    ensures held { (t l h : ℕ) → Q.held snap.new t l h ≡ Q.held snap.old t l h }
    ensures damaged { Q.damaged snap.new ≡ Q.damaged snap.old }
    ensures fault { HasScanCause (Q.damaged snap.old) (Q.count snap.old) (Q.count snap.new) result }
    ensures most_steps { IfSome (held_by (Q.held snap.old) plan.now.lo plan.now.hi (tables_of plan.now))
        (λ n. steps.new ≤ steps.old + n) }
{
    let comparisons = comparisons(alloc, &plan.schema, plan.query.conds.as_slice())?;
    let one = has_one_group(&plan.query);
    let mut gathered = first_groups(alloc, one)?;
    read_tables(
        alloc,
        plan,
        comparisons.as_slice(),
        snap,
        steps,
        &mut gathered,
    )?;
    let groups = shown_groups(alloc, one, gathered)?;
    Ok(groups)
}
