//! The groups of a plan with the sums of their rows in place of these.
ghost use Rattle.std.specs.Prelude.{◌≡◌, ◌≢◌, ◌≤◌, ◌+◌, ℕ, true, IfOk, IfSome, OnOk, List, Option};
ghost use Rattle.std.specs.List.{AllByRecursion};
ghost use Rattle.td_aggr.specs.Aggregates.{HaveOwnKeys};
ghost use Rattle.td_layer.specs.Columns.{AreColumnValues};
ghost use Rattle.td_layer.specs.Scans.{HasScanCause};
ghost use Rattle.td_limits.specs.declared.limits.TheConstants.{LAST_TIMESTAMP};
ghost use Rattle.td_query.specs.Planned.{tables_of, picked_in};
ghost use Rattle.td_query.specs.Read.{listed, held_by};
ghost use Rattle.td_query.specs.Summed.{wanted_by, AllGroups};
ghost use Rattle.td_query.specs.Totals.{AreSummed, rises};
ghost use Rattle.td_query.specs.declared.frames.Frame.{Frame};
ghost use Rattle.td_verdict.specs.Groups.{Grouped, first_groups, put_group, put_tables};

use crate::groups::{Gathered, group_for};
use crate::summing::{Asked, Windows, sum_table};
use crate::tables::{Table, table_at};
use std::alloc::Global;
use std::collections::BTreeMap;
use std::sync::ledger::Ledger;
use td_layer::{NoMem, Row, ScanFault, Seq, Snapshot, Steps};

/// Whether the numbers of tables rise, so that no table is read twice.
pub(crate) fn rises(tables: &[u32]) -> bool
    ensures { result ≡ rises tables.now }
{
    let mut left = tables;
    'tables: while let [first, second, ..] = left {
        if first >= second {
            return false;
        }
        left = &left[1..];
    }
    true
}

// Sums up the rows of a table that are wanted in the group of its partition.
fn put_sums(
    alloc: Global,
    asked: &Asked<'_>,
    table: &Table<'_>,
    found: &[(u64, Row)],
    groups: &mut Vec<Gathered<Windows>>,
) -> Result<(), NoMem>
    requires time { asked.now.plan.now.hi ≤ LAST_TIMESTAMP }
    requires values { AllByRecursion (λ row. AreColumnValues row.1.values) found.now }
    ensures { HaveOwnKeys (wanted_by asked.now table.now found.now) → (gs : List Grouped)
        → AllGroups (λ k. k.table ≢ table.now.number) gs
        → AreSummed asked.now.frame asked.now.places.now groups.old.items gs
        → OnOk result (AreSummed asked.now.frame asked.now.places.now groups.new.items
        (put_group table.now.part.now (wanted_by asked.now table.now found.now) gs)) }
{
    let at = group_for(groups, table.part, BTreeMap::new(alloc))?;
    let group = &mut groups[at];
    sum_table(alloc, asked, table, found, &mut group.kept)?;
    Ok(())
}

// Reads the rows of a table and sums up those that are wanted in the group of its partition.
fn sum_one<Q: Snapshot, L: Ledger>(
    alloc: Global,
    asked: &Asked<'_>,
    table: &Table<'_>,
    snap: &mut Q,
    steps: &mut Steps<L>,
    groups: &mut Vec<Gathered<Windows>>,
) -> Result<(), ScanFault>
    requires time { asked.now.plan.now.hi ≤ LAST_TIMESTAMP }
    ensures found { OnOk result (IfSome (Q.rows snap.old) (λ all. (gs : List Grouped)
        → AllGroups (λ k. k.table ≢ table.now.number) gs
        → AreSummed asked.now.frame asked.now.places.now groups.old.items gs
        → AreSummed asked.now.frame asked.now.places.now groups.new.items
        (put_group table.now.part.now (picked_in asked.now.plan.now asked.now.comparisons.now all (listed table.now)) gs))) }
    ensures rows { Q.rows snap.new ≡ Q.rows snap.old }
    ensures held { (t l h : ℕ) → Q.held snap.new t l h ≡ Q.held snap.old t l h }
    ensures damaged { Q.damaged snap.new ≡ Q.damaged snap.old }
    ensures fault { HasScanCause (Q.damaged snap.old) (Q.count snap.old) (Q.count snap.new) result }
    ensures most_steps { IfSome (Q.held snap.old table.now.number asked.now.plan.now.lo asked.now.plan.now.hi)
        (λ n. steps.new ≤ steps.old + n) }
{
    let found = snap.rows_of(table.number, asked.plan.lo, asked.plan.hi, steps)?;
    put_sums(alloc, asked, table, found.as_slice(), groups)?;
    Ok(())
}

// The groups before any row: the one that is there without a window and PARTITION BY, or else none.
fn first_sums(alloc: Global, one: bool) -> Result<Vec<Gathered<Windows>>, NoMem>
    ensures { IfOk result (λ groups. (f : Frame) (places : List (Option ℕ))
        → AreSummed f places groups.items (first_groups one)) }
{
    let mut groups = Vec::new(alloc);
    if one {
        let part = Seq::new(alloc);
        let kept = BTreeMap::new(alloc);
        groups.push(Gathered { part, kept })?;
    }
    Ok(groups)
}

/// The groups of the picked rows of a plan, by the cells of the PARTITION BY items and in the order of these, each with
/// the sums of its rows. It reads each table of the plan once, one after another.
pub(crate) fn sum_tables<Q: Snapshot, L: Ledger>(
    alloc: Global,
    asked: &Asked<'_>,
    one: bool,
    snap: &mut Q,
    steps: &mut Steps<L>,
) -> Result<Vec<Gathered<Windows>>, ScanFault>
    requires time { asked.now.plan.now.hi ≤ LAST_TIMESTAMP }
    requires once { rises asked.now.plan.now.tables ≡ true }
    ensures found { IfOk result (λ groups. IfSome (Q.rows snap.old) (λ all.
        AreSummed asked.now.frame asked.now.places.now groups.items
        (put_tables (picked_in asked.now.plan.now asked.now.comparisons.now all) (first_groups one)
        (tables_of asked.now.plan.now)))) }
    ensures rows { Q.rows snap.new ≡ Q.rows snap.old }
    ensures held { (t l h : ℕ) → Q.held snap.new t l h ≡ Q.held snap.old t l h }
    ensures damaged { Q.damaged snap.new ≡ Q.damaged snap.old }
    ensures fault { HasScanCause (Q.damaged snap.old) (Q.count snap.old) (Q.count snap.new) result }
    ensures most_steps { IfSome (held_by (Q.held snap.old) asked.now.plan.now.lo asked.now.plan.now.hi
        (tables_of asked.now.plan.now)) (λ n. steps.new ≤ steps.old + n) }
{
    let mut groups = first_sums(alloc, one)?;
    'tables: for at in 0..asked.plan.tables.len() {
        if let Some(table) = table_at(asked.plan, at) {
            sum_one(alloc, asked, &table, snap, steps, &mut groups)?;
        }
    }
    Ok(groups)
}
