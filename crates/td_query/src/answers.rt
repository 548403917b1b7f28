//! The answer of a plan over a snapshot.
ghost use Rattle.std.specs.Prelude.{◌≡◌, ◌≤◌, ◌<◌, ◌+◌, ◌^◌, ℕ, IfOk, IfSome, All, drop, take, map, reverse, length, true, false, Some};
ghost use Rattle.std.specs.List.{flat_map};
ghost use Rattle.td_layer.specs.Scans.{HasScanCause};
ghost use Rattle.td_limits.specs.declared.limits.TheConstants.{LAST_TIMESTAMP};
ghost use Rattle.td_model.specs.declared.language.Query.{Query as AQuery};
ghost use Rattle.td_model.specs.State.{State};
ghost use Rattle.td_verdict.specs.Answers.{answer_of, shown_places};
ghost use Rattle.td_verdict.specs.Fields.{comparisons_of};
ghost use Rattle.td_verdict.specs.Plans.{plan_of, reads_one};
ghost use Rattle.td_verdict.specs.Answered.{window_rows, answer_of_groups, answer};
ghost use Rattle.td_query.specs.Framed.{frame_numbers};
ghost use Rattle.td_query.specs.Frames.{frame_of};
ghost use Rattle.td_query.specs.Gathered.{grouped_of, IsReady};
ghost use Rattle.td_query.specs.Planned.{tables_of, groups_of, row_answer, plan_answer};
ghost use Rattle.td_query.specs.Picks.{found_rows};
ghost use Rattle.td_query.specs.Read.{held_by};
ghost use Rattle.td_verdict.specs.Refusals.{has_bad_bounds};
ghost use Rattle.td_verdict.specs.Sound.{IsSound};
ghost use Rattle.td_query.specs.Shown.{windows_in};
ghost use Rattle.td_query.specs.Totals.{rises};

use crate::arranging::arrange;
use crate::closing::close_all;
use crate::finishing::finish;
use crate::frames::Frame;
use crate::framing::frame_of;
use crate::gathering::{Group, gather, has_one_group};
use crate::picks::{PickedRows, in_order, pick_all};
use crate::shown::{part, shown_all};
use crate::slots::places_of;
use crate::summing::Asked;
use crate::totals::{rises, sum_tables};
use std::alloc::Global;
use std::sync::ledger::Ledger;
use td_fields::{comparisons, shown_places};
use td_layer::{Cell, NoMem, ScanFault, Seq, Snapshot, Steps};
use td_model::Plan;

// Groups with their windows, the last group first.
fn finished(alloc: Global, plan: &Plan, groups: Seq<Group>) -> Result<Vec<Group>, NoMem>
    requires bounds { has_bad_bounds plan.now.query.window ≡ false }
    requires ready { All IsReady groups }
    ensures { IfOk result (λ all. map windows_in (reverse all.items)
        ≡ map (λ g. window_rows plan.now.schema.columns plan.now.query (grouped_of g)) groups) }
{
    let mut all = Vec::with_capacity(alloc, groups.len())?;
    let mut left = groups;
    'groups: while let Some(group) = left.pop() {
        let mut group = group;
        finish(alloc, plan, &mut group)?;
        all.push(group)?;
    }
    Ok(all)
}

// Groups with their windows.
fn finish_all(alloc: Global, plan: &Plan, groups: Seq<Group>) -> Result<Seq<Group>, NoMem>
    requires bounds { has_bad_bounds plan.now.query.window ≡ false }
    requires ready { All IsReady groups }
    ensures { IfOk result (λ all. flat_map windows_in all
        ≡ flat_map (λ g. window_rows plan.now.schema.columns plan.now.query (grouped_of g)) groups) }
{
    let mut all = finished(alloc, plan, groups)?;
    all.reverse();
    Ok(Seq::from_vec(alloc, all))
}

// A part of the answer of a plan with an aggregate, a window or PARTITION BY, by the rows of its groups.
fn gathered_answer<Q: Snapshot, L: Ledger>(
    alloc: Global,
    plan: &Plan,
    snap: &mut Q,
    skip: u64,
    count: u64,
    steps: &mut Steps<L>,
) -> Result<Seq<Seq<Cell>>, ScanFault>
    requires time { plan.now.hi ≤ LAST_TIMESTAMP }
    requires bounds { has_bad_bounds plan.now.query.window ≡ false }
    ensures part { IfOk result (λ all. IfSome (Q.rows snap.old) (λ rows. all ≡ take count
        (drop skip (answer_of_groups plan.now.schema.columns plan.now.query
        (groups_of plan.now (comparisons_of plan.now.schema plan.now.query.conds) rows))))) }
    ensures few { IfOk result (λ _. IfSome (Q.rows snap.old)
        (λ rows. length (answer_of_groups plan.now.schema.columns plan.now.query
        (groups_of plan.now (comparisons_of plan.now.schema plan.now.query.conds) rows)) < 2 ^ 63)) }
    ensures rows { Q.rows snap.new ≡ Q.rows snap.old }
    ensures held { (t l h : ℕ) → Q.held snap.new t l h ≡ Q.held snap.old t l h }
    ensures damaged { Q.damaged snap.new ≡ Q.damaged snap.old }
    ensures fault { HasScanCause (Q.damaged snap.old) (Q.count snap.old) (Q.count snap.new) result }
    ensures most_steps { IfSome (held_by (Q.held snap.old) plan.now.lo plan.now.hi (tables_of plan.now))
        (λ n. steps.new ≤ steps.old + n) }
{
    let groups = gather(alloc, plan, snap, steps)?;
    let finished = finish_all(alloc, plan, groups)?;
    let all = arrange(alloc, plan, &finished, skip, count)?;
    Ok(all)
}

// A part of the answer of a plan with an aggregate or an interval, by the sums of the rows of its groups.
fn summed_answer<Q: Snapshot, L: Ledger>(
    alloc: Global,
    plan: &Plan,
    frame: Frame,
    snap: &mut Q,
    skip: u64,
    count: u64,
    steps: &mut Steps<L>,
) -> Result<Seq<Seq<Cell>>, ScanFault>
    requires time { plan.now.hi ≤ LAST_TIMESTAMP }
    requires framed { Some (frame_numbers frame) ≡ frame_of plan.now.query.window }
    requires once { rises plan.now.tables ≡ true }
    ensures part { IfOk result (λ all. IfSome (Q.rows snap.old) (λ rows. all ≡ take count
        (drop skip (answer_of_groups plan.now.schema.columns plan.now.query
        (groups_of plan.now (comparisons_of plan.now.schema plan.now.query.conds) rows))))) }
    ensures few { IfOk result (λ _. IfSome (Q.rows snap.old)
        (λ rows. length (answer_of_groups plan.now.schema.columns plan.now.query
        (groups_of plan.now (comparisons_of plan.now.schema plan.now.query.conds) rows)) < 2 ^ 63)) }
    ensures rows { Q.rows snap.new ≡ Q.rows snap.old }
    ensures held { (t l h : ℕ) → Q.held snap.new t l h ≡ Q.held snap.old t l h }
    ensures damaged { Q.damaged snap.new ≡ Q.damaged snap.old }
    ensures fault { HasScanCause (Q.damaged snap.old) (Q.count snap.old) (Q.count snap.new) result }
    ensures most_steps { IfSome (held_by (Q.held snap.old) plan.now.lo plan.now.hi (tables_of plan.now))
        (λ n. steps.new ≤ steps.old + n) }
{
    let columns = plan.schema.columns.as_slice();
    let comparisons = comparisons(alloc, &plan.schema, plan.query.conds.as_slice())?;
    let places = places_of(alloc, columns, plan.query.items.as_slice())?;
    let asked = Asked {
        plan,
        comparisons: comparisons.as_slice(),
        frame,
        places: places.as_slice(),
    };
    let one = has_one_group(&plan.query);
    let gathered = sum_tables(alloc, &asked, one, snap, steps)?;
    let groups = close_all(alloc, &asked, one, gathered)?;
    let all = arrange(alloc, plan, &groups, skip, count)?;
    Ok(all)
}

// A part of the answer of a plan with an aggregate, a window or PARTITION BY. Rows are summed up where they need not be
// kept: without a session or state window, and where no table is read twice.
fn windows_answer<Q: Snapshot, L: Ledger>(
    alloc: Global,
    plan: &Plan,
    snap: &mut Q,
    skip: u64,
    count: u64,
    steps: &mut Steps<L>,
) -> Result<Seq<Seq<Cell>>, ScanFault>
    requires time { plan.now.hi ≤ LAST_TIMESTAMP }
    requires bounds { has_bad_bounds plan.now.query.window ≡ false }
    ensures part { IfOk result (λ all. IfSome (Q.rows snap.old) (λ rows. all ≡ take count
        (drop skip (answer_of_groups plan.now.schema.columns plan.now.query
        (groups_of plan.now (comparisons_of plan.now.schema plan.now.query.conds) rows))))) }
    ensures few { IfOk result (λ _. IfSome (Q.rows snap.old)
        (λ rows. length (answer_of_groups plan.now.schema.columns plan.now.query
        (groups_of plan.now (comparisons_of plan.now.schema plan.now.query.conds) rows)) < 2 ^ 63)) }
    ensures rows { Q.rows snap.new ≡ Q.rows snap.old }
    ensures held { (t l h : ℕ) → Q.held snap.new t l h ≡ Q.held snap.old t l h }
    ensures damaged { Q.damaged snap.new ≡ Q.damaged snap.old }
    ensures fault { HasScanCause (Q.damaged snap.old) (Q.count snap.old) (Q.count snap.new) result }
    ensures most_steps { IfSome (held_by (Q.held snap.old) plan.now.lo plan.now.hi (tables_of plan.now))
        (λ n. steps.new ≤ steps.old + n) }
{
    match frame_of(&plan.query.window) {
        Some(frame) if rises(plan.tables.as_slice()) => {
            let all = summed_answer(alloc, plan, frame, snap, skip, count, steps)?;
            Ok(all)
        }
        _ => {
            let all = gathered_answer(alloc, plan, snap, skip, count, steps)?;
            Ok(all)
        }
    }
}

// A part of what is shown of rows that were picked.
fn picked_answer(
    alloc: Global,
    plan: &Plan,
    picked: PickedRows<'_>,
    skip: u64,
    count: u64,
) -> Result<Seq<Seq<Cell>>, NoMem>
    ensures part { IfOk result (λ all. all ≡ take count
        (drop skip (answer_of plan.now.query (shown_places (reads_one plan.now) plan.now.schema plan.now.query)
        (found_rows plan.now.schema.columns picked.entry.entries)))) }
    ensures few { IfOk result (λ _. length
        (answer_of plan.now.query (shown_places (reads_one plan.now) plan.now.schema plan.now.query)
        (found_rows plan.now.schema.columns picked.entry.entries)) < 2 ^ 63) }
{
    let places = shown_places(alloc, plan)?;
    let ordered = in_order(alloc, &plan.query.order, picked)?;
    let rows = part(&plan.query, ordered.as_slice(), skip, count);
    let columns = plan.schema.columns.as_slice();
    let all = shown_all(alloc, columns, places.as_slice(), rows)?;
    Ok(all)
}

// A part of the answer of the plan of a row query.
fn rows_answer<Q: Snapshot, L: Ledger>(
    alloc: Global,
    plan: &Plan,
    snap: &mut Q,
    skip: u64,
    count: u64,
    steps: &mut Steps<L>,
) -> Result<Seq<Seq<Cell>>, ScanFault>
    ensures part { IfOk result (λ all. IfSome (Q.rows snap.old) (λ rows. all ≡ take count
        (drop skip (row_answer plan.now (comparisons_of plan.now.schema plan.now.query.conds) rows)))) }
    ensures few { IfOk result (λ _. IfSome (Q.rows snap.old)
        (λ rows. length (row_answer plan.now (comparisons_of plan.now.schema plan.now.query.conds) rows) < 2 ^ 63)) }
    ensures rows { Q.rows snap.new ≡ Q.rows snap.old }
    ensures held { (t l h : ℕ) → Q.held snap.new t l h ≡ Q.held snap.old t l h }
    ensures damaged { Q.damaged snap.new ≡ Q.damaged snap.old }
    ensures fault { HasScanCause (Q.damaged snap.old) (Q.count snap.old) (Q.count snap.new) result }
    ensures most_steps { IfSome (held_by (Q.held snap.old) plan.now.lo plan.now.hi (tables_of plan.now))
        (λ n. steps.new ≤ steps.old + n) }
{
    let comparisons = comparisons(alloc, &plan.schema, plan.query.conds.as_slice())?;
    let picked = pick_all(alloc, plan, comparisons.as_slice(), snap, steps)?;
    let all = picked_answer(alloc, plan, picked, skip, count)?;
    Ok(all)
}

/// A part of the answer of a plan over a snapshot: of its rows, in their order, without the first `skip`, at most
/// `count`. A plan with an aggregate, a window or PARTITION BY answers a row for each window of each of its groups, by
/// the groups' cells and then by the windows' starts, or by ORDER BY; without a window a group is one row, and without
/// PARTITION BY there is one group, also over no row. A row query answers the rows that it picks, by timestamp, then by
/// table, or the reverse. Then come OFFSET and LIMIT, of which a negative number counts as 0.
///
/// Where the plan is that of a query in a sound state and the snapshot has the rows of that state, this is that part of
/// the query's answer there, which has fewer than 2^63 rows.
///
/// It reads each table of the plan once, and takes at most as many steps as the layers hold partials of these. The
/// plan's timestamps end in the range of time, and its interval has durations in their bounds. The snapshot stands for
/// what it stood for, also where a fault is answered; the faults are those of [`Snapshot::rows_of`], and `NoMemory`,
/// which is want of memory.
pub fn answer<Q: Snapshot, L: Ledger>(
    alloc: Global,
    plan: &Plan,
    snap: &mut Q,
    skip: u64,
    count: u64,
    steps: &mut Steps<L>,
) -> Result<Seq<Seq<Cell>>, ScanFault>
    requires time { plan.now.hi ≤ LAST_TIMESTAMP }
    requires bounds { has_bad_bounds plan.now.query.window ≡ false }
    ensures part { IfOk result (λ all. IfSome (Q.rows snap.old)
        (λ rows. all ≡ take count (drop skip (plan_answer plan.now rows)))) }
    ensures whole { (q : AQuery) (s : State) → IsSound s → plan.now ≡ plan_of q s.catalog
        → Q.rows snap.old ≡ Some s.rows → IfOk result (λ all. all ≡ take count (drop skip (answer q s))) }
    ensures few { (q : AQuery) (s : State) → IsSound s → plan.now ≡ plan_of q s.catalog
        → Q.rows snap.old ≡ Some s.rows → IfOk result (λ all. length (answer q s) < 2 ^ 63) }
    ensures rows { Q.rows snap.new ≡ Q.rows snap.old }
    ensures held { (t l h : ℕ) → Q.held snap.new t l h ≡ Q.held snap.old t l h }
    ensures damaged { Q.damaged snap.new ≡ Q.damaged snap.old }
    ensures fault { HasScanCause (Q.damaged snap.old) (Q.count snap.old) (Q.count snap.new) result }
    ensures most_steps { IfSome (held_by (Q.held snap.old) plan.now.lo plan.now.hi (tables_of plan.now))
        (λ n. steps.new ≤ steps.old + n) }
{
    if plan.query.is_row_query() {
        let all = rows_answer(alloc, plan, snap, skip, count, steps)?;
        return Ok(all);
    }
    let all = windows_answer(alloc, plan, snap, skip, count, steps)?;
    Ok(all)
}
