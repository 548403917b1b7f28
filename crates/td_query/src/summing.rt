//! The sums of the rows of a group, by the ends of the windows that they lie in.
ghost use Rattle.std.specs.Prelude.{◌≡◌, ◌≤◌, ◌<◌, ◌+◌, ◌∷◌, ◌++◌, [], ℕ, true, Option, IfOk, OnOk, List, drop, length, min};
ghost use Rattle.std.specs.BTreeMap.{get};
ghost use Rattle.std.specs.List.{AllByRecursion};
ghost use Rattle.std.specs.Ordering.{nat_cmp};
ghost use Rattle.td_layer.specs.Columns.{AreColumnValues};
ghost use Rattle.td_limits.specs.declared.limits.TheConstants.{LAST_TIMESTAMP, LONGEST_DURATION};
ghost use Rattle.td_model.specs.State.{Rows};
ghost use Rattle.td_query.specs.Frames.{IsEnd, is_in_pane};
ghost use Rattle.td_query.specs.Sums.{sum_of};
ghost use Rattle.td_query.specs.Summed.{wanted_by, LiesIn, LieIn, laid_at, AreSums};
ghost use Rattle.td_verdict.specs.Windowed.{Keyed};

use crate::frames::{Frame, Pane};
use crate::rows::is_wanted;
use crate::sums::Sum;
use crate::tables::Table;
use std::alloc::Global;
use std::collections::BTreeMap;
use td_layer::{NoMem, Row};
use td_limits::LAST_TIMESTAMP;
use td_model::Plan;
use td_verdict::Comparison;

/// What is asked of rows: the plan and its conditions, the frame of its windows, and the places of the columns that
/// aggregates are asked of.
#[derive(Clone, Copy)]
pub(crate) struct Asked<'a> {
    pub(crate) plan: &'a Plan,
    pub(crate) comparisons: &'a [Comparison],
    pub(crate) frame: Frame,
    pub(crate) places: &'a [Option<usize>],
}

/// The sums of rows, by the ends of the windows that they lie in.
pub(crate) type Windows = BTreeMap<u64, Sum>;

// A timestamp, or the last of all where it is beyond that.
fn within_time(t: u64) -> u64
    ensures same { result ≡ min t LAST_TIMESTAMP }
    ensures in_range { result ≤ LAST_TIMESTAMP }
{
    t.min(LAST_TIMESTAMP)
}

// The place from which on all rows lie in a pane.
fn run_start(frame: Frame, pane: Pane, rows: &[(u64, Row)]) -> usize
    ensures inside { result ≤ length rows.now }
    ensures run { AllByRecursion (LiesIn frame pane) (drop result rows.now) }
{
    let mut at = rows.len();
    'rows: while at > 0 {
        if !frame.is_in_pane(pane, within_time(rows[at - 1].0)) {
            break;
        }
        at -= 1;
    }
    at
}

// Adds a row of a table to a sum, if it is wanted.
fn add_wanted(
    asked: &Asked<'_>,
    table: &Table<'_>,
    found: &(u64, Row),
    sum: &mut Sum,
) -> Result<(), NoMem>
    requires time { asked.now.plan.now.hi ≤ LAST_TIMESTAMP }
    requires values { AreColumnValues found.now.1.values }
    ensures { (rows : List Keyed) → sum.old ≡ sum_of asked.now.places.now rows
        → OnOk result (sum.new ≡ sum_of asked.now.places.now (rows ++ wanted_by asked.now table.now (found.now ∷ []))) }
{
    let (ts, row) = found;
    if is_wanted(asked.plan, asked.comparisons, table, *ts, row) {
        sum.add(asked.places, table.number, *ts, row)?;
    }
    Ok(())
}

// The sum of the rows of a table that are wanted.
fn sum_run(
    alloc: Global,
    asked: &Asked<'_>,
    table: &Table<'_>,
    run: &[(u64, Row)],
) -> Result<Sum, NoMem>
    requires time { asked.now.plan.now.hi ≤ LAST_TIMESTAMP }
    requires values { AllByRecursion (λ row. AreColumnValues row.1.values) run.now }
    ensures { IfOk result (λ sum. sum ≡ sum_of asked.now.places.now (wanted_by asked.now table.now run.now)) }
{
    let mut sum = Sum::none(alloc, asked.places)?;
    'rows: for found in run {
        add_wanted(asked, table, found, &mut sum)?;
    }
    Ok(sum)
}

// Puts the rows of a sum before those of the window that ends there.
fn put_sum(alloc: Global, windows: &mut Windows, end: u64, sum: &Sum) -> Result<(), NoMem>
    ensures { OnOk result ((q : ℕ) → get nat_cmp windows.new q ≡ laid_at sum.now windows.old end q) }
{
    match windows.get_mut(&end) {
        Some(there) => {
            there.join(sum)?;
            Ok(())
        }
        None => {
            let copy = sum.copy(alloc)?;
            windows.insert(end, copy)?;
            Ok(())
        }
    }
}

// Puts the rows of a sum, which lie in just the windows of a pane, before those of these windows.
fn put_pane(
    alloc: Global,
    frame: Frame,
    pane: Pane,
    sum: &Sum,
    windows: &mut Windows,
) -> Result<(), NoMem>
    requires first { IsEnd frame.phase frame.slide pane.first }
    requires last { IsEnd frame.phase frame.slide pane.last }
    requires in_range { pane.last ≤ LAST_TIMESTAMP + LONGEST_DURATION }
    ensures { OnOk result ((places : List (Option ℕ)) (run rows : List Keyed) → sum.now ≡ sum_of places run
        → LieIn frame pane run → AreSums frame places windows.old rows
        → AreSums frame places windows.new (run ++ rows)) }
{
    let mut end = pane.first;
    'ends: while end <= pane.last {
        put_sum(alloc, windows, end, sum)?;
        end += frame.slide;
    }
    Ok(())
}

/// Sums up the rows of a table that are wanted, each in the windows that it lies in, before the rows that were there.
pub(crate) fn sum_table(
    alloc: Global,
    asked: &Asked<'_>,
    table: &Table<'_>,
    found: &[(u64, Row)],
    windows: &mut Windows,
) -> Result<(), NoMem>
    requires time { asked.now.plan.now.hi ≤ LAST_TIMESTAMP }
    requires values { AllByRecursion (λ row. AreColumnValues row.1.values) found.now }
    ensures { (rows : List Keyed) → AreSums asked.now.frame asked.now.places.now windows.old rows
        → OnOk result (AreSums asked.now.frame asked.now.places.now windows.new
        (wanted_by asked.now table.now found.now ++ rows)) }
{
    let mut left = found;
    'runs: while let [rest @ .., last] = left {
        let pane = asked.frame.pane_at(within_time(last.0));
        let from = run_start(asked.frame, pane, rest);
        let sum = sum_run(alloc, asked, table, &left[from..])?;
        put_pane(alloc, asked.frame, pane, &sum, windows)?;
        left = &left[..from];
    }
    Ok(())
}
