//! The windows of a group, each with its cells.
ghost use Rattle.std.specs.Prelude.{◌≡◌, [], IfOk, OnOk, OnErr, All, length, map, false};
ghost use Rattle.std.specs.List.Sorted.{IsNonDecreasing};
ghost use Rattle.td_window.specs.Spans.{time_of};
ghost use Rattle.td_verdict.specs.Answered.{window_row, window_rows};
ghost use Rattle.td_query.specs.Cuts.{window_of_cut, window_of_span, AreSound, IsAmong};
ghost use Rattle.td_query.specs.Gathered.{grouped_of, IsReady};
ghost use Rattle.td_verdict.specs.Refusals.{has_bad_bounds};

use crate::columns::Kept;
use crate::cutters::{Cutter, Intervals, Sessions, States, Whole};
use crate::gathering::Group;
use crate::items::{Cut, cut_at, window_cells};
use std::alloc::Global;
use td_fields::place_of;
use td_layer::{Cell, Copied, Key, NoMem, Row, Seq};
use td_model::{Plan, WinKey, WinRow, WindowDef};
use td_window::Span;

// So many rows, or more, no memory holds. Aggregates are taken of fewer.
const TOO_MANY_ROWS: usize = 1 << 62;

// The row of a window of a group.
fn window_row(
    alloc: Global,
    plan: &Plan,
    part: &Seq<Cell>,
    window: &Cut<'_>,
) -> Result<WinRow, NoMem>
    requires { AreSound window.now.rows.now }
    ensures { IfOk result (λ row. row ≡ window_row plan.now.schema.columns plan.now.query part.now
        (window_of_cut window.now)) }
{
    let cells = window_cells(alloc, plan, plan.query.items.as_slice(), part, window)?;
    let part = part.copy()?;
    let key = WinKey {
        part,
        start: window.start,
    };
    Ok(WinRow {
        key,
        end: window.end,
        cells,
    })
}

// The rows of the windows of spans.
fn span_rows(
    alloc: Global,
    plan: &Plan,
    part: &Seq<Cell>,
    kept: Kept,
    rows: &[(Key, Row)],
    spans: &[Span],
) -> Result<Seq<WinRow>, NoMem>
    requires among { All (IsAmong (length rows.now)) spans.now }
    requires sound { AreSound rows.now }
    ensures { IfOk result (λ all. all ≡ map (window_row plan.now.schema.columns plan.now.query part.now)
        (map (window_of_span kept rows.now) spans.now)) }
{
    let mut all = Seq::new(alloc);
    'spans: for span in spans {
        let window = cut_at(kept, rows, span);
        let row = window_row(alloc, plan, part, &window)?;
        all.add(row)?;
    }
    Ok(all)
}

// The rows of the windows that a cutter makes of the rows of a group.
fn rows_cut_by<C: Cutter>(
    alloc: Global,
    plan: &Plan,
    part: &Seq<Cell>,
    cutter: &C,
    rows: &[(Key, Row)],
) -> Result<Seq<WinRow>, NoMem>
    requires in_order { IsNonDecreasing (map time_of rows.now) }
    requires sound { AreSound rows.now }
    ensures { IfOk result (λ all. all ≡ map (window_row plan.now.schema.columns plan.now.query part.now)
        (C.windows cutter.now rows.now)) }
{
    let kept = cutter.kept();
    let spans = cutter.cut(alloc, rows)?;
    let all = span_rows(alloc, plan, part, kept, rows, spans.as_slice())?;
    Ok(all)
}

// The rows of the windows of a group.
fn window_rows(
    alloc: Global,
    plan: &Plan,
    part: &Seq<Cell>,
    rows: &[(Key, Row)],
) -> Result<Seq<WinRow>, NoMem>
    requires bounds { has_bad_bounds plan.now.query.window ≡ false }
    requires in_order { IsNonDecreasing (map time_of rows.now) }
    requires sound { AreSound rows.now }
    ensures { IfOk result (λ all. all ≡ window_rows plan.now.schema.columns plan.now.query
        (record { part = part.now; rows = rows.now })) }
{
    match &plan.query.window {
        WindowDef::Whole => {
            let all = rows_cut_by(alloc, plan, part, &Whole, rows)?;
            Ok(all)
        }
        WindowDef::Interval { len, offset, slide } => {
            let intervals = Intervals {
                len: *len,
                offset: *offset,
                slide: *slide,
            };
            let all = rows_cut_by(alloc, plan, part, &intervals, rows)?;
            Ok(all)
        }
        WindowDef::Session { tol, .. } => {
            let all = rows_cut_by(alloc, plan, part, &Sessions { tol: *tol }, rows)?;
            Ok(all)
        }
        WindowDef::State { column } => {
            let place = place_of(plan.schema.columns.as_slice(), column);
            let all = rows_cut_by(alloc, plan, part, &States { place }, rows)?;
            Ok(all)
        }
    }
}

/// Cuts the rows of a group into the windows of a plan, and gives the group a row for each window, by their starts: its
/// part, where it starts and ends, and the cells of the select list. Without a window clause all rows are one window,
/// from 0 to 0, also where there is none; otherwise each window holds a row. The group's part and rows stay. It takes a
/// plan whose interval has durations in their bounds. `Err(NoMem)` is want of memory, and then the group has no
/// windows; 2^62 rows or more, which no memory holds, count as that.
pub fn finish(alloc: Global, plan: &Plan, group: &mut Group) -> Result<(), NoMem>
    requires bounds { has_bad_bounds plan.now.query.window ≡ false }
    requires ready { IsReady group.old }
    ensures part { group.new.part ≡ group.old.part }
    ensures rows { group.new.rows ≡ group.old.rows }
    ensures windows { OnOk result (group.new.windows
        ≡ window_rows plan.now.schema.columns plan.now.query (grouped_of group.old)) }
    ensures none { OnErr result (group.new.windows ≡ []) }
{
    group.windows = Seq::new(alloc);
    if group.rows.len() >= TOO_MANY_ROWS {
        return Err(NoMem);
    }
    let windows = window_rows(alloc, plan, &group.part, group.rows.as_slice())?;
    group.windows = windows;
    Ok(())
}
