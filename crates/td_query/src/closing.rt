//! The rows of the windows of a group whose rows are summed up.
ghost use Rattle.std.specs.Prelude.{◌≡◌, ◌≤◌, ◌+◌, ◌++◌, ◌∷◌, [], ℕ, pos, ◌-ℤ◌, min, IfOk, OnOk, List, Option, Some, map, filter, true, false, ◌||◌, ◌%◌, if◌then◌else◌};
ghost use Rattle.std.specs.BTreeMap.{BTreeMap};
ghost use Rattle.std.specs.List.{flat_map, AllByRecursion};
ghost use Rattle.td_limits.specs.declared.limits.TheConstants.{LAST_TIMESTAMP, LONGEST_DURATION};
ghost use Rattle.td_model.specs.Built.{is_whole};
ghost use Rattle.td_model.specs.declared.language.Item.{Item as AnItem};
ghost use Rattle.td_query.specs.Frames.{frame_of};
ghost use Rattle.td_query.specs.Closed.{IsHeld, windows_by_end};
ghost use Rattle.td_query.specs.Framed.{frame_numbers};
ghost use Rattle.td_query.specs.Shown.{windows_in};
ghost use Rattle.td_query.specs.Slots.{has_place, IsCovered, AreCovered, has_row, window_from};
ghost use Rattle.td_query.specs.Sums.{Sum as ASum, sum_of};
ghost use Rattle.td_query.specs.Summed.{AreSums, AllKeys, AllGroups, sum_at};
ghost use Rattle.td_query.specs.Totals.{IsSummed, AreSummed};
ghost use Rattle.td_verdict.specs.Answered.{window_row, window_rows};
ghost use Rattle.td_verdict.specs.Groups.{Grouped, has_one_group, is_shown, has_rows};
ghost use Rattle.td_verdict.specs.Windowed.{Keyed, item_cell, aggregate_cell, windows_of, interval_windows, whole_window};
ghost use Rattle.td_verdict.specs.Writes.{place_of};

use crate::columns::{cell_as, gives_truth};
use crate::gathering::Group;
use crate::groups::Gathered;
use crate::items::part_cell;
use crate::slots::slot_of;
use crate::summing::{Asked, Windows};
use crate::sums::Sum;
use std::alloc::Global;
use td_fields::place_of;
use td_layer::{Cell, Copied, Func, Name, NoMem, Seq};
use td_limits::{LAST_TIMESTAMP, LONGEST_DURATION};
use td_model::{Column, Item, ItemKind, WinKey, WinRow, WindowDef};

// No window ends later.
const LATEST_END: u64 = LAST_TIMESTAMP + LONGEST_DURATION;

// An aggregate of a column over the rows of a sum.
fn sum_cell(
    columns: &[Column],
    places: &[Option<usize>],
    func: Func,
    name: &Name,
    sum: &Sum,
) -> Cell
    requires covered { has_place (place_of columns.now name.now) places.now ≡ true }
    ensures { (rows : List Keyed) → sum.now ≡ sum_of places.now rows
        → result ≡ aggregate_cell columns.now func name.now rows }
{
    let slot = slot_of(place_of(columns, name), places);
    cell_as(gives_truth(columns, func, name), sum.cell(slot, func))
}

// The cell of an item for a window of a group.
fn item_cell(
    asked: &Asked<'_>,
    part: &Seq<Cell>,
    start: i64,
    end: i64,
    sum: &Sum,
    item: &ItemKind,
) -> Result<Cell, NoMem>
    requires covered { IsCovered asked.now.plan.now.schema.columns asked.now.places.now item.now }
    ensures { (rows : List Keyed) → sum.now ≡ sum_of asked.now.places.now rows → IfOk result (λ cell. cell
        ≡ item_cell asked.now.plan.now.schema.columns asked.now.plan.now.query.parts part.now
        (record { start = start; end = end; rows = rows }) item.now) }
{
    match item {
        ItemKind::WStart => Ok(Cell::Num(i128::from(start))),
        ItemKind::WEnd => Ok(Cell::Num(i128::from(end))),
        ItemKind::CountAll => Ok(Cell::Num(i128::from(sum.count()))),
        ItemKind::Fun(func, name) => {
            let columns = asked.plan.schema.columns.as_slice();
            Ok(sum_cell(columns, asked.places, *func, name, sum))
        }
        ItemKind::TbName | ItemKind::Col(_) => {
            let cell = part_cell(asked.plan.query.parts.as_slice(), part, item)?;
            Ok(cell)
        }
    }
}

// The cells of the select list for a window of a group.
fn sum_cells(
    alloc: Global,
    asked: &Asked<'_>,
    items: &[Item],
    part: &Seq<Cell>,
    start: i64,
    end: i64,
    sum: &Sum,
) -> Result<Seq<Cell>, NoMem>
    requires covered { AreCovered asked.now.plan.now.schema.columns asked.now.places.now items.now }
    ensures { (rows : List Keyed) → sum.now ≡ sum_of asked.now.places.now rows → IfOk result (λ cells. cells
        ≡ map (λ (i : AnItem). item_cell asked.now.plan.now.schema.columns asked.now.plan.now.query.parts part.now
        (record { start = start; end = end; rows = rows }) i.what) items.now) }
{
    let mut cells = Seq::new(alloc);
    'items: for item in items {
        let cell = item_cell(asked, part, start, end, sum, &item.what)?;
        cells.add(cell)?;
    }
    Ok(cells)
}

// The row of a window of a group.
fn window_row(
    alloc: Global,
    asked: &Asked<'_>,
    part: &Seq<Cell>,
    start: i64,
    end: i64,
    sum: &Sum,
) -> Result<WinRow, NoMem>
    requires covered { AreCovered asked.now.plan.now.schema.columns asked.now.places.now
        asked.now.plan.now.query.items }
    ensures { (rows : List Keyed) → sum.now ≡ sum_of asked.now.places.now rows → IfOk result (λ row. row
        ≡ window_row asked.now.plan.now.schema.columns asked.now.plan.now.query part.now
        (record { start = start; end = end; rows = rows })) }
{
    let items = asked.plan.query.items.as_slice();
    let cells = sum_cells(alloc, asked, items, part, start, end, sum)?;
    let part = part.copy()?;
    let key = WinKey { part, start };
    Ok(WinRow { key, end, cells })
}

fn end_of(end: u64) -> i64
    ensures { result ≡ pos (min end (LAST_TIMESTAMP + LONGEST_DURATION)) }
{
    end.min(LATEST_END) as i64
}

// Adds the row of the window that ends there, if it holds a row.
fn add_window(
    alloc: Global,
    asked: &Asked<'_>,
    part: &Seq<Cell>,
    end: u64,
    sum: &Sum,
    rows: &mut Seq<WinRow>,
) -> Result<(), NoMem>
    requires covered { AreCovered asked.now.plan.now.schema.columns asked.now.places.now
        asked.now.plan.now.query.items }
    ensures { (held : List Keyed) → sum.now ≡ sum_of asked.now.places.now held
        → (has_row sum.now ≡ true → end ≤ LAST_TIMESTAMP + LONGEST_DURATION)
        → OnOk result (rows.new ≡ (if has_row sum.now then rows.old
        ++ window_row asked.now.plan.now.schema.columns asked.now.plan.now.query part.now
        (window_from asked.now.frame.len end held) ∷ [] else rows.old)) }
{
    if sum.count() > 0 {
        let end = end_of(end);
        let start = end - asked.frame.len as i64;
        let row = window_row(alloc, asked, part, start, end, sum)?;
        rows.add(row)?;
    }
    Ok(())
}

// The rows of the windows of a group that hold a row, by their ends.
fn rows_by_end(
    alloc: Global,
    asked: &Asked<'_>,
    part: &Seq<Cell>,
    room: usize,
    windows: Windows,
) -> Result<Seq<WinRow>, NoMem>
    requires covered { AreCovered asked.now.plan.now.schema.columns asked.now.places.now
        asked.now.plan.now.query.items }
    ensures { (held : List Keyed) → AllByRecursion (IsHeld asked.now.frame asked.now.places.now held) windows.entries
        → IfOk result (λ rows. rows ≡ map (window_row asked.now.plan.now.schema.columns asked.now.plan.now.query part.now)
        (windows_by_end asked.now.frame held windows.entries)) }
{
    let mut rows = Seq::from_vec(alloc, Vec::with_capacity(alloc, room)?);
    'windows: for (end, sum) in windows {
        add_window(alloc, asked, part, end, &sum, &mut rows)?;
    }
    Ok(rows)
}

// The rows of the interval windows of a group.
fn interval_rows(
    alloc: Global,
    asked: &Asked<'_>,
    part: &Seq<Cell>,
    windows: Windows,
) -> Result<Seq<WinRow>, NoMem>
    requires covered { AreCovered asked.now.plan.now.schema.columns asked.now.places.now
        asked.now.plan.now.query.items }
    ensures { (len offset slide : ℕ) (held : List Keyed)
        → frame_numbers asked.now.frame ≡ (len, (offset + len) % slide, slide)
        → AllKeys (λ k. k.ts ≤ LAST_TIMESTAMP) held → AreSums asked.now.frame asked.now.places.now windows held
        → IfOk result (λ rows. rows ≡ map (window_row asked.now.plan.now.schema.columns asked.now.plan.now.query part.now)
        (interval_windows len offset slide held)) }
{
    let room = windows.len();
    let rows = rows_by_end(alloc, asked, part, room, windows)?;
    Ok(rows)
}

// The sum of all rows of a group, which lie in one window.
fn whole_sum(alloc: Global, asked: &Asked<'_>, windows: &Windows) -> Result<Sum, NoMem>
    ensures { IfOk result (λ sum. sum ≡ sum_at asked.now.places.now windows.now asked.now.frame.len) }
{
    match windows.get(&asked.frame.len) {
        Some(sum) => {
            let copy = sum.copy(alloc)?;
            Ok(copy)
        }
        None => {
            let sum = Sum::none(alloc, asked.places)?;
            Ok(sum)
        }
    }
}

// The row of all rows of a group: that of the only group, or of one that holds a row.
fn whole_rows(
    alloc: Global,
    asked: &Asked<'_>,
    one: bool,
    part: &Seq<Cell>,
    windows: &Windows,
) -> Result<Seq<WinRow>, NoMem>
    requires covered { AreCovered asked.now.plan.now.schema.columns asked.now.places.now
        asked.now.plan.now.query.items }
    ensures { (held : List Keyed) → sum_at asked.now.places.now windows.now asked.now.frame.len
        ≡ sum_of asked.now.places.now held → IfOk result (λ rows. rows ≡ (if one || has_rows
        (record { part = part.now; rows = held })
        then window_row asked.now.plan.now.schema.columns asked.now.plan.now.query part.now (whole_window held) ∷ []
        else [])) }
{
    let mut rows = Seq::new(alloc);
    let sum = whole_sum(alloc, asked, windows)?;
    if one || sum.count() > 0 {
        let row = window_row(alloc, asked, part, 0, 0, &sum)?;
        rows.add(row)?;
    }
    Ok(rows)
}

fn is_whole(window: &WindowDef) -> bool
    ensures { result ≡ is_whole window.now }
{
    matches!(window, WindowDef::Whole)
}

// The rows of the windows of a group, if it is shown.
fn group_rows(
    alloc: Global,
    asked: &Asked<'_>,
    one: bool,
    part: &Seq<Cell>,
    windows: Windows,
) -> Result<Seq<WinRow>, NoMem>
    requires covered { AreCovered asked.now.plan.now.schema.columns asked.now.places.now
        asked.now.plan.now.query.items }
    requires framed { Some (frame_numbers asked.now.frame) ≡ frame_of asked.now.plan.now.query.window }
    requires one { one ≡ has_one_group asked.now.plan.now.query }
    ensures { (g : Grouped) → part.now ≡ g.part → AllKeys (λ k. k.ts ≤ LAST_TIMESTAMP) g.rows
        → AreSums asked.now.frame asked.now.places.now windows g.rows → IfOk result (λ rows. rows ≡ (if is_shown one g
        then window_rows asked.now.plan.now.schema.columns asked.now.plan.now.query g else [])) }
{
    if is_whole(&asked.plan.query.window) {
        let rows = whole_rows(alloc, asked, one, part, &windows)?;
        return Ok(rows);
    }
    let rows = interval_rows(alloc, asked, part, windows)?;
    Ok(rows)
}

// Adds a group with its windows to others.
fn add_group(
    alloc: Global,
    asked: &Asked<'_>,
    one: bool,
    group: Gathered<Windows>,
    groups: &mut Seq<Group>,
) -> Result<(), NoMem>
    requires covered { AreCovered asked.now.plan.now.schema.columns asked.now.places.now
        asked.now.plan.now.query.items }
    requires framed { Some (frame_numbers asked.now.frame) ≡ frame_of asked.now.plan.now.query.window }
    requires one { one ≡ has_one_group asked.now.plan.now.query }
    ensures { (g : Grouped) → AllKeys (λ k. k.ts ≤ LAST_TIMESTAMP) g.rows
        → IsSummed asked.now.frame asked.now.places.now group g → OnOk result (flat_map windows_in groups.new
        ≡ flat_map windows_in groups.old
        ++ flat_map (window_rows asked.now.plan.now.schema.columns asked.now.plan.now.query)
        (filter (is_shown one) (g ∷ []))) }
{
    let Gathered { part, kept } = group;
    let windows = group_rows(alloc, asked, one, &part, kept)?;
    let rows = Seq::new(alloc);
    groups.add(Group {
        part,
        rows,
        windows,
    })?;
    Ok(())
}

/// Groups whose rows are summed up, with the rows of their windows.
pub(crate) fn close_all(
    alloc: Global,
    asked: &Asked<'_>,
    one: bool,
    gathered: Vec<Gathered<Windows>>,
) -> Result<Seq<Group>, NoMem>
    requires covered { AreCovered asked.now.plan.now.schema.columns asked.now.places.now
        asked.now.plan.now.query.items }
    requires framed { Some (frame_numbers asked.now.frame) ≡ frame_of asked.now.plan.now.query.window }
    requires one { one ≡ has_one_group asked.now.plan.now.query }
    ensures { (gs : List Grouped) → AllGroups (λ k. k.ts ≤ LAST_TIMESTAMP) gs
        → AreSummed asked.now.frame asked.now.places.now gathered.items gs → IfOk result (λ all. flat_map windows_in all
        ≡ flat_map (window_rows asked.now.plan.now.schema.columns asked.now.plan.now.query)
        (filter (is_shown one) gs)) }
{
    let mut groups = Seq::new(alloc);
    'groups: for group in gathered {
        add_group(alloc, asked, one, group, &mut groups)?;
    }
    Ok(groups)
}
