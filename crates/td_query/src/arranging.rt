//! The order of windows, and the part of them that is shown.
ghost use Rattle.std.specs.Prelude.{◌≡◌, ◌<◌, ◌^◌, ◌++◌, drop, take, map, length, IfOk, OnOk};
ghost use Rattle.std.specs.List.{flat_map};
ghost use Rattle.td_verdict.specs.Arranged.{arranged, by_start, cells_shown, answer_of_rows};
ghost use Rattle.td_query.specs.Shown.{all_shown, windows_in};

use crate::gathering::Group;
use crate::shown::part;
use std::alloc::Global;
use std::collections::BTreeMap;
use td_layer::{Cell, Copied, NoMem, Seq};
use td_model::{OrderBy, Plan, WinRow};

// A window's row that is lent.
#[derive(Clone, Copy)]
pub(crate) struct Shown<'a> {
    row: &'a WinRow,
}

// A window's start, in milliseconds since 1970, and its place among all windows. They are ordered by start, then by
// place.
#[derive(Clone, Copy, PartialEq, Eq, PartialOrd, Ord)]
pub(crate) struct StartKey {
    start: i64,
    place: usize,
}

fn start_of(shown: &Shown<'_>) -> i64
    ensures { result ≡ shown.now.row.now.key.start }
{
    shown.row.key.start
}

// Adds windows at the end of others.
fn add_windows<'a>(windows: &'a [WinRow], all: &mut Vec<Shown<'a>>) -> Result<(), NoMem>
    ensures { OnOk result (all_shown all.new.items ≡ all_shown all.old.items ++ windows.now) }
{
    'windows: for row in windows {
        all.push(Shown { row })?;
    }
    Ok(())
}

// The windows of groups, in the order of the groups.
fn windows_of<'a>(alloc: Global, groups: &'a [Group]) -> Result<Vec<Shown<'a>>, NoMem>
    ensures { IfOk result (λ all. all_shown all.items ≡ flat_map windows_in groups.now) }
{
    let mut all = Vec::new(alloc);
    'groups: for group in groups {
        add_windows(group.windows.as_slice(), &mut all)?;
    }
    Ok(all)
}

// Windows in the order of their keys.
fn values_of<'a>(
    alloc: Global,
    sorted: BTreeMap<StartKey, Shown<'a>>,
) -> Result<Vec<Shown<'a>>, NoMem>
    ensures { IfOk result (λ all. all.items ≡ map (λ e. e.1) sorted.entry.entries) }
{
    let all: Vec<Shown<'a>> = sorted.into_values().collect(alloc)?;
    Ok(all)
}

// Windows by their starts, and those of one start in their former order.
fn by_start<'a>(alloc: Global, rows: &[Shown<'a>]) -> Result<Vec<Shown<'a>>, NoMem>
    ensures { IfOk result (λ all. all_shown all.items ≡ by_start (all_shown rows.now)) }
{
    let mut sorted: BTreeMap<StartKey, Shown<'a>> = BTreeMap::new(alloc);
    'rows: for place in 0..rows.len() {
        let shown = rows[place];
        let start = start_of(&shown);
        sorted.insert(StartKey { start, place }, shown)?;
    }
    let all = values_of(alloc, sorted)?;
    Ok(all)
}

// Windows in the order of an answer.
fn in_order<'a>(
    alloc: Global,
    order: &OrderBy,
    rows: Vec<Shown<'a>>,
) -> Result<Vec<Shown<'a>>, NoMem>
    ensures { IfOk result (λ all. all_shown all.items ≡ arranged order.now (all_shown rows.entry.items)) }
{
    match order {
        OrderBy::Plain => Ok(rows),
        OrderBy::Asc(_) => {
            let all = by_start(alloc, rows.as_slice())?;
            Ok(all)
        }
        OrderBy::Desc(_) => {
            let mut all = by_start(alloc, rows.as_slice())?;
            all.reverse();
            Ok(all)
        }
    }
}

// The cells of windows.
fn cells_of(alloc: Global, rows: &[Shown<'_>]) -> Result<Seq<Seq<Cell>>, NoMem>
    ensures { IfOk result (λ all. all ≡ cells_shown (all_shown rows.now)) }
{
    let mut all = Seq::new(alloc);
    'rows: for shown in rows {
        let cells = shown.row.cells.copy()?;
        all.add(cells)?;
    }
    Ok(all)
}

/// A part of the answer whose groups have these windows: the cells of each window, in the order of the groups or by
/// ORDER BY, then OFFSET, then LIMIT; of these rows without the first `skip`, at most `count`. ORDER BY sorts by the
/// windows' starts and keeps the former order of windows of one start; descending is that order reversed. A negative
/// OFFSET or LIMIT counts as 0. The whole answer has fewer than 2^63 rows. `Err(NoMem)` is want of memory.
pub fn arrange(
    alloc: Global,
    plan: &Plan,
    groups: &Seq<Group>,
    skip: u64,
    count: u64,
) -> Result<Seq<Seq<Cell>>, NoMem>
    ensures part { IfOk result (λ all. all ≡ take count
        (drop skip (answer_of_rows plan.now.query (flat_map windows_in groups.now)))) }
    ensures few { IfOk result
        (λ _. length (answer_of_rows plan.now.query (flat_map windows_in groups.now)) < 2 ^ 63) }
{
    let rows = windows_of(alloc, groups.as_slice())?;
    let rows = in_order(alloc, &plan.query.order, rows)?;
    let shown = part(&plan.query, rows.as_slice(), skip, count);
    let all = cells_of(alloc, shown)?;
    Ok(all)
}
