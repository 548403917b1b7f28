//! The plan of a query over tables.
ghost use Rattle.std.specs.Prelude.{◌≡◌, ◌≤◌, false, IfOk, IsTrue};
ghost use Rattle.td_verdict.specs.Refusals.{has_bad_bounds};

use crate::asks::{items_of, order_of, pair_of, parts_of, window_of};
use crate::player::{Player, Told};
use std::alloc::Global;
use td_cases::CaseFault;
use td_fields::place_of;
use td_layer::{Cell, Copied, Name, NoMem, Seq};
use td_limits::{LAST_TIMESTAMP, LONGEST_DURATION, WINDOWS_OF_A_ROW};
use td_model::{Column, PartBy, Plan, Query, Schema, WindowDef};

/// The words of a query.
#[derive(Clone, Copy)]
pub(crate) struct Words<'a> {
    pub(crate) source: &'a str,
    pub(crate) items: &'a str,
    pub(crate) parts: &'a str,
    pub(crate) window: &'a str,
    pub(crate) order: &'a str,
    pub(crate) range: &'a str,
    pub(crate) shown: &'a str,
}

/// The words of a line; one that it doesn't have is empty.
pub(crate) fn words_of(text: &str) -> Words<'_> {
    let mut words = text.split(' ');
    Words {
        source: words.next().unwrap_or(""),
        items: words.next().unwrap_or(""),
        parts: words.next().unwrap_or(""),
        window: words.next().unwrap_or(""),
        order: words.next().unwrap_or(""),
        range: words.next().unwrap_or(""),
        shown: words.next().unwrap_or(""),
    }
}

/// Whether an interval's durations are in their bounds.
pub(crate) fn has_bounds(window: &WindowDef) -> bool
    ensures { IsTrue result → has_bad_bounds window.now ≡ false }
{
    match window {
        WindowDef::Interval { len, offset, slide } => {
            *len <= LONGEST_DURATION
                && *slide > 0
                && *slide <= *len
                && *len <= WINDOWS_OF_A_ROW * *slide
                && *offset < *len
        }
        WindowDef::Whole | WindowDef::Session { .. } | WindowDef::State { .. } => true,
    }
}

fn query_of(alloc: Global, words: &Words<'_>) -> Result<Query, CaseFault> {
    let items = items_of(alloc, words.items)?;
    let parts = parts_of(alloc, words.parts)?;
    let window = window_of(alloc, words.window)?;
    let order = order_of(alloc, words.order)?;
    let source = Seq::of_bytes(alloc, words.source.as_bytes())?;
    Ok(Query {
        star: words.items == "*",
        items,
        source,
        conds: Seq::new(alloc),
        parts,
        window,
        order,
        skip: 0,
        limit: None,
    })
}

fn columns_copied(alloc: Global, columns: &[Column]) -> Result<Seq<Column>, NoMem> {
    let mut all = Seq::new(alloc);
    for column in columns {
        let name = column.name.copy()?;
        let kind = column.kind;
        all.add(Column { name, kind })?;
    }
    Ok(all)
}

// The cell of a PARTITION BY item for a table.
fn part_cell(tags: &[Column], told: &Told, part: &PartBy) -> Result<Cell, NoMem> {
    match part {
        PartBy::TbName => {
            let name = told.name.copy()?;
            Ok(Cell::Str(name))
        }
        PartBy::Tag(name) => match place_of(tags, name) {
            None => Ok(Cell::Null),
            Some(place) => match told.tags.get(place) {
                None => Ok(Cell::Null),
                Some(cell) => {
                    let cell = cell.copy()?;
                    Ok(cell)
                }
            },
        },
    }
}

fn part_cells(
    alloc: Global,
    tags: &[Column],
    told: &Told,
    parts: &[PartBy],
) -> Result<Seq<Cell>, NoMem> {
    let mut cells = Seq::new(alloc);
    for part in parts {
        let cell = part_cell(tags, told, part)?;
        cells.add(cell)?;
    }
    Ok(cells)
}

fn all_parts(
    alloc: Global,
    tags: &[Column],
    tables: &[Told],
    parts: &[PartBy],
) -> Result<Seq<Seq<Cell>>, NoMem> {
    let mut all = Seq::new(alloc);
    for told in tables {
        let cells = part_cells(alloc, tags, told, parts)?;
        all.add(cells)?;
    }
    Ok(all)
}

fn all_tags(alloc: Global, tables: &[Told]) -> Result<Seq<Seq<Cell>>, NoMem> {
    let mut all = Seq::new(alloc);
    for told in tables {
        let tags = told.tags.copy()?;
        all.add(tags)?;
    }
    Ok(all)
}

fn all_names(alloc: Global, tables: &[Told]) -> Result<Seq<Name>, NoMem> {
    let mut all = Seq::new(alloc);
    for told in tables {
        let name = told.name.copy()?;
        all.add(name)?;
    }
    Ok(all)
}

fn all_numbers(alloc: Global, tables: &[Told]) -> Result<Seq<u32>, NoMem> {
    let mut all = Seq::new(alloc);
    for told in tables {
        all.add(told.number)?;
    }
    Ok(all)
}

fn schema_of(alloc: Global, player: &Player) -> Result<Schema, NoMem> {
    let columns = columns_copied(alloc, player.columns.as_slice())?;
    let tags = columns_copied(alloc, player.tags.as_slice())?;
    Ok(Schema { columns, tags })
}

/// The plan of a query over the tables.
pub(crate) fn plan_of(alloc: Global, player: &Player, words: &Words<'_>) -> Result<Plan, CaseFault>
    ensures { IfOk result (λ plan. plan.hi ≤ LAST_TIMESTAMP) }
{
    let (lo, hi) = pair_of(words.range, "..")?;
    let query = query_of(alloc, words)?;
    let tables = player.tables.as_slice();
    let parts = all_parts(
        alloc,
        player.tags.as_slice(),
        tables,
        query.parts.as_slice(),
    )?;
    let tags = all_tags(alloc, tables)?;
    let names = all_names(alloc, tables)?;
    let numbers = all_numbers(alloc, tables)?;
    let schema = schema_of(alloc, player)?;
    Ok(Plan {
        query,
        tables: numbers,
        parts,
        tags,
        names,
        schema,
        lo,
        hi: hi.min(LAST_TIMESTAMP),
        target: None,
    })
}
