//! The cells of the select list for a window.
ghost use Rattle.std.specs.Prelude.{◌≡◌, IfOk, length, map, position};
ghost use Rattle.td_model.specs.declared.language.Item.{Item};
ghost use Rattle.td_query.specs.Cuts.{window_of_cut, window_of_span, AreSound, IsAmong};
ghost use Rattle.td_verdict.specs.Parts.{is_part, part_cell};
ghost use Rattle.td_verdict.specs.Windowed.{item_cell};

use crate::cells::copy_at;
use crate::columns::{Kept, aggregate_cell, count_of};
use std::alloc::Global;
use td_fields::same;
use td_layer::{Cell, Key, NoMem, Row, Seq};
use td_model::{Item, ItemKind, PartBy, Plan};
use td_window::Span;

/// A window of a group's rows: where it starts and ends, in milliseconds since 1970, the rows that it spans, and which
/// of these belong to it.
#[derive(Clone, Copy)]
pub(crate) struct Cut<'a> {
    pub(crate) start: i64,
    pub(crate) end: i64,
    pub(crate) rows: &'a [(Key, Row)],
    pub(crate) kept: Kept,
}

/// The window of a span.
pub(crate) fn cut_at<'a>(kept: Kept, rows: &'a [(Key, Row)], span: &Span) -> Cut<'a>
    requires among { IsAmong (length rows.now) span.now }
    requires sound { AreSound rows.now }
    ensures window { window_of_cut result ≡ window_of_span kept rows.now span.now }
    ensures sound { AreSound result.rows.now }
{
    let rest = &rows[span.first as usize..];
    Cut {
        start: span.start,
        end: span.end,
        rows: &rest[..span.rows as usize],
        kept,
    }
}

// Whether an item is a PARTITION BY item.
fn is_part(item: &ItemKind, part: &PartBy) -> bool
    ensures { result ≡ is_part item.now part.now }
{
    match (item, part) {
        (ItemKind::TbName, PartBy::TbName) => true,
        (ItemKind::Col(name), PartBy::Tag(tag)) => same(tag, name),
        _ => false,
    }
}

// The place of an item among the PARTITION BY items.
fn part_place(parts: &[PartBy], item: &ItemKind) -> Option<usize>
    ensures { result ≡ position (is_part item.now) parts.now }
{
    parts.iter().position(|part| is_part(item, part))
}

/// The group's cell of an item; one that is missing is NULL.
pub(crate) fn part_cell(parts: &[PartBy], cells: &Seq<Cell>, item: &ItemKind) -> Result<Cell, NoMem>
    ensures { IfOk result (λ cell. cell ≡ part_cell parts.now cells.now item.now) }
{
    match part_place(parts, item) {
        None => Ok(Cell::Null),
        Some(at) => {
            let cell = copy_at(cells, at)?;
            Ok(cell)
        }
    }
}

// The cell of an item for a window of a group.
fn item_cell(
    plan: &Plan,
    part: &Seq<Cell>,
    window: &Cut<'_>,
    item: &ItemKind,
) -> Result<Cell, NoMem>
    requires { AreSound window.now.rows.now }
    ensures { IfOk result (λ cell. cell ≡ item_cell plan.now.schema.columns plan.now.query.parts part.now
        (window_of_cut window.now) item.now) }
{
    match item {
        ItemKind::WStart => Ok(Cell::Num(i128::from(window.start))),
        ItemKind::WEnd => Ok(Cell::Num(i128::from(window.end))),
        ItemKind::CountAll => Ok(Cell::Num(count_of(window.kept, window.rows) as i128)),
        ItemKind::Fun(func, name) => Ok(aggregate_cell(
            plan.schema.columns.as_slice(),
            *func,
            name,
            window.kept,
            window.rows,
        )),
        ItemKind::TbName | ItemKind::Col(_) => {
            let cell = part_cell(plan.query.parts.as_slice(), part, item)?;
            Ok(cell)
        }
    }
}

/// The cells of items of a select list for a window of a group.
pub(crate) fn window_cells(
    alloc: Global,
    plan: &Plan,
    items: &[Item],
    part: &Seq<Cell>,
    window: &Cut<'_>,
) -> Result<Seq<Cell>, NoMem>
    requires { AreSound window.now.rows.now }
    ensures { IfOk result (λ cells. cells ≡ map (λ (i : Item). item_cell plan.now.schema.columns plan.now.query.parts
        part.now (window_of_cut window.now) i.what) items.now) }
{
    let mut cells = Seq::new(alloc);
    'items: for item in items {
        let cell = item_cell(plan, part, window, &item.what)?;
        cells.add(cell)?;
    }
    Ok(cells)
}
