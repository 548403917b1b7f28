//! Slots: the tags of subtables one by one, and their order.
ghost use Rattle.std.specs.Prelude.{◌≡◌, refl};
ghost use Rattle.std.specs.Cmp.{eq_by_cmp_equiv, partial_equiv_from_equiv, partial_order_from_total};
ghost use Rattle.std.specs.Ordering.{eq_by_cmp, as_partial_cmp};
ghost use Rattle.td_tagidx.specs.Order.{kind_side, cell_side, table_of, group_order, cell_order, mark_order, slot_cmp, slots_total};

use crate::cells::{kind_of, number_or_nought, text_or_empty};
use std::cmp::Ordering;
use td_layer::Cell;

// What a slot is: the tag of a subtable, by its number, or a place where a run of tags begins or ends, before or behind
// all cells of the slot's kind, or before or behind those that equal its cell.
#[derive(Clone, Copy)]
pub(crate) enum Mark {
    KindStart,
    CellStart,
    Table(u32),
    CellEnd,
    KindEnd,
}

// A cell at a place among the tags of a subtable, from 0, and what stands there.
#[derive(Drop)]
pub(crate) struct Slot {
    pub(crate) place: usize,
    pub(crate) cell: Cell,
    pub(crate) mark: Mark,
}

// The rank of a mark among those of a kind of cells.
fn kind_side(mark: Mark) -> u8
    ensures { result ≡ kind_side mark }
{
    match mark {
        Mark::KindStart => 0,
        Mark::CellStart | Mark::Table(_) | Mark::CellEnd => 1,
        Mark::KindEnd => 2,
    }
}

// The rank of a mark among those of equal cells.
fn cell_side(mark: Mark) -> u8
    ensures { result ≡ cell_side mark }
{
    match mark {
        Mark::KindStart | Mark::CellStart => 0,
        Mark::Table(_) => 1,
        Mark::CellEnd | Mark::KindEnd => 2,
    }
}

// The number of a mark's subtable, and 0 where it is of none.
pub(crate) fn table_of(mark: Mark) -> u32
    ensures { result ≡ table_of mark }
{
    match mark {
        Mark::Table(table) => table,
        Mark::KindStart | Mark::CellStart | Mark::CellEnd | Mark::KindEnd => 0,
    }
}

// The order of two slots by their places, the kinds of their cells, and where they stand among those.
fn group_order(a: &Slot, b: &Slot) -> Ordering
    ensures { result ≡ group_order a.now b.now }
{
    let kinds = kind_of(&a.cell).cmp(&kind_of(&b.cell));
    let sides = kind_side(a.mark).cmp(&kind_side(b.mark));
    a.place.cmp(&b.place).then(kinds.then(sides))
}

// The order of two cells of one kind.
fn cell_order(a: &Cell, b: &Cell) -> Ordering
    ensures { result ≡ cell_order a.now b.now }
{
    let numbers = number_or_nought(a).cmp(&number_or_nought(b));
    let texts = text_or_empty(a).cmp(&text_or_empty(b));
    numbers.then(texts)
}

// The order of two slots of equal cells.
fn mark_order(a: Mark, b: Mark) -> Ordering
    ensures { result ≡ mark_order a b }
{
    let tables = table_of(a).cmp(&table_of(b));
    cell_side(a).cmp(&cell_side(b)).then(tables)
}

// The order of two slots.
#[tactic(auto, unfolding(crate::specs::Order::slot_cmp))]
fn slot_cmp(a: &Slot, b: &Slot) -> Ordering
    ensures { result ≡ slot_cmp a.now b.now }
{
    let cells = cell_order(&a.cell, &b.cell);
    group_order(a, b).then(cells.then(mark_order(a.mark, b.mark)))
}

impl PartialEq for Slot {
    ghost eq = { eq_by_cmp slot_cmp };

    ghost laws = { partial_equiv_from_equiv (eq_by_cmp_equiv slots_total) };

    fn eq(&self, other: &Slot) -> bool {
        slot_cmp(self, other).is_eq()
    }
}

impl Eq for Slot {
    ghost laws = { eq_by_cmp_equiv slots_total };
}

impl PartialOrd for Slot {
    ghost partial_cmp = { as_partial_cmp slot_cmp };

    ghost laws = { partial_order_from_total slots_total };

    fn partial_cmp(&self, other: &Slot) -> Option<Ordering> {
        Some(slot_cmp(self, other))
    }
}

impl Ord for Slot {
    ghost cmp = { slot_cmp };

    ghost total = { slots_total };

    ghost matches_partial_cmp = { λ x y. refl };

    ghost matches_eq = { λ x y. refl };

    fn cmp(&self, other: &Slot) -> Ordering {
        slot_cmp(self, other)
    }
}
