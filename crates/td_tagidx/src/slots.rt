//! The slots of subtables, kept in their order.
ghost use Rattle.std.specs.Prelude.{◌≡◌, ℕ, ◌+◌, map, IfOk, OnOk, OnErr, sum_by};
ghost use Rattle.std.specs.BTreeSet.{insert_key};
ghost use Rattle.std.specs.declared.cmp.Ordering.TheVariants.{Less};
ghost use Rattle.td_tagidx.specs.Order.{slot_cmp, table_of};
ghost use Rattle.td_tagidx.specs.Slots.{between, slots_from, of_others};

use crate::order::{Mark, Slot, table_of};
use std::alloc::Global;
use std::collections::BTreeSet;
use std::ops::Bound;
use td_layer::{Cell, Copied, NoMem};

// The numbers of the subtables of the slots between two others, in their order.
pub(crate) fn tables_between(
    alloc: Global,
    slots: &BTreeSet<Slot>,
    from: &Slot,
    to: &Slot,
) -> Result<Vec<u32>, NoMem>
    requires { slot_cmp from.now to.now ≡ Less }
    ensures { IfOk result (λ tables. tables.items
        ≡ map (λ s. table_of s.mark) (between from.now to.now slots.now.keys)) }
{
    let mut tables = Vec::new(alloc);
    for slot in slots.range((Bound::Excluded(from), Bound::Excluded(to))) {
        tables.push(table_of(slot.mark))?;
    }
    Ok(tables)
}

// Puts the slot of a cell at a place among others.
fn put(slots: &mut BTreeSet<Slot>, table: u32, place: usize, cell: &Cell) -> Result<(), NoMem>
    ensures put { OnOk result (slots.new.keys
        ≡ insert_key slot_cmp slots.old.keys (record { place = place; cell = cell.now; mark = Mark.Table table })) }
    ensures kept { OnErr result (slots.new.keys ≡ slots.old.keys) }
{
    let cell = cell.copy()?;
    let mark = Mark::Table(table);
    slots.insert(Slot { place, cell, mark })?;
    Ok(())
}

// Puts the slots of a subtable's cells among those of others. Where there is no memory none is put.
pub(crate) fn put_all(slots: &mut BTreeSet<Slot>, table: u32, cells: &[Cell]) -> Result<(), NoMem>
    requires { of_others table slots.old.keys ≡ slots.old.keys }
    ensures put { OnOk result ((f : Slot → ℕ)
        → sum_by f slots.new.keys ≡ sum_by f (slots_from table 0 cells.now) + sum_by f slots.old.keys) }
    ensures kept { OnErr result (slots.new.keys ≡ slots.old.keys) }
{
    for place in 0..cells.len() {
        if let Err(failed) = put(slots, table, place, &cells[place]) {
            slots.retain(|slot| table_of(slot.mark) != table);
            return Err(failed);
        }
    }
    Ok(())
}
