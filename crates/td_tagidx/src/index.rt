//! The index, and changes of it.
ghost use Rattle.std.specs.Prelude.{◌≡◌, [], ℕ, ◌+◌, ◌<◌, map, IfOk, OnOk, vec_len, vec_capacity, sum_by, IsSortedByKey};
ghost use Rattle.std.specs.Ordering.{nat_cmp};
ghost use Rattle.td_model.specs.Tags.{matching};
ghost use Rattle.td_tagidx.specs.Indexed.{IsAbsent, with_subtable, IsReadyFor};
ghost use Rattle.td_tagidx.specs.Subtables.{subtable_of};
ghost use Rattle.td_tagidx.specs.Slots.{HasSame};
ghost use Rattle.td_tagidx.specs.Inside.{IsFiled};
ghost use Rattle.td_tagidx.specs.Runs.{edges_of};

use crate::cells::is_comparable;
use crate::order::{Mark, Slot};
use crate::slots::{put_all, tables_between};
use std::alloc::Global;
use std::collections::BTreeSet;
use std::marker::Model;
use td_cells::tag_matches;
use td_layer::{Cell, Copied, NoMem, Seq};
use td_model::Op;

// A subtable: its number and its tags.
#[derive(Drop)]
pub(crate) struct Subtable {
    pub(crate) table: u32,
    pub(crate) tags: Seq<Cell>,
}

/// A subtable's tags, in the memory that the index needs for them. Contracts see its number and its tags. A change that
/// isn't made is dropped.
#[derive(Drop)]
pub struct TagChange {
    subtable: Subtable,
}

impl Model for TagChange {
    ghost use Rattle.std.specs.Prelude.{ℕ, List};
    ghost use Rattle.td_layer.specs.declared.values.Cell.{Cell};

    ghost Value = { ℕ × List Cell };

    ghost use Rattle.td_tagidx.specs.Subtables.{subtable_of};

    ghost view = { λ a. subtable_of a.subtable };
}

/// The tags of subtables. Contracts see the subtables with their tags, in number order, and the room that there is for
/// more.
#[derive(Drop)]
pub struct TagIndex {
    alloc: Global,
    // all subtables but the last one added, by number
    subtables: Vec<Subtable>,
    // their tags, by cell
    slots: BTreeSet<Slot>,
    // the last one added, until the next change is prepared: so `add` takes no memory
    last: Option<Subtable>,
}

impl Model for TagIndex {
    ghost use Rattle.td_tagidx.specs.Indexed.{Indexed};

    ghost Value = { Indexed };

    ghost use Rattle.td_tagidx.specs.Inside.{indexed_of, IsKept};

    ghost view = { indexed_of };

    ghost invariant = { IsKept };
}

impl TagIndex {
    /// The index of no subtable. It takes no memory.
    pub fn empty(alloc: Global) -> TagIndex
        ensures { result.subtables ≡ [] }
    {
        TagIndex {
            alloc,
            subtables: Vec::new(alloc),
            slots: BTreeSet::new(alloc),
            last: None,
        }
    }

    /// Takes the memory that adding a subtable needs, and gives the change that [`TagIndex::add`] can then make without
    /// memory. The index keeps its subtables, also where there is no memory.
    ///
    /// The subtable added before is put in order now, and its tags among those of all others: that takes time that
    /// grows with the number of its tags, and with the logarithm of the number of all.
    pub fn prepare(&mut self, table: u32, tags: &[Cell]) -> Result<TagChange, NoMem>
        requires { IsAbsent table self.old.subtables }
        ensures unchanged { self.new.subtables ≡ self.old.subtables }
        ensures change { IfOk result (λ change. change ≡ (table, tags.now)) }
        ensures ready { IfOk result (λ change. IsReadyFor change self.new) }
    {
        self.file()?;
        let tags = Seq::from_vec(self.alloc, Cell::copies(self.alloc, tags)?);
        Ok(TagChange {
            subtable: Subtable { table, tags },
        })
    }

    /// Adds the subtable of the change that the last [`TagIndex::prepare`] gave. It takes no memory.
    pub fn add(&mut self, change: TagChange)
        requires { IsReadyFor change self.old }
        ensures { self.new.subtables ≡ with_subtable change self.old.subtables }
    {
        let TagChange { subtable } = change;
        self.last = Some(subtable);
    }

    /// The numbers of the subtables that have a tag at a place, from 0, which passes a comparison, in number order.
    /// `IsNull` and `NotNull` don't look at the literal.
    ///
    /// By `=`, `<`, `<=`, `>` and `>=` it takes time that grows with the answer, which is sorted, and with the
    /// logarithm of the number of tags; by the others, with the number of subtables.
    pub fn find(&self, tag: usize, op: Op, lit: &Cell) -> Result<Seq<u32>, NoMem>
        ensures { IfOk result (λ numbers. numbers ≡ matching tag op lit.now self.now.subtables) }
    {
        let mut numbers = found(self.alloc, &self.subtables, &self.slots, tag, op, lit)?;
        if let Some(last) = &self.last {
            if tag_matches(last.tags.as_slice(), tag, op, lit) {
                numbers.push(last.table)?;
            }
        }
        numbers.sort_unstable();
        Ok(Seq::from_vec(self.alloc, numbers))
    }

    // Takes the last subtable in among the others, and its tags in among theirs. Where there is no memory all stay.
    fn file(&mut self) -> Result<(), NoMem>
        ensures unchanged { self.new.subtables ≡ self.old.subtables }
        ensures room { OnOk result (0 < self.new.room) }
    {
        let Some(last) = &self.last else {
            return Ok(());
        };
        self.subtables.reserve(1)?;
        put_all(&mut self.slots, last.table, last.tags.as_slice())?;
        if let Some(last) = self.last.take() {
            put_subtable(&mut self.subtables, last);
        }
        Ok(())
    }
}

// Puts a subtable in its place by number, where there is room.
fn put_subtable(subtables: &mut Vec<Subtable>, subtable: Subtable)
    requires numbered { IsSortedByKey (λ s. s.table) nat_cmp subtables.old.items }
    requires absent { IsAbsent subtable.table (map subtable_of subtables.old.items) }
    requires room { vec_len subtables.old < vec_capacity subtables.old }
    ensures numbered { IsSortedByKey (λ s. s.table) nat_cmp subtables.new.items }
    ensures put { map subtable_of subtables.new.items
        ≡ with_subtable (subtable_of subtable) (map subtable_of subtables.old.items) }
    ensures same { (f : Subtable → ℕ) → sum_by f subtables.new.items ≡ f subtable + sum_by f subtables.old.items }
{
    let table = subtable.table;
    let at = subtables.partition_point(|s| s.table < table);
    subtables.insert(at, subtable).unwrap();
}

// The numbers of the filed subtables whose tag passes, in some order.
fn found(
    alloc: Global,
    subtables: &[Subtable],
    slots: &BTreeSet<Slot>,
    tag: usize,
    op: Op,
    lit: &Cell,
) -> Result<Vec<u32>, NoMem>
    requires { IsFiled subtables.now slots.now.keys }
    ensures { IfOk result (λ numbers. HasSame numbers.items (matching tag op lit.now (map subtable_of subtables.now))) }
{
    match edges_of(op) {
        None => picked(alloc, subtables, tag, op, lit),
        Some(_) if !is_comparable(lit) => Ok(Vec::new(alloc)),
        Some((from, to)) => {
            let (start, end) = (lit.copy()?, lit.copy()?);
            let from = Slot {
                place: tag,
                cell: start,
                mark: from,
            };
            let to = Slot {
                place: tag,
                cell: end,
                mark: to,
            };
            tables_between(alloc, slots, &from, &to)
        }
    }
}

// The marks between which the tags lie that pass a comparison with a cell, where they lie together.
fn edges_of(op: Op) -> Option<(Mark, Mark)>
    ensures { result ≡ edges_of op }
{
    match op {
        Op::Lt => Some((Mark::KindStart, Mark::CellStart)),
        Op::Le => Some((Mark::KindStart, Mark::CellEnd)),
        Op::Eq => Some((Mark::CellStart, Mark::CellEnd)),
        Op::Ge => Some((Mark::CellStart, Mark::KindEnd)),
        Op::Gt => Some((Mark::CellEnd, Mark::KindEnd)),
        Op::Ne | Op::IsNull | Op::NotNull => None,
    }
}

// The numbers of the subtables whose tag passes, in their order.
fn picked(
    alloc: Global,
    subtables: &[Subtable],
    tag: usize,
    op: Op,
    lit: &Cell,
) -> Result<Vec<u32>, NoMem>
    ensures { IfOk result (λ numbers. numbers.items ≡ matching tag op lit.now (map subtable_of subtables.now)) }
{
    let mut numbers = Vec::new(alloc);
    for subtable in subtables {
        if tag_matches(subtable.tags.as_slice(), tag, op, lit) {
            numbers.push(subtable.table)?;
        }
    }
    Ok(numbers)
}
