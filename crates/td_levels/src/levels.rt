//! Levels of rows.
ghost use Rattle.std.specs.Prelude.{◌≡◌, ◌+◌, ◌≤◌, [], length, None, All, IfOk, OnOk, is_some};
ghost use Rattle.td_catalog.specs.Kept.{CanFollow};
ghost use Rattle.td_layer.specs.Columns.{AreColumnCells};
ghost use Rattle.td_limits.specs.declared.limits.TheConstants.{MEMTABLE_PARTS};
ghost use Rattle.td_verdict.specs.Sound.{IsPut};
ghost use Rattle.td_memtable.specs.Contents.{nothing_held};
ghost use Rattle.td_model.specs.Catalog.{Catalog};
ghost use Rattle.td_levels.specs.Levels.{memtables_of};
ghost use Rattle.td_levels.specs.Taken.{with_puts, taken, parts_of, HasColumnCells};
ghost use Rattle.td_levels.specs.Fits.{FitsMemtable};
ghost use Rattle.td_levels.specs.Laws.{frozen_of};
ghost use Rattle.td_levels.specs.Sets.{sets_of, or_else};

use std::alloc::Global;
use std::marker::Model;
use td_fileset::FileSet;
use td_layer::{Birth, NoMem};
use td_memtable::Memtable;
use td_model::{Put, What};

/// The memtable that takes entries; the frozen one, where there is one; and the file sets, by day range. Contracts see
/// what the memtables hold, and the files by number.
#[derive(Drop)]
pub struct RowLevels {
    alloc: Global,
    active: Memtable,
    frozen: Option<Memtable>,
    sets: Vec<FileSet>,
}

impl Model for RowLevels {
    ghost use Rattle.td_levels.specs.Levels.{Levels};
    ghost use Rattle.td_levels.specs.Sets.{sets_of};

    ghost Value = { Levels };

    ghost view = { λ l. record { active = l.active; frozen = l.frozen; sets = sets_of l.sets.items } };
}

// Lays puts over those of their keys, one after another. A new key is born at the moment.
fn put_all(memtable: &mut Memtable, moment: u64, puts: &[Put]) -> Result<(), NoMem>
    requires fits { (c : Catalog) × FitsMemtable c memtable.old × All (IsPut c) puts.now }
    requires cells { All (λ p. AreColumnCells p.cells) puts.now }
    requires room { memtable.old.held + length puts.now ≤ MEMTABLE_PARTS }
    ensures { OnOk result (memtable.new ≡ with_puts moment puts.now memtable.old) }
{
    for put in puts {
        memtable.put(put, Birth { born: moment })?;
    }
    Ok(())
}

impl RowLevels {
    /// No row, over these file sets. It takes no memory.
    pub fn of_sets(alloc: Global, sets: Vec<FileSet>) -> RowLevels
        ensures { result ≡ record { active = nothing_held; frozen = None; sets = sets_of sets.items } }
    {
        RowLevels {
            alloc,
            active: Memtable::empty(alloc),
            frozen: None,
            sets,
        }
    }

    /// How many parts the active memtable took, at most 65536.
    pub fn held(&self) -> u32
        ensures held { result ≡ self.now.active.held }
        ensures most { result ≤ MEMTABLE_PARTS }
    {
        self.active.held()
    }

    /// Whether a memtable is frozen.
    pub fn is_frozen(&self) -> bool
        ensures { result ≡ is_some self.now.frozen }
    {
        self.frozen.is_some()
    }

    /// The active memtable with what an entry of a moment puts and cuts, or none where it puts and cuts nothing. It shares
    /// with the active one what it doesn't touch, and that one stays as it is.
    pub fn prepare(&self, what: &What, moment: u64) -> Result<Option<Memtable>, NoMem>
        requires follows { (c : Catalog) × FitsMemtable c self.now.active × CanFollow what.now c }
        requires cells { HasColumnCells what.now }
        requires room { self.now.active.held + parts_of what.now ≤ MEMTABLE_PARTS }
        ensures { IfOk result (λ m. or_else m self.now.active ≡ taken what.now moment self.now.active) }
    {
        match what {
            What::Put(puts) => {
                let mut memtable = self.active.share()?;
                put_all(&mut memtable, moment, puts.as_slice())?;
                Ok(Some(memtable))
            }
            What::Cut { table, lo, hi } => {
                let mut memtable = self.active.share()?;
                memtable.cut(*table, *lo, *hi)?;
                Ok(Some(memtable))
            }
            _ => Ok(None),
        }
    }

    /// Puts a memtable that was prepared in the active one's place. It takes no memory.
    pub fn apply(&mut self, prepared: Option<Memtable>)
        ensures { self.new ≡ record self.old { active = or_else prepared self.old.active } }
    {
        if let Some(memtable) = prepared {
            self.active = memtable;
        }
    }

    /// Freezes the active memtable, where none is frozen; a new one takes entries. It takes no memory.
    pub fn freeze(&mut self)
        requires { self.old.frozen ≡ None }
        ensures { self.new ≡ frozen_of self.old }
    {
        let empty = Memtable::empty(self.alloc);
        self.frozen = Some(std::mem::replace(&mut self.active, empty));
    }

    /// The frozen memtable, of the same nodes, or none.
    pub fn share_frozen(&self) -> Result<Option<Memtable>, NoMem>
        ensures { IfOk result (λ m. m ≡ self.now.frozen) }
    {
        match &self.frozen {
            None => Ok(None),
            Some(memtable) => {
                let shared = memtable.share()?;
                Ok(Some(shared))
            }
        }
    }

    /// The active memtable, of the same nodes.
    pub fn share_active(&self) -> Result<Memtable, NoMem>
        ensures { IfOk result (λ m. m ≡ self.now.active) }
    {
        let shared = self.active.share()?;
        Ok(shared)
    }

    /// The memtables, the newest first, of the same nodes.
    pub fn share_memtables(&self) -> Result<Vec<Memtable>, NoMem>
        ensures { IfOk result (λ ms. ms.items ≡ memtables_of self.now) }
    {
        let mut memtables = Vec::with_capacity(self.alloc, 2)?;
        memtables.push(self.active.share()?)?;
        if let Some(frozen) = self.share_frozen()? {
            memtables.push(frozen)?;
        }
        Ok(memtables)
    }

    // The frozen memtable, where there is one.
    pub(crate) fn frozen(&self) -> &Option<Memtable>
        ensures { result.now ≡ self.now.frozen }
    {
        &self.frozen
    }

    // The memtable that takes entries.
    pub(crate) fn active(&self) -> &Memtable
        ensures { result.now ≡ self.now.active }
    {
        &self.active
    }

    // Where memory is taken.
    pub(crate) fn alloc(&self) -> Global {
        self.alloc
    }

    /// The file sets, by day range.
    pub fn sets(&self) -> &[FileSet]
        ensures { sets_of result.now ≡ self.now.sets }
    {
        self.sets.as_slice()
    }

    /// Puts file sets in the place of those that are there, and forgets the frozen memtable. It takes no memory.
    pub fn install(&mut self, sets: Vec<FileSet>)
        ensures { self.new ≡ record { active = self.old.active; frozen = None; sets = sets_of sets.items } }
    {
        self.frozen = None;
        self.sets = sets;
    }
}
