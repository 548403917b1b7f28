//! The greatest timestamps that were ever put.
ghost use Rattle.std.specs.Prelude.{◌≡◌, ◌<◌, ◌++◌, ◌∷◌, [], None, Some, OnOk, length, slice_get};
ghost use Rattle.td_model.specs.Catalog.{table_at};
ghost use Rattle.td_model.specs.State.{later, raised, parent_of};
ghost use Rattle.td_state.specs.Latest.{raised_by, raised_all, with_last};

use std::alloc::Global;
use std::marker::Model;
use td_catalog::Catalog;
use td_layer::{Key, NoMem};
use td_model::Put;

/// Of each supertable, and of each plain table, the greatest timestamp that was ever put there, in milliseconds.
/// Contracts see the two lists, and the room that each has.
#[derive(Drop)]
pub(crate) struct Latest {
    stables: Vec<Option<u64>>,
    tables: Vec<Option<u64>>,
}

impl Model for Latest {
    ghost use Rattle.std.specs.Prelude.{vec_len, vec_capacity, ◌-◌};
    ghost use Rattle.td_state.specs.Latest.{LatestHeld};

    ghost Value = { LatestHeld };

    ghost view = { λ s. record {
      greatest = record { stables = s.stables.items; tables = s.tables.items };
      stable_room = vec_capacity s.stables - vec_len s.stables;
      table_room = vec_capacity s.tables - vec_len s.tables;
    } };
}

// The greater of two timestamps, of which the first may be missing.
fn later(latest: Option<u64>, ts: u64) -> Option<u64>
    ensures { result ≡ later latest ts }
{
    match latest {
        None => Some(ts),
        Some(latest) => Some(latest.max(ts)),
    }
}

// Sets the last timestamp, if there is one.
fn set_last(latest: &mut Vec<Option<u64>>, last: Option<u64>)
    ensures { latest.new.items ≡ with_last latest.old.items last }
{
    let count = latest.len();
    if 0 < count {
        latest[count - 1] = last;
    }
}

// Raises the greatest timestamp of a number, from 1, if it is among them.
fn raise(latest: &mut Vec<Option<u64>>, number: u32, ts: u64)
    ensures { latest.new.items ≡ raised latest.old.items number ts }
{
    let at = number.saturating_sub(1) as usize;
    if at < latest.len() {
        let raised = later(latest[at], ts);
        latest[at] = raised;
    }
}

// The number of the supertable of a table, if there is the table and it has one.
fn parent_of(catalog: &Catalog, table: u32) -> Option<u32>
    ensures { result ≡ parent_of (table_at table catalog.now.catalog) }
{
    let number = table.max(1);
    if number <= catalog.tables() {
        catalog.parent_of(number)
    } else {
        None
    }
}

impl Latest {
    // No supertable and no table yet. It takes no memory.
    pub(crate) fn new(alloc: Global) -> Latest
        ensures { result.greatest ≡ record { stables = []; tables = [] } }
    {
        Latest {
            stables: Vec::new(alloc),
            tables: Vec::new(alloc),
        }
    }

    // Takes memory for a supertable more.
    pub(crate) fn make_stable_room(&mut self) -> Result<(), NoMem>
        ensures unchanged { self.new.greatest ≡ self.old.greatest }
        ensures room { OnOk result (0 < self.new.stable_room) }
    {
        self.stables.reserve(1)?;
        Ok(())
    }

    // Takes memory for a table more.
    pub(crate) fn make_table_room(&mut self) -> Result<(), NoMem>
        ensures unchanged { self.new.greatest ≡ self.old.greatest }
        ensures room { OnOk result (0 < self.new.table_room) }
    {
        self.tables.reserve(1)?;
        Ok(())
    }

    // Adds a supertable that has no timestamp yet. It takes no memory.
    pub(crate) fn add_stable(&mut self)
        requires { 0 < self.old.stable_room }
        ensures { self.new.greatest ≡ record self.old.greatest { stables = self.old.greatest.stables ++ None ∷ [] } }
    {
        self.stables.push(None).unwrap();
    }

    // Adds a table that has no timestamp yet. It takes no memory.
    pub(crate) fn add_table(&mut self)
        requires { 0 < self.old.table_room }
        ensures { self.new.greatest ≡ record self.old.greatest { tables = self.old.greatest.tables ++ None ∷ [] } }
    {
        self.tables.push(None).unwrap();
    }

    // Gives the last supertable its greatest timestamp.
    pub(crate) fn set_stable(&mut self, latest: Option<u64>)
        ensures { self.new.greatest ≡ record self.old.greatest
            { stables = with_last self.old.greatest.stables latest } }
    {
        set_last(&mut self.stables, latest);
    }

    // Gives the last table its greatest timestamp.
    pub(crate) fn set_table(&mut self, latest: Option<u64>)
        ensures { self.new.greatest ≡ record self.old.greatest
            { tables = with_last self.old.greatest.tables latest } }
    {
        set_last(&mut self.tables, latest);
    }

    // The greatest timestamp of the supertable at a place, from 0.
    pub(crate) fn stable(&self, place: u32) -> Option<u64>
        requires { place < length self.now.greatest.stables }
        ensures { slice_get self.now.greatest.stables place ≡ Some result }
    {
        self.stables[place as usize]
    }

    // The greatest timestamp of the table at a place, from 0.
    pub(crate) fn table(&self, place: u32) -> Option<u64>
        requires { place < length self.now.greatest.tables }
        ensures { slice_get self.now.greatest.tables place ≡ Some result }
    {
        self.tables[place as usize]
    }

    // Raises the greatest timestamp of a key's supertable, or of its plain table.
    fn raise_by(&mut self, parent: Option<u32>, key: Key)
        ensures { self.new.greatest ≡ raised_by parent key self.old.greatest }
    {
        match parent {
            None => raise(&mut self.tables, key.table, key.ts),
            Some(stable) => raise(&mut self.stables, stable, key.ts),
        }
    }

    // Raises the greatest timestamps by puts. It takes no memory.
    pub(crate) fn raise_all(&mut self, catalog: &Catalog, puts: &[Put])
        ensures { self.new.greatest ≡ raised_all catalog.now.catalog puts.now self.old.greatest }
    {
        for put in puts {
            self.raise_by(parent_of(catalog, put.key.table), put.key);
        }
    }
}
