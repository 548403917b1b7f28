//! What is kept beside the catalog.
ghost use Rattle.std.specs.Prelude.{◌≡◌, ◌<◌, [], length, slice_get, IfOk, None, Some};
ghost use Rattle.td_catalog.specs.Kept.{CanFollow};
ghost use Rattle.td_verdict.specs.Plans.{subtables_of};
ghost use Rattle.td_state.specs.Latest.{with_last};
ghost use Rattle.td_state.specs.Contents.{kept_after, placed, noted, part_of, HasPlace, HasLatestRoom, HasRoomBeside};

use crate::latest::Latest;
use std::alloc::Global;
use std::marker::Model;
use td_catalog::Catalog;
use td_layer::NoMem;
use td_model::{Entry, What};
use td_tagidx::{TagChange, TagIndex};

/// The subtables by their tags, the greatest timestamps that were ever put, the retention edge, and the version of the
/// halt, if there is one.
#[derive(Drop)]
pub(crate) struct Contents {
    index: TagIndex,
    latest: Latest,
    edge: u32,
    halt: Option<u64>,
}

impl Model for Contents {
    ghost use Rattle.td_state.specs.Latest.{with_last};
    ghost use Rattle.td_state.specs.Contents.{ContentsHeld};

    ghost Value = { ContentsHeld };

    ghost view = { λ s. record {
      kept = record {
        subtables = s.index.subtables;
        greatest = s.latest.greatest;
        edge = s.edge;
        halt = s.halt;
      };
      room = record { subtables = s.index.room; stables = s.latest.stable_room; tables = s.latest.table_room };
    } };
}

/// What an entry needs of memory beside the catalog: the tags of a subtable, or nothing.
#[derive(Drop)]
pub enum Part {
    Nothing,
    Subtable(TagChange),
}

impl Contents {
    // Nothing is kept yet. It takes no memory.
    pub(crate) fn new(alloc: Global) -> Contents
        ensures { result.kept ≡ record {
          subtables = [];
          greatest = record { stables = []; tables = [] };
          edge = 0;
          halt = None;
        } }
    {
        Contents {
            index: TagIndex::empty(alloc),
            latest: Latest::new(alloc),
            edge: 0,
            halt: None,
        }
    }

    // The index of the subtables.
    pub(crate) fn index(&self) -> &TagIndex
        ensures { result.now.subtables ≡ self.now.kept.subtables }
    {
        &self.index
    }

    // The retention edge.
    pub(crate) fn edge(&self) -> u32
        ensures { result ≡ self.now.kept.edge }
    {
        self.edge
    }

    // The version of the halt, if there is one.
    pub(crate) fn halt(&self) -> Option<u64>
        ensures { result ≡ self.now.kept.halt }
    {
        self.halt
    }

    // Takes the memory that an entry needs, and gives its part, over the catalog before it. What is kept stays as it
    // is, also where there is no memory.
    pub(crate) fn prepare(&mut self, catalog: &Catalog, entry: &Entry) -> Result<Part, NoMem>
        requires subtables { self.old.kept.subtables ≡ subtables_of catalog.now.catalog }
        requires follows { CanFollow entry.now.what catalog.now.catalog }
        ensures unchanged { self.new.kept ≡ self.old.kept }
        ensures part { IfOk result (λ part. part ≡ part_of entry.now.what catalog.now.catalog) }
        ensures room { IfOk result (λ _. HasRoomBeside entry.now.what self.new.room) }
    {
        match &entry.what {
            What::MakeStable { .. } => {
                self.latest.make_stable_room()?;
                Ok(Part::Nothing)
            }
            What::MakeTable { .. } => {
                self.latest.make_table_room()?;
                Ok(Part::Nothing)
            }
            What::MakeSub { tags, .. } => {
                self.latest.make_table_room()?;
                let change = self.index.prepare(catalog.tables() + 1, tags.as_slice())?;
                Ok(Part::Subtable(change))
            }
            _ => Ok(Part::Nothing),
        }
    }

    // Puts a part in its place.
    fn place(&mut self, part: Part)
        requires { HasPlace part self.old }
        ensures kept { self.new.kept ≡ placed part self.old.kept }
        ensures stables { self.new.room.stables ≡ self.old.room.stables }
        ensures tables { self.new.room.tables ≡ self.old.room.tables }
    {
        match part {
            Part::Nothing => (),
            Part::Subtable(change) => self.index.add(change),
        }
    }

    // Notes what else an entry of a version changes, over the catalog before it.
    fn note(&mut self, catalog: &Catalog, version: u64, what: &What)
        requires { HasLatestRoom what.now self.old.room }
        ensures { self.new.kept ≡ noted what.now version catalog.now.catalog self.old.kept }
    {
        match what {
            What::MakeStable { .. } => self.latest.add_stable(),
            What::MakeTable { .. } | What::MakeSub { .. } => self.latest.add_table(),
            What::Put(puts) => self.latest.raise_all(catalog, puts.as_slice()),
            What::Edge(edge) => self.edge = *edge,
            What::Halt => self.halt = Some(version),
            _ => (),
        }
    }

    // Takes in an entry of a version, with its part, over the catalog before it. It takes no memory.
    pub(crate) fn apply(&mut self, catalog: &Catalog, version: u64, entry: &Entry, part: Part)
        requires subtables { self.old.kept.subtables ≡ subtables_of catalog.now.catalog }
        requires part { part ≡ part_of entry.now.what catalog.now.catalog }
        requires room { HasRoomBeside entry.now.what self.old.room }
        ensures { self.new.kept ≡ kept_after entry.now.what version catalog.now.catalog self.old.kept }
    {
        self.place(part);
        self.note(catalog, version, &entry.what);
    }

    // Gives the last supertable its greatest timestamp.
    pub(crate) fn set_stable_latest(&mut self, latest: Option<u64>)
        ensures { self.new.kept ≡ record self.old.kept {
          greatest = record self.old.kept.greatest
              { stables = with_last self.old.kept.greatest.stables latest };
        } }
    {
        self.latest.set_stable(latest);
    }

    // Gives the last table its greatest timestamp.
    pub(crate) fn set_table_latest(&mut self, latest: Option<u64>)
        ensures { self.new.kept ≡ record self.old.kept {
          greatest = record self.old.kept.greatest
              { tables = with_last self.old.kept.greatest.tables latest };
        } }
    {
        self.latest.set_table(latest);
    }

    // The greatest timestamp of the supertable at a place, from 0.
    pub(crate) fn stable_latest(&self, place: u32) -> Option<u64>
        requires { place < length self.now.kept.greatest.stables }
        ensures { slice_get self.now.kept.greatest.stables place ≡ Some result }
    {
        self.latest.stable(place)
    }

    // The greatest timestamp of the table at a place, from 0.
    pub(crate) fn table_latest(&self, place: u32) -> Option<u64>
        requires { place < length self.now.kept.greatest.tables }
        ensures { slice_get self.now.kept.greatest.tables place ≡ Some result }
    {
        self.latest.table(place)
    }

    // Moves the retention edge.
    pub(crate) fn set_edge(&mut self, edge: u32)
        ensures { self.new.kept ≡ record self.old.kept { edge = edge } }
    {
        self.edge = edge;
    }

    // Takes in a halt of a version.
    pub(crate) fn stop(&mut self, version: u64)
        ensures { self.new.kept ≡ record self.old.kept { halt = Some version } }
    {
        self.halt = Some(version);
    }
}
