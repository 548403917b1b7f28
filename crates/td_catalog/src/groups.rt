//! The numbers of the subtables of each supertable.
ghost use Rattle.std.specs.Prelude.{◌≡◌, ◌<◌, ◌-◌, ◌++◌, ◌∷◌, [], length, OnOk};
ghost use Rattle.std.specs.Option.{ForSome};
ghost use Rattle.td_catalog.specs.Kept.{IsNumbered};
ghost use Rattle.td_catalog.specs.Groups.{group_at, with_child};

use std::alloc::Global;
use std::marker::Model;
use td_layer::NoMem;

// For each supertable, in number order, the numbers of its subtables. Contracts see them, whether there is room for one
// more supertable, and whether each has room for one more subtable.
#[derive(Drop)]
pub(crate) struct Groups {
    alloc: Global,
    groups: Vec<Vec<u32>>,
    // the place of the group that was added, or added to, since room was made: no other lacks room
    full: Option<usize>,
}

impl Model for Groups {
    ghost use Rattle.td_catalog.specs.Groups.{Grouped};

    ghost Value = { Grouped };

    ghost use Rattle.td_catalog.specs.Roomy.{grouped_of, AreRoomy};

    ghost view = { grouped_of };

    ghost invariant = { AreRoomy };
}

impl Groups {
    // Of no supertable. It takes no memory.
    pub(crate) fn empty(alloc: Global) -> Groups
        ensures { result.lists ≡ [] }
    {
        Groups {
            alloc,
            groups: Vec::new(alloc),
            full: None,
        }
    }

    // Makes room for one more supertable, and for one more subtable of any. The numbers stay as they are, also where
    // there is no memory.
    pub(crate) fn make_room(&mut self) -> Result<(), NoMem>
        ensures unchanged { self.new.lists ≡ self.old.lists }
        ensures stable { OnOk result (0 < self.new.stable_room) }
        ensures child { OnOk result (0 < self.new.child_room) }
    {
        self.groups.reserve(1)?;
        if let Some(at) = self.full {
            self.groups[at].reserve(1)?;
            self.full = None;
        }
        Ok(())
    }

    // Adds a supertable, of no subtable. It takes no memory.
    pub(crate) fn add_group(&mut self)
        requires { 0 < self.old.stable_room }
        ensures { self.new.lists ≡ self.old.lists ++ [] ∷ [] }
    {
        self.full = Some(self.groups.len());
        self.groups.push_reserved(Vec::new(self.alloc));
    }

    // Adds a table to the subtables of its supertable, if it has one. It takes no memory.
    pub(crate) fn add(&mut self, parent: Option<u32>, table: u32)
        requires there { ForSome parent (λ stable. IsNumbered stable (length self.old.lists)) }
        requires room { 0 < self.old.child_room }
        ensures { self.new.lists ≡ with_child parent table self.old.lists }
    {
        if let Some(stable) = parent {
            let at = stable as usize - 1;
            self.groups[at].push_reserved(table);
            self.full = Some(at);
        }
    }

    // The numbers of the subtables of a supertable.
    pub(crate) fn of(&self, stable: u32) -> &[u32]
        requires { IsNumbered stable (length self.now.lists) }
        ensures { result.now ≡ group_at stable self.now.lists }
    {
        self.groups[stable as usize - 1].as_slice()
    }
}
