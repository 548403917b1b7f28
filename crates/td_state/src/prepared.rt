//! An entry that is prepared.
ghost use Rattle.std.specs.Prelude.{◌≡◌};

use crate::contents::Part;
use std::marker::Model;
use td_catalog::Change;
use td_model::Entry;

/// An entry with all the memory that taking it in needs. Contracts see the entry, what it changes in the catalog, and
/// its part beside the catalog. One that isn't applied is dropped.
#[derive(Drop)]
pub struct Prepared {
    pub(crate) entry: Entry,
    pub(crate) change: Change,
    pub(crate) part: Part,
}

impl Model for Prepared {
    ghost use Rattle.td_state.specs.Held.{PreparedEntry};

    ghost Value = { PreparedEntry };

    ghost view = { λ s. record { entry = s.entry; change = s.change; part = s.part } };
}

impl Prepared {
    /// The entry.
    pub fn entry(&self) -> &Entry
        ensures { result.now ≡ self.now.entry }
    {
        &self.entry
    }
}
