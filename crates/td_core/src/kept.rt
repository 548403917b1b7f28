//! What a core keeps.
ghost use Rattle.std.specs.Prelude.{◌≡◌};

use crate::journal::Journal;
use std::alloc::Global;
use std::marker::Model;
use td_model::JournalLine;
use td_outside::{Clock, Store};
use td_tables::Tables;

/// The log that is written: its number, the version of its first item, the place of its closed gate, and whether it
/// is there.
#[derive(Clone, Copy)]
pub(crate) struct ActiveLog {
    pub(crate) number: u64,
    pub(crate) first: u64,
    pub(crate) gate: u64,
    pub(crate) is_made: bool,
}

/// A core: the state in memory, the journal of its entries since it was opened, the store with the log that is
/// written, and the clock. It is spent by [`close_core`].
///
/// Contracts see the store and the clock, the state, the journal, the greatest moment that was given, and which log is
/// written. As long as nothing halted, the store stands for the state.
pub struct Core<S: Store, C: Clock> {
    pub(crate) alloc: Global,
    pub(crate) store: S,
    pub(crate) clock: C,
    pub(crate) tables: Tables,
    // with room for the line of a halt, as long as nothing halted
    pub(crate) journal: Journal,
    // the version of the state that was opened
    pub(crate) base: u64,
    // the greatest moment that was given
    pub(crate) floor: u64,
    pub(crate) log: ActiveLog,
}

impl<S: Store, C: Clock> Model for Core<S, C> {
    ghost use Rattle.td_core.specs.CoreState.{Kept, log_place, IsKept};

    ghost Value = { Kept S C };

    ghost view = { λ c. record {
      store = c.store;
      clock = c.clock;
      state = c.tables.state;
      journal = c.journal.items;
      base = c.base;
      floor = c.floor;
      log = log_place c.log;
    } };

    ghost invariant = { λ c. IsKept (S.told c.store) c.tables.state (log_place c.log) c.log.is_made c.floor
        c.journal.spare };
}

impl<S: Store, C: Clock> Core<S, C> {
    /// The version of the state.
    pub fn front(&self) -> u64
        ensures { result ≡ self.now.state.version }
    {
        self.tables.version()
    }

    /// The version of the state that was opened.
    pub fn base(&self) -> u64
        ensures { result ≡ self.now.base }
    {
        self.base
    }

    /// The lines of the entries since the core was opened, in order of version.
    pub fn journal(&self) -> &[JournalLine]
        ensures { result.now ≡ self.now.journal }
    {
        self.journal.as_slice()
    }
}

/// Ends a core and gives its store as it stands.
pub fn close_core<S: Store, C: Clock>(core: Core<S, C>) -> S
    ensures { result ≡ core.store }
{
    let Core {
        alloc: _,
        store,
        clock: _,
        tables,
        journal,
        base: _,
        floor: _,
        log: _,
    } = core;
    drop(tables);
    drop(journal);
    store
}
