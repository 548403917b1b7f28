//! What a core keeps.
ghost use Rattle.std.specs.Prelude.{◌≡◌};

use crate::journal::Journal;
use std::alloc::Global;
use std::marker::Model;
use td_active::ActiveLog;
use td_fileset::Pins;
use td_levels::RowLevels;
use td_manifest::Head;
use td_model::JournalLine;
use td_outside::{Clock, Store};
use td_state::Tables;

/// What tells a frozen memtable that is out from others: its number, and the versions between which its entries lie.
#[derive(Clone, Copy, PartialEq, Eq)]
pub struct Flight {
    pub number: u64,
    pub from: u64,
    pub version: u64,
}

/// A core: the state in memory but for its rows, the levels that hold these, the journal of its entries since it was
/// opened, the store with the log that is written, and the clock. It is spent by [`close_core`].
///
/// Contracts see the store and the clock, the state, the levels, what was committed, frozen and pinned, the journal,
/// the greatest moment that was given, and which log is written. As long as nothing halted, the store stands for the
/// state.
pub struct Core<S: Store, C: Clock> {
    pub(crate) alloc: Global,
    pub(crate) store: S,
    pub(crate) clock: C,
    pub(crate) tables: Tables,
    pub(crate) levels: RowLevels,
    // the version of the head
    pub(crate) committed: u64,
    // the head of the state up to which the frozen memtable goes, without file sets
    pub(crate) sealed: Option<Head>,
    // the frozen memtable that is out, and the number of the next
    pub(crate) flight: Option<Flight>,
    pub(crate) next_number: u64,
    pub(crate) pins: Pins,
    // with room for the line of a halt, as long as nothing halted
    pub(crate) journal: Journal,
    // the version of the state that was opened
    pub(crate) base: u64,
    // the greatest moment that was given
    pub(crate) floor: u64,
    pub(crate) log: ActiveLog,
}

impl<S: Store, C: Clock> Model for Core<S, C> {
    ghost use Rattle.td_engine.specs.CoreState.{Kept, frozen_at, IsKept};

    ghost Value = { Kept S C };

    ghost view = { λ c. record {
      store = c.store;
      clock = c.clock;
      state = c.tables.state;
      levels = c.levels;
      committed = c.committed;
      frozen_at = frozen_at c.sealed;
      flight = c.flight;
      pins = c.pins;
      journal = c.journal.items;
      base = c.base;
      floor = c.floor;
      log = c.log;
    } };

    ghost invariant = { λ c. IsKept (S.told c.store) c.tables.state c.levels c.committed c.sealed c.log
        c.floor c.journal.spare };
}

impl<S: Store, C: Clock> Core<S, C> {
    /// The version of the state.
    pub fn front(&self) -> u64
        ensures { result ≡ self.now.state.version }
    {
        self.tables.version()
    }

    /// The version of the state that was opened.
    pub fn base(&self) -> u64
        ensures { result ≡ self.now.base }
    {
        self.base
    }

    /// How many parts the active memtable holds, at most 65536.
    pub fn held(&self) -> u32
        ensures { result ≡ self.now.levels.active.held }
    {
        self.levels.held()
    }

    /// The lines of the entries since the core was opened, in order of version.
    pub fn journal(&self) -> &[JournalLine]
        ensures { result.now ≡ self.now.journal }
    {
        self.journal.as_slice()
    }
}

/// Ends a core and gives its store as it stands.
pub fn close_core<S: Store, C: Clock>(core: Core<S, C>) -> S
    ensures { result ≡ core.store }
{
    let Core {
        alloc: _,
        store,
        clock: _,
        tables,
        levels,
        committed: _,
        sealed,
        flight: _,
        next_number: _,
        pins,
        journal,
        base: _,
        floor: _,
        log: _,
    } = core;
    drop(tables);
    drop(levels);
    drop(sealed);
    drop(pins);
    drop(journal);
    store
}
