//! Installs: the files of a frozen memtable take its place under a new head.
ghost use Rattle.std.specs.Prelude.{◌≡◌, ◌≤◌, ◌+◌, ◌++◌, ℕ, Option, List, [], ◌∷◌, map, None};
ghost use Rattle.td_limits.specs.declared.limits.TheConstants.{LAST_TIMESTAMP, LAST_VERSION};
ghost use Rattle.td_model.specs.declared.history.Entry.{Entry as AnEntry};
ghost use Rattle.td_model.specs.State.{State, step};
ghost use Rattle.td_outside.specs.Causes.{raised};
ghost use Rattle.td_told.specs.Journal.{halt_at};
ghost use Rattle.td_told.specs.Turn.{halt_line};
ghost use Rattle.td_state.specs.Held.{bare};
ghost use Rattle.td_engine.specs.CoreState.{seen};
ghost use Rattle.td_engine.specs.Covers.{FactsAre, RowsAre, HeldIs, PinsAre, JournalIs, ImageIs, FloorIs, ClockIs};
ghost use Rattle.td_engine.specs.Commits.{IsOut, IsHome};
ghost use Rattle.td_engine.specs.Installs.{InstallEnds, HaveFiles, added_by};

use crate::journal::Journal;
use crate::kept::Core;
use td_commit::Frozen;
use td_layer::Seq;
use td_making::{Swapped, finish_all, next_head, swap};
use td_model::{JournalLine, Mark};
use td_outside::{Clock, IoFault, Store};
use td_state::Tables;

/// What became of an install.
pub enum Install {
    /// The head has this version, and the log of the entries up to it is gone.
    Installed { version: u64 },
    /// The frozen memtable of this number isn't the one that is out.
    Strange { number: u64 },
    /// A file couldn't be finished.
    StoreFault,
    /// The history has a halt at this version.
    Halted { version: u64 },
    NoMemory,
}

// Takes in a halt at a moment, and gives its version. It takes no memory.
fn halt(tables: &mut Tables, journal: &mut Journal, moment: u64) -> u64
    requires version { tables.old.state.version ≤ LAST_VERSION }
    requires moment { moment ≤ LAST_TIMESTAMP }
    requires room { 1 ≤ journal.old.spare }
    ensures version { result ≡ tables.old.state.version + 1 }
    ensures state { tables.new.state ≡ bare (step (tables.old.state ∷ []) (halt_at moment)) }
    ensures journal { journal.new.items ≡ journal.old.items ++ halt_line (tables.old.state.version + 1) moment ∷ [] }
{
    tables.stop(moment);
    let version = tables.version();
    journal.note(JournalLine {
        version,
        session: 0,
        ordinal: 0,
        moment,
        mark: Mark::Halt,
    });
    version
}

impl<S: Store, C: Clock> Core<S, C> {
    // Puts the files of the frozen memtable that is out in its place.
    fn put_in_place(&mut self, frozen: &Frozen, files: Seq<S::Writer>) -> Install
        requires going { self.old.state.halt ≡ None }
        requires home { IsHome (seen S.told S.count C.readings self.old) frozen.now }
        requires out { IsOut (seen S.told S.count C.readings self.old) frozen.now }
        requires files { HaveFiles (S.told self.old.store) frozen.now (map S.Writer.written files) }
        ensures ends { InstallEnds (seen S.told S.count C.readings self.old)
            (seen S.told S.count C.readings self.new) frozen.now result }
        ensures later { raised (S.count self.old.store) 0 ≤ S.count self.new.store }
    {
        self.flight = None;
        let numbers = match finish_all(self.alloc, &mut self.store, files) {
            Ok(numbers) => numbers,
            Err(IoFault::Failed) => return Install::StoreFault,
            Err(IoFault::NoMemory) => return Install::NoMemory,
        };
        let Some(head) = &mut self.sealed else {
            return Install::NoMemory;
        };
        let older = head.first_log - 1;
        let Ok(next) = next_head(self.alloc, &self.levels, head, frozen, numbers.as_slice()) else {
            return Install::NoMemory;
        };
        match swap(self.alloc, &mut self.store, next.bytes.as_slice(), older) {
            Swapped::NoMemory => Install::NoMemory,
            Swapped::NotSwapped => {
                let version = halt(&mut self.tables, &mut self.journal, self.floor);
                Install::Halted { version }
            }
            Swapped::NotDropped => {
                self.levels.install(next.sets);
                self.committed = frozen.version;
                self.sealed = None;
                let version = halt(&mut self.tables, &mut self.journal, self.floor);
                Install::Halted { version }
            }
            Swapped::Done => {
                self.levels.install(next.sets);
                self.committed = frozen.version;
                self.sealed = None;
                Install::Installed {
                    version: frozen.version,
                }
            }
        }
    }

    // Puts the files of a frozen memtable in its place, where it is the one that is out and nothing halted.
    fn take_in(&mut self, frozen: Frozen, files: Seq<S::Writer>) -> Install
        requires out { IsHome (seen S.told S.count C.readings self.old) frozen
            → IsOut (seen S.told S.count C.readings self.old) frozen }
        requires files { HaveFiles (S.told self.old.store) frozen (map S.Writer.written files) }
        ensures ends { InstallEnds (seen S.told S.count C.readings self.old)
            (seen S.told S.count C.readings self.new) frozen result }
        ensures later { raised (S.count self.old.store) 0 ≤ S.count self.new.store }
    {
        if let Some(version) = self.tables.halt() {
            self.abandon_files(files);
            self.thaw(frozen);
            return Install::Halted { version };
        }
        if !self.is_out(&frozen) {
            let number = frozen.number;
            self.abandon_files(files);
            return Install::Strange { number };
        }
        self.put_in_place(&frozen, files)
    }

    /// Puts the files of a frozen memtable in its place: finishes them, swaps the head, and drops the log of its
    /// entries.
    pub fn install(&mut self, frozen: Frozen, files: Seq<S::Writer>) -> Install
        requires out { IsHome (seen S.told S.count C.readings self.old) frozen
            → IsOut (seen S.told S.count C.readings self.old) frozen }
        requires files { HaveFiles (S.told self.old.store) frozen (map S.Writer.written files) }
        ensures installs { InstallEnds (seen S.told S.count C.readings self.old)
            (seen S.told S.count C.readings self.new) frozen result }
        ensures facts { (b : State) (h : List AnEntry) → FactsAre (seen S.told S.count C.readings self.old) b h
            → FactsAre (seen S.told S.count C.readings self.new) b (h ++ added_by
            result self.old.state.halt self.old.floor) }
        ensures rows { (b : State) (h : List AnEntry) → FactsAre (seen S.told S.count C.readings self.old) b h
            → RowsAre (seen S.told S.count C.readings self.old) b h
            → RowsAre (seen S.told S.count C.readings self.new) b (h ++ added_by
            result self.old.state.halt self.old.floor) }
        ensures held { HeldIs (seen S.told S.count C.readings self.old)
            → HeldIs (seen S.told S.count C.readings self.new) }
        ensures pins { PinsAre (seen S.told S.count C.readings self.old)
            → PinsAre (seen S.told S.count C.readings self.new) }
        ensures journal { (b : State) (h : List AnEntry) → FactsAre (seen S.told S.count C.readings self.old) b h
            → JournalIs (seen S.told S.count C.readings self.old) b h
            → JournalIs (seen S.told S.count C.readings self.new) b (h ++ added_by
            result self.old.state.halt self.old.floor) }
        ensures image { (b : State) (h : List AnEntry) → ImageIs (seen S.told S.count C.readings self.old) b h
            → ImageIs (seen S.told S.count C.readings self.new) b (h ++ added_by
            result self.old.state.halt self.old.floor) }
        ensures later { raised (S.count self.old.store) 0 ≤ S.count self.new.store }
        ensures floor { (b : State) (h : List AnEntry) → FloorIs (seen S.told S.count C.readings self.old) b h
            → FloorIs (seen S.told S.count C.readings self.new) b (h ++ added_by
            result self.old.state.halt self.old.floor) }
        ensures clock { (opened : Option (List ℕ)) (b : State) (h : List AnEntry)
            → ClockIs opened (seen S.told S.count C.readings self.old) b h
            → ClockIs opened (seen S.told S.count C.readings self.new) b (h ++ added_by
            result self.old.state.halt self.old.floor) }
    {
        let _ = &self.alloc;
        self.take_in(frozen, files)
    }
}
