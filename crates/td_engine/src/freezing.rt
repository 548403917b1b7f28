//! Freezing the active memtable, and files in making.
ghost use Rattle.std.specs.Prelude.{◌≡◌, ◌↔◌, ◌≤◌, ℕ, Option, List, [], take, length, map, sum, All, None, Some, ◌≢◌, IsTrue, IfOk, OnErr, MatchOption};
ghost use Rattle.std.specs.Option.{option_map};
ghost use Rattle.td_model.specs.declared.history.Entry.{Entry as AnEntry};
ghost use Rattle.td_model.specs.State.{State};
ghost use Rattle.td_outside.specs.Causes.{raised};
ghost use Rattle.td_outside.specs.Image.{Along};
ghost use Rattle.td_engine.specs.CoreState.{seen};
ghost use Rattle.td_engine.specs.Covers.{FactsAre, RowsAre, HeldIs, PinsAre, JournalIs, ImageIs, FloorIs, ClockIs};
ghost use Rattle.td_engine.specs.Commits.{Freezes, GivesFrozen, TakesFrozen, HasNothing, flight_of, KeepsButStore, KeepsFiles, Thaws, HasCreated, IsHome};

use crate::kept::{Core, Flight};
use td_active::ActiveLog;
use td_commit::Frozen;
use td_layer::{NoMem, Seq};
use td_making::{abandon_all, create_all};
use td_model::Kind;
use td_outside::{Clock, IoFault, Store};

/// What a freeze gives.
pub enum Freeze {
    /// The entries above the head's version up to the front, or those of an earlier freeze, to be written to files.
    Frozen(Frozen),
    /// Nothing is frozen, and the front is the head's version.
    Nothing,
    /// The frozen memtable, up to this version, is out.
    Busy { version: u64 },
    /// The history has a halt at this version.
    Stopped { version: u64 },
    NoMemory,
}

// The kinds of the first tables.
fn first_kinds(kinds: Seq<Seq<Kind>>, count: usize) -> Seq<Seq<Kind>>
    ensures { result ≡ take count kinds }
{
    let mut kinds = kinds;
    while count < kinds.len() {
        let _ = kinds.pop();
    }
    kinds
}

impl<S: Store, C: Clock> Core<S, C> {
    // The memtable that is frozen, with what writing it needs; none where nothing is frozen.
    fn frozen_before(&self) -> Result<Option<Frozen>, NoMem>
        ensures { IfOk result (GivesFrozen (seen S.told S.count C.readings self.now)) }
    {
        self.tables.is_sound();
        let Some(memtable) = self.levels.share_frozen()? else {
            return Ok(None);
        };
        let Some(sealed) = &self.sealed else {
            return Ok(None);
        };
        let ranges = self.levels.ranges(sealed.edge)?;
        let kinds = first_kinds(self.tables.kinds()?, sealed.tables.len());
        Ok(Some(Frozen {
            number: self.next_number,
            from: self.committed,
            version: sealed.version,
            ranges,
            memtable,
            kinds,
        }))
    }

    // Freezes the active memtable, where none is frozen and it has an entry. The next log is written from then on. All
    // memory is taken first.
    fn freeze_active(&mut self) -> Result<Frozen, NoMem>
        requires going { self.old.state.halt ≡ None }
        requires none { self.old.levels.frozen ≡ None }
        requires more { self.old.state.version ≢ self.old.committed }
        ensures ok { IfOk result (TakesFrozen (seen S.told S.count C.readings self.old)
            (seen S.told S.count C.readings self.new)) }
        ensures err { OnErr result (self.new ≡ self.old) }
    {
        self.tables.is_sound();
        let number = self.log.number + 1;
        let sealed = self.tables.head(number)?;
        let kinds = self.tables.kinds()?;
        let ranges = self.levels.active_ranges(self.tables.edge())?;
        let memtable = self.levels.share_active()?;
        let version = self.tables.version();
        self.levels.freeze();
        self.sealed = Some(sealed);
        self.log = ActiveLog {
            number,
            first: version + 1,
            gate: 0,
            is_made: false,
        };
        Ok(Frozen {
            number: self.next_number,
            from: self.committed,
            version,
            ranges,
            memtable,
            kinds,
        })
    }

    // The memtable that was frozen before, or else the active one, which is frozen. None where that has no entry.
    fn take_frozen(&mut self) -> Result<Option<Frozen>, NoMem>
        requires going { self.old.state.halt ≡ None }
        ensures ok { IfOk result (λ taken. MatchOption taken (HasNothing
            (seen S.told S.count C.readings self.old) (seen S.told S.count C.readings self.new)) (TakesFrozen
            (seen S.told S.count C.readings self.old) (seen S.told S.count C.readings self.new))) }
        ensures err { OnErr result (self.new ≡ self.old) }
    {
        if let Some(frozen) = self.frozen_before()? {
            return Ok(Some(frozen));
        }
        if self.tables.version() == self.committed {
            return Ok(None);
        }
        let frozen = self.freeze_active()?;
        Ok(Some(frozen))
    }

    // Notes which frozen memtable is out.
    fn note_out(&mut self, frozen: &Frozen)
        ensures { self.new ≡ record self.old { flight = Some (flight_of frozen.now) } }
    {
        self.next_number = self.next_number.wrapping_add(1);
        self.flight = Some(Flight {
            number: frozen.number,
            from: frozen.from,
            version: frozen.version,
        });
    }

    // Hands out what is to be written, where nothing is out and nothing halted.
    fn hand_out(&mut self) -> Freeze
        requires going { self.old.state.halt ≡ None }
        requires home { self.old.flight ≡ None }
        ensures { Freezes (seen S.told S.count C.readings self.old) (seen S.told S.count C.readings self.new) result }
    {
        match self.take_frozen() {
            Ok(None) => Freeze::Nothing,
            Ok(Some(frozen)) => {
                self.note_out(&frozen);
                Freeze::Frozen(frozen)
            }
            Err(NoMem) => Freeze::NoMemory,
        }
    }

    // Hands out what is to be written, or says why nothing is.
    fn give(&mut self) -> Freeze
        ensures { Freezes (seen S.told S.count C.readings self.old) (seen S.told S.count C.readings self.new) result }
    {
        if let Some(version) = self.tables.halt() {
            return Freeze::Stopped { version };
        }
        if let Some(flight) = self.flight {
            return Freeze::Busy {
                version: flight.version,
            };
        }
        self.hand_out()
    }

    /// Hands out what is to be written to files: a frozen memtable that a failed commit or the opening left, else the
    /// active one, which is frozen. All memory is taken first; where there is none the core stays as it was.
    pub fn freeze(&mut self) -> Freeze
        ensures freezes { Freezes (seen S.told S.count C.readings self.old)
            (seen S.told S.count C.readings self.new) result }
        ensures facts { (b : State) (h : List AnEntry) → FactsAre (seen S.told S.count C.readings self.old) b h
            → FactsAre (seen S.told S.count C.readings self.new) b h }
        ensures rows { (b : State) (h : List AnEntry) → RowsAre (seen S.told S.count C.readings self.old) b h
            → RowsAre (seen S.told S.count C.readings self.new) b h }
        ensures held { HeldIs (seen S.told S.count C.readings self.old)
            → HeldIs (seen S.told S.count C.readings self.new) }
        ensures pins { PinsAre (seen S.told S.count C.readings self.old)
            → PinsAre (seen S.told S.count C.readings self.new) }
        ensures journal { (b : State) (h : List AnEntry) → JournalIs (seen S.told S.count C.readings self.old) b h
            → JournalIs (seen S.told S.count C.readings self.new) b h }
        ensures image { (b : State) (h : List AnEntry) → ImageIs (seen S.told S.count C.readings self.old) b h
            → ImageIs (seen S.told S.count C.readings self.new) b h }
        ensures floor { (b : State) (h : List AnEntry) → FloorIs (seen S.told S.count C.readings self.old) b h
            → FloorIs (seen S.told S.count C.readings self.new) b h }
        ensures clock { (opened : Option (List ℕ)) (b : State) (h : List AnEntry)
            → ClockIs opened (seen S.told S.count C.readings self.old) b h
            → ClockIs opened (seen S.told S.count C.readings self.new) b h }
    {
        let _ = &self.alloc;
        self.give()
    }

    // Whether a frozen memtable is the one that is out.
    pub(crate) fn is_out(&self, frozen: &Frozen) -> bool
        ensures { IsTrue result ↔ IsHome (seen S.told S.count C.readings self.now) frozen.now }
    {
        match self.flight {
            None => false,
            Some(flight) => {
                flight.number == frozen.number
                    && flight.from == frozen.from
                    && flight.version == frozen.version
            }
        }
    }

    /// Takes a frozen memtable back that wasn't written. One that isn't out changes nothing.
    pub fn thaw(&mut self, frozen: Frozen)
        ensures { Thaws (seen S.told S.count C.readings self.old) (seen S.told S.count C.readings self.new) frozen }
    {
        if self.is_out(&frozen) {
            self.flight = None;
        }
    }

    /// Begins so many files. Where the store fails, or there is no memory, those that were begun are given up.
    pub fn create_files(&mut self, count: u32) -> Result<Seq<S::Writer>, IoFault>
        ensures same { KeepsButStore (seen S.told S.count C.readings self.old)
            (seen S.told S.count C.readings self.new) }
        ensures image { Along KeepsFiles (S.told self.old.store) (S.told self.new.store) }
        ensures count { IfOk result (λ files. length files ≡ count) }
        ensures empty { IfOk result
            (All (λ w. S.Writer.written w ≡ option_map (λ _. []) (S.told self.new.store))) }
        ensures clean { IfOk result (All (λ w. S.Writer.count w ≡ 0)) }
        ensures cause { HasCreated (S.count self.old.store) (S.count self.new.store) result }
        ensures rows { (b : State) (h : List AnEntry) → RowsAre (seen S.told S.count C.readings self.old) b h
            → RowsAre (seen S.told S.count C.readings self.new) b h }
        ensures pinned { PinsAre (seen S.told S.count C.readings self.old)
            → PinsAre (seen S.told S.count C.readings self.new) }
        ensures stands { (b : State) (h : List AnEntry) → ImageIs (seen S.told S.count C.readings self.old) b h
            → ImageIs (seen S.told S.count C.readings self.new) b h }
    {
        create_all(self.alloc, &mut self.store, count)
    }

    /// Gives unfinished files up. The faults of their writers become the store's.
    pub fn abandon_files(&mut self, files: Seq<S::Writer>)
        ensures same { KeepsButStore (seen S.told S.count C.readings self.old)
            (seen S.told S.count C.readings self.new) }
        ensures image { Along KeepsFiles (S.told self.old.store) (S.told self.new.store) }
        ensures count { raised (S.count self.old.store) (sum (map S.Writer.count files)) ≤ S.count self.new.store }
        ensures rows { (b : State) (h : List AnEntry) → RowsAre (seen S.told S.count C.readings self.old) b h
            → RowsAre (seen S.told S.count C.readings self.new) b h }
        ensures pinned { PinsAre (seen S.told S.count C.readings self.old)
            → PinsAre (seen S.told S.count C.readings self.new) }
        ensures stands { (b : State) (h : List AnEntry) → ImageIs (seen S.told S.count C.readings self.old) b h
            → ImageIs (seen S.told S.count C.readings self.new) b h }
    {
        abandon_all(&mut self.store, files);
    }
}
