//! Submitting a statement.
ghost use Rattle.std.specs.Prelude.{◌≡◌, ◌+◌, ◌^◌, ◌<◌, ◌≤◌, ℕ, List, ◌∷◌, ◌++◌, [], Option, IsTrue, IfOk, IfSome, IfNone, OnOk, OnErr};
ghost use Rattle.td_limits.specs.declared.limits.TheConstants.{MEMTABLE_PARTS};
ghost use Rattle.td_model.specs.declared.history.Entry.{Entry as AnEntry};
ghost use Rattle.td_model.specs.declared.language.Stmt.{Stmt as AStmt};
ghost use Rattle.td_model.specs.Catalog.{Catalog};
ghost use Rattle.td_model.specs.State.{State, step};
ghost use Rattle.td_catalog.specs.Kept.{CanFollow};
ghost use Rattle.td_manifest.specs.declared.head.Head.{Head};
ghost use Rattle.td_parse.specs.Statements.{IsAnswer};
ghost use Rattle.td_told.specs.Journal.{halt_at};
ghost use Rattle.td_told.specs.Turn.{line_at, halt_line};
ghost use Rattle.td_told.specs.Verdict.{reads_clock};
ghost use Rattle.td_state.specs.Held.{bare, CanTake, IsReady};
ghost use Rattle.td_levels.specs.Fits.{FitsMemtable};
ghost use Rattle.td_levels.specs.Laws.{took};
ghost use Rattle.td_levels.specs.Sets.{or_else};
ghost use Rattle.td_levels.specs.Taken.{taken, parts_of, HasColumnCells};
ghost use Rattle.td_wal.specs.Append.{IsWritable, next_gate};
ghost use Rattle.td_engine.specs.CoreState.{seen};
ghost use Rattle.td_active.specs.Carried.{text_item, Records};
ghost use Rattle.td_engine.specs.Carrying.{parts, AreCarried, CarriesOut, Stays};
ghost use Rattle.td_engine.specs.Covers.{FactsAre, RowsAre, HeldIs, PinsAre, JournalIs, ImageIs, FloorIs, ClockIs, Legal};
ghost use Rattle.td_engine.specs.Submits.{TakesMoment, KeepsCommitted, Answers, Lacks, Submits, added, asked_by};

use crate::journal::Journal;
use crate::kept::Core;
use std::alloc::Global;
use td_active::{ActiveLog, has_place, item_of, write};
use td_layer::NoMem;
use td_levels::RowLevels;
use td_limits::{LAST_TIMESTAMP, LAST_VERSION, MEMTABLE_PARTS, SESSIONS};
use td_memtable::Memtable;
use td_model::{Cause, Entry, JournalLine, Mark, Stmt, What};
use td_outside::{Clock, Store};
use td_state::{Prepared, Tables};
use td_wal::{LogItem, WalFault};

/// What became of a statement that was submitted.
#[derive(Drop)]
pub enum Submitted {
    /// It is the entry of this version; with its count of rows, and the retention edge behind it.
    Accepted { version: u64, rows: u32, edge: u32 },
    /// It is refused in the state of this version.
    Refused { cause: Cause, prefix: u64 },
    /// The active memtable holds so many parts, and has no room for its own.
    Full { held: u32 },
    /// The store failed as it was written: a halt has this version.
    StoreFault { halt: u64 },
    /// There was no memory; nothing has changed.
    NoMemory,
}

// How many parts of a memtable an entry has.
fn parts_of(what: &What) -> u64
    ensures { result ≡ parts_of what.now }
{
    match what {
        What::Put(puts) => puts.as_slice().len() as u64,
        What::Cut { .. } => 1,
        _ => 0,
    }
}

// How many parts the active memtable holds, where it has no room for those of an entry.
fn full_at(levels: &RowLevels, what: &What) -> Option<u32>
    ensures held { IfSome result (λ held. held ≡ levels.now.active.held) }
    ensures full { IfSome result (λ held. MEMTABLE_PARTS < held + parts_of what.now) }
    ensures room { IfNone result (levels.now.active.held + parts_of what.now ≤ MEMTABLE_PARTS) }
{
    let held = levels.held();
    let room = MEMTABLE_PARTS - held;
    if (room as u64) < parts_of(what) {
        Some(held)
    } else {
        None
    }
}

// An entry, and the active memtable with its parts, where it has some, with all the memory that taking it in needs.
#[derive(Drop)]
struct Taking {
    prepared: Prepared,
    memtable: Option<Memtable>,
}

// Takes in a prepared entry whose record is in the log. It takes no memory.
fn accept(
    tables: &mut Tables,
    levels: &mut RowLevels,
    journal: &mut Journal,
    taking: Taking,
    rows: u32,
) -> Submitted
    requires ready { IsReady taking.prepared tables.old }
    requires parts { or_else taking.memtable levels.old.active
        ≡ taken taking.prepared.entry.what taking.prepared.entry.moment levels.old.active }
    requires room { 2 ≤ journal.old.spare }
    ensures answer { result ≡ Submitted.Accepted (tables.old.state.version + 1) rows tables.new.state.edge }
    ensures state { tables.new.state ≡ bare (step (tables.old.state ∷ []) taking.prepared.entry) }
    ensures levels { levels.new ≡ took taking.prepared.entry levels.old }
    ensures journal { journal.new.items ≡ journal.old.items
        ++ line_at (tables.old.state.version + 1) taking.prepared.entry.session taking.prepared.entry.ordinal
        taking.prepared.entry.moment ∷ [] }
    ensures room { 1 ≤ journal.new.spare }
{
    let Taking { prepared, memtable } = taking;
    let version = tables.version() + 1;
    let entry = prepared.entry();
    let line = JournalLine {
        version,
        session: entry.session,
        ordinal: entry.ordinal,
        moment: entry.moment,
        mark: Mark::Plain,
    };
    tables.apply(prepared);
    levels.apply(memtable);
    journal.note(line);
    Submitted::Accepted {
        version,
        rows,
        edge: tables.edge(),
    }
}

// Takes in a halt at a moment. It takes no memory.
fn halt(tables: &mut Tables, journal: &mut Journal, moment: u64) -> Submitted
    requires version { tables.old.state.version < LAST_VERSION }
    requires moment { moment ≤ LAST_TIMESTAMP }
    requires room { 1 ≤ journal.old.spare }
    ensures answer { result ≡ Submitted.StoreFault (tables.old.state.version + 1) }
    ensures state { tables.new.state ≡ bare (step (tables.old.state ∷ []) (halt_at moment)) }
    ensures journal { journal.new.items ≡ journal.old.items ++ halt_line (tables.old.state.version + 1) moment ∷ [] }
{
    tables.stop(moment);
    let version = tables.version();
    journal.note(JournalLine {
        version,
        session: 0,
        ordinal: 0,
        moment,
        mark: Mark::Halt,
    });
    Submitted::StoreFault { halt: version }
}

// A statement that is accepted, with all the memory that writing it and taking it in needs.
struct Ready {
    item: LogItem,
    taking: Taking,
    rows: u32,
}

// Takes the memory that taking in an accepted entry needs. Nothing that is seen of the state changes.
fn prepare(
    tables: &mut Tables,
    levels: &RowLevels,
    journal: &mut Journal,
    entry: Entry,
) -> Result<Taking, NoMem>
    requires takes { CanTake entry.what tables.old.state }
    requires moment { entry.moment ≤ LAST_TIMESTAMP }
    requires follows { (c : Catalog) × FitsMemtable c levels.now.active × CanFollow entry.what c }
    requires cells { HasColumnCells entry.what }
    requires room { levels.now.active.held + parts_of entry.what ≤ MEMTABLE_PARTS }
    ensures state { tables.new.state ≡ tables.old.state }
    ensures lines { journal.new.items ≡ journal.old.items }
    ensures kept { journal.old.spare ≤ journal.new.spare }
    ensures room { OnOk result (2 ≤ journal.new.spare) }
    ensures entry { IfOk result (λ t. t.prepared.entry ≡ entry) }
    ensures ready { IfOk result (λ t. IsReady t.prepared tables.new) }
    ensures parts { IfOk result (λ t. or_else t.memtable levels.now.active
        ≡ taken entry.what entry.moment levels.now.active) }
{
    let memtable = levels.prepare(&entry.what, entry.moment)?;
    let prepared = tables.prepare(entry)?;
    journal.make_room(2)?;
    Ok(Taking { prepared, memtable })
}

// Takes the memory that an accepted entry of a text needs. Nothing that is seen of the state changes.
fn make_ready(
    alloc: Global,
    tables: &mut Tables,
    levels: &RowLevels,
    journal: &mut Journal,
    text: &[u8],
    entry: Entry,
    rows: u32,
) -> Result<Ready, NoMem>
    requires takes { CanTake entry.what tables.old.state }
    requires moment { entry.moment ≤ LAST_TIMESTAMP }
    requires follows { (c : Catalog) × FitsMemtable c levels.now.active × CanFollow entry.what c }
    requires cells { HasColumnCells entry.what }
    requires room { levels.now.active.held + parts_of entry.what ≤ MEMTABLE_PARTS }
    ensures state { tables.new.state ≡ tables.old.state }
    ensures lines { journal.new.items ≡ journal.old.items }
    ensures kept { journal.old.spare ≤ journal.new.spare }
    ensures room { OnOk result (2 ≤ journal.new.spare) }
    ensures item { IfOk result (λ r. r.item
        ≡ text_item (tables.old.state.version + 1) entry.session entry.ordinal entry.moment text.now) }
    ensures entry { IfOk result (λ r. r.taking.prepared.entry ≡ entry) }
    ensures ready { IfOk result (λ r. IsReady r.taking.prepared tables.new) }
    ensures parts { IfOk result (λ r. or_else r.taking.memtable levels.now.active
        ≡ taken entry.what entry.moment levels.now.active) }
    ensures rows { IfOk result (λ r. r.rows ≡ rows) }
{
    let version = tables.version() + 1;
    let item = item_of(
        alloc,
        version,
        entry.session,
        entry.ordinal,
        entry.moment,
        text,
    )?;
    let taking = prepare(tables, levels, journal, entry)?;
    Ok(Ready { item, taking, rows })
}

// Writes what is ready, and takes its entry in; or a halt, where the store fails.
fn carry_out<S: Store>(
    alloc: Global,
    store: &mut S,
    log: &mut ActiveLog,
    tables: &mut Tables,
    levels: &mut RowLevels,
    journal: &mut Journal,
    ready: Ready,
    moment: u64,
) -> Result<Submitted, NoMem>
    requires writable { IsWritable ready.item }
    requires place { next_gate log.old.gate ready.item < 2 ^ 64 }
    requires carries { (committed : ℕ) × (sealed : Option Head)
        × AreCarried (parts (S.told store.old) (S.count store.old) log.old tables.old.state levels.old journal.old)
        committed sealed }
    requires records { Records ready.item tables.old.state levels.old ready.taking.prepared.entry }
    requires ready { IsReady ready.taking.prepared tables.old }
    requires parts { or_else ready.taking.memtable levels.old.active
        ≡ taken ready.taking.prepared.entry.what ready.taking.prepared.entry.moment levels.old.active }
    requires moment { moment ≤ LAST_TIMESTAMP }
    requires room { 2 ≤ journal.old.spare }
    ensures ok { (committed : ℕ) (sealed : Option Head)
        → AreCarried (parts (S.told store.old) (S.count store.old) log.old tables.old.state levels.old journal.old)
        committed sealed → IfOk result
        (CarriesOut (parts (S.told store.old) (S.count store.old) log.old tables.old.state levels.old journal.old)
        (parts (S.told store.new) (S.count store.new) log.new tables.new.state levels.new journal.new)
        committed sealed ready.taking.prepared.entry moment ready.rows) }
    ensures err { (committed : ℕ) (sealed : Option Head)
        → AreCarried (parts (S.told store.old) (S.count store.old) log.old tables.old.state levels.old journal.old)
        committed sealed → OnErr result
        (Stays (parts (S.told store.old) (S.count store.old) log.old tables.old.state levels.old journal.old)
        (parts (S.told store.new) (S.count store.new) log.new tables.new.state levels.new journal.new)
        committed sealed) }
{
    let Ready { item, taking, rows } = ready;
    match write(alloc, store, log, &item) {
        Ok(()) => {
            drop(item);
            Ok(accept(tables, levels, journal, taking, rows))
        }
        Err(WalFault::StoreFault) => {
            drop(item);
            drop(taking);
            Ok(halt(tables, journal, moment))
        }
        Err(WalFault::NoMemory) => {
            drop(item);
            drop(taking);
            Err(NoMem)
        }
    }
}

impl<S: Store, C: Clock> Core<S, C> {
    // The moment of a call, which becomes the floor. The clock is read once.
    fn take_moment(&mut self) -> u64
        ensures moment { result ≡ self.new.floor }
        ensures takes { TakesMoment (seen S.told S.count C.readings self.old)
            (seen S.told S.count C.readings self.new) }
        ensures rest { self.new ≡ record self.old { clock = self.new.clock; floor = result } }
    {
        self.floor = self.clock.now().max(self.floor);
        self.floor
    }

    // Judges a statement at a moment, writes its record, and takes its entry in; or a halt, where the store fails.
    // What takes memory comes before the record.
    fn enter(
        &mut self,
        session: u32,
        ordinal: u32,
        moment: u64,
        text: &[u8],
        stmt: &Stmt,
    ) -> Result<Submitted, NoMem>
        requires session { (1 ≤ session) × (session ≤ SESSIONS) }
        requires parsed { IsAnswer text.now stmt.now }
        requires write { IsTrue (reads_clock stmt.now) }
        requires moment { moment ≡ self.old.floor }
        ensures floor { self.new.floor ≡ self.old.floor }
        ensures clock { self.new.clock ≡ self.old.clock }
        ensures answers { IfOk result (λ submitted. Answers (seen S.told S.count C.readings self.old)
            (seen S.told S.count C.readings self.new) session ordinal moment stmt.now submitted) }
        ensures lacks { OnErr result (Lacks (seen S.told S.count C.readings self.old)
            (seen S.told S.count C.readings self.new)) }
    {
        self.tables.is_sound();
        let (what, rows) = match self.tables.judge(stmt, moment)? {
            Ok(accepted) => accepted,
            Err(cause) => {
                return Ok(Submitted::Refused {
                    cause,
                    prefix: self.tables.version(),
                });
            }
        };
        if let Some(held) = full_at(&self.levels, &what) {
            drop(what);
            return Ok(Submitted::Full { held });
        }
        if !has_place(self.log.gate, text) {
            drop(what);
            return Err(NoMem);
        }
        let entry = Entry {
            session,
            ordinal,
            moment,
            what,
        };
        let ready = make_ready(
            self.alloc,
            &mut self.tables,
            &self.levels,
            &mut self.journal,
            text,
            entry,
            rows,
        )?;
        carry_out(
            self.alloc,
            &mut self.store,
            &mut self.log,
            &mut self.tables,
            &mut self.levels,
            &mut self.journal,
            ready,
            moment,
        )
    }

    // One submit.
    fn submitted(&mut self, session: u32, ordinal: u32, text: &[u8], stmt: &Stmt) -> Submitted
        requires session { (1 ≤ session) × (session ≤ SESSIONS) }
        requires parsed { IsAnswer text.now stmt.now }
        requires write { IsTrue (reads_clock stmt.now) }
        ensures { Submits (seen S.told S.count C.readings self.old)
            (seen S.told S.count C.readings self.new) session ordinal stmt.now result }
    {
        let moment = self.take_moment();
        match self.enter(session, ordinal, moment, text, stmt) {
            Ok(submitted) => submitted,
            Err(NoMem) => Submitted::NoMemory,
        }
    }

    /// Submits a write, or a text that is no statement, of a session. The clock is read once; its reading, or the
    /// floor where that is greater, is the moment of the call, at which the statement is judged.
    ///
    /// What is accepted is written to the log and synced, and then it is the next entry, whose puts and cuts are in the
    /// active memtable. Where that has no room for them nothing is done, and the answer is Full. Where the store fails,
    /// a halt is the next entry, and from then on every write is refused. For want of memory nothing changes; once the
    /// record is synced that can't come.
    pub fn submit(&mut self, session: u32, ordinal: u32, text: &[u8], stmt: &Stmt) -> Submitted
        requires session { (1 ≤ session) × (session ≤ SESSIONS) }
        requires parsed { IsAnswer text.now stmt.now }
        requires write { IsTrue (reads_clock stmt.now) }
        ensures answer { Submits (seen S.told S.count C.readings self.old)
            (seen S.told S.count C.readings self.new) session ordinal stmt.now result }
        ensures facts { (b : State) (h : List AnEntry)
            → FactsAre (seen S.told S.count C.readings self.old) b h
            → FactsAre (seen S.told S.count C.readings self.new) b
            (h ++ added (seen S.told S.count C.readings self.old)
            (seen S.told S.count C.readings self.new) session ordinal stmt.now result) }
        ensures rows { (b : State) (h : List AnEntry)
            → FactsAre (seen S.told S.count C.readings self.old) b h
            → RowsAre (seen S.told S.count C.readings self.old) b h
            → RowsAre (seen S.told S.count C.readings self.new) b
            (h ++ added (seen S.told S.count C.readings self.old)
            (seen S.told S.count C.readings self.new) session ordinal stmt.now result) }
        ensures held { HeldIs (seen S.told S.count C.readings self.old)
            → HeldIs (seen S.told S.count C.readings self.new) }
        ensures pins { PinsAre (seen S.told S.count C.readings self.old)
            → PinsAre (seen S.told S.count C.readings self.new) }
        ensures committed { KeepsCommitted (seen S.told S.count C.readings self.old)
            (seen S.told S.count C.readings self.new) }
        ensures journal { (b : State) (h : List AnEntry)
            → FactsAre (seen S.told S.count C.readings self.old) b h
            → JournalIs (seen S.told S.count C.readings self.old) b h
            → JournalIs (seen S.told S.count C.readings self.new) b
            (h ++ added (seen S.told S.count C.readings self.old)
            (seen S.told S.count C.readings self.new) session ordinal stmt.now result) }
        ensures image { (b : State) (h : List AnEntry)
            → FactsAre (seen S.told S.count C.readings self.old) b h
            → ImageIs (seen S.told S.count C.readings self.old) b h
            → ImageIs (seen S.told S.count C.readings self.new) b
            (h ++ added (seen S.told S.count C.readings self.old)
            (seen S.told S.count C.readings self.new) session ordinal stmt.now result) }
        ensures floor { (b : State) (h : List AnEntry)
            → FloorIs (seen S.told S.count C.readings self.old) b h
            → FloorIs (seen S.told S.count C.readings self.new) b
            (h ++ added (seen S.told S.count C.readings self.old)
            (seen S.told S.count C.readings self.new) session ordinal stmt.now result) }
        ensures clock { (opened : Option (List ℕ)) (b : State) (h : List AnEntry)
            → ClockIs opened (seen S.told S.count C.readings self.old) b h
            → ClockIs opened (seen S.told S.count C.readings self.new) b
            (h ++ added (seen S.told S.count C.readings self.old)
            (seen S.told S.count C.readings self.new) session ordinal stmt.now result) }
        ensures legal { (b : State) (h : List AnEntry) (asked : List (Option AStmt))
            → FactsAre (seen S.told S.count C.readings self.old) b h
            → Legal b h asked
            → Legal b (h ++ added (seen S.told S.count C.readings self.old)
            (seen S.told S.count C.readings self.new) session ordinal stmt.now result)
            (asked ++ asked_by stmt.now result) }
    {
        self.submitted(session, ordinal, text, stmt)
    }
}
