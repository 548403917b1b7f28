//! Submitting a statement.
ghost use Rattle.std.specs.Prelude.{◌≡◌, ◌+◌, ◌^◌, ◌<◌, ◌≤◌, ℕ, List, ◌∷◌, ◌++◌, [], Option, IsTrue, IfOk, IfSome, OnOk, OnErr};
ghost use Rattle.td_model.specs.declared.history.Entry.{Entry as AnEntry};
ghost use Rattle.td_model.specs.declared.language.Stmt.{Stmt as AStmt};
ghost use Rattle.td_model.specs.State.{State, step};
ghost use Rattle.td_outside.specs.Image.{Image};
ghost use Rattle.td_parse.specs.Statements.{IsAnswer};
ghost use Rattle.td_told.specs.Journal.{halt_at};
ghost use Rattle.td_told.specs.Turn.{line_at, halt_line};
ghost use Rattle.td_told.specs.Verdict.{reads_clock};
ghost use Rattle.td_tables.specs.Held.{CanTake, IsReady};
ghost use Rattle.td_wal.specs.Append.{IsWritable, next_gate};
ghost use Rattle.td_core.specs.Replay.{IsNext};
ghost use Rattle.td_core.specs.CoreState.{seen, log_place};
ghost use Rattle.td_core.specs.Writing.{text_item, Carries};
ghost use Rattle.td_core.specs.Carrying.{parts, CarriesOut, Stays};
ghost use Rattle.td_core.specs.Covers.{FactsAre, RowsAre, JournalIs, ImageIs, FloorIs, ClockIs, Legal};
ghost use Rattle.td_core.specs.Submits.{TakesMoment, Answers, Lacks, Submits, added, asked_by};

use crate::journal::Journal;
use crate::kept::{ActiveLog, Core};
use crate::writing::{has_place, item_of, write};
use std::alloc::Global;
use td_layer::NoMem;
use td_limits::{LAST_VERSION, SESSIONS};
use td_model::{Cause, Entry, JournalLine, Mark, Stmt};
use td_outside::{Clock, Store};
use td_tables::{Prepared, Tables};
use td_wal::{LogItem, WalFault};

/// What became of a statement that was submitted.
#[derive(Drop)]
pub enum Submitted {
    /// It is the entry of this version; with its count of rows, and the retention edge behind it.
    Accepted { version: u64, rows: u32, edge: u32 },
    /// It is refused in the state of this version.
    Refused { cause: Cause, prefix: u64 },
    /// The memtable holds so many parts, and has no room for its own.
    Full { held: u32 },
    /// The store failed as it was written: a halt has this version.
    StoreFault { halt: u64 },
    /// There was no memory; nothing has changed.
    NoMemory,
}

// Takes in a prepared entry whose record is in the log. It takes no memory.
fn accept(tables: &mut Tables, journal: &mut Journal, prepared: Prepared, rows: u32) -> Submitted
    requires ready { IsReady prepared tables.old }
    requires room { 2 ≤ journal.old.spare }
    ensures answer { result ≡ Submitted.Accepted (tables.old.state.version + 1) rows tables.new.state.edge }
    ensures state { tables.new.state ≡ step (tables.old.state ∷ []) prepared.entry }
    ensures journal { journal.new.items ≡ journal.old.items
        ++ line_at (tables.old.state.version + 1) prepared.entry.session prepared.entry.ordinal prepared.entry.moment
        ∷ [] }
    ensures room { 1 ≤ journal.new.spare }
{
    let version = tables.version() + 1;
    let entry = prepared.entry();
    let line = JournalLine {
        version,
        session: entry.session,
        ordinal: entry.ordinal,
        moment: entry.moment,
        mark: Mark::Plain,
    };
    tables.apply(prepared);
    journal.note(line);
    Submitted::Accepted {
        version,
        rows,
        edge: tables.edge(),
    }
}

// Takes in a halt at a moment. It takes no memory.
fn halt(tables: &mut Tables, journal: &mut Journal, moment: u64) -> Submitted
    requires version { tables.old.state.version < LAST_VERSION }
    requires room { 1 ≤ journal.old.spare }
    ensures answer { result ≡ Submitted.StoreFault (tables.old.state.version + 1) }
    ensures state { tables.new.state ≡ step (tables.old.state ∷ []) (halt_at moment) }
    ensures journal { journal.new.items ≡ journal.old.items ++ halt_line (tables.old.state.version + 1) moment ∷ [] }
{
    tables.stop(moment);
    let version = tables.version();
    journal.note(JournalLine {
        version,
        session: 0,
        ordinal: 0,
        moment,
        mark: Mark::Halt,
    });
    Submitted::StoreFault { halt: version }
}

// A statement that is accepted, with all the memory that writing it and taking it in needs.
struct Ready {
    item: LogItem,
    prepared: Prepared,
    rows: u32,
}

// Takes the memory that taking in an accepted entry needs. Nothing that is seen of the state changes.
fn prepare(tables: &mut Tables, journal: &mut Journal, entry: Entry) -> Result<Prepared, NoMem>
    requires { CanTake entry.what tables.old.state }
    ensures state { tables.new.state ≡ tables.old.state }
    ensures lines { journal.new.items ≡ journal.old.items }
    ensures kept { journal.old.spare ≤ journal.new.spare }
    ensures room { OnOk result (2 ≤ journal.new.spare) }
    ensures entry { IfOk result (λ prepared. prepared.entry ≡ entry) }
    ensures ready { IfOk result (λ prepared. IsReady prepared tables.new) }
{
    let prepared = tables.prepare(entry)?;
    match journal.make_room(2) {
        Ok(()) => Ok(prepared),
        Err(NoMem) => {
            drop(prepared);
            Err(NoMem)
        }
    }
}

// Takes the memory that an accepted entry of a text needs. Nothing that is seen of the state changes.
fn make_ready(
    alloc: Global,
    tables: &mut Tables,
    journal: &mut Journal,
    text: &[u8],
    entry: Entry,
    rows: u32,
) -> Result<Ready, NoMem>
    requires { CanTake entry.what tables.old.state }
    ensures state { tables.new.state ≡ tables.old.state }
    ensures lines { journal.new.items ≡ journal.old.items }
    ensures kept { journal.old.spare ≤ journal.new.spare }
    ensures room { OnOk result (2 ≤ journal.new.spare) }
    ensures item { IfOk result (λ r. r.item
        ≡ text_item (tables.old.state.version + 1) entry.session entry.ordinal entry.moment text.now) }
    ensures entry { IfOk result (λ r. r.prepared.entry ≡ entry) }
    ensures ready { IfOk result (λ r. IsReady r.prepared tables.new) }
    ensures rows { IfOk result (λ r. r.rows ≡ rows) }
{
    let version = tables.version() + 1;
    let prepared = prepare(tables, journal, entry)?;
    let entry = prepared.entry();
    match item_of(
        alloc,
        version,
        entry.session,
        entry.ordinal,
        entry.moment,
        text,
    ) {
        Ok(item) => Ok(Ready {
            item,
            prepared,
            rows,
        }),
        Err(NoMem) => {
            drop(prepared);
            Err(NoMem)
        }
    }
}

// Writes what is ready, and takes its entry in; or a halt, where the store fails.
fn carry_out<S: Store>(
    alloc: Global,
    store: &mut S,
    log: &mut ActiveLog,
    tables: &mut Tables,
    journal: &mut Journal,
    ready: Ready,
    moment: u64,
) -> Result<Submitted, NoMem>
    requires writable { IsWritable ready.item }
    requires place { next_gate log.old.gate ready.item < 2 ^ 64 }
    requires carries { IfSome (S.told store.old)
        (Carries (log_place log.old) log.old.is_made tables.old.state) }
    requires next { IsNext ready.item tables.old.state (step (tables.old.state ∷ []) ready.prepared.entry) }
    requires ready { IsReady ready.prepared tables.old }
    requires room { 2 ≤ journal.old.spare }
    ensures ok { IfOk result
        (CarriesOut (parts (S.told store.old) (S.count store.old) log.old tables.old.state journal.old)
        (parts (S.told store.new) (S.count store.new) log.new tables.new.state journal.new)
        ready.prepared.entry moment ready.rows) }
    ensures err { OnErr result
        (Stays (parts (S.told store.old) (S.count store.old) log.old tables.old.state journal.old)
        (parts (S.told store.new) (S.count store.new) log.new tables.new.state journal.new)) }
{
    let Ready {
        item,
        prepared,
        rows,
    } = ready;
    match write(alloc, store, log, &item) {
        Ok(()) => {
            drop(item);
            Ok(accept(tables, journal, prepared, rows))
        }
        Err(WalFault::StoreFault) => {
            drop(item);
            drop(prepared);
            Ok(halt(tables, journal, moment))
        }
        Err(WalFault::NoMemory) => {
            drop(item);
            drop(prepared);
            Err(NoMem)
        }
    }
}

impl<S: Store, C: Clock> Core<S, C> {
    // The moment of a call, which becomes the floor. The clock is read once.
    fn take_moment(&mut self) -> u64
        ensures moment { result ≡ self.new.floor }
        ensures takes { TakesMoment (seen S.told S.count C.readings self.old)
            (seen S.told S.count C.readings self.new) }
        ensures rest { self.new ≡ record self.old { clock = self.new.clock; floor = result } }
    {
        self.floor = self.clock.now().max(self.floor);
        self.floor
    }

    // Judges a statement at a moment, writes its record, and takes its entry in; or a halt, where the store fails.
    // What takes memory comes before the record.
    fn enter(
        &mut self,
        session: u32,
        ordinal: u32,
        moment: u64,
        text: &[u8],
        stmt: &Stmt,
    ) -> Result<Submitted, NoMem>
        requires session { (1 ≤ session) × (session ≤ SESSIONS) }
        requires parsed { IsAnswer text.now stmt.now }
        requires write { IsTrue (reads_clock stmt.now) }
        requires moment { moment ≡ self.old.floor }
        ensures floor { self.new.floor ≡ self.old.floor }
        ensures clock { self.new.clock ≡ self.old.clock }
        ensures answers { IfOk result (λ submitted. Answers (seen S.told S.count C.readings self.old)
            (seen S.told S.count C.readings self.new) session ordinal moment stmt.now submitted) }
        ensures lacks { OnErr result (Lacks (seen S.told S.count C.readings self.old)
            (seen S.told S.count C.readings self.new)) }
    {
        let (what, rows) = match self.tables.judge(stmt, moment)? {
            Ok(accepted) => accepted,
            Err(cause) => {
                return Ok(Submitted::Refused {
                    cause,
                    prefix: self.tables.version(),
                });
            }
        };
        if !has_place(self.log.gate, text) {
            drop(what);
            return Err(NoMem);
        }
        let entry = Entry {
            session,
            ordinal,
            moment,
            what,
        };
        let ready = make_ready(
            self.alloc,
            &mut self.tables,
            &mut self.journal,
            text,
            entry,
            rows,
        )?;
        carry_out(
            self.alloc,
            &mut self.store,
            &mut self.log,
            &mut self.tables,
            &mut self.journal,
            ready,
            moment,
        )
    }

    // One submit.
    fn submitted(&mut self, session: u32, ordinal: u32, text: &[u8], stmt: &Stmt) -> Submitted
        requires session { (1 ≤ session) × (session ≤ SESSIONS) }
        requires parsed { IsAnswer text.now stmt.now }
        requires write { IsTrue (reads_clock stmt.now) }
        ensures { Submits (seen S.told S.count C.readings self.old)
            (seen S.told S.count C.readings self.new) session ordinal stmt.now result }
    {
        let moment = self.take_moment();
        match self.enter(session, ordinal, moment, text, stmt) {
            Ok(submitted) => submitted,
            Err(NoMem) => Submitted::NoMemory,
        }
    }

    /// Submits a write, or a text that is no statement, of a session. The clock is read once; its reading, or the
    /// floor where that is greater, is the moment of the call, at which the statement is judged.
    ///
    /// What is accepted is written to the log and synced, and then it is the next entry. Where the store fails at
    /// that, a halt is the next entry, and from then on every write is refused. For want of memory nothing changes;
    /// once the record is synced that can't come.
    pub fn submit(&mut self, session: u32, ordinal: u32, text: &[u8], stmt: &Stmt) -> Submitted
        requires session { (1 ≤ session) × (session ≤ SESSIONS) }
        requires parsed { IsAnswer text.now stmt.now }
        requires write { IsTrue (reads_clock stmt.now) }
        ensures answer { Submits (seen S.told S.count C.readings self.old)
            (seen S.told S.count C.readings self.new) session ordinal stmt.now result }
        ensures facts { (b : State) (h : List AnEntry)
            → FactsAre (seen S.told S.count C.readings self.old) b h
            → RowsAre (seen S.told S.count C.readings self.old) b h
            → FactsAre (seen S.told S.count C.readings self.new) b
            (h ++ added (seen S.told S.count C.readings self.old)
            (seen S.told S.count C.readings self.new) session ordinal stmt.now result) }
        ensures rows { (b : State) (h : List AnEntry)
            → FactsAre (seen S.told S.count C.readings self.old) b h
            → RowsAre (seen S.told S.count C.readings self.old) b h
            → RowsAre (seen S.told S.count C.readings self.new) b
            (h ++ added (seen S.told S.count C.readings self.old)
            (seen S.told S.count C.readings self.new) session ordinal stmt.now result) }
        ensures journal { (b : State) (h : List AnEntry)
            → FactsAre (seen S.told S.count C.readings self.old) b h
            → JournalIs (seen S.told S.count C.readings self.old) b h
            → JournalIs (seen S.told S.count C.readings self.new) b
            (h ++ added (seen S.told S.count C.readings self.old)
            (seen S.told S.count C.readings self.new) session ordinal stmt.now result) }
        ensures image { (b : State) (h : List AnEntry)
            → FactsAre (seen S.told S.count C.readings self.old) b h
            → RowsAre (seen S.told S.count C.readings self.old) b h
            → ImageIs (seen S.told S.count C.readings self.old) b h
            → ImageIs (seen S.told S.count C.readings self.new) b
            (h ++ added (seen S.told S.count C.readings self.old)
            (seen S.told S.count C.readings self.new) session ordinal stmt.now result) }
        ensures floor { (b : State) (h : List AnEntry)
            → FloorIs (seen S.told S.count C.readings self.old) b h
            → FloorIs (seen S.told S.count C.readings self.new) b
            (h ++ added (seen S.told S.count C.readings self.old)
            (seen S.told S.count C.readings self.new) session ordinal stmt.now result) }
        ensures clock { (opened : Option (List ℕ)) (b : State) (h : List AnEntry)
            → ClockIs opened (seen S.told S.count C.readings self.old) b h
            → ClockIs opened (seen S.told S.count C.readings self.new) b
            (h ++ added (seen S.told S.count C.readings self.old)
            (seen S.told S.count C.readings self.new) session ordinal stmt.now result) }
        ensures legal { (b : State) (h : List AnEntry) (asked : List (Option AStmt))
            → FactsAre (seen S.told S.count C.readings self.old) b h
            → RowsAre (seen S.told S.count C.readings self.old) b h
            → Legal b h asked
            → Legal b (h ++ added (seen S.told S.count C.readings self.old)
            (seen S.told S.count C.readings self.new) session ordinal stmt.now result)
            (asked ++ asked_by stmt.now result) }
    {
        self.submitted(session, ordinal, text, stmt)
    }
}
