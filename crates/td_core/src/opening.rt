//! Opening a store.
ghost use Rattle.std.specs.Prelude.{◌≡◌, ◌≢◌, ◌+◌, ◌<◌, ◌≤◌, ◌^◌, true, [], ◌∷◌, length, Option, Some, None, IfOk, IfErr, OnOk, OnErr, IfSome, IfNone, IsTrue, is_some};
ghost use Rattle.td_limits.specs.declared.limits.TheConstants.{LAST_VERSION, LAST_TIMESTAMP};
ghost use Rattle.td_model.specs.State.{step, empty_state};
ghost use Rattle.td_outside.specs.Image.{Along, Becomes};
ghost use Rattle.td_outside.specs.Logs.{with_log, after_sync};
ghost use Rattle.td_tables.specs.Held.{CanTake};
ghost use Rattle.td_wal.specs.Append.{next_gate};
ghost use Rattle.td_wal.specs.Log.{opened, items_fit};
ghost use Rattle.td_core.specs.declared.causes.OpenCause.TheVariants as causes;
ghost use Rattle.td_core.specs.Replay.{IsNext, Replays};
ghost use Rattle.td_core.specs.Stands.{Stands};
ghost use Rattle.td_core.specs.CoreState.{IsActive, IsKept, log_place, seen};
ghost use Rattle.td_core.specs.Covers.{Covers};
ghost use Rattle.td_core.specs.Opening.{open_cause, CountIs, CountIsBy, BreaksBy, bytes_at, HoldsLogs, HasOpenGateFirst, IsAccepted, IsNotAccepted, IsItemEntry, IsRefused, TakesText, TextRefuses, ItemRefuses, ItemsRefuse, MakesOf, LogRefuses, active_of, MakesState, LogsRefuse, drops_second, IsEmptyLog, Tidies, Settles, synced, dropped};

use crate::causes::{FileId, OpenCause, OpenRefused};
use crate::journal::Journal;
use crate::kept::{ActiveLog, Core};
use std::alloc::Global;
use td_layer::{NoMem, Seq};
use td_model::{Entry, Stmt};
use td_outside::{Clock, Failed, IoFault, Store};
use td_parse::statement;
use td_tables::Tables;
use td_wal::{LogBody, LogFault, LogItem, read_to_gate};

// The number of the first log: no head names another so far.
const FIRST_LOG: u64 = 1;

// Behind the gate before an item its moment stands at this place, and its body at that one.
const MOMENT_PLACE: u64 = 13;

const BODY_PLACE: u64 = 30;

impl From<IoFault> for OpenCause {
    ghost use Rattle.td_core.specs.Opening.{open_cause};

    ghost from_gives = { λ fault cause. cause ≡ open_cause fault };

    fn from(fault: IoFault) -> OpenCause {
        match fault {
            IoFault::Failed => OpenCause::StoreFault,
            IoFault::NoMemory => OpenCause::NoMemory,
        }
    }
}

impl From<Failed> for OpenCause {
    ghost use Rattle.td_core.specs.declared.causes.OpenCause.TheVariants as causes;

    ghost from_gives = { λ _ cause. cause ≡ causes.StoreFault };

    fn from(_: Failed) -> OpenCause {
        OpenCause::StoreFault
    }
}

impl From<NoMem> for OpenCause {
    ghost use Rattle.td_core.specs.declared.causes.OpenCause.TheVariants as causes;

    ghost from_gives = { λ _ cause. cause ≡ causes.NoMemory };

    fn from(_: NoMem) -> OpenCause {
        OpenCause::NoMemory
    }
}

// ---- reading

// The bytes of the first log and of the one above it, where they are there.
#[derive(Drop)]
pub(crate) struct LogBytes {
    pub(crate) first: Option<Seq<u8>>,
    pub(crate) second: Option<Seq<u8>>,
}

// The bytes of the logs of a store without a head. No store has a head so far.
fn read_logs<S: Store>(alloc: Global, store: &mut S) -> Result<LogBytes, OpenCause>
    ensures told { S.told store.new ≡ S.told store.old }
    ensures logs { IfOk result (λ logs. IfSome (S.told store.old) (HoldsLogs logs)) }
    ensures strange { IfErr result (λ cause. IfSome (S.told store.old) (BreaksBy cause)) }
    ensures count { CountIs result (S.count store.old) (S.count store.new) }
{
    let head = store.head_read(alloc)?;
    if head.is_some() {
        return Err(OpenCause::NotThisStore {
            file: FileId::Head,
            at: 0,
        });
    }
    let first = store.log_read(alloc, FIRST_LOG)?;
    let second = store.log_read(alloc, FIRST_LOG + 1)?;
    Ok(LogBytes { first, second })
}

// ---- replaying

// The entry of an item whose text is this statement, if it is accepted in the state.
fn judge_item(tables: &Tables, item: &LogItem, stmt: &Stmt) -> Result<Option<Entry>, NoMem>
    requires { item.now.moment ≤ LAST_TIMESTAMP }
    ensures accepted { IfOk result (λ entry. IfSome entry (IsAccepted stmt.now item.now tables.now.state)) }
    ensures takes { IfOk result (λ entry. IfSome entry (λ e. CanTake e.what tables.now.state)) }
    ensures refused { IfOk result (λ entry. IfNone entry (IsNotAccepted stmt.now item.now.moment tables.now.state)) }
{
    if !stmt.is_write() {
        return Ok(None);
    }
    match tables.judge(stmt, item.moment)? {
        Ok((what, _)) => Ok(Some(Entry {
            session: item.session,
            ordinal: item.ordinal,
            moment: item.moment,
            what,
        })),
        Err(_) => Ok(None),
    }
}

// The entry of an item's text, if it is a statement that is accepted in the state.
fn entry_of(
    alloc: Global,
    tables: &Tables,
    item: &LogItem,
    text: &[u8],
) -> Result<Option<Entry>, NoMem>
    requires { item.now.moment ≤ LAST_TIMESTAMP }
    ensures accepted { IfOk result (λ entry. IfSome entry (IsItemEntry text.now item.now tables.now.state)) }
    ensures takes { IfOk result (λ entry. IfSome entry (λ e. CanTake e.what tables.now.state)) }
    ensures refused { IfOk result (λ entry. IfNone entry (IsRefused text.now item.now.moment tables.now.state)) }
{
    let stmt = statement(alloc, text)?;
    let entry = judge_item(tables, item, &stmt);
    drop(stmt);
    entry
}

// Takes an entry in.
fn take_in(tables: &mut Tables, entry: Entry) -> Result<(), NoMem>
    requires { CanTake entry.what tables.old.state }
    ensures { OnOk result (tables.new.state ≡ step (tables.old.state ∷ []) entry) }
{
    let prepared = tables.prepare(entry)?;
    tables.apply(prepared);
    Ok(())
}

// Takes in the text of an item that stands behind a gate, where its moment isn't too early.
fn replay_text(
    alloc: Global,
    tables: &mut Tables,
    log: u64,
    at: u64,
    item: &LogItem,
    text: &[u8],
) -> Result<(), OpenCause>
    requires { item.now.moment ≤ LAST_TIMESTAMP }
    ensures ok { OnOk result (TakesText text.now item.now tables.old.state tables.new.state) }
    ensures err { IfErr result (TextRefuses log at text.now item.now tables.old.state) }
{
    match entry_of(alloc, tables, item, text)? {
        None => {
            let file = FileId::Log(log);
            Err(OpenCause::NotThisStore { file, at })
        }
        Some(entry) => {
            take_in(tables, entry)?;
            Ok(())
        }
    }
}

// Takes in the item of a log that stands behind a gate, and gives the place of the next gate. The item is judged again.
fn replay_item(
    alloc: Global,
    tables: &mut Tables,
    log: u64,
    gate: u64,
    item: &LogItem,
) -> Result<u64, OpenCause>
    requires version { item.now.version ≡ tables.old.state.version + 1 }
    requires moment { item.now.moment ≤ LAST_TIMESTAMP }
    requires size { next_gate gate item.now < 2 ^ 64 }
    ensures next { IfOk result (λ next. next ≡ next_gate gate item.now) }
    ensures ok { OnOk result (IsNext item.now tables.old.state tables.new.state) }
    ensures err { IfErr result (ItemRefuses log gate item.now tables.old.state) }
{
    if item.moment < tables.moment() {
        return Err(OpenCause::NotThisStore {
            file: FileId::Log(log),
            at: gate + MOMENT_PLACE,
        });
    }
    let at = gate + BODY_PLACE;
    match &item.body {
        LogBody::Text(text) => {
            replay_text(alloc, tables, log, at, item, text.as_slice())?;
            Ok(at + text.len() as u64)
        }
        LogBody::Step { .. } => Err(OpenCause::NotThisStore {
            file: FileId::Log(log),
            at,
        }),
    }
}

// Takes in the items of a log, one after another.
fn replay_items(
    alloc: Global,
    tables: &mut Tables,
    log: u64,
    items: &[LogItem],
) -> Result<(), OpenCause>
    requires fit { items_fit (tables.old.state.version + 1) 0 items.now ≡ true }
    requires size { length (opened items.now) < 2 ^ 64 }
    ensures ok { OnOk result (Replays tables.old.state items.now tables.new.state) }
    ensures err { IfErr result (ItemsRefuse log items.now tables.old.state) }
{
    let mut gate = 0;
    for item in items {
        gate = replay_item(alloc, tables, log, gate, item)?;
    }
    Ok(())
}

// Takes in the items of the bytes of a log, and gives the place of its closed gate. Where the bytes are no log, their
// whole items are judged first.
fn replay_bytes(
    alloc: Global,
    tables: &mut Tables,
    log: u64,
    bytes: &[u8],
) -> Result<u64, OpenCause>
    requires version { tables.old.state.version ≤ LAST_VERSION }
    ensures ok { IfOk result (λ gate. MakesOf (Some bytes.now) gate tables.old.state tables.new.state) }
    ensures err { IfErr result (LogRefuses log (Some bytes.now) tables.old.state) }
{
    match read_to_gate(alloc, bytes, tables.version() + 1) {
        Ok((items, gate)) => {
            replay_items(alloc, tables, log, items.as_slice())?;
            Ok(gate)
        }
        Err(LogFault::NotThis { at, items }) => {
            replay_items(alloc, tables, log, items.as_slice())?;
            let file = FileId::Log(log);
            Err(OpenCause::NotThisStore { file, at })
        }
        Err(LogFault::NoMemory) => Err(OpenCause::NoMemory),
    }
}

// The same of a log that may be missing.
fn replay_log(
    alloc: Global,
    tables: &mut Tables,
    log: u64,
    bytes: &Option<Seq<u8>>,
) -> Result<u64, OpenCause>
    requires version { tables.old.state.version ≤ LAST_VERSION }
    ensures ok { IfOk result (λ gate. MakesOf bytes.now gate tables.old.state tables.new.state) }
    ensures err { IfErr result (LogRefuses log bytes.now tables.old.state) }
{
    match bytes {
        None => Ok(0),
        Some(bytes) => {
            let gate = replay_bytes(alloc, tables, log, bytes.as_slice())?;
            Ok(gate)
        }
    }
}

// Whether a log that is there has an open gate at its first byte.
fn has_open_gate(bytes: &Option<Seq<u8>>) -> bool
    ensures open { IsTrue result → HasOpenGateFirst bytes.now }
    ensures closed { HasOpenGateFirst bytes.now → IsTrue result }
{
    match bytes {
        None => false,
        Some(bytes) => matches!(bytes.as_slice(), [1, ..]),
    }
}

// The log that is written.
fn active_of(
    logs: &LogBytes,
    older: u64,
    front: u64,
    first_gate: u64,
    second_gate: u64,
) -> ActiveLog
    requires { older ≤ LAST_VERSION }
    ensures { result ≡ active_of logs.now older front first_gate second_gate }
{
    if older < front {
        ActiveLog {
            number: FIRST_LOG + 1,
            first: older + 1,
            gate: second_gate,
            is_made: true,
        }
    } else {
        ActiveLog {
            number: FIRST_LOG,
            first: 1,
            gate: first_gate,
            is_made: logs.first.is_some(),
        }
    }
}

// Makes of the empty state what the logs of a store make of it, and gives the log that is written. The second one may
// have items only where the first has.
fn replay_logs(alloc: Global, tables: &mut Tables, logs: &LogBytes) -> Result<ActiveLog, OpenCause>
    requires { tables.old.state ≡ empty_state }
    ensures ok { IfOk result (λ log. MakesState logs.now tables.new.state log) }
    ensures err { IfErr result (LogsRefuse logs.now) }
{
    let first_gate = replay_log(alloc, tables, FIRST_LOG, &logs.first)?;
    let older = tables.version();
    if older == 0 && has_open_gate(&logs.second) {
        return Err(OpenCause::NotThisStore {
            file: FileId::Log(FIRST_LOG + 1),
            at: 0,
        });
    }
    let second_gate = replay_log(alloc, tables, FIRST_LOG + 1, &logs.second)?;
    let log = active_of(logs, older, tables.version(), first_gate, second_gate);
    Ok(log)
}

// ---- settling

// Makes a log stable, if it is there.
fn sync_log<S: Store>(store: &mut S, log: u64, is_there: bool) -> Result<(), OpenCause>
    requires { IfSome (S.told store.old) (λ image. is_some (image.logs log) ≡ is_there) }
    ensures ok { OnOk result (Becomes (with_log log after_sync) (S.told store.old) (S.told store.new)) }
    ensures err { OnErr result (S.told store.new ≡ S.told store.old) }
    ensures fault { IfErr result (λ cause. cause ≡ causes.StoreFault) }
    ensures count { CountIs result (S.count store.old) (S.count store.new) }
{
    if is_there {
        store.log_sync(log)?;
    }
    Ok(())
}

// Makes the first two logs stable, where they are there.
fn sync_logs<S: Store>(store: &mut S, first: bool, second: bool) -> Result<(), OpenCause>
    requires first { IfSome (S.told store.old) (λ image. is_some (image.logs FIRST_LOG) ≡ first) }
    requires second { IfSome (S.told store.old) (λ image. is_some (image.logs (FIRST_LOG + 1)) ≡ second) }
    ensures ok { OnOk result (Becomes synced (S.told store.old) (S.told store.new)) }
    ensures err { OnErr result (Along Tidies (S.told store.old) (S.told store.new)) }
    ensures fault { IfErr result (λ cause. cause ≡ causes.StoreFault) }
    ensures count { CountIs result (S.count store.old) (S.count store.new) }
{
    sync_log(store, FIRST_LOG, first)?;
    sync_log(store, FIRST_LOG + 1, second)?;
    Ok(())
}

// Whether the second log is to go: it is there, and the first one is written.
fn drops_second(logs: &LogBytes, log: ActiveLog) -> bool
    ensures { result ≡ drops_second logs.now log }
{
    logs.second.is_some() && log.number == FIRST_LOG
}

// Takes away the log before the first one, and the second one where it is to go, which then has no item.
fn drop_logs<S: Store>(store: &mut S, drops: bool) -> Result<(), OpenCause>
    requires { IsTrue drops → IfSome (S.told store.old) (λ image. IsEmptyLog (image.logs (FIRST_LOG + 1))) }
    ensures ok { OnOk result (Becomes (dropped drops) (S.told store.old) (S.told store.new)) }
    ensures tidy { Along Tidies (S.told store.old) (S.told store.new) }
    ensures fault { IfErr result (λ cause. cause ≡ causes.StoreFault) }
    ensures count { CountIs result (S.count store.old) (S.count store.new) }
{
    store.log_drop(FIRST_LOG - 1)?;
    if drops {
        store.log_drop(FIRST_LOG + 1)?;
    }
    Ok(())
}

// Reads a store, makes its state of the empty one, and settles its logs; it gives the log that is written. All memory
// is taken before the store is changed, the room for the line of a halt too.
fn open_store<S: Store>(
    alloc: Global,
    store: &mut S,
    tables: &mut Tables,
    journal: &mut Journal,
) -> Result<ActiveLog, OpenCause>
    requires empty { tables.old.state ≡ empty_state }
    ensures stands { IfOk result (λ _. IfSome (S.told store.old) (λ image. Stands image tables.new.state)) }
    ensures kept { IfOk result (λ log. IsKept (S.told store.new) tables.new.state (log_place log) log.is_made
        tables.new.state.moment journal.new.spare) }
    ensures halt { IfOk result (λ _. tables.new.state.halt ≡ None) }
    ensures journal { journal.new.items ≡ journal.old.items }
    ensures image { IfOk result (λ log. Along (Settles (log_place log)) (S.told store.old) (S.told store.new)) }
    ensures tidy { Along Tidies (S.told store.old) (S.told store.new) }
    ensures strange { IfErr result (λ cause. IfSome (S.told store.old) (BreaksBy cause)) }
    ensures untouched { IfErr result (λ cause. cause ≢ causes.StoreFault → S.told store.new ≡ S.told store.old) }
    ensures count { CountIs result (S.count store.old) (S.count store.new) }
{
    let logs = read_logs(alloc, store)?;
    let log = replay_logs(alloc, tables, &logs)?;
    journal.make_room(1)?;
    sync_logs(store, logs.first.is_some(), logs.second.is_some())?;
    drop_logs(store, drops_second(&logs, log))?;
    Ok(log)
}

/// The core of a store. It reads the head and the first two logs and no other file, makes the logs that are there
/// stable, and takes away the log before the first one and a second one without items.
///
/// After `Ok` the store stands for the state of the core, and stood for it before; the journal is empty. `NotThisStore`
/// comes exactly where the store stands for no state, with the first place at which it breaks that form. `StoreFault`
/// comes only where the store failed. After each of them, and after `NoMemory`, the store comes back and stands for the
/// states that it stood for.
pub fn open_core<S: Store, C: Clock>(
    alloc: Global,
    store: S,
    clock: C,
) -> Result<Core<S, C>, OpenRefused<S, C>>
    ensures stands { IfOk result (λ core. IfSome (S.told store) (λ image. Stands image core.state)) }
    ensures covers { IfOk result (λ core. Covers (C.readings clock) (seen S.told S.count C.readings core)
        core.state []) }
    ensures halt { IfOk result (λ core. core.state.halt ≡ None) }
    ensures floor { IfOk result (λ core. (core.floor ≡ core.state.moment) × (core.floor ≤ LAST_TIMESTAMP)) }
    ensures base { IfOk result (λ core. (core.base ≡ core.state.version) × (core.journal ≡ [])) }
    ensures active { IfOk result (λ core. IfSome (S.told core.store) (λ image. IsActive image core.log core.state)) }
    ensures image { IfOk result (λ core. Along (Settles core.log) (S.told store) (S.told core.store)) }
    ensures clock { IfOk result (λ core. core.clock ≡ clock) }
    ensures count { IfOk result (λ core. S.count core.store ≡ S.count store) }
    ensures strange { IfErr result (λ refused. IfSome (S.told store) (BreaksBy refused.cause)) }
    ensures untouched { IfErr result (λ refused. refused.cause ≢ causes.StoreFault
        → S.told refused.store ≡ S.told store) }
    ensures tidy { IfErr result (λ refused. Along Tidies (S.told store) (S.told refused.store)) }
    ensures fault { IfErr result (λ refused. CountIsBy refused.cause (S.count store) (S.count refused.store)) }
    ensures clock_back { IfErr result (λ refused. refused.clock ≡ clock) }
{
    let mut store = store;
    let mut tables = Tables::new(alloc);
    let mut journal = Journal::new(alloc);
    match open_store(alloc, &mut store, &mut tables, &mut journal) {
        Ok(log) => {
            let base = tables.version();
            let floor = tables.moment();
            Ok(Core {
                alloc,
                store,
                clock,
                tables,
                journal,
                base,
                floor,
                log,
            })
        }
        Err(cause) => {
            drop(tables);
            drop(journal);
            Err(OpenRefused {
                store,
                clock,
                cause,
            })
        }
    }
}
