//! Replaying the logs of a store.
ghost use Rattle.std.specs.Prelude.{◌≡◌, ◌+◌, ◌<◌, ◌≤◌, ◌^◌, nat_le, true, false, [], ◌∷◌, length, Some, None, IfOk, IfErr, OnOk, IfSome, IfNone, IsTrue};
ghost use Rattle.td_limits.specs.declared.limits.TheConstants.{LAST_VERSION, LAST_TIMESTAMP, MEMTABLE_PARTS};
ghost use Rattle.td_model.specs.State.{step};
ghost use Rattle.td_memtable.specs.Contents.{nothing_held};
ghost use Rattle.td_levels.specs.Taken.{parts_of};
ghost use Rattle.td_levels.specs.Fits.{FitsMemtable};
ghost use Rattle.td_levels.specs.Laws.{took};
ghost use Rattle.td_manifest.specs.Heads.{head_body};
ghost use Rattle.td_stands.specs.Heads.{state_of_head, levels_of_head};
ghost use Rattle.td_state.specs.Held.{bare, CanTake};
ghost use Rattle.td_wal.specs.Append.{next_gate};
ghost use Rattle.td_wal.specs.Log.{opened, items_fit};
ghost use Rattle.td_printed.specs.Heads.{FitsHead};
ghost use Rattle.td_opening.specs.Opening.{HasOpenGateFirst, HasNoGate, IsAccepted, IsNotAccepted, IsItemEntry, IsRefused, TakesText, TextRefuses, TakesItem, ItemRefuses, Makes, ItemsRefuse, MakesOf, LogRefuses, MakesSecond, first_log, MakesState, LogsRefuse};

use crate::causes::OpenCause;
use std::alloc::Global;
use td_active::ActiveLog;
use td_layer::{NoMem, Seq};
use td_levels::RowLevels;
use td_limits::MEMTABLE_PARTS;
use td_manifest::Head;
use td_model::{Entry, Stmt, What};
use td_parse::statement;
use td_stands::FileId;
use td_state::Tables;
use td_wal::{LogBody, LogFault, LogItem, read_to_gate};

// Behind the gate before an item its moment stands at this place, and its body at that one.
const MOMENT_PLACE: u64 = 13;

const BODY_PLACE: u64 = 30;

// The bytes of the first log and of the one above it, where they are there.
#[derive(Drop)]
pub(crate) struct LogBytes {
    pub(crate) first: Option<Seq<u8>>,
    pub(crate) second: Option<Seq<u8>>,
}

// The log that is written, and the head of the state between the logs, where the second one has items.
#[derive(Drop)]
pub(crate) struct Replayed {
    pub(crate) log: ActiveLog,
    pub(crate) sealed: Option<Head>,
}

// ---- entries

// The entry of an item whose text is this statement, if it is accepted in the state.
fn judge_item(tables: &Tables, item: &LogItem, stmt: &Stmt) -> Result<Option<Entry>, NoMem>
    requires { item.now.moment ≤ LAST_TIMESTAMP }
    ensures accepted { IfOk result (λ entry. IfSome entry (IsAccepted stmt.now item.now tables.now.state)) }
    ensures takes { IfOk result (λ entry. IfSome entry (λ e. CanTake e.what tables.now.state)) }
    ensures refused { IfOk result (λ entry. IfNone entry (IsNotAccepted stmt.now item.now.moment tables.now.state)) }
{
    if !stmt.is_write() {
        return Ok(None);
    }
    match tables.judge(stmt, item.moment)? {
        Ok((what, _)) => Ok(Some(Entry {
            session: item.session,
            ordinal: item.ordinal,
            moment: item.moment,
            what,
        })),
        Err(_) => Ok(None),
    }
}

// The entry of an item's text, if it is a statement that is accepted in the state.
fn entry_of(
    alloc: Global,
    tables: &Tables,
    item: &LogItem,
    text: &[u8],
) -> Result<Option<Entry>, NoMem>
    requires { item.now.moment ≤ LAST_TIMESTAMP }
    ensures accepted { IfOk result (λ entry. IfSome entry (IsItemEntry text.now item.now tables.now.state)) }
    ensures takes { IfOk result (λ entry. IfSome entry (λ e. CanTake e.what tables.now.state)) }
    ensures refused { IfOk result (λ entry. IfNone entry (IsRefused text.now item.now.moment tables.now.state)) }
{
    let stmt = statement(alloc, text)?;
    let entry = judge_item(tables, item, &stmt);
    drop(stmt);
    entry
}

// How many parts of a memtable an entry has.
fn parts_of(what: &What) -> usize
    ensures { result ≡ parts_of what.now }
{
    match what {
        What::Put(puts) => puts.len(),
        What::Cut { .. } => 1,
        _ => 0,
    }
}

// Whether the active memtable has room for an entry.
fn has_room(levels: &RowLevels, what: &What) -> bool
    ensures { result ≡ nat_le (levels.now.active.held + parts_of what.now) MEMTABLE_PARTS }
{
    let room = MEMTABLE_PARTS - levels.held();
    parts_of(what) <= room as usize
}

// Takes an entry in, for which the active memtable has room.
fn take_in(tables: &mut Tables, levels: &mut RowLevels, entry: Entry) -> Result<(), NoMem>
    requires takes { CanTake entry.what tables.old.state }
    requires moment { entry.moment ≤ LAST_TIMESTAMP }
    requires fits { FitsMemtable tables.old.state.catalog levels.old.active }
    requires room { levels.old.active.held + parts_of entry.what ≤ MEMTABLE_PARTS }
    ensures state { OnOk result (tables.new.state ≡ bare (step (tables.old.state ∷ []) entry)) }
    ensures levels { OnOk result (levels.new ≡ took entry levels.old) }
{
    tables.is_sound();
    let memtable = levels.prepare(&entry.what, entry.moment)?;
    let prepared = tables.prepare(entry)?;
    tables.apply(prepared);
    levels.apply(memtable);
    Ok(())
}

// ---- items

// Takes in the text of an item, whose moment isn't too early. A fault is at its body.
fn replay_text(
    alloc: Global,
    tables: &mut Tables,
    levels: &mut RowLevels,
    body: OpenCause,
    item: &LogItem,
    text: &[u8],
) -> Result<(), OpenCause>
    requires moment { item.now.moment ≤ LAST_TIMESTAMP }
    requires fits { FitsMemtable tables.old.state.catalog levels.old.active }
    ensures ok { OnOk result (TakesText text.now item.now tables.old.state levels.old tables.new.state levels.new) }
    ensures err { IfErr result (TextRefuses body text.now item.now tables.old.state levels.old.active) }
{
    match entry_of(alloc, tables, item, text)? {
        None => Err(body),
        Some(entry) => {
            if !has_room(levels, &entry.what) {
                drop(entry);
                return Err(body);
            }
            take_in(tables, levels, entry)?;
            Ok(())
        }
    }
}

// Takes in the item of a log that stands behind a gate, and gives the place of the next gate. The item is judged again.
fn replay_item(
    alloc: Global,
    tables: &mut Tables,
    levels: &mut RowLevels,
    log: u64,
    gate: u64,
    item: &LogItem,
) -> Result<u64, OpenCause>
    requires version { item.now.version ≡ tables.old.state.version + 1 }
    requires moment { item.now.moment ≤ LAST_TIMESTAMP }
    requires size { next_gate gate item.now < 2 ^ 64 }
    requires fits { FitsMemtable tables.old.state.catalog levels.old.active }
    ensures next { IfOk result (λ next. next ≡ next_gate gate item.now) }
    ensures ok { OnOk result (TakesItem item.now tables.old.state levels.old tables.new.state levels.new) }
    ensures err { IfErr result (ItemRefuses log gate item.now tables.old.state levels.old.active) }
{
    let file = FileId::Log(log);
    if item.moment < tables.moment() {
        let at = gate + MOMENT_PLACE;
        return Err(OpenCause::NotThisStore { file, at });
    }
    let at = gate + BODY_PLACE;
    let body = OpenCause::NotThisStore { file, at };
    match &item.body {
        LogBody::Text(text) => {
            replay_text(alloc, tables, levels, body, item, text.as_slice())?;
            Ok(at + text.len() as u64)
        }
        LogBody::Step { .. } => Err(body),
    }
}

// Takes in the items of a log, one after another, over a memtable that holds nothing.
fn replay_items(
    alloc: Global,
    tables: &mut Tables,
    levels: &mut RowLevels,
    log: u64,
    items: &[LogItem],
) -> Result<(), OpenCause>
    requires fit { items_fit (tables.old.state.version + 1) 0 items.now ≡ true }
    requires size { length (opened items.now) < 2 ^ 64 }
    requires rows { tables.old.state.rows ≡ [] }
    requires empty { levels.old.active ≡ nothing_held }
    ensures ok { OnOk result (Makes tables.old.state levels.old items.now tables.new.state levels.new) }
    ensures err { IfErr result (ItemsRefuse log items.now tables.old.state) }
{
    tables.is_sound();
    let mut gate = 0;
    for item in items {
        gate = replay_item(alloc, tables, levels, log, gate, item)?;
    }
    Ok(())
}

// ---- logs

// Takes in the items of the bytes of a log, and gives the place of its closed gate. Where the bytes are no log, their
// whole items are judged first.
fn replay_bytes(
    alloc: Global,
    tables: &mut Tables,
    levels: &mut RowLevels,
    log: u64,
    bytes: &[u8],
) -> Result<u64, OpenCause>
    requires version { tables.old.state.version ≤ LAST_VERSION }
    requires rows { tables.old.state.rows ≡ [] }
    requires empty { levels.old.active ≡ nothing_held }
    ensures ok { IfOk result (λ gate. MakesOf (Some bytes.now) gate tables.old.state levels.old
        tables.new.state levels.new) }
    ensures err { IfErr result (LogRefuses log (Some bytes.now) tables.old.state) }
{
    match read_to_gate(alloc, bytes, tables.version() + 1) {
        Ok((items, gate)) => {
            replay_items(alloc, tables, levels, log, items.as_slice())?;
            Ok(gate)
        }
        Err(LogFault::NotThis { at, items }) => {
            replay_items(alloc, tables, levels, log, items.as_slice())?;
            let file = FileId::Log(log);
            Err(OpenCause::NotThisStore { file, at })
        }
        Err(LogFault::NoMemory) => Err(OpenCause::NoMemory),
    }
}

// The same of a log that may be missing.
fn replay_log(
    alloc: Global,
    tables: &mut Tables,
    levels: &mut RowLevels,
    log: u64,
    bytes: &Option<Seq<u8>>,
) -> Result<u64, OpenCause>
    requires version { tables.old.state.version ≤ LAST_VERSION }
    requires rows { tables.old.state.rows ≡ [] }
    requires empty { levels.old.active ≡ nothing_held }
    ensures ok { IfOk result (λ gate. MakesOf bytes.now gate tables.old.state levels.old tables.new.state levels.new) }
    ensures err { IfErr result (LogRefuses log bytes.now tables.old.state) }
{
    match bytes {
        None => Ok(0),
        Some(bytes) => {
            let gate = replay_bytes(alloc, tables, levels, log, bytes.as_slice())?;
            Ok(gate)
        }
    }
}

// Whether a log that is there has an open gate at its first byte.
fn has_open_gate(bytes: &Option<Seq<u8>>) -> bool
    ensures open { IsTrue result → HasOpenGateFirst bytes.now }
    ensures closed { HasOpenGateFirst bytes.now → IsTrue result }
{
    match bytes {
        None => false,
        Some(bytes) => matches!(bytes.as_slice(), [1, ..]),
    }
}

// Whether a log that is there has no byte.
fn has_no_gate(bytes: &Option<Seq<u8>>) -> bool
    ensures none { IsTrue result → HasNoGate bytes.now }
    ensures some { HasNoGate bytes.now → IsTrue result }
{
    match bytes {
        None => false,
        Some(bytes) => matches!(bytes.as_slice(), []),
    }
}

// Freezes what the first log made, and takes in the items of the second one, which has an open gate first.
fn replay_second(
    alloc: Global,
    head: &Head,
    bytes: &Option<Seq<u8>>,
    tables: &mut Tables,
    levels: &mut RowLevels,
) -> Result<Replayed, OpenCause>
    requires version { tables.old.state.version ≤ LAST_VERSION }
    requires least { 1 ≤ head.now.first_log }
    requires log { head.now.first_log ≤ tables.old.state.version }
    requires rows { tables.old.state.rows ≡ [] }
    requires heads { FitsHead tables.old.state.catalog }
    requires streams { tables.old.state.catalog.streams ≡ [] }
    requires going { tables.old.state.halt ≡ None }
    requires thawed { levels.old.frozen ≡ None }
    ensures ok { IfOk result (MakesSecond head.now bytes.now tables.old.state levels.old
        tables.new.state levels.new) }
    ensures err { IfErr result (LogRefuses (head.now.first_log + 1) bytes.now tables.old.state) }
{
    let number = head.first_log + 1;
    let first = tables.version() + 1;
    let sealed = tables.head(number)?;
    levels.freeze();
    let gate = replay_log(alloc, tables, levels, number, bytes)?;
    let log = ActiveLog {
        number,
        first,
        gate,
        is_made: true,
    };
    Ok(Replayed {
        log,
        sealed: Some(sealed),
    })
}

// The first log as the one that is written, with its closed gate at this place.
fn first_log(head: &Head, logs: &LogBytes, gate: u64) -> ActiveLog
    requires { head.now.version ≤ LAST_VERSION }
    ensures { result ≡ first_log head.now logs.now gate }
{
    ActiveLog {
        number: head.first_log,
        first: head.version + 1,
        gate,
        is_made: logs.first.is_some(),
    }
}

// Makes of the state of a head what the logs make of it, and gives the log that is written. The second one may have
// items only where the first has.
pub(crate) fn replay_logs(
    alloc: Global,
    head: &Head,
    logs: &LogBytes,
    tables: &mut Tables,
    levels: &mut RowLevels,
) -> Result<Replayed, OpenCause>
    requires fits { head_body.fits head.now ≡ true }
    requires state { tables.old.state ≡ state_of_head head.now [] }
    requires levels { levels.old ≡ levels_of_head head.now }
    ensures ok { IfOk result (MakesState head.now logs.now tables.new.state levels.new) }
    ensures err { IfErr result (LogsRefuse head.now logs.now) }
{
    tables.is_sound();
    let gate = replay_log(alloc, tables, levels, head.first_log, &logs.first)?;
    let broken = OpenCause::NotThisStore {
        file: FileId::Log(head.first_log + 1),
        at: 0,
    };
    if has_no_gate(&logs.second) {
        return Err(broken);
    }
    if !has_open_gate(&logs.second) {
        let log = first_log(head, logs, gate);
        return Ok(Replayed { log, sealed: None });
    }
    if tables.version() == head.version {
        return Err(broken);
    }
    let replayed = replay_second(alloc, head, &logs.second, tables, levels)?;
    Ok(replayed)
}
