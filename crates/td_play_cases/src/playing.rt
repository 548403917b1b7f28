//! A case is played.
ghost use Rattle.std.specs.Prelude.{◌≡◌, ◌<◌, ◌≤◌, All, IfOk, IsTrue, is_some, length, true};
ghost use Rattle.td_memdev.specs.Tables.{IsTable};

use crate::cases::Case;
use crate::settings::Settings;
use crate::statuses::push_status;
use std::alloc::Global;
use std::sync::Wait;
use std::thread::Threads;
use td_cases::{CaseFault, Out};
use td_layer::{NoMem, Seq};
use td_limits::LAST_TIMESTAMP;
use td_memdev::{FreeGate, MemPlace, MemSink, MemSource, MemStore, Ticks};
use td_top::{Status, play, vnode};

/// Plays a case, and adds the report and the line of its status. It is played on the store that was left, if the case
/// wants that, and leaves its own.
pub(crate) fn push_play<R: Threads + Wait + Sync>(
    out: &mut Out,
    rt: &R,
    alloc: Global,
    case: &Case,
    left: &mut Option<MemStore>,
) -> Result<(), CaseFault> {
    let fails = one_call(alloc, case.settings.fail_place)?;
    let store = store_of(alloc, &case.settings, left)?;
    let mut place = MemPlace::new(store, fails);
    let pushed = push_play_at(out, rt, alloc, case, &mut place);
    drop(left.replace(place.into_store()));
    pushed
}

// Plays a case at a place, and adds the report and the line of its status.
fn push_play_at<R: Threads + Wait + Sync>(
    out: &mut Out,
    rt: &R,
    alloc: Global,
    case: &Case,
    place: &mut MemPlace,
) -> Result<(), CaseFault>
    requires inside { is_some place.old.store ≡ true }
    ensures inside { is_some place.new.store ≡ true }
{
    let settings = &case.settings;
    let mut sink = MemSink::new(
        alloc,
        settings.room,
        settings.most_out.max(1),
        one_call(alloc, settings.fail_out)?,
    )?;
    let status = play_script(rt, alloc, case, &mut sink, place)?;
    push_report(out, sink.bytes());
    push_status(out, alloc, status, sink.bytes().len())
}

// Plays the script of a case on a sink, at a place.
fn play_script<R: Threads + Wait + Sync>(
    rt: &R,
    alloc: Global,
    case: &Case,
    sink: &mut MemSink,
    place: &mut MemPlace,
) -> Result<Status, CaseFault>
    requires inside { is_some place.old.store ≡ true }
    ensures inside { is_some place.new.store ≡ true }
{
    let script = Seq::of_bytes(alloc, case.bytes())?;
    let input = source(alloc, &case.settings, script)?;
    let status = play_on(rt, alloc, &case.settings, input, sink, place)?;
    Ok(status)
}

// The store on which a case is played: the one that the case before left, or a new one.
fn store_of(
    alloc: Global,
    settings: &Settings,
    left: &mut Option<MemStore>,
) -> Result<MemStore, CaseFault> {
    match left.take() {
        Some(store) if settings.is_again => Ok(store),
        before => {
            drop(before);
            new_store(alloc, settings)
        }
    }
}

// A store of the head and the first log that a case gives.
fn new_store(alloc: Global, settings: &Settings) -> Result<MemStore, CaseFault> {
    let fails = fails_of(alloc, settings.fail_store.as_slice())?;
    let head = copied(&settings.head)?;
    let logs = logs_of(alloc, copied(&settings.log)?)?;
    Ok(MemStore::of_parts(alloc, head, logs, Seq::new(alloc), fails)?)
}

fn copied(bytes: &Option<Seq<u8>>) -> Result<Option<Seq<u8>>, NoMem> {
    match bytes {
        None => Ok(None),
        Some(bytes) => Ok(Some(bytes.copy()?)),
    }
}

// The first log, if it is there.
fn logs_of(alloc: Global, log: Option<Seq<u8>>) -> Result<Seq<(u64, Seq<u8>)>, NoMem>
    ensures { IfOk result (λ logs. IsTable (λ pair. pair.0) logs) }
{
    let mut logs = Seq::new(alloc);
    if let Some(log) = log {
        logs.add((1, log))?;
    }
    Ok(logs)
}

// The calls of the store itself that fail.
fn fails_of(alloc: Global, calls: &[u64]) -> Result<Seq<(u64, u64)>, NoMem> {
    let mut fails = Seq::new(alloc);
    for call in calls {
        fails.add((0, *call))?;
    }
    Ok(fails)
}

fn one_call(alloc: Global, call: u64) -> Result<Seq<u64>, NoMem> {
    Ok(Seq::from_vec(alloc, vec![in alloc; call]?))
}

fn source(alloc: Global, settings: &Settings, script: Seq<u8>) -> Result<MemSource, CaseFault> {
    let fails = one_call(alloc, settings.fail_in)?;
    Ok(MemSource::new(script, settings.most_in.max(1), fails))
}

// Plays on these devices: the command, or the program with its words.
fn play_on<R: Threads + Wait + Sync>(
    rt: &R,
    alloc: Global,
    settings: &Settings,
    mut input: MemSource,
    sink: &mut MemSink,
    place: &mut MemPlace,
) -> Result<Status, CaseFault>
    requires inside { is_some place.old.store ≡ true }
    ensures inside { is_some place.new.store ≡ true }
{
    let clock = clock_of(alloc, settings.clock.as_slice())?;
    Ok(match &settings.words {
        None => play(alloc, b"d", &mut input, sink, place, clock),
        Some(words) => vnode(
            rt,
            alloc,
            words.as_slice(),
            &mut input,
            sink,
            place,
            clock,
            &FreeGate,
        ),
    })
}

// Whether readings are such as a clock gives.
fn is_clock(readings: &[u64]) -> bool
    ensures some { IsTrue result → 0 < length readings.now }
    ensures most { IsTrue result → All (λ t. t ≤ LAST_TIMESTAMP) readings.now }
{
    !readings.is_empty() && readings.iter().all(|t| *t <= LAST_TIMESTAMP)
}

fn clock_of(alloc: Global, readings: &[u64]) -> Result<Ticks, CaseFault> {
    if !is_clock(readings) {
        return Err(CaseFault::Unread);
    }
    let list = Vec::from_slice(alloc, readings)?;
    Ok(Ticks::new(Seq::from_vec(alloc, list)))
}

// Adds a report, and a newline where it doesn't end with one.
fn push_report(out: &mut Out, report: &[u8]) {
    out.push(report);
    if report.last().is_some_and(|last| *last != b'\n') {
        out.push(b"\n");
    }
}
