//! The top call: reads a script, enters the store's place, plays the script, writes the report, and leaves the place.
ghost use Rattle.std.specs.Prelude.{◌≡◌, ◌≤◌, [], false, map, IfOk, IfErr, OnOk, string_bytes};
ghost use Rattle.td_limits.specs.declared.limits.TheConstants.{LAST_TIMESTAMP};
ghost use Rattle.td_core.specs.CoreState.{seen as core_seen};
ghost use Rattle.td_core.specs.Covers.{Covers};
ghost use Rattle.td_script.specs.Script.{Numbered};
ghost use Rattle.td_words.specs.Words.{as_dir, dir_of};
ghost use Rattle.td_top.specs.Stream.{TookFew, GaveFew};
ghost use Rattle.td_top.specs.Status.{PlaysCore, PlaysAt, ReadScript, Ended, Says, outside, effects, store_effects, writes, enters, left_status};
ghost use Rattle.td_top.specs.Run.{Runs, seen};

use crate::lines::report_of;
use crate::status::Status;
use crate::stream::{read_all, write_all};
use std::alloc::Global;
use std::sync::Wait;
use std::thread::Threads;
use td_core::{Core, OpenRefused, close_core, open_core};
use td_layer::{NoMem, Seq};
use td_outside::{Clock, Failed, Gate, Place, Sink, Source, Store};
use td_parse::{Line, script};
use td_words::{Command, is_dir, read_command};

// The lines of the script that the input is.
fn script_of<I: Source>(alloc: Global, input: &mut I) -> Result<Seq<Line>, Status>
    ensures script { IfOk result (λ lines. ReadScript (I.left input.old) (I.left input.new) lines) }
    ensures calm { OnOk result (I.count input.new ≡ I.count input.old) }
    ensures ended { IfErr result (λ s. Ended (I.left input.old) (I.left input.new) (I.count input.old)
        (I.count input.new) s) }
    ensures few { TookFew (I.left input.old) (I.left input.new) }
    ensures given { GaveFew (I.given input.old) (I.given input.new) }
{
    let bytes = read_all(alloc, input)?;
    let lines = script(alloc, bytes.as_slice())?;
    Ok(lines)
}

// Plays the lines of a script on a core that was opened just now, and writes the report.
fn play_on_core<O: Sink, S: Store, C: Clock>(
    alloc: Global,
    core: &mut Core<S, C>,
    lines: &[Line],
    out: &mut O,
) -> Status
    requires numbered { Numbered [] lines.now }
    requires covers { Covers (C.readings core.old.clock) (core_seen S.told S.count C.readings core.old)
        core.old.state [] }
    requires floor { (core.old.floor ≡ core.old.state.moment) × (core.old.floor ≤ LAST_TIMESTAMP) }
    requires base { (core.old.base ≡ core.old.state.version) × (core.old.journal ≡ []) }
    ensures plays { PlaysCore lines.now (core_seen S.told S.count C.readings core.old)
        (core_seen S.told S.count C.readings core.new)
        (O.written out.old) (O.written out.new) (O.count out.old) (O.count out.new) result }
    ensures sink { writes result ≡ false → out.new ≡ out.old }
{
    match report_of(alloc, core, lines) {
        Err(NoMem) => Status::NoMemory,
        Ok(text) => match write_all(out, text.as_slice()) {
            Ok(()) => Status::Done,
            Err(Failed) => Status::OutputFault,
        },
    }
}

// Opens a store, plays the lines of a script on it, and gives it back.
fn play_on_store<O: Sink, S: Store, C: Clock>(
    alloc: Global,
    store: S,
    clock: C,
    lines: &[Line],
    out: &mut O,
) -> (S, Status)
    requires { Numbered [] lines.now }
    ensures plays { PlaysAt (C.readings clock) lines.now
        (store_effects O.written O.count S.told S.count out.old store)
        (store_effects O.written O.count S.told S.count out.new result.0) result.1 }
    ensures sink { writes result.1 ≡ false → out.new ≡ out.old }
{
    match open_core(alloc, store, clock) {
        Ok(mut core) => {
            let status = play_on_core(alloc, &mut core, lines, out);
            (close_core(core), status)
        }
        Err(refused) => {
            let OpenRefused {
                store,
                clock: _,
                cause,
            } = refused;
            (store, Status::from(cause))
        }
    }
}

// The status of a run that ended with a status before its place failed as it was left.
fn left_with(status: Status) -> Status
    ensures { result ≡ left_status status }
{
    match status {
        Status::Done => Status::StoreFault,
        _ => status,
    }
}

// Enters a place, plays the lines of a script on its store, and leaves the place.
fn play_at<O: Sink, P: Place, C: Clock>(
    alloc: Global,
    dir: &[u8],
    lines: &[Line],
    out: &mut O,
    place: &mut P,
    clock: C,
) -> Status
    requires numbered { Numbered [] lines.now }
    requires inside { P.is_out place.old ≡ false }
    ensures plays { PlaysAt (C.readings clock) lines.now
        (effects O.written O.count P.told P.count P.taken out.old place.old)
        (effects O.written O.count P.told P.count P.taken out.new place.new) result }
    ensures sink { writes result ≡ false → out.new ≡ out.old }
    ensures inside { P.is_out place.new ≡ false }
{
    match place.enter(alloc, dir) {
        Err(fault) => Status::from(fault),
        Ok(store) => {
            let (store, status) = play_on_store(alloc, store, clock, lines, out);
            match place.leave(store) {
                Ok(()) => status,
                Err(Failed) => left_with(status),
            }
        }
    }
}

// Plays the script of the input on the store of a directory.
fn run<I: Source, O: Sink, P: Place, C: Clock>(
    alloc: Global,
    dir: &[u8],
    input: &mut I,
    out: &mut O,
    place: &mut P,
    clock: C,
) -> Status
    requires inside { P.is_out place.old ≡ false }
    ensures says { Says (C.readings clock)
        (outside I.left I.given I.count input.old (effects O.written O.count P.told P.count P.taken out.old place.old))
        (outside I.left I.given I.count input.new
        (effects O.written O.count P.told P.count P.taken out.new place.new)) result }
    ensures few { TookFew (I.left input.old) (I.left input.new) }
    ensures given { GaveFew (I.given input.old) (I.given input.new) }
    ensures sink { writes result ≡ false → out.new ≡ out.old }
    ensures place { enters result ≡ false → place.new ≡ place.old }
    ensures inside { P.is_out place.new ≡ false }
{
    match script_of(alloc, input) {
        Err(status) => status,
        Ok(lines) => play_at(alloc, dir, lines.as_slice(), out, place, clock),
    }
}

/// Plays the script of the input on the store of a directory, and writes the report. The store isn't out, and it isn't
/// after.
///
/// At `Done` the input was read to its end and is a script, and the bytes written are the text of one report, which
/// tells the script's run in the order of its lines, from the state on for which the store stood; at `OutputFault` a
/// front of that text was written. The store left stands for what the accepted statements made of that state; after a
/// halt, for the state before it or for that with the statement that was tried. Each other status comes as `Status`
/// says, in its order, and writes nothing, but for a directory that fails as it is left. At most 67108865 bytes are
/// read.
pub fn play<I: Source, O: Sink, P: Place, C: Clock>(
    alloc: Global,
    dir: &[u8],
    input: &mut I,
    out: &mut O,
    place: &mut P,
    clock: C,
) -> Status
    requires inside { P.is_out place.old ≡ false }
    ensures runs { Runs (as_dir dir.now) (C.readings clock)
        (seen I.left I.given I.count O.written O.count P.told P.count P.taken input.old out.old place.old)
        (seen I.left I.given I.count O.written O.count P.told P.count P.taken input.new out.new place.new) result }
    ensures inside { P.is_out place.new ≡ false }
{
    if is_dir(dir) {
        run(alloc, dir, input, out, place, clock)
    } else {
        Status::Usage
    }
}

/// The program's command: `play DIR` and nothing else, where DIR isn't empty and doesn't begin with `-`. It says what
/// `play` says. With words that are no command, and only with such, the status is `Usage`, and nothing is read.
pub fn vnode<R: Threads + Wait + Sync, I: Source, O: Sink, P: Place, C: Clock, G: Gate>(
    _rt: &R,
    alloc: Global,
    words: &[String],
    input: &mut I,
    out: &mut O,
    place: &mut P,
    clock: C,
    _gate: &G,
) -> Status
    requires inside { P.is_out place.old ≡ false }
    ensures runs { Runs (dir_of (map string_bytes words.now)) (C.readings clock)
        (seen I.left I.given I.count O.written O.count P.told P.count P.taken input.old out.old place.old)
        (seen I.left I.given I.count O.written O.count P.told P.count P.taken input.new out.new place.new) result }
    ensures inside { P.is_out place.new ≡ false }
{
    match read_command(alloc, words) {
        Ok(Some(Command::Play { dir })) => play(alloc, dir.as_bytes(), input, out, place, clock),
        Ok(None) => Status::Usage,
        Err(NoMem) => Status::NoMemory,
    }
}
