//! The program, from its arguments to its exit code.
ghost use Rattle.std.specs.Prelude.{◌≡◌, ◌↔◌, ◌⊎◌, ◌++◌, false, codes, map, drop, IfOk, MatchResult, string_bytes};
ghost use Rattle.std.specs.Fmt.{decimal};
ghost use Rattle.std.specs.IoError.{error_kind};
ghost use Rattle.std.specs.Process.{exit_status};
ghost use Rattle.std.specs.Vec.Iter.{into_iter_items};
ghost use Rattle.td_top.specs.Exit.{exit_number, file_text, place_text, status_rest, status_text, status_line};
ghost use Rattle.td_top.specs.Program.{RunsWords, Unread, WroteLine};
ghost use Rattle.td_top.specs.Run.{seen};
ghost use Rattle.td_top.specs.Stream.{Writes};
ghost use Rattle.td_top.specs.declared.status.Status.{Status};

use crate::status::Status;
use crate::stream::write_all;
use crate::top::vnode;
use itoa::Buffer;
use std::alloc::Global;
use std::env::Args;
use std::io::{self, ErrorKind};
use std::process::ExitCode;
use std::sync::Wait;
use std::thread::Threads;
use td_core::FileId;
use td_layer::NoMem;
use td_outside::{Clock, Failed, Gate, Place, Sink, Source};

// The words behind the program's own name.
fn words_of(alloc: Global, mut args: Args) -> Result<Vec<String>, NoMem>
    ensures { IfOk result (λ words. words.items ≡ drop 1 (into_iter_items args)) }
{
    let _name = args.next();
    let mut words = Vec::new(alloc);
    'words: while let Some(word) = args.next() {
        words.push(word)?;
    }
    Ok(words)
}

// The status where the arguments can't be read: for want of memory, or since one isn't text.
fn unread(error: &io::Error) -> Status
    ensures memory { (result ≡ Status.NoMemory) ↔ (error_kind error.now ≡ ErrorKind.OutOfMemory) }
    ensures usage { (result ≡ Status.NoMemory) ⊎ (result ≡ Status.Usage) }
{
    match error.kind() {
        ErrorKind::OutOfMemory => Status::NoMemory,
        _ => Status::Usage,
    }
}

// The status of a run over the words among the arguments.
fn status_of<R: Threads + Wait + Sync, I: Source, O: Sink, P: Place, C: Clock, G: Gate>(
    rt: &R,
    alloc: Global,
    args: Args,
    input: &mut I,
    out: &mut O,
    place: &mut P,
    clock: C,
    gate: &G,
) -> Status
    requires inside { P.is_out place.old ≡ false }
    ensures runs { RunsWords (map string_bytes (into_iter_items args)) (C.readings clock)
        (seen I.left I.given I.count O.written O.count P.told P.count P.taken input.old out.old place.old)
        (seen I.left I.given I.count O.written O.count P.told P.count P.taken input.new out.new place.new) result }
    ensures inside { P.is_out place.new ≡ false }
{
    match words_of(alloc, args) {
        Ok(words) => vnode(rt, alloc, words.as_slice(), input, out, place, clock, gate),
        Err(NoMem) => Status::NoMemory,
    }
}

// Writes a number.
fn write_number<E: Sink>(err: &mut E, number: u64) -> Result<(), Failed>
    ensures { Writes (E.written err.old) (E.written err.new) (E.count err.old) (E.count err.new) result
        (decimal number) }
{
    let mut digits = Buffer::new();
    write_all(err, digits.format(number).as_bytes())
}

// Writes words and a number behind them.
fn write_numbered<E: Sink>(err: &mut E, words: &[u8], number: u64) -> Result<(), Failed>
    ensures { Writes (E.written err.old) (E.written err.new) (E.count err.old) (E.count err.new) result
        (words.now ++ decimal number) }
{
    write_all(err, words)?;
    write_number(err, number)
}

// Writes the name of a file of a store.
fn write_file<E: Sink>(err: &mut E, file: FileId) -> Result<(), Failed>
    ensures { Writes (E.written err.old) (E.written err.new) (E.count err.old) (E.count err.new) result
        (file_text file) }
{
    match file {
        FileId::Head => write_all(err, b"head"),
        FileId::Log(number) => write_numbered(err, b"log ", number),
        FileId::File(number) => write_numbered(err, b"file ", number),
    }
}

// Writes a place in a file of a store.
fn write_place<E: Sink>(err: &mut E, file: FileId, at: u64) -> Result<(), Failed>
    ensures { Writes (E.written err.old) (E.written err.new) (E.count err.old) (E.count err.new) result
        (place_text file at) }
{
    write_file(err, file)?;
    write_numbered(err, b" at ", at)
}

// Writes the rest of a status' line, behind its words.
fn write_rest<E: Sink>(err: &mut E, status: Status) -> Result<(), Failed>
    ensures { Writes (E.written err.old) (E.written err.new) (E.count err.old) (E.count err.new) result
        (status_rest status) }
{
    match status {
        Status::BadScript(line) => write_number(err, line),
        Status::NotThisStore { file, at } => write_place(err, file, at),
        _ => write_all(err, b""),
    }
}

// Writes the text of a status' line and the line's end.
fn write_text<E: Sink>(err: &mut E, status: Status) -> Result<(), Failed>
    ensures { Writes (E.written err.old) (E.written err.new) (E.count err.old) (E.count err.new) result
        (status_text status ++ codes "\n") }
{
    write_all(err, status.words().as_bytes())?;
    write_rest(err, status)?;
    write_all(err, b"\n")
}

// Writes the line of a status, if it has one.
fn write_line<E: Sink>(err: &mut E, status: Status) -> Result<(), Failed>
    ensures { Writes (E.written err.old) (E.written err.new) (E.count err.old) (E.count err.new) result
        (status_line status) }
{
    match status {
        Status::Done => Ok(()),
        _ => write_text(err, status),
    }
}

// Writes the line of a status and gives its exit code.
fn ended<E: Sink>(err: &mut E, status: Status) -> ExitCode
    ensures exit { exit_status result ≡ exit_number status }
    ensures line { WroteLine (E.written err.old) (E.written err.new) (E.count err.old) (E.count err.new)
        (status_line status) }
{
    let _ = write_line(err, status);
    ExitCode::from(status.exit_number())
}

/// All of the program but the making of its devices. `args` are the arguments as the system gives them, the program's
/// own name first; the words behind it go to [`vnode`]. The exit code is that of a status of which all holds that
/// `vnode` says, and the status' line is written to `err`, standard error. Where the arguments couldn't be read, or
/// there was no memory for them, nothing else is touched.
pub fn program<R: Threads + Wait + Sync, I: Source, O: Sink, E: Sink, P: Place, C: Clock, G: Gate>(
    rt: &R,
    alloc: Global,
    args: io::Result<Args>,
    input: &mut I,
    out: &mut O,
    err: &mut E,
    place: &mut P,
    clock: C,
    gate: &G,
) -> ExitCode
    requires inside { P.is_out place.old ≡ false }
    ensures runs { (status : Status) × (exit_status result ≡ exit_number status)
        × WroteLine (E.written err.old) (E.written err.new) (E.count err.old) (E.count err.new) (status_line status)
        × (let before = seen I.left I.given I.count O.written O.count P.told P.count P.taken input.old out.old
        place.old in
        let after = seen I.left I.given I.count O.written O.count P.told P.count P.taken input.new out.new place.new in
        MatchResult args
        (λ args. RunsWords (map string_bytes (into_iter_items args)) (C.readings clock) before after status)
        (λ error. Unread (error_kind error) before after status)) }
    ensures inside { P.is_out place.new ≡ false }
{
    let status = match args {
        Ok(args) => status_of(rt, alloc, args, input, out, place, clock, gate),
        Err(error) => unread(&error),
    };
    ended(err, status)
}
