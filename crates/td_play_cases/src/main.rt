//! [tests] Cases of whole scripts: each is played over devices in memory, and its report is printed.
//!
//! A case begins with a line `==== NAME SETTING ..` and goes on to the next such line; what stands before the first is
//! no case. `settings` has the settings, `cases` the notation of long scripts, `playing` the devices and the call.
//! Below its head a case shows the report as it was written, and a line with the exit number, how many bytes were
//! written, and the line on standard error, if there is one. The reports beside which these are compared were worked
//! out by hand. A case may begin with a store of its own, or with the one that the case before left. It stands on
//! `td_top`, whose calls it asks, on `td_core` for the files that a status names, on `td_memdev` for the devices, and
//! on `td_cases`.
#![tactic(auto)]

mod cases;
mod playing;
mod settings;
mod statuses;

use cases::Case;
use std::alloc::Global;
use std::io::{self, BufRead, BufReader, BufWriter, Write};
use std::sync::Wait;
use std::thread::Threads;
use td_cases::{CaseFault, Out};
use td_layer::Seq;
use td_memdev::MemStore;

// What is held between two lines: the case whose lines are read, and the store that the case before it left.
#[derive(Drop)]
struct Held {
    open: Option<Case>,
    left: Option<MemStore>,
}

fn main(rt: HostRuntime) -> Result<(), CaseFault> {
    let alloc = rt.alloc();
    let input = BufReader::new(alloc, rt.reader())?;
    let mut output = BufWriter::new(alloc, io::writer(&rt))?;
    let mut held = Held {
        open: None,
        left: None,
    };
    let shown = show_cases(&rt, alloc, input, &mut output, &mut held);
    drop(held);
    shown?;
    output.flush()?;
    Ok(())
}

// Shows each case of the input.
fn show_cases<R: Threads + Wait + Sync, I: BufRead + Drop, W: Write>(
    rt: &R,
    alloc: Global,
    input: I,
    output: &mut W,
    held: &mut Held,
) -> Result<(), CaseFault> {
    for line in input.lines(alloc) {
        let line = line?;
        read_line(rt, alloc, line.as_str(), output, held)?;
    }
    show_open(rt, alloc, output, held)
}

// Reads a line: the head of a case, before which the open case is shown; or a line of the open case, if there is one.
fn read_line<R: Threads + Wait + Sync, W: Write>(
    rt: &R,
    alloc: Global,
    line: &str,
    output: &mut W,
    held: &mut Held,
) -> Result<(), CaseFault> {
    if let Some(head) = line.strip_prefix("==== ") {
        show_open(rt, alloc, output, held)?;
        drop(held.open.replace(Case::new(alloc, head)?));
    } else if let Some(case) = &mut held.open {
        case.add_line(alloc, line)?;
    }
    Ok(())
}

// Shows the open case, if there is one.
fn show_open<R: Threads + Wait + Sync, W: Write>(
    rt: &R,
    alloc: Global,
    output: &mut W,
    held: &mut Held,
) -> Result<(), CaseFault> {
    match held.open.take() {
        None => Ok(()),
        Some(case) => {
            let shown = case_shown(rt, alloc, &case, &mut held.left);
            drop(case);
            output.write_all(shown?.as_slice())?;
            Ok(())
        }
    }
}

// What a case shows. The store that it leaves is kept for the next one.
fn case_shown<R: Threads + Wait + Sync>(
    rt: &R,
    alloc: Global,
    case: &Case,
    left: &mut Option<MemStore>,
) -> Result<Seq<u8>, CaseFault> {
    let mut out = Out::new(alloc);
    out.push(b"==== ");
    out.push(case.head.as_bytes());
    out.push(b"\n");
    if case.settings.lists_statuses {
        statuses::push_statuses(&mut out, alloc)?;
    } else {
        playing::push_play(&mut out, rt, alloc, case, left)?;
    }
    Ok(out.text()?)
}
