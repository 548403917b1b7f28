//! [tests] Cases of logs: each line of the input is a case, and its answer stands in the same line of the output.
//!
//! A case is a kind, a blank, the version of a log's first item, a blank, and the log's bytes as hexadecimal digits,
//! between which blanks may stand. A line that is empty or begins with `#` is printed as it stands. The answers beside
//! which the program's are compared were worked out from the format by hand. `logs` has the kinds. It stands on
//! `td_wal`, whose calls it asks, on `td_memdev` for a store, and on `td_cases`.
#![tactic(auto)]

mod bytes;
mod logs;
mod shown;

use std::alloc::Global;
use std::io::{self, BufRead, BufReader, BufWriter, Write};
use td_cases::{CaseFault, Out, escaped};
use td_layer::Seq;

fn main(rt: HostRuntime) -> Result<(), CaseFault> {
    let alloc = rt.alloc();
    let input = BufReader::new(alloc, rt.reader())?;
    let mut output = BufWriter::new(alloc, io::writer(&rt))?;
    for line in input.lines(alloc) {
        let shown = line_shown(alloc, line?.as_str())?;
        output.write_all(shown.as_slice())?;
    }
    output.flush()?;
    Ok(())
}

// What a line shows: the answer of a case, or itself, and a newline.
fn line_shown(alloc: Global, line: &str) -> Result<Seq<u8>, CaseFault> {
    let mut out = Out::new(alloc);
    if line.is_empty() || line.starts_with('#') {
        out.push(line.as_bytes());
    } else {
        let (kind, text) = line.split_once(' ').unwrap_or((line, ""));
        match answer(alloc, kind, text) {
            Ok(found) => escaped(&mut out, found.as_slice()),
            Err(CaseFault::Unread) => out.push(b"unread"),
            Err(fault) => return Err(fault),
        }
    }
    out.push(b"\n");
    Ok(out.text()?)
}

// The answer of a case.
fn answer(alloc: Global, kind: &str, text: &str) -> Result<Seq<u8>, CaseFault> {
    let (first, digits) = text.split_once(' ').unwrap_or((text, ""));
    let first = first.parse::<u64>().map_err(|_| CaseFault::Unread)?;
    let bytes = bytes::bytes_of(alloc, digits)?;
    let mut out = Out::new(alloc);
    match kind {
        "read" => logs::push_read(&mut out, alloc, first, bytes.as_slice())?,
        "append" => logs::push_appended(&mut out, alloc, first, bytes.as_slice())?,
        _ => return Err(CaseFault::Unread),
    }
    Ok(out.text()?)
}
