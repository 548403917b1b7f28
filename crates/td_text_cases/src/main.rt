//! [tests] Cases of texts: each line of the input is a case, and its answer stands in the same line of the output.
//!
//! A case is a kind, a blank and a text, written with the escapes of `td_cases`. A line that is empty or begins with
//! `#` is printed as it stands. The answers beside which the program's are compared were worked out from the language
//! by hand. `lexing`, `trees`, `scripts` and `reports` have the kinds; `printed` writes a statement's tree. It stands
//! on `td_lex`, `td_parse`, `td_script`, `td_words` and `td_report`, whose calls it asks, and on `td_cases`.
#![tactic(auto)]

mod lexing;
mod parts;
mod printed;
mod reports;
mod scripts;
mod trees;

use std::alloc::Global;
use std::io::{self, BufRead, BufReader, BufWriter, Write};
use td_cases::{CaseFault, Out, escaped, unescaped};
use td_layer::Seq;
use trees::{Asked, tree_of};

fn main(rt: HostRuntime) -> Result<(), CaseFault> {
    let alloc = rt.alloc();
    let input = BufReader::new(alloc, rt.reader())?;
    let mut output = BufWriter::new(alloc, io::writer(&rt))?;
    for line in input.lines(alloc) {
        let shown = line_shown(alloc, line?.as_str())?;
        output.write_all(shown.as_slice())?;
    }
    output.flush()?;
    Ok(())
}

// What a line shows: the answer of a case, or itself, and a newline.
fn line_shown(alloc: Global, line: &str) -> Result<Seq<u8>, CaseFault> {
    let mut out = Out::new(alloc);
    if line.is_empty() || line.starts_with('#') {
        out.push(line.as_bytes());
    } else {
        let (kind, text) = line.split_once(' ').unwrap_or((line, ""));
        match answer(alloc, kind, text) {
            Ok(found) => escaped(&mut out, found.as_slice()),
            Err(CaseFault::Unread) => out.push(b"unread"),
            Err(fault) => return Err(fault),
        }
    }
    out.push(b"\n");
    Ok(out.text()?)
}

// The answer of a case.
fn answer(alloc: Global, kind: &str, text: &str) -> Result<Seq<u8>, CaseFault> {
    let bytes = unescaped(alloc, text)?;
    if kind == "words" {
        return scripts::command_of(alloc, bytes);
    }
    let found = answer_of(alloc, kind, text, bytes.as_slice());
    drop(bytes);
    found
}

// The answer of a case that isn't `words`, of a text and of the bytes for which it stands.
fn answer_of(alloc: Global, kind: &str, text: &str, bytes: &[u8]) -> Result<Seq<u8>, CaseFault> {
    match kind {
        "tokens" => lexing::tokens_of(alloc, bytes),
        "time" => lexing::time_of(alloc, bytes),
        "number" => lexing::number_of(alloc, text),
        "statement" => tree_of(alloc, bytes, Asked::Tree),
        "copy" => tree_of(alloc, bytes, Asked::Copy),
        "script" => scripts::lines_of(alloc, bytes),
        "reply" => reports::reply_told(alloc, text),
        "cause" => reports::cause_told(alloc, text),
        "report" => reports::report_told(alloc, text),
        _ => Err(CaseFault::Unread),
    }
}
