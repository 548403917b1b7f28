//! The lines of the input, and what they show.
use crate::escapes::escaped;
use crate::fault::CaseFault;
use crate::out::Out;
use std::alloc::Global;
use std::io::{self, BufRead, BufReader, BufWriter, Write};
use td_layer::Seq;

/// Cases, each of a kind and a text.
pub trait Cases {
    /// Adds the answer of a case to an empty text. Where it answers `Unread`, the case isn't written as its kind asks.
    fn push_answer(
        &self,
        out: &mut Out,
        alloc: Global,
        kind: &str,
        text: &str,
    ) -> Result<(), CaseFault>;
}

/// Prints what each line of the input shows: a line that is empty or begins with `#` itself, and each other line the
/// answer of its case with the escapes of [`escaped`], or `unread`.
pub fn play_cases<R: Input + Print, C: Cases>(
    rt: &R,
    alloc: Global,
    cases: &C,
) -> Result<(), CaseFault> {
    let input = BufReader::new(alloc, rt.reader())?;
    let mut output = BufWriter::new(alloc, io::writer(rt))?;
    let shown = show_lines(input, &mut output, alloc, cases);
    let flushed = output.flush();
    drop(output);
    shown?;
    flushed?;
    Ok(())
}

fn show_lines<I: BufRead + Drop, W: Write, C: Cases>(
    input: I,
    output: &mut W,
    alloc: Global,
    cases: &C,
) -> Result<(), CaseFault> {
    for line in input.lines(alloc) {
        let line = line?;
        let shown = line_shown(alloc, cases, line.as_str());
        drop(line);
        print_text(output, shown?)?;
    }
    Ok(())
}

fn print_text<W: Write>(output: &mut W, text: Seq<u8>) -> io::Result<()> {
    let printed = output.write_all(text.as_slice());
    drop(text);
    printed
}

fn line_shown<C: Cases>(alloc: Global, cases: &C, line: &str) -> Result<Seq<u8>, CaseFault> {
    let mut out = Out::new(alloc);
    let pushed = push_line(&mut out, alloc, cases, line);
    out.push(b"\n");
    let text = out.text();
    pushed?;
    Ok(text?)
}

fn push_line<C: Cases>(
    out: &mut Out,
    alloc: Global,
    cases: &C,
    line: &str,
) -> Result<(), CaseFault> {
    if line.is_empty() || line.starts_with('#') {
        out.push(line.as_bytes());
        return Ok(());
    }
    let (kind, text) = line.split_once(' ').unwrap_or((line, ""));
    match answer(alloc, cases, kind, text) {
        Ok(found) => {
            escaped(out, found.as_slice());
            drop(found);
            Ok(())
        }
        Err(CaseFault::Unread) => {
            out.push(b"unread");
            Ok(())
        }
        Err(fault) => Err(fault),
    }
}

fn answer<C: Cases>(
    alloc: Global,
    cases: &C,
    kind: &str,
    text: &str,
) -> Result<Seq<u8>, CaseFault> {
    let mut out = Out::new(alloc);
    let pushed = cases.push_answer(&mut out, alloc, kind, text);
    let text = out.text();
    pushed?;
    Ok(text?)
}

/// The lines of the input.
pub fn lines_of<R: Input>(rt: &R, alloc: Global) -> Result<Vec<String>, CaseFault> {
    let input = BufReader::new(alloc, rt.reader())?;
    let mut lines = Vec::new(alloc);
    match push_lines(&mut lines, alloc, input) {
        Ok(()) => Ok(lines),
        Err(fault) => {
            drop(lines);
            Err(fault)
        }
    }
}

fn push_lines<I: BufRead + Drop>(
    lines: &mut Vec<String>,
    alloc: Global,
    input: I,
) -> Result<(), CaseFault> {
    for line in input.lines(alloc) {
        lines.push(line?)?;
    }
    Ok(())
}

/// Prints a text.
pub fn print<R: Print>(rt: &R, text: &[u8]) -> Result<(), CaseFault> {
    io::writer(rt).write_all(text)?;
    Ok(())
}
