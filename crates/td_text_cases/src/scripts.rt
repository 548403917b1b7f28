//! Scripts and command lines.
use std::alloc::Global;
use td_cases::{CaseFault, Out};
use td_layer::Seq;
use td_limits::SCRIPT_BYTES;
use td_script::{Line, ScriptFault, script};
use td_words::{Command, read_command};

/// `script BYTES`: `PHASE.SESSION.ORDINAL TEXT` of each statement line, with a bar; or `bad` with the first line of no
/// form.
pub(crate) fn lines_of(alloc: Global, bytes: &[u8]) -> Result<Seq<u8>, CaseFault> {
    if bytes.len() > SCRIPT_BYTES {
        return Err(CaseFault::Unread);
    }
    let mut out = Out::new(alloc);
    match script(alloc, bytes) {
        Ok(lines) => {
            push_lines(&mut out, lines.as_slice());
            drop(lines);
        }
        Err(ScriptFault::BadScript(number)) => {
            out.push(b"bad ");
            out.number(i128::from(number));
        }
        Err(ScriptFault::NoMemory) => {
            drop(out);
            return Err(CaseFault::NoMemory);
        }
    }
    Ok(out.text()?)
}

fn push_lines(out: &mut Out, lines: &[Line]) {
    for line in lines {
        push_line(out, line);
    }
}

fn push_line(out: &mut Out, line: &Line) {
    out.number(i128::from(line.phase));
    out.push(b".");
    out.number(i128::from(line.session));
    out.push(b".");
    out.number(i128::from(line.ordinal));
    out.push(b" ");
    out.push(line.text.as_slice());
    out.push(b"|");
}

/// `words |WORD|WORD ..`: the command that the words are, each of which stands behind a bar, or `none`.
pub(crate) fn command_of(alloc: Global, bytes: Vec<u8>) -> Result<Seq<u8>, CaseFault> {
    let Ok(line) = String::from_utf8(bytes) else {
        return Err(CaseFault::Unread);
    };
    let words = words_of(alloc, line.as_str());
    drop(line);
    let words = words?;
    let shown = command_shown(alloc, words.as_slice());
    drop(words);
    shown
}

fn words_of(alloc: Global, line: &str) -> Result<Vec<String>, CaseFault> {
    let mut words = Vec::new(alloc);
    match push_words(&mut words, alloc, line) {
        Ok(()) => Ok(words),
        Err(fault) => {
            drop(words);
            Err(fault)
        }
    }
}

fn push_words(words: &mut Vec<String>, alloc: Global, line: &str) -> Result<(), CaseFault> {
    for word in line.split('|').skip(1) {
        words.push(String::from_str(alloc, word)?)?;
    }
    Ok(())
}

fn command_shown(alloc: Global, words: &[String]) -> Result<Seq<u8>, CaseFault> {
    let command = read_command(alloc, words)?;
    let mut out = Out::new(alloc);
    match command {
        Some(Command::Play { dir }) => {
            out.push(b"play ");
            out.push(dir.as_bytes());
        }
        None => out.push(b"none"),
    }
    Ok(out.text()?)
}
