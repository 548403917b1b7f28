//! [tests] Cases of heads: each line of the input is a case, and its answer stands in the same line of the output.
//!
//! A case is `head` and bytes as hexadecimal digits, in which blanks don't count. Its answer is what the head says, and
//! whether it is written again as it was read; or the place of the fault. A line that is empty or begins with `#` is
//! printed as it stands. The answers beside which the program's are compared were worked out from the form of a head by
//! hand. It stands on `td_manifest`, which it asks, on `td_layer` and `td_model`, and on `td_cases`.
#![tactic(auto)]

mod shown;

use std::alloc::Global;
use std::io::{self, BufRead, BufReader, BufWriter, Write};
use td_cases::{CaseFault, Out, escaped};
use td_layer::Seq;
use td_manifest::{HeadFault, decode, encode};

fn main(rt: HostRuntime) -> Result<(), CaseFault> {
    let alloc = rt.alloc();
    let input = BufReader::new(alloc, rt.reader())?;
    let mut output = BufWriter::new(alloc, io::writer(&rt))?;
    for line in input.lines(alloc) {
        let shown = line_shown(alloc, line?.as_str())?;
        output.write_all(shown.as_slice())?;
    }
    output.flush()?;
    Ok(())
}

// What a line shows: the answer of a case, or itself, and a newline.
fn line_shown(alloc: Global, line: &str) -> Result<Seq<u8>, CaseFault> {
    let mut out = Out::new(alloc);
    if line.is_empty() || line.starts_with('#') {
        out.push(line.as_bytes());
    } else {
        match answer(alloc, line) {
            Ok(found) => escaped(&mut out, found.as_slice()),
            Err(CaseFault::Unread) => out.push(b"unread"),
            Err(fault) => return Err(fault),
        }
    }
    out.push(b"\n");
    Ok(out.text()?)
}

// The answer of a case.
fn answer(alloc: Global, line: &str) -> Result<Seq<u8>, CaseFault> {
    let Some(digits) = line.strip_prefix("head ") else {
        return Err(CaseFault::Unread);
    };
    let bytes = bytes_of(alloc, digits)?;
    let mut out = Out::new(alloc);
    push_answer(&mut out, alloc, bytes.as_slice())?;
    Ok(out.text()?)
}

// What the head that bytes are says, and whether it is written so; or the place of the fault.
fn push_answer(out: &mut Out, alloc: Global, bytes: &[u8]) -> Result<(), CaseFault> {
    match decode(alloc, bytes) {
        Err(HeadFault::NoMemory) => return Err(CaseFault::NoMemory),
        Err(HeadFault::NotThis(at)) => {
            out.push(b"fault at ");
            out.number(i128::from(at));
        }
        Ok(head) => {
            shown::push_head(out, &head);
            let again = encode(alloc, &head)?;
            out.push(if again.as_slice() == bytes {
                b"; written again"
            } else {
                b"; written otherwise"
            });
        }
    }
    Ok(())
}

// The bytes of hexadecimal digits, in which blanks don't count.
fn bytes_of(alloc: Global, digits: &str) -> Result<Seq<u8>, CaseFault> {
    let mut bytes = Seq::new(alloc);
    let mut high = None;
    for digit in digits.as_bytes() {
        if *digit == b' ' {
            continue;
        }
        let low = digit_of(*digit)?;
        match high {
            None => high = Some(low),
            Some(first) => {
                bytes.add(nibbles(first, low))?;
                high = None;
            }
        }
    }
    match high {
        None => Ok(bytes),
        Some(_) => Err(CaseFault::Unread),
    }
}

// The byte of two digits.
fn nibbles(high: u8, low: u8) -> u8 {
    high.wrapping_mul(16) | low
}

fn digit_of(digit: u8) -> Result<u8, CaseFault> {
    match digit {
        b'0'..=b'9' => Ok(digit - b'0'),
        b'a'..=b'f' => Ok(digit - b'a' + 10),
        _ => Err(CaseFault::Unread),
    }
}
