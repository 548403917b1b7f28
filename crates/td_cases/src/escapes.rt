//! Bytes as a line shows them.
use crate::fault::CaseFault;
use crate::hex::{digit, hex};
use crate::out::Out;
use std::alloc::Global;

/// The most bytes that a text of a case may have.
const MOST: usize = 100_000_000;

// Where the reading of a text stands.
#[derive(Clone, Copy)]
enum At {
    Text,
    Backslash,
    HighDigit,
    LowDigit(u8),
    Count(usize),
}

/// The bytes of a text in which `\n`, `\r` and `\t` stand for these bytes, `\\` for a backslash, `\xNN` for the byte
/// of two hexadecimal digits, and `\{N}` for so many of the byte before it that there are N in all.
pub fn unescaped(alloc: Global, text: &str) -> Result<Vec<u8>, CaseFault> {
    let mut bytes = Vec::new(alloc);
    let mut at = At::Text;
    for byte in text.as_bytes() {
        at = read_byte(&mut bytes, at, *byte)?;
    }
    match at {
        At::Text => Ok(bytes),
        _ => Err(CaseFault::Unread),
    }
}

fn read_byte(bytes: &mut Vec<u8>, at: At, byte: u8) -> Result<At, CaseFault> {
    match at {
        At::Text => read_plain(bytes, byte),
        At::Backslash => read_letter(bytes, byte),
        At::HighDigit => Ok(At::LowDigit(digit(byte)?)),
        At::LowDigit(high) => {
            bytes.push(high.wrapping_mul(16) | digit(byte)?)?;
            Ok(At::Text)
        }
        At::Count(count) => read_count(bytes, count, byte),
    }
}

fn read_plain(bytes: &mut Vec<u8>, byte: u8) -> Result<At, CaseFault> {
    if byte == b'\\' {
        return Ok(At::Backslash);
    }
    bytes.push(byte)?;
    Ok(At::Text)
}

fn read_letter(bytes: &mut Vec<u8>, letter: u8) -> Result<At, CaseFault> {
    let byte = match letter {
        b'x' => return Ok(At::HighDigit),
        b'{' => return Ok(At::Count(0)),
        b'n' => b'\n',
        b'r' => b'\r',
        b't' => b'\t',
        b'\\' => b'\\',
        _ => return Err(CaseFault::Unread),
    };
    bytes.push(byte)?;
    Ok(At::Text)
}

fn read_count(bytes: &mut Vec<u8>, count: usize, byte: u8) -> Result<At, CaseFault> {
    if byte != b'}' {
        let next = count
            .saturating_mul(10)
            .saturating_add(digit(byte)? as usize);
        return Ok(At::Count(next));
    }
    let Some(last) = bytes.last().copied() else {
        return Err(CaseFault::Unread);
    };
    let length = bytes.len().saturating_add(count.saturating_sub(1));
    if length > MOST {
        return Err(CaseFault::Unread);
    }
    bytes.resize(length, last)?;
    Ok(At::Text)
}

/// Adds bytes to a text as one line shows them: a backslash, a newline and the other control bytes as escapes, and
/// each other byte as it is.
pub fn escaped(out: &mut Out, bytes: &[u8]) {
    for byte in bytes {
        push_byte(out, *byte);
    }
}

fn push_byte(out: &mut Out, byte: u8) {
    match byte {
        b'\\' => out.push(b"\\\\"),
        b'\n' => out.push(b"\\n"),
        b'\r' => out.push(b"\\r"),
        b'\t' => out.push(b"\\t"),
        0..=31 | 127 => out.push(&[b'\\', b'x', hex(byte / 16), hex(byte % 16)]),
        _ => out.push(&[byte]),
    }
}
