//! Bytes as hexadecimal digits, two a byte. Blanks between digits mean nothing.
use std::alloc::Global;
use td_cases::{CaseFault, Out};

/// The bytes of a text of digits.
pub(crate) fn bytes_of(alloc: Global, text: &str) -> Result<Vec<u8>, CaseFault> {
    let mut bytes = Vec::new(alloc);
    let mut high = None;
    for letter in text.as_bytes() {
        if *letter == b' ' {
            continue;
        }
        let digit = digit(*letter)?;
        match high {
            None => high = Some(digit),
            Some(first) => {
                bytes.push(first.wrapping_mul(16) | digit)?;
                high = None;
            }
        }
    }
    match high {
        None => Ok(bytes),
        Some(_) => Err(CaseFault::Unread),
    }
}

fn digit(letter: u8) -> Result<u8, CaseFault> {
    match letter {
        b'0'..=b'9' => Ok(letter - b'0'),
        b'a'..=b'f' => Ok(letter - b'a' + 10),
        _ => Err(CaseFault::Unread),
    }
}

/// Adds bytes as digits.
pub(crate) fn push_hex(out: &mut Out, bytes: &[u8]) {
    for byte in bytes {
        out.push(&[letter(*byte / 16), letter(*byte % 16)]);
    }
}

fn letter(nibble: u8) -> u8 {
    match nibble {
        0..=9 => b'0' + nibble,
        10..=15 => b'a' + (nibble - 10),
        _ => b'?',
    }
}
