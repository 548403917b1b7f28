//! Bytes as hexadecimal digits.
use std::alloc::Global;
use td_cases::{CaseFault, Out};

fn digit(byte: u8) -> Result<u8, CaseFault> {
    match byte {
        b'0'..=b'9' => Ok(byte - b'0'),
        b'a'..=b'f' => Ok(byte - b'a' + 10),
        _ => Err(CaseFault::Unread),
    }
}

/// The bytes of hexadecimal digits, two for each byte, between which blanks may stand.
pub(crate) fn bytes_of(alloc: Global, digits: &str) -> Result<Vec<u8>, CaseFault> {
    let mut bytes = Vec::new(alloc);
    let mut high = None;
    for byte in digits.as_bytes() {
        if *byte == b' ' {
            continue;
        }
        let low = digit(*byte)?;
        high = match high {
            None => Some(low),
            Some(high) => {
                bytes.push(u8::wrapping_mul(high, 16) | low)?;
                None
            }
        };
    }
    match high {
        None => Ok(bytes),
        Some(_) => Err(CaseFault::Unread),
    }
}

fn hex(nibble: u8) -> u8 {
    match nibble {
        0..=9 => b'0' + nibble,
        10..=15 => b'a' + (nibble - 10),
        _ => b'?',
    }
}

/// Adds bytes as hexadecimal digits.
pub(crate) fn push_hex(out: &mut Out, bytes: &[u8]) {
    for byte in bytes {
        out.push(&[hex(*byte / 16), hex(*byte % 16)]);
    }
}
