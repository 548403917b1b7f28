//! Bytes as hexadecimal digits.
use crate::fault::CaseFault;
use crate::out::Out;
use std::alloc::Global;
use td_layer::Seq;

/// The bytes of hexadecimal digits, two for each byte, between which blanks may stand.
pub fn hex_bytes(alloc: Global, digits: &str) -> Result<Seq<u8>, CaseFault> {
    let mut bytes = Seq::new(alloc);
    match push_bytes(&mut bytes, digits) {
        Ok(()) => Ok(bytes),
        Err(fault) => {
            drop(bytes);
            Err(fault)
        }
    }
}

fn push_bytes(bytes: &mut Seq<u8>, digits: &str) -> Result<(), CaseFault> {
    let mut high = None;
    for byte in digits.as_bytes() {
        if *byte == b' ' {
            continue;
        }
        let low = digit(*byte)?;
        high = match high {
            None => Some(low),
            Some(high) => {
                bytes.add(u8::wrapping_mul(high, 16) | low)?;
                None
            }
        };
    }
    match high {
        None => Ok(()),
        Some(_) => Err(CaseFault::Unread),
    }
}

/// The number that a hexadecimal digit in lower case stands for.
pub(crate) fn digit(byte: u8) -> Result<u8, CaseFault> {
    match byte {
        b'0'..=b'9' => Ok(byte - b'0'),
        b'a'..=b'f' => Ok(byte - b'a' + 10),
        _ => Err(CaseFault::Unread),
    }
}

/// The hexadecimal digit of a number below 16.
pub(crate) fn hex(nibble: u8) -> u8 {
    match nibble {
        0..=9 => b'0' + nibble,
        10..=15 => b'a' + (nibble - 10),
        _ => b'?',
    }
}

/// Adds bytes as hexadecimal digits.
pub fn push_hex(out: &mut Out, bytes: &[u8]) {
    for byte in bytes {
        out.push(&[hex(*byte / 16), hex(*byte % 16)]);
    }
}
