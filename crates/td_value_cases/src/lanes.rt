//! Kinds of columns, and lanes.
ghost use Rattle.std.specs.Prelude.{◌≡◌, IsTrue};
ghost use Rattle.td_cols.specs.Lanes.{is_lane_width};

use crate::lists::whole;
use std::alloc::Global;
use td_cases::{CaseFault, Out, push_hex, unescaped};
use td_cols::{Kind, Lane, code, in_range, load, store, width};

fn kind_of(word: &str) -> Result<Kind, CaseFault> {
    let kind = match word {
        "bool" => Kind::Bool,
        "i8" => Kind::I8,
        "i16" => Kind::I16,
        "i32" => Kind::I32,
        "i64" => Kind::I64,
        "u8" => Kind::U8,
        "u16" => Kind::U16,
        "u32" => Kind::U32,
        "u64" => Kind::U64,
        "time" => Kind::Time,
        "wide" => Kind::Wide,
        "text" => Kind::Text(9),
        _ => return Err(CaseFault::Unread),
    };
    Ok(kind)
}

/// `kind KIND`: the kind's code, and the bytes of each of its numbers.
pub(crate) fn push_kind(out: &mut Out, text: &str) -> Result<(), CaseFault> {
    let kind = kind_of(text)?;
    out.number(i128::from(code(kind)));
    out.push(b" ");
    out.number(width(kind) as i128);
    Ok(())
}

/// `store KIND N`: the bytes of a number of the kind, in hexadecimal digits, or `out of range`.
pub(crate) fn push_stored(out: &mut Out, text: &str) -> Result<(), CaseFault> {
    let (word, n) = text.split_once(' ').unwrap_or((text, ""));
    let kind = kind_of(word)?;
    push_bytes_of(out, kind, whole(n)?);
    Ok(())
}

fn push_bytes_of(out: &mut Out, kind: Kind, v: i128) {
    if !in_range(kind, v) {
        return out.push(b"out of range");
    }
    let mut bytes = [0u8; 16];
    let wide = width(kind);
    store(kind, v, &mut bytes[..wide]);
    push_hex(out, &bytes[..wide]);
}

/// `load KIND BYTES`: the number that the bytes spell, of which there are as many as the kind has.
pub(crate) fn push_loaded(out: &mut Out, alloc: Global, text: &str) -> Result<(), CaseFault> {
    let (word, escapes) = text.split_once(' ').unwrap_or((text, ""));
    let kind = kind_of(word)?;
    let bytes = unescaped(alloc, escapes)?;
    let found = loaded(kind, bytes.as_slice());
    drop(bytes);
    push_found(out, found)
}

fn push_found(out: &mut Out, found: Option<i128>) -> Result<(), CaseFault> {
    match found {
        Some(n) => {
            out.number(n);
            Ok(())
        }
        None => Err(CaseFault::Unread),
    }
}

fn loaded(kind: Kind, bytes: &[u8]) -> Option<i128> {
    if bytes.is_empty() || bytes.len() != width(kind) {
        return None;
    }
    Some(load(kind, bytes))
}

/// `put LANE N`: the bytes of a number that fits a lane, in hexadecimal digits, or `does not fit`. A lane is `s` or
/// `u` and its bytes.
pub(crate) fn push_put(out: &mut Out, text: &str) -> Result<(), CaseFault> {
    let (lane, n) = text.split_once(' ').unwrap_or((text, ""));
    let n = whole(n)?;
    match lane {
        "s2" => push_in::<2, true>(out, n),
        "u2" => push_in::<2, false>(out, n),
        "s4" => push_in::<4, true>(out, n),
        "u8" => push_in::<8, false>(out, n),
        "u16" => push_in::<16, false>(out, n),
        _ => return Err(CaseFault::Unread),
    }
    Ok(())
}

fn push_in<const W: usize, const S: bool>(out: &mut Out, n: i128)
    requires { IsTrue (is_lane_width W) }
{
    if Lane::<W, S>::fits(n) {
        let mut bytes = [0u8; W];
        Lane::<W, S>::put(n, &mut bytes);
        push_hex(out, &bytes);
    } else {
        out.push(b"does not fit");
    }
}

/// `get LANE BYTES`: the number that the bytes of a lane spell.
pub(crate) fn push_got(out: &mut Out, alloc: Global, text: &str) -> Result<(), CaseFault> {
    let (lane, escapes) = text.split_once(' ').unwrap_or((text, ""));
    let bytes = unescaped(alloc, escapes)?;
    let found = match lane {
        "s2" => got::<2, true>(bytes.as_slice()),
        "u2" => got::<2, false>(bytes.as_slice()),
        "s4" => got::<4, true>(bytes.as_slice()),
        "u8" => got::<8, false>(bytes.as_slice()),
        "u16" => got::<16, false>(bytes.as_slice()),
        _ => None,
    };
    drop(bytes);
    push_found(out, found)
}

fn got<const W: usize, const S: bool>(bytes: &[u8]) -> Option<i128>
    requires { IsTrue (is_lane_width W) }
{
    if bytes.len() == W {
        Some(Lane::<W, S>::get(bytes))
    } else {
        None
    }
}
