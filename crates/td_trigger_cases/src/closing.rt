//! Closed windows, and windows whose delay is over.
use crate::windows::{number, range_of, span_of, window_of};
use std::alloc::Global;
use td_cases::{CaseFault, Out};
use td_trigger::{closed, due};

/// `closed WINDOW|START..END|NEXT|LATEST WATERMARK`, where NEXT is the start of the next window or `none`: `yes` or
/// `no`.
pub(crate) fn push_closed(out: &mut Out, alloc: Global, text: &str) -> Result<(), CaseFault> {
    let mut parts = text.split('|');
    let window = parts.next().unwrap_or("");
    let range = range_of(parts.next().unwrap_or(""))?;
    let next = next_of(parts.next().unwrap_or(""))?;
    let (latest, watermark) = pair_of(parts.next().unwrap_or(""))?;
    let window = window_of(alloc, window)?;
    let answer = closed(span_of(range), next, latest, &window, watermark);
    push_told(out, answer);
    Ok(())
}

// The start of the next window, or none.
fn next_of(word: &str) -> Result<Option<i64>, CaseFault> {
    if word == "none" {
        return Ok(None);
    }
    let start = word.parse::<i64>().map_err(|_| CaseFault::Unread)?;
    Ok(Some(start))
}

fn pair_of(text: &str) -> Result<(u64, u64), CaseFault> {
    let (first, second) = text.split_once(' ').unwrap_or((text, ""));
    Ok((number(first)?, number(second)?))
}

/// `due EARLIEST MOMENT DELAY`: `yes` or `no`.
pub(crate) fn push_due(out: &mut Out, text: &str) -> Result<(), CaseFault> {
    let (earliest, rest) = text.split_once(' ').unwrap_or((text, ""));
    let earliest = number(earliest)?;
    let (moment, delay) = pair_of(rest)?;
    push_told(out, due(earliest, moment, delay));
    Ok(())
}

fn push_told(out: &mut Out, answer: bool) {
    if answer {
        out.push(b"yes")
    } else {
        out.push(b"no")
    }
}
