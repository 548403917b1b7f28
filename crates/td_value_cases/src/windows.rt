//! Windows over timestamps.
ghost use Rattle.std.specs.Prelude.{◌≡◌, ◌≤◌, All, IsTrue};
ghost use Rattle.std.specs.List.Sorted.{IsNonDecreasing};

use crate::lists::{number, value_of};
use std::alloc::Global;
use td_cases::{CaseFault, Out};
use td_layer::Value;
use td_limits::{LAST_TIMESTAMP, LONGEST_DURATION};
use td_window::{Span, interval, session, state};

/// Whether timestamps are such as windows are cut from.
fn is_cuttable(ts: &[u64]) -> bool
    ensures in_order { IsTrue result → IsNonDecreasing ts.now }
    ensures in_range { IsTrue result → All (λ t. t ≤ LAST_TIMESTAMP) ts.now }
{
    ts.is_sorted() && ts.iter().all(|t| *t <= LAST_TIMESTAMP)
}

fn numbers_of(alloc: Global, text: &str) -> Result<Vec<u64>, CaseFault> {
    let mut numbers = Vec::new(alloc);
    match push_numbers(&mut numbers, text) {
        Ok(()) => Ok(numbers),
        Err(fault) => {
            drop(numbers);
            Err(fault)
        }
    }
}

fn push_numbers(numbers: &mut Vec<u64>, text: &str) -> Result<(), CaseFault> {
    if !text.is_empty() {
        for word in text.split(' ') {
            numbers.push(number(word)?)?;
        }
    }
    Ok(())
}

// Adds each window: its start, its end, the place of its first row, and how many rows it has.
fn push_spans(out: &mut Out, spans: &[Span]) {
    for span in spans {
        out.number(i128::from(span.start));
        out.push(b"..");
        out.number(i128::from(span.end));
        out.push(b" ");
        out.number(i128::from(span.first));
        out.push(b"+");
        out.number(i128::from(span.rows));
        out.push(b"|");
    }
}

/// `interval LENGTH OFFSET SLIDE|TS TS ..`: the interval windows of timestamps.
pub(crate) fn push_intervals(out: &mut Out, alloc: Global, text: &str) -> Result<(), CaseFault> {
    let (durations, ts) = text.split_once('|').unwrap_or((text, ""));
    let mut words = durations.split(' ');
    let len = number(words.next().unwrap_or(""))?;
    let offset = number(words.next().unwrap_or(""))?;
    let slide = number(words.next().unwrap_or(""))?;
    let ts = numbers_of(alloc, ts)?;
    let pushed = push_windows(out, alloc, ts.as_slice(), len, offset, slide);
    drop(ts);
    pushed
}

fn push_windows(
    out: &mut Out,
    alloc: Global,
    ts: &[u64],
    len: u64,
    offset: u64,
    slide: u64,
) -> Result<(), CaseFault> {
    if !is_cuttable(ts) || len > LONGEST_DURATION || offset >= len || slide == 0 || slide > len {
        return Err(CaseFault::Unread);
    }
    let spans = interval(alloc, ts, len, offset, slide)?;
    push_spans(out, spans.as_slice());
    drop(spans);
    Ok(())
}

/// `session TOLERANCE|TS TS ..`: the sessions of timestamps.
pub(crate) fn push_sessions(out: &mut Out, alloc: Global, text: &str) -> Result<(), CaseFault> {
    let (tolerance, ts) = text.split_once('|').unwrap_or((text, ""));
    let tolerance = number(tolerance)?;
    let ts = numbers_of(alloc, ts)?;
    let pushed = push_sessions_of(out, alloc, ts.as_slice(), tolerance);
    drop(ts);
    pushed
}

fn push_sessions_of(
    out: &mut Out,
    alloc: Global,
    ts: &[u64],
    tolerance: u64,
) -> Result<(), CaseFault> {
    if !is_cuttable(ts) {
        return Err(CaseFault::Unread);
    }
    let spans = session(alloc, ts, tolerance)?;
    push_spans(out, spans.as_slice());
    drop(spans);
    Ok(())
}

/// `state TS=VALUE TS=VALUE ..`: the state windows of timestamps with a value each.
pub(crate) fn push_states(out: &mut Out, alloc: Global, text: &str) -> Result<(), CaseFault> {
    let mut ts = Vec::new(alloc);
    let mut values = Vec::new(alloc);
    let pushed = match push_pairs(&mut ts, &mut values, text) {
        Ok(()) => push_states_of(out, alloc, ts.as_slice(), values.as_slice()),
        Err(fault) => Err(fault),
    };
    drop(ts);
    drop(values);
    pushed
}

fn push_pairs(ts: &mut Vec<u64>, values: &mut Vec<Value>, text: &str) -> Result<(), CaseFault> {
    for word in text.split(' ') {
        let (at, value) = word.split_once('=').unwrap_or((word, ""));
        ts.push(number(at)?)?;
        values.push(value_of(value)?)?;
    }
    Ok(())
}

fn push_states_of(
    out: &mut Out,
    alloc: Global,
    ts: &[u64],
    values: &[Value],
) -> Result<(), CaseFault> {
    if !is_cuttable(ts) || ts.len() != values.len() {
        return Err(CaseFault::Unread);
    }
    let spans = state(alloc, ts, values)?;
    push_spans(out, spans.as_slice());
    drop(spans);
    Ok(())
}
