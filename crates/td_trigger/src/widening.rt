//! How a touched range is widened.
ghost use Rattle.std.specs.Prelude.{◌≡◌, ℕ, ◌+◌, ◌-◌, ◌%◌, ◌^◌, ◌<◌, ◌≤◌, length, map, take, drop};
ghost use Rattle.std.specs.List.{AllByRecursion};
ghost use Rattle.td_trigger.specs.Ranges.{taking_in, IsRange};
ghost use Rattle.td_trigger.specs.Regions.{from_0, extent, AreInOrder, above_last, widened_interval, widened_session, widened_state};

use crate::range::Range;
use td_limits::{LAST_TIMESTAMP, LONGEST_DURATION};
use td_window::Span;

/// How far `t` lies above the last number at or below it that differs from `p` by a multiple of `s`.
fn above_last(p: u64, s: u64, t: u64) -> u64
    requires positive { 0 < s }
    requires fits { t + s < 2 ^ 64 }
    ensures value { result ≡ above_last p s t }
    ensures less { result < s }
{
    (t + s - p % s) % s
}

/// A touched range of intervals, from the first window that reaches into it to the last.
pub(crate) fn widened_interval(range: Range, len: u64, offset: u64, slide: u64) -> Range
    requires touched { range.hi < 2 ^ 63 }
    requires ordered { IsRange range }
    requires slide { (0 < slide) × (slide ≤ len) }
    requires offset { offset < len }
    requires length { len ≤ LONGEST_DURATION }
    ensures value { result ≡ widened_interval len offset slide range }
    ensures small { result.hi < 2 ^ 63 + LONGEST_DURATION }
{
    let past_end = above_last(offset + len, slide, range.lo);
    let past_start = above_last(offset, slide, range.hi);
    Range {
        lo: (range.lo + slide - past_end).saturating_sub(len),
        hi: range.hi + (len - 1) - past_start,
    }
}

/// A touched range of sessions, with each old window that lies at most the tolerance away from it.
pub(crate) fn widened_session(range: Range, old: &[Span], tol: u64) -> Range
    requires touched { range.hi < 2 ^ 63 }
    requires in_order { AreInOrder (map extent old.now) }
    requires tolerance { tol ≤ LONGEST_DURATION }
    ensures value { result ≡ widened_session tol (map extent old.now) range }
    ensures small { result.hi < 2 ^ 63 }
{
    let first = first_ending_from(old, range.lo, tol);
    let past = first_starting_after(old, range.hi + tol);
    taking_in(range, old, first, past)
}

/// A touched range of state windows, with the old windows that meet it, and their neighbours on both sides. Where there
/// is no old window it is the whole time range.
pub(crate) fn widened_state(range: Range, old: &[Span]) -> Range
    requires touched { range.hi < 2 ^ 63 }
    requires ordered { IsRange range }
    requires in_order { AreInOrder (map extent old.now) }
    ensures value { result ≡ widened_state (map extent old.now) range }
    ensures small { result.hi < 2 ^ 63 }
{
    if old.is_empty() {
        return Range {
            lo: 0,
            hi: LAST_TIMESTAMP,
        };
    }
    let first = first_ending_from(old, range.lo, 0);
    let past = first_starting_after(old, range.hi);
    taking_in(
        range,
        old,
        first.saturating_sub(1),
        (past + 1).min(old.len()),
    )
}

/// The range, widened to take in the old windows from one place on and before another.
fn taking_in(range: Range, old: &[Span], first: usize, past: usize) -> Range
    requires small { range.hi < 2 ^ 63 }
    requires in_order { AreInOrder (map extent old.now) }
    requires inside { past ≤ length old.now }
    ensures value { result ≡ taking_in range (drop first (take past (map extent old.now))) }
    ensures small { result.hi < 2 ^ 63 }
{
    if past <= first {
        return range;
    }
    range.hull(Range {
        lo: extent(old[first]).lo,
        hi: extent(old[past - 1]).hi,
    })
}

/// The place of the first window that ends at most the tolerance before a time, or later.
fn first_ending_from(old: &[Span], time: u64, tol: u64) -> usize
    requires in_order { AreInOrder (map extent old.now) }
    requires tolerance { tol ≤ LONGEST_DURATION }
    ensures inside { result ≤ length old.now }
    ensures before { AllByRecursion (λ w. w.hi + tol < time) (take result (map extent old.now)) }
    ensures from { AllByRecursion (λ w. time ≤ w.hi + tol) (drop result (map extent old.now)) }
{
    old.partition_point(|w| extent(*w).hi + tol < time)
}

/// The place of the first window that starts after a time.
fn first_starting_after(old: &[Span], time: u64) -> usize
    requires in_order { AreInOrder (map extent old.now) }
    ensures inside { result ≤ length old.now }
    ensures before { AllByRecursion (λ w. w.lo ≤ time) (take result (map extent old.now)) }
    ensures from { AllByRecursion (λ w. time < w.lo) (drop result (map extent old.now)) }
{
    old.partition_point(|w| extent(*w).lo <= time)
}

/// The timestamps from 0 on from a window's first row to its last, of a session or a state window.
fn extent(window: Span) -> Range
    ensures value { result ≡ extent window }
    ensures small { result.hi < 2 ^ 63 }
{
    Range {
        lo: from_0(window.start),
        hi: from_0(window.end),
    }
}

/// A time, or 0 where it is negative.
fn from_0(time: i64) -> u64
    ensures value { result ≡ from_0 time }
    ensures small { result < 2 ^ 63 }
{
    if time < 0 { 0 } else { time as u64 }
}
