//! Interval windows.
ghost use Rattle.std.specs.Prelude.{◌≡◌, ℕ, ◌+◌, ◌-◌, ◌*◌, ◌%◌, ◌<◌, ◌≤◌, IfOk, All, length, map, slice_index};
ghost use Rattle.std.specs.List.Sorted.{IsNonDecreasing};
ghost use Rattle.td_window.specs.Windows.{AreIntervalWindows};
ghost use Rattle.td_window.specs.Spans.{places, time_at, window_of, IsInside};

use crate::span::{Span, span_ending};
use std::alloc::Global;
use td_layer::{NoMem, Seq};
use td_limits::{LAST_TIMESTAMP, LONGEST_DURATION};

/// The interval windows of rows at timestamps that don't fall. Windows start at `offset + j * slide` for every whole j,
/// also below 0, and take the rows from there on and before the end, `len` later; those that hold a row are given, by
/// their starts. All three durations are in milliseconds.
pub fn interval(
    alloc: Global,
    ts: &[u64],
    len: u64,
    offset: u64,
    slide: u64,
) -> Result<Seq<Span>, NoMem>
    requires in_order { IsNonDecreasing ts.now }
    requires in_range { All (λ t. t ≤ LAST_TIMESTAMP) ts.now }
    requires length { len ≤ LONGEST_DURATION }
    requires offset { offset < len }
    requires slide { (0 < slide) × (slide ≤ len) }
    ensures windows { IfOk result (λ spans. AreIntervalWindows (time_at ts.now) len offset slide
        (places (length ts.now)) (map window_of spans)) }
    ensures inside { IfOk result (All (IsInside (length ts.now))) }
{
    let mut spans = Vec::new(alloc);
    let phase = (offset + len) % slide;
    let mut end = phase;
    let mut first = 0;
    let mut past = 0;
    'windows: while first < ts.len() {
        end = end.max(end_past(ts[first], phase, slide));
        past = place_from(ts, first.max(past), end);
        spans.push(span_ending(end, len, first, past))?;
        end += slide;
        first = place_from(ts, first, end.saturating_sub(len));
    }
    Ok(Seq::from_vec(alloc, spans))
}

/// The least end of a window that is greater than a timestamp, where the ends are those of `phase + q * slide` for the
/// whole q from 0 on.
fn end_past(t: u64, phase: u64, slide: u64) -> u64
    requires in_range { t ≤ LAST_TIMESTAMP }
    requires slide { (0 < slide) × (slide ≤ LONGEST_DURATION) }
    requires phase { phase < slide }
    ensures is_end { (q : ℕ) × (result ≡ phase + q * slide) }
    ensures past { t < result }
    ensures near { result ≤ t + slide }
    ensures least { (q : ℕ) → t < phase + q * slide → result ≤ phase + q * slide }
{
    if t < phase {
        phase
    } else {
        t - (t - phase) % slide + slide
    }
}

/// The first place, from a place on, at which a timestamp isn't less than a bound, or the length.
fn place_from(ts: &[u64], from: usize, bound: u64) -> usize
    requires { from ≤ length ts.now }
    ensures inside { (from ≤ result) × (result ≤ length ts.now) }
    ensures below { (p : ℕ) → from ≤ p → p < result → slice_index ts.now p < bound }
    ensures found { result < length ts.now → bound ≤ slice_index ts.now result }
{
    let mut place = from;
    'places: while place < ts.len() && ts[place] < bound {
        place += 1;
    }
    place
}
