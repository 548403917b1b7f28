//! Regions.
ghost use Rattle.std.specs.Prelude.{◌≡◌, ℕ, ◌+◌, ◌^◌, ◌<◌, ◌≤◌, IfOk, All, map};
ghost use Rattle.std.specs.List.{AllByRecursion};
ghost use Rattle.td_trigger.specs.Ranges.{joined, joined_to, IsRange, AreApart};
ghost use Rattle.td_trigger.specs.Regions.{IsGrouped, AreInOrder, reach_of, widened, join_gap, region};

use crate::range::Range;
use crate::widening::{widened_interval, widened_session, widened_state};
use std::alloc::Global;
use td_layer::{NoMem, Seq};
use td_limits::LONGEST_DURATION;
use td_model::WindowDef;
use td_window::Span;

/// The ranges of timestamps that must be computed anew in a group, where rows in the touched ranges came, went or
/// changed; `old` are the group's windows before that. The ranges rise and don't meet. It takes the logarithm of the
/// number of old windows for each touched range, and sorts the ranges; intervals don't look at the old windows.
pub fn region(
    alloc: Global,
    touched: &[Range],
    old: &[Span],
    window: &WindowDef,
) -> Result<Seq<Range>, NoMem>
    requires window { IsGrouped window.now }
    requires ordered { All IsRange touched.now }
    requires in_range { All (λ (r : Range). r.hi < 2 ^ 63) touched.now }
    requires old { AreInOrder (map (reach_of window.now) old.now) }
    ensures region { IfOk result (λ ranges. ranges
        ≡ region touched.now (map (reach_of window.now) old.now) window.now) }
    ensures ordered { IfOk result (AllByRecursion IsRange) }
    ensures apart { IfOk result (AreApart (join_gap window.now)) }
{
    let mut ranges = Vec::with_capacity(alloc, touched.len())?;
    for range in touched {
        ranges.push(widened(*range, old, window))?;
    }
    ranges.sort_unstable();
    joined(alloc, ranges.as_slice(), join_gap(window))
}

/// A touched range, widened by the kind of the windows.
fn widened(range: Range, old: &[Span], window: &WindowDef) -> Range
    requires window { IsGrouped window.now }
    requires touched { range.hi < 2 ^ 63 }
    requires ordered { IsRange range }
    requires old { AreInOrder (map (reach_of window.now) old.now) }
    ensures value { result ≡ widened window.now (map (reach_of window.now) old.now) range }
    ensures small { result.hi < 2 ^ 63 + LONGEST_DURATION }
{
    match window {
        WindowDef::Whole => range,
        WindowDef::Interval { len, offset, slide } => {
            widened_interval(range, *len, *offset, *slide)
        }
        WindowDef::Session { tol, .. } => widened_session(range, old, *tol),
        WindowDef::State { .. } => widened_state(range, old),
    }
}

/// How far above the end of a range another may begin to be joined with it.
fn join_gap(window: &WindowDef) -> u64
    requires { IsGrouped window.now }
    ensures value { result ≡ join_gap window.now }
    ensures small { result ≤ LONGEST_DURATION }
{
    match window {
        WindowDef::Interval { .. } => 1,
        WindowDef::Session { tol, .. } => *tol,
        WindowDef::State { .. } | WindowDef::Whole => 0,
    }
}

/// Ranges in order, joined where one begins at most `gap` above the end of what goes before it.
fn joined(alloc: Global, ranges: &[Range], gap: u64) -> Result<Seq<Range>, NoMem>
    requires gap { gap ≤ LONGEST_DURATION }
    requires small { All (λ (r : Range). r.hi < 2 ^ 63 + LONGEST_DURATION) ranges.now }
    ensures { IfOk result (λ regions. regions ≡ joined gap ranges.now) }
{
    match ranges.split_first() {
        None => Ok(Seq::new(alloc)),
        Some((first, rest)) => Ok(joined_to(alloc, *first, rest, gap)?),
    }
}

/// A range and those that follow it in order, joined.
fn joined_to(alloc: Global, first: Range, rest: &[Range], gap: u64) -> Result<Seq<Range>, NoMem>
    requires gap { gap ≤ LONGEST_DURATION }
    requires first { first.hi < 2 ^ 63 + LONGEST_DURATION }
    requires small { All (λ (r : Range). r.hi < 2 ^ 63 + LONGEST_DURATION) rest.now }
    ensures { IfOk result (λ regions. regions ≡ joined_to gap first rest.now) }
{
    let mut regions = Vec::new(alloc);
    let mut open = first;
    for range in rest {
        if range.lo <= open.hi + gap {
            open = open.hull(*range);
        } else {
            regions.push(open)?;
            open = *range;
        }
    }
    regions.push(open)?;
    Ok(Seq::from_vec(alloc, regions))
}
