//! Regions.
ghost use Rattle.std.specs.Prelude.{◌^◌, ◌<◌, All, map};
ghost use Rattle.td_trigger.specs.declared.range.Range.{Range};
ghost use Rattle.td_trigger.specs.Ranges.{IsRange};
ghost use Rattle.td_trigger.specs.Regions.{AreInOrder, IsGrouped, extent};

use crate::windows::{ranges_of, spans_of, window_of};
use std::alloc::Global;
use td_cases::{CaseFault, Out};
use td_layer::{NoMem, Seq};
use td_model::WindowDef;
use td_trigger::{Range, region};
use td_window::Span;

/// `region WINDOW|TOUCHED|OLD`, where TOUCHED and OLD are ranges with a blank between each two; OLD are those of the
/// old windows, which intervals have none of: the regions, with a blank between each two.
pub(crate) fn push_regions(out: &mut Out, alloc: Global, text: &str) -> Result<(), CaseFault> {
    let mut parts = text.split('|');
    let window = parts.next().unwrap_or("");
    let touched = ranges_of(alloc, parts.next().unwrap_or(""))?;
    let old = ranges_of(alloc, parts.next().unwrap_or(""))?;
    let old = spans_of(alloc, old.as_slice())?;
    let found = regions_by(alloc, touched.as_slice(), old.as_slice(), window)?;
    push_ranges(out, found.as_slice());
    Ok(())
}

// The regions by a window as the cases write it.
fn regions_by(
    alloc: Global,
    touched: &[Range],
    old: &[Span],
    window: &str,
) -> Result<Seq<Range>, CaseFault>
    requires ordered { All IsRange touched.now }
    requires small { All (λ (r : Range). r.hi < 2 ^ 63) touched.now }
    requires old { AreInOrder (map extent old.now) }
{
    let window = window_of(alloc, window)?;
    Ok(regions_of(alloc, touched, old, &window)?)
}

fn regions_of(
    alloc: Global,
    touched: &[Range],
    old: &[Span],
    window: &WindowDef,
) -> Result<Seq<Range>, NoMem>
    requires window { IsGrouped window.now }
    requires ordered { All IsRange touched.now }
    requires small { All (λ (r : Range). r.hi < 2 ^ 63) touched.now }
    requires old { AreInOrder (map extent old.now) }
{
    match window {
        WindowDef::Session { .. } => region(alloc, touched, old, window),
        WindowDef::State { .. } => region(alloc, touched, old, window),
        WindowDef::Interval { .. } | WindowDef::Whole => region(alloc, touched, &[], window),
    }
}

fn push_ranges(out: &mut Out, ranges: &[Range]) {
    let mut first = true;
    for range in ranges {
        if !first {
            out.push(b" ");
        }
        out.number(i128::from(range.lo));
        out.push(b"..");
        out.number(i128::from(range.hi));
        first = false;
    }
}
