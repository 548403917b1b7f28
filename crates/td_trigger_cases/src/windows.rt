//! Windows and ranges, as cases write them.
ghost use Rattle.std.specs.Prelude.{◌≡◌, ◌^◌, ◌<◌, IfOk, All, map};
ghost use Rattle.td_trigger.specs.declared.range.Range.{Range};
ghost use Rattle.td_trigger.specs.Ranges.{IsRange};
ghost use Rattle.td_trigger.specs.Regions.{AreInOrder, IsGrouped, extent};

use std::alloc::Global;
use td_cases::CaseFault;
use td_layer::Seq;
use td_limits::LONGEST_DURATION;
use td_model::WindowDef;
use td_trigger::Range;
use td_window::Span;

/// A number below 2^64 of a case.
pub(crate) fn number(word: &str) -> Result<u64, CaseFault> {
    word.parse::<u64>().map_err(|_| CaseFault::Unread)
}

/// `interval LENGTH OFFSET SLIDE`, `session TOLERANCE` or `state`.
pub(crate) fn window_of(alloc: Global, text: &str) -> Result<WindowDef, CaseFault>
    ensures { IfOk result IsGrouped }
{
    let (kind, durations) = text.split_once(' ').unwrap_or((text, ""));
    match kind {
        "interval" => interval_of(durations),
        "session" => session(alloc, number(durations)?),
        "state" => Ok(state(alloc)),
        _ => Err(CaseFault::Unread),
    }
}

fn interval_of(durations: &str) -> Result<WindowDef, CaseFault>
    ensures { IfOk result IsGrouped }
{
    let mut words = durations.split(' ');
    let len = number(words.next().unwrap_or(""))?;
    let offset = number(words.next().unwrap_or(""))?;
    let slide = number(words.next().unwrap_or(""))?;
    interval(len, offset, slide)
}

fn interval(len: u64, offset: u64, slide: u64) -> Result<WindowDef, CaseFault>
    ensures { IfOk result IsGrouped }
{
    if slide == 0 || slide > len || offset >= len || len > LONGEST_DURATION {
        return Err(CaseFault::Unread);
    }
    Ok(WindowDef::Interval { len, offset, slide })
}

fn session(alloc: Global, tol: u64) -> Result<WindowDef, CaseFault>
    ensures { IfOk result IsGrouped }
{
    if tol > LONGEST_DURATION {
        return Err(CaseFault::Unread);
    }
    Ok(WindowDef::Session {
        column: Seq::new(alloc),
        tol,
    })
}

fn state(alloc: Global) -> WindowDef
    ensures { IsGrouped result }
{
    WindowDef::State {
        column: Seq::new(alloc),
    }
}

/// `LO..HI`, where HI isn't below LO.
pub(crate) fn range_of(word: &str) -> Result<Range, CaseFault>
    ensures ordered { IfOk result IsRange }
    ensures small { IfOk result (λ (r : Range). r.hi < 2 ^ 63) }
{
    let (lo, hi) = word.split_once("..").unwrap_or((word, ""));
    let lo = number(lo)?;
    let hi = number(hi)?;
    if lo > hi || hi > i64::MAX as u64 {
        return Err(CaseFault::Unread);
    }
    Ok(Range { lo, hi })
}

/// Ranges with a blank between each two, or none.
pub(crate) fn ranges_of(alloc: Global, text: &str) -> Result<Vec<Range>, CaseFault>
    ensures ordered { IfOk result (λ v. All IsRange v.items) }
    ensures small { IfOk result (λ v. All (λ (r : Range). r.hi < 2 ^ 63) v.items) }
{
    let mut ranges = Vec::new(alloc);
    if !text.is_empty() {
        for word in text.split(' ') {
            ranges.push(range_of(word)?)?;
        }
    }
    Ok(ranges)
}

/// The window that reaches over a range, from its first row to its last.
pub(crate) fn span_of(range: Range) -> Span
    requires small { range.hi < 2 ^ 63 }
    requires ordered { IsRange range }
    ensures { extent result ≡ range }
{
    Span {
        start: range.lo as i64,
        end: range.hi as i64,
        first: 0,
        rows: 1,
    }
}

/// The windows that reach over ranges in order.
pub(crate) fn spans_of(alloc: Global, ranges: &[Range]) -> Result<Vec<Span>, CaseFault>
    requires ordered { All IsRange ranges.now }
    requires small { All (λ (r : Range). r.hi < 2 ^ 63) ranges.now }
    ensures { IfOk result (λ v. AreInOrder (map extent v.items)) }
{
    let mut spans = Vec::new(alloc);
    let mut last = Range { lo: 0, hi: 0 };
    for range in ranges {
        if range.lo < last.lo || range.hi < last.hi {
            return Err(CaseFault::Unread);
        }
        last = *range;
        spans.push(span_of(last))?;
    }
    Ok(spans)
}
