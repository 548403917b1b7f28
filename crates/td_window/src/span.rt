//! Spans, which stand for windows, and the bounds of what they are cut from.
ghost use Rattle.std.specs.Prelude.{◌≡◌, ◌+◌, ◌≤◌, ◌<◌, All, length};
ghost use Rattle.td_window.specs.Spans.{span_between, span_ending};

use td_limits::{LAST_TIMESTAMP, LONGEST_DURATION};

/// A window over a slice of timestamps: from where to where it goes, in milliseconds since 1970, and the range of
/// places in the slice at which its rows stand: `rows` of them, from `first` on.
#[derive(Clone, Copy, Debug, PartialEq, Eq)]
pub struct Span {
    pub start: i64,
    pub end: i64,
    pub first: u64,
    pub rows: u64,
}

/// The span of the rows from one place to another, from the timestamp of the first to that of the last.
pub(crate) fn span_between(ts: &[u64], first: usize, last: usize) -> Span
    requires in_range { All (λ t. t ≤ LAST_TIMESTAMP) ts.now }
    requires places { (first ≤ last) × (last < length ts.now) }
    ensures { result ≡ span_between ts.now first last }
{
    Span {
        start: ts[first] as i64,
        end: ts[last] as i64,
        first: first as u64,
        rows: (last - first + 1) as u64,
    }
}

/// The span of the rows from one place on and before another, of a window with this end and length.
pub(crate) fn span_ending(end: u64, len: u64, first: usize, past: usize) -> Span
    requires end { end ≤ LAST_TIMESTAMP + LONGEST_DURATION }
    requires length { len ≤ LONGEST_DURATION }
    requires places { first ≤ past }
    ensures { result ≡ span_ending end len first past }
{
    Span {
        start: end as i64 - len as i64,
        end: end as i64,
        first: first as u64,
        rows: (past - first) as u64,
    }
}
