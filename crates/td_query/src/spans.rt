//! The windows of rows as spans.
ghost use Rattle.std.specs.Prelude.{◌≡◌, ◌<◌, ◌≤◌, pos, [], ◌∷◌, IfOk, All, length, map};
ghost use Rattle.std.specs.List.{AllByRecursion};
ghost use Rattle.std.specs.List.Sorted.{IsNonDecreasing};
ghost use Rattle.td_window.specs.Spans.{time_of, window_over, window_over_states, IsInside};
ghost use Rattle.td_window.specs.Windows.{session_windows, state_windows};
ghost use Rattle.td_query.specs.Read.{IsGood};
ghost use Rattle.td_verdict.specs.Windowed.{value_at, interval_windows};

use crate::columns::value_at;
use std::alloc::Global;
use td_layer::{Key, NoMem, Row, Seq, Value};
use td_limits::{LAST_TIMESTAMP, LONGEST_DURATION};
use td_window::{
    Span, interval, interval_windows_are_determined, session, spans_group_rows, state,
};

// The timestamps of rows.
fn times_of(alloc: Global, rows: &[(Key, Row)]) -> Result<Vec<u64>, NoMem>
    ensures { IfOk result (λ ts. ts.items ≡ map time_of rows.now) }
{
    let mut times = Vec::with_capacity(alloc, rows.len())?;
    'rows: for entry in rows {
        times.push(entry.0.ts)?;
    }
    Ok(times)
}

// What rows hold in the column at a place.
fn states_of(alloc: Global, place: Option<usize>, rows: &[(Key, Row)]) -> Result<Vec<Value>, NoMem>
    ensures { IfOk result (λ vs. vs.items ≡ map (value_at place) rows.now) }
{
    let mut states = Vec::with_capacity(alloc, rows.len())?;
    'rows: for entry in rows {
        states.push(value_at(place, entry))?;
    }
    Ok(states)
}

/// The interval windows of rows.
pub(crate) fn intervals_of(
    alloc: Global,
    len: u64,
    offset: u64,
    slide: u64,
    rows: &[(Key, Row)],
) -> Result<Seq<Span>, NoMem>
    requires length { len ≤ LONGEST_DURATION }
    requires offset { offset < len }
    requires slide { (0 < slide) × (slide ≤ len) }
    requires in_order { IsNonDecreasing (map time_of rows.now) }
    requires good { AllByRecursion (IsGood LAST_TIMESTAMP) rows.now }
    ensures inside { IfOk result (All (IsInside (length rows.now))) }
    ensures windows { IfOk result (λ spans. map (window_over rows.now) spans
        ≡ interval_windows len offset slide rows.now) }
{
    interval_windows_are_determined();
    spans_group_rows();
    let times = times_of(alloc, rows)?;
    let spans = interval(alloc, times.as_slice(), len, offset, slide)?;
    Ok(spans)
}

/// The sessions of rows.
pub(crate) fn sessions_of(alloc: Global, tol: u64, rows: &[(Key, Row)]) -> Result<Seq<Span>, NoMem>
    requires in_order { IsNonDecreasing (map time_of rows.now) }
    requires good { AllByRecursion (IsGood LAST_TIMESTAMP) rows.now }
    ensures inside { IfOk result (All (IsInside (length rows.now))) }
    ensures windows { IfOk result (λ spans. map (window_over rows.now) spans ≡ session_windows time_of tol rows.now) }
{
    spans_group_rows();
    let times = times_of(alloc, rows)?;
    let spans = session(alloc, times.as_slice(), tol)?;
    Ok(spans)
}

/// The state windows of rows, by the state in the column at a place.
pub(crate) fn state_spans(
    alloc: Global,
    place: Option<usize>,
    rows: &[(Key, Row)],
) -> Result<Seq<Span>, NoMem>
    requires good { AllByRecursion (IsGood LAST_TIMESTAMP) rows.now }
    ensures inside { IfOk result (All (IsInside (length rows.now))) }
    ensures windows { IfOk result (λ spans. map (window_over_states (value_at place) rows.now) spans
        ≡ state_windows time_of (value_at place) rows.now) }
{
    spans_group_rows();
    let times = times_of(alloc, rows)?;
    let states = states_of(alloc, place, rows)?;
    let spans = state(alloc, times.as_slice(), states.as_slice())?;
    Ok(spans)
}

/// The span of all rows, from 0 to 0.
pub(crate) fn whole_span(alloc: Global, rows: &[(Key, Row)]) -> Result<Seq<Span>, NoMem>
    ensures { IfOk result (λ spans. spans ≡ record
        { start = pos 0; end = pos 0; first = 0; rows = length rows.now } ∷ []) }
{
    let mut spans = Seq::new(alloc);
    spans.add(Span {
        start: 0,
        end: 0,
        first: 0,
        rows: rows.len() as u64,
    })?;
    Ok(spans)
}
