//! Sessions.
ghost use Rattle.std.specs.Prelude.{◌≡◌, ℕ, ◌+◌, ◌-◌, ◌<◌, ◌≤◌, IfOk, All, length, map, slice_index};
ghost use Rattle.std.specs.List.Sorted.{IsNonDecreasing};
ghost use Rattle.td_window.specs.Windows.{session_windows};
ghost use Rattle.td_window.specs.Spans.{places, time_at, window_of, IsInside};

use crate::span::{Span, span_between};
use std::alloc::Global;
use td_layer::{NoMem, Seq};
use td_limits::LAST_TIMESTAMP;

/// The sessions of rows at timestamps that don't fall: the list of rows, cut between neighbours whose gap is greater
/// than the tolerance, in milliseconds. A session starts at its first timestamp and ends at its last.
pub fn session(alloc: Global, ts: &[u64], tol: u64) -> Result<Seq<Span>, NoMem>
    requires in_order { IsNonDecreasing ts.now }
    requires in_range { All (λ t. t ≤ LAST_TIMESTAMP) ts.now }
    ensures windows { IfOk result (λ spans. map window_of spans
        ≡ session_windows (time_at ts.now) tol (places (length ts.now))) }
    ensures inside { IfOk result (All (IsInside (length ts.now))) }
{
    let mut spans = Vec::new(alloc);
    let mut first = 0;
    'sessions: while first < ts.len() {
        let past = session_end(ts, first, tol);
        spans.push(span_between(ts, first, past - 1))?;
        first = past;
    }
    Ok(Seq::from_vec(alloc, spans))
}

/// The place after the last row of the session that begins at a place.
fn session_end(ts: &[u64], first: usize, tol: u64) -> usize
    requires in_order { IsNonDecreasing ts.now }
    requires inside { first < length ts.now }
    ensures after { first < result }
    ensures inside { result ≤ length ts.now }
    ensures together { (p : ℕ) → first ≤ p → p + 1 < result → slice_index ts.now (p + 1) - slice_index ts.now p ≤ tol }
    ensures apart { result < length ts.now → tol < slice_index ts.now result - slice_index ts.now (result - 1) }
{
    let mut past = first + 1;
    'rows: while past < ts.len() && ts[past] - ts[past - 1] <= tol {
        past += 1;
    }
    past
}
