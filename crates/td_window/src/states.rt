//! State windows.
ghost use Rattle.std.specs.Prelude.{◌≡◌, ◌≢◌, ◌⊎◌, ℕ, ◌+◌, ◌-◌, ◌<◌, ◌≤◌, IfOk, All, length, map, not};
ghost use Rattle.td_layer.specs.declared.values.Value.TheVariants as value;
ghost use Rattle.td_window.specs.Windows.{state_windows, isnt_null};
ghost use Rattle.td_window.specs.Spans.{places, time_at, state_at, window_with_states, IsInside};

use crate::span::{Span, span_between};
use std::alloc::Global;
use td_layer::{NoMem, Seq, Value};
use td_limits::LAST_TIMESTAMP;

/// The state windows of rows with these timestamps and states: the rows whose state isn't NULL, cut between neighbours
/// of unequal state. A window starts at the timestamp of its first row and ends at that of its last. The places from
/// the first to the last of these rows are the span's; a row among them whose state is NULL is not of the window.
pub fn state(alloc: Global, ts: &[u64], values: &[Value]) -> Result<Seq<Span>, NoMem>
    requires same_length { length ts.now ≡ length values.now }
    requires in_range { All (λ t. t ≤ LAST_TIMESTAMP) ts.now }
    ensures windows { IfOk result (λ spans. map (window_with_states values.now) spans
        ≡ state_windows (time_at ts.now) (state_at values.now) (places (length ts.now))) }
    ensures inside { IfOk result (All (IsInside (length ts.now))) }
    ensures first { IfOk result (All (λ s. state_at values.now s.first ≢ value.Null)) }
    ensures last { IfOk result (All (λ s. state_at values.now (s.first + s.rows - 1) ≢ value.Null)) }
{
    let mut spans = Vec::new(alloc);
    let mut first = first_state(values);
    'windows: while first < values.len() {
        let run = run_of(values, first);
        spans.push(span_between(ts, first, run.last))?;
        first = run.next;
    }
    Ok(Seq::from_vec(alloc, spans))
}

/// A state window from a place on: the place of its last row, and that at which the next window begins, or the length.
#[derive(Clone, Copy)]
struct Run {
    last: usize,
    next: usize,
}

/// The first place that has a state, or the length.
fn first_state(values: &[Value]) -> usize
    ensures inside { result ≤ length values.now }
    ensures before { (p : ℕ) → p < result → state_at values.now p ≡ value.Null }
    ensures found { result < length values.now → state_at values.now result ≢ value.Null }
{
    let mut place = 0;
    'places: while place < values.len() && is_null(values[place]) {
        place += 1;
    }
    place
}

/// The state window that begins at a place.
fn run_of(values: &[Value], first: usize) -> Run
    requires inside { first < length values.now }
    requires found { state_at values.now first ≢ value.Null }
    ensures last { (first ≤ result.last) × (result.last < result.next) × (result.next ≤ length values.now) }
    ensures same { (p : ℕ) → first ≤ p → p ≤ result.last
        → (state_at values.now p ≡ value.Null) ⊎ (state_at values.now p ≡ state_at values.now first) }
    ensures ends { state_at values.now result.last ≡ state_at values.now first }
    ensures between { (p : ℕ) → result.last < p → p < result.next → state_at values.now p ≡ value.Null }
    ensures next { result.next < length values.now
        → (state_at values.now result.next ≢ value.Null)
        × (state_at values.now result.next ≢ state_at values.now first) }
{
    let mut last = first;
    let mut next = first + 1;
    'places: while next < values.len() {
        let here = values[next];
        if !is_null(here) {
            if here != values[first] {
                break;
            }
            last = next;
        }
        next += 1;
    }
    Run { last, next }
}

fn is_null(value: Value) -> bool
    ensures { result ≡ not (isnt_null value) }
{
    match value {
        Value::Null => true,
        Value::Num(_) => false,
    }
}
