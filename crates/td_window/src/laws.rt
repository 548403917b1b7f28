//! What is true of windows and spans besides, said by functions that do nothing.
ghost use Rattle.std.specs.Prelude.{◌≡◌, ℕ, List, map, length, All};
ghost use Rattle.td_layer.specs.declared.values.Key.{Key};
ghost use Rattle.td_layer.specs.declared.values.Row.{Row};
ghost use Rattle.td_layer.specs.declared.values.Value.{Value};
ghost use Rattle.td_window.specs.Windows.{Window, AreIntervalWindows, session_windows, state_windows};
ghost use Rattle.td_window.specs.declared.span.Span.{Span};
ghost use Rattle.td_window.specs.Spans.{places, time_at, state_at, window_of, window_with_states, window_over, window_over_states, IsInside, time_of};

/// Two lists of the interval windows of the same rows are equal.
pub fn interval_windows_are_determined()
    ensures { (len offset slide : ℕ) (rows : List (Key × Row)) (ws vs : List (Window (Key × Row)))
        → AreIntervalWindows time_of len offset slide rows ws
        → AreIntervalWindows time_of len offset slide rows vs → ws ≡ vs }
{}

/// Where spans stand for the windows of the timestamps of rows, what is cut from the rows at the spans' places are the
/// windows of the rows themselves: so spans group rows as the definitions do.
pub fn spans_group_rows()
    ensures intervals { (len offset slide : ℕ) (rows : List (Key × Row)) (spans : List Span)
        → All (IsInside (length rows)) spans → AreIntervalWindows (time_at (map time_of rows)) len offset slide
        (places (length rows)) (map window_of spans)
        → AreIntervalWindows time_of len offset slide rows (map (window_over rows) spans) }
    ensures sessions { (tolerance : ℕ) (rows : List (Key × Row)) (spans : List Span)
        → All (IsInside (length rows)) spans → map window_of spans
        ≡ session_windows (time_at (map time_of rows)) tolerance (places (length rows))
        → map (window_over rows) spans ≡ session_windows time_of tolerance rows }
    ensures states { (state : Key × Row → Value) (rows : List (Key × Row)) (spans : List Span)
        → All (IsInside (length rows)) spans → map (window_with_states (map state rows)) spans
        ≡ state_windows (time_at (map time_of rows)) (state_at (map state rows)) (places (length rows))
        → map (window_over_states state rows) spans ≡ state_windows time_of state rows }
{}
