//! What is true of regions and windows besides, said by functions that do nothing.
ghost use Rattle.std.specs.Prelude.{ℕ, ◌<◌, ◌≤◌, List};
ghost use Rattle.td_layer.specs.declared.values.Key.{Key};
ghost use Rattle.td_layer.specs.declared.values.Row.{Row};
ghost use Rattle.td_layer.specs.declared.values.Value.{Value};
ghost use Rattle.td_window.specs.Spans.{time_of};
ghost use Rattle.td_trigger.specs.declared.range.Range.{Range};
ghost use Rattle.td_trigger.specs.Regions.{BeginsAtFirstWindow, EndsWithLastWindow};
ghost use Rattle.td_trigger.specs.Splices.{IntervalsSplice, SessionsSplice, StatesSplice};

/// Where no row outside the touched ranges has changed, the interval windows after the change are those before it that
/// aren't wholly inside a region, and those of the rows in each region that are wholly inside it.
pub fn interval_windows_splice()
    ensures { (len offset slide : ℕ) → 0 < slide → 0 < len → IntervalsSplice time_of len offset slide }
{}

/// The same of sessions, over rows whose timestamps don't fall.
pub fn sessions_splice()
    ensures { (column : List ℕ) (tolerance : ℕ) → SessionsSplice time_of column tolerance }
{}

/// The same of state windows, over rows whose timestamps rise and lie in the time range.
pub fn state_windows_splice()
    ensures { (state : Key × Row → Value) (column : List ℕ) → StatesSplice time_of state column }
{}

/// A touched range of intervals is widened to where the first window that reaches into it starts, or to 0, and to where
/// the last window that does so ends.
pub fn intervals_meet_their_windows()
    ensures first { (len offset slide : ℕ) (r : Range) → 0 < slide → BeginsAtFirstWindow len offset slide r }
    ensures last { (len offset slide : ℕ) (r : Range) → 0 < slide → slide ≤ len
        → EndsWithLastWindow len offset slide r }
{}
