//! What is true of the windows of an answer besides, said by functions that do nothing.
ghost use Rattle.std.specs.Prelude.{◌≡◌, ℕ, ◌<◌, Bool, false, List};
ghost use Rattle.td_layer.specs.declared.values.Key.{Key};
ghost use Rattle.td_layer.specs.declared.values.Row.{Row};
ghost use Rattle.td_model.specs.declared.catalog.Schema.{Schema};
ghost use Rattle.td_model.specs.declared.language.Query.{Query};
ghost use Rattle.td_model.specs.declared.language.WindowDef.{WindowDef};
ghost use Rattle.td_model.specs.State.{State};
ghost use Rattle.td_window.specs.Spans.{time_of};
ghost use Rattle.td_window.specs.Windows.{AreIntervalWindows};
ghost use Rattle.td_verdict.specs.Answered.{answer};
ghost use Rattle.td_verdict.specs.Plans.{plan_of};
ghost use Rattle.td_verdict.specs.Refusals.{is_bad_window, has_bad_bounds};
ghost use Rattle.td_verdict.specs.Sound.{IsSound};
ghost use Rattle.td_verdict.specs.Windowed.{interval_windows};
ghost use Rattle.td_query.specs.Planned.{plan_answer};

/// The interval windows of a group are all those that hold a row of it, by their starts, whatever the order of the
/// rows.
pub fn interval_windows_are_all()
    ensures { (len offset slide : ℕ) (rows : List (Key × Row)) → 0 < slide
        → AreIntervalWindows time_of len offset slide rows (interval_windows len offset slide rows) }
{}

/// What a plan answers over the rows of a sound state is what its query answers there: the tables and the timestamps
/// that the plan leaves out have no row that is picked.
pub fn plans_answer_their_queries()
    ensures { (q : Query) (s : State) → IsSound s → plan_answer (plan_of q s.catalog) s.rows ≡ answer q s }
{}

/// A window clause that isn't refused has durations in their bounds, so that windows can be cut.
pub fn windows_that_pass_are_in_bounds()
    ensures { (of_table : Bool) (s : Schema) (q : Query) (w : WindowDef) → is_bad_window of_table s q w ≡ false
        → has_bad_bounds w ≡ false }
{}
