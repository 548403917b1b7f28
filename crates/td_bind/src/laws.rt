//! Laws over histories, which are proved and do nothing.
ghost use Rattle.std.specs.Prelude.{List, ◌∷◌, []};
ghost use Rattle.td_model.specs.declared.history.Entry.{Entry};
ghost use Rattle.td_model.specs.State.{State, after};
ghost use Rattle.td_verdict.specs.Sound.{IsSound};
ghost use Rattle.td_bind.specs.Legal.{IsLegal};

/// A history whose entries are those that writes are accepted as leaves a sound state sound: the catalog is valid, and
/// each row is one of a table that is there, with one value a column, each NULL or in its kind's range, and a timestamp
/// that is in range and not before the retention edge.
pub fn history_stays_sound()
    ensures { (b : State) (h : List Entry) → IsSound b → IsLegal (b ∷ []) h → IsSound (after b h) }
{}
