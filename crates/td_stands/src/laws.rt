//! Laws of stores.
ghost use Rattle.td_stands.specs.Laws.{EmptyStoreStands, OneState, OnePlace, StandsOrBreaks, RowsHaveNoPart, ReplaysAreOne, ReplaysFollow};

/// A store with neither a head nor logs stands for the empty state.
pub fn an_empty_store_stands()
    ensures { EmptyStoreStands }
{}

/// An image stands for one state at most.
pub fn one_state()
    ensures { OneState }
{}

/// An image that stands for a state breaks nowhere.
pub fn stands_or_breaks()
    ensures { StandsOrBreaks }
{}

/// An image breaks first at one place at most.
pub fn one_place()
    ensures { OnePlace }
{}

/// The items of logs make one state and one memtable, in one go or in two; and what they make but for rows hangs on no
/// row.
pub fn replays_are_one()
    ensures one { ReplaysAreOne }
    ensures follow { ReplaysFollow }
    ensures rows { RowsHaveNoPart }
{}
