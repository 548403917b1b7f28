//! What is proved of the definitions alone.
ghost use Rattle.td_levels.specs.Laws.{EntriesAreTaken, EntriesFit, FreezesKeepRows, CommitsKeepRows, PlansReadRows};

/// Levels that hold the rows of a state hold those of the state after an entry, once the entry's puts and cuts are in
/// the active memtable; and they fit its catalog.
pub fn entries_are_taken()
    ensures rows { EntriesAreTaken }
    ensures fit { EntriesFit }
{}

/// A freeze leaves the rows as they are.
pub fn freezes_keep_rows()
    ensures { FreezesKeepRows }
{}

/// A frozen memtable that has gone into files, one for each day range that gets one, leaves the rows as they are.
pub fn commits_keep_rows()
    ensures { CommitsKeepRows }
{}

/// A plan reads the rows of its tables in its range of timestamps, though it reads no file of another day range.
pub fn plans_read_rows()
    ensures { PlansReadRows }
{}
