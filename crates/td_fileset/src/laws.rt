//! What is proved of the definitions alone.
ghost use Rattle.td_fileset.specs.Stack.{AreInOrder, AreFound, AreDetermined};
ghost use Rattle.td_fileset.specs.Ranges.{NarrowAlike, MakeAlike};

/// The rows under layers are in the order of their keys, and the row that is found of a key is the one that the layers
/// compose to. That determines them: rows in the order of their keys, of which each key finds the same, are the same.
pub fn rows_of_layers()
    ensures in_order { AreInOrder }
    ensures found { AreFound }
    ensures determined { AreDetermined }
{}

/// The rows of some keys need only the partials of these keys, with all cuts; and where two lists of layers make the
/// same row of each of these keys, they make the same rows of them.
pub fn rows_of_some_keys()
    ensures narrow { NarrowAlike }
    ensures alike { MakeAlike }
{}
