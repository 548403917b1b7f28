//! Laws: what scans of a file have to do with one another.
ghost use Rattle.td_datafile.specs.Ranges.{IsPartOfTheWhole, IsAmongTheFaults};

/// A scan of a range of timestamps gives those partials of a scan of a wider range that lie in it, where that finds no
/// fault. Whatever its range, the first fault that a scan finds is among the places that are told for its table.
pub fn scans_of_a_file()
    ensures part { IsPartOfTheWhole }
    ensures faults { IsAmongTheFaults }
{}
