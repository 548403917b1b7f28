//! Laws: a file that was written gives what was put into it, and scans of a range are part of those of a wider one.
ghost use Rattle.std.specs.Prelude.{◌≡◌, ℕ, ◌^◌, ◌<◌, List, map, None};
ghost use Rattle.std.specs.List.{AllByRecursion};
ghost use Rattle.td_fileio.specs.declared.lists.TableRows.{TableRows};
ghost use Rattle.td_sttfile.specs.Written.{all_cuts, bytes_of_list, CanWrite};
ghost use Rattle.td_sttfile.specs.Opening.{as_cut};
ghost use Rattle.td_sttfile.specs.Scanned.{Want, scanned, cuts_of_file};
ghost use Rattle.td_sttfile.specs.Ranges.{IsPartOfTheWhole, IsAmongTheFaults};
ghost use Rattle.td_sttfile.specs.Contents.{partials_of, IsWantedTable};

/// A scan of a file that was written gives just the rows of its table in its range of timestamps, by key, and the
/// file's cuts, and finds no fault: where the kinds that it is given are those of the table. The numbers of tables, and
/// the births, are of the program's types.
pub fn what_was_written_is_scanned()
    ensures partials { (want : Want) (range : ℕ) (tables : List TableRows) → range < 2 ^ 32 → CanWrite range tables
        → AllByRecursion (IsWantedTable want) tables
        → scanned want (bytes_of_list range tables) ≡ record { partials = partials_of want tables; fault = None } }
    ensures cuts { (range : ℕ) (tables : List TableRows) → range < 2 ^ 32 → CanWrite range tables
        → cuts_of_file (bytes_of_list range tables) ≡ map as_cut (all_cuts tables) }
{}

/// A scan of a range of timestamps gives those partials of a scan of a wider range that lie in it, and finds no fault,
/// where that finds none. What a scan of any range finds damaged is among the table's faults.
pub fn scans_of_a_file()
    ensures part { IsPartOfTheWhole }
    ensures faults { IsAmongTheFaults }
{}
