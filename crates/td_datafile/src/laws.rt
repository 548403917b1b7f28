//! Laws: a file that was written gives what was put into it.
ghost use Rattle.std.specs.Prelude.{◌≡◌, ℕ, ◌+◌, ◌^◌, ◌<◌, List, length, None, Ok};
ghost use Rattle.std.specs.List.{flat_map, AllByRecursion};
ghost use Rattle.td_fileio.specs.declared.lists.TableRows.{TableRows};
ghost use Rattle.td_fileio.specs.Lists.{all_blocks};
ghost use Rattle.td_datafile.specs.Index.{bytes_of_block, index_of};
ghost use Rattle.td_datafile.specs.Written.{blocks_begin, bytes_of_list, CanWrite};
ghost use Rattle.td_datafile.specs.Opening.{opening_at};
ghost use Rattle.td_datafile.specs.Scanned.{Want, scanned};
ghost use Rattle.td_datafile.specs.Contents.{partials_of, IsWantedTable};
ghost use Rattle.td_aggr.specs.Tallies.{tally_of};
ghost use Rattle.td_datafile.specs.Folding.{column_of, folded};

/// A scan of a file that was written gives just the rows of its table in its range of timestamps, by key, and finds no
/// fault: where the kinds that it is given are those of the table. The file's index is that of its blocks. The numbers
/// of tables, and the births, are of the program's types.
pub fn what_was_written_is_scanned()
    ensures partials { (want : Want) (range : ℕ) (tables : List TableRows) → range < 2 ^ 32 → CanWrite range tables
        → AllByRecursion (IsWantedTable want) tables
        → scanned want (bytes_of_list range tables) ≡ record { partials = partials_of want tables; fault = None } }
    ensures index { (want : Want) (range : ℕ) (tables : List TableRows) → range < 2 ^ 32 → CanWrite range tables
        → AllByRecursion (IsWantedTable want) tables
        → opening_at (bytes_of_list range tables) ≡ Ok (record {
          range = range;
          index = blocks_begin + length (flat_map bytes_of_block (all_blocks tables));
          entries = index_of blocks_begin (all_blocks tables);
        }) }
{}

/// A fold of a file that was written gives the tally of the column over just the rows of its table in its range of
/// timestamps, and finds no fault: where the kinds that it is given are those of the table, and the column is one of
/// them. The numbers of tables, and the births, are of the program's types.
pub fn what_was_written_is_folded()
    ensures { (want : Want) (column range : ℕ) (tables : List TableRows) → range < 2 ^ 32 → column < length want.kinds
        → CanWrite range tables → AllByRecursion (IsWantedTable want) tables
        → folded want column (bytes_of_list range tables) ≡ Ok (tally_of (column_of column (partials_of want tables))) }
{}
