//! Laws: the files give the parts of the memtable in its day ranges, each those in its own, and are spelt in one way.
ghost use Rattle.std.specs.Prelude.{◌≡◌, ℕ, ◌^◌, ◌<◌, List, map, Option, Some};
ghost use Rattle.td_memtable.specs.Contents.{IsSound as IsMemtable};
ghost use Rattle.td_fileio.specs.declared.lists.TableRows.{TableRows};
ghost use Rattle.td_sttfile.specs.Written.{bytes_of_list};
ghost use Rattle.td_commit.specs.declared.frozen.Frozen.{Frozen};
ghost use Rattle.td_commit.specs.Sound.{IsSound};
ghost use Rattle.td_commit.specs.Clipped.{AreTablesFrom};
ghost use Rattle.td_commit.specs.Files.{AreFilesOf};
ghost use Rattle.td_commit.specs.Given.{GivesPartsOf, GiveParts, HasBirths};

/// The file of a day range gives the parts of the memtable there. A scan of a table of it finds no fault, and gives
/// just the puts of the table that lie both in the range that is wanted and in the day range. A key is cut by the file
/// exactly where it lies in the day range and is cut by the memtable.
pub fn a_file_gives_the_parts_of_its_range()
    ensures { (f : Frozen) (range : ℕ) (tables : List TableRows) → IsSound f → IsMemtable f.memtable → HasBirths f
        → range < 2 ^ 32 → AreTablesFrom f range 1 tables → GivesPartsOf f range (bytes_of_list range tables) }
{}

/// The files of all day ranges give together the parts of the memtable there: the part of a key that they compose to is
/// that of the memtable where the key lies in one of the day ranges, and none elsewhere.
pub fn the_files_give_the_parts_of_their_ranges()
    ensures { (f : Frozen) (befores : List (Option (List ℕ))) (files : List (List ℕ)) → IsSound f
        → IsMemtable f.memtable → HasBirths f
        → AreFilesOf f f.ranges befores (map (λ (bytes : List ℕ). Some bytes) files) → GiveParts f files }
{}

/// The tables of a memtable in a day range are one list, so that a file has one spelling.
pub fn the_tables_are_one_list()
    ensures { (f : Frozen) (range : ℕ) (tables others : List TableRows) → AreTablesFrom f range 1 tables
        → AreTablesFrom f range 1 others → tables ≡ others }
{}
