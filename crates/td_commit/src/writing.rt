//! Writing the files of a memtable.
ghost use Rattle.std.specs.Prelude.{◌≡◌, [], length, map, IfSome, OnOk};
ghost use Rattle.std.specs.List.{AllByRecursion};
ghost use Rattle.td_outside.specs.Causes.{HasFault};
ghost use Rattle.td_commit.specs.Sound.{IsSound};
ghost use Rattle.td_commit.specs.Files.{IsFileOf, AreFilesOf, HasFaults};

use crate::frozen::Frozen;
use crate::tables::tables_in;
use std::alloc::Global;
use td_outside::{IoFault, Writer};
use td_sttfile::write_file;

// Writes the file of a day range.
fn write_range<W: Writer>(
    alloc: Global,
    frozen: &Frozen,
    range: u32,
    file: &mut W,
) -> Result<(), IoFault>
    requires sound { IsSound frozen.now }
    requires empty { IfSome (W.written file.old) (λ bytes. bytes ≡ []) }
    ensures ok { OnOk result (IsFileOf frozen.now range (W.written file.old) (W.written file.new)) }
    ensures name { W.name file.new ≡ W.name file.old }
    ensures cause { HasFault (W.count file.old) (W.count file.new) result }
{
    let list = tables_in(alloc, frozen, range)?;
    let _ = frozen.memtable.held();
    write_file(alloc, file, range, list)?;
    Ok(())
}

/// Writes a file for each day range of a frozen memtable, in their order, to as many writers, which have nothing yet:
/// the tables with a put or a cut there, with their puts there and their cuts as far as they lie there. The writers are
/// lent as a slice, since one can't be moved out of a list and back without memory. `Failed` comes only where the count
/// of faults of a writer rose, and want of memory raises none. After a fault some files may be written and one in part;
/// the writers are still those of the same files.
pub fn write_files<W: Writer>(
    alloc: Global,
    frozen: &Frozen,
    files: &mut [W],
) -> Result<(), IoFault>
    requires sound { IsSound frozen.now }
    requires writers { length files.old ≡ length frozen.now.ranges }
    requires empty { AllByRecursion (λ file. IfSome (W.written file) (λ bytes. bytes ≡ [])) files.old }
    ensures ok { OnOk result (AreFilesOf frozen.now frozen.now.ranges (map W.written files.old)
        (map W.written files.new)) }
    ensures names { map W.name files.new ≡ map W.name files.old }
    ensures cause { HasFaults (map W.count files.old) (map W.count files.new) result }
{
    let ranges = frozen.ranges.as_slice();
    for i in 0..files.len() {
        let file = &mut files[i];
        write_range(alloc, frozen, ranges[i], file)?;
    }
    Ok(())
}
