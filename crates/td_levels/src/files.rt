//! File sets with the files of a commit.
ghost use Rattle.std.specs.Prelude.{◌≡◌, ◌∷◌, [], length, None, IfOk};
ghost use Rattle.td_levels.specs.Ranges.{with_file, with_files, sets_from};
ghost use Rattle.td_levels.specs.Sets.{set_of, sets_of};

use crate::levels::RowLevels;
use std::alloc::Global;
use td_fileset::FileSet;
use td_layer::{NoMem, Seq};

// A file that a commit of a version adds in a day range.
#[derive(Clone, Copy)]
struct NewFile {
    range: u32,
    file: u64,
    version: u64,
}

// The set of a day range that has a new file alone.
fn set_with(alloc: Global, new: NewFile) -> Result<FileSet, NoMem>
    ensures { IfOk result (λ s. set_of s ≡ record { range = new.range; stt = new.file ∷ []; main = None }) }
{
    let mut stt = Seq::new(alloc);
    stt.add((new.file, new.version))?;
    Ok(FileSet {
        range: new.range,
        main: None,
        merged: new.version,
        stt,
    })
}

// A set with a new file, which is the newest there.
fn with_newest(set: FileSet, new: NewFile) -> Result<FileSet, NoMem>
    ensures { IfOk result (λ s. set_of s ≡ record { range = set.range; stt = new.file ∷ (set_of set).stt; main = set.main }) }
{
    let FileSet {
        range,
        main,
        merged,
        stt,
    } = set;
    let mut stt = stt;
    stt.add((new.file, new.version))?;
    Ok(FileSet {
        range,
        main,
        merged,
        stt,
    })
}

// A copy of a set.
fn copied(alloc: Global, set: &FileSet) -> Result<FileSet, NoMem>
    ensures { IfOk result (λ s. s ≡ set.now) }
{
    let mut stt = Seq::new(alloc);
    for file in set.stt.as_slice() {
        stt.add(*file)?;
    }
    Ok(FileSet {
        range: set.range,
        main: set.main,
        merged: set.merged,
        stt,
    })
}

// The sets with a new file in its day range. They stand by day range.
fn add_file(alloc: Global, sets: Vec<FileSet>, new: NewFile) -> Result<Vec<FileSet>, NoMem>
    ensures { IfOk result (λ all. sets_of all.items ≡ with_file new.range new.file (sets_of sets.items)) }
{
    let mut all = Vec::with_capacity(alloc, sets.len() + 1)?;
    let mut waits = true;
    'sets: for set in sets {
        if waits && new.range < set.range {
            all.push(set_with(alloc, new)?)?;
            waits = false;
        }
        if waits && set.range == new.range {
            all.push(with_newest(set, new)?)?;
            waits = false;
        } else {
            all.push(set)?;
        }
    }
    if waits {
        all.push(set_with(alloc, new)?)?;
    }
    Ok(all)
}

// Copies of sets, with room for so many more.
fn copies(alloc: Global, sets: &[FileSet]) -> Result<Vec<FileSet>, NoMem>
    ensures { IfOk result (λ all. all.items ≡ sets.now) }
{
    let mut all = Vec::with_capacity(alloc, sets.len())?;
    for set in sets {
        all.push(copied(alloc, set)?)?;
    }
    Ok(all)
}

// The sets that aren't wholly below an edge.
fn sets_from(alloc: Global, sets: Vec<FileSet>, edge: u32) -> Result<Vec<FileSet>, NoMem>
    ensures { IfOk result (λ all. sets_of all.items ≡ sets_from edge (sets_of sets.items)) }
{
    let mut all = Vec::with_capacity(alloc, sets.len())?;
    'sets: for set in sets {
        if edge <= set.range {
            all.push(set)?;
        }
    }
    Ok(all)
}

impl RowLevels {
    /// The file sets with the new files of a commit of a version, one for each of some day ranges, the newest there; those
    /// wholly below an edge are left out.
    pub fn with_files(
        &self,
        ranges: &[u32],
        files: &[u64],
        version: u64,
        edge: u32,
    ) -> Result<Vec<FileSet>, NoMem>
        requires { length files.now ≡ length ranges.now }
        ensures { IfOk result (λ sets. sets_of sets.items
            ≡ sets_from edge (with_files ranges.now files.now self.now.sets)) }
    {
        let alloc = self.alloc();
        let mut sets = copies(alloc, self.sets())?;
        for i in 0..ranges.len() {
            let new = NewFile {
                range: ranges[i],
                file: files[i],
                version,
            };
            sets = add_file(alloc, sets, new)?;
        }
        sets_from(alloc, sets, edge)
    }
}
