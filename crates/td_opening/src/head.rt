//! The head of a store, as opening reads it.
ghost use Rattle.std.specs.Prelude.{◌≡◌, ◌++◌, ℕ, map, true, not, position, IfOk, IfErr, OnOk, IfSome};
ghost use Rattle.td_manifest.specs.Files.{main_file, files_of, all_files};
ghost use Rattle.td_manifest.specs.Heads.{head_body};
ghost use Rattle.td_outside.specs.Files.{lists};
ghost use Rattle.td_levels.specs.Sets.{set_of, sets_of};
ghost use Rattle.td_stands.specs.Heads.{HeadIs, empty_head, set_files};
ghost use Rattle.td_opening.specs.Opening.{BreaksBy, CountIs, HasAll, HeadLacks};

use crate::causes::OpenCause;
use crate::numbers::Numbers;
use std::alloc::Global;
use td_fileset::FileSet;
use td_layer::{NoMem, Seq};
use td_manifest::{Head, HeadFault, HeadSet, decode, place_of_file, place_of_stream};
use td_outside::Store;
use td_stands::FileId;

// The head of a store without one.
fn empty_head(alloc: Global) -> Head
    ensures { result ≡ empty_head }
{
    Head {
        version: 0,
        moment: 0,
        first_log: 1,
        edge: 0,
        stables: Seq::new(alloc),
        tables: Seq::new(alloc),
        sets: Seq::new(alloc),
        next_stream: 1,
        streams: Seq::new(alloc),
    }
}

// The head of a store.
pub(crate) fn read_head<S: Store>(alloc: Global, store: &mut S) -> Result<Head, OpenCause>
    ensures told { S.told store.new ≡ S.told store.old }
    ensures head { IfOk result (λ head. IfSome (S.told store.old) (λ image. HeadIs image.head head)) }
    ensures fits { IfOk result (λ head. head_body.fits head ≡ true) }
    ensures strange { IfErr result (λ cause. IfSome (S.told store.old) (BreaksBy cause)) }
    ensures count { CountIs result (S.count store.old) (S.count store.new) }
{
    match store.head_read(alloc)? {
        None => Ok(empty_head(alloc)),
        Some(bytes) => match decode(alloc, bytes.as_slice()) {
            Ok(head) => Ok(head),
            Err(HeadFault::NotThis(at)) => Err(OpenCause::NotThisStore {
                file: FileId::Head,
                at,
            }),
            Err(HeadFault::NoMemory) => Err(OpenCause::NoMemory),
        },
    }
}

// Adds the number of a data file, where there is one.
fn add_main(files: &mut Seq<u64>, main: Option<u64>) -> Result<(), NoMem>
    ensures { OnOk result (files.new ≡ files.old ++ main_file main) }
{
    if let Some(main) = main {
        files.add(main)?;
    }
    Ok(())
}

// Adds the numbers of stt files.
fn add_all(files: &mut Seq<u64>, stt: &[u64]) -> Result<(), NoMem>
    ensures { OnOk result (files.new ≡ files.old ++ stt.now) }
{
    for file in stt {
        files.add(*file)?;
    }
    Ok(())
}

// Adds the numbers of the files of a set: the data file, where there is one, then the stt files.
#[tactic(auto, using(std::proofs::lemmas::List::append_assoc))]
fn add_files(files: &mut Seq<u64>, set: &HeadSet) -> Result<(), NoMem>
    ensures { OnOk result (files.new ≡ files.old ++ files_of set.now) }
{
    add_main(files, set.main)?;
    add_all(files, set.stt.as_slice())?;
    Ok(())
}

// The numbers of the files that a head names, in the order of its bytes.
pub(crate) fn files_of(alloc: Global, head: &Head) -> Result<Seq<u64>, NoMem>
    ensures { IfOk result (λ files. files ≡ all_files head.now.sets) }
{
    let mut files = Seq::new(alloc);
    for set in head.sets.as_slice() {
        add_files(&mut files, set)?;
    }
    Ok(files)
}

// The place of the first file that isn't in a set.
fn first_missing(numbers: &Numbers, files: &[u64]) -> Option<usize>
    ensures { result ≡ position (λ n. not (lists n numbers.now)) files.now }
{
    files.iter().position(|n| !numbers.has(*n))
}

// Whether a head names finished files alone, and no stream.
pub(crate) fn check_head(
    alloc: Global,
    head: &Head,
    named: &[u64],
    names: &[u64],
) -> Result<(), OpenCause>
    requires fits { head_body.fits head.now ≡ true }
    requires named { named.now ≡ all_files head.now.sets }
    ensures ok { OnOk result (HasAll head.now names.now) }
    ensures err { IfErr result (HeadLacks head.now names.now) }
{
    let numbers = Numbers::of(alloc, names)?;
    let file = FileId::Head;
    match first_missing(&numbers, named) {
        Some(index) => {
            let at = place_of_file(alloc, head, index)?;
            Err(OpenCause::NotThisStore { file, at })
        }
        None => {
            if head.streams.is_empty() {
                return Ok(());
            }
            let at = place_of_stream(alloc, head)?;
            Err(OpenCause::NotThisStore { file, at })
        }
    }
}

// A set of a head of a version, as the core keeps it.
fn file_set(alloc: Global, version: u64, set: &HeadSet) -> Result<FileSet, NoMem>
    ensures { IfOk result (λ s. set_of s ≡ set_files set.now) }
{
    let mut stt = Seq::new(alloc);
    for file in set.stt.as_slice() {
        stt.add((*file, version))?;
    }
    Ok(FileSet {
        range: set.range,
        main: set.main,
        merged: version,
        stt,
    })
}

// The file sets of a head.
pub(crate) fn file_sets(alloc: Global, head: &Head) -> Result<Vec<FileSet>, NoMem>
    ensures { IfOk result (λ sets. sets_of sets.items ≡ map set_files head.now.sets) }
{
    let mut sets = Vec::new(alloc);
    for set in head.sets.as_slice() {
        sets.push(file_set(alloc, head.version, set)?)?;
    }
    Ok(sets)
}
