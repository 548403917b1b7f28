//! The next head of a store.
ghost use Rattle.std.specs.Prelude.{◌≡◌, ◌<◌, ◌≤◌, ◌^◌, ◌++◌, ◌∷◌, [], map, length, true, not, IfOk};
ghost use Rattle.td_codec.specs.Lists.{all_fit};
ghost use Rattle.td_manifest.specs.Files.{is_used, all_files, files_of, main_file, rises, set_items, stt_items};
ghost use Rattle.td_manifest.specs.Heads.{IsHead, head_body};
ghost use Rattle.td_outside.specs.Causes.{Rose};
ghost use Rattle.td_outside.specs.Files.{SwapFails};
ghost use Rattle.td_outside.specs.Image.{Along, Becomes};
ghost use Rattle.td_making.specs.declared.heading.Swapped.TheVariants as swaps;
ghost use Rattle.td_making.specs.Making.{with_sets, head_set, MainFits, IsNextHead, after_swaps, after_failed_drop};

use indexmap::IndexSet;
use std::alloc::Global;
use td_commit::Frozen;
use td_fileset::FileSet;
use td_layer::{NoMem, Seq};
use td_levels::RowLevels;
use td_limits::LAST_DAY_RANGE;
use td_manifest::{Head, HeadSet, encode};
use td_outside::{IoFault, Store};

/// The file sets of the next head, and its bytes.
#[derive(Drop)]
pub struct NextHead {
    pub sets: Vec<FileSet>,
    pub bytes: Seq<u8>,
}

/// What became of a swap of the head: it is swapped, and the log before its first one is gone; that log wasn't dropped;
/// the head wasn't swapped; there was no memory.
#[derive(Clone, Copy)]
pub enum Swapped {
    Done,
    NotDropped,
    NotSwapped,
    NoMemory,
}

// The numbers of the stt files of a set, the oldest first.
fn stt_of(alloc: Global, set: &FileSet) -> Result<Seq<u64>, NoMem>
    ensures { IfOk result (λ stt. stt ≡ map (λ p. p.0) set.now.stt) }
{
    let mut stt = Seq::new(alloc);
    for file in set.stt.as_slice() {
        stt.add(file.0)?;
    }
    Ok(stt)
}

// File sets as a head has them.
fn head_sets(alloc: Global, sets: &[FileSet]) -> Result<Seq<HeadSet>, NoMem>
    ensures { IfOk result (λ all. all ≡ map head_set sets.now) }
{
    let mut all = Seq::new(alloc);
    for set in sets {
        let stt = stt_of(alloc, set)?;
        all.add(HeadSet {
            range: set.range,
            main: set.main,
            stt,
        })?;
    }
    Ok(all)
}

// Adds a file, and says whether it is new.
fn add_file(files: &mut IndexSet<u64>, file: u64) -> Result<bool, NoMem>
    ensures new { IfOk result (λ new. new ≡ not (is_used file files.old.keys)) }
    ensures added { IfOk result (λ new. new ≡ true → files.new.keys ≡ files.old.keys ++ file ∷ []) }
{
    let new = files.insert(file)?;
    Ok(new)
}

// Adds stt files, and says whether each is new.
fn add_stt(files: &mut IndexSet<u64>, stt: &[u64]) -> Result<bool, NoMem>
    ensures fit { IfOk result (λ new. new ≡ true → all_fit (stt_items files.old.keys) [] stt.now ≡ true) }
    ensures added { IfOk result (λ new. new ≡ true → files.new.keys ≡ files.old.keys ++ stt.now) }
{
    for file in stt {
        if !add_file(files, *file)? {
            return Ok(false);
        }
    }
    Ok(true)
}

// Adds a data file, where there is one, and says whether it is new.
fn add_main(files: &mut IndexSet<u64>, main: Option<u64>) -> Result<bool, NoMem>
    ensures fit { IfOk result (λ new. new ≡ true → MainFits main files.old.keys) }
    ensures added { IfOk result (λ new. new ≡ true → files.new.keys ≡ files.old.keys ++ main_file main) }
{
    match main {
        None => Ok(true),
        Some(file) if file == u64::MAX => Ok(false),
        Some(file) => Ok(add_file(files, file)?),
    }
}

// Whether a day range comes after those of these sets.
fn rises(before: &[HeadSet], range: u32) -> bool
    ensures { result ≡ rises before.now range }
{
    match before.last() {
        None => true,
        Some(last) => last.range < range,
    }
}

// Adds the files of a set, and says whether a head can have it behind others, whose files those so far are.
fn add_set(files: &mut IndexSet<u64>, before: &[HeadSet], set: &HeadSet) -> Result<bool, NoMem>
    requires files { files.old.keys ≡ all_files before.now }
    ensures fits { IfOk result (λ fits. fits ≡ true → set_items.fits before.now set.now ≡ true) }
    ensures added { IfOk result (λ fits. fits ≡ true → files.new.keys ≡ files.old.keys ++ files_of set.now) }
{
    let is_next = rises(before, set.range) && set.range <= LAST_DAY_RANGE;
    if !is_next || u32::MAX as usize <= set.stt.len() {
        return Ok(false);
    }
    if !add_main(files, set.main)? {
        return Ok(false);
    }
    Ok(add_stt(files, set.stt.as_slice())?)
}

// Whether a head can have these file sets.
fn sets_fit(alloc: Global, sets: &[HeadSet]) -> Result<bool, NoMem>
    ensures count { IfOk result (λ fit. fit ≡ true → length sets.now < 2 ^ 32) }
    ensures fit { IfOk result (λ fit. fit ≡ true → all_fit set_items [] sets.now ≡ true) }
{
    if u32::MAX as usize <= sets.len() {
        return Ok(false);
    }
    let mut files = IndexSet::new(alloc);
    for i in 0..sets.len() {
        if !add_set(&mut files, &sets[..i], &sets[i])? {
            return Ok(false);
        }
    }
    Ok(true)
}

// The bytes of a head with file sets. The head stays as it is.
fn bytes_with(alloc: Global, head: &mut Head, sets: Seq<HeadSet>) -> Result<Seq<u8>, NoMem>
    requires none { head.old.sets ≡ [] }
    requires fits { head_body.fits (with_sets sets head.old) ≡ true }
    ensures kept { head.new ≡ head.old }
    ensures ok { IfOk result (λ bytes. IsHead bytes (with_sets sets head.old)) }
{
    head.sets = sets;
    let bytes = encode(alloc, head);
    head.sets = Seq::new(alloc);
    bytes
}

/// The file sets with the new files of a frozen memtable, by day range, and the bytes of the head that names them. Each
/// file that it names is one of the levels or a new one. Where its fields have no room for them, there are none. The
/// head stays as it is.
pub fn next_head(
    alloc: Global,
    levels: &RowLevels,
    head: &mut Head,
    frozen: &Frozen,
    numbers: &[u64],
) -> Result<NextHead, NoMem>
    requires numbers { length numbers.now ≡ length frozen.now.ranges }
    requires none { head.old.sets ≡ [] }
    requires fits { head_body.fits head.old ≡ true }
    requires version { 0 < head.old.version }
    ensures kept { head.new ≡ head.old }
    ensures ok { IfOk result (λ next. IsNextHead levels.now head.old frozen.now.ranges numbers.now next.sets.items
        next.bytes) }
{
    let sets = levels.with_files(frozen.ranges.as_slice(), numbers, frozen.version, head.edge)?;
    let named = head_sets(alloc, sets.as_slice())?;
    if !sets_fit(alloc, named.as_slice())? {
        return Err(NoMem);
    }
    let bytes = bytes_with(alloc, head, named)?;
    Ok(NextHead { sets, bytes })
}

/// Swaps the head, and then drops a log, that before the head's first one. Where the head can't be swapped, or there is
/// no memory, the log stays.
pub fn swap<S: Store>(alloc: Global, store: &mut S, bytes: &[u8], older: u64) -> Swapped
    ensures done { result ≡ swaps.Done
        → Becomes (after_swaps bytes.now older) (S.told store.old) (S.told store.new) }
    ensures not_dropped { result ≡ swaps.NotDropped
        → Becomes (after_failed_drop bytes.now older) (S.told store.old) (S.told store.new) }
    ensures not_swapped { result ≡ swaps.NotSwapped
        → Along (SwapFails bytes.now) (S.told store.old) (S.told store.new) }
    ensures no_memory { result ≡ swaps.NoMemory → store.new ≡ store.old }
    ensures later { S.count store.old ≤ S.count store.new }
    ensures kept { result ≡ swaps.Done → S.count store.new ≡ S.count store.old }
    ensures log_cause { result ≡ swaps.NotDropped → Rose (S.count store.old) (S.count store.new) }
    ensures head_cause { result ≡ swaps.NotSwapped → Rose (S.count store.old) (S.count store.new) }
{
    match store.head_swap(alloc, bytes) {
        Ok(()) => match store.log_drop(older) {
            Ok(()) => Swapped::Done,
            Err(_) => Swapped::NotDropped,
        },
        Err(IoFault::Failed) => Swapped::NotSwapped,
        Err(IoFault::NoMemory) => Swapped::NoMemory,
    }
}
