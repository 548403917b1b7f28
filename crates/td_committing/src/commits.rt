//! Commits.
ghost use Rattle.std.specs.Prelude.{◌≡◌, ◌≤◌, ◌++◌, ℕ, [], map, sum, length, All, List, Option, None, IfOk, IfErr};
ghost use Rattle.std.specs.Option.{option_map};
ghost use Rattle.td_model.specs.declared.history.Entry.{Entry as AnEntry};
ghost use Rattle.td_model.specs.State.{State};
ghost use Rattle.td_outside.specs.Causes.{raised};
ghost use Rattle.td_engine.specs.CoreState.{seen};
ghost use Rattle.td_engine.specs.Covers.{FactsAre, RowsAre, HeldIs, PinsAre, JournalIs, ImageIs, FloorIs, ClockIs};
ghost use Rattle.td_engine.specs.Installs.{HaveFiles};
ghost use Rattle.td_committing.specs.Commit.{CommitEnds, AllEnds, added, CarriesOver, IsReady, GivesUp, ComesTo, leaves_more};

use std::alloc::Global;
use td_commit::{Frozen, write_files};
use td_engine::{Core, Freeze, Install};
use td_layer::Seq;
use td_outside::{Clock, IoFault, Store};

/// How a commit ended.
#[derive(Clone, Copy, Debug, PartialEq, Eq)]
pub enum CommitEnd {
    /// What was entered up to this version stands in files.
    Committed { version: u64 },
    /// Nothing is frozen, and there is no entry above the head's version.
    Nothing,
    /// The history had a halt at this version.
    Stopped { version: u64 },
    /// The store failed as a file was made. The entries are in the log as before.
    StoreFault,
    /// The head couldn't be swapped, or the older log couldn't be dropped: a halt was added, at this version.
    Halted { version: u64 },
    /// There was no memory. The entries are in the log as before.
    NoMemory,
}

// The items of a list as a vector, in their order: a list can't be lent to be written to. Where there is no memory they
// come back.
fn vec_of<T>(alloc: Global, items: Seq<T>) -> Result<Vec<T>, Seq<T>>
    ensures ok { IfOk result (λ all. all.items ≡ items) }
    ensures back { IfErr result (λ back. back ≡ items) }
{
    let mut all = match Vec::with_capacity(alloc, items.len()) {
        Ok(all) => all,
        Err(_) => return Err(items),
    };
    let mut items = items;
    while let Some(item) = items.pop() {
        all.push(item).unwrap();
    }
    items.done();
    all.reverse();
    Ok(all)
}

// Gives unfinished files up, and takes the frozen memtable that is out back.
fn give_up<S: Store, C: Clock>(core: &mut Core<S, C>, frozen: Frozen, files: Seq<S::Writer>)
    requires { IsReady (seen S.told S.count C.readings core.old) frozen }
    ensures { GivesUp (seen S.told S.count C.readings core.old) (seen S.told S.count C.readings core.new)
        (sum (map S.Writer.count files)) }
{
    core.abandon_files(files);
    core.thaw(frozen);
}

// Puts the files of the frozen memtable that is out in its place.
fn put_in_place<S: Store, C: Clock>(
    core: &mut Core<S, C>,
    frozen: Frozen,
    files: Seq<S::Writer>,
) -> CommitEnd
    requires ready { IsReady (seen S.told S.count C.readings core.old) frozen }
    requires files { HaveFiles (S.told core.old.store) frozen (map S.Writer.written files) }
    ensures { ComesTo (seen S.told S.count C.readings core.old)
        (seen S.told S.count C.readings core.new) frozen result }
{
    match core.install(frozen, files) {
        Install::Installed { version } => CommitEnd::Committed { version },
        Install::Strange { number: _ } => unreachable!(),
        Install::StoreFault => CommitEnd::StoreFault,
        Install::Halted { version } => CommitEnd::Halted { version },
        Install::NoMemory => CommitEnd::NoMemory,
    }
}

// Writes the files of the frozen memtable that is out, which have nothing yet, and puts them in its place. Where one
// can't be written, all are given up.
fn write_to<S: Store, C: Clock>(
    alloc: Global,
    core: &mut Core<S, C>,
    frozen: Frozen,
    files: Vec<S::Writer>,
) -> CommitEnd
    requires ready { IsReady (seen S.told S.count C.readings core.old) frozen }
    requires count { length files.items ≡ length frozen.ranges }
    requires empty { All (λ w. S.Writer.written w ≡ option_map (λ _. []) (S.told core.old.store)) files.items }
    ensures { ComesTo (seen S.told S.count C.readings core.old)
        (seen S.told S.count C.readings core.new) frozen result }
{
    let mut files = files;
    let written = write_files(alloc, &frozen, files.as_mut_slice());
    let files = Seq::from_vec(alloc, files);
    match written {
        Ok(()) => put_in_place(core, frozen, files),
        Err(IoFault::Failed) => {
            give_up(core, frozen, files);
            CommitEnd::StoreFault
        }
        Err(IoFault::NoMemory) => {
            give_up(core, frozen, files);
            CommitEnd::NoMemory
        }
    }
}

// Writes the files of the frozen memtable that is out, and puts them in its place. Where one can't be begun or written,
// all are given up, and the memtable is taken back.
fn write_and_install<S: Store, C: Clock>(
    alloc: Global,
    core: &mut Core<S, C>,
    frozen: Frozen,
) -> CommitEnd
    requires ready { IsReady (seen S.told S.count C.readings core.old) frozen }
    ensures { ComesTo (seen S.told S.count C.readings core.old)
        (seen S.told S.count C.readings core.new) frozen result }
{
    let files = match core.create_files(frozen.ranges.len() as u32) {
        Ok(files) => files,
        Err(IoFault::Failed) => {
            core.thaw(frozen);
            return CommitEnd::StoreFault;
        }
        Err(IoFault::NoMemory) => {
            core.thaw(frozen);
            return CommitEnd::NoMemory;
        }
    };
    match vec_of(alloc, files) {
        Ok(files) => write_to(alloc, core, frozen, files),
        Err(files) => {
            give_up(core, frozen, files);
            CommitEnd::NoMemory
        }
    }
}

// Commits once.
fn once<S: Store, C: Clock>(alloc: Global, core: &mut Core<S, C>) -> CommitEnd
    requires { core.old.flight ≡ None }
    ensures ends { CommitEnds (seen S.told S.count C.readings core.old)
        (seen S.told S.count C.readings core.new) result }
    ensures points { CarriesOver (seen S.told S.count C.readings core.old) (seen S.told S.count C.readings core.new)
        (added result core.old.floor) }
    ensures later { raised (S.count core.old.store) 0 ≤ S.count core.new.store }
{
    match core.freeze() {
        Freeze::Nothing => CommitEnd::Nothing,
        Freeze::Busy { version: _ } => unreachable!(),
        Freeze::Stopped { version } => CommitEnd::Stopped { version },
        Freeze::NoMemory => CommitEnd::NoMemory,
        Freeze::Frozen(frozen) => write_and_install(alloc, core, frozen),
    }
}

// Whether a commit may have left entries up to a version in the log.
fn leaves_more(end: CommitEnd, front: u64) -> bool
    ensures { result ≡ leaves_more end front }
{
    match end {
        CommitEnd::Committed { version } => version < front,
        _ => false,
    }
}

// Commits all that was entered.
fn commit_all<S: Store, C: Clock>(alloc: Global, core: &mut Core<S, C>) -> CommitEnd
    requires { core.old.flight ≡ None }
    ensures ends { AllEnds (seen S.told S.count C.readings core.old) (seen S.told S.count C.readings core.new) result }
    ensures points { CarriesOver (seen S.told S.count C.readings core.old) (seen S.told S.count C.readings core.new)
        (added result core.old.floor) }
    ensures later { raised (S.count core.old.store) 0 ≤ S.count core.new.store }
{
    let end = once(alloc, core);
    if leaves_more(end, core.front()) {
        return once(alloc, core);
    }
    end
}

/// Commits once: what an earlier commit, or the opening, left frozen, else all that was entered. The files are written
/// one by one; where one fails, all are given up, and the memtable stays frozen for the next commit.
pub fn commit_once<S: Store, C: Clock>(alloc: Global, core: &mut Core<S, C>) -> CommitEnd
    requires { core.old.flight ≡ None }
    ensures ends { CommitEnds (seen S.told S.count C.readings core.old)
        (seen S.told S.count C.readings core.new) result }
    ensures flight { core.new.flight ≡ None }
    ensures later { raised (S.count core.old.store) 0 ≤ S.count core.new.store }
    ensures facts { (b : State) (h : List AnEntry)
        → FactsAre (seen S.told S.count C.readings core.old) b h
        → FactsAre (seen S.told S.count C.readings core.new) b (h ++ added result core.old.floor) }
    ensures rows { (b : State) (h : List AnEntry)
        → FactsAre (seen S.told S.count C.readings core.old) b h
        → RowsAre (seen S.told S.count C.readings core.old) b h
        → RowsAre (seen S.told S.count C.readings core.new) b (h ++ added result core.old.floor) }
    ensures journal { (b : State) (h : List AnEntry)
        → FactsAre (seen S.told S.count C.readings core.old) b h
        → JournalIs (seen S.told S.count C.readings core.old) b h
        → JournalIs (seen S.told S.count C.readings core.new) b (h ++ added result core.old.floor) }
    ensures image { (b : State) (h : List AnEntry)
        → FactsAre (seen S.told S.count C.readings core.old) b h
        → ImageIs (seen S.told S.count C.readings core.old) b h
        → ImageIs (seen S.told S.count C.readings core.new) b (h ++ added result core.old.floor) }
    ensures floor { (b : State) (h : List AnEntry)
        → FloorIs (seen S.told S.count C.readings core.old) b h
        → FloorIs (seen S.told S.count C.readings core.new) b (h ++ added result core.old.floor) }
    ensures held { HeldIs (seen S.told S.count C.readings core.old) → HeldIs (seen S.told S.count C.readings core.new) }
    ensures pins { PinsAre (seen S.told S.count C.readings core.old)
        → PinsAre (seen S.told S.count C.readings core.new) }
    ensures clock { (opened : Option (List ℕ)) (b : State) (h : List AnEntry)
        → ClockIs opened (seen S.told S.count C.readings core.old) b h
        → ClockIs opened (seen S.told S.count C.readings core.new) b (h ++ added result core.old.floor) }
{
    once(alloc, core)
}

/// Commits all that was entered: once, and once more where what went into files had been left frozen before and an
/// entry stands after it.
pub fn commit<S: Store, C: Clock>(alloc: Global, core: &mut Core<S, C>) -> CommitEnd
    requires { core.old.flight ≡ None }
    ensures ends { AllEnds (seen S.told S.count C.readings core.old)
        (seen S.told S.count C.readings core.new) result }
    ensures flight { core.new.flight ≡ None }
    ensures later { raised (S.count core.old.store) 0 ≤ S.count core.new.store }
    ensures facts { (b : State) (h : List AnEntry)
        → FactsAre (seen S.told S.count C.readings core.old) b h
        → FactsAre (seen S.told S.count C.readings core.new) b (h ++ added result core.old.floor) }
    ensures rows { (b : State) (h : List AnEntry)
        → FactsAre (seen S.told S.count C.readings core.old) b h
        → RowsAre (seen S.told S.count C.readings core.old) b h
        → RowsAre (seen S.told S.count C.readings core.new) b (h ++ added result core.old.floor) }
    ensures journal { (b : State) (h : List AnEntry)
        → FactsAre (seen S.told S.count C.readings core.old) b h
        → JournalIs (seen S.told S.count C.readings core.old) b h
        → JournalIs (seen S.told S.count C.readings core.new) b (h ++ added result core.old.floor) }
    ensures image { (b : State) (h : List AnEntry)
        → FactsAre (seen S.told S.count C.readings core.old) b h
        → ImageIs (seen S.told S.count C.readings core.old) b h
        → ImageIs (seen S.told S.count C.readings core.new) b (h ++ added result core.old.floor) }
    ensures floor { (b : State) (h : List AnEntry)
        → FloorIs (seen S.told S.count C.readings core.old) b h
        → FloorIs (seen S.told S.count C.readings core.new) b (h ++ added result core.old.floor) }
    ensures held { HeldIs (seen S.told S.count C.readings core.old) → HeldIs (seen S.told S.count C.readings core.new) }
    ensures pins { PinsAre (seen S.told S.count C.readings core.old)
        → PinsAre (seen S.told S.count C.readings core.new) }
    ensures clock { (opened : Option (List ℕ)) (b : State) (h : List AnEntry)
        → ClockIs opened (seen S.told S.count C.readings core.old) b h
        → ClockIs opened (seen S.told S.count C.readings core.new) b (h ++ added result core.old.floor) }
{
    commit_all(alloc, core)
}
