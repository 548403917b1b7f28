//! Calls of a store and a place in memory that their lists name: each fails once, and counts one fault.
ghost use Rattle.std.specs.Prelude.{◌≡◌, ◌∷◌, [], IfOk, false, not, is_some};
ghost use Rattle.td_memdev.specs.Kept.{image_of};
ghost use Rattle.td_store_tests.specs.Filled.{IsFilled};

use std::alloc::Global;
use std::process::Abort;
use std::test::Fail;
use td_layer::{NoMem, Seq};
use td_memdev::{MemPlace, MemStore};
use td_outside::{IoFault, Place, Reader, Store, Writer};

/// What is done with a store.
#[derive(Clone, Copy)]
enum Task {
    Names,
    WriteFile,
    ReadFile,
    Remove,
    HeadRead,
    HeadSwap,
    LogCreate,
    LogAppend,
    LogGate,
    LogSync,
    LogRead,
    LogDrop,
}

/// What the store holds that each test begins with, as `contents` writes it.
const BEFORE: &[u8] = b"2 h \x05\x00";

/// Bytes under a number.
fn one(alloc: Global, number: u64, bytes: &[u8]) -> Result<Seq<(u64, Seq<u8>)>, NoMem>
    ensures { IfOk result (λ table. table ≡ (number, bytes.now) ∷ []) }
{
    let mut table = Seq::new(alloc);
    let bytes = Seq::of_bytes(alloc, bytes)?;
    table.add((number, bytes))?;
    Ok(table)
}

/// A store with the head `h`, a log 1 of the bytes 5 and 0, and a file 2, of which these calls fail.
fn store_of(alloc: Global, fails: &[(u64, u64)]) -> Result<MemStore, NoMem>
    ensures { IfOk result (λ store. IsFilled (image_of store)) }
{
    let fails = fails.to_vec(alloc)?;
    let head = Seq::of_bytes(alloc, b"h")?;
    let logs = one(alloc, 1, &[5, 0])?;
    let files = one(alloc, 2, b"ab")?;
    let fails = Seq::from_vec(alloc, fails);
    let store = MemStore::of_parts(alloc, Some(head), logs, files, fails)?;
    Ok(store)
}

/// Writes a new file, which it gives up where the piece wasn't taken.
fn write_file(alloc: Global, store: &mut MemStore) -> Result<(), IoFault> {
    let mut writer = store.create(alloc)?;
    if let Err(fault) = writer.write(alloc, b"c") {
        store.abandon(writer);
        return Err(fault);
    }
    store.finish(writer)?;
    Ok(())
}

/// Reads the second byte of file 2.
fn read_file(rt: &impl Abort, alloc: Global, store: &mut MemStore) -> Result<(), IoFault>
    requires { IsFilled (image_of store.old) }
{
    let mut reader = store.open_file(alloc, 2)?;
    let mut buf = [0u8; 4];
    let read = reader.read_at(1, &mut buf);
    store.close_file(reader);
    assert_eq!(rt; (read?, buf[0]), (1, b'b'));
    Ok(())
}

/// Does a task with a store.
fn perform(rt: &impl Abort, alloc: Global, store: &mut MemStore, task: Task) -> Result<(), IoFault>
    requires { IsFilled (image_of store.old) }
{
    match task {
        Task::Names => drop(store.names(alloc)?),
        Task::WriteFile => write_file(alloc, store)?,
        Task::ReadFile => read_file(rt, alloc, store)?,
        Task::Remove => store.remove(2)?,
        Task::HeadRead => drop(store.head_read(alloc)?),
        Task::HeadSwap => store.head_swap(alloc, b"n")?,
        Task::LogCreate => store.log_create(alloc, 1)?,
        Task::LogAppend => store.log_append(alloc, 1, 2, &[7])?,
        Task::LogGate => store.log_gate(1, 1)?,
        Task::LogSync => store.log_sync(1)?,
        Task::LogRead => drop(store.log_read(alloc, 1)?),
        Task::LogDrop => store.log_drop(1)?,
    }
    Ok(())
}

/// Whether a task that failed may be done all the same: a head, and bytes of a log that aren't synced yet, may be the
/// old or the new ones.
fn may_be_done(task: Task) -> bool {
    matches!(task, Task::HeadSwap | Task::LogAppend | Task::LogGate)
}

/// Adds bytes, or `-` where there are none.
fn add_bytes(text: &mut Seq<u8>, bytes: Option<Seq<u8>>) -> Result<(), NoMem> {
    text.add(b' ')?;
    match bytes {
        Some(bytes) => text.extend(bytes.as_slice()),
        None => text.add(b'-'),
    }
}

/// What a store holds: `2` where there is file 2 and `n` for each other file, the head, and log 1.
fn contents(alloc: Global, store: &mut MemStore) -> Result<Seq<u8>, IoFault> {
    let mut text = Seq::new(alloc);
    let names = store.names(alloc)?;
    if names.as_slice().contains(&2) {
        text.add(b'2')?;
    }
    for name in names.as_slice() {
        if *name != 2 {
            text.add(b'n')?;
        }
    }
    add_bytes(&mut text, store.head_read(alloc)?)?;
    add_bytes(&mut text, store.log_read(alloc, 1)?)?;
    Ok(text)
}

/// What a task answers, how many faults the store counts then, and what it holds.
fn done_with(
    rt: &impl Abort,
    alloc: Global,
    store: &mut MemStore,
    task: Task,
) -> Result<(Result<(), IoFault>, u64, Seq<u8>), IoFault>
    requires { IsFilled (image_of store.old) }
{
    let answer = perform(rt, alloc, store, task);
    let left = contents(alloc, store)?;
    Ok((answer, store.faults(), left))
}

/// The same of a new store, of which these calls fail.
fn outcome(
    rt: &impl Abort,
    alloc: Global,
    task: Task,
    fails: &[(u64, u64)],
) -> Result<(Result<(), IoFault>, u64, Seq<u8>), IoFault> {
    let mut store = store_of(alloc, fails)?;
    done_with(rt, alloc, &mut store, task)
}

/// Whether a task of which this call fails is told so, counts one fault, and leaves what the store held.
fn fails_once(
    rt: &impl Abort,
    alloc: Global,
    task: Task,
    call: (u64, u64),
    after: &[u8],
) -> Result<bool, IoFault> {
    let (answer, faults, left) = outcome(rt, alloc, task, &[call])?;
    let is_done = may_be_done(task) && left.as_slice() == after;
    let stays = is_done || left.as_slice() == BEFORE;
    Ok(answer == Err(IoFault::Failed) && faults == 1 && stays)
}

/// Whether a task of which no call fails is done, and counts no fault.
fn succeeds(rt: &impl Abort, alloc: Global, task: Task, after: &[u8]) -> Result<bool, IoFault> {
    let (answer, faults, left) = outcome(rt, alloc, task, &[])?;
    Ok(answer == Ok(()) && faults == 0 && left.as_slice() == after)
}

#[test]
fn each_call_of_a_store_fails_once(rt: HostRuntime) -> Result<(), Fail> {
    let alloc = rt.alloc();
    // a task, the object and the number of its call that fails, and what the store holds where none does
    let rows: [(Task, (u64, u64), &[u8]); 15] = [
        (Task::Names, (0, 1), BEFORE),
        (Task::WriteFile, (0, 1), b"2n h \x05\x00"),
        (Task::WriteFile, (1, 1), b"2n h \x05\x00"),
        (Task::WriteFile, (0, 2), b"2n h \x05\x00"),
        (Task::ReadFile, (0, 1), BEFORE),
        (Task::ReadFile, (1, 1), BEFORE),
        (Task::Remove, (0, 1), b" h \x05\x00"),
        (Task::HeadRead, (0, 1), BEFORE),
        (Task::HeadSwap, (0, 1), b"2 n \x05\x00"),
        (Task::LogCreate, (0, 1), b"2 h \x00"),
        (Task::LogAppend, (0, 1), b"2 h \x05\x00\x07"),
        (Task::LogGate, (0, 1), b"2 h \x05\x01"),
        (Task::LogSync, (0, 1), BEFORE),
        (Task::LogRead, (0, 1), BEFORE),
        (Task::LogDrop, (0, 1), b"2 h -"),
    ];
    for (i, (task, call, after)) in rows.iter().enumerate() {
        let fails = fails_once(&rt, alloc, *task, *call, after)?;
        let done = succeeds(&rt, alloc, *task, after)?;
        assert_eq!(rt; (fails, done), (true, true), "row {i}");
    }
    Ok(())
}

/// A visit of a place: whether it was entered, whether its store gave the names of its files, and whether it was left.
fn visit(alloc: Global, place: &mut MemPlace) -> (bool, bool, bool)
    requires { not (is_some place.old.store) ≡ false }
    ensures { not (is_some place.new.store) ≡ false }
{
    match place.enter(alloc, b"d") {
        Ok(mut store) => {
            let named = store.names(alloc).is_ok();
            (true, named, place.leave(store).is_ok())
        }
        Err(_) => (false, false, false),
    }
}

/// A visit, and how many faults the place counts then, of its own and of the stores that it took back.
fn counted_visit(alloc: Global, place: &mut MemPlace) -> ((bool, bool, bool), u64, u64)
    requires { not (is_some place.old.store) ≡ false }
    ensures { not (is_some place.new.store) ≡ false }
{
    let seen = visit(alloc, place);
    (seen, place.faults(), place.taken())
}

#[test]
fn each_call_of_a_place_fails_once(rt: HostRuntime) -> Result<(), Fail> {
    let alloc = rt.alloc();
    // the first `enter`, the first `names`, and the first `leave` fail
    let store = store_of(alloc, &[(0, 1)])?;
    let fails = Seq::from_vec(alloc, vec![in alloc; 1, 3]?);
    let mut place = MemPlace::new(store, fails);
    let first = counted_visit(alloc, &mut place);
    let second = counted_visit(alloc, &mut place);
    let third = counted_visit(alloc, &mut place);
    assert_eq!(rt; first, ((false, false, false), 1, 0));
    assert_eq!(rt; second, ((true, false, false), 2, 1));
    assert_eq!(rt; third, ((true, true, true), 2, 1));
    Ok(())
}
