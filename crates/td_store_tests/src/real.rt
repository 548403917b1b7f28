//! A real directory, made, used, left and entered again.
ghost use Rattle.std.specs.Prelude.{◌≡◌, false};

use std::alloc::Global;
use std::process::Abort;
use std::test::Fail;
use td_outside::{Place, Reader, Store, Writer};
use td_realdev::{DirPlace, DirStore};

// Writes a finished file, and gives its number.
fn file_of(alloc: Global, store: &mut DirStore, bytes: &[u8]) -> Result<u64, Fail> {
    let mut w = store.create(alloc)?;
    if w.write(alloc, bytes).is_err() {
        store.abandon(w);
        return Err("the write failed")?;
    }
    let number = store.finish(w)?;
    Ok(number)
}

// Uses a directory: a log of one open item, a head, a file.
fn use_store(alloc: Global, store: &mut DirStore) -> Result<u64, Fail> {
    store.log_create(alloc, 3)?;
    store.log_append(alloc, 3, 1, &[7, 8, 0])?;
    store.log_sync(3)?;
    store.log_gate(3, 0)?;
    store.log_sync(3)?;
    store.head_swap(alloc, b"first")?;
    store.head_swap(alloc, b"second")?;
    file_of(alloc, store, b"a file")
}

// Looks for what was written.
fn look(rt: &impl Abort, alloc: Global, store: &mut DirStore, file: u64) -> Result<(), Fail> {
    let head = store.head_read(alloc)?.ok_or("no head")?;
    assert_eq!(rt; head.as_slice(), b"second".as_slice());
    let log = store.log_read(alloc, 3)?.ok_or("no log")?;
    assert!(rt; log.len() > 4);
    assert_eq!(rt; &log.as_slice()[..4], [1, 7, 8, 0].as_slice());
    let names = store.names(alloc)?;
    assert_eq!(rt; names.as_slice(), [file].as_slice());
    assert_eq!(rt; store.faults(), 0);
    Ok(())
}

// Reads a file from its second byte on.
fn read_file(rt: &impl Abort, alloc: Global, store: &mut DirStore, file: u64) -> Result<(), Fail> {
    let mut r = store.open_file(alloc, file)?;
    let mut buf = [0u8; 8];
    let got = r.read_at(2, &mut buf);
    let len = r.len();
    store.close_file(r);
    assert_eq!(rt; len, 6);
    assert_eq!(rt; got?, 4);
    assert_eq!(rt; &buf[..4], b"file".as_slice());
    Ok(())
}

#[test]
fn a_directory_gives_its_bytes_back(rt: HostRuntime) -> Result<(), Fail> {
    let alloc = rt.alloc();
    let own = rt.clone()?;
    let other = rt.clone()?;
    let mut place = DirPlace::new(own);
    let mut second = DirPlace::new(other);
    let mut store = place.enter(alloc, b"d")?;
    assert!(rt; second.enter(alloc, b"d").is_err(), "one at a time");
    assert_eq!(rt; second.faults(), 1);
    let file = use_store(alloc, &mut store)?;
    place.leave(store)?;
    let mut again = second.enter(alloc, b"d")?;
    look(&rt, alloc, &mut again, file)?;
    read_file(&rt, alloc, &mut again, file)?;
    again.remove(file)?;
    again.log_drop(3)?;
    again.log_drop(3)?;
    assert_eq!(rt; again.names(alloc)?.len(), 0);
    second.leave(again)?;
    assert_eq!(rt; second.taken(), 0);
    Ok(())
}
