//! Reading a log, and appending to one.
ghost use Rattle.std.specs.Prelude.{◌≡◌, ◌≤◌, true};
ghost use Rattle.td_wal.specs.Log.{items_fit};

use crate::bytes::push_hex;
use crate::shown::push_items;
use std::alloc::Global;
use td_cases::{CaseFault, Out};
use td_layer::Seq;
use td_memdev::MemStore;
use td_outside::{IoFault, Store};
use td_wal::{LogFault, LogItem, WalFault, append, read_all, read_to_gate};

/// The number of the log in the store.
const LOG: u64 = 1;

/// No log of a case is as long.
const MOST: u64 = 1 << 62;

/// Why a log was not written.
#[derive(Clone, Copy, Debug, PartialEq, Eq)]
enum Unwritten {
    NoMemory,
    Failed,
}

impl From<IoFault> for Unwritten {
    fn from(fault: IoFault) -> Self {
        match fault {
            IoFault::NoMemory => Unwritten::NoMemory,
            IoFault::Failed => Unwritten::Failed,
        }
    }
}

impl From<WalFault> for Unwritten {
    fn from(fault: WalFault) -> Self {
        match fault {
            WalFault::NoMemory => Unwritten::NoMemory,
            WalFault::StoreFault => Unwritten::Failed,
        }
    }
}

impl From<Unwritten> for CaseFault {
    fn from(fault: Unwritten) -> Self {
        match fault {
            Unwritten::NoMemory => CaseFault::NoMemory,
            Unwritten::Failed => CaseFault::Stream,
        }
    }
}

/// `read FIRST BYTES`: the items of a log and the place of its closed gate; or the items before the first place that is
/// not of the form of a log, and that place.
pub(crate) fn push_read(
    out: &mut Out,
    alloc: Global,
    first: u64,
    bytes: &[u8],
) -> Result<(), CaseFault> {
    match read_to_gate(alloc, bytes, first) {
        Ok((items, at)) => {
            push_items(out, items.as_slice());
            out.push(b"gate ");
            out.number(i128::from(at));
        }
        Err(LogFault::NotThis { at, items }) => {
            push_items(out, items.as_slice());
            out.push(b"not this ");
            out.number(i128::from(at));
        }
        Err(LogFault::NoMemory) => return Err(CaseFault::NoMemory),
    }
    Ok(())
}

/// `append FIRST BYTES`: the bytes of a new log to which the items of this one are appended, one after another.
pub(crate) fn push_appended(
    out: &mut Out,
    alloc: Global,
    first: u64,
    bytes: &[u8],
) -> Result<(), CaseFault> {
    let items = match read_all(alloc, bytes, first) {
        Ok(items) => items,
        Err(LogFault::NotThis { .. }) => return Err(CaseFault::Unread),
        Err(LogFault::NoMemory) => return Err(CaseFault::NoMemory),
    };
    if first == 0 {
        return Err(CaseFault::Unread);
    }
    let mut store = MemStore::new(alloc, Seq::new(alloc));
    let log = log_of(alloc, &mut store, first, items.as_slice())?;
    push_hex(out, log.as_slice());
    Ok(())
}

// The bytes of a new log of these items.
fn log_of<S: Store>(
    alloc: Global,
    store: &mut S,
    first: u64,
    items: &[LogItem],
) -> Result<Seq<u8>, Unwritten>
    requires some { 1 ≤ first }
    requires fit { items_fit first 0 items.now ≡ true }
{
    append_each(alloc, store, first, items)?;
    match store.log_read(alloc, LOG)? {
        Some(log) => Ok(log),
        None => Err(Unwritten::Failed),
    }
}

// Makes a log, and appends items to it from the version `first` on.
fn append_each<S: Store>(
    alloc: Global,
    store: &mut S,
    first: u64,
    items: &[LogItem],
) -> Result<(), Unwritten>
    requires some { 1 ≤ first }
    requires fit { items_fit first 0 items.now ≡ true }
{
    store.log_create(alloc, LOG)?;
    let mut at = 0;
    for item in items {
        if at >= MOST {
            return Err(Unwritten::Failed);
        }
        let next = append(alloc, store, LOG, at, item)?;
        at = next;
    }
    Ok(())
}
