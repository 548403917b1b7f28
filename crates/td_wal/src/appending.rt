//! Adding an item to a log.
ghost use Rattle.std.specs.Prelude.{◌≡◌, ◌<◌, ◌^◌, length, IfOk, OnOk, IsErrOf};
ghost use Rattle.td_wal.specs.declared.item.LogBody.TheVariants as bodies;
ghost use Rattle.td_wal.specs.declared.appending.WalFault.TheVariants as faults;
ghost use Rattle.td_wal.specs.Items.{body_bytes, body_kind};
ghost use Rattle.td_wal.specs.Append.{IsWritable, record_bytes, next_gate, HasClosedGate, LogSays, Appends, Fails, HasWalCause, wal_fault, step_fits};

use crate::item::{LogBody, LogItem};
use std::alloc::Global;
use td_codec::{put_u8, put_u32, put_u64, put_win_keys, put_win_rows};
use td_layer::{Name, NoMem, Seq};
use td_model::Delta;
use td_outside::{Failed, IoFault, Store};

/// Why an item was not added: the store failed, or there was no memory.
#[derive(Clone, Copy, Debug, PartialEq, Eq)]
pub enum WalFault {
    StoreFault,
    NoMemory,
}

impl From<IoFault> for WalFault {
    ghost from_gives = { λ fault e. e ≡ wal_fault fault };

    fn from(fault: IoFault) -> WalFault {
        match fault {
            IoFault::Failed => WalFault::StoreFault,
            IoFault::NoMemory => WalFault::NoMemory,
        }
    }
}

impl From<Failed> for WalFault {
    ghost from_gives = { λ _ e. e ≡ faults.StoreFault };

    fn from(_: Failed) -> WalFault {
        WalFault::StoreFault
    }
}

impl From<NoMem> for WalFault {
    ghost from_gives = { λ _ e. e ≡ faults.NoMemory };

    fn from(_: NoMem) -> WalFault {
        WalFault::NoMemory
    }
}

/// The bytes of a step.
#[tactic(auto, using(std::proofs::lemmas::List::append_assoc), unfolding(crate::specs::Items::step, crate::specs::Items::step_head, crate::specs::Items::body_bytes))]
fn step_bytes(
    alloc: Global,
    stream: u32,
    upto: u64,
    moment: u64,
    delta: &Delta,
) -> Result<Name, NoMem>
    requires { step_fits delta.now }
    ensures { IfOk result (λ bytes. bytes ≡ body_bytes (bodies.Step stream upto moment delta.now)) }
{
    let mut bytes = Seq::new(alloc);
    put_u32(&mut bytes, stream)?;
    put_u64(&mut bytes, upto)?;
    put_u64(&mut bytes, moment)?;
    put_win_keys(&mut bytes, delta.removed.as_slice())?;
    put_win_rows(&mut bytes, delta.added.as_slice())?;
    Ok(bytes)
}

/// An item with the bytes of its body, and a closed gate behind it.
#[tactic(auto, using(std::proofs::lemmas::List::append_assoc), unfolding(crate::specs::Items::item_bytes))]
fn with_body(alloc: Global, item: &LogItem, kind: u8, body: &[u8]) -> Result<Name, NoMem>
    requires kind { kind ≡ body_kind item.now.body }
    requires body { body.now ≡ body_bytes item.now.body }
    requires size { length body.now < 2 ^ 32 }
    ensures { IfOk result (λ bytes. bytes ≡ record_bytes item.now) }
{
    let mut bytes = Seq::new(alloc);
    put_u32(&mut bytes, body.len() as u32)?;
    put_u64(&mut bytes, item.version)?;
    put_u64(&mut bytes, item.moment)?;
    put_u32(&mut bytes, item.session)?;
    put_u32(&mut bytes, item.ordinal)?;
    put_u8(&mut bytes, kind)?;
    bytes.extend(body)?;
    bytes.add(0)?;
    Ok(bytes)
}

/// An item and a closed gate behind it.
fn record_of(alloc: Global, item: &LogItem) -> Result<Name, NoMem>
    requires { IsWritable item.now }
    ensures { IfOk result (λ bytes. bytes ≡ record_bytes item.now) }
{
    match &item.body {
        LogBody::Text(text) => {
            let bytes = with_body(alloc, item, 1, text.as_slice())?;
            Ok(bytes)
        }
        LogBody::Step {
            stream,
            upto,
            moment,
            delta,
        } => {
            let step = step_bytes(alloc, *stream, *upto, *moment, delta)?;
            let bytes = with_body(alloc, item, 2, step.as_slice())?;
            Ok(bytes)
        }
    }
}

/// Adds an item to a log whose closed gate stands at the place `at`, and answers the place of its next gate. The item
/// and a closed gate are written behind the gate and synced; then the gate is opened and synced.
///
/// After `Ok` the log has the item at its end, and all of it is stable. `StoreFault` comes only where the store failed;
/// a read then gives the log of the items from before, or of these and the item, and so does a crash. `NoMemory` leaves
/// the store as it was.
pub fn append<S: Store>(
    alloc: Global,
    store: &mut S,
    log: u64,
    at: u64,
    item: &LogItem,
) -> Result<u64, WalFault>
    requires writable { IsWritable item.now }
    requires place { next_gate at item.now < 2 ^ 64 }
    requires gate { LogSays (S.told store.old) log (λ l. HasClosedGate at l.bytes) }
    ensures place { IfOk result (λ next. next ≡ next_gate at item.now) }
    ensures ok { OnOk result (Appends log at item.now (S.told store.old) (S.told store.new)) }
    ensures failed { IsErrOf result faults.StoreFault → Fails log at item.now (S.told store.old) (S.told store.new) }
    ensures no_memory { IsErrOf result faults.NoMemory → store.new ≡ store.old }
    ensures cause { HasWalCause (S.count store.old) (S.count store.new) result }
{
    let record = record_of(alloc, item)?;
    let next = at + record.len() as u64;
    store.log_append(alloc, log, at + 1, record.as_slice())?;
    store.log_sync(log)?;
    store.log_gate(log, at)?;
    store.log_sync(log)?;
    Ok(next)
}
