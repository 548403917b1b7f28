//! Writing an item to the log that is written.
ghost use Rattle.std.specs.Prelude.{◌≡◌, ◌↔◌, ◌+◌, ◌<◌, ◌^◌, length, true, IsTrue, IfOk, IfSome, OnOk, OnErr, IsErrOf};
ghost use Rattle.td_model.specs.declared.history.Entry.{Entry as AnEntry};
ghost use Rattle.td_outside.specs.Image.{Along};
ghost use Rattle.td_wal.specs.declared.appending.WalFault.TheVariants as faults;
ghost use Rattle.td_wal.specs.Append.{IsWritable, next_gate, HasWalCause};
ghost use Rattle.td_active.specs.Standing.{KeepsStanding, StandsEither};
ghost use Rattle.td_active.specs.Carried.{text_item, Carried, Records, Carries, Leaves, Reaches};

use crate::active_log::ActiveLog;
use std::alloc::Global;
use td_layer::{NoMem, Seq};
use td_outside::Store;
use td_wal::{LogBody, LogItem, WalFault, append};

// The bytes of a gate and of an item of a text, but for the text.
const GATE_AND_ITEM: u64 = 30;

/// The item of a text, of this version, session, ordinal and moment.
pub fn item_of(
    alloc: Global,
    version: u64,
    session: u32,
    ordinal: u32,
    moment: u64,
    text: &[u8],
) -> Result<LogItem, NoMem>
    ensures { IfOk result (λ i. i ≡ text_item version session ordinal moment text.now) }
{
    let text = Seq::of_bytes(alloc, text)?;
    Ok(LogItem {
        version,
        moment,
        session,
        ordinal,
        body: LogBody::Text(text),
    })
}

/// Whether the place of the gate behind an item of a text is a number of 64 bits.
pub fn has_place(gate: u64, text: &[u8]) -> bool
    ensures { IsTrue result ↔ gate + 30 + length text.now < 2 ^ 64 }
{
    gate.checked_add(GATE_AND_ITEM + text.len() as u64)
        .is_some()
}

// Makes the log that is written, where it isn't there.
fn make<S: Store>(alloc: Global, store: &mut S, log: &mut ActiveLog) -> Result<(), WalFault>
    ensures made { OnOk result (log.new ≡ record log.old { is_made = true }) }
    ensures unmade { OnErr result (log.new ≡ log.old) }
    ensures ok { (k : Carried) → IfSome (S.told store.old) (Carries log.old k)
        → OnOk result (Along (Leaves log.new k) (S.told store.old) (S.told store.new)) }
    ensures failed { (k : Carried) → IfSome (S.told store.old) (Carries log.old k)
        → IsErrOf result faults.StoreFault
        → Along (KeepsStanding k.state.version) (S.told store.old) (S.told store.new) }
    ensures no_memory { IsErrOf result faults.NoMemory → store.new ≡ store.old }
    ensures cause { HasWalCause (S.count store.old) (S.count store.new) result }
{
    if !log.is_made {
        store.log_create(alloc, log.number)?;
        log.is_made = true;
    }
    Ok(())
}

/// Writes an item to the log that is written, which is made first where it isn't there. The gate moves behind the item.
///
/// After `Ok` the item is in the log and stable. After `StoreFault`, which comes only where the store failed, a crash
/// leaves the log with or without the item. After `NoMemory` the log has no item more; it may have been made.
pub fn write<S: Store>(
    alloc: Global,
    store: &mut S,
    log: &mut ActiveLog,
    item: &LogItem,
) -> Result<(), WalFault>
    requires writable { IsWritable item.now }
    requires place { next_gate log.old.gate item.now < 2 ^ 64 }
    requires carries { (k : Carried) × IfSome (S.told store.old) (Carries log.old k) }
    ensures made { OnOk result (log.new ≡ record log.old { gate = next_gate log.old.gate item.now; is_made = true }) }
    ensures place { OnErr result (log.new ≡ record log.old { is_made = log.new.is_made }) }
    ensures ok { (k : Carried) (e : AnEntry)
        → IfSome (S.told store.old) (Carries log.old k) → Records item.now k.state k.levels e
        → OnOk result (Along (Reaches log.new k e) (S.told store.old) (S.told store.new)) }
    ensures failed { (k : Carried) (e : AnEntry)
        → IfSome (S.told store.old) (Carries log.old k) → Records item.now k.state k.levels e
        → IsErrOf result faults.StoreFault
        → Along (StandsEither k.state.version e) (S.told store.old) (S.told store.new) }
    ensures no_memory { (k : Carried) → IfSome (S.told store.old) (Carries log.old k)
        → IsErrOf result faults.NoMemory
        → Along (Leaves log.new k) (S.told store.old) (S.told store.new) }
    ensures cause { HasWalCause (S.count store.old) (S.count store.new) result }
{
    make(alloc, store, log)?;
    log.gate = append(alloc, store, log.number, log.gate, item)?;
    Ok(())
}
