//! Writing an item to the log of a core.
ghost use Rattle.std.specs.Prelude.{◌≡◌, ◌↔◌, ◌+◌, ◌<◌, ◌^◌, length, true, IsTrue, IfOk, IfSome, OnOk, OnErr, IsErrOf};
ghost use Rattle.td_model.specs.State.{State};
ghost use Rattle.td_outside.specs.Image.{Along};
ghost use Rattle.td_wal.specs.declared.appending.WalFault.TheVariants as faults;
ghost use Rattle.td_wal.specs.Append.{IsWritable, next_gate, HasWalCause};
ghost use Rattle.td_core.specs.Replay.{IsNext};
ghost use Rattle.td_core.specs.CoreState.{log_place};
ghost use Rattle.td_core.specs.Submits.{StandsFor, StandsForEither};
ghost use Rattle.td_core.specs.Writing.{text_item, Carries, Leaves, Reaches};

use crate::kept::ActiveLog;
use std::alloc::Global;
use td_layer::{NoMem, Seq};
use td_outside::Store;
use td_wal::{LogBody, LogItem, WalFault, append};

// The bytes of a gate and of an item of a text, but for the text.
const GATE_AND_ITEM: u64 = 30;

// The item of a text.
pub(crate) fn item_of(
    alloc: Global,
    version: u64,
    session: u32,
    ordinal: u32,
    moment: u64,
    text: &[u8],
) -> Result<LogItem, NoMem>
    ensures { IfOk result (λ i. i ≡ text_item version session ordinal moment text.now) }
{
    let text = Seq::of_bytes(alloc, text)?;
    Ok(LogItem {
        version,
        moment,
        session,
        ordinal,
        body: LogBody::Text(text),
    })
}

// Whether the place of the gate behind an item of a text is a number of 64 bits.
pub(crate) fn has_place(gate: u64, text: &[u8]) -> bool
    ensures { IsTrue result ↔ gate + 30 + length text.now < 2 ^ 64 }
{
    gate.checked_add(GATE_AND_ITEM + text.len() as u64)
        .is_some()
}

// Makes the log that is written, where it isn't there.
fn make<S: Store>(alloc: Global, store: &mut S, log: &mut ActiveLog) -> Result<(), WalFault>
    ensures place { log_place log.new ≡ log_place log.old }
    ensures made { OnOk result (log.new.is_made ≡ true) }
    ensures unmade { OnErr result (log.new ≡ log.old) }
    ensures ok { (s : State) → IfSome (S.told store.old) (Carries (log_place log.old) log.old.is_made s)
        → OnOk result (Along (Leaves (log_place log.old) true s) (S.told store.old) (S.told store.new)) }
    ensures failed { (s : State) → IfSome (S.told store.old) (Carries (log_place log.old) log.old.is_made s)
        → IsErrOf result faults.StoreFault → Along (StandsFor s) (S.told store.old) (S.told store.new) }
    ensures no_memory { IsErrOf result faults.NoMemory → store.new ≡ store.old }
    ensures cause { HasWalCause (S.count store.old) (S.count store.new) result }
{
    if !log.is_made {
        store.log_create(alloc, log.number)?;
        log.is_made = true;
    }
    Ok(())
}

// Writes an item to the log that is written, which is made first where it isn't there. The gate moves behind the item.
pub(crate) fn write<S: Store>(
    alloc: Global,
    store: &mut S,
    log: &mut ActiveLog,
    item: &LogItem,
) -> Result<(), WalFault>
    requires writable { IsWritable item.now }
    requires place { next_gate log.old.gate item.now < 2 ^ 64 }
    requires carries { (s : State) × IfSome (S.told store.old) (Carries (log_place log.old) log.old.is_made s) }
    ensures made { OnOk result (log.new.is_made ≡ true) }
    ensures place { OnErr result (log_place log.new ≡ log_place log.old) }
    ensures ok { (s t : State) → IfSome (S.told store.old) (Carries (log_place log.old) log.old.is_made s)
        → IsNext item.now s t
        → OnOk result (Along (Reaches (log_place log.new) t) (S.told store.old) (S.told store.new)) }
    ensures failed { (s t : State) → IfSome (S.told store.old) (Carries (log_place log.old) log.old.is_made s)
        → IsNext item.now s t
        → IsErrOf result faults.StoreFault → Along (StandsForEither s t) (S.told store.old) (S.told store.new) }
    ensures no_memory { (s : State) → IfSome (S.told store.old) (Carries (log_place log.old) log.old.is_made s)
        → IsErrOf result faults.NoMemory
        → Along (Leaves (log_place log.new) log.new.is_made s) (S.told store.old) (S.told store.new) }
    ensures cause { HasWalCause (S.count store.old) (S.count store.new) result }
{
    make(alloc, store, log)?;
    log.gate = append(alloc, store, log.number, log.gate, item)?;
    Ok(())
}
