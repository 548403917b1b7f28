//! Opening a core.
ghost use Rattle.std.specs.Prelude.{◌≡◌, ◌≢◌, ◌≤◌, ℕ, [], None, IfOk, IfErr, IfSome};
ghost use Rattle.td_limits.specs.declared.limits.TheConstants.{LAST_TIMESTAMP};
ghost use Rattle.td_model.specs.State.{State};
ghost use Rattle.td_outside.specs.Image.{Along};
ghost use Rattle.td_fileset.specs.Pinned.{pins_of};
ghost use Rattle.td_opening.specs.declared.causes.OpenCause.TheVariants as causes;
ghost use Rattle.td_opening.specs.Opening.{CountIsBy, BreaksBy, BreaksNowhere, IsAtRest, Settles, Tidies, OpensAs};
ghost use Rattle.td_engine.specs.CoreState.{seen, frozen_at, IsKept};
ghost use Rattle.td_engine.specs.Covers.{Covers, HeldIs};

use crate::journal::Journal;
use crate::kept::Core;
use std::alloc::Global;
use td_fileset::Pins;
use td_layer::NoMem;
use td_opening::{OpenCause, Opened, open_store};
use td_outside::{Clock, Store};

/// A store and a clock that come back, and why no core was made of them.
pub struct OpenRefused<S, C> {
    pub store: S,
    pub clock: C,
    pub cause: OpenCause,
}

// The core of what was opened.
fn core_of<S: Store, C: Clock>(
    alloc: Global,
    store: S,
    clock: C,
    opened: Opened,
    journal: Journal,
) -> Core<S, C>
    requires kept { IsKept (S.told store) opened.tables.state opened.levels opened.committed opened.sealed opened.log
        opened.tables.state.moment journal.spare }
    ensures store { result.store ≡ store }
    ensures clock { result.clock ≡ clock }
    ensures state { result.state ≡ opened.tables.state }
    ensures levels { result.levels ≡ opened.levels }
    ensures committed { result.committed ≡ opened.committed }
    ensures frozen_at { result.frozen_at ≡ frozen_at opened.sealed }
    ensures flight { result.flight ≡ None }
    ensures pins { (n : ℕ) → pins_of result.pins n ≡ 0 }
    ensures journal { result.journal ≡ journal.items }
    ensures base { result.base ≡ opened.tables.state.version }
    ensures floor { result.floor ≡ opened.tables.state.moment }
    ensures log { result.log ≡ opened.log }
{
    let Opened {
        tables,
        levels,
        committed,
        log,
        sealed,
    } = opened;
    let base = tables.version();
    let floor = tables.moment();
    Core {
        alloc,
        store,
        clock,
        tables,
        levels,
        committed,
        sealed,
        flight: None,
        next_number: 0,
        pins: Pins::new(alloc),
        journal,
        base,
        floor,
        log,
    }
}

/// The core of a store. It reads the head, the numbers of the finished files and the first two logs, and no other file;
/// it makes the logs that are there stable, takes away the log before the first one and a second one without items, and
/// removes the finished files that the head doesn't name.
///
/// After `Ok` the core covers the state that the store stood for, with no entry since, and its journal is empty.
/// `NotThisStore` comes exactly where the head or a log breaks the form of a store, with the first place at which it
/// does; so it never comes where the store stands for a state. `StoreFault` comes only where the store failed. After
/// each of them, and after `NoMemory`, the store comes back and stands for the states that it stood for.
pub fn open_core<S: Store, C: Clock>(
    alloc: Global,
    store: S,
    clock: C,
) -> Result<Core<S, C>, OpenRefused<S, C>>
    requires { IfSome (S.told store) IsAtRest }
    ensures covers { IfOk result (λ core. (b : State) → OpensAs (S.told store) core.state b
        → Covers (C.readings clock) (seen S.told S.count C.readings core) b []) }
    ensures held { IfOk result (λ core. HeldIs (seen S.told S.count C.readings core)) }
    ensures whole { IfOk result (λ _. IfSome (S.told store) BreaksNowhere) }
    ensures state { IfOk result (λ core. (core.state.rows ≡ []) × (core.state.halt ≡ None)) }
    ensures floor { IfOk result (λ core. (core.floor ≡ core.state.moment) × (core.floor ≤ LAST_TIMESTAMP)) }
    ensures base { IfOk result (λ core. (core.base ≡ core.state.version) × (core.journal ≡ [])) }
    ensures pins { IfOk result (λ core. (n : ℕ) → pins_of core.pins n ≡ 0) }
    ensures flight { IfOk result (λ core. core.flight ≡ None) }
    ensures image { IfOk result (λ core. Along Settles (S.told store) (S.told core.store)) }
    ensures clock { IfOk result (λ core. core.clock ≡ clock) }
    ensures count { IfOk result (λ core. S.count core.store ≡ S.count store) }
    ensures strange { IfErr result (λ refused. IfSome (S.told store) (BreaksBy refused.cause)) }
    ensures untouched { IfErr result (λ refused. refused.cause ≢ causes.StoreFault
        → S.told refused.store ≡ S.told store) }
    ensures tidy { IfErr result (λ refused. Along Tidies (S.told store) (S.told refused.store)) }
    ensures fault { IfErr result (λ refused. CountIsBy refused.cause (S.count store) (S.count refused.store)) }
    ensures clock_back { IfErr result (λ refused. refused.clock ≡ clock) }
{
    let mut store = store;
    let mut journal = Journal::new(alloc);
    let opened = match journal.make_room(1) {
        Ok(()) => open_store(alloc, &mut store),
        Err(NoMem) => Err(OpenCause::NoMemory),
    };
    match opened {
        Ok(opened) => Ok(core_of(alloc, store, clock, opened, journal)),
        Err(cause) => {
            drop(journal);
            Err(OpenRefused {
                store,
                clock,
                cause,
            })
        }
    }
}
