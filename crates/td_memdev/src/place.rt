//! A place in memory.
ghost use Rattle.std.specs.Prelude.{◌≡◌, ◌≤◌, Bool, true, false, None, Some, OnOk, OnErr, IfOk, IfSome, IsErrOf, is_ok, is_err, is_some, not};
ghost use Rattle.std.specs.Option.{option_map};
ghost use Rattle.td_outside.specs.Causes.{HasCause, HasFault, raised};
ghost use Rattle.td_outside.specs.declared.faults.IoFault.TheVariants as io_fault;
ghost use Rattle.td_outside.specs.Image.{at_rest};
ghost use Rattle.td_memdev.specs.Entries.{as_entered};
ghost use Rattle.td_memdev.specs.Kept.{image_of};
ghost use Rattle.td_memdev.specs.Memory.{names, one_more, PlaceAsListed};

use crate::store::MemStore;
use std::alloc::Global;
use std::marker::Model;
use td_layer::Seq;
use td_outside::{Failed, IoFault, Place, Store};

/// A place in memory with its store, which it hands out under any name. `fails` lists its calls that fail, from 1.
#[derive(Drop)]
pub struct MemPlace {
    store: Option<MemStore>,
    calls: u64,
    fails: Seq<u64>,
    faults: u64,
    taken: u64,
}

impl Model for MemPlace {
    ghost use Rattle.td_memdev.specs.Memory.{Holding};

    ghost Value = { Holding };

    ghost view = { λ p. record {
      store = p.store;
      calls = p.calls;
      fails = p.fails;
      faults = p.faults;
      taken = p.taken;
    } };
}

impl MemPlace {
    /// A place with this store, without a fault so far.
    pub fn new(store: MemStore, fails: Seq<u64>) -> MemPlace
        ensures { result ≡ record { store = Some store; calls = 0; fails = fails; faults = 0; taken = 0 } }
    {
        MemPlace {
            store: Some(store),
            calls: 0,
            fails,
            faults: 0,
            taken: 0,
        }
    }

    /// The store, which isn't out.
    pub fn into_store(self) -> MemStore
        requires { is_some self.store ≡ true }
        ensures { self.store ≡ Some result }
    {
        let MemPlace { store, .. } = self;
        match store {
            Some(store) => store,
            None => unreachable!(),
        }
    }

    // Counts a call, and a fault where the list names it; says whether it does.
    fn fails(&mut self) -> bool
        ensures listed { PlaceAsListed self.old self.new result }
        ensures store { self.new.store ≡ self.old.store }
        ensures taken { self.new.taken ≡ self.old.taken }
        ensures later { self.old.faults ≤ self.new.faults }
    {
        self.calls = self.calls.saturating_add(1);
        let fails = self.fails.as_slice().contains(&self.calls);
        if fails {
            self.faults = self.faults.saturating_add(1);
        }
        fails
    }
}

impl Place for MemPlace {
    type Dir = MemStore;

    ghost told = { λ p. option_map image_of p.store };

    ghost is_out = { λ p. not (is_some p.store) };

    ghost count = { λ p. p.faults };

    ghost taken = { λ p. p.taken };

    /// Fails exactly where the list names the call. The store's count of faults begins anew, and no reader is open.
    fn enter(&mut self, _alloc: Global, _name: &[u8]) -> Result<MemStore, IoFault>
        requires inside { not (is_some self.old.store) ≡ false }
        ensures out { not (is_some self.new.store) ≡ is_ok result }
        ensures image { IfOk result (λ dir. Some (image_of dir)
            ≡ option_map at_rest (option_map image_of self.old.store)) }
        ensures store { IfOk result (λ dir. dir.track.faults ≡ 0) }
        ensures refused { OnErr result (option_map image_of self.new.store ≡ option_map image_of self.old.store) }
        ensures taken { self.new.taken ≡ self.old.taken }
        ensures no_memory { IsErrOf result io_fault.NoMemory → self.new ≡ self.old }
        ensures cause { HasFault self.old.faults self.new.faults result }
        ensures listed { PlaceAsListed self.old self.new (is_err result) }
        ensures given { IfOk result (λ dir. IfSome self.old.store (λ store. dir ≡ as_entered store)) }
    {
        if self.fails() {
            return Err(IoFault::Failed);
        }
        match self.store.take() {
            Some(mut store) => {
                store.begin();
                Ok(store)
            }
            None => unreachable!(),
        }
    }

    /// Fails exactly where the list names the call. The store's faults are added to what was taken, and nothing else.
    fn leave(&mut self, dir: MemStore) -> Result<(), Failed>
        ensures inside { not (is_some self.new.store) ≡ false }
        ensures image { option_map image_of self.new.store ≡ Some (image_of dir) }
        ensures taken { raised self.old.taken dir.track.faults ≤ self.new.taken }
        ensures cause { HasCause self.old.faults self.new.faults result }
        ensures listed { PlaceAsListed self.old self.new (is_err result) }
        ensures back { self.new.store ≡ Some dir }
        ensures no_more { self.new.taken ≡ raised self.old.taken dir.track.faults }
    {
        self.taken = self.taken.saturating_add(dir.faults());
        self.store = Some(dir);
        if self.fails() { Err(Failed) } else { Ok(()) }
    }

    fn faults(&self) -> u64 {
        self.faults
    }

    fn taken(&self) -> u64 {
        self.taken
    }
}
