//! Which calls of an object fail.
ghost use Rattle.std.specs.Prelude.{◌≡◌, ◌≤◌, true, false, IfOk};
ghost use Rattle.td_outside.specs.Causes.{Rose};
ghost use Rattle.td_memdev.specs.Track.{is_next_listed, after_call, with_faults};

use std::alloc::Global;
use std::marker::Model;
use td_layer::{NoMem, Seq};

/// The calls of an object that can fail: how many there were, which fail, and how many faults it counts.
#[derive(Drop)]
pub struct Calls {
    object: u64,
    calls: u64,
    fails: Seq<(u64, u64)>,
    faults: u64,
}

impl Model for Calls {
    ghost use Rattle.td_memdev.specs.Track.{Track};

    ghost Value = { Track };

    ghost view = { λ s. record { object = s.object; calls = s.calls; fails = s.fails; faults = s.faults } };
}

impl Calls {
    /// The calls of an object, of which none was made so far.
    pub fn new(object: u64, fails: Seq<(u64, u64)>) -> Calls
        ensures { result ≡ record { object = object; calls = 0; fails = fails; faults = 0 } }
    {
        Calls {
            object,
            calls: 0,
            fails,
            faults: 0,
        }
    }

    /// The calls of another object, with the same list.
    pub fn of_object(&self, alloc: Global, object: u64) -> Result<Calls, NoMem>
        ensures { IfOk result (λ c. c ≡ record { object = object; calls = 0; fails = self.now.fails; faults = 0 }) }
    {
        let fails = self.fails.as_slice().to_vec(alloc)?;
        Ok(Calls::new(object, Seq::from_vec(alloc, fails)))
    }

    /// Whether the list names the next call.
    pub fn will_fail(&self) -> bool
        ensures { result ≡ is_next_listed self.now }
    {
        let call = self.calls.saturating_add(1);
        let object = self.object;
        self.fails
            .as_slice()
            .iter()
            .any(|pair| pair.0 == object && pair.1 == call)
    }

    /// Counts a call, and a fault where the list names it.
    pub fn count(&mut self)
        ensures counts { self.new ≡ after_call self.old }
        ensures later { self.old.faults ≤ self.new.faults }
        ensures rose { is_next_listed self.old ≡ true → Rose self.old.faults self.new.faults }
        ensures kept { is_next_listed self.old ≡ false → self.new.faults ≡ self.old.faults }
    {
        if self.will_fail() {
            self.faults = self.faults.saturating_add(1);
        }
        self.calls = self.calls.saturating_add(1);
    }

    /// Takes over the faults of another object.
    pub fn take_over(&mut self, faults: u64)
        ensures { self.new ≡ with_faults faults self.old }
    {
        self.faults = self.faults.saturating_add(faults);
    }

    /// Counts a fault that the list doesn't name.
    pub fn add_fault(&mut self)
        ensures counts { self.new ≡ with_faults 1 self.old }
        ensures later { self.old.faults ≤ self.new.faults }
    {
        self.faults = self.faults.saturating_add(1);
    }

    /// Counts from no fault on.
    pub fn forget(&mut self)
        ensures { self.new ≡ record self.old { faults = 0 } }
    {
        self.faults = 0;
    }

    /// How many faults it counts, up to the number's end.
    pub fn faults(&self) -> u64
        ensures { result ≡ self.now.faults }
    {
        self.faults
    }
}
