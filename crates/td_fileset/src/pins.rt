//! Pins of files.
ghost use Rattle.std.specs.Prelude.{◌≡◌, ◌==◌, ◌+◌, ◌-◌, ◌<◌, ◌≤◌, ℕ, OnOk, OnErr};
ghost use Rattle.td_fileset.specs.Pinned.{pins_of, one_for};

use std::alloc::Global;
use std::collections::HashMap;
use std::marker::Model;
use td_layer::NoMem;

/// How many open readers there are of each file, by number. Contracts see the pins of each file, and how many more pins
/// can be made without memory.
#[derive(Drop)]
pub struct Pins {
    // Only files that are pinned.
    counts: HashMap<u64, u64>,
    // How many pins were ever made: no count is above it.
    made: u64,
    room: u64,
}

impl Model for Pins {
    ghost use Rattle.std.specs.HashMap.{spare};
    ghost use Rattle.td_fileset.specs.Pinned.{PinTable, IsPinTable};

    ghost Value = { PinTable };

    ghost view = { λ p. record { counts = p.counts.entries; room = p.room } };

    ghost invariant = { λ p. IsPinTable (record { counts = p.counts.entries; room = p.room }) (spare p.counts) p.made };
}

impl Pins {
    /// No pin. It takes no memory.
    pub fn new(alloc: Global) -> Pins
        ensures pins { (file : ℕ) → pins_of result file ≡ 0 }
        ensures room { result.room ≡ 0 }
    {
        Pins {
            counts: HashMap::new(alloc),
            made: 0,
            room: 0,
        }
    }

    /// Takes the memory for so many more pins. The pins stay as they are, and where there is no memory the room too.
    pub fn reserve(&mut self, n: u32) -> Result<(), NoMem>
        ensures pins { (file : ℕ) → pins_of self.new file ≡ pins_of self.old file }
        ensures ok { OnOk result (n ≤ self.new.room) }
        ensures room { self.old.room ≤ self.new.room }
        ensures err { OnErr result (self.new.room ≡ self.old.room) }
    {
        let wanted = u64::from(n);
        if wanted <= self.room {
            return Ok(());
        }
        if self.made > u64::MAX - wanted {
            return Err(NoMem);
        }
        self.counts.reserve(n as usize)?;
        self.room = wanted;
        Ok(())
    }

    /// One more pin of a file. It takes no memory, and one of the room.
    pub fn pin(&mut self, file: u64)
        requires { 0 < self.old.room }
        ensures pins { (other : ℕ) → pins_of self.new other ≡ pins_of self.old other + one_for file other }
        ensures room { self.new.room + 1 ≡ self.old.room }
    {
        let pins = self.pins(file);
        self.made += 1;
        self.room -= 1;
        let Ok(_) = self.counts.insert(file, pins + 1) else {
            unreachable!()
        };
    }

    // How many pins of a file there are.
    fn pins(&self, file: u64) -> u64
        ensures { result ≡ pins_of self.now file }
    {
        match self.counts.get(&file) {
            None => 0,
            Some(pins) => *pins,
        }
    }

    /// One pin of a file less. Of a file without a pin it changes nothing.
    pub fn unpin(&mut self, file: u64)
        ensures pins { (other : ℕ) → pins_of self.new other ≡ pins_of self.old other - one_for file other }
        ensures room { self.new.room ≡ self.old.room }
    {
        if self.pins(file) <= 1 {
            self.counts.remove(&file);
        } else if let Some(pins) = self.counts.get_mut(&file) {
            *pins -= 1;
        }
    }

    /// Whether no pin of a file is left.
    pub fn free(&self, file: u64) -> bool
        ensures { result ≡ (pins_of self.now file == 0) }
    {
        self.pins(file) == 0
    }
}
