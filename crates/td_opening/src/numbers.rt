//! Sets of the numbers of files.
ghost use Rattle.std.specs.Prelude.{◌≡◌, ℕ, [], IfOk};
ghost use Rattle.td_outside.specs.Files.{lists};

use indexmap::IndexSet;
use std::alloc::Global;
use std::marker::Model;
use td_layer::NoMem;

/// A set of numbers. Contracts see them as a list.
#[derive(Drop)]
pub(crate) struct Numbers {
    set: IndexSet<u64>,
}

impl Model for Numbers {
    ghost use Rattle.std.specs.Prelude.{ℕ, List};

    ghost Value = { List ℕ };

    ghost view = { λ s. s.set.keys };
}

impl Numbers {
    // The set of these numbers.
    pub(crate) fn of(alloc: Global, numbers: &[u64]) -> Result<Numbers, NoMem>
        ensures { IfOk result (λ set. (n : ℕ) → lists n set ≡ lists n numbers.now) }
    {
        let mut set = IndexSet::new(alloc);
        for number in numbers {
            set.insert(*number)?;
        }
        Ok(Numbers { set })
    }

    // Whether a number is in the set.
    pub(crate) fn has(&self, number: u64) -> bool
        ensures { result ≡ lists number self.now }
    {
        self.set.contains(&number)
    }
}
