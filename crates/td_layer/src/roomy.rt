//! A list whose spare room contracts see beside its items.
ghost use Rattle.std.specs.Prelude.{◌≡◌, ◌+◌, ◌≤◌, [], ◌∷◌, ◌++◌, IfErr, OnOk, OnErr, MatchOption};

use crate::values::NoMem;
use std::alloc::{AllocFailed, Global};
use std::marker::Model;

/// A list with its spare room: the number of items that it takes without further memory.
///
/// It is a type beside [`crate::Seq`], so that two lists of equal items are equal to contracts whatever their room.
#[derive(Debug, Drop)]
pub struct Roomy<T> {
    items: Vec<T>,
}

impl<T> Model for Roomy<T> {
    ghost use Rattle.std.specs.Prelude.{vec_len, vec_capacity, ◌-◌};
    ghost use Rattle.td_layer.specs.Listed.{Listed, coded_listed};

    ghost Value = { Listed T };

    ghost coded = { coded_listed T.code };

    ghost view = { λ s. record { items = s.items.items; spare = vec_capacity s.items - vec_len s.items } };
}

impl<T> Roomy<T> {
    /// The empty list. It takes no memory.
    pub fn new(alloc: Global) -> Roomy<T>
        ensures { result.items ≡ [] }
    {
        Roomy {
            items: Vec::new(alloc),
        }
    }

    /// Adds an item at the end, and lowers the spare room by at most one. Only where there is no spare room can it find
    /// no memory; then the item comes back and the items stay as they were.
    pub fn push(&mut self, item: T) -> Result<(), (T, NoMem)>
        ensures ok { OnOk result (self.new.items ≡ self.old.items ++ item ∷ []) }
        ensures spare { OnOk result (self.old.spare ≤ self.new.spare + 1) }
        ensures err { OnErr result (self.new.items ≡ self.old.items) }
        ensures full { OnErr result (self.old.spare ≡ 0) }
        ensures item_back { IfErr result (λ e. e.0 ≡ item) }
    {
        match self.items.push(item) {
            Ok(()) => Ok(()),
            Err(failed) => {
                let AllocFailed { value, .. } = failed;
                Err((value, NoMem))
            }
        }
    }

    /// Takes the last item off, or gives none where the list is empty.
    pub fn pop(&mut self) -> Option<T>
        ensures { MatchOption result ((self.old.items ≡ []) × (self.new.items ≡ []))
            (λ last. self.old.items ≡ self.new.items ++ last ∷ []) }
    {
        self.items.pop()
    }

    /// Makes the spare room at least `n`. The items stay as they are, also where there is no memory.
    pub fn reserve(&mut self, n: usize) -> Result<(), NoMem>
        ensures ok { OnOk result (n ≤ self.new.spare) }
        ensures items { self.new.items ≡ self.old.items }
    {
        match self.items.reserve(n) {
            Ok(()) => Ok(()),
            Err(_) => Err(NoMem),
        }
    }

    /// The items.
    pub fn as_slice(&self) -> &[T]
        ensures { result.now ≡ self.now.items }
    {
        self.items.as_slice()
    }

    /// Ends an empty list, also one whose items must be spent.
    pub fn done(self)
        requires { self.items ≡ [] }
    {
        self.items.destroy_empty()
    }
}
