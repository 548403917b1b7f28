//! Lists that contracts see as lists.
ghost use Rattle.std.specs.Prelude.{◌≡◌, ◌==◌, [], ◌∷◌, ◌++◌, ◌<◌, ◌≤◌, length, slice_get, insert, slice_set, IfOk, IfErr, OnOk, OnErr, OnSome, MatchOption};
ghost use Rattle.std.specs.Option.{option_copied};

use crate::values::NoMem;
use std::alloc::{AllocFailed, Global};
use std::marker::Model;

/// A type whose values can be copied, in the memory that the copy needs.
pub trait Copied: Sized {
    /// A copy that equals what it copies, or out of memory.
    fn copy(&self) -> Result<Self, NoMem>
        ensures same { IfOk result (λ c. c ≡ self.now) };

    /// Copies of the items of a slice, in one allocation beside what the items need themselves, or out of memory.
    fn copies(alloc: Global, items: &[Self]) -> Result<Vec<Self>, NoMem>
    where
        Self: Drop,
        ensures all { IfOk result (λ c. c.items ≡ items.now) }
    {
        let mut copies = Vec::with_capacity(alloc, items.len())?;
        for item in items {
            copies.push(item.copy()?)?;
        }
        Ok(copies)
    }
}

/// A list. Contracts see it as the list of its items, and its spare room nowhere: see [`crate::Roomy`].
#[derive(Debug, Drop)]
pub struct Seq<T> {
    items: Vec<T>,
    alloc: Global,
}

/// A list of bytes: a name or another text.
pub type Name = Seq<u8>;

impl<T> Model for Seq<T> {
    ghost use Rattle.std.specs.Prelude.{List};
    ghost use Rattle.std.specs.Coded.{coded_list};

    ghost Value = { List T };

    ghost coded = { coded_list T.code };

    ghost view = { λ s. s.items.items };
}

impl<T> Seq<T> {
    /// The empty list. It takes no memory.
    pub fn new(alloc: Global) -> Seq<T>
        ensures { result ≡ [] }
    {
        Seq {
            items: Vec::new(alloc),
            alloc,
        }
    }

    /// The list of a vector's items, in its memory.
    pub fn from_vec(alloc: Global, items: Vec<T>) -> Seq<T>
        ensures { result ≡ items.items }
    {
        Seq { items, alloc }
    }

    /// Adds an item at the end. Where there is no memory the item comes back and the list stays as it was.
    pub fn push(&mut self, item: T) -> Result<(), (T, NoMem)>
        ensures ok { OnOk result (self.new ≡ self.old ++ item ∷ []) }
        ensures err { OnErr result (self.new ≡ self.old) }
        ensures item_back { IfErr result (λ e. e.0 ≡ item) }
    {
        match self.items.push(item) {
            Ok(()) => Ok(()),
            Err(failed) => {
                let AllocFailed { value, .. } = failed;
                Err((value, NoMem))
            }
        }
    }

    /// Takes the last item off, or gives none where the list is empty.
    pub fn pop(&mut self) -> Option<T>
        ensures { MatchOption result ((self.old ≡ []) × (self.new ≡ [])) (λ last. self.old ≡ self.new ++ last ∷ []) }
    {
        self.items.pop()
    }

    /// How many items there are.
    pub fn len(&self) -> usize
        ensures { result ≡ length self.now }
    {
        self.items.len()
    }

    /// Whether there is no item.
    pub fn is_empty(&self) -> bool
        ensures { result ≡ (length self.now == 0) }
    {
        self.items.is_empty()
    }

    /// The item at a place, from 0, or none beyond the end.
    pub fn get(&self, at: usize) -> Option<&T>
        ensures value { option_copied result ≡ slice_get self.now at }
        ensures within { OnSome result (at < length self.now) }
    {
        self.items.get(at)
    }

    /// The items.
    pub fn as_slice(&self) -> &[T]
        ensures { result.now ≡ self.now }
    {
        self.items.as_slice()
    }

    /// Ends an empty list, also one whose items must be spent.
    pub fn done(self)
        requires { self ≡ [] }
    {
        self.items.destroy_empty()
    }
}

impl<T: Drop> Seq<T> {
    /// Adds an item at the end. Where there is no memory the item is dropped and the list stays as it was.
    pub fn add(&mut self, item: T) -> Result<(), NoMem>
        ensures ok { OnOk result (self.new ≡ self.old ++ item ∷ []) }
        ensures err { OnErr result (self.new ≡ self.old) }
    {
        self.items.push(item)?;
        Ok(())
    }

    /// Puts an item in at a place, before those from there on. Where there is no memory the list stays as it was.
    pub fn insert(&mut self, at: usize, item: T) -> Result<(), NoMem>
        requires { at ≤ length self.old }
        ensures ok { OnOk result (self.new ≡ insert self.old at item) }
        ensures err { OnErr result (self.new ≡ self.old) }
    {
        self.items.insert(at, item)?;
        Ok(())
    }

    /// Puts an item in the place of another.
    pub fn set(&mut self, at: usize, item: T)
        requires { at < length self.old }
        ensures { self.new ≡ slice_set self.old at item }
    {
        self.items[at] = item;
    }
}

impl Seq<u8> {
    /// A text of these bytes.
    pub fn of_bytes(alloc: Global, bytes: &[u8]) -> Result<Name, NoMem>
        ensures { IfOk result (λ name. name ≡ bytes.now) }
    {
        let items = Vec::from_slice(alloc, bytes)?;
        Ok(Seq::from_vec(alloc, items))
    }

    /// Adds bytes at the end. Where there is no memory the list stays as it was.
    pub fn extend(&mut self, bytes: &[u8]) -> Result<(), NoMem>
        ensures ok { OnOk result (self.new ≡ self.old ++ bytes.now) }
        ensures err { OnErr result (self.new ≡ self.old) }
    {
        self.items.extend_from_slice(bytes)?;
        Ok(())
    }
}

impl<T: Copied + Drop> Seq<T> {
    /// A copy of the list, of copies of its items, in one allocation beside what the items need themselves.
    pub fn copy(&self) -> Result<Seq<T>, NoMem>
        ensures { IfOk result (λ c. c ≡ self.now) }
    {
        let items = T::copies(self.alloc, self.items.as_slice())?;
        Ok(Seq {
            items,
            alloc: self.alloc,
        })
    }
}

impl<T: Copied + Drop> Copied for Seq<T> {
    fn copy(&self) -> Result<Seq<T>, NoMem> {
        let copied = Seq::copy(self)?;
        Ok(copied)
    }
}

impl<T: Copied + Drop> Copied for Option<T> {
    fn copy(&self) -> Result<Option<T>, NoMem> {
        match self {
            None => Ok(None),
            Some(item) => {
                let item = item.copy()?;
                Ok(Some(item))
            }
        }
    }
}
