//! The tree.
ghost use Rattle.std.specs.Prelude.{◌≡◌, ◌+◌, ◌^◌, ◌<◌, [], length, IfOk, OnOk, OnErr};
ghost use Rattle.std.specs.Option.{option_copied};
ghost use Rattle.td_layer.specs.Keys.{InKeyOrder};
ghost use Rattle.td_memtree.specs.Keys.{item_at, with_item, without};

use crate::branch::Branch;
use crate::leaf::LEAF_PAIRS;
use std::alloc::Global;
use std::marker::Model;
use std::sync::Arc;
use td_layer::{Key, NoMem, Seq};

/// A persistent tree of items by key. Contracts see it as the list of its pairs in the order of their keys.
#[derive(Drop)]
pub struct Tree<T> {
    pub(crate) root: Option<Branch<T>>,
}

impl<T> Model for Tree<T> {
    ghost use Rattle.std.specs.Prelude.{List};
    ghost use Rattle.std.specs.Coded.{coded_list, coded×};
    ghost use Rattle.td_layer.specs.declared.values.Key.{Key};

    ghost Value = { List (Key × T) };

    ghost use Rattle.td_memtree.specs.Pairs.{pairs};

    ghost view = { λ a. pairs a.root };
}

impl<T> Tree<T> {
    /// The empty tree. It takes no memory.
    pub fn new() -> Tree<T>
        ensures { result ≡ [] }
    {
        Tree { root: None }
    }

    /// How many pairs there are.
    pub fn len(&self) -> u32
        ensures { result ≡ length self.now }
    {
        match &self.root {
            None => 0,
            Some(root) => root.len(),
        }
    }

    /// The same tree, of the same nodes.
    pub fn share(&self) -> Result<Tree<T>, NoMem>
        ensures { IfOk result (λ t. t ≡ self.now) }
    {
        match &self.root {
            None => Ok(Tree { root: None }),
            Some(root) => {
                let root = root.share()?;
                Ok(Tree { root: Some(root) })
            }
        }
    }

    /// The item of a key, if there is one.
    pub fn get(&self, key: Key) -> Option<&T>
        ensures { option_copied result ≡ item_at key self.now }
    {
        match &self.root {
            None => None,
            Some(root) => root.get(key),
        }
    }
}

impl<T: Drop> Tree<T> {
    /// The tree with this item at the key; this tree stays as it was.
    pub fn insert(&self, alloc: Global, key: Key, item: T) -> Result<Tree<T>, NoMem>
        requires { length self.now + 1 < 2 ^ 32 }
        ensures { IfOk result (λ t. t ≡ with_item key item self.now) }
    {
        let item = Arc::new(alloc, item)?;
        match &self.root {
            None => {
                let root = Branch::of_pair(alloc, key, item)?;
                Ok(Tree { root: Some(root) })
            }
            Some(root) => {
                let root = root.put(alloc, key, item)?;
                Ok(Tree { root: Some(root) })
            }
        }
    }

    /// Puts an item at a key of this tree. Other trees stay as they were. Leaves and forks that no other tree has are
    /// changed where they are, so that many puts in a row copy one once at most. Where there is no memory the tree
    /// stays as it was.
    pub fn set(&mut self, alloc: Global, key: Key, item: T) -> Result<(), NoMem>
        requires { length self.old + 1 < 2 ^ 32 }
        ensures ok { OnOk result (self.new ≡ with_item key item self.old) }
        ensures err { OnErr result (self.new ≡ self.old) }
    {
        let item = Arc::new(alloc, item)?;
        match &mut self.root {
            None => {
                let root = Branch::of_pair(alloc, key, item)?;
                self.root = Some(root);
            }
            Some(root) => {
                root.turn_left();
                root.place(alloc, key, item)?;
            }
        }
        Ok(())
    }

    /// The tree without the pair of a key, if there is one; this tree stays as it was.
    pub fn remove(&self, alloc: Global, key: Key) -> Result<Tree<T>, NoMem>
        ensures { IfOk result (λ t. t ≡ without key self.now) }
    {
        match &self.root {
            None => Ok(Tree::new()),
            Some(root) => {
                let _len = root.len();
                let root = root.take(alloc, key)?;
                Ok(Tree { root })
            }
        }
    }

    /// The tree of a list of pairs that is in the order of its keys, in time linear in its length.
    pub fn from_sorted(alloc: Global, pairs: Seq<(Key, T)>) -> Result<Tree<T>, NoMem>
        requires sorted { InKeyOrder pairs }
        requires few { length pairs < 2 ^ 32 }
        ensures { IfOk result (λ t. t ≡ pairs) }
    {
        let mut pairs = pairs;
        let n = pairs.len();
        if n == 0 {
            return Ok(Tree::new());
        }
        let root = Branch::build(alloc, &mut pairs, n, (n - 1) / LEAF_PAIRS)?;
        Ok(Tree { root: Some(root) })
    }
}
