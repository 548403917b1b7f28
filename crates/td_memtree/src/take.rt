//! Pairs taken out of branches.
ghost use Rattle.std.specs.Prelude.{◌≡◌, ◌+◌, ◌^◌, ◌<◌, ◌≤◌, [], length, IfOk, MatchOption};
ghost use Rattle.td_layer.specs.Keys.{InKeyOrder};
ghost use Rattle.td_memtree.specs.Keys.{without};
ghost use Rattle.td_memtree.specs.Branches.{IsTaken};

use crate::branch::{Branch, Fork, Leaf, Shape};
use crate::leaf::pairs_without;
use std::alloc::Global;
use std::cmp::Ordering;
use td_layer::{Key, NoMem};

impl<T: Drop> Branch<T> {
    /// The branch without the pair of a key, or none where that was the only pair; this branch stays as it was.
    pub(crate) fn take(&self, alloc: Global, key: Key) -> Result<Option<Branch<T>>, NoMem>
        requires { length self.now.0 < 2 ^ 32 }
        ensures { IfOk result (IsTaken key self.now) }
    {
        match &self.shape {
            Shape::OfLeaf(leaf) => {
                let leaf: &Leaf<T> = leaf;
                let pairs = pairs_without(alloc, leaf.pairs.as_slice(), key)?;
                if pairs.is_empty() {
                    return Ok(None);
                }
                let left = Branch::leaf(alloc, pairs)?;
                Ok(Some(left))
            }
            Shape::OfFork(fork) => {
                let fork: &Fork<T> = fork;
                match key.cmp(&fork.key) {
                    Ordering::Less => {
                        let right = fork.right.share()?;
                        let Some(left) = fork.left.take(alloc, key)? else {
                            return Ok(Some(right));
                        };
                        let done = Branch::balance(alloc, left, fork.key, right)?;
                        Ok(Some(done))
                    }
                    Ordering::Equal | Ordering::Greater => {
                        let left = fork.left.share()?;
                        let Some(right) = fork.right.take(alloc, key)? else {
                            return Ok(Some(left));
                        };
                        let done = Branch::balance(alloc, left, fork.key, right)?;
                        Ok(Some(done))
                    }
                }
            }
        }
    }
}
