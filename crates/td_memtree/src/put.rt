//! Items found in branches, and put into them.
ghost use Rattle.std.specs.Prelude.{◌≡◌, ◌+◌, ◌*◌, ◌^◌, ◌<◌, ◌≤◌, nat_le, length, true, IfOk, OnOk, OnErr, IsTrue};
ghost use Rattle.std.specs.Arc.{arc_value};
ghost use Rattle.std.specs.Option.{option_copied};
ghost use Rattle.td_layer.specs.Keys.{InKeyOrder, key_cmp};
ghost use Rattle.td_memtree.specs.Keys.{item_at, with_item, Balanced};
ghost use Rattle.td_memtree.specs.Parts.{Parts};
ghost use Rattle.td_memtree.specs.Branches.{ForkIsFit, MayGrow};

use crate::branch::{Branch, Fork, Leaf, Shape};
use crate::leaf::{LEAF_PAIRS, place_of, put_here};
use std::alloc::Global;
use std::cmp::Ordering;
use std::sync::Arc;
use td_layer::{Key, NoMem};

// Whether one branch stays light enough beside the other with a fork more.
fn may_grow<T>(branch: &Branch<T>, other: &Branch<T>) -> bool
    ensures { result ≡ nat_le (branch.now.1 + 2) (3 * (other.now.1 + 1)) }
{
    branch.forks() as u64 + 2 <= 3 * (other.forks() as u64 + 1)
}

// Counts a fork over two balanced branches anew.
pub(crate) fn recount<T>(fork: &mut Fork<T>)
    requires parted { Parts fork.old.key fork.old.left.0 fork.old.right.0 }
    requires balanced { Balanced fork.old.left.1 fork.old.right.1 }
    requires fits { length fork.old.left.0 + length fork.old.right.0 < 2 ^ 32 }
    ensures fit { ForkIsFit fork.new }
    ensures left { fork.new.left ≡ fork.old.left }
    ensures right { fork.new.right ≡ fork.old.right }
{
    fork.forks = fork.left.forks() + fork.right.forks() + 1;
    fork.count = fork.left.len() + fork.right.len();
}

impl<T> Branch<T> {
    /// The item of a key, if there is one.
    pub(crate) fn get(&self, key: Key) -> Option<&T>
        ensures { option_copied result ≡ item_at key self.now.0 }
    {
        match &self.shape {
            Shape::OfLeaf(leaf) => {
                let leaf: &Leaf<T> = leaf;
                match place_of(leaf.pairs.as_slice(), key) {
                    Err(_) => None,
                    Ok(at) => {
                        let pair = &leaf.pairs[at];
                        Some(&pair.item)
                    }
                }
            }
            Shape::OfFork(fork) => {
                let fork: &Fork<T> = fork;
                match key.cmp(&fork.key) {
                    Ordering::Less => fork.left.get(key),
                    Ordering::Equal | Ordering::Greater => fork.right.get(key),
                }
            }
        }
    }
}

impl<T: Drop> Branch<T> {
    /// The branch with this item at the key; this branch stays as it was.
    pub(crate) fn put(
        &self,
        alloc: Global,
        key: Key,
        item: Arc<T, Global>,
    ) -> Result<Branch<T>, NoMem>
        requires { length self.now.0 + 1 < 2 ^ 32 }
        ensures pairs { IfOk result (λ b. b.0 ≡ with_item key (arc_value item) self.now.0) }
        ensures forks { IfOk result (λ b. MayGrow self.now.1 b.1) }
    {
        match &self.shape {
            Shape::OfLeaf(leaf) => {
                let leaf: &Leaf<T> = leaf;
                let done = Branch::leaf_with(alloc, leaf.pairs.as_slice(), key, item)?;
                Ok(done)
            }
            Shape::OfFork(fork) => {
                let fork: &Fork<T> = fork;
                match key.cmp(&fork.key) {
                    Ordering::Less => {
                        let left = fork.left.put(alloc, key, item)?;
                        let right = fork.right.share()?;
                        let done = Branch::balance(alloc, left, fork.key, right)?;
                        Ok(done)
                    }
                    Ordering::Equal | Ordering::Greater => {
                        let right = fork.right.put(alloc, key, item)?;
                        let left = fork.left.share()?;
                        let done = Branch::balance(alloc, left, fork.key, right)?;
                        Ok(done)
                    }
                }
            }
        }
    }

    /// Puts an item at a key. Leaves with room and forks that no other tree has and that stay balanced are changed
    /// where they are; from the first other one down the branch is made anew.
    pub(crate) fn place(
        &mut self,
        alloc: Global,
        key: Key,
        item: Arc<T, Global>,
    ) -> Result<(), NoMem>
        requires { length self.old.0 + 1 < 2 ^ 32 }
        ensures pairs { OnOk result (self.new.0 ≡ with_item key (arc_value item) self.old.0) }
        ensures forks { OnOk result (MayGrow self.old.1 self.new.1) }
        ensures err { OnErr result (self.new ≡ self.old) }
    {
        match &mut self.shape {
            Shape::OfLeaf(shared) => {
                if let Some(leaf) = Arc::get_mut(shared) {
                    if leaf.pairs.len() < LEAF_PAIRS {
                        put_here(&mut leaf.pairs, key, item)?;
                        return Ok(());
                    }
                }
            }
            Shape::OfFork(shared) => {
                if let Some(fork) = Arc::get_mut(shared) {
                    match key.cmp(&fork.key) {
                        Ordering::Less => {
                            if may_grow(&fork.left, &fork.right) {
                                fork.left.place(alloc, key, item)?;
                                recount(fork);
                                return Ok(());
                            }
                        }
                        Ordering::Equal | Ordering::Greater => {
                            if may_grow(&fork.right, &fork.left) {
                                fork.right.turn_left();
                                fork.right.place(alloc, key, item)?;
                                recount(fork);
                                return Ok(());
                            }
                        }
                    }
                }
            }
        }
        let made = self.put(alloc, key, item)?;
        *self = made;
        Ok(())
    }
}
