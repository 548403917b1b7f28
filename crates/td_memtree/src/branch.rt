//! Branches: the parts that a tree is made of.
ghost use Rattle.std.specs.Prelude.{ℕ, ◌≡◌, ◌+◌, ◌*◌, ◌^◌, ◌<◌, ◌≤◌, List, ◌++◌, length, IfOk};
ghost use Rattle.std.specs.Arc.{arc_value};
ghost use Rattle.td_layer.specs.Keys.{InKeyOrder};
ghost use Rattle.td_memtree.specs.Keys.{Balanced, NearlyBalanced};
ghost use Rattle.td_memtree.specs.Parts.{Parts, IsFirst};
ghost use Rattle.td_memtree.specs.Branches.{IsSound};

use std::alloc::Global;
use std::marker::Model;
use std::sync::Arc;
use td_layer::{Key, NoMem};

/// A part of a tree, which is never empty. Contracts see it as its pairs in the order of their keys, and the number of
/// its forks.
#[cycle(tree)]
#[derive(Drop)]
pub(crate) struct Branch<T> {
    pub(crate) shape: Shape<T>,
}

#[cycle(tree)]
#[derive(Drop)]
pub(crate) enum Shape<T> {
    OfLeaf(Arc<Leaf<T>, Global>),
    OfFork(Arc<Fork<T>, Global>),
}

/// Two branches, the pairs before a key and the others.
#[cycle(tree)]
#[derive(Drop)]
pub(crate) struct Fork<T> {
    pub(crate) forks: u32,
    pub(crate) count: u32,
    pub(crate) key: Key,
    pub(crate) left: Branch<T>,
    pub(crate) right: Branch<T>,
}

/// Pairs in the order of their keys, one at least.
#[derive(Drop)]
pub(crate) struct Leaf<T> {
    pub(crate) pairs: Vec<Pair<T>>,
}

/// A key and its item.
#[derive(Drop)]
pub(crate) struct Pair<T> {
    pub(crate) key: Key,
    pub(crate) item: Arc<T, Global>,
}

impl<T> Model for Pair<T> {
    ghost use Rattle.std.specs.Coded.{coded×};
    ghost use Rattle.td_layer.specs.declared.values.Key.{Key};

    ghost Value = { Key × T };

    ghost view = { λ p. (p.key, p.item.value) };
}

impl<T> Model for Branch<T> {
    ghost use Rattle.std.specs.Prelude.{ℕ, List};
    ghost use Rattle.std.specs.Coded.{coded_list, coded×, coded_ℕ};
    ghost use Rattle.td_layer.specs.declared.values.Key.{Key};

    ghost Value = { List (Key × T) × ℕ };

    ghost use Rattle.td_memtree.specs.Branches.{seen, IsFit};

    ghost view = { λ a. seen a.shape };

    ghost invariant = { λ a. IsFit a.shape };

    ghost size = { λ b. b.1 };

    ghost use Rattle.std.proofs.Common.{arith};

    ghost size_decreases = { λ a h. Prim.grind arith };
}

impl<T> Branch<T> {
    // How many pairs there are.
    pub(crate) fn len(&self) -> u32
        ensures { result ≡ length self.now.0 }
    {
        match &self.shape {
            Shape::OfLeaf(leaf) => leaf.pairs.len() as u32,
            Shape::OfFork(fork) => fork.count,
        }
    }

    // How many forks there are.
    pub(crate) fn forks(&self) -> u32
        ensures count { result ≡ self.now.1 }
        ensures sound { IsSound self.now }
    {
        match &self.shape {
            Shape::OfLeaf(_) => 0,
            Shape::OfFork(fork) => fork.forks,
        }
    }

    // The key of the first pair.
    pub(crate) fn first_key(&self) -> Key
        ensures { IsFirst result self.now.0 }
    {
        match &self.shape {
            Shape::OfLeaf(leaf) => {
                let leaf: &Leaf<T> = leaf;
                leaf.pairs[0].key()
            }
            Shape::OfFork(fork) => fork.left.first_key(),
        }
    }

    // The same branch, of the same leaves and forks.
    pub(crate) fn share(&self) -> Result<Branch<T>, NoMem>
        ensures { IfOk result (λ b. b ≡ self.now) }
    {
        match &self.shape {
            Shape::OfLeaf(leaf) => {
                let leaf = Arc::try_clone(leaf)?;
                Ok(Branch {
                    shape: Shape::OfLeaf(leaf),
                })
            }
            Shape::OfFork(fork) => {
                let fork = Arc::try_clone(fork)?;
                Ok(Branch {
                    shape: Shape::OfFork(fork),
                })
            }
        }
    }
}

impl<T: Drop> Branch<T> {
    // A leaf of these pairs.
    pub(crate) fn leaf(alloc: Global, pairs: Vec<Pair<T>>) -> Result<Branch<T>, NoMem>
        requires sorted { InKeyOrder pairs.items }
        requires some { 0 < length pairs.items }
        requires few { length pairs.items < 2 ^ 32 }
        ensures { IfOk result (λ b. b ≡ (pairs.items, 0)) }
    {
        let leaf = Arc::new(alloc, Leaf { pairs })?;
        Ok(Branch {
            shape: Shape::OfLeaf(leaf),
        })
    }

    // A fork over two balanced branches.
    pub(crate) fn fork(
        alloc: Global,
        left: Branch<T>,
        key: Key,
        right: Branch<T>,
    ) -> Result<Branch<T>, NoMem>
        requires parted { Parts key left.0 right.0 }
        requires balanced { Balanced left.1 right.1 }
        requires fits { length left.0 + length right.0 < 2 ^ 32 }
        ensures { IfOk result (λ b. b ≡ (left.0 ++ right.0, left.1 + right.1 + 1)) }
    {
        let forks = left.forks() + right.forks() + 1;
        let count = left.len() + right.len();
        let fork = Arc::new(
            alloc,
            Fork {
                forks,
                count,
                key,
                left,
                right,
            },
        )?;
        Ok(Branch {
            shape: Shape::OfFork(fork),
        })
    }

    // The left and the right branch may differ by one fork more than balanced ones.
    pub(crate) fn balance(
        alloc: Global,
        left: Branch<T>,
        key: Key,
        right: Branch<T>,
    ) -> Result<Branch<T>, NoMem>
        requires parted { Parts key left.0 right.0 }
        requires nearly { NearlyBalanced left.1 right.1 }
        requires fits { length left.0 + length right.0 < 2 ^ 32 }
        ensures { IfOk result (λ b. b ≡ (left.0 ++ right.0, left.1 + right.1 + 1)) }
    {
        let l = left.forks() as u64 + 1;
        let r = right.forks() as u64 + 1;
        if r > 3 * l {
            let done = Branch::lean_left(alloc, left, key, &right)?;
            Ok(done)
        } else if l > 3 * r {
            let done = Branch::lean_right(alloc, &left, key, right)?;
            Ok(done)
        } else {
            let done = Branch::fork(alloc, left, key, right)?;
            Ok(done)
        }
    }

    // The right branch is too heavy.
    fn lean_left(
        alloc: Global,
        left: Branch<T>,
        key: Key,
        right: &Branch<T>,
    ) -> Result<Branch<T>, NoMem>
        requires parted { Parts key left.0 right.now.0 }
        requires heavy { 3 * (left.1 + 1) ≤ right.now.1 }
        requires nearly { right.now.1 ≤ 3 * (left.1 + 1) + 2 }
        requires fits { length left.0 + length right.now.0 < 2 ^ 32 }
        ensures { IfOk result (λ b. b ≡ (left.0 ++ right.now.0, left.1 + right.now.1 + 1)) }
    {
        let Shape::OfFork(outer) = &right.shape else {
            unreachable!()
        };
        let outer: &Fork<T> = outer;
        let middle = &outer.left;
        let last = outer.right.share()?;
        if middle.forks() as u64 + 1 < 2 * (last.forks() as u64 + 1) {
            let first = Branch::fork(alloc, left, key, middle.share()?)?;
            let done = Branch::fork(alloc, first, outer.key, last)?;
            return Ok(done);
        }
        let Shape::OfFork(inner) = &middle.shape else {
            unreachable!()
        };
        let inner: &Fork<T> = inner;
        let first = Branch::fork(alloc, left, key, inner.left.share()?)?;
        let last = Branch::fork(alloc, inner.right.share()?, outer.key, last)?;
        let done = Branch::fork(alloc, first, inner.key, last)?;
        Ok(done)
    }

    // The left branch is too heavy.
    fn lean_right(
        alloc: Global,
        left: &Branch<T>,
        key: Key,
        right: Branch<T>,
    ) -> Result<Branch<T>, NoMem>
        requires parted { Parts key left.now.0 right.0 }
        requires heavy { 3 * (right.1 + 1) ≤ left.now.1 }
        requires nearly { left.now.1 ≤ 3 * (right.1 + 1) + 2 }
        requires fits { length left.now.0 + length right.0 < 2 ^ 32 }
        ensures { IfOk result (λ b. b ≡ (left.now.0 ++ right.0, left.now.1 + right.1 + 1)) }
    {
        let Shape::OfFork(outer) = &left.shape else {
            unreachable!()
        };
        let outer: &Fork<T> = outer;
        let middle = &outer.right;
        let first = outer.left.share()?;
        if middle.forks() as u64 + 1 < 2 * (first.forks() as u64 + 1) {
            let last = Branch::fork(alloc, middle.share()?, key, right)?;
            let done = Branch::fork(alloc, first, outer.key, last)?;
            return Ok(done);
        }
        let Shape::OfFork(inner) = &middle.shape else {
            unreachable!()
        };
        let inner: &Fork<T> = inner;
        let last = Branch::fork(alloc, inner.right.share()?, key, right)?;
        let first = Branch::fork(alloc, first, outer.key, inner.left.share()?)?;
        let done = Branch::fork(alloc, first, inner.key, last)?;
        Ok(done)
    }
}
