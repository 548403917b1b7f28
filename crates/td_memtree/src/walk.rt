//! Walks over a tree.
ghost use Rattle.std.specs.Prelude.{◌≡◌, ◌+◌, ◌<◌, ◌++◌, length};
ghost use Rattle.std.specs.Iterator.{YieldsFirstBy, item_count};
ghost use Rattle.arrayvec.specs.ArrayVec.{array_vec_len};
ghost use Rattle.td_layer.specs.Keys.{InKeyOrder};
ghost use Rattle.td_memtree.specs.Keys.{pairs_from};
ghost use Rattle.td_memtree.specs.Pending.{left_pairs, IsLight, ArePending};

use crate::branch::{Branch, Fork, Leaf, Pair, Shape};
use crate::leaf::rest_from;
use crate::tree::Tree;
use arrayvec::ArrayVec;
use std::cmp::Ordering;
use std::marker::Model;
use td_layer::Key;

// Branches that are still to come, the next one last.
type Pending<'a, T> = ArrayVec<Option<&'a Branch<T>>, 75>;

/// The pairs of a tree from a key on, in the order of their keys. Contracts see it as the list of the pairs that are
/// left. It takes no memory, and goes on from where it is: a whole walk visits each node once.
#[derive(Drop)]
pub struct Walk<'a, T> {
    // The pairs of the present leaf that are still to come.
    rest: &'a [Pair<T>],
    pending: Pending<'a, T>,
}

impl<'a, T> Model for Walk<'a, T> {
    ghost use Rattle.std.specs.Prelude.{List, ◌++◌};
    ghost use Rattle.std.specs.Coded.{coded_list, coded×};
    ghost use Rattle.td_layer.specs.declared.values.Key.{Key};

    ghost Value = { List (Key × T) };

    ghost use Rattle.td_memtree.specs.Pending.{left_pairs, ArePending};

    ghost view = { λ w. w.rest.now ++ left_pairs w.pending.items };

    ghost invariant = { λ w. ArePending 0 w.pending.items };
}

// Puts the branches beside the first leaf of a branch on the pending ones, and gives the pairs of that leaf.
fn descend<'a, T>(pending: &mut Pending<'a, T>, branch: &'a Branch<T>) -> &'a [Pair<T>]
    requires pending { ArePending 0 pending.old.items }
    requires light { IsLight (array_vec_len pending.old) (branch.now.1 + 1) }
    ensures pairs { result.now ++ left_pairs pending.new.items ≡ branch.now.0 ++ left_pairs pending.old.items }
    ensures some { 0 < length result.now }
    ensures pending { ArePending 0 pending.new.items }
{
    match &branch.shape {
        Shape::OfLeaf(leaf) => {
            let leaf: &'a Leaf<T> = leaf;
            leaf.pairs.as_slice()
        }
        Shape::OfFork(fork) => {
            let fork: &'a Fork<T> = fork;
            pending.push(Some(&fork.right));
            descend(pending, &fork.left)
        }
    }
}

// The same, down to the leaf of a key, of which it gives the pairs whose keys are not before this one.
fn descend_from<'a, T>(
    pending: &mut Pending<'a, T>,
    branch: &'a Branch<T>,
    from: Key,
) -> &'a [Pair<T>]
    requires pending { ArePending 0 pending.old.items }
    requires light { IsLight (array_vec_len pending.old) (branch.now.1 + 1) }
    ensures pairs { result.now ++ left_pairs pending.new.items
        ≡ pairs_from from branch.now.0 ++ left_pairs pending.old.items }
    ensures pending { ArePending 0 pending.new.items }
{
    match &branch.shape {
        Shape::OfLeaf(leaf) => {
            let leaf: &'a Leaf<T> = leaf;
            rest_from(leaf.pairs.as_slice(), from)
        }
        Shape::OfFork(fork) => {
            let fork: &'a Fork<T> = fork;
            match from.cmp(&fork.key) {
                Ordering::Less => {
                    pending.push(Some(&fork.right));
                    descend_from(pending, &fork.left, from)
                }
                Ordering::Equal | Ordering::Greater => descend_from(pending, &fork.right, from),
            }
        }
    }
}

fn lent<'a, T>(pair: &'a Pair<T>) -> (Key, &'a T)
    ensures key { result.0 ≡ pair.now.0 }
    ensures item { result.1.now ≡ pair.now.1 }
{
    (pair.key, &pair.item)
}

impl<T> Tree<T> {
    /// The pairs whose keys are not before this one, in the order of their keys.
    pub fn walk(&self, from: Key) -> Walk<'_, T>
        ensures pairs { result ≡ pairs_from from self.now }
        ensures in_order { InKeyOrder self.now }
    {
        let mut pending = ArrayVec::new();
        let rest = match &self.root {
            None => &[],
            Some(root) => {
                let _forks = root.forks();
                descend_from(&mut pending, root, from)
            }
        };
        Walk { rest, pending }
    }
}

impl<'a, T> Iterator for Walk<'a, T> {
    type Item = (Key, &'a T);

    ghost next_gives = { YieldsFirstBy (λ pair. (pair.0, pair.1.now)) (λ left. left) };

    ghost remaining = { item_count (λ left. left) };

    fn next(&mut self) -> Option<(Key, &'a T)> {
        let ahead = self.rest;
        if let Some((pair, rest)) = ahead.split_first() {
            self.rest = rest;
            return Some(lent(pair));
        }
        match self.pending.pop() {
            None => None,
            Some(None) => unreachable!(),
            Some(Some(branch)) => {
                let leaf = descend(&mut self.pending, branch);
                let Some((pair, rest)) = leaf.split_first() else {
                    unreachable!()
                };
                self.rest = rest;
                Some(lent(pair))
            }
        }
    }
}
