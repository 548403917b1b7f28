//! Walks over a range of keys.
ghost use Rattle.std.specs.Prelude.{◌≡◌};
ghost use Rattle.std.specs.Iterator.{YieldsFirstBy, item_count};
ghost use Rattle.td_layer.specs.Keys.{InKeyOrder};
ghost use Rattle.td_memtree.specs.Within.{pairs_within};

use crate::tree::Tree;
use crate::walk::Walk;
use std::cmp::Ordering;
use std::marker::Model;
use td_layer::Key;

/// The pairs of a tree from one key to another, in the order of their keys. Contracts see it as the list of the pairs
/// that are left. It takes no memory.
#[derive(Drop)]
pub struct Range<'a, T> {
    walk: Walk<'a, T>,
    last: Key,
}

impl<'a, T> Model for Range<'a, T> {
    ghost use Rattle.std.specs.Prelude.{List};
    ghost use Rattle.td_layer.specs.declared.values.Key.{Key};
    ghost use Rattle.td_layer.specs.Keys.{InKeyOrder};
    ghost use Rattle.td_memtree.specs.Within.{pairs_to};

    ghost Value = { List (Key × T) };

    ghost view = { λ r. pairs_to r.last r.walk };

    ghost invariant = { λ r. InKeyOrder r.walk };
}

impl<T> Tree<T> {
    /// The pairs whose keys are from `lo` to `hi`, both among them, in the order of their keys. Where `hi` stands
    /// before `lo` there are none.
    pub fn range(&self, lo: Key, hi: Key) -> Range<'_, T>
        ensures pairs { result ≡ pairs_within lo hi self.now }
        ensures in_order { InKeyOrder result }
    {
        let walk = self.walk(lo);
        Range { walk, last: hi }
    }
}

impl<'a, T> Iterator for Range<'a, T> {
    type Item = (Key, &'a T);

    ghost next_gives = { YieldsFirstBy (λ pair. (pair.0, pair.1.now)) (λ left. left) };

    ghost remaining = { item_count (λ left. left) };

    fn next(&mut self) -> Option<(Key, &'a T)> {
        let Some((key, item)) = self.walk.next() else {
            return None;
        };
        match key.cmp(&self.last) {
            Ordering::Greater => return None,
            Ordering::Less | Ordering::Equal => return Some((key, item)),
        }
    }
}
