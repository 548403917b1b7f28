//! Ranges of keys.
ghost use Rattle.std.specs.Prelude.{◌≡◌, IfOk};
ghost use Rattle.td_memtree.specs.Within.{pairs_without};

use crate::tree::Tree;
use std::alloc::Global;
use std::cmp::Ordering;
use td_layer::{Key, NoMem};

impl<T: Drop> Tree<T> {
    /// The tree without the pairs whose keys are from `lo` to `hi`, both among them; this tree stays as it was. It
    /// takes the time of a removal for each of them.
    pub fn remove_range(&self, alloc: Global, lo: Key, hi: Key) -> Result<Tree<T>, NoMem>
        ensures { IfOk result (λ t. t ≡ pairs_without lo hi self.now) }
    {
        let mut left = self.share()?;
        let mut rest = self.walk(lo);
        while let Some((key, _)) = rest.next() {
            match hi.cmp(&key) {
                Ordering::Less => return Ok(left),
                Ordering::Equal | Ordering::Greater => left = left.remove(alloc, key)?,
            }
        }
        Ok(left)
    }
}
