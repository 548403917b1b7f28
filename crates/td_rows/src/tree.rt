//! Rows in a persistent tree.
ghost use Rattle.std.specs.Prelude.{◌≡◌, [], IfOk, OnOk, filter, not, nat_le};
ghost use Rattle.td_layer.specs.Keys.{InKeyOrder};
ghost use Rattle.td_model.specs.State.{is_cut};
ghost use Rattle.td_rows.specs.Puts.{row_after, rows_after};

use crate::lay::lay;
use crate::lent::RowsIn;
use crate::rows::RowsByKey;
use std::alloc::Global;
use std::marker::Model;
use td_layer::{Key, NoMem, Row};
use td_memtree::Tree;
use td_model::Put;

/// Rows in a persistent tree. Contracts see it as the list of the rows in the order of their keys. A change gives a new
/// tree, of which only the nodes down to the changed rows are new, and leaves the old one as it was. There are fewer
/// than 2^32 rows: a tree that has no room for one more is out of memory.
#[derive(Drop)]
pub struct RowTree {
    alloc: Global,
    tree: Tree<Row>,
}

impl Model for RowTree {
    ghost use Rattle.td_layer.specs.Keys.{InKeyOrder};
    ghost use Rattle.td_model.specs.State.{Rows};

    ghost Value = { Rows };

    ghost view = { λ r. r.tree };

    ghost invariant = { λ r. InKeyOrder r.tree };
}

impl RowTree {
    /// No row. It takes no memory.
    pub fn empty(alloc: Global) -> RowTree
        ensures { result ≡ [] }
    {
        RowTree {
            alloc,
            tree: Tree::new(),
        }
    }

    /// The same rows, of the same nodes: the root alone is shared. They stand in the order of their keys.
    pub fn share(&self) -> Result<RowTree, NoMem>
        ensures same { IfOk result (λ t. t ≡ self.now) }
        ensures in_order { InKeyOrder self.now }
    {
        let tree = self.tree.share()?;
        Ok(RowTree {
            alloc: self.alloc,
            tree,
        })
    }

    // Lays a put over the row of its key.
    fn put(&mut self, moment: u64, put: &Put) -> Result<(), NoMem>
        ensures { OnOk result (self.new ≡ row_after moment put.now self.old) }
    {
        if self.tree.len() == u32::MAX {
            return Err(NoMem);
        }
        let row = lay(
            self.alloc,
            put.cells.as_slice(),
            moment,
            self.tree.get(put.key),
        )?;
        self.tree.set(self.alloc, put.key, row)?;
        Ok(())
    }

    /// The rows with puts laid over the rows of their keys, one after another, at a moment in milliseconds, at which
    /// new rows are born. A node of the old tree is copied once at most, whatever the number of puts below it.
    pub fn with_puts(&self, moment: u64, puts: &[Put]) -> Result<RowTree, NoMem>
        ensures { IfOk result (λ t. t ≡ rows_after moment puts.now self.now) }
    {
        let mut rows = self.share()?;
        for put in puts {
            rows.put(moment, put)?;
        }
        Ok(rows)
    }

    /// The rows without those of a table, by number, from one timestamp to another, both included. It takes the time of
    /// a removal for each of these.
    pub fn without(&self, table: u32, lo: u64, hi: u64) -> Result<RowTree, NoMem>
        ensures { IfOk result (λ t. t ≡ filter (λ e. not (is_cut table lo hi e.0)) self.now) }
    {
        let first = Key { table, ts: lo };
        let last = Key { table, ts: hi };
        let tree = self.tree.remove_range(self.alloc, first, last)?;
        Ok(RowTree {
            alloc: self.alloc,
            tree,
        })
    }

    /// The rows at or after a timestamp, of all tables. It takes the time of a walk over all rows, and that of a
    /// removal for each of those before the timestamp.
    pub fn kept_from(&self, ts: u64) -> Result<RowTree, NoMem>
        ensures { IfOk result (λ t. t ≡ filter (λ e. nat_le ts e.0.ts) self.now) }
    {
        let mut tree = self.tree.share()?;
        for (key, _) in self.tree.walk(Key { table: 0, ts: 0 }) {
            if key.ts < ts {
                tree = tree.remove(self.alloc, key)?;
            }
        }
        Ok(RowTree {
            alloc: self.alloc,
            tree,
        })
    }
}

impl RowsByKey for RowTree {
    ghost rows = { λ t. t };

    fn row_count(&self) -> u32 {
        self.tree.len()
    }

    fn range(&self, table: u32, lo: u64, hi: u64) -> RowsIn<'_> {
        let first = Key { table, ts: lo };
        let last = Key { table, ts: hi };
        RowsIn {
            rows: self.tree.range(first, last),
        }
    }
}
