//! Rows of a range, lent one after another.
ghost use Rattle.std.specs.Iterator.{YieldsFirstBy, item_count};

use std::marker::Model;
use td_layer::{Key, Row};

/// The rows of a table in a range of timestamps, in the order of their timestamps. Contracts see it as the list of the
/// rows that are left. It takes no memory.
#[derive(Drop)]
pub struct RowsIn<'a> {
    pub(crate) rows: td_memtree::Range<'a, Row>,
}

impl<'a> Model for RowsIn<'a> {
    ghost use Rattle.td_model.specs.State.{Rows};

    ghost Value = { Rows };

    ghost view = { λ r. r.rows };
}

impl<'a> Iterator for RowsIn<'a> {
    type Item = (Key, &'a Row);

    ghost next_gives = { YieldsFirstBy (λ row. (row.0, row.1.now)) (λ left. left) };

    ghost remaining = { item_count (λ left. left) };

    fn next(&mut self) -> Option<(Key, &'a Row)> {
        self.rows.next()
    }
}
