//! How a range of rows by key is read.
ghost use Rattle.std.specs.Prelude.{◌≡◌, filter, length};
ghost use Rattle.td_layer.specs.Keys.{InKeyOrder};
ghost use Rattle.td_model.specs.State.{Rows, is_cut};

use crate::lent::RowsIn;

/// Rows by key, to be read.
pub trait RowsByKey {
    /// The rows, in the order of their keys.
    ghost rows: { Self → Rows };

    /// How many rows there are, of all tables.
    fn row_count(&self) -> u32
        ensures { result ≡ length (rows self.now) };

    /// The rows of a table, by number, from one timestamp to another, both included, in the order of their timestamps.
    fn range(&self, table: u32, lo: u64, hi: u64) -> RowsIn<'_>
        ensures rows { result ≡ filter (λ e. is_cut table lo hi e.0) (rows self.now) }
        ensures in_order { InKeyOrder result };
}
