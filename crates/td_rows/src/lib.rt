//! [store] Rows by key: found by search, put, cut, and read in a range of a table.
//!
//! [`RowTree`] keeps rows in a persistent tree: each change gives a new tree, shares with the old one what it doesn't
//! touch, and leaves the old one as it was, so whoever reads the old one goes on undisturbed. Puts lay their cells over
//! the rows of their keys, one after another; a cut and the retention edge leave out the rows that they name and no
//! others.
//!
//! [`RowsByKey`] is what a reader needs of it: the rows of a range are lent in the order of their timestamps, and none
//! is copied. [`RowView`] has the rows of one moment as a snapshot, which gives copies of the rows of a range.
//!
//! The crate stands in until rows lie in a memtable and in files. It stands on `td_model` for the definitions
//! (`State`), on `td_memtree` for the tree, and on `td_layer` for the types.
#![tactic(auto)]

mod lay;
mod lent;
mod rows;
mod tree;
mod view;

pub use lent::RowsIn;
pub use rows::RowsByKey;
pub use tree::RowTree;
pub use view::RowView;
