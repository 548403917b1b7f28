//! [formats] Blocks: some rows of one table as bytes, column by column.
//!
//! A block has 1 to 1024 rows in rising order of their timestamps. Behind a head stand the timestamps, the births and
//! the columns, each with its kind's code, a bitmap of the cells that are named, one of those that have a value, and
//! a lane a row, 0 where there is no value. [`encode`] writes a block and [`decode`] reads one; [`header_of`] tells
//! of a block what a file has to know that passes over it, by the block's own kinds.
//!
//! Promised: `decode` answers a block exactly where one begins the bytes, with its length, and otherwise the place of
//! the first field, in the order written, that is cut short or breaks its rule; only want of memory keeps it from
//! that answer. `encode` gives the one spelling of its rows, which `decode` reads back, whatever stands behind it: no
//! block's bytes begin those of another block of the same kinds. A header is that of any block that begins the bytes.
//!
//! It stands on `td_codec` and `td_cols` for numbers in files, and on `td_layer` for partials.
#![tactic(auto)]

mod bits;
mod block;
mod columns;
mod header;
mod laws;
mod reading;
mod rows;
mod writing;

pub use block::{Block, BlockFault};
pub use header::{
    BLOCK_MAGIC, Head, Header, block_length, column_length, head_of, header_of, kind_of,
};
pub use laws::{blocks_have_headers, blocks_hold, blocks_spell_once, one_block};
pub use reading::decode;
pub use writing::encode;
