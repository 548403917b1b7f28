//! Lists of rows, as files take them.
ghost use Rattle.std.specs.Prelude.{◌≡◌, ◌<◌, ◌^◌, length, take, drop};
ghost use Rattle.td_limits.specs.declared.limits.TheConstants.{BLOCK_ROWS};
ghost use Rattle.td_fileio.specs.Lists.{in_blocks, all_blocks};

use td_cols::Kind;
use td_layer::{Partial, Seq};
use td_limits::BLOCK_ROWS;

/// What a file has of a table: its number, the kinds of its columns but the timestamp, its cuts, and its rows as
/// timestamps and partials.
#[derive(Debug, Drop)]
pub struct TableRows {
    pub table: u32,
    pub kinds: Seq<Kind>,
    pub cuts: Seq<(u64, u64)>,
    pub rows: Seq<(u64, Partial)>,
}

/// What a file has: tables in rising order of their numbers.
#[derive(Debug, Drop)]
pub struct RowList {
    pub tables: Seq<TableRows>,
}

/// The rows of the first block of some rows, and the others.
pub fn next_block(rows: &[(u64, Partial)]) -> (&[(u64, Partial)], &[(u64, Partial)])
    ensures first { result.0.now ≡ take BLOCK_ROWS rows.now }
    ensures others { result.1.now ≡ drop BLOCK_ROWS rows.now }
{
    let most = BLOCK_ROWS as usize;
    if rows.len() <= most {
        return (rows, &[]);
    }
    rows.split_at(most)
}

// How many blocks the rows of a table take.
#[tactic(auto, using(crate::proofs::ListLaws::blocks_end))]
fn count_table(rows: &[(u64, Partial)]) -> u32
    requires { length (in_blocks rows.now) < 2 ^ 32 }
    ensures { result ≡ length (in_blocks rows.now) }
{
    let mut count = 0;
    let mut left = rows;
    while left.len() > 0 {
        let (_, rest) = next_block(left);
        count += 1;
        left = rest;
    }
    count
}

/// How many blocks all tables have.
pub fn count_blocks(tables: &[TableRows]) -> u32
    requires { length (all_blocks tables.now) < 2 ^ 32 }
    ensures { result ≡ length (all_blocks tables.now) }
{
    let mut count = 0;
    let mut left = tables;
    while let Some((table, rest)) = left.split_first() {
        count += count_table(table.rows.as_slice());
        left = rest;
    }
    count
}
