//! Writing a file.
ghost use Rattle.std.specs.Prelude.{◌≡◌, ℕ, ◌+◌, ◌-◌, ◌*◌, ◌<◌, ◌^◌, ◌≤◌, [], ◌++◌, length, map, slice_index, IfOk, IfSome, OnOk};
ghost use Rattle.std.specs.Option.{option_map};
ghost use Rattle.std.specs.List.{flat_map, AllByRecursion};
ghost use Rattle.std.specs.Int.{w32, w64, to_le_bytes};
ghost use Rattle.std.specs.Io.KnownBytes.{append_known};
ghost use Rattle.td_outside.specs.Causes.{HasFault};
ghost use Rattle.td_limits.specs.declared.limits.TheConstants.{BLOCK_ROWS};
ghost use Rattle.td_layer.specs.Columns.{AreColumnCells};
ghost use Rattle.td_block.specs.Rows.{CanHold, times_of};
ghost use Rattle.td_block.specs.Blocks.{block_bytes};
ghost use Rattle.td_fileio.specs.Lists.{all_blocks, table_blocks, AreTableRows};
ghost use Rattle.td_fileio.specs.Writing.{Adds};
ghost use Rattle.td_datafile.specs.Sums.{summaries};
ghost use Rattle.td_datafile.specs.Index.{bytes_of_block, entry_of, index_of, wide_bytes, summary_bytes, entry_bytes};
ghost use Rattle.td_datafile.specs.Written.{blocks_begin, bytes_of_list, CanWrite};

use crate::format::{FILE_END, FILE_MAGIC, Summary};
use crate::sums::summary_at;
use std::alloc::Global;
use td_block::encode;
use td_codec::{put_i128, put_u16, put_u32 as push_u32, put_u64 as push_u64};
use td_cols::Kind;
use td_fileio::{RowList, TableRows, count_blocks, flush, next_block, put};
use td_layer::{Name, NoMem, Partial, Seq};
use td_outside::{IoFault, Writer};

// ---- the index

// Adds a number of 128 bits to the bytes of the index.
fn push_wide(index: &mut Name, number: i128) -> Result<(), NoMem>
    ensures { OnOk result (index.new ≡ index.old ++ wide_bytes number) }
{
    put_i128(index, number)?;
    Ok(())
}

// Adds a summary to the bytes of the index.
#[tactic(auto, using(std::proofs::lemmas::List::append_assoc))]
fn push_summary(index: &mut Name, summary: Summary) -> Result<(), NoMem>
    ensures { OnOk result (index.new ≡ index.old ++ summary_bytes summary) }
{
    push_u32(index, summary.count)?;
    push_wide(index, summary.sum)?;
    push_wide(index, summary.least)?;
    push_wide(index, summary.greatest)?;
    Ok(())
}

// Adds the summaries of the columns of a block.
fn push_summaries(index: &mut Name, columns: usize, rows: &[(u64, Partial)]) -> Result<(), NoMem>
    requires few { length rows.now ≤ BLOCK_ROWS }
    requires values { AllByRecursion (λ row. AreColumnCells row.1.cells) rows.now }
    ensures { OnOk result (index.new ≡ index.old ++ flat_map summary_bytes (summaries columns rows.now)) }
{
    for column in 0..columns {
        push_summary(index, summary_at(rows, column))?;
    }
    Ok(())
}

// The first and the last timestamp of rows.
fn ends_of(rows: &[(u64, Partial)]) -> (u64, u64)
    requires { 1 ≤ length rows.now }
    ensures first { result.0 ≡ slice_index (times_of rows.now) 0 }
    ensures last { result.1 ≡ slice_index (times_of rows.now) (length rows.now - 1) }
{
    (rows[0].0, rows[rows.len() - 1].0)
}

// Adds the entry of the block of these rows of a table, which begins at a place and takes so many bytes.
#[tactic(auto, using(std::proofs::lemmas::List::append_assoc))]
fn push_entry(
    index: &mut Name,
    place: u64,
    size: u32,
    table: u32,
    kinds: &[Kind],
    rows: &[(u64, Partial)],
) -> Result<(), NoMem>
    requires size { size ≡ length (block_bytes kinds.now table rows.now) }
    requires holds { CanHold kinds.now table rows.now }
    ensures { OnOk result (index.new ≡ index.old
        ++ entry_bytes (entry_of place (record { table = table; kinds = kinds.now; rows = rows.now }))) }
{
    let (first, last) = ends_of(rows);
    push_u64(index, place)?;
    push_u32(index, size)?;
    push_u32(index, table)?;
    push_u32(index, rows.len() as u32)?;
    push_u64(index, first)?;
    push_u64(index, last)?;
    put_u16(index, kinds.len() as u16)?;
    push_summaries(index, kinds.len(), rows)?;
    Ok(())
}

// ---- blocks

// Adds a number of 32 bits.
fn put_u32<W: Writer>(
    alloc: Global,
    out: &mut W,
    waiting: &mut Vec<u8>,
    number: u32,
) -> Result<(), IoFault>
    ensures { Adds (append_known (W.written out.old) waiting.old.items)
        (append_known (W.written out.new) waiting.new.items)
        (W.name out.old) (W.name out.new) (W.count out.old) (W.count out.new) result
        (to_le_bytes w32 number) }
{
    put(alloc, out, waiting, &number.to_le_bytes())?;
    Ok(())
}

// Adds a number of 64 bits.
fn put_u64<W: Writer>(
    alloc: Global,
    out: &mut W,
    waiting: &mut Vec<u8>,
    number: u64,
) -> Result<(), IoFault>
    ensures { Adds (append_known (W.written out.old) waiting.old.items)
        (append_known (W.written out.new) waiting.new.items)
        (W.name out.old) (W.name out.new) (W.count out.old) (W.count out.new) result
        (to_le_bytes w64 number) }
{
    put(alloc, out, waiting, &number.to_le_bytes())?;
    Ok(())
}

// The block of rows of a table, which begins at a place, and its entry, which is added to the index.
fn indexed_block(
    alloc: Global,
    index: &mut Name,
    place: u64,
    table: u32,
    kinds: &[Kind],
    rows: &[(u64, Partial)],
) -> Result<Seq<u8>, NoMem>
    requires { CanHold kinds.now table rows.now }
    ensures block { IfOk result (λ bytes. bytes ≡ block_bytes kinds.now table rows.now) }
    ensures few { IfOk result (λ bytes. length bytes < 2 ^ 30) }
    ensures entry { OnOk result (index.new ≡ index.old
        ++ entry_bytes (entry_of place (record { table = table; kinds = kinds.now; rows = rows.now }))) }
{
    let block = encode(alloc, table, kinds, rows)?;
    push_entry(index, place, block.len() as u32, table, kinds, rows)?;
    Ok(block)
}

// Adds the blocks of a table, the first of which begins at a place, and their entries to the index. It gives the place
// behind them.
fn put_table<W: Writer>(
    alloc: Global,
    out: &mut W,
    waiting: &mut Vec<u8>,
    index: &mut Name,
    place: u64,
    range: u32,
    table: &TableRows,
) -> Result<u64, IoFault>
    requires rows { AreTableRows range table.now }
    requires place { place + 2 ^ 30 * length (table_blocks table.now) < 2 ^ 63 }
    ensures adds { Adds (append_known (W.written out.old) waiting.old.items)
        (append_known (W.written out.new) waiting.new.items)
        (W.name out.old) (W.name out.new) (W.count out.old) (W.count out.new) result
        (flat_map bytes_of_block (table_blocks table.now)) }
    ensures index { OnOk result (index.new ≡ index.old
        ++ flat_map entry_bytes (index_of place (table_blocks table.now))) }
    ensures next { IfOk result (λ next. next
        ≡ place + length (flat_map bytes_of_block (table_blocks table.now))) }
    ensures few { IfOk result (λ next. next ≤ place + 2 ^ 30 * length (table_blocks table.now)) }
{
    let mut next = place;
    let mut left = table.rows.as_slice();
    while left.len() > 0 {
        let (rows, rest) = next_block(left);
        let block = indexed_block(
            alloc,
            index,
            next,
            table.table,
            table.kinds.as_slice(),
            rows,
        )?;
        put(alloc, out, waiting, block.as_slice())?;
        next += block.len() as u64;
        left = rest;
    }
    Ok(next)
}

// Adds the blocks of all tables, the first of which begins at a place, and their entries to the index. It gives the
// place behind them.
fn put_tables<W: Writer>(
    alloc: Global,
    out: &mut W,
    waiting: &mut Vec<u8>,
    index: &mut Name,
    place: u64,
    range: u32,
    tables: &[TableRows],
) -> Result<u64, IoFault>
    requires rows { AllByRecursion (AreTableRows range) tables.now }
    requires place { place + 2 ^ 30 * length (all_blocks tables.now) < 2 ^ 63 }
    ensures adds { Adds (append_known (W.written out.old) waiting.old.items)
        (append_known (W.written out.new) waiting.new.items)
        (W.name out.old) (W.name out.new) (W.count out.old) (W.count out.new) result
        (flat_map bytes_of_block (all_blocks tables.now)) }
    ensures index { OnOk result (index.new ≡ index.old
        ++ flat_map entry_bytes (index_of place (all_blocks tables.now))) }
    ensures next { IfOk result (λ next. next ≡ place + length (flat_map bytes_of_block (all_blocks tables.now))) }
{
    let mut next = place;
    let mut left = tables;
    while let Some((table, rest)) = left.split_first() {
        next = put_table(alloc, out, waiting, index, next, range, table)?;
        left = rest;
    }
    Ok(next)
}

// Adds a whole file.
fn put_file<W: Writer>(
    alloc: Global,
    out: &mut W,
    waiting: &mut Vec<u8>,
    range: u32,
    tables: &[TableRows],
) -> Result<(), IoFault>
    requires { CanWrite range tables.now }
    ensures { Adds (append_known (W.written out.old) waiting.old.items)
        (append_known (W.written out.new) waiting.new.items)
        (W.name out.old) (W.name out.new) (W.count out.old) (W.count out.new) result
        (bytes_of_list range tables.now) }
{
    let mut index = Seq::new(alloc);
    put_u32(alloc, out, waiting, FILE_MAGIC)?;
    put_u32(alloc, out, waiting, range)?;
    put_u32(alloc, out, waiting, count_blocks(tables))?;
    let end = put_tables(alloc, out, waiting, &mut index, 12, range, tables)?;
    put(alloc, out, waiting, index.as_slice())?;
    put_u64(alloc, out, waiting, end)?;
    put_u32(alloc, out, waiting, FILE_END)?;
    Ok(())
}

/// Writes a file of a day range with these tables and their rows, and the index of its blocks, to a writer that has
/// nothing yet. `Failed` comes only where the writer's count of faults rose.
pub fn write_file<W: Writer>(
    alloc: Global,
    out: &mut W,
    range: u32,
    rows: RowList,
) -> Result<(), IoFault>
    requires empty { IfSome (W.written out.old) (λ bytes. bytes ≡ []) }
    requires rows { CanWrite range rows.tables }
    ensures ok { OnOk result (W.written out.new
        ≡ option_map (λ _. bytes_of_list range rows.tables) (W.written out.old)) }
    ensures name { W.name out.new ≡ W.name out.old }
    ensures cause { HasFault (W.count out.old) (W.count out.new) result }
{
    let mut waiting = Vec::new(alloc);
    put_file(alloc, out, &mut waiting, range, rows.tables.as_slice())?;
    flush(alloc, out, &mut waiting)?;
    Ok(())
}
