//! Writing a file.
ghost use Rattle.std.specs.Prelude.{◌≡◌, ℕ, ◌+◌, ◌<◌, ◌^◌, ◌≤◌, [], ◌++◌, length, IfOk, IfSome, OnOk, map};
ghost use Rattle.std.specs.Option.{option_map};
ghost use Rattle.std.specs.List.{flat_map, AllByRecursion};
ghost use Rattle.std.specs.Int.{w32, w64, to_le_bytes};
ghost use Rattle.std.specs.Io.KnownBytes.{append_known};
ghost use Rattle.td_outside.specs.Causes.{HasFault};
ghost use Rattle.td_fileio.specs.Lists.{all_blocks, table_blocks, in_blocks, AreTableRows, IsRowList};
ghost use Rattle.td_fileio.specs.Writing.{Adds};
ghost use Rattle.td_sttfile.specs.Written.{all_cuts, table_cuts, cut_bytes, bytes_of_block, bytes_of_list, CanWrite};

use crate::format::{FILE_END, FILE_MAGIC};
use std::alloc::Global;
use td_block::encode;
use td_fileio::{RowList, TableRows, count_blocks, flush, next_block, put};
use td_outside::{IoFault, Writer};

// Adds a number of 32 bits.
fn put_u32<W: Writer>(
    alloc: Global,
    out: &mut W,
    waiting: &mut Vec<u8>,
    number: u32,
) -> Result<(), IoFault>
    ensures { Adds (append_known (W.written out.old) waiting.old.items)
        (append_known (W.written out.new) waiting.new.items)
        (W.name out.old) (W.name out.new) (W.count out.old) (W.count out.new) result
        (to_le_bytes w32 number) }
{
    put(alloc, out, waiting, &number.to_le_bytes())?;
    Ok(())
}

// Adds a number of 64 bits.
fn put_u64<W: Writer>(
    alloc: Global,
    out: &mut W,
    waiting: &mut Vec<u8>,
    number: u64,
) -> Result<(), IoFault>
    ensures { Adds (append_known (W.written out.old) waiting.old.items)
        (append_known (W.written out.new) waiting.new.items)
        (W.name out.old) (W.name out.new) (W.count out.old) (W.count out.new) result
        (to_le_bytes w64 number) }
{
    put(alloc, out, waiting, &number.to_le_bytes())?;
    Ok(())
}

// Adds a cut.
fn put_cut<W: Writer>(
    alloc: Global,
    out: &mut W,
    waiting: &mut Vec<u8>,
    table: u32,
    lo: u64,
    hi: u64,
) -> Result<(), IoFault>
    ensures { Adds (append_known (W.written out.old) waiting.old.items)
        (append_known (W.written out.new) waiting.new.items)
        (W.name out.old) (W.name out.new) (W.count out.old) (W.count out.new) result
        (cut_bytes (record { table = table; lo = lo; hi = hi })) }
{
    put_u32(alloc, out, waiting, table)?;
    put_u64(alloc, out, waiting, lo)?;
    put_u64(alloc, out, waiting, hi)?;
    Ok(())
}

// Adds the cuts of a table.
fn put_table_cuts<W: Writer>(
    alloc: Global,
    out: &mut W,
    waiting: &mut Vec<u8>,
    table: u32,
    cuts: &[(u64, u64)],
) -> Result<(), IoFault>
    ensures { Adds (append_known (W.written out.old) waiting.old.items)
        (append_known (W.written out.new) waiting.new.items)
        (W.name out.old) (W.name out.new) (W.count out.old) (W.count out.new) result
        (flat_map cut_bytes (map (λ (c : ℕ × ℕ). record { table = table; lo = c.0; hi = c.1 }) cuts.now)) }
{
    let mut left = cuts;
    while let Some((cut, rest)) = left.split_first() {
        put_cut(alloc, out, waiting, table, cut.0, cut.1)?;
        left = rest;
    }
    Ok(())
}

// Adds the cuts of all tables.
fn put_cuts<W: Writer>(
    alloc: Global,
    out: &mut W,
    waiting: &mut Vec<u8>,
    tables: &[TableRows],
) -> Result<(), IoFault>
    ensures { Adds (append_known (W.written out.old) waiting.old.items)
        (append_known (W.written out.new) waiting.new.items)
        (W.name out.old) (W.name out.new) (W.count out.old) (W.count out.new) result
        (flat_map cut_bytes (all_cuts tables.now)) }
{
    let mut left = tables;
    while let Some((table, rest)) = left.split_first() {
        put_table_cuts(alloc, out, waiting, table.table, table.cuts.as_slice())?;
        left = rest;
    }
    Ok(())
}

// How many cuts all tables have.
fn count_cuts(tables: &[TableRows]) -> u32
    requires { length (all_cuts tables.now) < 2 ^ 32 }
    ensures { result ≡ length (all_cuts tables.now) }
{
    let mut count = 0;
    let mut left = tables;
    while let Some((table, rest)) = left.split_first() {
        count += table.cuts.len() as u32;
        left = rest;
    }
    count
}

// Adds the blocks of a table.
fn put_table<W: Writer>(
    alloc: Global,
    out: &mut W,
    waiting: &mut Vec<u8>,
    range: u32,
    table: &TableRows,
) -> Result<(), IoFault>
    requires { AreTableRows range table.now }
    ensures { Adds (append_known (W.written out.old) waiting.old.items)
        (append_known (W.written out.new) waiting.new.items)
        (W.name out.old) (W.name out.new) (W.count out.old) (W.count out.new) result
        (flat_map bytes_of_block (table_blocks table.now)) }
{
    let mut left = table.rows.as_slice();
    while left.len() > 0 {
        let (rows, rest) = next_block(left);
        let block = encode(alloc, table.table, table.kinds.as_slice(), rows)?;
        put(alloc, out, waiting, block.as_slice())?;
        left = rest;
    }
    Ok(())
}

// Adds the blocks of all tables.
fn put_tables<W: Writer>(
    alloc: Global,
    out: &mut W,
    waiting: &mut Vec<u8>,
    range: u32,
    tables: &[TableRows],
) -> Result<(), IoFault>
    requires { AllByRecursion (AreTableRows range) tables.now }
    ensures { Adds (append_known (W.written out.old) waiting.old.items)
        (append_known (W.written out.new) waiting.new.items)
        (W.name out.old) (W.name out.new) (W.count out.old) (W.count out.new) result
        (flat_map bytes_of_block (all_blocks tables.now)) }
{
    let mut left = tables;
    while let Some((table, rest)) = left.split_first() {
        put_table(alloc, out, waiting, range, table)?;
        left = rest;
    }
    Ok(())
}

// Adds a whole file.
fn put_file<W: Writer>(
    alloc: Global,
    out: &mut W,
    waiting: &mut Vec<u8>,
    range: u32,
    tables: &[TableRows],
) -> Result<(), IoFault>
    requires { CanWrite range tables.now }
    ensures { Adds (append_known (W.written out.old) waiting.old.items)
        (append_known (W.written out.new) waiting.new.items)
        (W.name out.old) (W.name out.new) (W.count out.old) (W.count out.new) result
        (bytes_of_list range tables.now) }
{
    put_u32(alloc, out, waiting, FILE_MAGIC)?;
    put_u32(alloc, out, waiting, range)?;
    put_u32(alloc, out, waiting, count_cuts(tables))?;
    put_cuts(alloc, out, waiting, tables)?;
    put_u32(alloc, out, waiting, count_blocks(tables))?;
    put_tables(alloc, out, waiting, range, tables)?;
    put_u32(alloc, out, waiting, FILE_END)?;
    Ok(())
}

/// Writes a file of a day range with these tables, their cuts and their rows, to a writer that has nothing yet.
/// `Failed` comes only where the writer's count of faults rose.
pub fn write_file<W: Writer>(
    alloc: Global,
    out: &mut W,
    range: u32,
    rows: RowList,
) -> Result<(), IoFault>
    requires empty { IfSome (W.written out.old) (λ bytes. bytes ≡ []) }
    requires rows { CanWrite range rows.tables }
    ensures ok { OnOk result (W.written out.new
        ≡ option_map (λ _. bytes_of_list range rows.tables) (W.written out.old)) }
    ensures name { W.name out.new ≡ W.name out.old }
    ensures cause { HasFault (W.count out.old) (W.count out.new) result }
{
    let mut waiting = Vec::new(alloc);
    put_file(alloc, out, &mut waiting, range, rows.tables.as_slice())?;
    flush(alloc, out, &mut waiting)?;
    Ok(())
}
