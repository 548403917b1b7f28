//! The tables of a memtable in a day range.
ghost use Rattle.std.specs.Prelude.{◌≡◌, ◌==◌, ◌+◌, ◌-◌, ◌^◌, ◌<◌, ◌≤◌, ◌++◌, [], ◌∷◌, length, slice_get, Some, IfOk, OnOk, MatchOption};
ghost use Rattle.std.specs.List.{cons_option};
ghost use Rattle.std.specs.Ordering.{nat_cmp};
ghost use Rattle.td_layer.specs.Keys.{RisesBy, InKeyOrder};
ghost use Rattle.td_memtable.specs.Contents.{ranges_of};
ghost use Rattle.td_commit.specs.Clipped.{rows_in_day, clip, clipped, AreCutsIn, IsTableIn, IsEmptyIn, AreTablesFrom};
ghost use Rattle.td_commit.specs.Sound.{IsSound};

use crate::frozen::Frozen;
use std::alloc::Global;
use std::marker::Brand;
use std::sync::ledger::{Blank, Ledger};
use td_cols::Kind;
use td_fileio::{RowList, TableRows, day_end, day_start};
use td_layer::{Key, NoMem, Partial, RowScan, Seq, Steps};
use td_memtable::{MemScan, Memtable};

// Adds an item at the end, where there is one.
fn add_some<T: Drop>(list: &mut Seq<T>, item: Option<T>) -> Result<(), NoMem>
    ensures { OnOk result (list.new ≡ list.old ++ cons_option item []) }
{
    match item {
        None => Ok(()),
        Some(item) => {
            list.add(item)?;
            Ok(())
        }
    }
}

// ---- rows

// The next put of a scan of a memtable, which stops only for want of memory.
fn next_put<L: Ledger>(
    scan: &mut MemScan<'_>,
    steps: &mut Steps<L>,
) -> Result<Option<(Key, Partial)>, NoMem>
    ensures order { InKeyOrder scan.old.left }
    ensures put { IfOk result (λ o. MatchOption o ((scan.old.left ≡ []) × (scan.new.left ≡ []))
        (λ x. scan.old.left ≡ x ∷ scan.new.left)) }
{
    match scan.next(steps) {
        Ok(put) => Ok(put),
        Err(_) => Err(NoMem),
    }
}

// The puts of a table in a day range, by timestamp.
fn rows_in<L: Ledger>(
    alloc: Global,
    memtable: &Memtable,
    range: u32,
    table: u32,
    blank: Blank,
) -> Result<Seq<(u64, Partial)>, NoMem>
    requires name { blank.name ≡ L.name }
    requires parts { blank.parts ≡ L.parts }
    requires some { 0 < blank.parts }
    ensures rows { IfOk result (λ rows. rows ≡ rows_in_day range table memtable.now.puts) }
    ensures rising { IfOk result (RisesBy nat_cmp) }
{
    let mut steps: Steps<L> = Steps::new(blank);
    let mut scan = memtable.scan(table, day_start(range), day_end(range));
    let mut rows = Seq::new(alloc);
    while let Some((key, partial)) = next_put(&mut scan, &mut steps)? {
        rows.add((key.ts, partial))?;
    }
    Ok(rows)
}

// ---- cuts

// The part of a range of timestamps that lies in a day range.
fn clip(range: u32, cut: (u64, u64)) -> Option<(u64, u64)>
    ensures { result ≡ clip range cut }
{
    let lo = cut.0.max(day_start(range));
    let hi = cut.1.min(day_end(range));
    if lo <= hi { Some((lo, hi)) } else { None }
}

fn clipped(alloc: Global, range: u32, cuts: &[(u64, u64)]) -> Result<Seq<(u64, u64)>, NoMem>
    ensures { IfOk result (λ some. some ≡ clipped range cuts.now) }
{
    let mut some = Seq::new(alloc);
    let mut left = cuts;
    while let Some((cut, rest)) = left.split_first() {
        add_some(&mut some, clip(range, *cut))?;
        left = rest;
    }
    Ok(some)
}

// The cuts of a table, joined, as far as they lie in a day range.
fn cuts_in(
    alloc: Global,
    memtable: &Memtable,
    range: u32,
    table: u32,
) -> Result<Seq<(u64, u64)>, NoMem>
    ensures { IfOk result (AreCutsIn range (ranges_of table memtable.now.cuts)) }
{
    let joined = memtable.cuts(table)?;
    let cuts = clipped(alloc, range, joined.as_slice())?;
    Ok(cuts)
}

// ---- tables

// Whether there is neither a row nor a cut.
fn are_none(rows: &Seq<(u64, Partial)>, cuts: &Seq<(u64, u64)>) -> bool
    ensures { result ≡ (length rows.now + length cuts.now == 0) }
{
    rows.is_empty() && cuts.is_empty()
}

// The kinds of a table.
fn kinds_of(alloc: Global, kinds: &Seq<Seq<Kind>>, table: u32) -> Result<Seq<Kind>, NoMem>
    requires some { 1 ≤ table }
    requires few { table ≤ length kinds.now }
    ensures { IfOk result (λ own. slice_get kinds.now (table - 1) ≡ Some own) }
{
    match kinds.get(table as usize - 1) {
        None => unreachable!(),
        Some(own) => {
            let own = Vec::from_slice(alloc, own.as_slice())?;
            Ok(Seq::from_vec(alloc, own))
        }
    }
}

// What a file of a day range has of a table: the kinds of its columns, its puts there as rows by timestamp, and its
// cuts as far as they lie there, joined. None comes exactly where the table has neither a put nor a cut there. The
// table, by number, has its kinds.
fn table_in(
    alloc: Global,
    frozen: &Frozen,
    range: u32,
    table: u32,
) -> Result<Option<TableRows>, NoMem>
    requires some { 1 ≤ table }
    requires few { table ≤ length frozen.now.kinds }
    ensures { IfOk result (λ found. MatchOption found (IsEmptyIn frozen.now range table)
        (λ t. (t.table ≡ table) × IsTableIn frozen.now range t)) }
{
    let rows = rows_in::<Brand>(alloc, &frozen.memtable, range, table, Blank::new(1))?;
    let cuts = cuts_in(alloc, &frozen.memtable, range, table)?;
    if are_none(&rows, &cuts) {
        return Ok(None);
    }
    let kinds = kinds_of(alloc, &frozen.kinds, table)?;
    Ok(Some(TableRows {
        table,
        kinds,
        cuts,
        rows,
    }))
}

/// What a file of a day range has: each table with a put or a cut there, by number, and no other. For each table that
/// the memtable has a part of it takes the time of some look-ups, and then that of its puts there and of all its cuts.
pub(crate) fn tables_in(alloc: Global, frozen: &Frozen, range: u32) -> Result<RowList, NoMem>
    requires { IsSound frozen.now }
    ensures { IfOk result (λ list. AreTablesFrom frozen.now range 1 list.tables) }
{
    let mut tables = Seq::new(alloc);
    let mut from = 1;
    while let Some(table) = frozen.memtable.table_from(from) {
        let found = table_in(alloc, frozen, range, table)?;
        add_some(&mut tables, found)?;
        if table == u32::MAX {
            return Ok(RowList { tables });
        }
        from = table + 1;
    }
    Ok(RowList { tables })
}
