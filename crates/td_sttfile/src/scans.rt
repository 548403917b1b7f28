//! Scans of files.
ghost use Rattle.std.specs.Prelude.{◌≡◌, ◌+◌, ◌<◌, false, true, [], map, reverse, IfOk, IfErr, IfSome, OnOk, OnErr, None};
ghost use Rattle.std.specs.Option.{option_map};
ghost use Rattle.std.specs.List.{AllByRecursion};
ghost use Rattle.td_layer.specs.Columns.{AreColumnCells};
ghost use Rattle.td_layer.specs.Scans.{HasScanCause, GivesFirst, given, is_cut};
ghost use Rattle.td_layer.specs.Keys.{InKeyOrder};
ghost use Rattle.td_fileio.specs.Reading.{IsAhead, IsSameFile};
ghost use Rattle.td_sttfile.specs.Opening.{as_cut};
ghost use Rattle.td_sttfile.specs.Scanned.{wanted_of, scanned};
ghost use Rattle.td_sttfile.specs.Scanning.{want_of, Keeps, Faults, damaged_of, cuts_of, IsNextRow, IsSameScan, IsSound, ComesLast};

use crate::blocks::{Found, Spot, Wanted, block_at};
use crate::format::FileCut;
use crate::opening::opening_at;
use std::alloc::Global;
use std::marker::Model;
use std::sync::ledger::Ledger;
use td_cols::Kind;
use td_fileio::{Ahead, FileBytes};
use td_layer::{Key, NoMem, Partial, RowScan, ScanFault, Seq, Steps};

// ---- steps

// Whether a key lies in one of some cuts.
fn lies_in_any(cuts: &[FileCut], key: Key) -> bool
    ensures { result ≡ is_cut key (map as_cut cuts.now) }
{
    let mut left = cuts;
    while let Some((cut, rest)) = left.split_first() {
        if cut.table == key.table && cut.lo <= key.ts && key.ts <= cut.hi {
            return true;
        }
        left = rest;
    }
    false
}

// The rows from one timestamp to another, the last first.
fn wanted_of(
    alloc: Global,
    lo: u64,
    hi: u64,
    rows: Seq<(u64, Partial)>,
) -> Result<Seq<(u64, Partial)>, NoMem>
    ensures { IfOk result (λ wanted. reverse wanted ≡ wanted_of lo hi rows) }
{
    let mut left = rows;
    let mut wanted = Seq::from_vec(alloc, Vec::with_capacity(alloc, left.len())?);
    while let Some(row) = left.pop() {
        if lo <= row.0 && row.0 <= hi {
            wanted.add(row)?;
        }
    }
    Ok(wanted)
}

// Reads one block, where no row waits.
fn read_block<F: FileBytes>(
    alloc: Global,
    file: &mut F,
    ahead: &mut Ahead,
    wanted: &Wanted<'_>,
    spot: &mut Spot,
    rows: &mut Seq<(u64, Partial)>,
) -> Result<(), ScanFault>
    requires some { 0 < spot.old.blocks }
    requires rows { rows.old ≡ [] }
    requires ahead { IsAhead (F.bytes file.old) ahead.old.from ahead.old.bytes }
    ensures keeps { IfSome (F.bytes file.old) (Keeps (want_of wanted.now) rows.old rows.new spot.old spot.new) }
    ensures values { AllByRecursion (λ row. AreColumnCells row.1.cells) rows.new }
    ensures less { OnOk result (spot.new.blocks < spot.old.blocks) }
    ensures faults { IfErr result (Faults (want_of wanted.now) (F.bytes file.old) (F.file file.old) spot.new) }
    ensures rows_stay { OnErr result (rows.new ≡ []) }
    ensures ahead { IsAhead (F.bytes file.new) ahead.new.from ahead.new.bytes }
    ensures file { IsSameFile (F.bytes file.old) (F.bytes file.new) (F.file file.old) (F.file file.new)
        (F.size file.old) (F.size file.new) }
    ensures cause { HasScanCause None (F.count file.old) (F.count file.new) result }
{
    let found = block_at(alloc, file, ahead, wanted, *spot)?;
    match found {
        None => spot.blocks = 0,
        Some(found) => {
            let Found {
                rows: all,
                next,
                last,
            } = found;
            *rows = wanted_of(alloc, wanted.lo, wanted.hi, all)?;
            spot.blocks -= 1;
            spot.at = next;
            spot.last = last;
        }
    }
    Ok(())
}

// Reads blocks until a row waits or no block is left.
fn fill<F: FileBytes>(
    alloc: Global,
    file: &mut F,
    ahead: &mut Ahead,
    wanted: &Wanted<'_>,
    spot: &mut Spot,
    rows: &mut Seq<(u64, Partial)>,
) -> Result<(), ScanFault>
    requires values { AllByRecursion (λ row. AreColumnCells row.1.cells) rows.old }
    requires ahead { IsAhead (F.bytes file.old) ahead.old.from ahead.old.bytes }
    ensures keeps { IfSome (F.bytes file.old) (Keeps (want_of wanted.now) rows.old rows.new spot.old spot.new) }
    ensures values { AllByRecursion (λ row. AreColumnCells row.1.cells) rows.new }
    ensures ends { OnOk result (rows.new ≡ [] → spot.new.blocks ≡ 0) }
    ensures faults { IfErr result (Faults (want_of wanted.now) (F.bytes file.old) (F.file file.old) spot.new) }
    ensures rows_stay { OnErr result (rows.new ≡ []) }
    ensures ahead { IsAhead (F.bytes file.new) ahead.new.from ahead.new.bytes }
    ensures file { IsSameFile (F.bytes file.old) (F.bytes file.new) (F.file file.old) (F.file file.new)
        (F.size file.old) (F.size file.new) }
    ensures cause { HasScanCause None (F.count file.old) (F.count file.new) result }
{
    while rows.is_empty() && spot.blocks > 0 {
        read_block(alloc, file, ahead, wanted, spot, rows)?;
    }
    Ok(())
}

// The first of the rows of a table that wait, of which the last comes first, as a partial by key.
fn next_row(table: u32, rows: &mut Seq<(u64, Partial)>) -> Option<(Key, Partial)>
    ensures { IsNextRow table rows.old rows.new result }
{
    match rows.pop() {
        None => None,
        Some((ts, partial)) => Some((Key { table, ts }, partial)),
    }
}

/// A scan of a file: the partials of a table in a range of timestamps, by key, with the file's cuts. Contracts see what
/// it wants, its file, and what is left of it, where the file tells its bytes. The first call of `next` reads what
/// stands before the blocks; blocks are read one by one as their rows are asked for.
pub struct FileScan<'a, F: FileBytes> {
    alloc: Global,
    file: F,
    ahead: Ahead,
    wanted: Wanted<'a>,
    begun: bool,
    cuts: Seq<FileCut>,
    spot: Spot,
    // The rows of a block that wait, the last first.
    rows: Seq<(u64, Partial)>,
}

impl<'a, F: FileBytes> Model for FileScan<'a, F> {
    ghost use Rattle.td_sttfile.specs.Scanning.{want_of, Scan, left_of, IsScan};

    ghost Value = { Scan };

    ghost view = { λ s. record {
      want = want_of s.wanted;
      told = F.bytes s.file;
      file = F.file s.file;
      size = F.size s.file;
      count = F.count s.file;
      begun = s.begun;
      left = left_of (want_of s.wanted) (F.bytes s.file) s.begun s.rows s.spot;
    } };

    ghost invariant = { λ s. IsScan (want_of s.wanted) (F.bytes s.file) s.begun s.ahead.from s.ahead.bytes
        s.cuts s.rows s.spot };
}

impl<'a, F: FileBytes> FileScan<'a, F> {
    // A scan that has read nothing yet.
    fn new(alloc: Global, file: F, wanted: Wanted<'a>) -> FileScan<'a, F>
        ensures want { result.want ≡ want_of wanted.entry }
        ensures told { result.told ≡ F.bytes file }
        ensures file { result.file ≡ F.file file }
        ensures size { result.size ≡ F.size file }
        ensures count { result.count ≡ F.count file }
        ensures begun { result.begun ≡ false }
        ensures left { result.left
            ≡ option_map (λ all. (scanned (want_of wanted.entry) all).partials) (F.bytes file) }
    {
        FileScan {
            alloc,
            file,
            ahead: Ahead::new(alloc),
            wanted,
            begun: false,
            cuts: Seq::new(alloc),
            spot: Spot {
                range: 0,
                blocks: 0,
                at: 0,
                last: Key { table: 0, ts: 0 },
            },
            rows: Seq::new(alloc),
        }
    }

    // Reads what stands before the blocks, where that isn't done yet.
    fn begin(&mut self) -> Result<(), ScanFault>
        ensures in_order { IfSome self.old.left InKeyOrder }
        ensures left { self.new.left ≡ self.old.left }
        ensures same { IsSameScan self.old self.new }
        ensures ok { OnOk result (self.new.begun ≡ true) }
        ensures err { OnErr result (self.new.begun ≡ self.old.begun) }
        ensures last { IfErr result (ComesLast self.old.left) }
        ensures cause { HasScanCause (damaged_of self.old) self.old.count self.new.count result }
    {
        if self.begun {
            return Ok(());
        }
        let (opening, at) = opening_at(self.alloc, &mut self.file, &mut self.ahead)?;
        self.spot = Spot {
            range: opening.range,
            blocks: opening.blocks,
            at,
            last: Key { table: 0, ts: 0 },
        };
        self.cuts = opening.cuts;
        self.begun = true;
        Ok(())
    }

    // The first of the partials that are left, of a scan that has begun.
    fn take(&mut self) -> Result<Option<(Key, Partial)>, ScanFault>
        requires { self.old.begun ≡ true }
        ensures partials { GivesFirst self.old.left self.new.left result }
        ensures values { IfOk result (λ o. IfSome o (λ p. AreColumnCells p.1.cells)) }
        ensures sound { IfOk result (λ o. o ≡ None → IsSound self.old) }
        ensures same { IsSameScan self.old self.new }
        ensures begun { self.new.begun ≡ true }
        ensures last { IfErr result (ComesLast self.old.left) }
        ensures cause { HasScanCause (damaged_of self.old) self.old.count self.new.count result }
    {
        fill(
            self.alloc,
            &mut self.file,
            &mut self.ahead,
            &self.wanted,
            &mut self.spot,
            &mut self.rows,
        )?;
        let given = next_row(self.wanted.table, &mut self.rows);
        Ok(given)
    }

    /// The reader, which has read what the scan did, and has its faults.
    pub fn into_reader(self) -> F
        ensures told { F.bytes result ≡ self.entry.told }
        ensures file { F.file result ≡ self.entry.file }
        ensures size { F.size result ≡ self.entry.size }
        ensures count { F.count result ≡ self.entry.count }
    {
        let FileScan {
            alloc: _,
            file,
            ahead: _,
            wanted: _,
            begun: _,
            cuts: _,
            spot: _,
            rows: _,
        } = self;
        file
    }
}

/// A scan of a file for the partials of a table, by number, with columns of these kinds, from `lo` to `hi`, both among
/// them. It reads nothing yet.
pub fn scan<'a, F: FileBytes>(
    alloc: Global,
    file: F,
    table: u32,
    kinds: &'a [Kind],
    lo: u64,
    hi: u64,
) -> FileScan<'a, F>
    ensures want { result.want ≡ record { table = table; kinds = kinds.now; lo = lo; hi = hi } }
    ensures told { result.told ≡ F.bytes file }
    ensures file { result.file ≡ F.file file }
    ensures size { result.size ≡ F.size file }
    ensures count { result.count ≡ F.count file }
    ensures begun { result.begun ≡ false }
    ensures left { result.left ≡ option_map (λ all. (scanned result.want all).partials) (F.bytes file) }
{
    let wanted = Wanted {
        table,
        kinds,
        lo,
        hi,
    };
    FileScan::new(alloc, file, wanted)
}

impl<'a, F: FileBytes> RowScan for FileScan<'a, F> {
    ghost left = { λ s. s.left };

    ghost cuts = { cuts_of };

    ghost has_begun = { λ s. s.begun };

    ghost damaged = { damaged_of };

    ghost count = { λ s. s.count };

    /// What [`RowScan::next`] says. An end comes only where what was read has no fault, and `Damaged` only once each
    /// partial before the damaged bytes was given.
    fn next<L: Ledger>(&mut self, steps: &mut Steps<L>) -> Result<Option<(Key, Partial)>, ScanFault>
        ensures partials { GivesFirst self.old.left self.new.left result }
        ensures in_order { IfSome self.old.left InKeyOrder }
        ensures values { IfOk result (λ o. IfSome o (λ p. AreColumnCells p.1.cells)) }
        ensures cuts { cuts_of self.new ≡ cuts_of self.old }
        ensures begun { OnOk result (self.new.begun ≡ true) }
        ensures stays_begun { self.old.begun ≡ true → self.new.begun ≡ true }
        ensures damaged { damaged_of self.new ≡ damaged_of self.old }
        ensures fault { HasScanCause (damaged_of self.old) self.old.count self.new.count result }
        ensures steps { steps.new ≡ steps.old + given result }
        ensures sound { IfOk result (λ o. o ≡ None → IsSound self.old) }
        ensures last { IfErr result (ComesLast self.old.left) }
        ensures same { IsSameScan self.old self.new }
    {
        self.begin()?;
        let Some(given) = self.take()? else {
            return Ok(None);
        };
        steps.tick();
        Ok(Some(given))
    }

    fn cut_at(&self, key: Key) -> bool {
        lies_in_any(self.cuts.as_slice(), key)
    }

    fn faults(&self) -> u64 {
        self.file.faults()
    }
}
