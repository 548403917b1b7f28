//! The rows of a span of timestamps, of memtables and the files of one set.
ghost use Rattle.std.specs.Prelude.{◌≡◌, ℕ, ◌+◌, ◌≤◌, [], ◌∷◌, ◌++◌, map, length, sum, List, Some, None, IfOk, IfSome, OnOk};
ghost use Rattle.std.specs.List.{AllByRecursion};
ghost use Rattle.td_layer.specs.Columns.{AreColumnValues};
ghost use Rattle.td_layer.specs.Scans.{HasScanCause};
ghost use Rattle.td_memtable.specs.Contents.{Contents};
ghost use Rattle.td_fileset.specs.Stack.{rows_of};
ghost use Rattle.td_fileset.specs.Sources.{layer_of};
ghost use Rattle.td_fileset.specs.Merged.{nothing_merged, faults_of, rows_left, held, StaysSame};
ghost use Rattle.td_fileset.specs.Layered.{listed, memtable_layer};
ghost use Rattle.td_fileset.specs.Opened.{scan_left, scan_cuts, scan_damaged, scan_count, scan_reads, with_files, all_files, all_failed, HasRoom, HasPushed, span_of, told_file, told_damage, span_layers, span_places, timed, IsRead, shown_count};

use crate::any_scan::AnyScan;
use crate::merging::Merging;
use crate::scan::LayerScan;
use crate::set_readers::SetReaders;
use std::alloc::Global;
use std::sync::ledger::Ledger;
use td_cols::Kind;
use td_fileio::FileBytes;
use td_layer::{Key, NoMem, Row, ScanFault, Seq, Steps};
use td_memtable::Memtable;

/// A table, by number, with the kinds of its columns, from `lo` to `hi`, both among them.
#[derive(Clone, Copy)]
pub(crate) struct Span<'a> {
    pub(crate) table: u32,
    pub(crate) kinds: &'a [Kind],
    pub(crate) lo: u64,
    pub(crate) hi: u64,
}

impl<'a> Span<'a> {
    /// The same table, from `lo` to `hi`.
    pub(crate) fn between(self, lo: u64, hi: u64) -> Span<'a>
        ensures { span_of result ≡ record {
          table = self.entry.table;
          kinds = self.entry.kinds.now;
          lo = lo;
          hi = hi;
        } }
    {
        Span {
            table: self.table,
            kinds: self.kinds,
            lo,
            hi,
        }
    }
}

// ---- scans over one another

// Puts a scan over those of a merge. Where there is no memory its reader goes back to the set.
fn push_scan<'a, R: FileBytes>(
    merging: &mut Merging<AnyScan<'a, R>>,
    set: &mut SetReaders<R>,
    scan: AnyScan<'a, R>,
) -> Result<(), NoMem>
    requires { HasRoom (scan_reads scan ∷ merging.old.reads) set.old }
    ensures pushed { OnOk result (HasPushed (layer_of (scan_left scan.entry) (scan_cuts scan.entry) ∷ [])
        (scan_damaged scan.entry ∷ []) merging.old merging.new) }
    ensures waiting { merging.new.waiting ≡ merging.old.waiting }
    ensures room { HasRoom merging.new.reads set.new }
    ensures files { all_files merging.new set.new
        ≡ with_files (scan_reads scan.entry ∷ merging.old.reads) set.old.files }
    ensures failed { all_failed merging.new set.new ≡ all_failed merging.old set.old + scan_count scan.entry }
    ensures stays { OnOk result (set.new ≡ set.old) }
{
    match merging.push(scan) {
        Ok(()) => Ok(()),
        Err((scan, _)) => {
            set.give_back(scan);
            Err(NoMem)
        }
    }
}

// Puts a scan of the set's data file, where there is one, over those of a merge.
fn push_data<'a, R: FileBytes>(
    alloc: Global,
    merging: &mut Merging<AnyScan<'a, R>>,
    set: &mut SetReaders<R>,
    span: Span<'a>,
) -> Result<(), NoMem>
    requires { HasRoom merging.old.reads set.old }
    ensures pushed { OnOk result (HasPushed (map (told_file (span_of span.entry)) (listed set.old.files.main))
        (map (told_damage (span_of span.entry)) (listed set.old.files.main)) merging.old merging.new) }
    ensures waiting { merging.new.waiting ≡ merging.old.waiting }
    ensures room { HasRoom merging.new.reads set.new }
    ensures files { all_files merging.new set.new ≡ all_files merging.old set.old }
    ensures failed { all_failed merging.new set.new ≡ all_failed merging.old set.old }
    ensures stt { OnOk result (set.new.files.stt ≡ set.old.files.stt) }
    ensures main { OnOk result (set.new.files.main ≡ None) }
{
    let Some(reader) = set.take_data() else {
        return Ok(());
    };
    let scan = td_datafile::scan(alloc, reader, span.table, span.kinds, span.lo, span.hi);
    push_scan(merging, set, AnyScan::Data(scan))?;
    Ok(())
}

// Puts scans of the set's stt files over those of a merge, the oldest first.
fn push_stt<'a, R: FileBytes>(
    alloc: Global,
    merging: &mut Merging<AnyScan<'a, R>>,
    set: &mut SetReaders<R>,
    span: Span<'a>,
) -> Result<(), NoMem>
    requires { HasRoom merging.old.reads set.old }
    ensures pushed { OnOk result (HasPushed (map (told_file (span_of span.entry)) set.old.files.stt)
        (map (told_damage (span_of span.entry)) set.old.files.stt) merging.old merging.new) }
    ensures waiting { merging.new.waiting ≡ merging.old.waiting }
    ensures room { HasRoom merging.new.reads set.new }
    ensures files { all_files merging.new set.new ≡ all_files merging.old set.old }
    ensures failed { all_failed merging.new set.new ≡ all_failed merging.old set.old }
    ensures stt { OnOk result (set.new.files.stt ≡ []) }
    ensures main { OnOk result (set.new.files.main ≡ set.old.files.main) }
{
    while let Some(reader) = set.take_oldest() {
        let scan = td_sttfile::scan(alloc, reader, span.table, span.kinds, span.lo, span.hi);
        push_scan(merging, set, AnyScan::Stt(scan))?;
    }
    Ok(())
}

// Puts scans of memtables over those of a merge, the oldest first.
fn push_memtables<'a, R: FileBytes>(
    merging: &mut Merging<AnyScan<'a, R>>,
    set: &mut SetReaders<R>,
    memtables: &'a [Memtable],
    table: u32,
    lo: u64,
    hi: u64,
) -> Result<(), NoMem>
    requires { HasRoom merging.old.reads set.old }
    ensures pushed { OnOk result (HasPushed
        (map (λ m. Some (memtable_layer (record { table = table; kinds = []; lo = lo; hi = hi }) m)) memtables.now)
        (map (λ (_ : Contents). Some []) memtables.now) merging.old merging.new) }
    ensures waiting { merging.new.waiting ≡ merging.old.waiting }
    ensures room { HasRoom merging.new.reads set.new }
    ensures files { all_files merging.new set.new ≡ all_files merging.old set.old }
    ensures failed { all_failed merging.new set.new ≡ all_failed merging.old set.old }
    ensures stays { OnOk result (set.new ≡ set.old) }
{
    let mut left = memtables;
    while let Some((oldest, newer)) = left.split_last() {
        let scan = oldest.scan(table, lo, hi);
        push_scan(merging, set, AnyScan::Memtable(scan))?;
        left = newer;
    }
    Ok(())
}

// Takes the scans out of a merge, and gives their readers back to the set.
fn take_back<'a, R: FileBytes>(merging: Merging<AnyScan<'a, R>>, set: &mut SetReaders<R>)
    requires { HasRoom merging.reads set.old }
    ensures files { set.new.files ≡ all_files merging.entry set.old }
    ensures failed { set.new.failed ≡ all_failed merging.entry set.old }
{
    let mut merging = merging;
    while let Some(scan) = merging.pop() {
        set.give_back(scan);
    }
    merging.done()
}

// ---- rows

// Adds the rows that a merge has left to those that were found.
fn add_rows<S: LayerScan, L: Ledger>(
    merging: &mut Merging<S>,
    found: &mut Seq<(u64, Row)>,
    steps: &mut Steps<L>,
) -> Result<(), ScanFault>
    requires fresh { merging.old.waiting ≡ 0 }
    requires values { AllByRecursion (λ row. AreColumnValues row.1.values) found.old }
    ensures found { OnOk result (IfSome (rows_left merging.old) (λ rows. found.new ≡ found.old ++ timed rows)) }
    ensures values { AllByRecursion (λ row. AreColumnValues row.1.values) found.new }
    ensures least { OnOk result (steps.old + length found.new ≤ steps.new + length found.old) }
    ensures most { IfSome merging.old.layers (λ layers. steps.new ≤ steps.old + held layers) }
    ensures same { StaysSame merging.old merging.new }
    ensures fault { HasScanCause merging.old.damaged (faults_of merging.old.counts) (faults_of merging.new.counts)
        result }
{
    for _ in 0..u64::MAX {
        match merging.next(steps)? {
            None => return Ok(()),
            Some((key, row)) => found.add((key.ts, row))?,
        }
    }
    Err(ScanFault::NoMemory)
}

// Puts scans of memtables and of the set's files over one another, and adds the rows that they make.
fn add_merged<'a, R: FileBytes, L: Ledger>(
    alloc: Global,
    merging: &mut Merging<AnyScan<'a, R>>,
    memtables: &'a [Memtable],
    set: &mut SetReaders<R>,
    span: Span<'a>,
    own: Span<'a>,
    found: &mut Seq<(u64, Row)>,
    steps: &mut Steps<L>,
) -> Result<(), ScanFault>
    requires fresh { merging.old ≡ nothing_merged }
    requires room { HasRoom [] set.old }
    requires values { AllByRecursion (λ row. AreColumnValues row.1.values) found.old }
    ensures found { OnOk result (IfSome (span_layers memtables.now set.old.files (span_of span.entry)
        (span_of own.entry))
        (λ layers. found.new ≡ found.old ++ timed (rows_of layers))) }
    ensures values { AllByRecursion (λ row. AreColumnValues row.1.values) found.new }
    ensures least { OnOk result (steps.old + length found.new ≤ steps.new + length found.old) }
    ensures most { IfSome (span_layers memtables.now set.old.files (span_of span.entry) (span_of own.entry))
        (λ layers. steps.new ≤ steps.old + held layers) }
    ensures room { HasRoom merging.new.reads set.new }
    ensures files { all_files merging.new set.new ≡ set.old.files }
    ensures fault { HasScanCause (span_places memtables.now set.old.files (span_of own.entry))
        (shown_count set.old.failed)
        (shown_count (all_failed merging.new set.new)) result }
{
    push_data(alloc, merging, set, own)?;
    push_stt(alloc, merging, set, own)?;
    push_memtables(merging, set, memtables, span.table, span.lo, span.hi)?;
    add_rows(merging, found, steps)?;
    Ok(())
}

/// Adds the rows that memtables, the newest first, and the files of a set make in a span, of which the files count in a
/// span of their own. It leaves the files of the set, and a fault leaves some rows of them added.
pub(crate) fn add_between<R: FileBytes, L: Ledger>(
    alloc: Global,
    memtables: &[Memtable],
    set: &mut SetReaders<R>,
    span: Span<'_>,
    own: Span<'_>,
    found: &mut Seq<(u64, Row)>,
    steps: &mut Steps<L>,
) -> Result<(), ScanFault>
    requires values { AllByRecursion (λ row. AreColumnValues row.1.values) found.old }
    ensures found { OnOk result (IfSome (span_layers memtables.now set.old.files (span_of span.entry)
        (span_of own.entry))
        (λ layers. found.new ≡ found.old ++ timed (rows_of layers))) }
    ensures values { AllByRecursion (λ row. AreColumnValues row.1.values) found.new }
    ensures least { OnOk result (steps.old + length found.new ≤ steps.new + length found.old) }
    ensures most { IfSome (span_layers memtables.now set.old.files (span_of span.entry) (span_of own.entry))
        (λ layers. steps.new ≤ steps.old + held layers) }
    ensures files { set.new.files ≡ set.old.files }
    ensures fault { HasScanCause (span_places memtables.now set.old.files (span_of own.entry))
        (shown_count set.old.failed)
        (shown_count set.new.failed) result }
{
    let mut merging = Merging::new(alloc);
    set.room();
    let done = add_merged(alloc, &mut merging, memtables, set, span, own, found, steps);
    take_back(merging, set);
    done
}
