//! Snapshots over memtables and files.
ghost use Rattle.std.specs.Prelude.{◌≡◌, ℕ, ◌==◌, ◌++◌, ◌+◌, ◌<◌, ◌≤◌, [], map, sum, length, Option, Some, None, IfOk, IfSome, OnOk};
ghost use Rattle.std.specs.Option.{option_copied};
ghost use Rattle.std.specs.List.{AllByRecursion};
ghost use Rattle.std.specs.List.Sorted.{IsStrictlySortedBy};
ghost use Rattle.std.specs.Map.{keys_of, lookup};
ghost use Rattle.std.specs.Ordering.{nat_cmp};
ghost use Rattle.td_layer.specs.Columns.{AreColumnValues};
ghost use Rattle.td_layer.specs.Scans.{HasScanCause};
ghost use Rattle.td_fileset.specs.Stack.{rows_of};
ghost use Rattle.td_fileset.specs.Merged.{held, told_places};
ghost use Rattle.td_fileset.specs.Layered.{HaveOwnRanges, table_places, rows_told, held_told, damaged_told};
ghost use Rattle.td_fileset.specs.Opened.{Readers, span_of, span_layers, span_places, timed, AddsRows, TakesSteps, shown_count};
ghost use Rattle.td_fileset.specs.Pieces.{IsNumberOf, own_span, piece_layers, piece_places};

use crate::pieces::next_piece;
use crate::set_readers::SetReaders;
use crate::spans::{Span, add_between};
use std::alloc::Global;
use std::collections::BTreeMap;
use std::marker::Model;
use std::sync::ledger::Ledger;
use td_cols::Kind;
use td_fileio::{FileBytes, day_start};
use td_layer::{Row, ScanFault, Seq, Snapshot, Steps};
use td_memtable::Memtable;

/// Memtables and the files of file sets, as a snapshot of the rows that they make at the keys at or above an edge.
/// Contracts see the memtables, the files, the kinds and the edge, and how often the readers failed together.
pub struct Layers<R: FileBytes> {
    alloc: Global,
    // The newest first.
    memtables: Vec<Memtable>,
    sets: Vec<SetReaders<R>>,
    kinds: BTreeMap<u32, Seq<Kind>>,
    edge: u32,
}

impl<R: FileBytes> Model for Layers<R> {
    ghost use Rattle.std.specs.Prelude.{map, sum};
    ghost use Rattle.td_fileset.specs.Layered.{Layered, HaveOwnRanges};
    ghost use Rattle.td_fileset.specs.Opened.{Readers};

    ghost Value = { Layered };

    ghost view = { λ s. record {
      stored = record {
        memtables = s.memtables.items;
        sets = map (λ (r : Readers). r.files) s.sets.items;
        kinds = s.kinds.entries;
        edge = s.edge;
      };
      failed = sum (map (λ (r : Readers). r.failed) s.sets.items);
    } };

    ghost invariant = { λ s. HaveOwnRanges (map (λ (r : Readers). r.files) s.sets.items) };
}

impl<R: FileBytes> Layers<R> {
    /// A snapshot of memtables, the newest first, and of the readers of file sets, of which no two have one day range,
    /// with the kinds of each table's columns, by the table's number, at the keys at or above the edge. It reads
    /// nothing, and takes no memory.
    pub fn new(
        alloc: Global,
        memtables: Vec<Memtable>,
        sets: Vec<SetReaders<R>>,
        kinds: BTreeMap<u32, Seq<Kind>>,
        edge: u32,
    ) -> Layers<R>
        requires { HaveOwnRanges (map (λ (r : Readers). r.files) sets.items) }
        ensures memtables { result.stored.memtables ≡ memtables.items }
        ensures sets { result.stored.sets ≡ map (λ (r : Readers). r.files) sets.items }
        ensures kinds { result.stored.kinds ≡ kinds.entries }
        ensures edge { result.stored.edge ≡ edge }
        ensures failed { result.failed ≡ sum (map (λ (r : Readers). r.failed) sets.items) }
    {
        Layers {
            alloc,
            memtables,
            sets,
            kinds,
            edge,
        }
    }

    /// The readers of the file sets, in the order in which they were given, of the same files, with what was read and
    /// how often they failed.
    pub fn into_readers(self) -> Vec<SetReaders<R>>
        ensures sets { map (λ (r : Readers). r.files) result.items ≡ self.stored.sets }
        ensures failed { sum (map (λ (r : Readers). r.failed) result.items) ≡ self.failed }
    {
        let Layers {
            alloc: _,
            memtables,
            sets,
            kinds,
            edge: _,
        } = self;
        drop(memtables);
        drop(kinds);
        sets
    }
}

// The kinds of a table's columns.
fn kinds_of(kinds: &BTreeMap<u32, Seq<Kind>>, table: u32) -> Option<&Seq<Kind>>
    ensures found { option_copied result ≡ lookup (λ (t : ℕ). t == table) kinds.now.entries }
    ensures order { IsStrictlySortedBy nat_cmp (keys_of kinds.now.entries) }
{
    if kinds.len() == 0 {
        return None;
    }
    kinds.get(&table)
}

// Adds the rows that memtables alone make in a span.
#[tactic(auto, using(crate::proofs::Advanced::none_failed))]
fn add_alone<R: FileBytes, L: Ledger>(
    alloc: Global,
    memtables: &[Memtable],
    span: Span<'_>,
    found: &mut Seq<(u64, Row)>,
    steps: &mut Steps<L>,
) -> Result<(), ScanFault>
    requires values { AllByRecursion (λ row. AreColumnValues row.1.values) found.old }
    ensures found { OnOk result (IfSome (piece_layers memtables.now [] None (span_of span.entry))
        (λ layers. found.new ≡ found.old ++ timed (rows_of layers))) }
    ensures values { AllByRecursion (λ row. AreColumnValues row.1.values) found.new }
    ensures least { OnOk result (steps.old + length found.new ≤ steps.new + length found.old) }
    ensures most { IfSome (piece_layers memtables.now [] None (span_of span.entry))
        (λ layers. steps.new ≤ steps.old + held layers) }
    ensures fault { HasScanCause (piece_places memtables.now [] None (span_of span.entry)) 0 0 result }
{
    let mut none: SetReaders<R> = SetReaders::none(alloc);
    let done = add_between(alloc, memtables, &mut none, span, span, found, steps);
    none.done();
    done
}

// Adds the rows that memtables and the files of a set make in a span, which doesn't end behind the set's day range.
fn add_set<R: FileBytes, L: Ledger>(
    alloc: Global,
    memtables: &[Memtable],
    set: &mut SetReaders<R>,
    span: Span<'_>,
    found: &mut Seq<(u64, Row)>,
    steps: &mut Steps<L>,
) -> Result<(), ScanFault>
    requires values { AllByRecursion (λ row. AreColumnValues row.1.values) found.old }
    ensures found { OnOk result (IfSome (span_layers memtables.now set.old.files (span_of span.entry)
        (own_span (span_of span.entry) set.old.files))
        (λ layers. found.new ≡ found.old ++ timed (rows_of layers))) }
    ensures values { AllByRecursion (λ row. AreColumnValues row.1.values) found.new }
    ensures least { OnOk result (steps.old + length found.new ≤ steps.new + length found.old) }
    ensures most { IfSome (span_layers memtables.now set.old.files (span_of span.entry)
        (own_span (span_of span.entry) set.old.files))
        (λ layers. steps.new ≤ steps.old + held layers) }
    ensures files { set.new.files ≡ set.old.files }
    ensures fault { HasScanCause (span_places memtables.now set.old.files (own_span (span_of span.entry) set.old.files))
        (shown_count set.old.failed) (shown_count set.new.failed) result }
{
    let own = span.between(span.lo.max(day_start(set.range())), span.hi);
    add_between(alloc, memtables, set, span, own, found, steps)?;
    Ok(())
}

// Adds the rows of a piece of a span: those of memtables and of one of some file sets, by number from 0, or of none.
fn add_piece<R: FileBytes, L: Ledger>(
    alloc: Global,
    memtables: &[Memtable],
    sets: &mut [SetReaders<R>],
    set: Option<usize>,
    span: Span<'_>,
    found: &mut Seq<(u64, Row)>,
    steps: &mut Steps<L>,
) -> Result<(), ScanFault>
    requires number { IsNumberOf (map (λ (r : Readers). r.files) sets.old) set }
    requires values { AllByRecursion (λ row. AreColumnValues row.1.values) found.old }
    ensures found { OnOk result (IfSome
        (piece_layers memtables.now (map (λ (r : Readers). r.files) sets.old) set (span_of span.entry))
        (λ layers. found.new ≡ found.old ++ timed (rows_of layers))) }
    ensures values { AllByRecursion (λ row. AreColumnValues row.1.values) found.new }
    ensures least { OnOk result (steps.old + length found.new ≤ steps.new + length found.old) }
    ensures most { IfSome (piece_layers memtables.now (map (λ (r : Readers). r.files) sets.old) set
        (span_of span.entry))
        (λ layers. steps.new ≤ steps.old + held layers) }
    ensures files { map (λ (r : Readers). r.files) sets.new ≡ map (λ (r : Readers). r.files) sets.old }
    ensures fault { HasScanCause
        (piece_places memtables.now (map (λ (r : Readers). r.files) sets.old) set (span_of span.entry))
        (shown_count (sum (map (λ (r : Readers). r.failed) sets.old)))
        (shown_count (sum (map (λ (r : Readers). r.failed) sets.new))) result }
{
    let Some(at) = set else {
        add_alone::<R, L>(alloc, memtables, span, found, steps)?;
        return Ok(());
    };
    let set = &mut sets[at];
    add_set(alloc, memtables, set, span, found, steps)?;
    Ok(())
}

// Adds the rows of a span of a table, piece by piece.
fn add_pieces<R: FileBytes, L: Ledger>(
    alloc: Global,
    memtables: &[Memtable],
    sets: &mut [SetReaders<R>],
    span: Span<'_>,
    found: &mut Seq<(u64, Row)>,
    steps: &mut Steps<L>,
) -> Result<(), ScanFault>
    requires own { HaveOwnRanges (map (λ (r : Readers). r.files) sets.old) }
    requires values { AllByRecursion (λ row. AreColumnValues row.1.values) found.old }
    ensures found { OnOk result (AddsRows memtables.now (map (λ (r : Readers). r.files) sets.old) (span_of span.entry)
        found.old found.new) }
    ensures values { AllByRecursion (λ row. AreColumnValues row.1.values) found.new }
    ensures least { OnOk result (steps.old + length found.new ≤ steps.new + length found.old) }
    ensures most { TakesSteps memtables.now (map (λ (r : Readers). r.files) sets.old) (span_of span.entry)
        steps.old steps.new }
    ensures files { map (λ (r : Readers). r.files) sets.new ≡ map (λ (r : Readers). r.files) sets.old }
    ensures fault { HasScanCause (told_places (table_places (map (λ (r : Readers). r.files) sets.old)
        (span.entry.table, span.entry.kinds.now)))
        (shown_count (sum (map (λ (r : Readers). r.failed) sets.old)))
        (shown_count (sum (map (λ (r : Readers). r.failed) sets.new))) result }
{
    let mut from = span.lo;
    'pieces: while from <= span.hi {
        let piece = next_piece(sets, from, span.hi);
        let part = span.between(from, piece.to);
        add_piece(alloc, memtables, sets, piece.set, part, found, steps)?;
        if piece.to == span.hi {
            return Ok(());
        }
        from = piece.to + 1;
    }
    Ok(())
}

// How often readers failed, up to the number's end.
fn faults_of<R: FileBytes>(sets: &[SetReaders<R>]) -> u64
    ensures { result ≡ shown_count (sum (map (λ (r : Readers). r.failed) sets.now)) }
{
    let mut faults: u64 = 0;
    for set in sets {
        faults = faults.saturating_add(set.faults());
    }
    faults
}

impl<R: FileBytes> Snapshot for Layers<R> {
    ghost rows = { λ s. rows_told s.stored };

    ghost held = { λ s. held_told s.stored };

    ghost damaged = { λ s. damaged_told s.stored };

    ghost count = { λ s. shown_count s.failed };

    fn rows_of<L: Ledger>(
        &mut self,
        table: u32,
        lo: u64,
        hi: u64,
        steps: &mut Steps<L>,
    ) -> Result<Seq<(u64, Row)>, ScanFault> {
        let Some(kinds) = kinds_of(&self.kinds, table) else {
            return Ok(Seq::new(self.alloc));
        };
        let mut found = Seq::new(self.alloc);
        let span = Span {
            table,
            kinds: kinds.as_slice(),
            lo: lo.max(day_start(self.edge)),
            hi,
        };
        add_pieces(
            self.alloc,
            self.memtables.as_slice(),
            self.sets.as_mut_slice(),
            span,
            &mut found,
            steps,
        )?;
        Ok(found)
    }

    fn faults(&self) -> u64 {
        faults_of(self.sets.as_slice())
    }
}
