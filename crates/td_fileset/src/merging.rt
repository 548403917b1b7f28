//! Scans of layers merged to rows.
ghost use Rattle.std.specs.Prelude.{◌≡◌, ◌+◌, ◌-◌, ◌<◌, ◌≤◌, ◌^◌, true, List, [], ◌∷◌, map, length, Option, Some, None, IfOk, IfErr, IfSome, OnOk, OnErr, MatchOption};
ghost use Rattle.std.specs.List.{AllByRecursion};
ghost use Rattle.td_layer.specs.Columns.{AreColumnValues};
ghost use Rattle.td_layer.specs.Scans.{GivesFirst, HasScanCause, given};
ghost use Rattle.td_fileset.specs.Sources.{IsSettled, past, layer_of};
ghost use Rattle.td_fileset.specs.Merged.{merged, sooner, least_key, all_acted, told_layers, places_of, waiting, faults_of, nothing_merged, on_top, rows_left, IsTaken, HasSteps, StaysSame};

use crate::scan::LayerScan;
use crate::source::Source;
use std::alloc::{AllocFailed, Global};
use std::cmp::Ordering;
use std::marker::Model;
use std::sync::ledger::Ledger;
use td_layer::{Key, NoMem, Row, ScanFault, Steps};

// ---- all scans

// Reads the first partial of each scan that isn't used yet.
fn fill_all<S: LayerScan, L: Ledger>(
    sources: &mut [Source<S>],
    steps: &mut Steps<L>,
) -> Result<(), ScanFault>
    ensures layers { told_layers sources.new ≡ told_layers sources.old }
    ensures settled { OnOk result (AllByRecursion IsSettled sources.new) }
    ensures places { places_of sources.new ≡ places_of sources.old }
    ensures reads { map (λ f. f.reads) sources.new ≡ map (λ f. f.reads) sources.old }
    ensures cause { HasScanCause (places_of sources.old) (faults_of (map (λ f. f.count) sources.old))
        (faults_of (map (λ f. f.count) sources.new)) result }
    ensures steps { steps.new + waiting sources.old ≡ steps.old + waiting sources.new }
{
    for i in 0..sources.len() {
        let source = &mut sources[i];
        source.fill(steps)?;
    }
    Ok(())
}

// The sooner of two keys, of which each may be missing.
fn sooner(least: Option<Key>, other: Option<Key>) -> Option<Key>
    ensures { result ≡ sooner least other }
{
    match (least, other) {
        (None, other) => other,
        (Some(key), None) => Some(key),
        (Some(key), Some(other)) => match other.cmp(&key) {
            Ordering::Less => Some(other),
            Ordering::Equal | Ordering::Greater => Some(key),
        },
    }
}

// The least of the keys that wait.
fn least_key<S: LayerScan>(sources: &[Source<S>]) -> Option<Key>
    ensures { result ≡ least_key None sources.now }
{
    let mut least = None;
    for source in sources {
        least = sooner(least, source.key());
    }
    least
}

// The row of the least key that waits, composed from the oldest scan to the newest, or none where it is cut.
fn row_of<S: LayerScan>(
    alloc: Global,
    sources: &[Source<S>],
    key: Key,
) -> Result<Option<Row>, NoMem>
    requires { AllByRecursion IsSettled sources.now }
    ensures acted { IfOk result (λ row. IfSome (all_acted key sources.now None) (λ r. row ≡ r)) }
    ensures values { IfOk result (λ row. IfSome row (λ r. AreColumnValues r.values)) }
{
    let mut row = None;
    for source in sources {
        row = source.act(alloc, key, row)?;
    }
    Ok(row)
}

// Uses the partials of a key.
fn pass_all<S: LayerScan>(sources: &mut [Source<S>], key: Key)
    ensures { sources.new ≡ map (past key) sources.old }
{
    for source in sources.iter_mut() {
        source.pass(key);
    }
}

// The next key that waits and its row, if it has one.
fn step<S: LayerScan, L: Ledger>(
    alloc: Global,
    sources: &mut [Source<S>],
    steps: &mut Steps<L>,
) -> Result<Option<(Key, Option<Row>)>, ScanFault>
    ensures rows { IsTaken (merged sources.old).layers (merged sources.new).layers result }
    ensures values { IfOk result (λ o. IfSome o (λ p. IfSome p.1 (λ row. AreColumnValues row.values))) }
    ensures same { StaysSame (merged sources.old) (merged sources.new) }
    ensures fault { HasScanCause (merged sources.old).damaged (faults_of (merged sources.old).counts)
        (faults_of (merged sources.new).counts) result }
    ensures steps { HasSteps (merged sources.old) (merged sources.new) steps.old steps.new (given result) }
{
    fill_all(sources, steps)?;
    let Some(key) = least_key(sources) else {
        return Ok(None);
    };
    let row = row_of(alloc, sources, key)?;
    pass_all(sources, key);
    Ok(Some((key, row)))
}

// The next key that has a row, and its row.
fn next_row<S: LayerScan, L: Ledger>(
    alloc: Global,
    sources: &mut [Source<S>],
    steps: &mut Steps<L>,
) -> Result<Option<(Key, Row)>, ScanFault>
    ensures rows { GivesFirst (rows_left (merged sources.old)) (rows_left (merged sources.new)) result }
    ensures values { IfOk result (λ o. IfSome o (λ p. AreColumnValues p.1.values)) }
    ensures same { StaysSame (merged sources.old) (merged sources.new) }
    ensures fault { HasScanCause (merged sources.old).damaged (faults_of (merged sources.old).counts)
        (faults_of (merged sources.new).counts) result }
    ensures steps { HasSteps (merged sources.old) (merged sources.new) steps.old steps.new (given result) }
{
    for _ in 0..u64::MAX {
        match step(alloc, sources, steps)? {
            None => return Ok(None),
            Some((key, Some(row))) => return Ok(Some((key, row))),
            Some((_, None)) => {}
        }
    }
    Err(ScanFault::NoMemory)
}

// ---- the merge

/// Scans of layers that stand on one another, as the rows that they make. Contracts see the layers as far as they
/// aren't used yet. It reads each scan as its partials are wanted, and keeps one partial of each.
pub struct Merging<S: LayerScan> {
    alloc: Global,
    // The oldest first.
    sources: Vec<Source<S>>,
}

impl<S: LayerScan> Model for Merging<S> {
    ghost use Rattle.td_fileset.specs.Merged.{Merged, merged};

    ghost Value = { Merged };

    ghost view = { λ m. merged m.sources.items };
}

impl<S: LayerScan> Merging<S> {
    /// A merge of no scan. It takes no memory.
    pub fn new(alloc: Global) -> Merging<S>
        ensures { result ≡ nothing_merged }
    {
        Merging {
            alloc,
            sources: Vec::new(alloc),
        }
    }

    /// Puts a scan of which nothing was taken over those that are there. Where there is no memory the scan comes back
    /// and the merge stays as it was.
    pub fn push(&mut self, scan: S) -> Result<(), (S, NoMem)>
        ensures ok { OnOk result (self.new ≡ on_top (layer_of (S.left scan) (S.cuts scan)) (S.damaged scan)
            (S.reads scan) (S.count scan) self.old) }
        ensures err { OnErr result (self.new ≡ self.old) }
        ensures same_file { IfErr result (λ e. S.reads e.0 ≡ S.reads scan) }
        ensures same_count { IfErr result (λ e. S.count e.0 ≡ S.count scan) }
    {
        let Err(failed) = self.sources.push(Source::new(scan)) else {
            return Ok(());
        };
        let AllocFailed { value, .. } = failed;
        Err((value.into_scan(), NoMem))
    }

    /// Takes the newest scan off, with what was read of it, or gives none where no scan is left.
    pub fn pop(&mut self) -> Option<S>
        ensures reads { MatchOption result ((self.old.reads ≡ []) × (self.new.reads ≡ []))
            (λ scan. self.old.reads ≡ S.reads scan ∷ self.new.reads) }
        ensures counts { MatchOption result ((self.old.counts ≡ []) × (self.new.counts ≡ []))
            (λ scan. self.old.counts ≡ S.count scan ∷ self.new.counts) }
    {
        match self.sources.pop() {
            None => None,
            Some(source) => Some(source.into_scan()),
        }
    }

    /// Ends a merge from which all scans were taken off.
    pub fn done(self)
        requires { self.reads ≡ [] }
    {
        let Merging { alloc: _, sources } = self;
        sources.destroy_empty()
    }

    /// The first of the rows that are left, or none where none is left. Each value of it is NULL or lies in -2^63 to
    /// 2^64 - 1. A fault leaves the rows that are left, so it may be called again: `ReadFault` comes only where the
    /// count of faults rose, `Damaged` only with a damaged place of a scan, where all tell theirs. Each partial that is
    /// read is one step.
    pub fn next<L: Ledger>(&mut self, steps: &mut Steps<L>) -> Result<Option<(Key, Row)>, ScanFault>
        ensures rows { GivesFirst (rows_left self.old) (rows_left self.new) result }
        ensures values { IfOk result (λ o. IfSome o (λ p. AreColumnValues p.1.values)) }
        ensures same { StaysSame self.old self.new }
        ensures fault { HasScanCause self.old.damaged (faults_of self.old.counts) (faults_of self.new.counts) result }
        ensures steps { HasSteps self.old self.new steps.old steps.new (given result) }
    {
        let given = next_row(self.alloc, self.sources.as_mut_slice(), steps)?;
        Ok(given)
    }
}
