//! Scans that are merged.
ghost use Rattle.std.specs.Prelude.{◌≡◌, ◌+◌, true, false, Some, None, IfOk, IfSome, OnOk};
ghost use Rattle.td_layer.specs.Columns.{AreColumnValues};
ghost use Rattle.td_layer.specs.Scans.{HasScanCause};
ghost use Rattle.td_fileset.specs.Sources.{layer_of, told_layer, waits, key_ahead, acted, past, IsSettled};

use crate::laying::{lay, under_cut};
use crate::scan::LayerScan;
use std::alloc::Global;
use std::cmp::Ordering;
use std::marker::Model;
use std::sync::ledger::Ledger;
use td_layer::{Key, NoMem, Partial, Row, RowScan, ScanFault, Steps};

/// The first of the partials of a scan that isn't used yet: it wasn't read, it waits, or there is none.
#[derive(Debug, Drop)]
pub(crate) enum Ahead {
    Unread,
    First(Key, Partial),
    End,
}

/// A scan with the first of its partials that isn't used yet.
pub(crate) struct Source<S: LayerScan> {
    scan: S,
    ahead: Ahead,
}

impl<S: LayerScan> Model for Source<S> {
    ghost use Rattle.std.specs.Prelude.{◌≡◌, true};
    ghost use Rattle.td_fileset.specs.Sources.{Fed, is_read, IsSettled};

    ghost Value = { Fed };

    ghost view = { λ s. record {
      ahead = s.ahead;
      left = S.left s.scan;
      cuts = S.cuts s.scan;
      damaged = S.damaged s.scan;
      count = S.count s.scan;
      begun = S.has_begun s.scan;
      reads = S.reads s.scan;
    } };

    ghost invariant = { λ s. is_read s.ahead ≡ true
        → IsSettled (record {
          ahead = s.ahead;
          left = S.left s.scan;
          cuts = S.cuts s.scan;
          damaged = S.damaged s.scan;
          count = S.count s.scan;
          begun = S.has_begun s.scan;
          reads = S.reads s.scan;
        }) };
}

impl<S: LayerScan> Source<S> {
    /// A scan of which nothing was read for the merge.
    pub(crate) fn new(scan: S) -> Source<S>
        ensures left { result.left ≡ S.left scan }
        ensures cuts { result.cuts ≡ S.cuts scan }
        ensures damaged { result.damaged ≡ S.damaged scan }
        ensures count { result.count ≡ S.count scan }
        ensures reads { result.reads ≡ S.reads scan }
        ensures layer { told_layer result ≡ layer_of (S.left scan) (S.cuts scan) }
        ensures waits { waits result.ahead ≡ 0 }
    {
        Source {
            scan,
            ahead: Ahead::Unread,
        }
    }

    /// Reads the first partial that isn't used yet, where that isn't done.
    pub(crate) fn fill<L: Ledger>(&mut self, steps: &mut Steps<L>) -> Result<(), ScanFault>
        ensures layer { told_layer self.new ≡ told_layer self.old }
        ensures settled { OnOk result (IsSettled self.new) }
        ensures damaged { self.new.damaged ≡ self.old.damaged }
        ensures reads { self.new.reads ≡ self.old.reads }
        ensures cause { HasScanCause self.old.damaged self.old.count self.new.count result }
        ensures steps { steps.new + waits self.old.ahead ≡ steps.old + waits self.new.ahead }
    {
        if let Ahead::Unread = &self.ahead {
            match self.scan.read(steps)? {
                None => self.ahead = Ahead::End,
                Some((key, partial)) => self.ahead = Ahead::First(key, partial),
            }
        }
        Ok(())
    }

    /// The key of the partial that waits.
    pub(crate) fn key(&self) -> Option<Key>
        ensures { result ≡ key_ahead self.now.ahead }
    {
        match &self.ahead {
            Ahead::First(key, _) => Some(*key),
            Ahead::Unread | Ahead::End => None,
        }
    }

    /// What the scan does to the row of a key: it cuts the row where it has a cut there, and then lays the partial that
    /// waits, where it is of that key.
    pub(crate) fn act(
        &self,
        alloc: Global,
        key: Key,
        row: Option<Row>,
    ) -> Result<Option<Row>, NoMem>
        requires settled { IsSettled self.now }
        requires values { IfSome row (λ r. AreColumnValues r.values) }
        ensures acted { IfOk result (λ row'. IfSome (acted key self.now row) (λ r. row' ≡ r)) }
        ensures values { IfOk result (λ row'. IfSome row' (λ r. AreColumnValues r.values)) }
    {
        let under = under_cut(self.scan.cut_at(key), row);
        if let Ahead::First(first, partial) = &self.ahead {
            if let Ordering::Equal = key.cmp(first) {
                let laid = lay(alloc, partial, under)?;
                return Ok(Some(laid));
            }
        }
        Ok(under)
    }

    /// Uses the partial that waits, where it is of this key.
    pub(crate) fn pass(&mut self, key: Key)
        ensures { self.new ≡ past key self.old }
    {
        if let Ahead::First(first, _) = &self.ahead {
            if let Ordering::Equal = key.cmp(first) {
                self.ahead = Ahead::Unread;
            }
        }
    }

    /// How often the scan's reader failed.
    pub(crate) fn faults(&self) -> u64
        ensures { result ≡ self.now.count }
    {
        self.scan.faults()
    }

    /// The scan.
    pub(crate) fn into_scan(self) -> S
        ensures count { S.count result ≡ self.count }
        ensures reads { S.reads result ≡ self.reads }
    {
        let Source { scan, ahead: _ } = self;
        scan
    }
}
