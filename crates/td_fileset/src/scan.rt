//! Scans that stand for one layer each, and say what they read.
ghost use Rattle.std.specs.Prelude.{◌≡◌, ◌+◌, true, None, IfOk, IfSome, OnOk};
ghost use Rattle.td_layer.specs.Columns.{AreColumnCells};
ghost use Rattle.td_layer.specs.Keys.{InKeyOrder};
ghost use Rattle.td_layer.specs.Scans.{GivesFirst, HasScanCause, given};
ghost use Rattle.td_fileset.specs.Sources.{Reads, InMemory, InSttFile, InDataFile};

use std::sync::ledger::Ledger;
use td_fileio::FileBytes;
use td_layer::{Key, Partial, RowScan, ScanFault, Steps};
use td_memtable::MemScan;

/// A scan of one layer that says what it reads, so that its reader is known once it ends.
pub trait LayerScan: RowScan {
    /// What it goes over, and the file that it reads: its bytes where they are told, its number and its length.
    ghost reads: { Self → Reads };

    /// What [`RowScan::next`] says. It goes on reading the same file.
    fn read<L: Ledger>(&mut self, steps: &mut Steps<L>) -> Result<Option<(Key, Partial)>, ScanFault>
        ensures partials { GivesFirst (Self.left self.old) (Self.left self.new) result }
        ensures in_order { IfSome (Self.left self.old) InKeyOrder }
        ensures values { IfOk result (λ o. IfSome o (λ p. AreColumnCells p.1.cells)) }
        ensures cuts { Self.cuts self.new ≡ Self.cuts self.old }
        ensures begun { OnOk result (Self.has_begun self.new ≡ true) }
        ensures stays_begun { Self.has_begun self.old ≡ true → Self.has_begun self.new ≡ true }
        ensures damaged { Self.damaged self.new ≡ Self.damaged self.old }
        ensures fault { HasScanCause (Self.damaged self.old) (Self.count self.old) (Self.count self.new) result }
        ensures steps { steps.new ≡ steps.old + given result }
        ensures reads { reads self.new ≡ reads self.old };
}

/// A scan of a memtable reads no file.
impl<'a> LayerScan for MemScan<'a> {
    ghost reads = { λ _. record { kept = InMemory; bytes = None; file = 0; size = 0 } };

    fn read<L: Ledger>(
        &mut self,
        steps: &mut Steps<L>,
    ) -> Result<Option<(Key, Partial)>, ScanFault> {
        let given = self.next(steps)?;
        Ok(given)
    }
}

impl<'a, R: FileBytes> LayerScan for td_sttfile::FileScan<'a, R> {
    ghost reads = { λ s. record { kept = InSttFile; bytes = s.told; file = s.file; size = s.size } };

    fn read<L: Ledger>(
        &mut self,
        steps: &mut Steps<L>,
    ) -> Result<Option<(Key, Partial)>, ScanFault> {
        let given = self.next(steps)?;
        Ok(given)
    }
}

impl<'a, R: FileBytes> LayerScan for td_datafile::FileScan<'a, R> {
    ghost reads = { λ s. record { kept = InDataFile; bytes = s.told; file = s.file; size = s.size } };

    fn read<L: Ledger>(
        &mut self,
        steps: &mut Steps<L>,
    ) -> Result<Option<(Key, Partial)>, ScanFault> {
        let given = self.next(steps)?;
        Ok(given)
    }
}
