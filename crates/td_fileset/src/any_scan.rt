//! Scans of memtables and of files of both kinds, as one type.
ghost use Rattle.std.specs.Prelude.{◌≡◌, ◌+◌, true, IfOk, IfSome, OnOk};
ghost use Rattle.td_layer.specs.Columns.{AreColumnCells};
ghost use Rattle.td_layer.specs.Keys.{InKeyOrder};
ghost use Rattle.td_layer.specs.Scans.{GivesFirst, HasScanCause, given};
ghost use Rattle.td_fileset.specs.Opened.{scan_left, scan_cuts, scan_begun, scan_damaged, scan_count, scan_reads};

use crate::scan::LayerScan;
use std::sync::ledger::Ledger;
use td_fileio::FileBytes;
use td_layer::{Key, Partial, RowScan, ScanFault, Steps};
use td_memtable::MemScan;

/// A scan of a memtable, of an stt file or of a data file.
pub(crate) enum AnyScan<'a, R: FileBytes> {
    Memtable(MemScan<'a>),
    Stt(td_sttfile::FileScan<'a, R>),
    Data(td_datafile::FileScan<'a, R>),
}

impl<'a, R: FileBytes> RowScan for AnyScan<'a, R> {
    ghost left = { scan_left };

    ghost cuts = { scan_cuts };

    ghost has_begun = { scan_begun };

    ghost damaged = { scan_damaged };

    ghost count = { scan_count };

    fn next<L: Ledger>(
        &mut self,
        steps: &mut Steps<L>,
    ) -> Result<Option<(Key, Partial)>, ScanFault> {
        let given = self.read(steps)?;
        Ok(given)
    }

    fn cut_at(&self, key: Key) -> bool {
        match self {
            AnyScan::Memtable(scan) => scan.cut_at(key),
            AnyScan::Stt(scan) => scan.cut_at(key),
            AnyScan::Data(scan) => scan.cut_at(key),
        }
    }

    fn faults(&self) -> u64 {
        match self {
            AnyScan::Memtable(scan) => scan.faults(),
            AnyScan::Stt(scan) => scan.faults(),
            AnyScan::Data(scan) => scan.faults(),
        }
    }
}

impl<'a, R: FileBytes> LayerScan for AnyScan<'a, R> {
    ghost reads = { scan_reads };

    fn read<L: Ledger>(
        &mut self,
        steps: &mut Steps<L>,
    ) -> Result<Option<(Key, Partial)>, ScanFault> {
        match self {
            AnyScan::Memtable(scan) => {
                let given = scan.read(steps)?;
                Ok(given)
            }
            AnyScan::Stt(scan) => {
                let given = scan.read(steps)?;
                Ok(given)
            }
            AnyScan::Data(scan) => {
                let given = scan.read(steps)?;
                Ok(given)
            }
        }
    }
}
