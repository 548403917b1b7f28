//! Scans of layers, and snapshots of rows.
ghost use Rattle.std.specs.Prelude.{◌≡◌, ℕ, ◌+◌, ◌≤◌, Bool, true, List, length, Option, IfOk, IfSome, OnOk};
ghost use Rattle.std.specs.List.{AllByRecursion};
ghost use Rattle.td_layer.specs.declared.values.Key.{Key};
ghost use Rattle.td_layer.specs.declared.values.Row.{Row};
ghost use Rattle.td_layer.specs.declared.parts.Partial.{Partial};
ghost use Rattle.td_layer.specs.Columns.{AreColumnCells, AreColumnValues};
ghost use Rattle.td_layer.specs.Keys.{InKeyOrder};
ghost use Rattle.td_layer.specs.Scans.{Cut, Places, GivesFirst, HasScanCause, is_cut, given, rows_in};

use crate::parts::Partial;
use crate::seq::Seq;
use crate::steps::Steps;
use crate::values::{Key, NoMem, Row};
use std::sync::ledger::Ledger;

/// Why a scan stopped: a reader failed; the bytes of a file, by number, are damaged at a place; or there was no memory.
#[derive(Clone, Copy, Debug, PartialEq, Eq)]
pub enum ScanFault {
    ReadFault,
    Damaged { file: u64, at: u64 },
    NoMemory,
}

impl From<NoMem> for ScanFault {
    ghost use Rattle.td_layer.specs.declared.scans.ScanFault.TheVariants.{NoMemory};

    ghost from_gives = { λ _ fault. fault ≡ NoMemory };

    fn from(_: NoMem) -> Self {
        ScanFault::NoMemory
    }
}

/// A scan of one layer: the partials of a table in a range of timestamps, by key, and the layer's cuts there.
///
/// What it stands for is told or not: a scan of what is in memory tells it, one over a real file doesn't. A fault
/// leaves the scan as it was, so that `next` may be called again.
pub trait RowScan {
    /// The partials that are left, where they are told.
    ghost left: { Self → Option (List (Key × Partial)) };

    /// The layer's cuts, where they are told.
    ghost cuts: { Self → Option (List Cut) };

    /// Whether a `next` has answered Ok.
    ghost has_begun: { Self → Bool };

    /// The places of damaged bytes, where they are told.
    ghost damaged: { Self → Option Places };

    /// How often its reader failed.
    ghost count: { Self → ℕ };

    /// The first of the partials that are left, or none where none is left. A partial is one step. Each named value of
    /// it is NULL or lies in -2^63 to 2^64 - 1. The first call reads the cuts. A fault leaves the partials that are
    /// left and the cuts: `ReadFault` comes only where the count of faults rose, `Damaged` only with a damaged place
    /// where these are told.
    fn next<L: Ledger>(&mut self, steps: &mut Steps<L>) -> Result<Option<(Key, Partial)>, ScanFault>
        ensures partials { GivesFirst (left self.old) (left self.new) result }
        ensures in_order { IfSome (left self.old) InKeyOrder }
        ensures values { IfOk result (λ o. IfSome o (λ p. AreColumnCells p.1.cells)) }
        ensures cuts { cuts self.new ≡ cuts self.old }
        ensures begun { OnOk result (has_begun self.new ≡ true) }
        ensures stays_begun { has_begun self.old ≡ true → has_begun self.new ≡ true }
        ensures damaged { damaged self.new ≡ damaged self.old }
        ensures fault { HasScanCause (damaged self.old) (count self.old) (count self.new) result }
        ensures steps { steps.new ≡ steps.old + given result };

    /// Whether a key lies in a cut of the layer. A `next` must have answered Ok.
    fn cut_at(&self, key: Key) -> bool
        requires { has_begun self.now ≡ true }
        ensures { IfSome (cuts self.now) (λ all. result ≡ is_cut key all) };

    /// How often its reader failed, up to the number's end.
    fn faults(&self) -> u64
        ensures { result ≡ count self.now };
}

/// Rows as they stood at one moment, over layers of which the newer go over the older.
pub trait Snapshot {
    /// The rows, where they are told, in the order of their keys.
    ghost rows: { Self → Option (List (Key × Row)) };

    /// How many partials the layers hold of a table, by number, from one timestamp to another, where it is told.
    ghost held: { Self → ℕ → ℕ → ℕ → Option ℕ };

    /// The places of damaged bytes, where they are told.
    ghost damaged: { Self → Option Places };

    /// How often its readers failed.
    ghost count: { Self → ℕ };

    /// The rows of a table from `lo` to `hi`, both among them, by timestamp. It takes at least one step for each row
    /// that it gives, and at most one for each partial that the layers hold there. Each value is NULL or lies in
    /// -2^63 to 2^64 - 1. It leaves what the snapshot stands for, also where it answers a fault; the faults come as those
    /// of [`RowScan::next`].
    fn rows_of<L: Ledger>(
        &mut self,
        table: u32,
        lo: u64,
        hi: u64,
        steps: &mut Steps<L>,
    ) -> Result<Seq<(u64, Row)>, ScanFault>
        ensures found { IfOk result (λ found. IfSome (rows self.old) (λ all. found ≡ rows_in table lo hi all)) }
        ensures in_order { IfSome (rows self.old) InKeyOrder }
        ensures values { IfOk result (AllByRecursion (λ row. AreColumnValues row.1.values)) }
        ensures least_steps { IfOk result (λ found. steps.old + length found ≤ steps.new) }
        ensures most_steps { IfSome (held self.old table lo hi) (λ n. steps.new ≤ steps.old + n) }
        ensures rows { rows self.new ≡ rows self.old }
        ensures held { (t l h : ℕ) → held self.new t l h ≡ held self.old t l h }
        ensures damaged { damaged self.new ≡ damaged self.old }
        ensures fault { HasScanCause (damaged self.old) (count self.old) (count self.new) result };

    /// How often its readers failed, up to the number's end.
    fn faults(&self) -> u64
        ensures { result ≡ count self.now };
}
