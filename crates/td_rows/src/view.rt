//! Rows as they stood at one moment, as a snapshot.
ghost use Rattle.std.specs.Prelude.{◌≡◌, ◌≤◌, ◌+◌, IfOk, length};
ghost use Rattle.std.specs.List.{AllByRecursion};
ghost use Rattle.td_layer.specs.Columns.{AreColumnValues};
ghost use Rattle.td_layer.specs.Scans.{rows_in};

use crate::rows::RowsByKey;
use crate::tree::RowTree;
use std::alloc::Global;
use std::marker::Model;
use std::sync::ledger::Ledger;
use td_layer::{Copied, NoMem, Row, ScanFault, Seq, Snapshot, Steps};

/// Rows as they stood at one moment, each value NULL or in the range of some column. Contracts see it as the list of
/// the rows. Changes of the tree that it was taken of leave it as it is.
#[derive(Drop)]
pub struct RowView {
    alloc: Global,
    rows: RowTree,
}

impl Model for RowView {
    ghost use Rattle.std.specs.List.{AllByRecursion};
    ghost use Rattle.td_layer.specs.Columns.{AreColumnValues};
    ghost use Rattle.td_layer.specs.Keys.{InKeyOrder};
    ghost use Rattle.td_model.specs.State.{Rows};

    ghost Value = { Rows };

    ghost view = { λ v. v.rows };

    ghost invariant = { λ v. AllByRecursion (λ e. AreColumnValues e.1.values) v.rows × InKeyOrder v.rows };
}

impl RowView {
    /// The rows of a tree, whose root alone is shared.
    pub fn of(alloc: Global, rows: &RowTree) -> Result<RowView, NoMem>
        requires { AllByRecursion (λ e. AreColumnValues e.1.values) rows.now }
        ensures { IfOk result (λ v. v ≡ rows.now) }
    {
        let rows = rows.share()?;
        Ok(RowView { alloc, rows })
    }

    /// The rows, to be read in place.
    pub fn rows(&self) -> &RowTree
        ensures { result.now ≡ self.now }
    {
        &self.rows
    }
}

// Copies of the rows of a table, by number, from one timestamp to another, both included. Each takes a step.
fn copies_in<L: Ledger>(
    alloc: Global,
    rows: &RowTree,
    table: u32,
    lo: u64,
    hi: u64,
    steps: &mut Steps<L>,
) -> Result<Seq<(u64, Row)>, NoMem>
    requires values { AllByRecursion (λ e. AreColumnValues e.1.values) rows.now }
    ensures found { IfOk result (λ found. found ≡ rows_in table lo hi rows.now) }
    ensures values { IfOk result (AllByRecursion (λ row. AreColumnValues row.1.values)) }
    ensures steps { IfOk result (λ found. steps.new ≡ steps.old + length found) }
    ensures most_steps { steps.new ≤ steps.old + length (rows_in table lo hi rows.now) }
{
    let mut found = Seq::new(alloc);
    'rows: for (key, row) in rows.range(table, lo, hi) {
        let row = row.copy()?;
        found.add((key.ts, row))?;
        steps.tick();
    }
    Ok(found)
}

impl Snapshot for RowView {
    ghost use Rattle.std.specs.Prelude.{Some, [], length};
    ghost use Rattle.td_layer.specs.Scans.{rows_in};

    ghost rows = { λ v. Some v };

    ghost held = { λ v table lo hi. Some (length (rows_in table lo hi v)) };

    ghost damaged = { λ _. Some [] };

    ghost count = { λ _. 0 };

    fn rows_of<L: Ledger>(
        &mut self,
        table: u32,
        lo: u64,
        hi: u64,
        steps: &mut Steps<L>,
    ) -> Result<Seq<(u64, Row)>, ScanFault> {
        let found = copies_in(self.alloc, &self.rows, table, lo, hi, steps)?;
        Ok(found)
    }

    fn faults(&self) -> u64 {
        0
    }
}
