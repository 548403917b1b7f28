//! Rows in memory, as a snapshot.
ghost use Rattle.std.specs.Prelude.{◌≡◌, ◌≤◌, ◌+◌, ◌++◌, ◌∷◌, [], IfOk, OnOk, length};
ghost use Rattle.std.specs.List.{AllByRecursion};
ghost use Rattle.td_layer.specs.Columns.{IsColumnValue, AreColumnValues};
ghost use Rattle.td_layer.specs.Scans.{rows_in};

use std::alloc::Global;
use std::marker::Model;
use std::sync::ledger::Ledger;
use td_layer::{Birth, Copied, Key, NoMem, Row, ScanFault, Seq, Snapshot, Steps, Value};

/// What a word says of a value.
#[derive(Clone, Copy)]
pub(crate) enum Said {
    Null,
    Signed(i64),
    Unsigned(u64),
}

/// Rows in the order of their keys.
#[derive(Drop)]
pub(crate) struct Stored {
    alloc: Global,
    rows: Seq<(Key, Row)>,
}

impl Model for Stored {
    ghost use Rattle.std.specs.Prelude.{List};
    ghost use Rattle.std.specs.List.{AllByRecursion};
    ghost use Rattle.td_layer.specs.declared.values.Key.{Key as RowKey};
    ghost use Rattle.td_layer.specs.declared.values.Row.{Row as KeptRow};
    ghost use Rattle.td_layer.specs.Columns.{AreColumnValues};

    ghost Value = { List (RowKey × KeptRow) };

    ghost view = { λ s. s.rows };

    ghost invariant = { λ s. AllByRecursion (λ e. AreColumnValues e.1.values) s.rows };
}

impl Stored {
    /// No rows.
    pub(crate) fn new(alloc: Global) -> Stored {
        Stored {
            alloc,
            rows: Seq::new(alloc),
        }
    }

    /// The rows, in the order of their keys.
    pub(crate) fn rows(&self) -> &[(Key, Row)] {
        self.rows.as_slice()
    }

    /// Whether there is a row of a key.
    pub(crate) fn has(&self, key: Key) -> bool {
        for entry in self.rows.as_slice() {
            if entry.0 == key {
                return true;
            }
        }
        false
    }

    /// Adds a row at its place.
    pub(crate) fn put(&mut self, key: Key, values: &[Said]) -> Result<(), NoMem> {
        let values = values_of(self.alloc, values)?;
        let birth = Birth { born: 0 };
        let at = self
            .rows
            .as_slice()
            .partition_point(|entry| (entry.0.table, entry.0.ts) < (key.table, key.ts));
        self.rows.insert(at, (key, Row { birth, values }))?;
        Ok(())
    }
}

fn value_of(said: Said) -> Value
    ensures { IsColumnValue result }
{
    match said {
        Said::Null => Value::Null,
        Said::Signed(n) => Value::Num(i128::from(n)),
        Said::Unsigned(n) => Value::Num(i128::from(n)),
    }
}

#[tactic(auto, using(crate::proofs::Scanned::one_more))]
fn values_of(alloc: Global, said: &[Said]) -> Result<Seq<Value>, NoMem>
    ensures { IfOk result AreColumnValues }
{
    let mut values = Seq::new(alloc);
    'values: for one in said {
        values.add(value_of(*one))?;
    }
    Ok(values)
}

// Adds a row of a table in a range of timestamps; another isn't added.
fn add_in<L: Ledger>(
    entry: &(Key, Row),
    table: u32,
    lo: u64,
    hi: u64,
    found: &mut Seq<(u64, Row)>,
    steps: &mut Steps<L>,
) -> Result<(), NoMem>
    ensures found { OnOk result (found.new ≡ found.old ++ rows_in table lo hi (entry.now ∷ [])) }
    ensures steps { OnOk result (steps.old + length found.new ≤ steps.new + length found.old) }
{
    let ts = entry.0.ts;
    if entry.0.table == table && lo <= ts && ts <= hi {
        let row = entry.1.copy()?;
        found.add((ts, row))?;
        steps.tick();
    }
    Ok(())
}

// Copies of the rows of a table in a range of timestamps. Each takes a step.
fn copies_in<L: Ledger>(
    alloc: Global,
    rows: &[(Key, Row)],
    table: u32,
    lo: u64,
    hi: u64,
    steps: &mut Steps<L>,
) -> Result<Seq<(u64, Row)>, NoMem>
    requires values { AllByRecursion (λ e. AreColumnValues e.1.values) rows.now }
    ensures found { IfOk result (λ found. found ≡ rows_in table lo hi rows.now) }
    ensures values { IfOk result (AllByRecursion (λ row. AreColumnValues row.1.values)) }
    ensures steps { IfOk result (λ found. steps.old + length found ≤ steps.new) }
{
    let mut found = Seq::new(alloc);
    'rows: for entry in rows {
        add_in(entry, table, lo, hi, &mut found, steps)?;
    }
    Ok(found)
}

// That the rows stand in the order of their keys isn't proved here, so a snapshot of them doesn't tell its rows.
impl Snapshot for Stored {
    ghost use Rattle.std.specs.Prelude.{Some, None, []};

    ghost rows = { λ _. None };

    ghost held = { λ _ _ _ _. None };

    ghost damaged = { λ _. Some [] };

    ghost count = { λ _. 0 };

    fn rows_of<L: Ledger>(
        &mut self,
        table: u32,
        lo: u64,
        hi: u64,
        steps: &mut Steps<L>,
    ) -> Result<Seq<(u64, Row)>, ScanFault> {
        let found = copies_in(self.alloc, self.rows.as_slice(), table, lo, hi, steps)?;
        Ok(found)
    }

    fn faults(&self) -> u64 {
        0
    }
}
