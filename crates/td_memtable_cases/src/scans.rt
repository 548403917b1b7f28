//! Scans of a memtable, as the cases show them.
use crate::lines::Numbers;
use std::sync::ledger::Ledger;
use td_cases::{CaseFault, Out};
use td_layer::{Key, Partial, RowScan, Steps, Value};
use td_limits::MEMTABLE_PARTS;
use td_memtable::{MemScan, Memtable};

/// Adds the puts of a table from one timestamp to another, and `end`.
pub(crate) fn push_scan<L: Ledger>(
    out: &mut Out,
    memtable: &Memtable,
    numbers: Numbers,
    steps: &mut Steps<L>,
) -> Result<(), CaseFault> {
    let mut scan = memtable.scan(numbers.table, numbers.second, numbers.third);
    for _ in 0..=MEMTABLE_PARTS {
        if !push_next(out, &mut scan, steps)? {
            return Ok(());
        }
    }
    Ok(())
}

/// Adds the ranges of a table's cuts, joined, and `end`.
pub(crate) fn push_cuts(out: &mut Out, memtable: &Memtable, table: u32) -> Result<(), CaseFault> {
    let ranges = memtable.cuts(table)?;
    for (lo, hi) in ranges.as_slice() {
        out.number(i128::from(*lo));
        out.push(b" to ");
        out.number(i128::from(*hi));
        out.push(b"\n");
    }
    drop(ranges);
    out.push(b"end\n");
    Ok(())
}

// Adds the next put of a scan, or `end`: whether there was one.
fn push_next<L: Ledger>(
    out: &mut Out,
    scan: &mut MemScan<'_>,
    steps: &mut Steps<L>,
) -> Result<bool, CaseFault> {
    match scan.next(steps) {
        Err(_) => Err(CaseFault::NoMemory),
        Ok(None) => {
            out.push(b"end\n");
            Ok(false)
        }
        Ok(Some((key, put))) => {
            push_put(out, key, &put, scan.cut_at(key));
            drop(put);
            Ok(true)
        }
    }
}

fn push_put(out: &mut Out, key: Key, put: &Partial, is_cut: bool) {
    out.number(i128::from(key.ts));
    out.push(b" born ");
    out.number(i128::from(put.birth.born));
    out.push(b" [");
    for cell in put.cells.as_slice() {
        push_cell(out, cell);
    }
    out.push(if is_cut {
        b"] cut true\n".as_slice()
    } else {
        b"] cut false\n".as_slice()
    });
}

fn push_cell(out: &mut Out, cell: &Option<Value>) {
    match cell {
        None => out.push(b"unnamed"),
        Some(Value::Null) => out.push(b"NULL"),
        Some(Value::Num(n)) => out.number(*n),
    }
}
