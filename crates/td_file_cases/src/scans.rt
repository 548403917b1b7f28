//! Scans of files.
use crate::blocks::{kinds_of, push_number, push_row};
use crate::file::CaseFile;
use crate::hex::bytes_of;
use std::alloc::Global;
use std::sync::ledger::Ledger;
use td_cases::{CaseFault, Out};
use td_cols::Kind;
use td_layer::{Key, RowScan, ScanFault, Seq, Steps};
use td_sttfile::scan;

// No file of a case has as many rows.
const MOST: u32 = 1 << 20;

/// What a case asks of a file: the partials of a table, from one timestamp to another.
#[derive(Drop)]
pub(crate) struct Asked {
    pub table: u32,
    pub kinds: Vec<Kind>,
    pub lo: u64,
    pub hi: u64,
    pub bytes: Vec<u8>,
}

/// The number that a word is.
pub(crate) fn number_of(word: Option<&str>) -> Result<u64, CaseFault> {
    word.unwrap_or("")
        .parse::<u64>()
        .map_err(|_| CaseFault::Unread)
}

/// `TABLE KINDS LO HI BYTES`.
pub(crate) fn asked_of(alloc: Global, text: &str) -> Result<Asked, CaseFault> {
    let mut words = text.splitn(5, ' ');
    let table = words.next().unwrap_or("").parse::<u32>();
    let table = table.map_err(|_| CaseFault::Unread)?;
    let kinds = kinds_of(alloc, words.next().unwrap_or(""))?;
    let lo = number_of(words.next())?;
    let hi = number_of(words.next())?;
    let bytes = bytes_of(alloc, words.next().unwrap_or(""))?;
    Ok(Asked {
        table,
        kinds,
        lo,
        hi,
        bytes,
    })
}

/// `scan TABLE KINDS LO HI BYTES`: the partials of a table of an stt file with columns of these kinds, from one
/// timestamp to another, each with `cut` behind it where it lies in a cut, and `end`; or where the file is damaged.
pub(crate) fn push_scanned<L: Ledger>(
    out: &mut Out,
    alloc: Global,
    text: &str,
    steps: &mut Steps<L>,
) -> Result<(), CaseFault> {
    push_asked(out, alloc, 0, text, steps)
}

/// `fail CALL TABLE KINDS LO HI BYTES`: the same, where a call of the reader fails; the scan is then asked again.
pub(crate) fn push_failing<L: Ledger>(
    out: &mut Out,
    alloc: Global,
    text: &str,
    steps: &mut Steps<L>,
) -> Result<(), CaseFault> {
    let (call, text) = text.split_once(' ').unwrap_or((text, ""));
    let call = number_of(Some(call))?;
    push_asked(out, alloc, call, text, steps)
}

fn push_asked<L: Ledger>(
    out: &mut Out,
    alloc: Global,
    fails: u64,
    text: &str,
    steps: &mut Steps<L>,
) -> Result<(), CaseFault> {
    let Asked {
        table,
        kinds,
        lo,
        hi,
        bytes,
    } = asked_of(alloc, text)?;
    let file = CaseFile::new(Seq::from_vec(alloc, bytes), fails);
    let mut scan = scan(alloc, file, table, kinds.as_slice(), lo, hi);
    let pushed = push_all(out, &mut scan, steps);
    let file = scan.into_reader();
    drop(file);
    pushed
}

/// `data TABLE KINDS LO HI BYTES`: the partials of a table of a data file with columns of these kinds, from one
/// timestamp to another, and `end`; or where the file is damaged.
pub(crate) fn push_data<L: Ledger>(
    out: &mut Out,
    alloc: Global,
    text: &str,
    steps: &mut Steps<L>,
) -> Result<(), CaseFault> {
    push_asked_data(out, alloc, 0, text, steps)
}

/// `datafail CALL TABLE KINDS LO HI BYTES`: the same, where a call of the reader fails; the scan is then asked again.
pub(crate) fn push_failing_data<L: Ledger>(
    out: &mut Out,
    alloc: Global,
    text: &str,
    steps: &mut Steps<L>,
) -> Result<(), CaseFault> {
    let (call, text) = text.split_once(' ').unwrap_or((text, ""));
    let call = number_of(Some(call))?;
    push_asked_data(out, alloc, call, text, steps)
}

fn push_asked_data<L: Ledger>(
    out: &mut Out,
    alloc: Global,
    fails: u64,
    text: &str,
    steps: &mut Steps<L>,
) -> Result<(), CaseFault> {
    let Asked {
        table,
        kinds,
        lo,
        hi,
        bytes,
    } = asked_of(alloc, text)?;
    let file = CaseFile::new(Seq::from_vec(alloc, bytes), fails);
    let mut scan = td_datafile::scan(alloc, file, table, kinds.as_slice(), lo, hi);
    let pushed = push_all(out, &mut scan, steps);
    let file = scan.into_reader();
    drop(file);
    pushed
}

// Adds what the calls of a scan answer.
fn push_all<S: RowScan, L: Ledger>(
    out: &mut Out,
    scan: &mut S,
    steps: &mut Steps<L>,
) -> Result<(), CaseFault> {
    for _ in 0..MOST {
        if !push_next(out, scan, steps)? {
            return Ok(());
        }
    }
    Ok(())
}

// Adds what the next call of a scan answers: whether it may be asked again.
fn push_next<S: RowScan, L: Ledger>(
    out: &mut Out,
    scan: &mut S,
    steps: &mut Steps<L>,
) -> Result<bool, CaseFault> {
    match scan.next(steps) {
        Ok(None) => {
            out.push(b"end");
            Ok(false)
        }
        Ok(Some((key, partial))) => {
            push_row(out, &(key.ts, partial));
            if scan.cut_at(key) {
                out.push(b" cut");
            }
            out.push(b"; ");
            Ok(true)
        }
        Err(ScanFault::ReadFault) => {
            out.push(b"read fault; ");
            Ok(true)
        }
        Err(ScanFault::Damaged { file, at }) => {
            push_number(out, b"file ", i128::from(file));
            push_number(out, b" damaged at ", i128::from(at));
            Ok(false)
        }
        Err(ScanFault::NoMemory) => Err(CaseFault::NoMemory),
    }
}

/// `cut TABLE KINDS LO HI BYTES`: whether the keys of the table at the two timestamps lie in a cut of the file.
pub(crate) fn push_cuts<L: Ledger>(
    out: &mut Out,
    alloc: Global,
    text: &str,
    steps: &mut Steps<L>,
) -> Result<(), CaseFault> {
    let Asked {
        table,
        kinds,
        lo,
        hi,
        bytes,
    } = asked_of(alloc, text)?;
    let file = CaseFile::new(Seq::from_vec(alloc, bytes), 0);
    let mut scan = scan(alloc, file, table, kinds.as_slice(), lo, hi);
    let first = Key { table, ts: lo };
    let last = Key { table, ts: hi };
    if scan.next(steps).is_ok() {
        push_cut(out, scan.cut_at(first));
        out.push(b" ");
        push_cut(out, scan.cut_at(last));
    } else {
        out.push(b"not begun");
    }
    let file = scan.into_reader();
    drop(file);
    Ok(())
}

fn push_cut(out: &mut Out, is_cut: bool) {
    out.push(if is_cut {
        b"cut".as_slice()
    } else {
        b"kept".as_slice()
    });
}
