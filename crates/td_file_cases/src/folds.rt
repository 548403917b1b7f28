//! Folds of data files.
use crate::blocks::push_number;
use crate::file::CaseFile;
use crate::scans::{Asked, asked_of, number_of};
use std::alloc::Global;
use std::sync::ledger::Ledger;
use td_aggr::Tally;
use td_cases::{CaseFault, Out};
use td_datafile::fold;
use td_layer::{ScanFault, Seq, Steps, Value};

/// `fold COLUMN TABLE KINDS LO HI BYTES`: the counts of rows and values of a column of a table of a data file with
/// columns of these kinds, from one timestamp to another, with the sum, the least and the greatest of these values, and
/// the first and the last with their timestamps; or where the file is damaged.
pub(crate) fn push_folded<L: Ledger>(
    out: &mut Out,
    alloc: Global,
    text: &str,
    steps: &mut Steps<L>,
) -> Result<(), CaseFault> {
    push_asked(out, alloc, 0, text, steps)
}

/// `foldfail CALL COLUMN TABLE KINDS LO HI BYTES`: the same, where a call of the reader fails; the fold is then asked
/// again.
pub(crate) fn push_failing<L: Ledger>(
    out: &mut Out,
    alloc: Global,
    text: &str,
    steps: &mut Steps<L>,
) -> Result<(), CaseFault> {
    let (call, text) = text.split_once(' ').unwrap_or((text, ""));
    let call = number_of(Some(call))?;
    push_asked(out, alloc, call, text, steps)
}

fn push_asked<L: Ledger>(
    out: &mut Out,
    alloc: Global,
    fails: u64,
    text: &str,
    steps: &mut Steps<L>,
) -> Result<(), CaseFault> {
    let (column, text) = text.split_once(' ').unwrap_or((text, ""));
    let column = number_of(Some(column))?;
    let Asked {
        table,
        kinds,
        lo,
        hi,
        bytes,
    } = asked_of(alloc, text)?;
    if column >= kinds.len() as u64 {
        return Err(CaseFault::Unread);
    }
    let column = column as usize;
    let mut file = CaseFile::new(Seq::from_vec(alloc, bytes), fails);
    let mut folded = fold(
        alloc,
        &mut file,
        table,
        kinds.as_slice(),
        lo,
        hi,
        column,
        steps,
    );
    if let Err(ScanFault::ReadFault) = folded {
        out.push(b"read fault; ");
        folded = fold(
            alloc,
            &mut file,
            table,
            kinds.as_slice(),
            lo,
            hi,
            column,
            steps,
        );
    }
    push_answer(out, folded)
}

fn push_answer(out: &mut Out, folded: Result<Tally, ScanFault>) -> Result<(), CaseFault> {
    match folded {
        Ok(tally) => {
            push_tally(out, &tally);
            Ok(())
        }
        Err(ScanFault::ReadFault) => {
            out.push(b"read fault");
            Ok(())
        }
        Err(ScanFault::Damaged { file, at }) => {
            push_number(out, b"file ", i128::from(file));
            push_number(out, b" damaged at ", i128::from(at));
            Ok(())
        }
        Err(ScanFault::NoMemory) => Err(CaseFault::NoMemory),
    }
}

fn push_tally(out: &mut Out, tally: &Tally) {
    push_number(out, b"rows ", i128::from(tally.rows));
    push_number(out, b" count ", i128::from(tally.count));
    push_number(out, b" sum ", tally.sum);
    push_value(out, b" least ", tally.min);
    push_value(out, b" greatest ", tally.max);
    push_mark(out, b" first ", tally.first);
    push_mark(out, b" last ", tally.last);
}

fn push_value(out: &mut Out, word: &[u8], value: Value) {
    match value {
        Value::Null => {
            out.push(word);
            out.push(b"NULL");
        }
        Value::Num(number) => push_number(out, word, number),
    }
}

fn push_mark(out: &mut Out, word: &[u8], mark: Option<(u64, u32, i128)>) {
    match mark {
        None => {
            out.push(word);
            out.push(b"NULL");
        }
        Some((ts, _, number)) => {
            push_number(out, word, number);
            push_number(out, b" at ", i128::from(ts));
        }
    }
}
