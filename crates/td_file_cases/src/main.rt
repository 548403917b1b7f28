//! [tests] Cases of files: each line of the input is a case, and its answer stands in the same line of the output.
//!
//! A case is a kind, a blank and a text. A line that is empty or begins with `#` is printed as it stands. The answers
//! beside which the program's are compared were worked out from the formats and the rules, without the program. `blocks`
//! has the kinds of blocks, `scans` and `folds` those of stt files and data files, `layers` those of snapshots over such
//! files and memtables, and `commits` those of the files that a memtable is written to; they say what a case of each
//! looks like. It stands on `td_block`, `td_sttfile`, `td_datafile`, `td_fileset` and `td_commit`, whose calls it asks,
//! on `td_memtable` for memtables, on `td_aggr` for what a fold gives, and on `td_cases`.
#![tactic(auto)]

mod blocks;
mod commits;
mod file;
mod folds;
mod hex;
mod layers;
mod lines;
mod parts;
mod scans;

use lines::shown_all;
use std::io::{self, BufRead, BufReader, BufWriter, Write};
use std::marker::Brand;
use std::sync::ledger::Blank;
use td_cases::CaseFault;

fn main(rt: HostRuntime) -> Result<(), CaseFault> {
    let alloc = rt.alloc();
    let mut lines = Vec::new(alloc);
    for line in BufReader::new(alloc, rt.reader())?.lines(alloc) {
        lines.push(line?)?;
    }
    let shown = shown_all::<Brand>(alloc, lines.as_slice(), Blank::new(1))?;
    let mut output = BufWriter::new(alloc, io::writer(&rt))?;
    output.write_all(shown.as_slice())?;
    output.flush()?;
    Ok(())
}
