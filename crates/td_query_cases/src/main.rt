//! [tests] Cases of answers: each line of the input tells of tables, of rows or of a query, and the output has what the
//! queries answer.
//!
//! `columns NAME..` names the columns, of which the first is the timestamp, one that ends in `?` has truth values and
//! the others have numbers; `tags NAME..` names the tags, which are texts; `table NUMBER NAME TAG..` adds a table;
//! `row TABLE TS VALUE..` adds a row, in which `-` is NULL; `clear` takes all rows away. A query is
//! `ask SOURCE ITEMS PARTS WINDOW ORDER LO..HI SKIP+COUNT`; `asks` says how each is written. It shows a line for each
//! row of that part of the answer, and then how many there are. What the output is compared with was worked out by
//! hand.
//!
//! `random SEED COUNT` makes so many stores by a seed, of tables with tags that are NULL or equal and of rows in any
//! order, and asks random queries with groups over each. `plain` answers each query too, by going over all rows as the
//! rules say it, without a call of `td_query`, `td_window` or `td_aggr`. The line shows `same COUNT` if all answers
//! agree, and else the first two that don't.
//!
//! It stands on `td_query`, whose call it asks, on `td_fields` for the places of columns, on `td_model` and `td_layer`
//! for the types, and on `td_cases`.
#![tactic(auto)]

mod asks;
mod lines;
mod plain;
mod plans;
mod player;
mod random;
mod stored;

use lines::play_all;
use std::io::{self, BufRead, BufReader, BufWriter, Write};
use std::marker::Brand;
use std::sync::ledger::Blank;
use td_cases::CaseFault;

fn main(rt: HostRuntime) -> Result<(), CaseFault> {
    let alloc = rt.alloc();
    let mut lines = Vec::new(alloc);
    for line in BufReader::new(alloc, rt.reader())?.lines(alloc) {
        lines.push(line?)?;
    }
    let shown = play_all::<Brand>(alloc, lines.as_slice(), Blank::new(1))?;
    let mut output = BufWriter::new(alloc, io::writer(&rt))?;
    output.write_all(shown.as_slice())?;
    output.flush()?;
    Ok(())
}
