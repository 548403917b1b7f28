//! [tests] Cases of the memtable: each line of the input is a call on one memtable, and the output has what they
//! answer.
//!
//! `put TABLE TS VALUE` lays one cell, and the birth rises by one a put; `cut TABLE LO HI` cuts; `share` keeps the
//! memtable as it is; `held` shows the count; `scan TABLE LO HI` shows the puts in the range, each with its birth,
//! its cell and whether it lies in a cut, and `kept TABLE LO HI` those of the memtable that was shared; `cuts TABLE`
//! shows the ranges of its cuts, joined; `tree N` makes a tree of N pairs, shares it, puts N more between them, and
//! shows how many pairs the share and the tree walk, and the sum of their timestamps. What the output is compared with
//! was worked out by hand. It stands on `td_memtable` and `td_memtree`, whose calls it asks, and on `td_cases`.
#![tactic(auto)]

mod lines;
mod player;
mod scans;
mod shared_tree;

use lines::play_all;
use std::marker::Brand;
use std::sync::ledger::Blank;
use td_cases::{CaseFault, lines_of, print};

fn main(rt: HostRuntime) -> Result<(), CaseFault> {
    let alloc = rt.alloc();
    let lines = lines_of(&rt, alloc)?;
    let shown = play_all::<Brand>(alloc, lines.as_slice(), Blank::new(1));
    drop(lines);
    let shown = shown?;
    let printed = print(&rt, shown.as_slice());
    drop(shown);
    printed
}
