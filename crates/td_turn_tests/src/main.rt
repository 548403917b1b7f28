//! [tests] Eight threads take 10,000 turns each at a value that counts. Each version is found once, in whatever order.
//!
//! It stands on `td_turn`.
#![tactic(auto)]

ghost use Rattle.std.specs.Prelude.{◌≡◌};

mod crowd;
mod tally;

use crowd::crowd;
use std::alloc::Global;
use std::io;
use std::sync::Wait;
use std::thread::Threads;
use tally::Tally;
use td_layer::NoMem;
use td_turn::Turn;

/// How many threads take turns beside the first.
const OTHERS: u32 = 7;

/// The counts that were found, from the lowest on, and the count at the end.
fn counts_found<R: Threads + Wait + Sync>(rt: &R, alloc: Global) -> Result<(Vec<u64>, u64), NoMem> {
    let (turn, pass) = match Turn::new(alloc, Tally::new()) {
        Ok(made) => made,
        Err((_, NoMem)) => return Err(NoMem),
    };
    let (pass, mut counts) = crowd(rt, alloc, &turn, pass, OTHERS)?;
    let tally = turn.close(pass);
    counts.sort_unstable();
    Ok((counts, tally.count))
}

/// Whether the counts are the numbers from 1 on, each once.
fn is_each_once(counts: &[u64]) -> bool {
    counts
        .iter()
        .enumerate()
        .all(|(at, count)| at as u64 + 1 == *count)
}

fn main(rt: HostRuntime) -> io::Result<()> {
    let Ok((counts, count)) = counts_found(&rt, rt.alloc()) else {
        return println!(rt; "out of memory");
    };
    println!(rt; "turns {}", counts.len())?;
    println!(rt; "versions each once: {}", is_each_once(counts.as_slice()))?;
    println!(rt; "count {count}")
}
