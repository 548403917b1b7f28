//! Threads that take turns.
ghost use Rattle.std.specs.Prelude.{◌≡◌, ◌+◌, ◌<◌, IfOk};
ghost use Rattle.std.specs.Thread.{IsSync};
ghost use Rattle.td_turn.specs.Passes.{IsPassOf};

use crate::tally::Tally;
use std::alloc::Global;
use std::sync::Wait;
use std::thread::{Threads, join};
use td_layer::NoMem;
use td_turn::{Pass, Turn, value};

/// How many turns each thread takes.
const TURNS: u32 = 10_000;

/// A pass, and the counts that were found in the turns that it was used for.
type Found = (Pass<Tally>, Vec<u64>);

// One turn, in which the count is raised. Answers the count.
fn turn_once<R: Wait>(rt: &R, turn: &Turn<Tally>, pass: Pass<Tally>) -> (Pass<Tally>, u64)
    requires { IsPassOf turn.now pass }
    ensures { IsPassOf turn.now result.0 × (result.0.parts ≡ pass.parts) }
{
    let mut held = turn.take(rt, pass);
    let tally = value(&mut held);
    let entries = tally.raise();
    let count = tally.count;
    (turn.give(held, entries), count)
}

// The turns of one thread.
fn turns<R: Wait>(
    rt: &R,
    alloc: Global,
    turn: &Turn<Tally>,
    mut pass: Pass<Tally>,
) -> Result<Found, NoMem>
    requires { IsPassOf turn.now pass }
    ensures { IfOk result (λ found. IsPassOf turn.now found.0 × (found.0.parts ≡ pass.parts)) }
{
    let mut counts = Vec::new(alloc);
    for _ in 0..TURNS {
        let (next, count) = turn_once(rt, turn, pass);
        pass = next;
        counts.push(count)?;
    }
    Ok((pass, counts))
}

// What two found, in one.
fn joined(turn: &Turn<Tally>, one: Found, other: Found) -> Result<Found, NoMem>
    requires { IsPassOf turn.now one.0 × IsPassOf turn.now other.0 }
    ensures { IfOk result (λ found. IsPassOf turn.now found.0 × (found.0.parts ≡ one.0.parts + other.0.parts)) }
{
    let (pass, mut counts) = one;
    let (other, more) = other;
    for count in more {
        counts.push(count)?;
    }
    Ok((turn.join(pass, other), counts))
}

/// The turns of one thread and of `others` further ones at the same time.
pub fn crowd<R: Threads + Wait + Sync>(
    rt: &R,
    alloc: Global,
    turn: &Turn<Tally>,
    pass: Pass<Tally>,
    others: u32,
) -> Result<Found, NoMem>
    requires turn { IsPassOf turn.now pass }
    requires parts { others < pass.parts }
    ensures { IfOk result (λ found. IsPassOf turn.now found.0 × (found.0.parts ≡ pass.parts)) }
{
    if others == 0 {
        return turns(rt, alloc, turn, pass);
    }
    let left = others - 1;
    let (rest, own) = turn.split(pass);
    let (one, more) = join(
        rt,
        || -> Result<Found, NoMem>
            requires { IsPassOf turn.now own }
            ensures { IfOk result (λ found. IsPassOf turn.entry.now found.0 × (found.0.parts ≡ own.parts)) }
        { turns(rt, alloc, turn, own) },
        || -> Result<Found, NoMem>
            requires { IsSync R.row × IsPassOf turn.now rest × (left < rest.parts) }
            ensures { IfOk result (λ found. IsPassOf turn.entry.now found.0 × (found.0.parts ≡ rest.parts)) }
        { crowd(rt, alloc, turn, rest, left) },
    );
    joined(turn, more?, one?)
}
