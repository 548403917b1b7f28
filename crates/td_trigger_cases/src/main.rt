//! [tests] Cases of triggers and regions: each line of the input is a case, and its answer stands in the same line of
//! the output.
//!
//! A case is a kind, a blank and a text. A line that is empty or begins with `#` is printed as it stands. The answers
//! beside which the program's are compared were worked out from the definitions by hand. `windows` says how windows
//! and ranges are written, and `regions` and `closing` what the cases look like. It stands on `td_trigger`, whose
//! calls it asks, and on `td_cases`.
#![tactic(auto)]

mod closing;
mod regions;
mod windows;

use std::alloc::Global;
use td_cases::{CaseFault, Cases, Out, play_cases};

fn main(rt: HostRuntime) -> Result<(), CaseFault> {
    play_cases(&rt, rt.alloc(), &Triggers)
}

// Cases of triggers.
struct Triggers;

impl Cases for Triggers {
    fn push_answer(
        &self,
        out: &mut Out,
        alloc: Global,
        kind: &str,
        text: &str,
    ) -> Result<(), CaseFault> {
        match kind {
            "region" => regions::push_regions(out, alloc, text),
            "closed" => closing::push_closed(out, alloc, text),
            "due" => closing::push_due(out, text),
            _ => Err(CaseFault::Unread),
        }
    }
}
