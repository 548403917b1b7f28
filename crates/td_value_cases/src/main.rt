//! [tests] Cases of values: each line of the input is a case, and its answer stands in the same line of the output.
//!
//! A case is a kind, a blank and a text. A line that is empty or begins with `#` is printed as it stands. The answers
//! beside which the program's are compared were worked out from the definitions by hand. `lists`, `lanes`,
//! `aggregates`, `windows` and `tags` have the kinds; each says what a case of it looks like. It stands on `td_layer`,
//! `td_cols`, `td_aggr`, `td_window` and `td_tagidx`, whose calls it asks, and on `td_cases`.
#![tactic(auto)]

mod aggregates;
mod lanes;
mod lists;
mod tags;
mod windows;

use std::alloc::Global;
use td_cases::{CaseFault, Cases, Out, play_cases};

fn main(rt: HostRuntime) -> Result<(), CaseFault> {
    play_cases(&rt, rt.alloc(), &Values)
}

// Cases of values.
struct Values;

impl Cases for Values {
    fn push_answer(
        &self,
        out: &mut Out,
        alloc: Global,
        kind: &str,
        text: &str,
    ) -> Result<(), CaseFault> {
        match kind {
            "list" => lists::push_list(out, alloc, text),
            "roomy" => lists::push_roomy(out, alloc, text),
            "cells" => lists::push_copies(out, alloc, text),
            "row" => lists::push_row(out, alloc, text),
            "kind" => lanes::push_kind(out, text),
            "store" => lanes::push_stored(out, text),
            "load" => lanes::push_loaded(out, alloc, text),
            "put" => lanes::push_put(out, text),
            "get" => lanes::push_got(out, alloc, text),
            "aggregate" => aggregates::push_aggregates(out, alloc, text),
            "interval" => windows::push_intervals(out, alloc, text),
            "session" => windows::push_sessions(out, alloc, text),
            "state" => windows::push_states(out, alloc, text),
            "tags" => tags::push_found(out, alloc, text),
            "each" => tags::push_each(out, alloc, text),
            _ => Err(CaseFault::Unread),
        }
    }
}
