//! [run] A gate that holds sessions where they pass it, by rules, for tests of interleavings.
//!
//! It keeps its rules and its limit, and lets each session go on after at most that many looks a rule. What it counted,
//! and whether it met the limit, stands in words that threads share, of which no contract tells.
//!
//! The crate stands on `td_outside` for the trait, on `td_limits` for the number of sessions, and on `td_layer` for
//! lists.
#![tactic(auto)]

mod holding;

pub use holding::{Hold, HoldGate};
