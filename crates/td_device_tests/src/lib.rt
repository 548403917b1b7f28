//! [tests] Tests of the devices in memory: the calls that fail and those that don't, and what a gate counted.
//!
//! What whole scripts show of these devices stands in `td_play_cases`. The crate has tests alone and promises nothing.
#![tactic(auto)]

#[cfg(test)]
mod gates;
#[cfg(test)]
mod streams;
