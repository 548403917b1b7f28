//! [tests] Tests of the stores: each call of a store and a place in memory failing once, and a real directory
//! that gives its bytes back.
//!
//! It stands on both ends of the outside, `td_memdev` and `td_realdev`, and promises nothing of its own.
#![tactic(auto)]

#[cfg(test)]
mod memory;
#[cfg(test)]
mod real;
