//! [definitions] What the rules give for a statement in a state, and when a report tells the run of a script.
//!
//! The definitions stand in `specs/`, one file a subject: `Verdict` (what the rules give for a statement in a state,
//! and what a query answers), `Asked` (the statements of a script with their sessions and ordinals), `Journal` (the
//! history that a journal stands for), `Replies` (what each reply says, and which cursors are open), `Numbers` (how the
//! numbers of replies follow one another), `Times` (moments beside the readings of a clock), `Told` (when a report
//! tells the run of a script, with and without the order of its lines) and `Turn` (what one statement's turn gives).
//! `proofs/Worked` has an example, checked by computing. They are apart from those of `td_model` because they grow with
//! each form of statement that is supported, and code that parses statements or keeps names doesn't use them.
//!
//! [`reads_clock`] tells which turns read the clock. The crate stands on `td_verdict`, `td_model` and `td_limits`.
#![tactic(auto)]

mod clock;

pub use clock::reads_clock;
