//! [run] Files in making, and the swap of the head that names them.
//!
//! A commit begins its files with [`create_all`], and gives them up with [`abandon_all`] where something fails.
//! [`finish_all`] finishes them, [`next_head`] makes the file sets and the bytes of the head that names them, and
//! [`swap`] puts that head in the place of the one before, and drops the log before its first one.
//!
//! Promised: what becomes of the image of a store; finished files that were there stay as they were, and no head, log
//! or reader changes but by `swap`. Each file that the new head names is one of the sets before or has one of the given
//! numbers; those of `finish_all` are finished, each under a number that was free. The new sets stand by day range. A
//! failure comes only where the store's count of faults rose.
//!
//! It stands on `td_outside` for the store, on `td_manifest` for the head, on `td_levels` for the file sets, and on
//! `td_commit` for what a commit writes.
#![tactic(auto)]

mod heading;
mod making;

pub use heading::{NextHead, Swapped, next_head, swap};
pub use making::{abandon_all, create_all, finish_all};
