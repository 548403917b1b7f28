//! [answers] When a window of a stream is closed or due, and which ranges of timestamps must be computed anew after a
//! change.
//!
//! [`closed`] and [`due`] say whether a stream's trigger shows a window. [`region`] widens the ranges in which rows
//! came, went or changed to those that must be computed anew, for intervals, sessions and state windows. It is promised
//! that they answer exactly as `specs/Closing` and `specs/Regions` define, and that nothing overflows; want of memory
//! is the only way to fail.
//!
//! The laws ([`interval_windows_splice`], [`sessions_splice`], [`state_windows_splice`]) say what regions are good for:
//! where no row outside the touched ranges has changed, the windows now are the old windows that aren't wholly inside a
//! region, and the windows of the rows in each region that are wholly inside it. They speak of the definitions of
//! windows over lists of rows, before and after, and not of the code. [`intervals_meet_their_windows`] says what a
//! widened range of intervals is in terms of windows alone.
//!
//! The crate stands on `td_model`, which has the kinds of windows, on `td_window`, `td_layer` and `td_limits`.
#![tactic(auto)]

mod closing;
mod laws;
mod range;
mod regions;
mod widening;

pub use closing::{closed, due};
pub use laws::{
    interval_windows_splice, intervals_meet_their_windows, sessions_splice, state_windows_splice,
};
pub use range::Range;
pub use regions::region;
