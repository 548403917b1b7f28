//! [base] Windows over rows whose timestamps don't fall.
//!
//! [`interval`], [`session`] and [`state`] cut a slice of timestamps into windows, each in one pass, and give a
//! [`Span`] for each. It is promised that the spans are exactly the windows that hold a row, in order, each with
//! exactly its rows, and that nothing overflows. The room that they take grows with the number of windows; running out
//! of memory is the only way to fail.
//!
//! What each kind of window is stands in `specs/Windows`. The crate stands on `td_limits` and `td_layer`.
#![tactic(auto)]

mod intervals;
mod laws;
mod sessions;
mod span;
mod states;

pub use intervals::interval;
pub use laws::{interval_windows_are_determined, spans_group_rows};
pub use sessions::session;
pub use span::Span;
pub use states::state;
