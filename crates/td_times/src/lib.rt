//! [base] Timestamps: texts that name a moment, and the milliseconds since 1970 that they say.
//!
//! [`timestamp`] reads `YYYY-MM-DD HH:MM:SS`, with a fraction of a second or none, as milliseconds since 1970. It
//! promises to do so for exactly the texts of that form whose day and time of day exist; every other text is refused.
//! The rule is stated on whole texts in `specs/Times.antt`, and as a function that reads from left to right in
//! `specs/Stamps.antt`; [`timestamp`] answers by both. The functions of `laws.rt` do nothing: their contracts are
//! laws of the rule. A text says one time, a moment's full form is read as that moment, and the two ways to state the
//! rule are one.
//!
//! It stands on `jiff_core` for the civil calendar. The lexer and whatever gives a text's time a meaning stand on it.
#![tactic(auto)]

mod fault;
mod laws;
mod timestamps;

pub use fault::TimeFault;
pub use laws::{one_time, printed_time, read_from_the_left};
pub use timestamps::timestamp;
