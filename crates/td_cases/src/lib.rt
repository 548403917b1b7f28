//! [tests] What the programs of cases share: how a case stands in a line, the text of an answer, and why a case has
//! none.
//!
//! A case is a line: a kind, a blank, and a text in which bytes may stand as escapes ([`unescaped`]). An answer is an
//! [`Out`], a text that is written without asking after each piece whether there was memory. [`play_cases`] is the whole
//! of a program whose cases stand one in a line. The crate stands under programs of cases alone and promises nothing
//! beyond its safety; it stands on `td_layer` and `itoa`.
#![tactic(auto)]

mod escapes;
mod fault;
mod hex;
mod lines;
mod out;

pub use escapes::{escaped, unescaped};
pub use fault::CaseFault;
pub use hex::{hex_bytes, push_hex};
pub use lines::{Cases, lines_of, play_cases, print};
pub use out::Out;
