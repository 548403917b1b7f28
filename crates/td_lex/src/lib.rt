//! [text] The lexer of the statement language: tokens and decimal texts.
//!
//! [`tokens`] reads a text as words, numbers, durations, texts in quotes, symbols and operators, which blanks may part.
//! It promises exactly the tokens of the token grammar with their places, or the first place from the left at which no
//! token begins or a number is too wide; [`tokens_and_fault`] gives the tokens before that place too. [`decimal`]
//! appends the decimal text of a number. The grammar is stated on whole texts in `specs/Tokens.antt`. The functions of
//! `laws.rt` do nothing: their contracts are laws of that definition. A text has one answer; it can be cut where a
//! token ends and joined by a blank; what is printed is read back. [`timestamp`] is `td_times`'s, named here too, since
//! a text in quotes may be one.
//!
//! It stands on `td_layer` for its lists, on `td_times` for timestamps, and on `itoa` for decimal digits. That memory
//! runs out only where there is none left is shown by tests, and by no contract.
#![tactic(auto)]

mod decimals;
mod kinds;
mod laws;
mod lexer;
mod scan;

pub use decimals::decimal;
pub use kinds::{LexFault, Spanned, Token};
pub use laws::{
    cut_at_a_token, cut_before_the_rest, joined_by_a_blank, one_answer, one_front, one_token,
    printed_number, read_to_a_stop,
};
pub use lexer::{Lexed, tokens, tokens_and_fault};
pub use td_times::{TimeFault, one_time, printed_time, timestamp};
