//! [text] Grammars over the tokens of the statement language, given as data.
//!
//! A grammar is a value of `G`: which kinds of tokens, one text after the other, an option, a choice, a repetition.
//! What it derives is defined by cases on it, with no word of reading; a text that no derivation has fails at the
//! first token such that no text of the grammar begins with the tokens before it and that token. `read` goes through
//! the tokens from left to right with one token of lookahead, and the proofs show once, for each grammar that passes
//! the closed test `good`, that it gives exactly the grammar's trees and the first failures. A parser's function
//! promises that it gives what `read` gives for its production.
//!
//! The crate has the words of the language with their kinds, the functions that read one token, the reader of a list
//! whose items commas part, and nothing of the language's statements. It stands on `td_limits`, `td_layer` and
//! `td_lex`.
#![tactic(auto)]

mod fault;
pub mod kinds;
mod leaves;
mod lexemes;
mod lists;
mod words;

pub use fault::Fault;
pub use kinds::{KindRange, TokenKind};
pub use leaves::{
    duration, keyword, name, number, quoted_text, same_name, starts, starts_in, token_in, token_of,
    word_of, zero_or_one,
};
pub use lexemes::Lexeme;
pub use lists::{Listed, comma_list};
pub use words::{kind_of, lexeme};
