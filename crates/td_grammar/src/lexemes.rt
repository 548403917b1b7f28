//! Tokens with their kinds.
use crate::kinds::TokenKind;
use td_lex::Token;

/// A token, and its kind: which says which words, numbers and signs stand at the same places.
#[derive(Debug, Drop)]
pub struct Lexeme {
    pub kind: TokenKind,
    pub token: Token,
}
