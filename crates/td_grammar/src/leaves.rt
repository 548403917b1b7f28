//! Functions that read one token.
ghost use Rattle.std.specs.Prelude.{◌≡◌, ◌*◌, [], ◌∷◌, true, IfOk};
ghost use Rattle.std.specs.List.{list_all};
ghost use Rattle.td_grammar.specs.Grammar.{only, within, fits, one, read};
ghost use Rattle.td_grammar.specs.Grammar.{starts as starts_with};
ghost use Rattle.td_grammar.specs.Gives.{Gives};
ghost use Rattle.td_grammar.specs.Names.{is_folded as is_folded_byte, is_name as is_a_name, as_name as name_as};
ghost use Rattle.td_grammar.specs.Words.{skipped, name as a_name, number as a_number, zero_or_one as a_bit, quoted_text as a_text, duration as a_duration, same_name as the_same_name, word_of, text_of, number_of, duration_of, unit_of};

use crate::fault::Fault;
use crate::kinds::{BIT, DURATION, KindRange, NAMES, NUMBERS, TEXT, TokenKind};
use crate::lexemes::Lexeme;
use crate::words::kind_of_word;
use std::alloc::Global;
use td_layer::{Name, NoMem, Seq};
use td_lex::Token;
use td_limits::LONGEST_DURATION;

/// Whether a token of this kind is next.
pub fn starts(tokens: &[Lexeme], kind: TokenKind) -> bool
    ensures { result ≡ starts_with (only kind) tokens.now }
{
    let low = kind;
    let high = kind;
    starts_in(tokens, KindRange { low, high })
}

/// Whether a token whose kind is in this range is next.
#[tactic(auto, using(std::proofs::lemmas::Bool::Decides::nat_tests))]
pub fn starts_in(tokens: &[Lexeme], range: KindRange) -> bool
    ensures { result ≡ starts_with (within range) tokens.now }
{
    match tokens {
        [] => false,
        [token, ..] => range.low <= token.kind && token.kind <= range.high,
    }
}

/// The next token, whose kind is in this range, and those behind it.
#[tactic(auto, using(std::proofs::lemmas::Bool::Decides::nat_tests))]
pub fn token_in(tokens: &[Lexeme], range: KindRange) -> Result<(&Lexeme, &[Lexeme]), Fault>
    ensures { Gives (λ x. (x.0.now, x.1.now)) result (one (fits (within range) (λ _. true)) (λ t. t) tokens.now) }
{
    match tokens {
        [] => Err(Fault::At(0)),
        [token, rest @ ..] => {
            if range.low <= token.kind && token.kind <= range.high {
                Ok((token, rest))
            } else {
                Err(Fault::At(tokens.len()))
            }
        }
    }
}

/// The next token, which is of this kind, and those behind it.
pub fn token_of(tokens: &[Lexeme], kind: TokenKind) -> Result<(&Lexeme, &[Lexeme]), Fault>
    ensures { Gives (λ x. (x.0.now, x.1.now)) result (one (fits (only kind) (λ _. true)) (λ t. t) tokens.now) }
{
    let low = kind;
    let high = kind;
    token_in(tokens, KindRange { low, high })
}

/// What follows the next token, which is the word or the sign of this kind.
#[tactic(auto, using(crate::proofs::Forms::one_value))]
pub fn keyword(tokens: &[Lexeme], kind: TokenKind) -> Result<&[Lexeme], Fault>
    ensures { Gives (λ rest. (tt, rest.now)) result (skipped kind tokens.now) }
{
    let (_, rest) = token_of(tokens, kind)?;
    Ok(rest)
}

/// The text of a word; that of another token is empty.
pub fn word_of(alloc: Global, token: &Token) -> Result<Name, NoMem>
    ensures { IfOk result (λ text. text ≡ word_of token.now) }
{
    match token {
        Token::Word(text) => text.copy(),
        _ => Ok(Seq::new(alloc)),
    }
}

// The content of a text in quotes; that of another token is empty.
fn text_of(alloc: Global, token: &Token) -> Result<Name, NoMem>
    ensures { IfOk result (λ text. text ≡ text_of token.now) }
{
    match token {
        Token::Str(text) => text.copy(),
        _ => Ok(Seq::new(alloc)),
    }
}

fn number_of(token: &Token) -> i128
    ensures { result ≡ number_of token.now }
{
    match token {
        Token::Num(n) => *n,
        _ => 0,
    }
}

// The milliseconds of a unit; 0 of one that is not built.
fn unit_of(unit: u8) -> u64
    ensures { result ≡ unit_of unit }
{
    if unit == b'a' {
        1
    } else if unit == b's' {
        1000
    } else if unit == b'm' {
        60 * 1000
    } else if unit == b'h' {
        3600 * 1000
    } else if unit == b'd' {
        24 * 3600 * 1000
    } else if unit == b'w' {
        7 * 24 * 3600 * 1000
    } else {
        0
    }
}

// The milliseconds of a duration; one above the longest is kept as one more than that.
fn duration_of(token: &Token) -> u64
    ensures { result ≡ duration_of token.now }
{
    match token {
        Token::Dur { count, unit } => {
            let product = *count as u128 * unit_of(*unit) as u128;
            if product > LONGEST_DURATION as u128 {
                LONGEST_DURATION + 1
            } else {
                product as u64
            }
        }
        _ => 0,
    }
}

/// A name, which is a word that is neither reserved nor one that is not built.
#[tactic(auto, using(crate::proofs::Forms::one_value))]
pub fn name(alloc: Global, tokens: &[Lexeme]) -> Result<(Name, &[Lexeme]), Fault>
    ensures { Gives (λ x. (x.0, x.1.now)) result (read (tt {0}) a_name tokens.now) }
{
    let (token, rest) = token_in(tokens, NAMES)?;
    let text = word_of(alloc, &token.token)?;
    Ok((text, rest))
}

/// A number.
#[tactic(auto, using(crate::proofs::Forms::one_value))]
pub fn number(tokens: &[Lexeme]) -> Result<(i128, &[Lexeme]), Fault>
    ensures { Gives (λ x. (x.0, x.1.now)) result (read (tt {0}) a_number tokens.now) }
{
    let (token, rest) = token_in(tokens, NUMBERS)?;
    Ok((number_of(&token.token), rest))
}

/// The number 0 or 1.
#[tactic(auto, using(crate::proofs::Forms::one_value))]
pub fn zero_or_one(tokens: &[Lexeme]) -> Result<(bool, &[Lexeme]), Fault>
    ensures { Gives (λ x. (x.0, x.1.now)) result (read (tt {0}) a_bit tokens.now) }
{
    let (token, rest) = token_of(tokens, BIT)?;
    Ok((number_of(&token.token) == 1, rest))
}

/// A text in quotes.
#[tactic(auto, using(crate::proofs::Forms::one_value))]
pub fn quoted_text(alloc: Global, tokens: &[Lexeme]) -> Result<(Name, &[Lexeme]), Fault>
    ensures { Gives (λ x. (x.0, x.1.now)) result (read (tt {0}) a_text tokens.now) }
{
    let (token, rest) = token_of(tokens, TEXT)?;
    let text = text_of(alloc, &token.token)?;
    Ok((text, rest))
}

/// A duration, in milliseconds.
#[tactic(auto, using(crate::proofs::Forms::one_value))]
pub fn duration(tokens: &[Lexeme]) -> Result<(u64, &[Lexeme]), Fault>
    ensures { Gives (λ x. (x.0, x.1.now)) result (read (tt {0}) a_duration tokens.now) }
{
    let (token, rest) = token_of(tokens, DURATION)?;
    Ok((duration_of(&token.token), rest))
}

// Whether it is a byte of a word, and not a capital.
fn is_folded_byte(b: u8) -> bool
    ensures { result ≡ is_folded_byte b }
{
    (b.is_ascii_alphanumeric() || b == b'_') && b.to_ascii_lowercase() == b
}

fn is_folded(text: &[u8]) -> bool
    ensures { result ≡ list_all is_folded_byte text.now }
{
    text.iter().all(|b| is_folded_byte(*b))
}

// Whether these bytes are a name.
#[tactic(auto, using(std::proofs::lemmas::Bool::Decides::nat_tests))]
fn is_name(text: &[u8]) -> bool
    ensures { result ≡ is_a_name text.now }
{
    match text {
        [] => false,
        [b, ..] => {
            let kind = kind_of_word(text);
            (b.is_ascii_alphabetic() || *b == b'_')
                && is_folded(text)
                && NAMES.low <= kind
                && kind <= NAMES.high
        }
    }
}

// The name that these bytes are, or `x`.
fn as_name(text: &[u8]) -> &[u8]
    ensures { result.now ≡ name_as text.now }
{
    if is_name(text) { text } else { b"x" }
}

/// What follows the name in force. Of bytes that are no name it is `x`, as the definition has it; a name that was
/// read is one.
#[tactic(auto, using(crate::proofs::Forms::one_tested))]
pub fn same_name<'a>(
    alloc: Global,
    name: &[u8],
    tokens: &'a [Lexeme],
) -> Result<&'a [Lexeme], Fault>
    ensures { Gives (λ rest. (tt, rest.now)) result (read name.now the_same_name tokens.now) }
{
    let (token, rest) = token_in(tokens, NAMES)?;
    let text = word_of(alloc, &token.token)?;
    if text.as_slice() == as_name(name) {
        Ok(rest)
    } else {
        Err(Fault::At(tokens.len()))
    }
}
