//! The token at the front of a text.
ghost use Rattle.std.specs.Prelude.{◌≡◌, ◌≤◌, ◌+◌, length, take, drop, Option};
ghost use Rattle.std.specs.Char.{is_ascii_digit};
ghost use Rattle.std.specs.Option.{option_map};
ghost use Rattle.std.specs.List.{prefix_len};
ghost use Rattle.td_lex.specs.Tokens.{Begins, is_sign, is_blank, is_word_start, is_word_byte, is_quote, is_text_byte, is_unit, is_symbol};
ghost use Rattle.std.specs.Str.Parse.{IsNumeral, without_leading_sign};
ghost use Rattle.td_lex.specs.Pieces.{content_by, IsShorter};
ghost use Rattle.td_lex.specs.Lexing.{Gives, ends, word_of, whole_of, duration_of, count_of, unsigned_of, signed_of, content_of, text_of, symbol_of, token_of};

use crate::kinds::{Stop, Token};
use std::alloc::Global;
use td_layer::Seq;

fn is_word_start(b: u8) -> bool
    ensures { result ≡ is_word_start b }
{
    b.is_ascii_alphabetic() || b == b'_'
}

fn is_word_byte(b: u8) -> bool
    ensures { result ≡ is_word_byte b }
{
    b.is_ascii_alphanumeric() || b == b'_'
}

fn is_blank(b: u8) -> bool
    ensures { result ≡ is_blank b }
{
    b == b' ' || b == b'\t'
}

fn is_sign(b: u8) -> bool
    ensures { result ≡ is_sign b }
{
    b == b'+' || b == b'-'
}

fn is_quote(b: u8) -> bool
    ensures { result ≡ is_quote b }
{
    b == b'\'' || b == b'"'
}

fn is_text_byte(b: u8) -> bool
    ensures { result ≡ is_text_byte b }
{
    b >= 32 && b != 127
}

fn is_unit(b: u8) -> bool
    ensures { result ≡ is_unit b }
{
    matches!(
        b.to_ascii_lowercase(),
        b'a' | b'b' | b'd' | b'h' | b'm' | b'n' | b's' | b'u' | b'w' | b'y'
    )
}

fn is_symbol(b: u8) -> bool
    ensures { result ≡ is_symbol b }
{
    matches!(b, b'(' | b')' | b',' | b';' | b'*' | b'<' | b'>' | b'=')
}

// Whether no letter, digit or `_` stands first.
fn ends(text: &[u8]) -> bool
    ensures { result ≡ ends text.now }
{
    match text {
        [] => true,
        [b, ..] => !is_word_byte(*b),
    }
}

// How many bytes at the front are letters, digits and `_`.
fn word_len(text: &[u8]) -> usize
    ensures value { result ≡ prefix_len is_word_byte text.now }
    ensures within { result ≤ length text.now }
{
    for (i, b) in text.iter().enumerate() {
        if !is_word_byte(*b) {
            return i;
        }
    }
    text.len()
}

// How many bytes at the front are digits.
fn digits_len(text: &[u8]) -> usize
    ensures value { result ≡ prefix_len is_ascii_digit text.now }
    ensures within { result ≤ length text.now }
{
    for (i, b) in text.iter().enumerate() {
        if !b.is_ascii_digit() {
            return i;
        }
    }
    text.len()
}

// What follows the blanks at the front.
pub(crate) fn past_blanks(text: &[u8]) -> &[u8]
    ensures { result.now ≡ drop (prefix_len is_blank text.now) text.now }
{
    for (i, b) in text.iter().enumerate() {
        if !is_blank(*b) {
            return &text[i..];
        }
    }
    &text[text.len()..]
}

// The word at the front, folded to lower case.
#[tactic(auto, unfolding(crate::specs::Lexing::word_of))]
fn word(alloc: Global, text: &[u8]) -> Result<(Token, &[u8]), Stop>
    ensures { Gives (λ p. (p.0, p.1.now)) result (word_of text.now) }
{
    let (front, after) = text.split_at(word_len(text));
    let mut name = Vec::from_slice(alloc, front)?;
    name.make_ascii_lowercase();
    Ok((Token::Word(Seq::from_vec(alloc, name)), after))
}

// The number that a sign and digits are.
#[tactic(auto, unfolding(crate::specs::Lexing::whole_of))]
fn whole<'a>(front: &[u8], after: &'a [u8]) -> Result<(Token, &'a [u8]), Stop>
    requires { IsNumeral 10 (without_leading_sign front.now) }
    ensures { Gives (λ p. (p.0, p.1.now)) result (whole_of front.now after.now) }
{
    let Ok(text) = str::from_utf8(front) else {
        return Err(Stop::NoForm);
    };
    match text.parse::<i128>() {
        Ok(n) => Ok((Token::Num(n), after)),
        Err(_) => Err(Stop::Wide),
    }
}

// The duration of these digits and the unit that follows.
#[tactic(auto, unfolding(crate::specs::Lexing::duration_of))]
fn duration<'a>(digits: &[u8], after: &'a [u8]) -> Result<(Token, &'a [u8]), Stop>
    requires { IsNumeral 10 digits.now }
    ensures { Gives (λ p. (p.0, p.1.now)) result (duration_of digits.now after.now) }
{
    match after {
        [unit, after @ ..] if is_unit(*unit) && ends(after) => {
            let count = count(digits)?;
            let unit = unit.to_ascii_lowercase();
            Ok((Token::Dur { count, unit }, after))
        }
        _ => Err(Stop::NoForm),
    }
}

// A number or a duration that begins with a digit.
#[tactic(auto, unfolding(crate::specs::Lexing::unsigned_of))]
fn unsigned(text: &[u8]) -> Result<(Token, &[u8]), Stop>
    requires { Begins is_ascii_digit text.now }
    ensures { Gives (λ p. (p.0, p.1.now)) result (unsigned_of text.now) }
{
    let (digits, after) = text.split_at(digits_len(text));
    if ends(after) {
        whole(digits, after)
    } else {
        duration(digits, after)
    }
}

// A number that begins with a sign.
#[tactic(auto, unfolding(crate::specs::Lexing::signed_of))]
fn signed(text: &[u8]) -> Result<(Token, &[u8]), Stop>
    requires { Begins is_sign text.now }
    ensures { Gives (λ p. (p.0, p.1.now)) result (signed_of text.now) }
{
    let digits = digits_len(&text[1..]);
    let (front, after) = text.split_at(1 + digits);
    if digits == 0 || !ends(after) {
        return Err(Stop::NoForm);
    }
    whole(front, after)
}

// How many units the digits say.
fn count(digits: &[u8]) -> Result<u64, Stop>
    requires { IsNumeral 10 digits.now }
    ensures { Gives (λ n. n) result (count_of digits.now) }
{
    let Ok(text) = str::from_utf8(digits) else {
        return Err(Stop::NoForm);
    };
    match text.parse::<u64>() {
        Ok(n) if n <= i64::MAX as u64 => Ok(n),
        _ => Err(Stop::Wide),
    }
}

// What stands next in a text in quotes: a byte of the content, or the closing quote.
pub(crate) enum Piece<'a> {
    Byte(u8, &'a [u8]),
    Close(&'a [u8]),
    Neither,
}

// The next piece of the content.
#[tactic(auto, unfolding(crate::specs::Lexing::content_of))]
fn next_piece(quote: u8, text: &[u8]) -> Piece<'_>
    ensures value { content_of quote text.now ≡ content_by quote result }
    ensures shorter { IsShorter text.now result }
{
    match text {
        [b, c, after @ ..] if *b == quote && *c == quote => Piece::Byte(quote, after),
        [b, after @ ..] if *b == quote => Piece::Close(after),
        [b, after @ ..] if is_text_byte(*b) => Piece::Byte(*b, after),
        _ => Piece::Neither,
    }
}

// The text in quotes, after the opening quote.
fn quoted(alloc: Global, quote: u8, inner: &[u8]) -> Result<(Token, &[u8]), Stop>
    ensures { Gives (λ p. (p.0, p.1.now)) result (text_of (content_of quote inner.now)) }
{
    let mut content = Vec::new(alloc);
    let mut rest = inner;
    'pieces: loop {
        match next_piece(quote, rest) {
            Piece::Byte(b, after) => {
                content.push(b)?;
                rest = after;
            }
            Piece::Close(after) => return text(alloc, content, after),
            Piece::Neither => return Err(Stop::NoForm),
        }
    }
}

// The text of a content, where it is UTF-8.
fn text(alloc: Global, content: Vec<u8>, after: &[u8]) -> Result<(Token, &[u8]), Stop>
    ensures { Gives (λ p. (p.0, p.1.now)) result (text_of (Some (content.items, after.now))) }
{
    match str::from_utf8(content.as_slice()) {
        Ok(_) => Ok((Token::Str(Seq::from_vec(alloc, content)), after)),
        Err(_) => Err(Stop::NoForm),
    }
}

// A symbol, or an operator of two bytes.
#[tactic(auto, unfolding(crate::specs::Lexing::symbol_of))]
fn symbol(text: &[u8]) -> Result<(Token, &[u8]), Stop>
    ensures { Gives (λ p. (p.0, p.1.now)) result (symbol_of text.now) }
{
    match text {
        [b'<', b'=', after @ ..] => Ok((Token::Le, after)),
        [b'>', b'=', after @ ..] => Ok((Token::Ge, after)),
        [b'<', b'>', after @ ..] | [b'!', b'=', after @ ..] => Ok((Token::Ne, after)),
        [b, after @ ..] if is_symbol(*b) => Ok((Token::Sym(*b), after)),
        _ => Err(Stop::NoForm),
    }
}

// The token at the front.
#[tactic(auto, unfolding(crate::specs::Lexing::token_of))]
pub(crate) fn token(alloc: Global, text: &[u8]) -> Result<(Token, &[u8]), Stop>
    ensures { Gives (λ p. (p.0, p.1.now)) result (token_of text.now) }
{
    match text {
        [] => Err(Stop::NoForm),
        [b, ..] if is_word_start(*b) => word(alloc, text),
        [b, ..] if b.is_ascii_digit() => unsigned(text),
        [b, ..] if is_sign(*b) => signed(text),
        [quote, inner @ ..] if is_quote(*quote) => quoted(alloc, *quote, inner),
        _ => symbol(text),
    }
}
