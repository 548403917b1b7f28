//! Statements, from bytes to trees.
ghost use Rattle.std.specs.Prelude.{◌≡◌, ◌||◌, nat_lt, length, IfOk};
ghost use Rattle.std.specs.List.{list_any};
ghost use Rattle.td_grammar.specs.Gives.{Parses};
ghost use Rattle.td_grammar.specs.Words.{word_of};
ghost use Rattle.td_parse.specs.Statements.{lexemes as lexemes_are, places as places_are, cause_of, cause_of_kind, has_long_name, is_wide, any_wide, any_wide_tag, has_type_not_built, is_duration_not_built, has_option_not_built, judged, or_wrong, OfTokens, OfFront, IsAnswer, IsStatement};

use crate::statements::whole;
use std::alloc::Global;
use td_grammar::{Fault, Lexeme, TokenKind, kinds, lexeme};
use td_layer::{NoMem, Seq};
use td_lex::{LexFault, Lexed, Spanned, Token, tokens_and_fault};
use td_limits::{NAME_BYTES, STATEMENT_BYTES};
use td_model::{Cause, Column, Kind, Stmt};

// The tokens of a text with their kinds, and beside them where each begins.
#[derive(Drop)]
struct Placed {
    lexemes: Vec<Lexeme>,
    places: Vec<u64>,
}

// The tokens with their kinds and their places, taken over from the lexer.
fn with_kinds(alloc: Global, found: Vec<Spanned>) -> Result<Placed, NoMem>
    ensures lexemes { IfOk result (λ p. p.lexemes.items ≡ lexemes_are found.items) }
    ensures places { IfOk result (λ p. p.places.items ≡ places_are found.items) }
{
    let mut lexemes = Vec::new(alloc);
    let mut places = Vec::new(alloc);
    for spanned in found {
        let Spanned { token, at, .. } = spanned;
        lexemes.push(lexeme(token))?;
        places.push(at)?;
    }
    Ok(Placed { lexemes, places })
}

// The tree of these tokens.
fn tree_of(alloc: Global, lexemes: &[Lexeme]) -> Result<Stmt, Fault>
    ensures { Parses IsStatement lexemes.now result }
{
    whole(alloc, lexemes)
}

// The cause where a token of this kind, at this place, is the first that fails.
fn cause_of_kind(kind: TokenKind, at: u64) -> Cause
    ensures { result ≡ cause_of_kind kind at }
{
    if kind == kinds::NOT_BUILT {
        Cause::OptionNotBuilt
    } else {
        Cause::Syntax { at }
    }
}

// The cause where so many tokens are left at the first failure.
fn cause_at(lexemes: &[Lexeme], places: &[u64], left: usize, end: u64) -> Cause
    requires { length places.now ≡ length lexemes.now }
    ensures { result ≡ cause_of lexemes.now places.now left end }
{
    let failed = lexemes.len().saturating_sub(left);
    match (&lexemes[failed..], &places[failed..]) {
        ([next, ..], [at, ..]) => cause_of_kind(next.kind, *at),
        _ => Cause::Syntax { at: end },
    }
}

// Whether it is a word that is longer than a name may be.
fn is_long(token: &Token) -> bool
    ensures { result ≡ nat_lt NAME_BYTES (length (word_of token.now)) }
{
    match token {
        Token::Word(text) => text.len() > NAME_BYTES,
        _ => false,
    }
}

// Whether a name is too long.
fn has_long_name(lexemes: &[Lexeme]) -> bool
    ensures { result ≡ has_long_name lexemes.now }
{
    lexemes.iter().any(|lexeme| is_long(&lexeme.token))
}

// Whether a column has a type that is not built.
fn any_wide(columns: &[Column]) -> bool
    ensures { result ≡ any_wide columns.now }
{
    columns.iter().any(|column| is_wide(column.kind))
}

// Whether it is the kind that stands for a type that is not built.
fn is_wide(kind: Kind) -> bool
    ensures { result ≡ is_wide kind }
{
    matches!(kind, Kind::Wide)
}

// Whether a type stands there that is not built there.
fn has_type_not_built(tree: &Stmt) -> bool
    ensures { result ≡ has_type_not_built tree.now }
{
    match tree {
        Stmt::MakeStable { columns, tags, .. } => {
            any_wide(columns.as_slice()) || any_wide_tag(tags)
        }
        Stmt::MakeTable { columns, .. } => any_wide(columns.as_slice()),
        _ => false,
    }
}

// Whether a tag has a type that is not built there.
fn any_wide_tag(tags: &Option<Seq<Column>>) -> bool
    ensures { result ≡ any_wide_tag tags.now }
{
    match tags {
        Some(tags) => any_wide(tags.as_slice()),
        None => false,
    }
}

// Whether it is a duration in b, u, n or y.
fn is_duration_not_built(token: &Token) -> bool
    ensures { result ≡ is_duration_not_built token.now }
{
    match token {
        Token::Dur { unit, .. } => *unit == b'b' || *unit == b'u' || *unit == b'n' || *unit == b'y',
        _ => false,
    }
}

// Whether a duration is in b, u, n or y.
fn has_duration_not_built(lexemes: &[Lexeme]) -> bool
    ensures { result ≡ list_any (λ l. is_duration_not_built l.token) lexemes.now }
{
    lexemes
        .iter()
        .any(|lexeme| is_duration_not_built(&lexeme.token))
}

// Whether a stream has an option that is not built.
fn has_option_not_built(tree: &Stmt) -> bool
    ensures { result ≡ has_option_not_built tree.now }
{
    match tree {
        Stmt::MakeStream(def) => def.ignore_expired || !def.fill_history,
        _ => false,
    }
}

// Whether a part stands in the statement that is not built.
fn has_part_not_built(lexemes: &[Lexeme], tree: &Stmt) -> bool
    ensures { result ≡ (list_any (λ l. is_duration_not_built l.token) lexemes.now || has_option_not_built tree.now) }
{
    has_duration_not_built(lexemes) || has_option_not_built(tree)
}

// The first cause that applies to a text that is a statement.
fn cause_in(lexemes: &[Lexeme], tree: &Stmt) -> Option<Cause>
    ensures { or_wrong result tree.now ≡ judged lexemes.now tree.now }
{
    if has_long_name(lexemes) {
        Some(Cause::NameTooLong)
    } else if has_type_not_built(tree) {
        Some(Cause::TypeNotBuilt)
    } else if has_part_not_built(lexemes, tree) {
        Some(Cause::OptionNotBuilt)
    } else {
        None
    }
}

// The cause, or else the tree.
fn or_wrong(cause: Option<Cause>, tree: Stmt) -> Stmt
    ensures { result ≡ or_wrong cause tree }
{
    match cause {
        Some(cause) => {
            drop(tree);
            Stmt::Wrong(cause)
        }
        None => tree,
    }
}

// The tree, or the first cause that applies to it.
fn judge(lexemes: &[Lexeme], tree: Stmt) -> Stmt
    ensures { result ≡ judged lexemes.now tree }
{
    let cause = cause_in(lexemes, &tree);
    or_wrong(cause, tree)
}

// What is answered of all tokens of a text of this length.
fn of_tokens(alloc: Global, lexemes: &[Lexeme], places: &[u64], end: u64) -> Result<Stmt, NoMem>
    requires { length places.now ≡ length lexemes.now }
    ensures { IfOk result (λ answer. OfTokens lexemes.now places.now end answer) }
{
    match tree_of(alloc, lexemes) {
        Ok(tree) => Ok(judge(lexemes, tree)),
        Err(Fault::At(left)) => Ok(Stmt::Wrong(cause_at(lexemes, places, left, end))),
        Err(Fault::NoMemory) => Err(NoMem),
    }
}

// What is answered of the tokens before a place at which there is none.
fn of_front(alloc: Global, lexemes: &[Lexeme], places: &[u64], at: u64) -> Result<Stmt, NoMem>
    requires { length places.now ≡ length lexemes.now }
    ensures { IfOk result (λ answer. OfFront lexemes.now places.now at answer) }
{
    match tree_of(alloc, lexemes) {
        Ok(tree) => {
            drop(tree);
            Ok(Stmt::Wrong(Cause::Syntax { at }))
        }
        Err(Fault::At(left)) => Ok(Stmt::Wrong(cause_at(lexemes, places, left, at))),
        Err(Fault::NoMemory) => Err(NoMem),
    }
}

/// The tree of a text that is a statement, or `Stmt::Wrong` with the first of these causes that applies: `TooLong`
/// where the text is longer than 1 MiB (`STATEMENT_BYTES`), which is known before a token is read; `Syntax` with the
/// place, in bytes from 0, of the first token such that no statement begins with the tokens before it and that token,
/// or of a byte before it at which no token stands, and with the text's length where it ends too early;
/// `OptionNotBuilt` in its place where that token is one of the reserved words that are not built; `NameTooLong`
/// where a name is longer than 192 bytes; `TypeNotBuilt` where a column or a tag has a type that is not built there;
/// `OptionNotBuilt` where a duration is in b, u, n or y, or a stream has IGNORE EXPIRED 1 or FILL_HISTORY 0. It
/// answers no other error than want of memory.
pub fn statement(alloc: Global, text: &[u8]) -> Result<Stmt, NoMem>
    ensures { IfOk result (λ answer. IsAnswer text.now answer) }
{
    if text.len() > STATEMENT_BYTES {
        return Ok(Stmt::Wrong(Cause::TooLong));
    }
    let Lexed { tokens, fault } = tokens_and_fault(alloc, text)?;
    let Placed { lexemes, places } = with_kinds(alloc, tokens)?;
    match fault {
        None => {
            let answer = of_tokens(
                alloc,
                lexemes.as_slice(),
                places.as_slice(),
                text.len() as u64,
            )?;
            Ok(answer)
        }
        Some(LexFault::BadToken(at)) => {
            let answer = of_front(alloc, lexemes.as_slice(), places.as_slice(), at)?;
            Ok(answer)
        }
        Some(LexFault::TooWide(at)) => {
            let answer = of_front(alloc, lexemes.as_slice(), places.as_slice(), at)?;
            Ok(answer)
        }
        Some(LexFault::NoMemory) => Err(NoMem),
    }
}
