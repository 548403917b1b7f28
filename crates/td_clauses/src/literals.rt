//! Literals and lists of names.
ghost use Rattle.std.specs.Prelude.{◌≡◌, ◌++◌};
ghost use Rattle.td_grammar.specs.Grammar.{read, only};
ghost use Rattle.td_grammar.specs.Grammar.{starts as starts_with};
ghost use Rattle.td_grammar.specs.Gives.{Gives};
ghost use Rattle.td_clauses.specs.Productions.{a_bound as prod_a_bound, a_lit as prod_a_lit, compared as prod_compared, lits as prod_lits, names as prod_names, truth as prod_truth, word_lit as prod_word_lit};

use std::alloc::Global;
use td_grammar::{
    Fault, Lexeme, Listed, TokenKind, comma_list, keyword, kinds, name, number, quoted_text,
    starts, starts_in,
};
use td_layer::{Name, Seq};
use td_model::Lit;

// TRUE | FALSE
#[tactic(auto, using(td_grammar::proofs::Forms::value_itself), unfolding(crate::specs::Productions::truth))]
pub(crate) fn truth(tokens: &[Lexeme]) -> Result<(Lit, &[Lexeme]), Fault>
    ensures { Gives (λ x. (x.0, x.1.now)) result (read (tt {0}) prod_truth tokens.now) }
{
    if starts(tokens, kinds::TRUE) {
        let rest = keyword(tokens, kinds::TRUE)?;
        Ok((Lit::True, rest))
    } else {
        let rest = keyword(tokens, kinds::FALSE)?;
        Ok((Lit::False, rest))
    }
}

// NULL | NOW | TRUE | FALSE
#[tactic(auto, using(td_grammar::proofs::Forms::value_itself), unfolding(crate::specs::Productions::word_lit))]
fn word_lit(tokens: &[Lexeme]) -> Result<(Lit, &[Lexeme]), Fault>
    ensures { Gives (λ x. (x.0, x.1.now)) result (read (tt {0}) prod_word_lit tokens.now) }
{
    if starts(tokens, kinds::NULL) {
        let rest = keyword(tokens, kinds::NULL)?;
        Ok((Lit::Null, rest))
    } else if starts(tokens, kinds::NOW) {
        let rest = keyword(tokens, kinds::NOW)?;
        Ok((Lit::Now, rest))
    } else {
        truth(tokens)
    }
}

// Num | Str | NULL | TRUE | FALSE | NOW
#[tactic(auto, using(td_grammar::proofs::Forms::value_itself), unfolding(crate::specs::Productions::a_lit))]
fn lit(alloc: Global, tokens: &[Lexeme]) -> Result<(Lit, &[Lexeme]), Fault>
    ensures { Gives (λ x. (x.0, x.1.now)) result (read (tt {0}) prod_a_lit tokens.now) }
{
    if starts_in(tokens, kinds::NUMBERS) {
        let (n, rest) = number(tokens)?;
        Ok((Lit::Num(n), rest))
    } else if starts(tokens, kinds::TEXT) {
        let (text, rest) = quoted_text(alloc, tokens)?;
        Ok((Lit::Str(text), rest))
    } else {
        word_lit(tokens)
    }
}

// Num | Str | TRUE | FALSE
#[tactic(auto, using(td_grammar::proofs::Forms::value_itself), unfolding(crate::specs::Productions::compared))]
pub(crate) fn compared(alloc: Global, tokens: &[Lexeme]) -> Result<(Lit, &[Lexeme]), Fault>
    ensures { Gives (λ x. (x.0, x.1.now)) result (read (tt {0}) prod_compared tokens.now) }
{
    if starts_in(tokens, kinds::NUMBERS) {
        let (n, rest) = number(tokens)?;
        Ok((Lit::Num(n), rest))
    } else if starts(tokens, kinds::TEXT) {
        let (text, rest) = quoted_text(alloc, tokens)?;
        Ok((Lit::Str(text), rest))
    } else {
        truth(tokens)
    }
}

/// A bound of a range: a number or a text. It takes memory for the text; it fails at another token.
#[tactic(auto, using(td_grammar::proofs::Forms::value_itself))]
pub fn bound(alloc: Global, tokens: &[Lexeme]) -> Result<(Lit, &[Lexeme]), Fault>
    ensures { Gives (λ x. (x.0, x.1.now)) result (read (tt {0}) prod_a_bound tokens.now) }
{
    if starts_in(tokens, kinds::NUMBERS) {
        let (n, rest) = number(tokens)?;
        Ok((Lit::Num(n), rest))
    } else {
        let (text, rest) = quoted_text(alloc, tokens)?;
        Ok((Lit::Str(text), rest))
    }
}

// Literals of a list.
struct Literals;

impl Listed for Literals {
    ghost use Rattle.std.specs.Prelude.{refl};
    ghost use Rattle.td_clauses.specs.Productions.{a_lit, literal_good};

    type Item = Lit;

    ghost production = { a_lit };

    ghost looks_one_ahead = { literal_good };

    fn read_item(alloc: Global, tokens: &[Lexeme]) -> Result<(Lit, &[Lexeme]), Fault> {
        lit(alloc, tokens)
    }
}

/// Literals, parted by commas: at least one. It takes memory for their texts and the list; it fails at the first
/// token that no list of literals continues with.
#[tactic(auto, unfolding(crate::specs::Productions::lits))]
pub fn literal_list(alloc: Global, tokens: &[Lexeme]) -> Result<(Seq<Lit>, &[Lexeme]), Fault>
    ensures { Gives (λ x. (x.0, x.1.now)) result (read (tt {0}) prod_lits tokens.now) }
{
    comma_list::<Literals>(alloc, tokens)
}

// Names of a list.
struct Names;

impl Listed for Names {
    ghost use Rattle.std.specs.Prelude.{refl};
    ghost use Rattle.td_grammar.specs.Words.{name};

    type Item = Name;

    ghost production = { name };

    ghost looks_one_ahead = { refl };

    fn read_item(alloc: Global, tokens: &[Lexeme]) -> Result<(Name, &[Lexeme]), Fault> {
        name(alloc, tokens)
    }
}

/// Names, parted by commas: at least one. It takes memory for them and the list; it fails at the first token that no
/// list of names continues with.
#[tactic(auto, unfolding(crate::specs::Productions::names))]
pub fn name_list(alloc: Global, tokens: &[Lexeme]) -> Result<(Seq<Name>, &[Lexeme]), Fault>
    ensures { Gives (λ x. (x.0, x.1.now)) result (read (tt {0}) prod_names tokens.now) }
{
    comma_list::<Names>(alloc, tokens)
}

/// Whether a token of one of these two kinds is next.
#[tactic(auto, using(td_grammar::proofs::KindSets::starts_append))]
pub fn starts_either(tokens: &[Lexeme], one: TokenKind, other: TokenKind) -> bool
    ensures { result ≡ starts_with (only one ++ only other) tokens.now }
{
    starts(tokens, one) || starts(tokens, other)
}
