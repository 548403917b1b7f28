//! Writes to tables.
ghost use Rattle.td_grammar.specs.Grammar.{read};
ghost use Rattle.td_grammar.specs.Gives.{Gives};
ghost use Rattle.td_parse.specs.Productions.{chosen_columns as prod_chosen_columns, delete as prod_delete, further_group as prod_further_group, group as prod_group, groups as prod_groups, insert as prod_insert, range_of as prod_range_of};

use std::alloc::Global;
use td_clauses::{bound, literal_list, name_list, starts_either};
use td_grammar::{Fault, Lexeme, keyword, kinds, name, same_name, starts};
use td_layer::{Name, Seq};
use td_model::{Lit, Stmt};

// [ ( name { , name } ) ]
#[tactic(auto, using(td_grammar::proofs::Forms::value_itself), unfolding(crate::specs::Productions::chosen_columns))]
fn chosen_columns(alloc: Global, tokens: &[Lexeme]) -> Result<(Option<Seq<Name>>, &[Lexeme]), Fault>
    ensures { Gives (λ x. (x.0, x.1.now)) result (read (tt {0}) prod_chosen_columns tokens.now) }
{
    if starts(tokens, kinds::OPEN_PAREN) {
        let rest = keyword(tokens, kinds::OPEN_PAREN)?;
        let (all, rest) = name_list(alloc, rest)?;
        let rest = keyword(rest, kinds::CLOSE_PAREN)?;
        let all = Some(all);
        Ok((all, rest))
    } else {
        Ok((None, tokens))
    }
}

// ( lits )
#[tactic(auto, using(td_grammar::proofs::Forms::value_itself), unfolding(crate::specs::Productions::group))]
fn group(alloc: Global, tokens: &[Lexeme]) -> Result<(Seq<Lit>, &[Lexeme]), Fault>
    ensures { Gives (λ x. (x.0, x.1.now)) result (read (tt {0}) prod_group tokens.now) }
{
    let rest = keyword(tokens, kinds::OPEN_PAREN)?;
    let (all, rest) = literal_list(alloc, rest)?;
    let rest = keyword(rest, kinds::CLOSE_PAREN)?;
    Ok((all, rest))
}

// [,] ( lits )
#[tactic(auto, using(td_grammar::proofs::Forms::value_itself), unfolding(crate::specs::Productions::further_group))]
fn further_group(alloc: Global, tokens: &[Lexeme]) -> Result<(Seq<Lit>, &[Lexeme]), Fault>
    ensures { Gives (λ x. (x.0, x.1.now)) result (read (tt {0}) prod_further_group tokens.now) }
{
    if starts(tokens, kinds::COMMA) {
        let rest = keyword(tokens, kinds::COMMA)?;
        group(alloc, rest)
    } else {
        group(alloc, tokens)
    }
}

// group { [,] group }
fn groups(alloc: Global, tokens: &[Lexeme]) -> Result<(Seq<Seq<Lit>>, &[Lexeme]), Fault>
    ensures { Gives (λ x. (x.0, x.1.now)) result (read (tt {0}) prod_groups tokens.now) }
{
    let (head, after) = group(alloc, tokens)?;
    let mut all = Vec::new(alloc);
    all.push(head)?;
    let mut rest = after;
    while starts_either(rest, kinds::COMMA, kinds::OPEN_PAREN) {
        let (item, after) = further_group(alloc, rest)?;
        all.push(item)?;
        rest = after;
    }
    Ok((Seq::from_vec(alloc, all), rest))
}

// INSERT INTO name [ ( name { , name } ) ] VALUES group { [,] group }
#[tactic(auto, using(td_grammar::proofs::Forms::value_itself), unfolding(crate::specs::Productions::insert))]
pub(crate) fn insert(alloc: Global, tokens: &[Lexeme]) -> Result<(Stmt, &[Lexeme]), Fault>
    ensures { Gives (λ x. (x.0, x.1.now)) result (read (tt {0}) prod_insert tokens.now) }
{
    let rest = keyword(tokens, kinds::INSERT)?;
    let rest = keyword(rest, kinds::INTO)?;
    let (table, rest) = name(alloc, rest)?;
    let (columns, rest) = chosen_columns(alloc, rest)?;
    let rest = keyword(rest, kinds::VALUES)?;
    let (rows, rest) = groups(alloc, rest)?;
    Ok((
        Stmt::Insert {
            table,
            columns,
            rows,
        },
        rest,
    ))
}

// >= tlit AND name <= tlit, with the name in force
#[tactic(auto, using(td_grammar::proofs::Forms::value_itself), unfolding(crate::specs::Productions::range_of))]
fn range<'a>(
    alloc: Global,
    name: &[u8],
    tokens: &'a [Lexeme],
) -> Result<((Lit, Lit), &'a [Lexeme]), Fault>
    ensures { Gives (λ x. (x.0, x.1.now)) result (read name.now prod_range_of tokens.now) }
{
    let rest = keyword(tokens, kinds::AT_LEAST)?;
    let (low, rest) = bound(alloc, rest)?;
    let rest = keyword(rest, kinds::AND)?;
    let rest = same_name(alloc, name, rest)?;
    let rest = keyword(rest, kinds::AT_MOST)?;
    let (high, rest) = bound(alloc, rest)?;
    Ok(((low, high), rest))
}

// DELETE FROM name WHERE name >= tlit AND name <= tlit, with one name in both places
#[tactic(auto, using(td_grammar::proofs::Forms::value_itself), unfolding(crate::specs::Productions::delete))]
pub(crate) fn delete(alloc: Global, tokens: &[Lexeme]) -> Result<(Stmt, &[Lexeme]), Fault>
    ensures { Gives (λ x. (x.0, x.1.now)) result (read (tt {0}) prod_delete tokens.now) }
{
    let rest = keyword(tokens, kinds::DELETE)?;
    let rest = keyword(rest, kinds::FROM)?;
    let (table, rest) = name(alloc, rest)?;
    let rest = keyword(rest, kinds::WHERE)?;
    let (column, rest) = name(alloc, rest)?;
    let ((lo, hi), rest) = range(alloc, column.as_slice(), rest)?;
    Ok((
        Stmt::Delete {
            table,
            column,
            lo,
            hi,
        },
        rest,
    ))
}
