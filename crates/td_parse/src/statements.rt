//! Statements, from tokens to trees.
ghost use Rattle.std.specs.Prelude.{[]};
ghost use Rattle.td_grammar.specs.Grammar.{read};
ghost use Rattle.td_grammar.specs.Gives.{Gives};
ghost use Rattle.td_parse.specs.Productions.{a_statement as prod_a_statement, close_cursor as prod_close_cursor, create as prod_create, cursor_command as prod_cursor_command, drop_stream as prod_drop_stream, fetch as prod_fetch, query_or_command as prod_query_or_command, open_cursor as prod_open_cursor, maintenance_command as prod_maintenance_command, plain_command as prod_plain_command, statement_text as prod_statement_text, step as prod_step};
ghost use Rattle.td_grammar.specs.Grammar.{whole as whole_read, ended as tree_ended};
ghost use Rattle.td_grammar.specs.Words.{perhaps, sign};
ghost use Rattle.td_grammar.specs.declared.kinds.TheConstants.{SEMICOLON};
ghost use Rattle.std.specs.Prelude.{refl};

use crate::streams::stream;
use crate::tables::{stable, table};
use crate::writes::{delete, insert};
use std::alloc::Global;
use td_clauses::query;
use td_grammar::{Fault, Lexeme, keyword, kinds, name, number, starts};
use td_model::Stmt;

// CREATE ( STABLE .. | TABLE .. | STREAM .. )
#[tactic(auto, using(td_grammar::proofs::Forms::value_itself, crate::proofs::Starts::starts_stable, crate::proofs::Starts::starts_table), unfolding(crate::specs::Productions::create))]
fn create(alloc: Global, tokens: &[Lexeme]) -> Result<(Stmt, &[Lexeme]), Fault>
    ensures { Gives (λ x. (x.0, x.1.now)) result (read (tt {0}) prod_create tokens.now) }
{
    let rest = keyword(tokens, kinds::CREATE)?;
    if starts(rest, kinds::STABLE) {
        stable(alloc, rest)
    } else if starts(rest, kinds::TABLE) {
        table(alloc, rest)
    } else {
        stream(alloc, rest)
    }
}

// DROP STREAM name
#[tactic(auto, using(td_grammar::proofs::Forms::value_itself), unfolding(crate::specs::Productions::drop_stream))]
fn drop_stream(alloc: Global, tokens: &[Lexeme]) -> Result<(Stmt, &[Lexeme]), Fault>
    ensures { Gives (λ x. (x.0, x.1.now)) result (read (tt {0}) prod_drop_stream tokens.now) }
{
    let rest = keyword(tokens, kinds::DROP)?;
    let rest = keyword(rest, kinds::STREAM)?;
    let (name, rest) = name(alloc, rest)?;
    Ok((Stmt::DropStream { name }, rest))
}

// OPEN name AS query
#[tactic(auto, using(td_grammar::proofs::Forms::value_itself), unfolding(crate::specs::Productions::open_cursor))]
fn open_cursor(alloc: Global, tokens: &[Lexeme]) -> Result<(Stmt, &[Lexeme]), Fault>
    ensures { Gives (λ x. (x.0, x.1.now)) result (read (tt {0}) prod_open_cursor tokens.now) }
{
    let rest = keyword(tokens, kinds::OPEN)?;
    let (cursor, rest) = name(alloc, rest)?;
    let rest = keyword(rest, kinds::AS)?;
    let (query, rest) = query(alloc, rest)?;
    Ok((Stmt::OpenCursor { cursor, query }, rest))
}

// FETCH name Num
#[tactic(auto, using(td_grammar::proofs::Forms::value_itself), unfolding(crate::specs::Productions::fetch))]
fn fetch(alloc: Global, tokens: &[Lexeme]) -> Result<(Stmt, &[Lexeme]), Fault>
    ensures { Gives (λ x. (x.0, x.1.now)) result (read (tt {0}) prod_fetch tokens.now) }
{
    let rest = keyword(tokens, kinds::FETCH)?;
    let (cursor, rest) = name(alloc, rest)?;
    let (rows, rest) = number(rest)?;
    Ok((Stmt::Fetch { cursor, rows }, rest))
}

// CLOSE name
#[tactic(auto, using(td_grammar::proofs::Forms::value_itself), unfolding(crate::specs::Productions::close_cursor))]
fn close_cursor(alloc: Global, tokens: &[Lexeme]) -> Result<(Stmt, &[Lexeme]), Fault>
    ensures { Gives (λ x. (x.0, x.1.now)) result (read (tt {0}) prod_close_cursor tokens.now) }
{
    let rest = keyword(tokens, kinds::CLOSE)?;
    let (cursor, rest) = name(alloc, rest)?;
    Ok((Stmt::CloseCursor { cursor }, rest))
}

// STEP name
#[tactic(auto, using(td_grammar::proofs::Forms::value_itself), unfolding(crate::specs::Productions::step))]
fn step(alloc: Global, tokens: &[Lexeme]) -> Result<(Stmt, &[Lexeme]), Fault>
    ensures { Gives (λ x. (x.0, x.1.now)) result (read (tt {0}) prod_step tokens.now) }
{
    let rest = keyword(tokens, kinds::STEP)?;
    let (stream, rest) = name(alloc, rest)?;
    Ok((Stmt::Step { stream }, rest))
}

// COMMIT | MERGE | SWEEP | TRIM
#[tactic(auto, using(td_grammar::proofs::Forms::value_itself), unfolding(crate::specs::Productions::plain_command))]
fn plain_command(tokens: &[Lexeme]) -> Result<(Stmt, &[Lexeme]), Fault>
    ensures { Gives (λ x. (x.0, x.1.now)) result (read (tt {0}) prod_plain_command tokens.now) }
{
    if starts(tokens, kinds::COMMIT) {
        let rest = keyword(tokens, kinds::COMMIT)?;
        Ok((Stmt::Commit, rest))
    } else if starts(tokens, kinds::MERGE) {
        let rest = keyword(tokens, kinds::MERGE)?;
        Ok((Stmt::Merge, rest))
    } else if starts(tokens, kinds::SWEEP) {
        let rest = keyword(tokens, kinds::SWEEP)?;
        Ok((Stmt::Sweep, rest))
    } else {
        let rest = keyword(tokens, kinds::TRIM)?;
        Ok((Stmt::Trim, rest))
    }
}

// STEP name | COMMIT | MERGE | SWEEP | TRIM
#[tactic(auto, using(td_grammar::proofs::Forms::value_itself, crate::proofs::Starts::starts_step), unfolding(crate::specs::Productions::maintenance_command))]
fn maintenance_command(alloc: Global, tokens: &[Lexeme]) -> Result<(Stmt, &[Lexeme]), Fault>
    ensures { Gives (λ x. (x.0, x.1.now)) result (read (tt {0}) prod_maintenance_command tokens.now) }
{
    if starts(tokens, kinds::STEP) {
        step(alloc, tokens)
    } else {
        plain_command(tokens)
    }
}

// OPEN .. | FETCH .. | CLOSE .. | a maintenance command
#[tactic(auto, using(td_grammar::proofs::Forms::value_itself, crate::proofs::Starts::starts_open_cursor, crate::proofs::Starts::starts_fetch, crate::proofs::Starts::starts_close_cursor), unfolding(crate::specs::Productions::cursor_command))]
fn cursor_command(alloc: Global, tokens: &[Lexeme]) -> Result<(Stmt, &[Lexeme]), Fault>
    ensures { Gives (λ x. (x.0, x.1.now)) result (read (tt {0}) prod_cursor_command tokens.now) }
{
    if starts(tokens, kinds::OPEN) {
        open_cursor(alloc, tokens)
    } else if starts(tokens, kinds::FETCH) {
        fetch(alloc, tokens)
    } else if starts(tokens, kinds::CLOSE) {
        close_cursor(alloc, tokens)
    } else {
        maintenance_command(alloc, tokens)
    }
}

// DROP STREAM name | query | OPEN .. | FETCH .. | CLOSE .. | a maintenance command
#[tactic(auto, using(td_grammar::proofs::Forms::value_itself, crate::proofs::Starts::starts_drop_stream, crate::proofs::Starts::starts_query), unfolding(crate::specs::Productions::query_or_command))]
fn query_or_command(alloc: Global, tokens: &[Lexeme]) -> Result<(Stmt, &[Lexeme]), Fault>
    ensures { Gives (λ x. (x.0, x.1.now)) result (read (tt {0}) prod_query_or_command tokens.now) }
{
    if starts(tokens, kinds::DROP) {
        drop_stream(alloc, tokens)
    } else if starts(tokens, kinds::SELECT) {
        let (made, rest) = query(alloc, tokens)?;
        Ok((Stmt::Select(made), rest))
    } else {
        cursor_command(alloc, tokens)
    }
}

// CREATE .. | INSERT .. | DELETE .. | DROP STREAM name | query | a command
#[tactic(auto, using(td_grammar::proofs::Forms::value_itself, crate::proofs::Starts::starts_create, crate::proofs::Starts::starts_insert, crate::proofs::Starts::starts_delete), unfolding(crate::specs::Productions::a_statement))]
fn statement_of(alloc: Global, tokens: &[Lexeme]) -> Result<(Stmt, &[Lexeme]), Fault>
    ensures { Gives (λ x. (x.0, x.1.now)) result (read (tt {0}) prod_a_statement tokens.now) }
{
    if starts(tokens, kinds::CREATE) {
        create(alloc, tokens)
    } else if starts(tokens, kinds::INSERT) {
        insert(alloc, tokens)
    } else if starts(tokens, kinds::DELETE) {
        delete(alloc, tokens)
    } else {
        query_or_command(alloc, tokens)
    }
}

// What follows a `;`, if there is one.
#[tactic(auto, using(td_grammar::proofs::Forms::value_itself))]
fn past_semicolon(tokens: &[Lexeme]) -> Result<&[Lexeme], Fault>
    ensures { Gives (λ rest. (tt, rest.now)) result (read (tt {0}) (perhaps (sign SEMICOLON refl)) tokens.now) }
{
    if starts(tokens, kinds::SEMICOLON) {
        keyword(tokens, kinds::SEMICOLON)
    } else {
        Ok(tokens)
    }
}

// statement [ ; ]
#[tactic(auto, using(td_grammar::proofs::Forms::value_itself), unfolding(crate::specs::Productions::statement_text))]
fn statement_text(alloc: Global, tokens: &[Lexeme]) -> Result<(Stmt, &[Lexeme]), Fault>
    ensures { Gives (λ x. (x.0, x.1.now)) result (read (tt {0}) prod_statement_text tokens.now) }
{
    let (made, rest) = statement_of(alloc, tokens)?;
    match past_semicolon(rest) {
        Ok(rest) => Ok((made, rest)),
        Err(fault) => {
            drop(made);
            Err(fault)
        }
    }
}

// A tree that nothing follows.
fn ended(made: Stmt, rest: &[Lexeme]) -> Result<Stmt, Fault>
    ensures { Gives (λ q. q) result (tree_ended made rest.now) }
{
    match rest {
        [] => Ok(made),
        [_, ..] => {
            drop(made);
            Err(Fault::At(rest.len()))
        }
    }
}

// The tree of all tokens.
pub(crate) fn whole(alloc: Global, tokens: &[Lexeme]) -> Result<Stmt, Fault>
    ensures { Gives (λ q. q) result (whole_read (read (tt {0}) prod_statement_text tokens.now)) }
{
    let (made, rest) = statement_text(alloc, tokens)?;
    ended(made, rest)
}
