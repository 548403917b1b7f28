//! Queries.
ghost use Rattle.std.specs.Prelude.{◌≡◌, ◌++◌};
ghost use Rattle.td_grammar.specs.Grammar.{read, only};
ghost use Rattle.td_grammar.specs.declared.kinds.TheConstants.{INTERVAL, SESSION, STATE_WINDOW};
ghost use Rattle.td_grammar.specs.Grammar.{starts as starts_with};
ghost use Rattle.td_grammar.specs.Gives.{Gives};
ghost use Rattle.td_clauses.specs.Productions.{clauses as prod_clauses, cut_part as prod_cut_part, direction as prod_direction, interval as prod_interval, lengths as prod_lengths, order_name as prod_order_name, order_part as prod_order_part, partition_part as prod_partition_part, query as prod_query, session as prod_session, state_window as prod_state_window, window as prod_window, window_part as prod_window_part};
ghost use Rattle.td_clauses.specs.Productions.{order_of, query_of};

use crate::conds::where_part;
use crate::drafts::{Clauses, Cut};
use crate::lists::{PartitionColumns, items};
use crate::literals::starts_either;
use std::alloc::Global;
use td_grammar::{Fault, Lexeme, comma_list, duration, keyword, kinds, name, number, starts};
use td_layer::{Name, Seq};
use td_model::{Item, OrderBy, PartBy, Query, WindowDef};

// [ PARTITION BY part { , part } ]
#[tactic(auto, using(td_grammar::proofs::Forms::value_itself), unfolding(crate::specs::Productions::partition_part, crate::specs::Productions::part_list))]
fn partition_part(alloc: Global, tokens: &[Lexeme]) -> Result<(Seq<PartBy>, &[Lexeme]), Fault>
    ensures { Gives (λ x. (x.0, x.1.now)) result (read (tt {0}) prod_partition_part tokens.now) }
{
    if starts(tokens, kinds::PARTITION) {
        let rest = keyword(tokens, kinds::PARTITION)?;
        let rest = keyword(rest, kinds::BY)?;
        comma_list::<PartitionColumns>(alloc, rest)
    } else {
        Ok((Seq::new(alloc), tokens))
    }
}

// ( Dur [ , Dur ] )
#[tactic(auto, using(td_grammar::proofs::Forms::value_itself), unfolding(crate::specs::Productions::lengths))]
fn lengths(tokens: &[Lexeme]) -> Result<((u64, u64), &[Lexeme]), Fault>
    ensures { Gives (λ x. (x.0, x.1.now)) result (read (tt {0}) prod_lengths tokens.now) }
{
    let rest = keyword(tokens, kinds::OPEN_PAREN)?;
    let (len, rest) = duration(rest)?;
    if starts(rest, kinds::COMMA) {
        let rest = keyword(rest, kinds::COMMA)?;
        let (offset, rest) = duration(rest)?;
        let rest = keyword(rest, kinds::CLOSE_PAREN)?;
        Ok(((len, offset), rest))
    } else {
        let rest = keyword(rest, kinds::CLOSE_PAREN)?;
        Ok(((len, 0), rest))
    }
}

// INTERVAL ( Dur [ , Dur ] ) [ SLIDING ( Dur ) ]
#[tactic(auto, using(td_grammar::proofs::Forms::value_itself), unfolding(crate::specs::Productions::interval))]
fn interval(tokens: &[Lexeme]) -> Result<(WindowDef, &[Lexeme]), Fault>
    ensures { Gives (λ x. (x.0, x.1.now)) result (read (tt {0}) prod_interval tokens.now) }
{
    let rest = keyword(tokens, kinds::INTERVAL)?;
    let ((len, offset), rest) = lengths(rest)?;
    if starts(rest, kinds::SLIDING) {
        let rest = keyword(rest, kinds::SLIDING)?;
        let rest = keyword(rest, kinds::OPEN_PAREN)?;
        let (slide, rest) = duration(rest)?;
        let rest = keyword(rest, kinds::CLOSE_PAREN)?;
        Ok((WindowDef::Interval { len, offset, slide }, rest))
    } else {
        let slide = len;
        Ok((WindowDef::Interval { len, offset, slide }, rest))
    }
}

// SESSION ( name , Dur )
#[tactic(auto, using(td_grammar::proofs::Forms::value_itself), unfolding(crate::specs::Productions::session))]
fn session(alloc: Global, tokens: &[Lexeme]) -> Result<(WindowDef, &[Lexeme]), Fault>
    ensures { Gives (λ x. (x.0, x.1.now)) result (read (tt {0}) prod_session tokens.now) }
{
    let rest = keyword(tokens, kinds::SESSION)?;
    let rest = keyword(rest, kinds::OPEN_PAREN)?;
    let (column, rest) = name(alloc, rest)?;
    let rest = keyword(rest, kinds::COMMA)?;
    let (tol, rest) = duration(rest)?;
    let rest = keyword(rest, kinds::CLOSE_PAREN)?;
    Ok((WindowDef::Session { column, tol }, rest))
}

// STATE_WINDOW ( name )
#[tactic(auto, using(td_grammar::proofs::Forms::value_itself), unfolding(crate::specs::Productions::state_window))]
fn state_window(alloc: Global, tokens: &[Lexeme]) -> Result<(WindowDef, &[Lexeme]), Fault>
    ensures { Gives (λ x. (x.0, x.1.now)) result (read (tt {0}) prod_state_window tokens.now) }
{
    let rest = keyword(tokens, kinds::STATE_WINDOW)?;
    let rest = keyword(rest, kinds::OPEN_PAREN)?;
    let (column, rest) = name(alloc, rest)?;
    let rest = keyword(rest, kinds::CLOSE_PAREN)?;
    Ok((WindowDef::State { column }, rest))
}

// INTERVAL .. | SESSION .. | STATE_WINDOW ..
#[tactic(auto, using(td_grammar::proofs::Forms::value_itself, crate::proofs::Starts::starts_interval, crate::proofs::Starts::starts_session), unfolding(crate::specs::Productions::window))]
fn window(alloc: Global, tokens: &[Lexeme]) -> Result<(WindowDef, &[Lexeme]), Fault>
    ensures { Gives (λ x. (x.0, x.1.now)) result (read (tt {0}) prod_window tokens.now) }
{
    if starts(tokens, kinds::INTERVAL) {
        interval(tokens)
    } else if starts(tokens, kinds::SESSION) {
        session(alloc, tokens)
    } else {
        state_window(alloc, tokens)
    }
}

// Whether a window is next.
#[tactic(auto, using(td_grammar::proofs::KindSets::starts_append))]
fn starts_window(tokens: &[Lexeme]) -> bool
    ensures { result ≡ starts_with (only INTERVAL ++ (only SESSION ++ only STATE_WINDOW)) tokens.now }
{
    starts(tokens, kinds::INTERVAL) || starts_either(tokens, kinds::SESSION, kinds::STATE_WINDOW)
}

// [ window ]
#[tactic(auto, using(td_grammar::proofs::Forms::value_itself, crate::proofs::Starts::starts_window), unfolding(crate::specs::Productions::window_part))]
fn window_part(alloc: Global, tokens: &[Lexeme]) -> Result<(WindowDef, &[Lexeme]), Fault>
    ensures { Gives (λ x. (x.0, x.1.now)) result (read (tt {0}) prod_window_part tokens.now) }
{
    if starts_window(tokens) {
        window(alloc, tokens)
    } else {
        Ok((WindowDef::Whole, tokens))
    }
}

// name | _WSTART
#[tactic(auto, using(td_grammar::proofs::Forms::value_itself), unfolding(crate::specs::Productions::order_name))]
fn order_name(alloc: Global, tokens: &[Lexeme]) -> Result<(Name, &[Lexeme]), Fault>
    ensures { Gives (λ x. (x.0, x.1.now)) result (read (tt {0}) prod_order_name tokens.now) }
{
    if starts(tokens, kinds::WSTART) {
        let rest = keyword(tokens, kinds::WSTART)?;
        let name = Seq::of_bytes(alloc, b"_wstart")?;
        Ok((name, rest))
    } else {
        name(alloc, tokens)
    }
}

// [ ASC | DESC ]
#[tactic(auto, using(td_grammar::proofs::Forms::value_itself), unfolding(crate::specs::Productions::direction))]
fn direction(tokens: &[Lexeme]) -> Result<(bool, &[Lexeme]), Fault>
    ensures { Gives (λ x. (x.0, x.1.now)) result (read (tt {0}) prod_direction tokens.now) }
{
    if !starts_either(tokens, kinds::ASC, kinds::DESC) {
        return Ok((false, tokens));
    }
    if starts(tokens, kinds::ASC) {
        let rest = keyword(tokens, kinds::ASC)?;
        Ok((false, rest))
    } else {
        let rest = keyword(tokens, kinds::DESC)?;
        Ok((true, rest))
    }
}

// How rows are ordered by this name.
fn order_of(name: Name, falling: bool) -> OrderBy
    ensures { result ≡ order_of name falling }
{
    if falling {
        OrderBy::Desc(name)
    } else {
        OrderBy::Asc(name)
    }
}

// [ ORDER BY ( name | _WSTART ) [ ASC | DESC ] ]
#[tactic(auto, using(td_grammar::proofs::Forms::value_itself), unfolding(crate::specs::Productions::order_part))]
fn order_part(alloc: Global, tokens: &[Lexeme]) -> Result<(OrderBy, &[Lexeme]), Fault>
    ensures { Gives (λ x. (x.0, x.1.now)) result (read (tt {0}) prod_order_part tokens.now) }
{
    if starts(tokens, kinds::ORDER) {
        let rest = keyword(tokens, kinds::ORDER)?;
        let rest = keyword(rest, kinds::BY)?;
        let (name, rest) = order_name(alloc, rest)?;
        let (falling, rest) = direction(rest)?;
        Ok((order_of(name, falling), rest))
    } else {
        Ok((OrderBy::Plain, tokens))
    }
}

// [ LIMIT Num [ OFFSET Num ] ]
#[tactic(auto, using(td_grammar::proofs::Forms::value_itself), unfolding(crate::specs::Productions::cut_part))]
fn cut_part(tokens: &[Lexeme]) -> Result<(Cut, &[Lexeme]), Fault>
    ensures { Gives (λ x. (x.0, x.1.now)) result (read (tt {0}) prod_cut_part tokens.now) }
{
    if !starts(tokens, kinds::LIMIT) {
        let limit = None;
        return Ok((Cut { limit, skip: 0 }, tokens));
    }
    let rest = keyword(tokens, kinds::LIMIT)?;
    let (count, rest) = number(rest)?;
    let limit = Some(count);
    if starts(rest, kinds::OFFSET) {
        let rest = keyword(rest, kinds::OFFSET)?;
        let (skip, rest) = number(rest)?;
        Ok((Cut { limit, skip }, rest))
    } else {
        Ok((Cut { limit, skip: 0 }, rest))
    }
}

// [ WHERE .. ] [ PARTITION BY .. ] [ window ] [ ORDER BY .. ] [ LIMIT .. ]
#[tactic(auto, using(td_grammar::proofs::Forms::value_itself), unfolding(crate::specs::Productions::clauses))]
fn clauses(alloc: Global, tokens: &[Lexeme]) -> Result<(Clauses, &[Lexeme]), Fault>
    ensures { Gives (λ x. (x.0, x.1.now)) result (read (tt {0}) prod_clauses tokens.now) }
{
    let (conds, rest) = where_part(alloc, tokens)?;
    let (parts, rest) = partition_part(alloc, rest)?;
    let (window, rest) = window_part(alloc, rest)?;
    let (order, rest) = order_part(alloc, rest)?;
    let (cut, rest) = cut_part(rest)?;
    Ok((
        Clauses {
            conds,
            parts,
            window,
            order,
            cut,
        },
        rest,
    ))
}

// The query of these parts.
fn query_of(items: (bool, Seq<Item>), source: Name, clauses: Clauses) -> Query
    ensures { result ≡ query_of items source clauses }
{
    let (star, items) = items;
    Query {
        star,
        items,
        source,
        conds: clauses.conds,
        parts: clauses.parts,
        window: clauses.window,
        order: clauses.order,
        skip: clauses.cut.skip,
        limit: clauses.cut.limit,
    }
}

/// A query, from its SELECT to its last clause. It takes memory for names, texts and lists; it fails at the first
/// token that no query continues with.
#[tactic(auto, using(td_grammar::proofs::Forms::value_itself), unfolding(crate::specs::Productions::query))]
pub fn query(alloc: Global, tokens: &[Lexeme]) -> Result<(Query, &[Lexeme]), Fault>
    ensures { Gives (λ x. (x.0, x.1.now)) result (read (tt {0}) prod_query tokens.now) }
{
    let rest = keyword(tokens, kinds::SELECT)?;
    let (items, rest) = items(alloc, rest)?;
    let rest = keyword(rest, kinds::FROM)?;
    let (source, rest) = name(alloc, rest)?;
    let (clauses, rest) = clauses(alloc, rest)?;
    Ok((query_of(items, source, clauses), rest))
}
