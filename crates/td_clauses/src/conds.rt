//! Conditions.
ghost use Rattle.std.specs.Prelude.{◌≡◌, OnOk};
ghost use Rattle.td_grammar.specs.Grammar.{read};
ghost use Rattle.td_grammar.specs.Gives.{Gives};
ghost use Rattle.td_clauses.specs.Productions.{a_test as prod_a_test, between as prod_between, clause as prod_clause, compares as prod_compares, comparison as prod_comparison, cond_list as prod_cond_list, further_clause as prod_further_clause, null_test as prod_null_test, where_part as prod_where_part};
ghost use Rattle.std.specs.Prelude.{IfErr};
ghost use Rattle.td_grammar.specs.declared.fault.Fault.TheVariants.{NoMemory};
ghost use Rattle.td_clauses.specs.Productions.{op_of, with_clause};

use crate::drafts::{Clause, Test};
use crate::lists::part;
use crate::literals::compared;
use std::alloc::Global;
use td_grammar::{Fault, Lexeme, TokenKind, keyword, kinds, starts, token_in};
use td_layer::{Copied, Seq};
use td_model::{Cond, Lit, Op};

// The operator of a sign's kind.
fn op_of(kind: TokenKind) -> Op
    ensures { result ≡ op_of kind }
{
    if kind == kinds::LESS {
        Op::Lt
    } else if kind == kinds::MORE {
        Op::Gt
    } else if kind == kinds::EQUAL {
        Op::Eq
    } else if kind == kinds::AT_MOST {
        Op::Le
    } else if kind == kinds::AT_LEAST {
        Op::Ge
    } else {
        Op::Ne
    }
}

// < | <= | > | >= | = | <> | !=
#[tactic(auto, using(td_grammar::proofs::Forms::one_value))]
fn comparison(tokens: &[Lexeme]) -> Result<(Op, &[Lexeme]), Fault>
    ensures { Gives (λ x. (x.0, x.1.now)) result (read (tt {0}) prod_comparison tokens.now) }
{
    let (token, rest) = token_in(tokens, kinds::COMPARISONS)?;
    Ok((op_of(token.kind), rest))
}

// comparison lit2
#[tactic(auto, using(td_grammar::proofs::Forms::value_itself), unfolding(crate::specs::Productions::compares))]
fn compares(alloc: Global, tokens: &[Lexeme]) -> Result<(Test, &[Lexeme]), Fault>
    ensures { Gives (λ x. (x.0, x.1.now)) result (read (tt {0}) prod_compares tokens.now) }
{
    let (op, rest) = comparison(tokens)?;
    let (lit, rest) = compared(alloc, rest)?;
    Ok((Test::Is(op, lit), rest))
}

// BETWEEN lit2 AND lit2
#[tactic(auto, using(td_grammar::proofs::Forms::value_itself), unfolding(crate::specs::Productions::between))]
fn between(alloc: Global, tokens: &[Lexeme]) -> Result<(Test, &[Lexeme]), Fault>
    ensures { Gives (λ x. (x.0, x.1.now)) result (read (tt {0}) prod_between tokens.now) }
{
    let rest = keyword(tokens, kinds::BETWEEN)?;
    let (low, rest) = compared(alloc, rest)?;
    let rest = keyword(rest, kinds::AND)?;
    let (high, rest) = compared(alloc, rest)?;
    Ok((Test::Between(low, high), rest))
}

// IS [ NOT ] NULL
#[tactic(auto, using(td_grammar::proofs::Forms::value_itself), unfolding(crate::specs::Productions::null_test))]
fn null_test(tokens: &[Lexeme]) -> Result<(Test, &[Lexeme]), Fault>
    ensures { Gives (λ x. (x.0, x.1.now)) result (read (tt {0}) prod_null_test tokens.now) }
{
    let rest = keyword(tokens, kinds::IS)?;
    if starts(rest, kinds::NOT) {
        let rest = keyword(rest, kinds::NOT)?;
        let rest = keyword(rest, kinds::NULL)?;
        Ok((Test::Is(Op::NotNull, Lit::Null), rest))
    } else {
        let rest = keyword(rest, kinds::NULL)?;
        Ok((Test::Is(Op::IsNull, Lit::Null), rest))
    }
}

// comparison lit2 | BETWEEN lit2 AND lit2 | IS [ NOT ] NULL
#[tactic(auto, using(td_grammar::proofs::Forms::value_itself, crate::proofs::Starts::starts_between, crate::proofs::Starts::starts_null_test), unfolding(crate::specs::Productions::a_test))]
fn test(alloc: Global, tokens: &[Lexeme]) -> Result<(Test, &[Lexeme]), Fault>
    ensures { Gives (λ x. (x.0, x.1.now)) result (read (tt {0}) prod_a_test tokens.now) }
{
    if starts(tokens, kinds::BETWEEN) {
        between(alloc, tokens)
    } else if starts(tokens, kinds::IS) {
        null_test(tokens)
    } else {
        compares(alloc, tokens)
    }
}

// part test
#[tactic(auto, using(td_grammar::proofs::Forms::value_itself), unfolding(crate::specs::Productions::clause))]
fn clause(alloc: Global, tokens: &[Lexeme]) -> Result<(Clause, &[Lexeme]), Fault>
    ensures { Gives (λ x. (x.0, x.1.now)) result (read (tt {0}) prod_clause tokens.now) }
{
    let (of, rest) = part(alloc, tokens)?;
    let (test, rest) = test(alloc, rest)?;
    Ok((Clause { of, test }, rest))
}

// AND part test
#[tactic(auto, using(td_grammar::proofs::Forms::value_itself), unfolding(crate::specs::Productions::further_clause))]
fn further_clause(alloc: Global, tokens: &[Lexeme]) -> Result<(Clause, &[Lexeme]), Fault>
    ensures { Gives (λ x. (x.0, x.1.now)) result (read (tt {0}) prod_further_clause tokens.now) }
{
    let rest = keyword(tokens, kinds::AND)?;
    clause(alloc, rest)
}

// Adds the conditions of a clause.
fn add_conds(all: &mut Vec<Cond>, clause: Clause) -> Result<(), Fault>
    ensures ok { OnOk result (all.new.items ≡ with_clause all.old.items clause) }
    ensures no_memory { IfErr result (λ e. e ≡ NoMemory) }
{
    let Clause { of, test } = clause;
    match test {
        Test::Is(op, lit) => {
            all.push(Cond { of, op, lit })?;
            Ok(())
        }
        Test::Between(low, high) => {
            let again = of.copy()?;
            all.push(Cond {
                of,
                op: Op::Ge,
                lit: low,
            })?;
            all.push(Cond {
                of: again,
                op: Op::Le,
                lit: high,
            })?;
            Ok(())
        }
    }
}

// cond { AND cond }
fn cond_list(alloc: Global, tokens: &[Lexeme]) -> Result<(Seq<Cond>, &[Lexeme]), Fault>
    ensures { Gives (λ x. (x.0, x.1.now)) result (read (tt {0}) prod_cond_list tokens.now) }
{
    let (head, after) = clause(alloc, tokens)?;
    let mut all = Vec::new(alloc);
    add_conds(&mut all, head)?;
    let mut rest = after;
    while starts(rest, kinds::AND) {
        let (item, after) = further_clause(alloc, rest)?;
        add_conds(&mut all, item)?;
        rest = after;
    }
    Ok((Seq::from_vec(alloc, all), rest))
}

// [ WHERE cond { AND cond } ]
#[tactic(auto, using(td_grammar::proofs::Forms::value_itself), unfolding(crate::specs::Productions::where_part))]
pub(crate) fn where_part(alloc: Global, tokens: &[Lexeme]) -> Result<(Seq<Cond>, &[Lexeme]), Fault>
    ensures { Gives (λ x. (x.0, x.1.now)) result (read (tt {0}) prod_where_part tokens.now) }
{
    if starts(tokens, kinds::WHERE) {
        let rest = keyword(tokens, kinds::WHERE)?;
        cond_list(alloc, rest)
    } else {
        Ok((Seq::new(alloc), tokens))
    }
}
