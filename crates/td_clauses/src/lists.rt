//! Select lists and partitions.
ghost use Rattle.std.specs.Prelude.{◌≡◌, ◌++◌, []};
ghost use Rattle.td_grammar.specs.Grammar.{read};
ghost use Rattle.td_grammar.specs.Gives.{Gives};
ghost use Rattle.td_clauses.specs.Productions.{count_item as prod_count_item, count_argument as prod_count_argument, function_item as prod_function_item, function_word as prod_function_word, select_item as prod_select_item, items as prod_items, named_item as prod_named_item, part as prod_part, plain_name as prod_plain_name, selected as prod_selected};
ghost use Rattle.td_grammar.specs.Grammar.{has};
ghost use Rattle.td_clauses.specs.Productions.{func_of};
ghost use Rattle.td_clauses.specs.Productions.{count_word as prod_count_word};
ghost use Rattle.td_grammar.specs.declared.kinds.TheConstants.{NAMES_BELOW_FUNCTIONS, NAMES_ABOVE_FUNCTIONS};
ghost use Rattle.td_grammar.specs.Grammar.{within};

use std::alloc::Global;
use td_grammar::{
    Fault, KindRange, Lexeme, Listed, TokenKind, comma_list, keyword, kinds, name, starts,
    starts_in, token_in, token_of, word_of,
};
use td_layer::{Name, Seq};
use td_model::{Func, Item, ItemKind, PartBy};

// ( * ) | ( name ), behind COUNT
#[tactic(auto, using(td_grammar::proofs::Forms::value_itself), unfolding(crate::specs::Productions::count_argument))]
fn count_argument(alloc: Global, tokens: &[Lexeme]) -> Result<(ItemKind, &[Lexeme]), Fault>
    ensures { Gives (λ x. (x.0, x.1.now)) result (read (tt {0}) prod_count_argument tokens.now) }
{
    let rest = keyword(tokens, kinds::OPEN_PAREN)?;
    if starts(rest, kinds::STAR) {
        let rest = keyword(rest, kinds::STAR)?;
        let rest = keyword(rest, kinds::CLOSE_PAREN)?;
        Ok((ItemKind::CountAll, rest))
    } else {
        let (name, rest) = name(alloc, rest)?;
        let rest = keyword(rest, kinds::CLOSE_PAREN)?;
        Ok((ItemKind::Fun(Func::Count, name), rest))
    }
}

// COUNT
#[tactic(auto, using(td_grammar::proofs::Forms::one_value))]
fn count_word(alloc: Global, tokens: &[Lexeme]) -> Result<(Name, &[Lexeme]), Fault>
    ensures { Gives (λ x. (x.0, x.1.now)) result (read (tt {0}) prod_count_word tokens.now) }
{
    let (token, rest) = token_of(tokens, kinds::COUNT)?;
    let text = word_of(alloc, &token.token)?;
    Ok((text, rest))
}

// COUNT [ ( * ) | ( name ) ]; the word alone is a name
#[tactic(auto, using(td_grammar::proofs::Forms::value_itself, crate::proofs::Starts::starts_count_argument), unfolding(crate::specs::Productions::count_item))]
fn count_item(alloc: Global, tokens: &[Lexeme]) -> Result<(ItemKind, &[Lexeme]), Fault>
    ensures { Gives (λ x. (x.0, x.1.now)) result (read (tt {0}) prod_count_item tokens.now) }
{
    let (word, rest) = count_word(alloc, tokens)?;
    if starts(rest, kinds::OPEN_PAREN) {
        count_argument(alloc, rest)
    } else {
        Ok((ItemKind::Col(word), rest))
    }
}

// The function of a word's kind.
fn func_of(kind: TokenKind) -> Func
    ensures { result ≡ func_of kind }
{
    if kind == kinds::SUM {
        Func::Sum
    } else if kind == kinds::MIN {
        Func::Min
    } else if kind == kinds::MAX {
        Func::Max
    } else if kind == kinds::AVG {
        Func::Avg
    } else if kind == kinds::FIRST {
        Func::First
    } else if kind == kinds::LAST {
        Func::Last
    } else {
        Func::Spread
    }
}

// A function's word, which is a name where no parenthesis follows.
#[tactic(auto, using(td_grammar::proofs::Forms::one_value))]
fn function_word(alloc: Global, tokens: &[Lexeme]) -> Result<((Func, Name), &[Lexeme]), Fault>
    ensures { Gives (λ x. (x.0, x.1.now)) result (read (tt {0}) prod_function_word tokens.now) }
{
    let (token, rest) = token_in(tokens, kinds::COLUMN_FUNCTIONS)?;
    let text = word_of(alloc, &token.token)?;
    Ok(((func_of(token.kind), text), rest))
}

// func [ ( name ) ] of the other functions; the word alone is a name
#[tactic(auto, using(td_grammar::proofs::Forms::value_itself), unfolding(crate::specs::Productions::function_item))]
fn function_item(alloc: Global, tokens: &[Lexeme]) -> Result<(ItemKind, &[Lexeme]), Fault>
    ensures { Gives (λ x. (x.0, x.1.now)) result (read (tt {0}) prod_function_item tokens.now) }
{
    let ((func, word), rest) = function_word(alloc, tokens)?;
    if starts(rest, kinds::OPEN_PAREN) {
        let rest = keyword(rest, kinds::OPEN_PAREN)?;
        let (name, rest) = name(alloc, rest)?;
        let rest = keyword(rest, kinds::CLOSE_PAREN)?;
        Ok((ItemKind::Fun(func, name), rest))
    } else {
        Ok((ItemKind::Col(word), rest))
    }
}

// name, where it is no function's word
#[tactic(auto, unfolding(crate::specs::Productions::plain_name))]
fn plain_name(alloc: Global, tokens: &[Lexeme]) -> Result<(Name, &[Lexeme]), Fault>
    ensures { Gives (λ x. (x.0, x.1.now)) result (read (tt {0}) prod_plain_name tokens.now) }
{
    match tokens {
        [] => Err(Fault::At(0)),
        [token, rest @ ..] => {
            if is_plain(token.kind) {
                let text = word_of(alloc, &token.token)?;
                Ok((text, rest))
            } else {
                Err(Fault::At(tokens.len()))
            }
        }
    }
}

// Whether a word of this kind is a name and no function.
#[tactic(auto, using(std::proofs::lemmas::Bool::Decides::nat_tests))]
fn is_plain(kind: TokenKind) -> bool
    ensures { result ≡ has kind (within NAMES_BELOW_FUNCTIONS ++ within NAMES_ABOVE_FUNCTIONS) }
{
    is_in(kind, kinds::NAMES_BELOW_FUNCTIONS) || is_in(kind, kinds::NAMES_ABOVE_FUNCTIONS)
}

// Whether a kind is in a range.
#[tactic(auto, using(std::proofs::lemmas::Bool::Decides::nat_tests))]
fn is_in(kind: TokenKind, range: KindRange) -> bool
    ensures { result ≡ has kind (within range) }
{
    range.low <= kind && kind <= range.high
}

// TBNAME | _WSTART | _WEND | name
#[tactic(auto, using(td_grammar::proofs::Forms::value_itself), unfolding(crate::specs::Productions::named_item))]
fn named_item(alloc: Global, tokens: &[Lexeme]) -> Result<(ItemKind, &[Lexeme]), Fault>
    ensures { Gives (λ x. (x.0, x.1.now)) result (read (tt {0}) prod_named_item tokens.now) }
{
    if starts(tokens, kinds::TBNAME) {
        let rest = keyword(tokens, kinds::TBNAME)?;
        Ok((ItemKind::TbName, rest))
    } else if starts(tokens, kinds::WSTART) {
        let rest = keyword(tokens, kinds::WSTART)?;
        Ok((ItemKind::WStart, rest))
    } else if starts(tokens, kinds::WEND) {
        let rest = keyword(tokens, kinds::WEND)?;
        Ok((ItemKind::WEnd, rest))
    } else {
        let (made, rest) = plain_name(alloc, tokens)?;
        Ok((ItemKind::Col(made), rest))
    }
}

// name | TBNAME | _WSTART | _WEND | COUNT ( * ) | func ( name )
#[tactic(auto, using(td_grammar::proofs::Forms::value_itself, crate::proofs::Starts::starts_count_item, crate::proofs::Starts::starts_function_item), unfolding(crate::specs::Productions::selected))]
fn selected(alloc: Global, tokens: &[Lexeme]) -> Result<(ItemKind, &[Lexeme]), Fault>
    ensures { Gives (λ x. (x.0, x.1.now)) result (read (tt {0}) prod_selected tokens.now) }
{
    if starts(tokens, kinds::COUNT) {
        count_item(alloc, tokens)
    } else if starts_in(tokens, kinds::COLUMN_FUNCTIONS) {
        function_item(alloc, tokens)
    } else {
        named_item(alloc, tokens)
    }
}

// selected [ AS name ]
#[tactic(auto, using(td_grammar::proofs::Forms::value_itself), unfolding(crate::specs::Productions::select_item))]
fn select_item(alloc: Global, tokens: &[Lexeme]) -> Result<(Item, &[Lexeme]), Fault>
    ensures { Gives (λ x. (x.0, x.1.now)) result (read (tt {0}) prod_select_item tokens.now) }
{
    let (what, rest) = selected(alloc, tokens)?;
    if starts(rest, kinds::AS) {
        let rest = keyword(rest, kinds::AS)?;
        let (alias, rest) = name(alloc, rest)?;
        let alias = Some(alias);
        Ok((Item { what, alias }, rest))
    } else {
        let alias = None;
        Ok((Item { what, alias }, rest))
    }
}

// * | select_item { , select_item }
#[tactic(auto, using(td_grammar::proofs::Forms::value_itself), unfolding(crate::specs::Productions::items, crate::specs::Productions::select_items))]
pub(crate) fn items(
    alloc: Global,
    tokens: &[Lexeme],
) -> Result<((bool, Seq<Item>), &[Lexeme]), Fault>
    ensures { Gives (λ x. (x.0, x.1.now)) result (read (tt {0}) prod_items tokens.now) }
{
    if starts(tokens, kinds::STAR) {
        let rest = keyword(tokens, kinds::STAR)?;
        Ok(((true, Seq::new(alloc)), rest))
    } else {
        let (all, rest) = comma_list::<SelectItems>(alloc, tokens)?;
        Ok(((false, all), rest))
    }
}

// name | TBNAME
#[tactic(auto, using(td_grammar::proofs::Forms::value_itself), unfolding(crate::specs::Productions::part))]
pub(crate) fn part(alloc: Global, tokens: &[Lexeme]) -> Result<(PartBy, &[Lexeme]), Fault>
    ensures { Gives (λ x. (x.0, x.1.now)) result (read (tt {0}) prod_part tokens.now) }
{
    if starts(tokens, kinds::TBNAME) {
        let rest = keyword(tokens, kinds::TBNAME)?;
        Ok((PartBy::TbName, rest))
    } else {
        let (made, rest) = name(alloc, tokens)?;
        Ok((PartBy::Tag(made), rest))
    }
}

// Items of a select list.
struct SelectItems;

impl Listed for SelectItems {
    ghost use Rattle.td_clauses.specs.Productions.{select_item, select_item_good};

    type Item = Item;

    ghost production = { select_item };

    ghost looks_one_ahead = { select_item_good };

    fn read_item(alloc: Global, tokens: &[Lexeme]) -> Result<(Item, &[Lexeme]), Fault> {
        select_item(alloc, tokens)
    }
}

// Columns and tags of a partition.
pub(crate) struct PartitionColumns;

impl Listed for PartitionColumns {
    ghost use Rattle.td_clauses.specs.Productions.{part, part_good};

    type Item = PartBy;

    ghost production = { part };

    ghost looks_one_ahead = { part_good };

    fn read_item(alloc: Global, tokens: &[Lexeme]) -> Result<(PartBy, &[Lexeme]), Fault> {
        part(alloc, tokens)
    }
}
