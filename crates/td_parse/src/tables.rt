//! Types, columns and tags, and the tables that are made of them.
ghost use Rattle.std.specs.Prelude.{◌≡◌};
ghost use Rattle.td_grammar.specs.Grammar.{read};
ghost use Rattle.td_grammar.specs.Gives.{Gives};
ghost use Rattle.td_parse.specs.Productions.{column as prod_column, column_kind as prod_column_kind, columns as prod_columns, later_tag_kind as prod_later_tag_kind, long_width as prod_long_width, of_stable as prod_of_stable, own_columns as prod_own_columns, sizes as prod_sizes, stable as prod_stable, table as prod_table, table_body as prod_table_body, tag as prod_tag, tag_kind as prod_tag_kind, tags as prod_tags, text_kind as prod_text_kind, whole_number as prod_whole_number, width as prod_width};
ghost use Rattle.td_parse.specs.Productions.{size_of, table_of, not_built_in};

use crate::drafts::Body;
use std::alloc::Global;
use td_clauses::literal_list;
use td_grammar::{
    Fault, KindRange, Lexeme, Listed, comma_list, keyword, kinds, name, number, starts, starts_in,
    token_in,
};
use td_layer::{Name, Seq};
use td_model::{Column, Kind, Stmt};

// INT | BIGINT, with and without sign
#[tactic(auto, using(td_grammar::proofs::Forms::value_itself), unfolding(crate::specs::Productions::long_width))]
fn long_width(tokens: &[Lexeme]) -> Result<((Kind, Kind), &[Lexeme]), Fault>
    ensures { Gives (λ x. (x.0, x.1.now)) result (read (tt {0}) prod_long_width tokens.now) }
{
    if starts(tokens, kinds::INT) {
        let rest = keyword(tokens, kinds::INT)?;
        Ok(((Kind::I32, Kind::U32), rest))
    } else {
        let rest = keyword(tokens, kinds::BIGINT)?;
        Ok(((Kind::I64, Kind::U64), rest))
    }
}

// The kinds of a whole number with and without sign.
#[tactic(auto, using(td_grammar::proofs::Forms::value_itself), unfolding(crate::specs::Productions::width))]
fn width(tokens: &[Lexeme]) -> Result<((Kind, Kind), &[Lexeme]), Fault>
    ensures { Gives (λ x. (x.0, x.1.now)) result (read (tt {0}) prod_width tokens.now) }
{
    if starts(tokens, kinds::TINYINT) {
        let rest = keyword(tokens, kinds::TINYINT)?;
        Ok(((Kind::I8, Kind::U8), rest))
    } else if starts(tokens, kinds::SMALLINT) {
        let rest = keyword(tokens, kinds::SMALLINT)?;
        Ok(((Kind::I16, Kind::U16), rest))
    } else {
        long_width(tokens)
    }
}

// ( TINYINT | SMALLINT | INT | BIGINT ) [ UNSIGNED ]
#[tactic(auto, using(td_grammar::proofs::Forms::value_itself), unfolding(crate::specs::Productions::whole_number))]
fn whole_number(tokens: &[Lexeme]) -> Result<(Kind, &[Lexeme]), Fault>
    ensures { Gives (λ x. (x.0, x.1.now)) result (read (tt {0}) prod_whole_number tokens.now) }
{
    let ((signed, unsigned), rest) = width(tokens)?;
    if starts(rest, kinds::UNSIGNED) {
        let rest = keyword(rest, kinds::UNSIGNED)?;
        Ok((unsigned, rest))
    } else {
        Ok((signed, rest))
    }
}

// What follows the sizes of a type that is not built, if there are any.
#[tactic(auto, using(td_grammar::proofs::Forms::value_itself), unfolding(crate::specs::Productions::sizes))]
fn sizes(tokens: &[Lexeme]) -> Result<&[Lexeme], Fault>
    ensures { Gives (λ rest. (tt, rest.now)) result (read (tt {0}) prod_sizes tokens.now) }
{
    if !starts(tokens, kinds::OPEN_PAREN) {
        return Ok(tokens);
    }
    let rest = keyword(tokens, kinds::OPEN_PAREN)?;
    let (_, rest) = number(rest)?;
    if starts(rest, kinds::COMMA) {
        let rest = keyword(rest, kinds::COMMA)?;
        let (_, rest) = number(rest)?;
        keyword(rest, kinds::CLOSE_PAREN)
    } else {
        keyword(rest, kinds::CLOSE_PAREN)
    }
}

// The word of a type that is not built, and its sizes.
#[tactic(auto, using(td_grammar::proofs::Forms::value_itself, td_grammar::proofs::Forms::one_value))]
fn not_built(tokens: &[Lexeme], range: KindRange) -> Result<&[Lexeme], Fault>
    ensures { Gives (λ rest. (tt, rest.now)) result (not_built_in range tokens.now) }
{
    let (_, rest) = token_in(tokens, range)?;
    sizes(rest)
}

// BOOL | TIMESTAMP | whole number | a type that is not built
#[tactic(auto, using(td_grammar::proofs::Forms::value_itself), unfolding(crate::specs::Productions::column_kind))]
fn column_kind(tokens: &[Lexeme]) -> Result<(Kind, &[Lexeme]), Fault>
    ensures { Gives (λ x. (x.0, x.1.now)) result (read (tt {0}) prod_column_kind tokens.now) }
{
    if starts(tokens, kinds::BOOL) {
        let rest = keyword(tokens, kinds::BOOL)?;
        Ok((Kind::Bool, rest))
    } else if starts(tokens, kinds::TIMESTAMP) {
        let rest = keyword(tokens, kinds::TIMESTAMP)?;
        Ok((Kind::Time, rest))
    } else if starts_in(tokens, kinds::NOT_BUILT_TYPES) {
        let rest = not_built(tokens, kinds::NOT_BUILT_TYPES)?;
        Ok((Kind::Wide, rest))
    } else {
        whole_number(tokens)
    }
}

// A number of bytes; outside 0 to 65535 it is kept as 0.
fn size_of(n: i128) -> u16
    ensures { result ≡ size_of n }
{
    if 0 <= n && n <= 65_535 { n as u16 } else { 0 }
}

// ( VARCHAR | BINARY ) ( Num )
#[tactic(auto, using(td_grammar::proofs::Forms::value_itself), unfolding(crate::specs::Productions::text_kind))]
fn text_kind(tokens: &[Lexeme]) -> Result<(Kind, &[Lexeme]), Fault>
    ensures { Gives (λ x. (x.0, x.1.now)) result (read (tt {0}) prod_text_kind tokens.now) }
{
    let rest = keyword(tokens, kinds::VARCHAR)?;
    let rest = keyword(rest, kinds::OPEN_PAREN)?;
    let (n, rest) = number(rest)?;
    let rest = keyword(rest, kinds::CLOSE_PAREN)?;
    Ok((Kind::Text(size_of(n)), rest))
}

// ( VARCHAR | BINARY ) ( Num ) | whole number
#[tactic(auto, using(td_grammar::proofs::Forms::value_itself, crate::proofs::Starts::starts_text_kind), unfolding(crate::specs::Productions::later_tag_kind))]
fn later_tag_kind(tokens: &[Lexeme]) -> Result<(Kind, &[Lexeme]), Fault>
    ensures { Gives (λ x. (x.0, x.1.now)) result (read (tt {0}) prod_later_tag_kind tokens.now) }
{
    if starts(tokens, kinds::VARCHAR) {
        text_kind(tokens)
    } else {
        whole_number(tokens)
    }
}

// BOOL | TIMESTAMP | whole number | text | a type that is not built
#[tactic(auto, using(td_grammar::proofs::Forms::value_itself), unfolding(crate::specs::Productions::tag_kind))]
fn tag_kind(tokens: &[Lexeme]) -> Result<(Kind, &[Lexeme]), Fault>
    ensures { Gives (λ x. (x.0, x.1.now)) result (read (tt {0}) prod_tag_kind tokens.now) }
{
    if starts(tokens, kinds::BOOL) {
        let rest = keyword(tokens, kinds::BOOL)?;
        Ok((Kind::Bool, rest))
    } else if starts(tokens, kinds::TIMESTAMP) {
        let rest = keyword(tokens, kinds::TIMESTAMP)?;
        Ok((Kind::Time, rest))
    } else if starts(tokens, kinds::NOT_BUILT_TYPE) {
        let rest = keyword(tokens, kinds::NOT_BUILT_TYPE)?;
        let rest = sizes(rest)?;
        Ok((Kind::Wide, rest))
    } else {
        later_tag_kind(tokens)
    }
}

// name type, of a column
#[tactic(auto, using(td_grammar::proofs::Forms::value_itself), unfolding(crate::specs::Productions::column))]
fn column(alloc: Global, tokens: &[Lexeme]) -> Result<(Column, &[Lexeme]), Fault>
    ensures { Gives (λ x. (x.0, x.1.now)) result (read (tt {0}) prod_column tokens.now) }
{
    let (name, rest) = name(alloc, tokens)?;
    let (kind, rest) = column_kind(rest)?;
    Ok((Column { name, kind }, rest))
}

// name type, of a tag
#[tactic(auto, using(td_grammar::proofs::Forms::value_itself), unfolding(crate::specs::Productions::tag))]
fn tag(alloc: Global, tokens: &[Lexeme]) -> Result<(Column, &[Lexeme]), Fault>
    ensures { Gives (λ x. (x.0, x.1.now)) result (read (tt {0}) prod_tag tokens.now) }
{
    let (name, rest) = name(alloc, tokens)?;
    let (kind, rest) = tag_kind(rest)?;
    Ok((Column { name, kind }, rest))
}

// Columns in parentheses.
struct ColumnList;

impl Listed for ColumnList {
    ghost use Rattle.td_parse.specs.Productions.{column, column_good};

    type Item = Column;

    ghost production = { column };

    ghost looks_one_ahead = { column_good };

    fn read_item(alloc: Global, tokens: &[Lexeme]) -> Result<(Column, &[Lexeme]), Fault> {
        column(alloc, tokens)
    }
}

// Tags in parentheses.
struct TagList;

impl Listed for TagList {
    ghost use Rattle.td_parse.specs.Productions.{tag, tag_good};

    type Item = Column;

    ghost production = { tag };

    ghost looks_one_ahead = { tag_good };

    fn read_item(alloc: Global, tokens: &[Lexeme]) -> Result<(Column, &[Lexeme]), Fault> {
        tag(alloc, tokens)
    }
}

// ( name type { , name type } )
#[tactic(auto, using(td_grammar::proofs::Forms::value_itself), unfolding(crate::specs::Productions::columns, crate::specs::Productions::column_list))]
fn columns(alloc: Global, tokens: &[Lexeme]) -> Result<(Seq<Column>, &[Lexeme]), Fault>
    ensures { Gives (λ x. (x.0, x.1.now)) result (read (tt {0}) prod_columns tokens.now) }
{
    let rest = keyword(tokens, kinds::OPEN_PAREN)?;
    let (all, rest) = comma_list::<ColumnList>(alloc, rest)?;
    let rest = keyword(rest, kinds::CLOSE_PAREN)?;
    Ok((all, rest))
}

// TAGS ( name type { , name type } )
#[tactic(auto, using(td_grammar::proofs::Forms::value_itself), unfolding(crate::specs::Productions::tags, crate::specs::Productions::tag_list))]
fn tags(alloc: Global, tokens: &[Lexeme]) -> Result<(Seq<Column>, &[Lexeme]), Fault>
    ensures { Gives (λ x. (x.0, x.1.now)) result (read (tt {0}) prod_tags tokens.now) }
{
    let rest = keyword(tokens, kinds::TAGS)?;
    let rest = keyword(rest, kinds::OPEN_PAREN)?;
    let (all, rest) = comma_list::<TagList>(alloc, rest)?;
    let rest = keyword(rest, kinds::CLOSE_PAREN)?;
    Ok((all, rest))
}

// STABLE name ( cols ) [ TAGS ( tags ) ], behind CREATE
#[tactic(auto, using(td_grammar::proofs::Forms::value_itself, crate::proofs::Starts::starts_tags), unfolding(crate::specs::Productions::stable))]
pub(crate) fn stable(alloc: Global, tokens: &[Lexeme]) -> Result<(Stmt, &[Lexeme]), Fault>
    ensures { Gives (λ x. (x.0, x.1.now)) result (read (tt {0}) prod_stable tokens.now) }
{
    let rest = keyword(tokens, kinds::STABLE)?;
    let (name, rest) = name(alloc, rest)?;
    let (columns, rest) = columns(alloc, rest)?;
    if starts(rest, kinds::TAGS) {
        let (tags, rest) = tags(alloc, rest)?;
        let tags = Some(tags);
        Ok((
            Stmt::MakeStable {
                name,
                columns,
                tags,
            },
            rest,
        ))
    } else {
        let tags = None;
        Ok((
            Stmt::MakeStable {
                name,
                columns,
                tags,
            },
            rest,
        ))
    }
}

// ( cols ) [ TAGS ( tags ) ]
#[tactic(auto, using(td_grammar::proofs::Forms::value_itself, crate::proofs::Starts::starts_tags), unfolding(crate::specs::Productions::own_columns))]
fn own_columns(alloc: Global, tokens: &[Lexeme]) -> Result<(Body, &[Lexeme]), Fault>
    ensures { Gives (λ x. (x.0, x.1.now)) result (read (tt {0}) prod_own_columns tokens.now) }
{
    let (columns, rest) = columns(alloc, tokens)?;
    if starts(rest, kinds::TAGS) {
        let (tags, rest) = tags(alloc, rest)?;
        Ok((Body::Super(columns, tags), rest))
    } else {
        Ok((Body::Plain(columns), rest))
    }
}

// USING name TAGS ( lits )
#[tactic(auto, using(td_grammar::proofs::Forms::value_itself), unfolding(crate::specs::Productions::of_stable))]
fn of_stable(alloc: Global, tokens: &[Lexeme]) -> Result<(Body, &[Lexeme]), Fault>
    ensures { Gives (λ x. (x.0, x.1.now)) result (read (tt {0}) prod_of_stable tokens.now) }
{
    let rest = keyword(tokens, kinds::USING)?;
    let (stable, rest) = name(alloc, rest)?;
    let rest = keyword(rest, kinds::TAGS)?;
    let rest = keyword(rest, kinds::OPEN_PAREN)?;
    let (tags, rest) = literal_list(alloc, rest)?;
    let rest = keyword(rest, kinds::CLOSE_PAREN)?;
    Ok((Body::Sub(stable, tags), rest))
}

// ( cols ) [ TAGS ( tags ) ] | USING name TAGS ( lits )
#[tactic(auto, using(td_grammar::proofs::Forms::value_itself, crate::proofs::Starts::starts_of_stable), unfolding(crate::specs::Productions::table_body))]
fn body(alloc: Global, tokens: &[Lexeme]) -> Result<(Body, &[Lexeme]), Fault>
    ensures { Gives (λ x. (x.0, x.1.now)) result (read (tt {0}) prod_table_body tokens.now) }
{
    if starts(tokens, kinds::USING) {
        of_stable(alloc, tokens)
    } else {
        own_columns(alloc, tokens)
    }
}

// The statement of a name and what follows it.
fn table_of(name: Name, body: Body) -> Stmt
    ensures { result ≡ table_of name body }
{
    match body {
        Body::Plain(columns) => Stmt::MakeTable { name, columns },
        Body::Super(columns, tags) => Stmt::MakeStable {
            name,
            columns,
            tags: Some(tags),
        },
        Body::Sub(stable, tags) => Stmt::MakeSub { name, stable, tags },
    }
}

// TABLE name body, behind CREATE
#[tactic(auto, using(td_grammar::proofs::Forms::value_itself), unfolding(crate::specs::Productions::table))]
pub(crate) fn table(alloc: Global, tokens: &[Lexeme]) -> Result<(Stmt, &[Lexeme]), Fault>
    ensures { Gives (λ x. (x.0, x.1.now)) result (read (tt {0}) prod_table tokens.now) }
{
    let rest = keyword(tokens, kinds::TABLE)?;
    let (name, rest) = name(alloc, rest)?;
    let (body, rest) = body(alloc, rest)?;
    Ok((table_of(name, body), rest))
}
