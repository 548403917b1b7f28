//! What a query meets over the schema of its source: its names, its literals and its LIMIT. What its select list and
//! its window meet stands in `refusals`.
ghost use Rattle.std.specs.Prelude.{◌≡◌, IfOk};
ghost use Rattle.std.specs.List.{list_any};
ghost use Rattle.td_model.specs.declared.language.Item.{Item};
ghost use Rattle.td_model.specs.declared.language.Cond.{Cond};
ghost use Rattle.td_verdict.specs.Fields.{part_column, tbname_column};
ghost use Rattle.td_verdict.specs.Values.{suits};
ghost use Rattle.td_verdict.specs.Queries.{reads_all, is_unknown, is_item_unknown, is_part_unknown, is_window_unknown, is_order_unknown, has_unknown, mismatch_at, mismatch_cause, is_count, is_bad_limit, body_cause};

use crate::columns::mismatch_of;
use crate::refusals::{is_bad_selection, is_bad_window, is_plain, is_window_start};
use std::alloc::Global;
use td_fields::{TBNAME, field_named, said_at};
use td_layer::{Name, NoMem, Seq};
use td_limits::LAST_COUNT;
use td_model::{
    Cause, Column, Cond, Item, ItemKind, Lit, OrderBy, PartBy, Query, Schema, WindowDef,
};

// Whether a query is `SELECT *` with an optional LIMIT alone.
pub(crate) fn reads_all(query: &Query) -> bool
    ensures { result ≡ reads_all query.now }
{
    query.star && query.conds.is_empty() && is_plain(&query.order) && query.skip == 0
}

// Whether a name is no column or tag.
fn is_unknown(schema: &Schema, name: &Name) -> bool
    ensures { result ≡ is_unknown schema.now name.now }
{
    field_named(schema, name).is_none()
}

fn is_item_unknown(schema: &Schema, what: &ItemKind) -> bool
    ensures { result ≡ is_item_unknown schema.now what.now }
{
    match what {
        ItemKind::Col(name) | ItemKind::Fun(_, name) => is_unknown(schema, name),
        ItemKind::TbName | ItemKind::WStart | ItemKind::WEnd | ItemKind::CountAll => false,
    }
}

fn is_part_unknown(schema: &Schema, of: &PartBy) -> bool
    ensures { result ≡ is_part_unknown schema.now of.now }
{
    match of {
        PartBy::Tag(name) => is_unknown(schema, name),
        PartBy::TbName => false,
    }
}

fn is_window_unknown(schema: &Schema, window: &WindowDef) -> bool
    ensures { result ≡ is_window_unknown schema.now window.now }
{
    match window {
        WindowDef::Session { column, .. } | WindowDef::State { column } => {
            is_unknown(schema, column)
        }
        WindowDef::Whole | WindowDef::Interval { .. } => false,
    }
}

fn is_order_unknown(schema: &Schema, order: &OrderBy) -> bool
    ensures { result ≡ is_order_unknown schema.now order.now }
{
    match order {
        OrderBy::Plain => false,
        OrderBy::Asc(name) | OrderBy::Desc(name) => {
            !is_window_start(name) && is_unknown(schema, name)
        }
    }
}

// Whether a select list has a name that is no column or tag.
fn selects_unknown(schema: &Schema, items: &[Item]) -> bool
    ensures { result ≡ list_any (λ (i : Item). is_item_unknown schema.now i.what) items.now }
{
    items.iter().any(|item| is_item_unknown(schema, &item.what))
}

// Whether a condition is of a name that is no column or tag.
fn compares_unknown(schema: &Schema, conds: &[Cond]) -> bool
    ensures { result ≡ list_any (λ (c : Cond). is_part_unknown schema.now c.of) conds.now }
{
    conds.iter().any(|cond| is_part_unknown(schema, &cond.of))
}

// Whether a PARTITION BY item is a name that is no column or tag.
fn parts_unknown(schema: &Schema, parts: &[PartBy]) -> bool
    ensures { result ≡ list_any (is_part_unknown schema.now) parts.now }
{
    parts.iter().any(|part| is_part_unknown(schema, part))
}

// Whether a query has a name that is no column or tag.
fn has_unknown(schema: &Schema, query: &Query) -> bool
    ensures { result ≡ has_unknown schema.now query.now }
{
    selects_unknown(schema, query.items.as_slice())
        || compares_unknown(schema, query.conds.as_slice())
        || parts_unknown(schema, query.parts.as_slice())
        || is_window_unknown(schema, &query.window)
        || is_order_unknown(schema, &query.order)
}

// That a literal doesn't suit TBNAME.
fn tbname_mismatch(alloc: Global) -> Result<Cause, NoMem>
    ensures { IfOk result (λ cause. cause ≡ Cause.TypeMismatch tbname_column.name) }
{
    let column = Seq::of_bytes(alloc, b"tbname")?;
    Ok(Cause::TypeMismatch { column })
}

// Whether a condition's literal suits a column.
#[tactic(auto, using(td_fields::proofs::Read::suits_read))]
fn suits_column(column: &Column, lit: &Lit) -> bool
    ensures { result ≡ suits column.now.kind 0 lit.now }
{
    said_at(column.kind, 0, lit).suits()
}

// That a condition's literal doesn't suit what the condition is of, if it doesn't.
fn mismatch_at(alloc: Global, schema: &Schema, cond: &Cond) -> Result<Option<Cause>, NoMem>
    ensures { IfOk result (λ cause. cause ≡ mismatch_at (part_column schema.now cond.now.of) cond.now) }
{
    match &cond.of {
        PartBy::TbName if said_at(TBNAME, 0, &cond.lit).suits() => Ok(None),
        PartBy::TbName => {
            let cause = tbname_mismatch(alloc)?;
            Ok(Some(cause))
        }
        PartBy::Tag(name) => {
            let field = field_named(schema, name);
            let cause = mismatch_of(field.filter(|column| !suits_column(column, &cond.lit)))?;
            Ok(cause)
        }
    }
}

// That the literal of the first such condition doesn't suit, if there is one.
fn mismatch_cause(alloc: Global, schema: &Schema, conds: &[Cond]) -> Result<Option<Cause>, NoMem>
    ensures { IfOk result (λ cause. cause ≡ mismatch_cause schema.now conds.now) }
{
    for cond in conds {
        let cause = mismatch_at(alloc, schema, cond)?;
        if cause.is_some() {
            return Ok(cause);
        }
    }
    Ok(None)
}

// Whether a number is a count of rows.
fn is_count(n: i128) -> bool
    ensures { result ≡ is_count n }
{
    0 <= n && n <= i128::from(LAST_COUNT)
}

fn is_bad_limit(query: &Query) -> bool
    ensures { result ≡ is_bad_limit query.now }
{
    !is_count(query.skip) || query.limit.is_some_and(|n| !is_count(n))
}

// Why a query over the schema of its source is refused, if it is.
pub(crate) fn body_cause(
    alloc: Global,
    of_table: bool,
    schema: &Schema,
    query: &Query,
) -> Result<Option<Cause>, NoMem>
    ensures { IfOk result (λ cause. cause ≡ body_cause of_table schema.now query.now) }
{
    if has_unknown(schema, query) {
        return Ok(Some(Cause::UnknownColumn));
    }
    if let Some(cause) = mismatch_cause(alloc, schema, query.conds.as_slice())? {
        return Ok(Some(cause));
    }
    if is_bad_selection(schema, query) {
        return Ok(Some(Cause::BadSelect));
    }
    if is_bad_window(of_table, schema, query) {
        return Ok(Some(Cause::BadWindow));
    }
    if is_bad_limit(query) {
        return Ok(Some(Cause::BadLimit));
    }
    Ok(None)
}
