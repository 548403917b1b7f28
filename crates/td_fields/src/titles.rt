//! The header of a query's answer.
ghost use Rattle.std.specs.Prelude.{◌≡◌, map, IfOk};
ghost use Rattle.td_model.specs.declared.language.Query.{Query};
ghost use Rattle.td_model.specs.Catalog.{Catalog};
ghost use Rattle.td_verdict.specs.Plans.{plan_of};
ghost use Rattle.td_verdict.specs.Names.{names_of};
ghost use Rattle.td_verdict.specs.Answers.{star_fields, func_text, item_text, item_title, header_over, header};

use crate::fields::reads_one;
use crate::names::add_names;
use std::alloc::Global;
use td_layer::{Copied, Func, Name, NoMem, Seq};
use td_model::{Item, ItemKind, Plan, Query, Schema};

// The names of what `*` shows of a row.
fn star_names(alloc: Global, is_table: bool, schema: &Schema) -> Result<Seq<Name>, NoMem>
    ensures { IfOk result (λ names. names ≡ names_of (star_fields is_table schema.now)) }
{
    let mut names = Seq::new(alloc);
    add_names(&mut names, schema.columns.as_slice())?;
    if !is_table {
        add_names(&mut names, schema.tags.as_slice())?;
    }
    Ok(names)
}

// An aggregate's name.
fn func_text(func: Func) -> &'static [u8]
    ensures { result.now ≡ func_text func }
{
    match func {
        Func::Count => b"COUNT",
        Func::Sum => b"SUM",
        Func::Min => b"MIN",
        Func::Max => b"MAX",
        Func::Avg => b"AVG",
        Func::First => b"FIRST",
        Func::Last => b"LAST",
        Func::Spread => b"SPREAD",
    }
}

// An aggregate's name with that of its column, as `AVG(voltage)`.
fn call_text(alloc: Global, func: Func, column: &Name) -> Result<Name, NoMem>
    ensures { IfOk result (λ name. name ≡ item_text (ItemKind.Fun func column.now)) }
{
    let mut name = Seq::of_bytes(alloc, func_text(func))?;
    name.extend(b"(")?;
    name.extend(column.as_slice())?;
    name.extend(b")")?;
    Ok(name)
}

// The name of an item.
fn item_text(alloc: Global, what: &ItemKind) -> Result<Name, NoMem>
    ensures { IfOk result (λ name. name ≡ item_text what.now) }
{
    match what {
        ItemKind::TbName => Ok(Seq::of_bytes(alloc, b"TBNAME")?),
        ItemKind::WStart => Ok(Seq::of_bytes(alloc, b"_wstart")?),
        ItemKind::WEnd => Ok(Seq::of_bytes(alloc, b"_wend")?),
        ItemKind::CountAll => Ok(Seq::of_bytes(alloc, b"COUNT(*)")?),
        ItemKind::Col(name) => Ok(name.copy()?),
        ItemKind::Fun(func, column) => Ok(call_text(alloc, *func, column)?),
    }
}

// An item's alias, or else its name.
fn item_title(alloc: Global, item: &Item) -> Result<Name, NoMem>
    ensures { IfOk result (λ title. title ≡ item_title item.now) }
{
    match &item.alias {
        Some(alias) => {
            let title = alias.copy()?;
            Ok(title)
        }
        None => {
            let title = item_text(alloc, &item.what)?;
            Ok(title)
        }
    }
}

// The titles of the items of a select list.
fn item_titles(alloc: Global, items: &[Item]) -> Result<Seq<Name>, NoMem>
    ensures { IfOk result (λ titles. titles ≡ map item_title items.now) }
{
    let mut titles = Seq::new(alloc);
    for item in items {
        let title = item_title(alloc, item)?;
        titles.add(title)?;
    }
    Ok(titles)
}

// The header of a query's answer over a schema.
fn header_over(
    alloc: Global,
    is_table: bool,
    schema: &Schema,
    query: &Query,
) -> Result<Seq<Name>, NoMem>
    ensures { IfOk result (λ names. names ≡ header_over is_table schema.now query.now) }
{
    if query.star {
        let names = star_names(alloc, is_table, schema)?;
        return Ok(names);
    }
    let names = item_titles(alloc, query.items.as_slice())?;
    Ok(names)
}

/// The header of the answer of a plan: of each item of the select list its alias, or else its name.
pub fn header(alloc: Global, plan: &Plan) -> Result<Seq<Name>, NoMem>
    ensures { (q : Query) (c : Catalog) → plan.now ≡ plan_of q c → IfOk result (λ names. names ≡ header q c) }
{
    let names = header_over(alloc, reads_one(plan), &plan.schema, &plan.query)?;
    Ok(names)
}
