//! Where the names of a query find the cells of a row.
ghost use Rattle.std.specs.Prelude.{◌≡◌, length, IfOk};
ghost use Rattle.std.specs.List.{filter_map};
ghost use Rattle.std.specs.Option.{option_copied, option_map};
ghost use Rattle.td_model.specs.declared.catalog.Column.{Column};
ghost use Rattle.td_model.specs.declared.language.Item.{Item};
ghost use Rattle.td_verdict.specs.Names.{column_named};
ghost use Rattle.td_verdict.specs.Fields.{fields, place_in, part_column, part_place, operand_of, comparison_of, comparisons_of};
ghost use Rattle.td_verdict.specs.Plans.{reads_one};
ghost use Rattle.td_verdict.specs.Answers.{places_from, star_fields, item_place, shown_places};

use crate::literals::{number_at, text_at};
use crate::names::{column_named, place_of, same};
use std::alloc::Global;
use td_layer::{Cell, Copied, Name, NoMem, Seq};
use td_limits::NAME_BYTES;
use td_model::{Column, Cond, Item, ItemKind, Kind, Lit, PartBy, Plan, Query, Schema};
use td_verdict::Comparison;

/// TBNAME is compared as a text of at most the bytes of a name.
pub const TBNAME: Kind = Kind::Text(NAME_BYTES as u16);

/// The column or tag of a name.
#[tactic(auto, using(crate::proofs::Places::named_column, crate::proofs::Places::named_tag))]
pub fn field_named<'a>(schema: &'a Schema, name: &Name) -> Option<&'a Column>
    ensures { option_copied result ≡ column_named (fields schema.now) name.now }
{
    match column_named(schema.columns.as_slice(), name) {
        Some(column) => Some(column),
        None => column_named(schema.tags.as_slice(), name),
    }
}

// The place of the column or tag of a name among a row's cells.
#[tactic(auto, using(crate::proofs::Places::place_of_column, crate::proofs::Places::place_of_tag, crate::proofs::Places::place_of_none))]
fn place_in(schema: &Schema, name: &Name) -> Option<usize>
    ensures { result ≡ place_in schema.now name.now }
{
    let columns = schema.columns.as_slice();
    if let Some(i) = place_of(columns, name) {
        return Some(i + 1);
    }
    let i = place_of(schema.tags.as_slice(), name)?;
    Some(columns.len() + i + 1)
}

// The kind of what a condition is of.
fn part_kind(schema: &Schema, of: &PartBy) -> Option<Kind>
    ensures { result ≡ option_map (λ (c : Column). c.kind) (part_column schema.now of.now) }
{
    match of {
        PartBy::TbName => Some(TBNAME),
        PartBy::Tag(name) => field_named(schema, name).map(|column| column.kind),
    }
}

// The place of what a condition is of.
fn part_place(schema: &Schema, of: &PartBy) -> Option<usize>
    ensures { result ≡ part_place schema.now of.now }
{
    match of {
        PartBy::TbName => Some(0),
        PartBy::Tag(name) => place_in(schema, name),
    }
}

// The cell that a literal is compared as.
fn operand_of(kind: Kind, lit: &Lit) -> Result<Cell, NoMem>
    ensures { IfOk result (λ cell. cell ≡ operand_of kind lit.now) }
{
    if let Some(n) = number_at(kind, 0, lit) {
        return Ok(Cell::Num(n));
    }
    match text_at(kind, lit) {
        Some(text) => {
            let text = text.copy()?;
            Ok(Cell::Str(text))
        }
        None => Ok(Cell::Null),
    }
}

// A condition as a comparison, if its name is known.
fn comparison_of(schema: &Schema, cond: &Cond) -> Result<Option<Comparison>, NoMem>
    ensures { IfOk result (λ comparison. comparison ≡ comparison_of schema.now cond.now) }
{
    let Some(kind) = part_kind(schema, &cond.of) else {
        return Ok(None);
    };
    let Some(place) = part_place(schema, &cond.of) else {
        return Ok(None);
    };
    let operand = operand_of(kind, &cond.lit)?;
    Ok(Some(Comparison {
        place,
        op: cond.op,
        operand,
    }))
}

/// The conditions of a query over a schema as comparisons of a row's cells. A condition of a name that the schema
/// doesn't have gives none.
pub fn comparisons(alloc: Global, schema: &Schema, conds: &[Cond]) -> Result<Seq<Comparison>, NoMem>
    ensures { IfOk result (λ all. all ≡ comparisons_of schema.now conds.now) }
{
    let mut all = Seq::new(alloc);
    for cond in conds {
        let comparison = comparison_of(schema, cond)?;
        if let Some(comparison) = comparison {
            all.add(comparison)?;
        }
    }
    Ok(all)
}

// The places of a row's first cells behind its table's name.
#[tactic(auto, using(crate::proofs::Places::one_place))]
fn first_places(alloc: Global, count: usize) -> Result<Seq<usize>, NoMem>
    ensures { IfOk result (λ places. places ≡ places_from 1 count) }
{
    let mut places = Seq::new(alloc);
    for i in 0..count {
        places.add(i + 1)?;
    }
    Ok(places)
}

// The place of the cell that an item shows.
fn item_place(schema: &Schema, what: &ItemKind) -> Option<usize>
    ensures { result ≡ item_place schema.now what.now }
{
    match what {
        ItemKind::TbName => Some(0),
        ItemKind::Col(name) => place_in(schema, name),
        _ => None,
    }
}

// The places of the cells that the items of a select list show.
fn item_places(alloc: Global, schema: &Schema, items: &[Item]) -> Result<Seq<usize>, NoMem>
    ensures { IfOk result (λ places. places ≡ filter_map (λ (i : Item). item_place schema.now i.what) items.now) }
{
    let mut places = Seq::new(alloc);
    for item in items {
        if let Some(place) = item_place(schema, &item.what) {
            places.add(place)?;
        }
    }
    Ok(places)
}

// How many cells `*` shows of a row.
fn star_count(is_table: bool, schema: &Schema) -> usize
    ensures { result ≡ length (star_fields is_table schema.now) }
{
    if is_table {
        schema.columns.len()
    } else {
        schema.columns.as_slice().len() + schema.tags.as_slice().len()
    }
}

// The places of the cells that a query over a schema shows of a row. `*` shows the columns of a table, and of a
// supertable its columns and then its tags.
fn places_over(
    alloc: Global,
    is_table: bool,
    schema: &Schema,
    query: &Query,
) -> Result<Seq<usize>, NoMem>
    ensures { IfOk result (λ places. places ≡ shown_places is_table schema.now query.now) }
{
    if query.star {
        let places = first_places(alloc, star_count(is_table, schema))?;
        return Ok(places);
    }
    let places = item_places(alloc, schema, query.items.as_slice())?;
    Ok(places)
}

/// Whether a plan is of a table, and not of a supertable. Names share one space, so it is where its first table has the
/// name of the query's source.
pub fn reads_one(plan: &Plan) -> bool
    ensures { result ≡ reads_one plan.now }
{
    match plan.names.as_slice() {
        [name, ..] => same(name, &plan.query.source),
        [] => false,
    }
}

/// The places of the cells that the query of a plan shows of a row, in the order of its select list. `*` shows the
/// columns of a table, and of a supertable its columns and then its tags.
pub fn shown_places(alloc: Global, plan: &Plan) -> Result<Seq<usize>, NoMem>
    ensures { IfOk result (λ places. places ≡ shown_places (reads_one plan.now) plan.now.schema plan.now.query) }
{
    let places = places_over(alloc, reads_one(plan), &plan.schema, &plan.query)?;
    Ok(places)
}
