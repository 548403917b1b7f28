//! The tables that a query reads.
ghost use Rattle.std.specs.Prelude.{◌≡◌, ◌==◌, ◌<◌, ◌-◌, ◌+◌, ◌++◌, false, [], ◌∷◌, filter, map, length, Some, IfOk, IfSome, IfNone, OnOk};
ghost use Rattle.std.specs.Option.{option_map, option_map_or, option_copied, option_to_list};
ghost use Rattle.td_catalog.specs.Kept.{IsNumbered};
ghost use Rattle.td_model.specs.Tags.{matching};
ghost use Rattle.td_verdict.specs.Plans.{subtables_of, holds_of_table, all_hold_of_table, planned};
ghost use Rattle.td_verdict.specs.Queries.{source_of, source_schema};
ghost use Rattle.td_bind.specs.Tables.{IsThere, numbers_of, is_planned, is_indexed, first_indexed, is_equal, first_named, table_of_cell, AreThere, tags_at, name_at, part_at};

use crate::found::{find_stable, find_table};
use std::alloc::Global;
use td_catalog::Catalog;
use td_cells::{tag_matches, text_matches};
use td_fields::part_of;
use td_layer::{Cell, Copied, Name, NoMem, Seq};
use td_model::{Op, PartBy, Schema};
use td_tagidx::TagIndex;
use td_verdict::{Comparison, Source};

// What a name names, a table or else a supertable, and its schema.
#[tactic(auto, using(crate::proofs::Numbers::stable_numbered))]
pub(crate) fn find_source<'a>(catalog: &'a Catalog, name: &Name) -> Option<(Source, &'a Schema)>
    ensures source { IfSome result (λ p. p.0 ≡ source_of name.now catalog.now.catalog) }
    ensures there { IfSome result (λ p. IsThere p.0 catalog.now.catalog) }
    ensures schema { IfSome result (λ p. p.1.now ≡ source_schema name.now catalog.now.catalog) }
    ensures other { IfNone result (source_of name.now catalog.now.catalog ≡ Source.Other) }
{
    if let Some((table, schema)) = find_table(catalog, name) {
        return Some((Source::Table(table), schema));
    }
    let (stable, schema) = find_stable(catalog, name)?;
    Some((Source::Stable(stable), schema))
}

// The place among the tags of the tag that a comparison is of. The tags stand behind TBNAME and the columns.
fn tag_place(columns: usize, comparison: &Comparison) -> usize
    requires { columns < comparison.now.place }
    ensures { result ≡ comparison.now.place - (columns + 1) }
{
    comparison.place - 1 - columns
}

// Whether a comparison is true of a table's name and tags, where it is of one of these.
fn holds_of_table(columns: usize, name: &Name, tags: &Seq<Cell>, comparison: &Comparison) -> bool
    ensures { result ≡ holds_of_table columns name.now tags.now comparison.now }
{
    if comparison.place == 0 {
        return text_matches(comparison.op, name, &comparison.operand);
    }
    if comparison.place <= columns {
        return true;
    }
    let tag = tag_place(columns, comparison);
    tag_matches(tags.as_slice(), tag, comparison.op, &comparison.operand)
}

// Whether all comparisons of a table's name and tags are true of them.
fn all_hold_of_table(
    columns: usize,
    comparisons: &[Comparison],
    name: &Name,
    tags: &Seq<Cell>,
) -> bool
    ensures { result ≡ all_hold_of_table columns comparisons.now name.now tags.now }
{
    for comparison in comparisons {
        if !holds_of_table(columns, name, tags, comparison) {
            return false;
        }
    }
    true
}

// Whether a supertable is a table's.
fn is_parent(stable: u32, parent: Option<u32>) -> bool
    ensures { result ≡ option_map_or (λ p. p == stable) parent false }
{
    match parent {
        None => false,
        Some(parent) => parent == stable,
    }
}

// Whether the table of a number is a subtable of a supertable, and all comparisons of its name and tags are true.
fn is_planned(
    stable: u32,
    columns: usize,
    comparisons: &[Comparison],
    catalog: &Catalog,
    table: u32,
) -> bool
    requires { IsNumbered table (length catalog.now.catalog.tables) }
    ensures { result ≡ is_planned stable columns comparisons.now catalog.now.catalog table }
{
    is_parent(stable, catalog.parent_of(table))
        && all_hold_of_table(
            columns,
            comparisons,
            catalog.name_of(table),
            catalog.tags_of(table),
        )
}

// Of some tables those subtables of a supertable whose tags pass all comparisons.
fn planned_among(
    alloc: Global,
    stable: u32,
    columns: usize,
    comparisons: &[Comparison],
    catalog: &Catalog,
    tables: &[u32],
) -> Result<Seq<u32>, NoMem>
    requires { AreThere catalog.now.catalog tables.now }
    ensures { IfOk result (λ planned. planned
        ≡ filter (is_planned stable columns comparisons.now catalog.now.catalog) tables.now) }
{
    let mut planned = Seq::new(alloc);
    for table in tables {
        if is_planned(stable, columns, comparisons, catalog, *table) {
            planned.add(*table)?;
        }
    }
    Ok(planned)
}

// Whether the index finds the tags that pass a comparison without a look at all others.
fn is_indexed(op: Op) -> bool
    ensures { result ≡ is_indexed op }
{
    match op {
        Op::Lt | Op::Le | Op::Gt | Op::Ge | Op::Eq => true,
        Op::Ne | Op::IsNull | Op::NotNull => false,
    }
}

// The first comparison of a tag for which the index serves.
fn first_indexed(columns: usize, comparisons: &[Comparison]) -> Option<&Comparison>
    ensures first { option_copied result ≡ first_indexed columns comparisons.now }
    ensures tag { IfSome result (λ first. columns < first.now.place) }
{
    comparisons.iter().find(|comparison| columns < comparison.place && is_indexed(comparison.op))
}

// The numbers of all subtables of which a comparison of a tag is true.
fn found_by(tags: &TagIndex, columns: usize, comparison: &Comparison) -> Result<Seq<u32>, NoMem>
    requires { columns < comparison.now.place }
    ensures { IfOk result (λ found. found ≡ matching (comparison.now.place - (columns + 1)) comparison.now.op
        comparison.now.operand tags.now.subtables) }
{
    let tag = tag_place(columns, comparison);
    let found = tags.find(tag, comparison.op, &comparison.operand)?;
    Ok(found)
}

// Whether a comparison leaves only what equals its operand.
fn is_equal(op: Op) -> bool
    ensures { result ≡ is_equal op }
{
    match op {
        Op::Eq => true,
        Op::Lt | Op::Le | Op::Gt | Op::Ge | Op::Ne | Op::IsNull | Op::NotNull => false,
    }
}

// The first comparison of the table's name that leaves one name.
fn first_named(comparisons: &[Comparison]) -> Option<&Comparison>
    ensures { option_copied result ≡ first_named comparisons.now }
{
    comparisons.iter().find(|comparison| comparison.place == 0 && is_equal(comparison.op))
}

// The number of the table whose name a cell is.
fn table_of_cell(name: &Cell, catalog: &Catalog) -> Option<u32>
    ensures { result ≡ table_of_cell name.now catalog.now.catalog }
{
    match name {
        Cell::Str(name) => catalog.find_table(name),
        Cell::Null | Cell::Truth(_) | Cell::Num(_) | Cell::Frac { .. } => None,
    }
}

// The subtables of a supertable of which all comparisons are true, where one of those leaves a name: at most the table
// of it.
fn planned_named(
    alloc: Global,
    stable: u32,
    columns: usize,
    comparisons: &[Comparison],
    catalog: &Catalog,
    named: &Comparison,
) -> Result<Seq<u32>, NoMem>
    requires { first_named comparisons.now ≡ Some named.now }
    ensures { IfOk result (λ tables. tables ≡ numbers_of
        (planned (Source.Stable stable) columns comparisons.now catalog.now.catalog)) }
{
    catalog.is_valid();
    let found = at_most_one(alloc, table_of_cell(&named.operand, catalog))?;
    let found = found.as_slice();
    let planned = planned_among(alloc, stable, columns, comparisons, catalog, found)?;
    Ok(planned)
}

// The same, where the index serves for one of the comparisons: it gives those that may be among them.
fn planned_indexed(
    alloc: Global,
    stable: u32,
    columns: usize,
    comparisons: &[Comparison],
    catalog: &Catalog,
    tags: &TagIndex,
    first: &Comparison,
) -> Result<Seq<u32>, NoMem>
    requires subtables { tags.now.subtables ≡ subtables_of catalog.now.catalog }
    requires first { first_indexed columns comparisons.now ≡ Some first.now }
    requires tag { columns < first.now.place }
    ensures { IfOk result (λ tables. tables ≡ numbers_of
        (planned (Source.Stable stable) columns comparisons.now catalog.now.catalog)) }
{
    let found = found_by(tags, columns, first)?;
    let found = found.as_slice();
    let planned = planned_among(alloc, stable, columns, comparisons, catalog, found)?;
    Ok(planned)
}

// The subtables of a supertable of which all comparisons are true. They are looked for at the one table of a name,
// where a comparison leaves one; or else among those that the index gives, where it serves for one of the comparisons,
// whichever place that has in the text; or else among all subtables of the supertable.
fn planned_subtables(
    alloc: Global,
    stable: u32,
    columns: usize,
    comparisons: &[Comparison],
    catalog: &Catalog,
    tags: &TagIndex,
) -> Result<Seq<u32>, NoMem>
    requires subtables { tags.now.subtables ≡ subtables_of catalog.now.catalog }
    requires there { IsNumbered stable (length catalog.now.catalog.stables) }
    ensures { IfOk result (λ tables. tables ≡ numbers_of
        (planned (Source.Stable stable) columns comparisons.now catalog.now.catalog)) }
{
    if let Some(named) = first_named(comparisons) {
        let planned = planned_named(alloc, stable, columns, comparisons, catalog, named)?;
        return Ok(planned);
    }
    if let Some(first) = first_indexed(columns, comparisons) {
        let planned = planned_indexed(alloc, stable, columns, comparisons, catalog, tags, first)?;
        return Ok(planned);
    }
    let all = catalog.subtables_of(stable);
    let planned = planned_among(alloc, stable, columns, comparisons, catalog, all)?;
    Ok(planned)
}

// One table.
fn one(alloc: Global, table: u32) -> Result<Seq<u32>, NoMem>
    ensures { IfOk result (λ tables. tables ≡ table ∷ []) }
{
    let mut tables = Seq::new(alloc);
    tables.add(table)?;
    Ok(tables)
}

// One table, or none.
fn at_most_one(alloc: Global, table: Option<u32>) -> Result<Seq<u32>, NoMem>
    ensures { IfOk result (λ tables. tables ≡ option_to_list table) }
{
    match table {
        Some(table) => {
            let tables = one(alloc, table)?;
            Ok(tables)
        }
        None => Ok(Seq::new(alloc)),
    }
}

// The numbers of the tables that a query reads, of a source whose tables have so many columns.
pub(crate) fn planned(
    alloc: Global,
    source: Source,
    columns: usize,
    comparisons: &[Comparison],
    catalog: &Catalog,
    tags: &TagIndex,
) -> Result<Seq<u32>, NoMem>
    requires subtables { tags.now.subtables ≡ subtables_of catalog.now.catalog }
    requires there { IsThere source catalog.now.catalog }
    ensures { IfOk result (λ tables. tables ≡ numbers_of (planned source columns comparisons.now catalog.now.catalog)) }
{
    match source {
        Source::Table(table) => {
            let tables = one(alloc, table)?;
            Ok(tables)
        }
        Source::Stable(stable) => {
            let tables = planned_subtables(alloc, stable, columns, comparisons, catalog, tags)?;
            Ok(tables)
        }
        Source::Other => Ok(Seq::new(alloc)),
    }
}

// Copies of the tags of some tables.
pub(crate) fn tags_of(
    alloc: Global,
    catalog: &Catalog,
    tables: &[u32],
) -> Result<Seq<Seq<Cell>>, NoMem>
    requires { AreThere catalog.now.catalog tables.now }
    ensures { IfOk result (λ all. all ≡ map (tags_at catalog.now.catalog) tables.now) }
{
    let mut all = Seq::new(alloc);
    for table in tables {
        let tags = catalog.tags_of(*table).copy()?;
        all.add(tags)?;
    }
    Ok(all)
}

// Copies of the names of some tables.
pub(crate) fn names_of(alloc: Global, catalog: &Catalog, tables: &[u32]) -> Result<Seq<Name>, NoMem>
    requires { AreThere catalog.now.catalog tables.now }
    ensures { IfOk result (λ all. all ≡ map (name_at catalog.now.catalog) tables.now) }
{
    let mut all = Seq::new(alloc);
    for table in tables {
        let name = catalog.name_of(*table).copy()?;
        all.add(name)?;
    }
    Ok(all)
}

// The cells that PARTITION BY items give for some tables.
pub(crate) fn parts_of(
    alloc: Global,
    schema: &Schema,
    parts: &[PartBy],
    catalog: &Catalog,
    tables: &[u32],
) -> Result<Seq<Seq<Cell>>, NoMem>
    requires { AreThere catalog.now.catalog tables.now }
    ensures { IfOk result (λ all. all ≡ map (part_at schema.now parts.now catalog.now.catalog) tables.now) }
{
    let mut all = Seq::new(alloc);
    for table in tables {
        let name = catalog.name_of(*table);
        let tags = catalog.tags_of(*table);
        let part = part_of(alloc, schema, parts, name, tags)?;
        all.add(part)?;
    }
    Ok(all)
}
