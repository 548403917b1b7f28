//! The kinds of the columns of tables.
ghost use Rattle.std.specs.Prelude.{◌≡◌, drop, IfOk};
ghost use Rattle.std.specs.List.Sorted.{IsStrictlySortedBy};
ghost use Rattle.std.specs.Ordering.{nat_cmp};
ghost use Rattle.td_state.specs.Kinds.{kinds_of, table_kinds, all_kinds, with_kinds};

use std::alloc::Global;
use std::collections::BTreeMap;
use td_catalog::Catalog;
use td_layer::{NoMem, Seq};
use td_model::{Column, Kind};

// The columns behind a table's first.
fn behind_first(columns: &[Column]) -> &[Column]
    ensures { result.now ≡ drop 1 columns.now }
{
    match columns {
        [_, rest @ ..] => rest,
        [] => columns,
    }
}

// The kinds of columns.
fn kinds_of(alloc: Global, columns: &[Column]) -> Result<Seq<Kind>, NoMem>
    ensures { IfOk result (λ kinds. kinds ≡ kinds_of columns.now) }
{
    let mut kinds = Seq::new(alloc);
    for column in columns {
        kinds.add(column.kind)?;
    }
    Ok(kinds)
}

// The kinds of a table's columns behind the timestamp, or none where there is no such table.
fn table_kinds(alloc: Global, catalog: &Catalog, table: u32) -> Result<Seq<Kind>, NoMem>
    ensures { IfOk result (λ kinds. kinds ≡ table_kinds catalog.now.catalog table) }
{
    let number = table.max(1);
    if catalog.tables() < number {
        return Ok(Seq::new(alloc));
    }
    let schema = catalog.schema_of(number);
    let kinds = kinds_of(alloc, behind_first(schema.columns.as_slice()))?;
    Ok(kinds)
}

// The kinds of the columns of each table, by number.
pub(crate) fn all_kinds(alloc: Global, catalog: &Catalog) -> Result<Seq<Seq<Kind>>, NoMem>
    ensures { IfOk result (λ kinds. kinds ≡ all_kinds catalog.now.catalog) }
{
    let mut kinds = Seq::new(alloc);
    for place in 0..catalog.tables() {
        let own = table_kinds(alloc, catalog, place + 1)?;
        kinds.add(own)?;
    }
    Ok(kinds)
}

// The kinds of the columns of some tables, whose numbers rise, by number.
pub(crate) fn kinds_by_table(
    alloc: Global,
    catalog: &Catalog,
    tables: &[u32],
) -> Result<BTreeMap<u32, Seq<Kind>>, NoMem>
    requires { IsStrictlySortedBy nat_cmp tables.now }
    ensures { IfOk result (λ kinds. kinds.entries ≡ with_kinds catalog.now.catalog tables.now) }
{
    let mut kinds = BTreeMap::new(alloc);
    for table in tables {
        let own = table_kinds(alloc, catalog, *table)?;
        kinds.insert(*table, own)?;
    }
    Ok(kinds)
}
