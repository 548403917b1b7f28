//! Groups that were read as puts.
ghost use Rattle.std.specs.Prelude.{◌≡◌, drop, map, IfOk};
ghost use Rattle.std.specs.Option.{option_copied};
ghost use Rattle.td_model.specs.declared.catalog.Column.{Column};
ghost use Rattle.td_verdict.specs.Writes.{place_of, first_place};
ghost use Rattle.td_bind.specs.Literals.{said_in, time_said, cell_said, put_said};

use std::alloc::Global;
use td_fields::{Said, place_of, time_from};
use td_layer::{Key, NoMem, Seq, Value};
use td_model::{Column, Put};

// The place of a table's first column.
pub(crate) fn first_place(columns: &[Column], places: &[Column]) -> Option<usize>
    ensures { result ≡ first_place columns.now places.now }
{
    match columns {
        [first, ..] => place_of(places, &first.name),
        [] => None,
    }
}

// What is said at a place of a group.
fn said_in(said: &[Said], place: Option<usize>) -> Option<&Said>
    ensures { option_copied result ≡ said_in said.now place }
{
    match place {
        Some(i) => said.get(i),
        None => None,
    }
}

// The timestamp that is said at a place of a group.
pub(crate) fn time_said(said: &[Said], place: Option<usize>) -> Option<i128>
    ensures { result ≡ time_said said.now place }
{
    match said_in(said, place) {
        Some(said) => said.number(),
        None => None,
    }
}

// The value that a group gives a column.
fn cell_said(said: &[Said], place: Option<usize>) -> Option<Value>
    ensures { result ≡ cell_said said.now place }
{
    match said_in(said, place) {
        Some(said) => Some(said.value()),
        None => None,
    }
}

// The places of columns among those of a group.
fn places_of(
    alloc: Global,
    places: &[Column],
    columns: &[Column],
) -> Result<Seq<Option<usize>>, NoMem>
    ensures { IfOk result (λ all. all ≡ map (λ (c : Column). place_of places.now c.name) columns.now) }
{
    let mut all = Seq::new(alloc);
    for column in columns {
        all.add(place_of(places, &column.name))?;
    }
    Ok(all)
}

// The cells of a group's put.
fn cells_of(
    alloc: Global,
    places: &[Option<usize>],
    said: &[Said],
) -> Result<Seq<Option<Value>>, NoMem>
    ensures { IfOk result (λ cells. cells ≡ map (cell_said said.now) places.now) }
{
    let mut cells = Seq::new(alloc);
    for place in places {
        cells.add(cell_said(said, *place))?;
    }
    Ok(cells)
}

// A group's put.
fn put_said(
    alloc: Global,
    table: u32,
    first: Option<usize>,
    places: &[Option<usize>],
    said: &[Said],
) -> Result<Put, NoMem>
    ensures { IfOk result (λ put. put ≡ put_said table first places.now said.now) }
{
    let cells = cells_of(alloc, places, said)?;
    let ts = time_from(time_said(said, first).unwrap_or(0));
    let key = Key { table, ts };
    Ok(Put { key, cells })
}

// The puts of groups.
fn puts_said(
    alloc: Global,
    table: u32,
    first: Option<usize>,
    places: &[Option<usize>],
    groups: &[Seq<Said>],
) -> Result<Seq<Put>, NoMem>
    ensures { IfOk result (λ puts. puts ≡ map (put_said table first places.now) groups.now) }
{
    let mut puts = Seq::new(alloc);
    for said in groups {
        let put = put_said(alloc, table, first, places, said.as_slice())?;
        puts.add(put)?;
    }
    Ok(puts)
}

// The columns behind a table's first.
fn behind_first(columns: &[Column]) -> &[Column]
    ensures { result.now ≡ drop 1 columns.now }
{
    match columns {
        [_, rest @ ..] => rest,
        [] => columns,
    }
}

// The puts of groups, which stand at the columns `places`, into a table.
pub(crate) fn puts_of(
    alloc: Global,
    table: u32,
    columns: &[Column],
    places: &[Column],
    groups: &[Seq<Said>],
) -> Result<Seq<Put>, NoMem>
    ensures { IfOk result (λ puts. puts ≡ map
        (put_said table (first_place columns.now places.now)
        (map (λ (c : Column). place_of places.now c.name) (drop 1 columns.now))) groups.now) }
{
    let all = places_of(alloc, places, behind_first(columns))?;
    let first = first_place(columns, places);
    let puts = puts_said(alloc, table, first, all.as_slice(), groups)?;
    Ok(puts)
}
