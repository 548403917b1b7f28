//! INSERT.
ghost use Rattle.std.specs.Prelude.{◌≡◌, Bool, IfOk, length, false, is_none, not, ◌==◌, map};
ghost use Rattle.std.specs.List.{filter_map, list_any};
ghost use Rattle.std.specs.Option.{option_copied};
ghost use Rattle.td_verdict.specs.Names.{column_named, is_first, lacks_time};
ghost use Rattle.td_verdict.specs.Writes.{list_cause, groups_verdict, is_before, insert_verdict};
ghost use Rattle.td_bind.specs.Answers.{verdict_of};
ghost use Rattle.td_bind.specs.Literals.{time_said, rows_said, said_cause, HasKinds};

use crate::columns::{mismatch_of, outside_of};
use crate::found::{find_table, written_cause};
use crate::literals::{Fault, first_in_groups, said_groups};
use crate::puts::{first_place, puts_of, time_said};
use crate::seen::stands_twice;
use std::alloc::Global;
use td_catalog::Catalog;
use td_fields::{Said, column_named, is_first};
use td_layer::{Copied, Name, NoMem, Seq};
use td_limits::{DAY_RANGE, INSERT_ROWS};
use td_model::{Cause, Column, Lit, Many, What};

// Whether a list has the first column's name.
fn lists_first(columns: &[Column], names: &[Name]) -> bool
    ensures { result ≡ list_any (is_first columns.now) names.now }
{
    names.iter().any(|name| is_first(columns, name))
}

fn is_unknown(columns: &[Column], name: &Name) -> bool
    ensures { result ≡ is_none (column_named columns.now name.now) }
{
    column_named(columns, name).is_none()
}

// Whether a list has a name that is no column's.
fn lists_unknown(columns: &[Column], names: &[Name]) -> bool
    ensures { result ≡ list_any (λ name. is_none (column_named columns.now name)) names.now }
{
    names.iter().any(|name| is_unknown(columns, name))
}

// Why a list of columns is refused, if it is.
fn list_cause(
    alloc: Global,
    columns: &[Column],
    names: Option<&Seq<Name>>,
) -> Result<Option<Cause>, NoMem>
    ensures { IfOk result (λ cause. cause ≡ list_cause columns.now (option_copied names.entry)) }
{
    let Some(names) = names else {
        return Ok(None);
    };
    let names = names.as_slice();
    let twice = stands_twice(alloc, names)?;
    if twice {
        return Ok(Some(Cause::NameTaken));
    }
    if !lists_first(columns, names) {
        return Ok(Some(Cause::NeedsTime));
    }
    if lists_unknown(columns, names) {
        return Ok(Some(Cause::UnknownColumn));
    }
    Ok(None)
}

// Copies of the columns of a list.
fn chosen(alloc: Global, columns: &[Column], names: &[Name]) -> Result<Seq<Column>, NoMem>
    ensures { IfOk result (λ places. places ≡ filter_map (column_named columns.now) names.now) }
{
    let mut places = Seq::new(alloc);
    for name in names {
        if let Some(column) = column_named(columns, name) {
            let column = column.copy()?;
            places.add(column)?;
        }
    }
    Ok(places)
}

// Whether a timestamp lies before an edge.
fn is_before(edge: u32, ts: Option<i128>) -> bool
    ensures { result ≡ is_before edge ts }
{
    match ts {
        Some(ts) => ts < i128::from(edge) * i128::from(DAY_RANGE),
        None => false,
    }
}

fn is_group_before(edge: u32, said: &[Said], first: Option<usize>) -> bool
    ensures { result ≡ is_before edge (time_said said.now first) }
{
    is_before(edge, time_said(said, first))
}

// Whether the timestamp of a group lies before an edge.
fn any_before(edge: u32, groups: &[Seq<Said>], first: Option<usize>) -> bool
    ensures { result ≡ list_any (λ said. is_before edge (time_said said first)) groups.now }
{
    groups
        .iter()
        .any(|said| is_group_before(edge, said.as_slice(), first))
}

// Whether a group has another count of literals.
fn has_other_length(groups: &[Seq<Lit>], count: usize) -> bool
    ensures { result ≡ list_any (λ group. not (length group == count)) groups.now }
{
    groups.iter().any(|group| group.len() != count)
}

// Why the number or the timestamps of groups are refused, if they are.
fn rows_cause(
    columns: &[Column],
    places: &[Column],
    groups: &[Seq<Said>],
    edge: u32,
) -> Option<Cause>
    ensures { result ≡ rows_said columns.now places.now groups.now edge }
{
    if groups.len() > INSERT_ROWS {
        return Some(Cause::TooMany {
            what: Many::Rows,
            limit: INSERT_ROWS as u64,
        });
    }
    let first = first_place(columns, places);
    if any_before(edge, groups, first) {
        return Some(Cause::BeforeEdge { edge });
    }
    None
}

// Why what groups say at the columns `places` is refused, if it is.
fn said_cause(
    columns: &[Column],
    places: &[Column],
    groups: &[Seq<Said>],
    edge: u32,
) -> Result<Option<Cause>, NoMem>
    ensures { IfOk result (λ cause. cause ≡ said_cause columns.now places.now groups.now edge) }
{
    if let Some(cause) = mismatch_of(first_in_groups(Fault::Mismatch, columns, places, groups))? {
        return Ok(Some(cause));
    }
    if let Some(cause) = outside_of(first_in_groups(Fault::Outside, columns, places, groups))? {
        return Ok(Some(cause));
    }
    Ok(rows_cause(columns, places, groups, edge))
}

// What the groups of an INSERT into a table meet, where its list of columns isn't refused. Each literal is read once.
fn bind_groups(
    alloc: Global,
    table: u32,
    columns: &[Column],
    places: &[Column],
    groups: &[Seq<Lit>],
    edge: u32,
    moment: u64,
) -> Result<Result<(What, u32), Cause>, NoMem>
    requires time { lacks_time columns.now ≡ false }
    requires kinds { HasKinds columns.now places.now }
    ensures { IfOk result (λ answer. verdict_of answer
        ≡ groups_verdict table columns.now places.now groups.now edge moment) }
{
    if has_other_length(groups, places.len()) {
        return Ok(Err(Cause::Arity));
    }
    let said = said_groups(alloc, moment, places, groups)?;
    let said = said.as_slice();
    let cause = said_cause(columns, places, said, edge)?;
    if let Some(cause) = cause {
        return Ok(Err(cause));
    }
    let puts = puts_of(alloc, table, columns, places, said)?;
    Ok(Ok((What::Put(puts), groups.len() as u32)))
}

// What INSERT meets in a catalog, at a retention edge and a moment in milliseconds since 1970. `names` are the columns
// that it lists.
pub(crate) fn bind_insert(
    alloc: Global,
    table: &Name,
    names: Option<&Seq<Name>>,
    groups: &Seq<Seq<Lit>>,
    catalog: &Catalog,
    edge: u32,
    moment: u64,
) -> Result<Result<(What, u32), Cause>, NoMem>
    ensures { IfOk result (λ answer. verdict_of answer
        ≡ insert_verdict table.now (option_copied names.entry) groups.now edge moment catalog.now.catalog) }
{
    if let Some(cause) = written_cause(table, catalog) {
        return Ok(Err(cause));
    }
    let Some((number, schema)) = find_table(catalog, table) else {
        return Ok(Err(Cause::UnknownTable));
    };
    let columns = schema.columns.as_slice();
    let cause = list_cause(alloc, columns, names)?;
    if let Some(cause) = cause {
        return Ok(Err(cause));
    }
    let groups = groups.as_slice();
    match names {
        None => {
            let answer = bind_groups(alloc, number, columns, columns, groups, edge, moment)?;
            Ok(answer)
        }
        Some(names) => {
            let places = chosen(alloc, columns, names.as_slice())?;
            let answer = bind_groups(
                alloc,
                number,
                columns,
                places.as_slice(),
                groups,
                edge,
                moment,
            )?;
            Ok(answer)
        }
    }
}
