//! CREATE STABLE, and CREATE TABLE of a plain table.
ghost use Rattle.std.specs.Prelude.{◌≡◌, [], IfOk};
ghost use Rattle.std.specs.Option.{option_copied};
ghost use Rattle.td_verdict.specs.Writes.{count_cause, size_cause, definition_cause, make_stable_verdict, make_table_verdict};
ghost use Rattle.td_bind.specs.Answers.{verdict_of};

use crate::columns::{column_kind_cause, have_one_name, tag_kind_cause};
use crate::names::{is_full, is_taken};
use std::alloc::Global;
use td_catalog::Catalog;
use td_fields::lacks_time;
use td_layer::{Copied, Name, NoMem, Seq};
use td_limits::{COLUMNS, TABLES, TAGS};
use td_model::{Cause, Column, Many, Schema, What};

// Why there is no place for a definition, if there is none.
fn count_cause(columns: &[Column], tags: &[Column], catalog: &Catalog) -> Option<Cause>
    ensures { result ≡ count_cause columns.now tags.now catalog.now.catalog }
{
    if is_full(catalog) {
        return Some(Cause::TooMany {
            what: Many::Tables,
            limit: TABLES as u64,
        });
    }
    if columns.len() > COLUMNS {
        return Some(Cause::TooMany {
            what: Many::Columns,
            limit: COLUMNS as u64,
        });
    }
    if tags.len() > TAGS {
        return Some(Cause::TooMany {
            what: Many::Tags,
            limit: TAGS as u64,
        });
    }
    None
}

// Why the kinds or the numbers of the columns and tags of a definition are refused, if they are.
fn size_cause(
    columns: &[Column],
    tags: &[Column],
    catalog: &Catalog,
) -> Result<Option<Cause>, NoMem>
    ensures { IfOk result (λ cause. cause ≡ size_cause columns.now tags.now catalog.now.catalog) }
{
    if let Some(cause) = column_kind_cause(columns)? {
        return Ok(Some(cause));
    }
    if let Some(cause) = tag_kind_cause(tags)? {
        return Ok(Some(cause));
    }
    Ok(count_cause(columns, tags, catalog))
}

// Why a definition is refused, if it is.
fn definition_cause(
    alloc: Global,
    name: &Name,
    columns: &[Column],
    tags: &[Column],
    catalog: &Catalog,
) -> Result<Option<Cause>, NoMem>
    ensures { IfOk result (λ cause. cause ≡ definition_cause name.now columns.now tags.now catalog.now.catalog) }
{
    if is_taken(name, catalog) {
        return Ok(Some(Cause::NameTaken));
    }
    let twice = have_one_name(alloc, columns, tags)?;
    if twice {
        return Ok(Some(Cause::NameTaken));
    }
    if lacks_time(columns) {
        return Ok(Some(Cause::NeedsTime));
    }
    let cause = size_cause(columns, tags, catalog)?;
    Ok(cause)
}

// What CREATE STABLE meets in a catalog.
pub(crate) fn bind_make_stable(
    alloc: Global,
    name: &Name,
    columns: &Seq<Column>,
    tags: Option<&Seq<Column>>,
    catalog: &Catalog,
) -> Result<Result<(What, u32), Cause>, NoMem>
    ensures { IfOk result (λ answer. verdict_of answer
        ≡ make_stable_verdict name.now columns.now (option_copied tags.entry) catalog.now.catalog) }
{
    let Some(tags) = tags else {
        return Ok(Err(Cause::NeedsTags));
    };
    let cause = definition_cause(alloc, name, columns.as_slice(), tags.as_slice(), catalog)?;
    if let Some(cause) = cause {
        return Ok(Err(cause));
    }
    let name = name.copy()?;
    let columns = columns.copy()?;
    let tags = tags.copy()?;
    let schema = Schema { columns, tags };
    Ok(Ok((What::MakeStable { name, schema }, 0)))
}

// What CREATE TABLE of a plain table meets in a catalog.
pub(crate) fn bind_make_table(
    alloc: Global,
    name: &Name,
    columns: &Seq<Column>,
    catalog: &Catalog,
) -> Result<Result<(What, u32), Cause>, NoMem>
    ensures { IfOk result (λ answer. verdict_of answer ≡ make_table_verdict name.now columns.now catalog.now.catalog) }
{
    let cause = definition_cause(alloc, name, columns.as_slice(), &[], catalog)?;
    if let Some(cause) = cause {
        return Ok(Err(cause));
    }
    let name = name.copy()?;
    let columns = columns.copy()?;
    Ok(Ok((What::MakeTable { name, columns }, 0)))
}
