//! Lists of columns: their names, and the first at which something is wrong.
ghost use Rattle.std.specs.Prelude.{◌≡◌, not, IfOk};
ghost use Rattle.std.specs.List.{find};
ghost use Rattle.std.specs.Option.{option_copied};
ghost use Rattle.td_model.specs.declared.catalog.Column.{Column};
ghost use Rattle.td_verdict.specs.Values.{is_column_kind, is_tag_kind};
ghost use Rattle.td_verdict.specs.Writes.{have_one_name, kind_cause, mismatch_of, outside_of};

use crate::seen::stands_twice;
use std::alloc::Global;
use td_fields::{add_names, is_column_kind, is_tag_kind};
use td_layer::{Copied, NoMem, Seq};
use td_model::{Cause, Column};

// Whether two columns or tags have one name.
pub(crate) fn have_one_name(
    alloc: Global,
    columns: &[Column],
    tags: &[Column],
) -> Result<bool, NoMem>
    ensures { IfOk result (λ twice. twice ≡ have_one_name columns.now tags.now) }
{
    let mut names = Seq::new(alloc);
    add_names(&mut names, columns)?;
    add_names(&mut names, tags)?;
    let twice = stands_twice(alloc, names.as_slice())?;
    Ok(twice)
}

// The first column of a kind that no column can have.
fn first_bad_column(columns: &[Column]) -> Option<&Column>
    ensures { option_copied result ≡ find (λ c. not (is_column_kind c.kind)) columns.now }
{
    columns.iter().find(|column| !is_column_kind(column.kind))
}

// The first tag of a kind that no tag can have.
fn first_bad_tag(tags: &[Column]) -> Option<&Column>
    ensures { option_copied result ≡ find (λ c. not (is_tag_kind c.kind)) tags.now }
{
    tags.iter().find(|tag| !is_tag_kind(tag.kind))
}

// Out of range at a column, if there is one.
pub(crate) fn outside_of(found: Option<&Column>) -> Result<Option<Cause>, NoMem>
    ensures { IfOk result (λ cause. cause ≡ outside_of (option_copied found.entry)) }
{
    match found {
        Some(column) => {
            let column = column.name.copy()?;
            Ok(Some(Cause::OutOfRange { column }))
        }
        None => Ok(None),
    }
}

// A literal that doesn't suit a column, if there is one.
pub(crate) fn mismatch_of(found: Option<&Column>) -> Result<Option<Cause>, NoMem>
    ensures { IfOk result (λ cause. cause ≡ mismatch_of (option_copied found.entry)) }
{
    match found {
        Some(column) => {
            let column = column.name.copy()?;
            Ok(Some(Cause::TypeMismatch { column }))
        }
        None => Ok(None),
    }
}

// Out of range at the first column of a kind that no column can have.
pub(crate) fn column_kind_cause(columns: &[Column]) -> Result<Option<Cause>, NoMem>
    ensures { IfOk result (λ cause. cause ≡ kind_cause is_column_kind columns.now) }
{
    let cause = outside_of(first_bad_column(columns))?;
    Ok(cause)
}

// Out of range at the first tag of a kind that no tag can have.
pub(crate) fn tag_kind_cause(tags: &[Column]) -> Result<Option<Cause>, NoMem>
    ensures { IfOk result (λ cause. cause ≡ kind_cause is_tag_kind tags.now) }
{
    let cause = outside_of(first_bad_tag(tags))?;
    Ok(cause)
}
