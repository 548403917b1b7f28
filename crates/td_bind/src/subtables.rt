//! CREATE TABLE of a subtable.
ghost use Rattle.std.specs.Prelude.{◌≡◌, IfOk};
ghost use Rattle.td_verdict.specs.Writes.{make_sub_verdict};
ghost use Rattle.td_bind.specs.Answers.{verdict_of};
ghost use Rattle.td_bind.specs.Literals.{cells_said, tags_said};

use crate::columns::{mismatch_of, outside_of};
use crate::found::find_stable;
use crate::literals::{Fault, first_column, said_group};
use crate::names::{is_full, is_taken};
use std::alloc::Global;
use td_catalog::Catalog;
use td_fields::{Said, cell_said};
use td_layer::{Cell, Copied, Name, NoMem, Seq};
use td_limits::TABLES;
use td_model::{Cause, Column, Lit, Many, What};

// Why what is said of a subtable's tags is refused, or that there is no place for it.
fn tags_cause(tags: &[Column], said: &[Said], catalog: &Catalog) -> Result<Option<Cause>, NoMem>
    ensures { IfOk result (λ cause. cause ≡ tags_said tags.now said.now catalog.now.catalog) }
{
    if let Some(cause) = mismatch_of(first_column(Fault::Mismatch, &[], tags, said))? {
        return Ok(Some(cause));
    }
    if let Some(cause) = outside_of(first_column(Fault::Outside, &[], tags, said))? {
        return Ok(Some(cause));
    }
    if is_full(catalog) {
        return Ok(Some(Cause::TooMany {
            what: Many::Tables,
            limit: TABLES as u64,
        }));
    }
    Ok(None)
}

// The cells of a subtable's tags, from what their literals say.
fn tag_cells(
    alloc: Global,
    tags: &[Column],
    said: &[Said],
    lits: &[Lit],
) -> Result<Seq<Cell>, NoMem>
    ensures { IfOk result (λ cells. cells ≡ cells_said tags.now said.now lits.now) }
{
    let mut cells = Seq::new(alloc);
    for (i, tag) in tags.iter().enumerate() {
        let (Some(said), Some(lit)) = (said.get(i), lits.get(i)) else {
            return Ok(cells);
        };
        let cell = cell_said(tag.kind, *said, lit)?;
        cells.add(cell)?;
    }
    Ok(cells)
}

// What CREATE TABLE of a subtable meets in a catalog, at a moment in milliseconds since 1970.
pub(crate) fn bind_make_sub(
    alloc: Global,
    name: &Name,
    stable: &Name,
    tags: &Seq<Lit>,
    catalog: &Catalog,
    moment: u64,
) -> Result<Result<(What, u32), Cause>, NoMem>
    ensures { IfOk result (λ answer. verdict_of answer
        ≡ make_sub_verdict name.now stable.now tags.now moment catalog.now.catalog) }
{
    let Some((number, schema)) = find_stable(catalog, stable) else {
        return Ok(Err(if is_taken(stable, catalog) {
            Cause::NotAStable
        } else {
            Cause::UnknownStable
        }));
    };
    if is_taken(name, catalog) {
        return Ok(Err(Cause::NameTaken));
    }
    let (columns, lits) = (schema.tags.as_slice(), tags.as_slice());
    if lits.len() != columns.len() {
        return Ok(Err(Cause::Arity));
    }
    let said = said_group(alloc, moment, columns, lits)?;
    let cause = tags_cause(columns, said.as_slice(), catalog)?;
    if let Some(cause) = cause {
        return Ok(Err(cause));
    }
    let tags = tag_cells(alloc, columns, said.as_slice(), lits)?;
    let name = name.copy()?;
    Ok(Ok((
        What::MakeSub {
            name,
            stable: number,
            tags,
        },
        0,
    )))
}
