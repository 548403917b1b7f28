//! The cells that PARTITION BY items give for a table.
ghost use Rattle.std.specs.Prelude.{◌≡◌, IfOk};
ghost use Rattle.td_verdict.specs.Parts.{tag_cell, cell_of_part, part_of};

use crate::names::place_of;
use std::alloc::Global;
use td_layer::{Cell, Copied, Name, NoMem, Seq};
use td_model::{PartBy, Schema};

// The tag of a name.
fn tag_cell(schema: &Schema, tags: &Seq<Cell>, name: &Name) -> Result<Cell, NoMem>
    ensures { IfOk result (λ cell. cell ≡ tag_cell schema.now.tags tags.now name.now) }
{
    let place = place_of(schema.tags.as_slice(), name);
    match place.and_then(|place| tags.get(place)) {
        Some(cell) => Ok(cell.copy()?),
        None => Ok(Cell::Null),
    }
}

// What a PARTITION BY item gives for a table.
fn cell_of_part(
    schema: &Schema,
    part: &PartBy,
    name: &Name,
    tags: &Seq<Cell>,
) -> Result<Cell, NoMem>
    ensures { IfOk result (λ cell. cell ≡ cell_of_part schema.now name.now tags.now part.now) }
{
    match part {
        PartBy::TbName => Ok(Cell::Str(name.copy()?)),
        PartBy::Tag(tag) => Ok(tag_cell(schema, tags, tag)?),
    }
}

/// The cells that PARTITION BY items give for a table of a name and tags, in the order of the items: its name for
/// TBNAME, and else its tag. `Err(NoMem)` is want of memory.
pub fn part_of(
    alloc: Global,
    schema: &Schema,
    parts: &[PartBy],
    name: &Name,
    tags: &Seq<Cell>,
) -> Result<Seq<Cell>, NoMem>
    ensures { IfOk result (λ cells. cells ≡ part_of schema.now parts.now name.now tags.now) }
{
    let mut cells = Seq::new(alloc);
    for part in parts {
        let cell = cell_of_part(schema, part, name, tags)?;
        cells.add(cell)?;
    }
    Ok(cells)
}
