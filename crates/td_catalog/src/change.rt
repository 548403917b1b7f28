//! Changes of the catalog.
ghost use Rattle.std.specs.Prelude.{◌≡◌, IfOk};
ghost use Rattle.td_catalog.specs.Kept.{change_of};
ghost use Rattle.td_catalog.specs.Parts.{change_by, HasKeys};

use std::alloc::Global;
use std::marker::Model;
use td_layer::{Cell, Copied, Name, NoMem, Seq};
use td_model::{Column, StableDef, StreamDef, What};

// What a change adds, in the memory that it needs, or takes away. The keys are copies of the names.
#[derive(Drop)]
pub(crate) enum Part {
    Nothing,
    Stable {
        key: Vec<u8>,
        def: StableDef,
    },
    Plain {
        key: Vec<u8>,
        name: Name,
        columns: Seq<Column>,
    },
    Sub {
        key: Vec<u8>,
        name: Name,
        stable: u32,
        tags: Seq<Cell>,
    },
    Stream {
        key: Vec<u8>,
        target: Vec<u8>,
        def: StreamDef,
    },
    Dropped(u32),
}

/// What an entry changes in the catalog, with the memory that it needs. Contracts see the part of the entry that a
/// catalog keeps, or none. A change that isn't applied is dropped.
#[derive(Drop)]
pub struct Change {
    pub(crate) part: Part,
}

impl Model for Change {
    ghost use Rattle.std.specs.Prelude.{Option};
    ghost use Rattle.td_model.specs.declared.history.What.{What};

    ghost Value = { Option What };

    ghost use Rattle.td_catalog.specs.Parts.{change_by, HasKeys};

    ghost view = { λ a. change_by a.part };

    ghost invariant = { λ a. HasKeys a.part };
}

// A copy of a name's bytes.
fn key_of(alloc: Global, name: &Name) -> Result<Vec<u8>, NoMem>
    ensures { IfOk result (λ key. key.items ≡ name.now) }
{
    let key = Vec::from_slice(alloc, name.as_slice())?;
    Ok(key)
}

// The part of an entry that a catalog keeps, in the memory that it needs.
pub(crate) fn part_of(alloc: Global, what: &What) -> Result<Part, NoMem>
    ensures part { IfOk result (λ part. change_by part ≡ change_of what.now) }
    ensures keys { IfOk result HasKeys }
{
    match what {
        What::MakeStable { name, schema } => {
            let key = key_of(alloc, name)?;
            let name = name.copy()?;
            let schema = schema.copy()?;
            Ok(Part::Stable {
                key,
                def: StableDef { name, schema },
            })
        }
        What::MakeTable { name, columns } => {
            let key = key_of(alloc, name)?;
            let name = name.copy()?;
            let columns = columns.copy()?;
            Ok(Part::Plain { key, name, columns })
        }
        What::MakeSub { name, stable, tags } => {
            let key = key_of(alloc, name)?;
            let name = name.copy()?;
            let tags = tags.copy()?;
            Ok(Part::Sub {
                key,
                name,
                stable: *stable,
                tags,
            })
        }
        What::MakeStream(def) => {
            let key = key_of(alloc, &def.name)?;
            let target = key_of(alloc, &def.target)?;
            let def = def.copy()?;
            Ok(Part::Stream { key, target, def })
        }
        What::DropStream(number) => Ok(Part::Dropped(*number)),
        _ => Ok(Part::Nothing),
    }
}
