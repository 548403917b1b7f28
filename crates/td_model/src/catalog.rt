//! Columns, tables, supertables and streams, as a catalog keeps them.
use crate::language::StreamDef;
use td_cols::Kind;
use td_layer::{Cell, Copied, Name, NoMem, Seq};

/// A column or a tag.
#[derive(Debug, Drop)]
pub struct Column {
    pub name: Name,
    pub kind: Kind,
}

/// The columns of a table, the timestamp first, and the tags of a supertable.
#[derive(Debug, Drop)]
pub struct Schema {
    pub columns: Seq<Column>,
    pub tags: Seq<Column>,
}

/// A supertable. Supertables are numbered from 1 by their creation.
#[derive(Debug, Drop)]
pub struct StableDef {
    pub name: Name,
    pub schema: Schema,
}

/// A table. Tables are numbered from 1 by their creation. A subtable has the number of its supertable, whose columns
/// are its own, and its tags; a plain table has its columns.
#[derive(Debug, Drop)]
pub struct TableDef {
    pub name: Name,
    pub parent: Option<u32>,
    pub columns: Seq<Column>,
    pub tags: Seq<Cell>,
}

/// A live stream. Streams are numbered from 1 by their creation, and a number never comes again.
#[derive(Debug, Drop)]
pub struct StreamEntry {
    pub number: u32,
    pub def: StreamDef,
}

impl Copied for Column {
    fn copy(&self) -> Result<Column, NoMem> {
        let name = self.name.copy()?;
        Ok(Column {
            name,
            kind: self.kind,
        })
    }
}

impl Copied for Schema {
    fn copy(&self) -> Result<Schema, NoMem> {
        let columns = self.columns.copy()?;
        let tags = self.tags.copy()?;
        Ok(Schema { columns, tags })
    }
}
