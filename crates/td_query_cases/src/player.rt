//! Tables and rows that queries are asked over.
use crate::stored::{Said, Stored};
use std::alloc::Global;
use td_cases::CaseFault;
use td_layer::{Cell, Key, Name, Seq};
use td_model::{Column, Kind};

/// A table: its number, its name and its tags.
#[derive(Drop)]
pub(crate) struct Told {
    pub(crate) number: u32,
    pub(crate) name: Name,
    pub(crate) tags: Seq<Cell>,
}

/// The columns and tags of the tables, the tables, and their rows.
#[derive(Drop)]
pub(crate) struct Player {
    pub(crate) columns: Seq<Column>,
    pub(crate) tags: Seq<Column>,
    pub(crate) tables: Seq<Told>,
}

/// A number that a word says.
pub(crate) fn number(word: &str) -> Result<u64, CaseFault> {
    match word.parse::<u64>() {
        Ok(n) => Ok(n),
        Err(_) => Err(CaseFault::Unread),
    }
}

fn table_number(word: &str) -> Result<u32, CaseFault> {
    match word.parse::<u32>() {
        Ok(n) => Ok(n),
        Err(_) => Err(CaseFault::Unread),
    }
}

// The column of a word, among columns of which so many came before it.
fn column_of(alloc: Global, before: usize, word: &str) -> Result<Column, CaseFault> {
    let (name, kind) = match word.strip_suffix("?") {
        Some(name) => (name, Kind::Bool),
        None if before == 0 => (word, Kind::Time),
        None => (word, Kind::I64),
    };
    let name = Seq::of_bytes(alloc, name.as_bytes())?;
    Ok(Column { name, kind })
}

fn columns_of(alloc: Global, text: &str) -> Result<Seq<Column>, CaseFault> {
    let mut columns = Seq::new(alloc);
    for word in text.split(' ') {
        let column = column_of(alloc, columns.len(), word)?;
        columns.add(column)?;
    }
    Ok(columns)
}

fn tags_of(alloc: Global, text: &str) -> Result<Seq<Column>, CaseFault> {
    let mut tags = Seq::new(alloc);
    for word in text.split(' ') {
        let name = Seq::of_bytes(alloc, word.as_bytes())?;
        let kind = Kind::Text(64);
        tags.add(Column { name, kind })?;
    }
    Ok(tags)
}

fn table_of(alloc: Global, text: &str) -> Result<Told, CaseFault> {
    let (first, rest) = text.split_once(' ').unwrap_or((text, ""));
    let (name, tags) = rest.split_once(' ').unwrap_or((rest, ""));
    let number = table_number(first)?;
    let name = Seq::of_bytes(alloc, name.as_bytes())?;
    let mut cells = Seq::new(alloc);
    if !tags.is_empty() {
        for word in tags.split(' ') {
            let tag = Seq::of_bytes(alloc, word.as_bytes())?;
            cells.add(Cell::Str(tag))?;
        }
    }
    Ok(Told {
        number,
        name,
        tags: cells,
    })
}

// NULL, a number of 64 bits with a sign, or else one without.
fn said_of(word: &str) -> Result<Said, CaseFault> {
    if word == "-" {
        return Ok(Said::Null);
    }
    match word.parse::<i64>() {
        Ok(n) => Ok(Said::Signed(n)),
        Err(_) => {
            let n = number(word)?;
            Ok(Said::Unsigned(n))
        }
    }
}

/// Adds the row of a line.
pub(crate) fn put_row(alloc: Global, text: &str, stored: &mut Stored) -> Result<(), CaseFault> {
    let (table, rest) = text.split_once(' ').unwrap_or((text, ""));
    let (ts, words) = rest.split_once(' ').unwrap_or((rest, ""));
    let table = table_number(table)?;
    let ts = number(ts)?;
    let mut values = Vec::new(alloc);
    for word in words.split(' ') {
        values.push(said_of(word)?)?;
    }
    stored.put(Key { table, ts }, values.as_slice())?;
    Ok(())
}

impl Player {
    /// No tables.
    pub(crate) fn new(alloc: Global) -> Player {
        Player {
            columns: Seq::new(alloc),
            tags: Seq::new(alloc),
            tables: Seq::new(alloc),
        }
    }

    /// Names the columns.
    pub(crate) fn set_columns(&mut self, alloc: Global, text: &str) -> Result<(), CaseFault> {
        let columns = columns_of(alloc, text)?;
        self.columns = columns;
        Ok(())
    }

    /// Names the tags.
    pub(crate) fn set_tags(&mut self, alloc: Global, text: &str) -> Result<(), CaseFault> {
        let tags = tags_of(alloc, text)?;
        self.tags = tags;
        Ok(())
    }

    /// Adds a table.
    pub(crate) fn add_table(&mut self, alloc: Global, text: &str) -> Result<(), CaseFault> {
        let table = table_of(alloc, text)?;
        self.tables.add(table)?;
        Ok(())
    }
}
