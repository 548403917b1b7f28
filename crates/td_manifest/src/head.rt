//! What a head says.
use td_layer::{Cell, Name, Seq};
use td_model::{Column, Schema, WinRow};

/// The head of a store at a committed version: the catalog, the file sets and the streams. The moment is that of the
/// version's entry, in milliseconds since 1970. Rows before the day range `edge` are gone. Supertables, tables and
/// streams stand in the order of their creation, file sets in that of their day ranges.
#[derive(Debug, Drop)]
pub struct Head {
    pub version: u64,
    pub moment: u64,
    pub first_log: u64,
    pub edge: u32,
    pub stables: Seq<HeadStable>,
    pub tables: Seq<HeadTable>,
    pub sets: Seq<HeadSet>,
    pub next_stream: u32,
    pub streams: Seq<HeadStream>,
}

/// A supertable. `latest` is the greatest timestamp that was ever put into one of its tables.
#[derive(Debug, Drop)]
pub struct HeadStable {
    pub name: Name,
    pub schema: Schema,
    pub latest: Option<u64>,
}

/// A table: a plain one with its columns, or a subtable with the number of its supertable, from 1, and its tags.
#[derive(Debug, Drop)]
pub enum HeadTable {
    Plain {
        name: Name,
        columns: Seq<Column>,
        latest: Option<u64>,
    },
    Sub {
        name: Name,
        stable: u32,
        tags: Seq<Cell>,
    },
}

/// A file set: a day range, its data file and its stt files by number, the oldest first.
#[derive(Debug, Drop)]
pub struct HeadSet {
    pub range: u32,
    pub main: Option<u64>,
    pub stt: Seq<u64>,
}

/// A stream: its number, the version that made it, the text of its CREATE STREAM, the version up to which its result
/// goes, the moment of its last step, and its result.
#[derive(Debug, Drop)]
pub struct HeadStream {
    pub number: u32,
    pub made: u64,
    pub text: Name,
    pub upto: u64,
    pub moment: u64,
    pub rows: Seq<WinRow>,
}
