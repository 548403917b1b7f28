//! Windows of an answer, and what a step changes of a stream's result.
use td_layer::{Cell, Seq};

/// A window: the key of its partition, and its start in milliseconds since 1970.
#[derive(Debug, Drop)]
pub struct WinKey {
    pub part: Seq<Cell>,
    pub start: i64,
}

/// A window's row in a stream's result: its end in milliseconds since 1970, and the cells of the select list.
#[derive(Debug, Drop)]
pub struct WinRow {
    pub key: WinKey,
    pub end: i64,
    pub cells: Seq<Cell>,
}

/// What a step removes from a stream's result, and what it adds after that.
#[derive(Debug, Drop)]
pub struct Delta {
    pub removed: Seq<WinKey>,
    pub added: Seq<WinRow>,
}
