//! The plan of a query: what it reads, found in a catalog.
use crate::catalog::Schema;
use crate::language::Query;
use td_layer::{Cell, Name, Seq};

/// A query with what it reads. `tables`, `parts`, `tags` and `names` go together, one entry a table: its number, the
/// cells of the PARTITION BY items, its tags, and its name. `schema` is that of all of them. `lo` and `hi` are the
/// ends, both inclusive, of the timestamps that the conditions on the first column leave, in milliseconds since 1970.
/// `target` is the number of the stream whose target is read.
#[derive(Debug, Drop)]
pub struct Plan {
    pub query: Query,
    pub tables: Seq<u32>,
    pub parts: Seq<Seq<Cell>>,
    pub tags: Seq<Seq<Cell>>,
    pub names: Seq<Name>,
    pub schema: Schema,
    pub lo: u64,
    pub hi: u64,
    pub target: Option<u32>,
}
