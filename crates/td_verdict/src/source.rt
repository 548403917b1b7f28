//! What the name of a query's source names.

/// What the name of a query's source names: a table, or else a supertable, by its number. Of any other name, as that of
/// a stream's target, there are no tables.
#[derive(Clone, Copy, Debug, PartialEq, Eq)]
pub enum Source {
    Table(u32),
    Stable(u32),
    Other,
}
