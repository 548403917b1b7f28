//! Values of columns, keys of rows, and cells of answers.
ghost use Rattle.std.specs.Prelude.{◌≡◌, IfOk};

use crate::seq::{Copied, Name, Seq};
use std::alloc::{AllocError, AllocFailed, Global};

/// Out of memory.
#[derive(Clone, Copy, Debug, PartialEq, Eq)]
pub struct NoMem;

impl From<AllocError> for NoMem {
    fn from(_: AllocError) -> Self {
        NoMem
    }
}

impl<T: Drop> From<AllocFailed<T>> for NoMem {
    fn from(_: AllocFailed<T>) -> Self {
        NoMem
    }
}

/// What a row holds in a column.
#[derive(Clone, Copy, Debug, PartialEq, Eq)]
pub enum Value {
    Null,
    Num(i128),
}

/// A row's table, by number, and its timestamp in milliseconds since 1970. Keys are ordered by table, then by
/// timestamp.
#[derive(Clone, Copy, Debug, PartialEq, Eq, PartialOrd, Ord)]
pub struct Key {
    pub table: u32,
    pub ts: u64,
}

/// The moment, in milliseconds since 1970, at which a row was first put.
#[derive(Clone, Copy, Debug, PartialEq, Eq)]
pub struct Birth {
    pub born: u64,
}

/// A row: its birth, and a value for each column but the timestamp.
#[derive(Debug, Drop)]
pub struct Row {
    pub birth: Birth,
    pub values: Seq<Value>,
}

/// The aggregates of the statement language, by the names of TDengine's SQL manual.
#[derive(Clone, Copy, Debug, PartialEq, Eq)]
pub enum Func {
    Count,
    Sum,
    Min,
    Max,
    Avg,
    First,
    Last,
    Spread,
}

/// What stands at one place of an answer, or in a tag.
#[derive(Debug, Drop)]
pub enum Cell {
    Null,
    Truth(bool),
    Num(i128),
    Frac { sum: i128, count: u64 },
    Str(Name),
}

impl Copied for u8 {
    fn copy(&self) -> Result<u8, NoMem> {
        Ok(*self)
    }

    fn copies(alloc: Global, items: &[u8]) -> Result<Vec<u8>, NoMem> {
        let copies = Vec::from_slice(alloc, items)?;
        Ok(copies)
    }
}

impl Copied for Value {
    fn copy(&self) -> Result<Value, NoMem> {
        Ok(*self)
    }

    fn copies(alloc: Global, items: &[Value]) -> Result<Vec<Value>, NoMem> {
        let copies = Vec::from_slice(alloc, items)?;
        Ok(copies)
    }
}

impl Copied for Row {
    fn copy(&self) -> Result<Row, NoMem> {
        let values = self.values.copy()?;
        Ok(Row {
            birth: self.birth,
            values,
        })
    }
}

impl Copied for Cell {
    fn copy(&self) -> Result<Cell, NoMem> {
        match self {
            Cell::Null => Ok(Cell::Null),
            Cell::Truth(b) => Ok(Cell::Truth(*b)),
            Cell::Num(n) => Ok(Cell::Num(*n)),
            Cell::Frac { sum, count } => Ok(Cell::Frac {
                sum: *sum,
                count: *count,
            }),
            Cell::Str(text) => {
                let text = text.copy()?;
                Ok(Cell::Str(text))
            }
        }
    }
}
