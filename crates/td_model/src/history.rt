//! Entries of the history, and verdicts.
use crate::catalog::{Column, Schema};
use crate::language::StreamDef;
use crate::report::Cause;
use td_layer::{Cell, Key, Name, Seq, Value};

/// Values for a row, one cell a column but the timestamp; a column without a value isn't named.
#[derive(Debug, Drop)]
pub struct Put {
    pub key: Key,
    pub cells: Seq<Option<Value>>,
}

/// What an entry of the history does.
#[derive(Debug, Drop)]
pub enum What {
    MakeStable {
        name: Name,
        schema: Schema,
    },
    MakeTable {
        name: Name,
        columns: Seq<Column>,
    },
    MakeSub {
        name: Name,
        stable: u32,
        tags: Seq<Cell>,
    },
    Put(Seq<Put>),
    Cut {
        table: u32,
        lo: u64,
        hi: u64,
    },
    MakeStream(StreamDef),
    DropStream(u32),
    Edge(u32),
    Step {
        stream: u32,
        upto: u64,
        moment: u64,
    },
    Halt,
}

/// An entry of the history: what it does, the session and ordinal of its statement, and its moment in milliseconds
/// since
/// 1970. An entry of no session has session 0 and ordinal 0.
#[derive(Debug, Drop)]
pub struct Entry {
    pub session: u32,
    pub ordinal: u32,
    pub moment: u64,
    pub what: What,
}

/// What a statement meets in a state: a write is accepted as an entry, with the count of its rows; a query passes;
/// either may be refused.
#[derive(Debug, Drop)]
pub enum Verdict {
    Accept(What, u32),
    Pass,
    Refuse(Cause),
}
