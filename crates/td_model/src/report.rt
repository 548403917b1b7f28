//! Causes of refusal, replies, and what a run tells.
use td_layer::{Cell, Copied, Name, NoMem, Seq};

/// Of what there are too many.
#[derive(Clone, Copy, Debug, PartialEq, Eq)]
pub enum Many {
    Columns,
    Tags,
    Rows,
    Tables,
    Streams,
    Numbers,
    Cursors,
}

/// Why a statement was refused, in the one order of the causes: a statement gets the first that applies.
#[derive(Debug, Drop)]
pub enum Cause {
    /// The text is longer than 1048576 bytes.
    TooLong,
    /// The grammar fails first at this byte of the text, from 0.
    Syntax { at: u64 },
    /// A name is longer than 192 bytes.
    NameTooLong,
    /// A type stands at a column or a tag that doesn't take it.
    TypeNotBuilt,
    /// The statement has a part that isn't built.
    OptionNotBuilt,
    /// It is a write, and the history holds a halt at this version.
    Stopped { version: u64 },
    /// It is a write, and there is no version for it.
    TooManyVersions,
    /// It names no table, supertable or target.
    UnknownTable,
    /// USING names nothing.
    UnknownStable,
    /// It names no stream.
    UnknownStream,
    /// It names no open cursor of the session.
    UnknownCursor,
    /// A write names a target, or a query reads one in another way than as a whole.
    TargetOfStream,
    /// The query of a stream reads a target.
    SourceIsTarget,
    /// USING names a table or a target.
    NotAStable,
    /// An INSERT or a DELETE names a supertable.
    NotATable,
    /// CREATE STABLE has no tags.
    NeedsTags,
    /// A new name is taken, or stands twice.
    NameTaken,
    /// The first column isn't a timestamp, or isn't named.
    NeedsTime,
    /// A name is no column of its table.
    UnknownColumn,
    /// A group has another count than its columns or tags.
    Arity,
    /// A literal doesn't suit its column.
    TypeMismatch { column: Name },
    /// A value is outside the range of its column.
    OutOfRange { column: Name },
    /// A limit is passed.
    TooMany { what: Many, limit: u64 },
    /// The select list, the partitions or the order don't go together.
    BadSelect,
    /// The window's numbers or its column aren't right.
    BadWindow,
    /// LIMIT, OFFSET or FETCH is out of its range.
    BadLimit,
    /// A timestamp lies before the retention edge, a number of day ranges of 864000000 milliseconds.
    BeforeEdge { edge: u32 },
}

/// What became of a statement. A version is that of the entry; a prefix is the version at which a statement was judged.
#[derive(Debug, Drop)]
pub enum Reply {
    Accepted {
        version: u64,
    },
    AcceptedRows {
        version: u64,
        rows: u32,
    },
    AcceptedEdge {
        version: u64,
        edge: u32,
    },
    Answer {
        prefix: u64,
        header: Seq<Name>,
        rows: Seq<Seq<Cell>>,
    },
    Opened {
        prefix: u64,
    },
    Closed,
    Committed {
        version: u64,
    },
    Nothing,
    Stopped {
        version: u64,
    },
    Merged {
        count: u32,
    },
    Swept {
        count: u32,
    },
    Asked,
    Refused {
        prefix: u64,
        cause: Cause,
    },
    StoreFault,
    StoreFaultHalt {
        halt: u64,
    },
    Damaged {
        file: u64,
        at: u64,
    },
    NoMemory,
}

/// What kind of entry a line of the journal stands for.
#[derive(Debug, Drop)]
pub enum Mark {
    Plain,
    Step {
        stream: Name,
        upto: u64,
        moment: u64,
    },
    Halt,
}

/// An entry as the report lists it: its version, the session and ordinal of its statement, and its moment in
/// milliseconds since 1970.
#[derive(Debug, Drop)]
pub struct JournalLine {
    pub version: u64,
    pub session: u32,
    pub ordinal: u32,
    pub moment: u64,
    pub mark: Mark,
}

/// All that a run tells: the version of the state that it began in, the replies by session and ordinal, the live
/// streams with the version that each is brought up to, and the journal.
#[derive(Debug, Drop)]
pub struct Report {
    pub base: u64,
    pub replies: Seq<(u32, u32, Reply)>,
    pub streams: Seq<(Name, u64)>,
    pub journal: Seq<JournalLine>,
}

impl Copied for Cause {
    fn copy(&self) -> Result<Cause, NoMem> {
        match self {
            Cause::TypeMismatch { column } => {
                let column = column.copy()?;
                Ok(Cause::TypeMismatch { column })
            }
            Cause::OutOfRange { column } => {
                let column = column.copy()?;
                Ok(Cause::OutOfRange { column })
            }
            Cause::TooLong => Ok(Cause::TooLong),
            Cause::Syntax { at } => Ok(Cause::Syntax { at: *at }),
            Cause::NameTooLong => Ok(Cause::NameTooLong),
            Cause::TypeNotBuilt => Ok(Cause::TypeNotBuilt),
            Cause::OptionNotBuilt => Ok(Cause::OptionNotBuilt),
            Cause::Stopped { version } => Ok(Cause::Stopped { version: *version }),
            Cause::TooManyVersions => Ok(Cause::TooManyVersions),
            Cause::UnknownTable => Ok(Cause::UnknownTable),
            Cause::UnknownStable => Ok(Cause::UnknownStable),
            Cause::UnknownStream => Ok(Cause::UnknownStream),
            Cause::UnknownCursor => Ok(Cause::UnknownCursor),
            Cause::TargetOfStream => Ok(Cause::TargetOfStream),
            Cause::SourceIsTarget => Ok(Cause::SourceIsTarget),
            Cause::NotAStable => Ok(Cause::NotAStable),
            Cause::NotATable => Ok(Cause::NotATable),
            Cause::NeedsTags => Ok(Cause::NeedsTags),
            Cause::NameTaken => Ok(Cause::NameTaken),
            Cause::NeedsTime => Ok(Cause::NeedsTime),
            Cause::UnknownColumn => Ok(Cause::UnknownColumn),
            Cause::Arity => Ok(Cause::Arity),
            Cause::TooMany { what, limit } => Ok(Cause::TooMany {
                what: *what,
                limit: *limit,
            }),
            Cause::BadSelect => Ok(Cause::BadSelect),
            Cause::BadWindow => Ok(Cause::BadWindow),
            Cause::BadLimit => Ok(Cause::BadLimit),
            Cause::BeforeEdge { edge } => Ok(Cause::BeforeEdge { edge: *edge }),
        }
    }
}
