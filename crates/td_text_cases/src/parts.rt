//! Parts of reports, as the cases write them.
use std::alloc::Global;
use td_cases::CaseFault;
use td_layer::{Cell, Name, Seq};
use td_model::{Cause, JournalLine, Many, Mark, Reply};

/// A number of a case, and 0 where there is none.
pub(crate) fn number(text: Option<&str>) -> Result<u64, CaseFault> {
    match text {
        None => Ok(0),
        Some(text) => text.parse::<u64>().map_err(|_| CaseFault::Unread),
    }
}

/// A number below 2^32 of a case, and 0 where there is none.
pub(crate) fn small(text: Option<&str>) -> Result<u32, CaseFault> {
    match text {
        None => Ok(0),
        Some(text) => text.parse::<u32>().map_err(|_| CaseFault::Unread),
    }
}

/// A name of a case, which is empty where there is none.
pub(crate) fn name(alloc: Global, text: Option<&str>) -> Result<Name, CaseFault> {
    let name = Seq::of_bytes(alloc, text.unwrap_or("").as_bytes())?;
    Ok(name)
}

/// The reply of a word and its numbers, and none where the word names no such reply.
pub(crate) fn reply_of(word: &str, first: u64, second: u32) -> Option<Reply> {
    let reply = match word {
        "accepted" => Reply::Accepted { version: first },
        "rows" => Reply::AcceptedRows {
            version: first,
            rows: second,
        },
        "edge" => Reply::AcceptedEdge {
            version: first,
            edge: second,
        },
        "opened" => Reply::Opened { prefix: first },
        "closed" => Reply::Closed,
        "committed" => Reply::Committed { version: first },
        "nothing" => Reply::Nothing,
        "stopped" => Reply::Stopped { version: first },
        "merged" => Reply::Merged { count: second },
        "swept" => Reply::Swept { count: second },
        "asked" => Reply::Asked,
        "fault" => Reply::StoreFault,
        "halt" => Reply::StoreFaultHalt { halt: first },
        "damaged" => Reply::Damaged {
            file: first,
            at: u64::from(second),
        },
        "no_memory" => Reply::NoMemory,
        _ => return None,
    };
    Some(reply)
}

/// The cause of a word alone, and none where the word names none of these.
pub(crate) fn plain_cause(word: &str) -> Option<Cause> {
    let cause = match word {
        "TooLong" => Cause::TooLong,
        "NameTooLong" => Cause::NameTooLong,
        "TypeNotBuilt" => Cause::TypeNotBuilt,
        "OptionNotBuilt" => Cause::OptionNotBuilt,
        "versions" => Cause::TooManyVersions,
        "UnknownTable" => Cause::UnknownTable,
        "UnknownStable" => Cause::UnknownStable,
        "UnknownStream" => Cause::UnknownStream,
        "UnknownCursor" => Cause::UnknownCursor,
        "TargetOfStream" => Cause::TargetOfStream,
        "SourceIsTarget" => Cause::SourceIsTarget,
        "NotAStable" => Cause::NotAStable,
        "NotATable" => Cause::NotATable,
        "NeedsTags" => Cause::NeedsTags,
        "NameTaken" => Cause::NameTaken,
        "NeedsTime" => Cause::NeedsTime,
        "UnknownColumn" => Cause::UnknownColumn,
        "Arity" => Cause::Arity,
        "BadSelect" => Cause::BadSelect,
        "BadWindow" => Cause::BadWindow,
        "BadLimit" => Cause::BadLimit,
        _ => return None,
    };
    Some(cause)
}

fn many_of(word: &str) -> Option<Many> {
    let many = match word {
        "columns" => Many::Columns,
        "tags" => Many::Tags,
        "rows" => Many::Rows,
        "tables" => Many::Tables,
        "streams" => Many::Streams,
        "numbers" => Many::Numbers,
        "cursors" => Many::Cursors,
        _ => return None,
    };
    Some(many)
}

/// The cause of a word and what stands behind it.
pub(crate) fn cause_of(alloc: Global, word: &str, of: Option<&str>) -> Result<Cause, CaseFault> {
    if let Some(cause) = plain_cause(word) {
        return Ok(cause);
    }
    if let Some(what) = many_of(word) {
        return Ok(Cause::TooMany {
            what,
            limit: number(of)?,
        });
    }
    match word {
        "Syntax" => Ok(Cause::Syntax { at: number(of)? }),
        "Stopped" => Ok(Cause::Stopped {
            version: number(of)?,
        }),
        "BeforeEdge" => Ok(Cause::BeforeEdge { edge: small(of)? }),
        "TypeMismatch" => Ok(Cause::TypeMismatch {
            column: name(alloc, of)?,
        }),
        "OutOfRange" => Ok(Cause::OutOfRange {
            column: name(alloc, of)?,
        }),
        _ => Err(CaseFault::Unread),
    }
}

/// A cell: `NULL`, `true`, `false`, a number, a quotient `SUM/COUNT`, or a text behind a quote that nothing closes.
pub(crate) fn cell_of(alloc: Global, text: &str) -> Result<Cell, CaseFault> {
    if let Some(content) = text.strip_prefix('\'') {
        return Ok(Cell::Str(name(alloc, Some(content))?));
    }
    if let Some((sum, count)) = text.split_once('/') {
        return Ok(Cell::Frac {
            sum: whole(sum)?,
            count: number(Some(count))?,
        });
    }
    match text {
        "NULL" => Ok(Cell::Null),
        "true" => Ok(Cell::Truth(true)),
        "false" => Ok(Cell::Truth(false)),
        _ => Ok(Cell::Num(whole(text)?)),
    }
}

fn whole(text: &str) -> Result<i128, CaseFault> {
    text.parse::<i128>().map_err(|_| CaseFault::Unread)
}

/// A line of the journal: its mark's word, then version, session, ordinal and moment; then of a step the stream and
/// its two numbers.
pub(crate) fn journal_line_of(alloc: Global, text: &str) -> Result<JournalLine, CaseFault> {
    let mut words = text.split(' ');
    let mark = words.next().unwrap_or("");
    let version = number(words.next())?;
    let session = small(words.next())?;
    let ordinal = small(words.next())?;
    let moment = number(words.next())?;
    let mark = match mark {
        "plain" => Mark::Plain,
        "halt" => Mark::Halt,
        "step" => Mark::Step {
            stream: name(alloc, words.next())?,
            upto: number(words.next())?,
            moment: number(words.next())?,
        },
        _ => return Err(CaseFault::Unread),
    };
    Ok(JournalLine {
        version,
        session,
        ordinal,
        moment,
        mark,
    })
}
