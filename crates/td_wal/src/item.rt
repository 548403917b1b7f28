//! What a log keeps.
use td_layer::Name;
use td_model::Delta;

/// An item of a log: a version, its moment in milliseconds since 1970, the session and ordinal of its statement (0 and
/// 0 for an entry of no session), and what was done.
#[derive(Debug, Drop)]
pub struct LogItem {
    pub version: u64,
    pub moment: u64,
    pub session: u32,
    pub ordinal: u32,
    pub body: LogBody,
}

/// What an item keeps: the text of the statement, or a stream's step up to a version, at a moment, with what it changed
/// of the stream's result.
#[derive(Debug, Drop)]
pub enum LogBody {
    Text(Name),
    Step {
        stream: u32,
        upto: u64,
        moment: u64,
        delta: Delta,
    },
}
