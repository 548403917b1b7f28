//! What a script is made of.
use td_layer::Name;

/// A statement line.
#[derive(Debug, Drop)]
pub struct Line {
    /// The phase that the line stands in, from 1.
    pub phase: u32,
    /// The session that the statement is of, 1 to 64.
    pub session: u32,
    /// The line's number among the statement lines of its session, from 1 over all phases.
    pub ordinal: u32,
    /// The statement: the bytes after the colon and the blanks that follow it, to the line's end without its carriage
    /// return.
    pub text: Name,
}

/// Why bytes were not read as a script.
#[derive(Clone, Copy, Debug, PartialEq, Eq)]
pub enum ScriptFault {
    /// This line, from 1, is the first of no form.
    BadScript(u64),
    /// Want of memory.
    NoMemory,
}
