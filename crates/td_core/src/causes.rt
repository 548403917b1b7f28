//! Why a core was not opened.

/// A file of a store: its head, a log by number, or a finished file by number.
#[derive(Clone, Copy)]
pub enum FileId {
    Head,
    Log(u64),
    File(u64),
}

/// Why a core was not opened: the store failed; a file of it breaks its form first at a place, in bytes from 0; or
/// there was no memory.
#[derive(Clone, Copy)]
pub enum OpenCause {
    StoreFault,
    NotThisStore { file: FileId, at: u64 },
    NoMemory,
}

/// A store and a clock that come back, and why no core was made of them.
pub struct OpenRefused<S, C> {
    pub store: S,
    pub clock: C,
    pub cause: OpenCause,
}
