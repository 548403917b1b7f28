//! Why a case has no answer.
use std::alloc::{AllocError, AllocFailed};
use std::io;
use td_layer::NoMem;

/// Why a case has no answer.
#[derive(Clone, Copy, Debug)]
pub enum CaseFault {
    /// There was no memory.
    NoMemory,
    /// The case isn't written as its kind asks.
    Unread,
    /// The input or the output failed.
    Stream,
}

impl From<NoMem> for CaseFault {
    fn from(_: NoMem) -> Self {
        CaseFault::NoMemory
    }
}

impl From<AllocError> for CaseFault {
    fn from(_: AllocError) -> Self {
        CaseFault::NoMemory
    }
}

impl<T: Drop> From<AllocFailed<T>> for CaseFault {
    fn from(_: AllocFailed<T>) -> Self {
        CaseFault::NoMemory
    }
}

impl From<io::Error> for CaseFault {
    fn from(_: io::Error) -> Self {
        CaseFault::Stream
    }
}
