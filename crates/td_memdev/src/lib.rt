//! [run] Small devices in memory: a source, a sink, a clock, a gate that holds nobody, and a place with its store.
//!
//! Each tells what it holds: the bytes that a source has left, those that a sink took, the readings that a clock has
//! left, the image of a store. A source, a sink, a store with its readers and writers, and a place take a list of the
//! calls that fail, and say exactly which do; no count rises by more than the calls that failed. A sink takes its whole
//! room when it is made, and a write that finds none left fails too. A store takes the memory that finishing a file,
//! opening a gate and syncing a log need when the file is begun and the log is written. A reader has a copy of its
//! file's bytes.
//!
//! The crate stands on `td_outside` for the traits, on `td_layer` for lists, and on `td_limits` for the last moment.
#![tactic(auto)]

mod calls;
mod clock;
mod files;
mod gate;
mod logs;
mod place;
mod reader;
mod sink;
mod source;
mod store;
mod table;

pub use clock::Ticks;
pub use gate::FreeGate;
pub use place::MemPlace;
pub use reader::{MemReader, MemWriter};
pub use sink::MemSink;
pub use source::MemSource;
pub use store::MemStore;
