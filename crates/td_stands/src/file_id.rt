//! Files of a store.

/// A file of a store: its head, a log by number, or a finished file by number.
#[derive(Clone, Copy)]
pub enum FileId {
    Head,
    Log(u64),
    File(u64),
}
