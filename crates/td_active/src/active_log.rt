//! The log that is written.

/// The log that is written: its number, the version of its first item, the place of its closed gate in bytes, and
/// whether it was made.
#[derive(Clone, Copy)]
pub struct ActiveLog {
    pub number: u64,
    pub first: u64,
    pub gate: u64,
    pub is_made: bool,
}
