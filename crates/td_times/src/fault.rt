//! Why a text is no timestamp.

/// Why a text is not read as a timestamp.
#[derive(Clone, Copy, Debug, PartialEq, Eq)]
pub enum TimeFault {
    /// The text is not of the form, or its day or time of day does not exist.
    BadTime,
    /// There is no memory. [`crate::timestamp`] takes none, so it never answers this.
    NoMemory,
}
