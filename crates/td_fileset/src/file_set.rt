//! File sets.
use td_layer::Seq;

/// The files of one day range.
#[derive(Debug, Drop)]
pub struct FileSet {
    pub range: u32,
    /// The data file, where there is one.
    pub main: Option<u64>,
    /// The version of the set's last merge since the opening, or that of the head that was opened. Files that were
    /// opened have that version too.
    pub merged: u64,
    /// The stt files, each with the version whose commit added it, the newest last.
    pub stt: Seq<(u64, u64)>,
}
