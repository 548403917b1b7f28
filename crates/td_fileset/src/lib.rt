//! [store] Layers over one another, of which the newer go over the older, and the files that are layers.
//!
//! A layer has cuts and partials by key. The row of a key is what the layers make of it from the oldest to the newest:
//! a cut leaves no row, and a partial is laid over the row that is there; a cut of a layer stands under its own
//! partials. [`Merging`] takes scans of layers, each a [`LayerScan`], from the oldest to the newest, and gives the rows
//! that they make, by key. It reads the scans as rows are asked for, and keeps one partial of each. [`Layers`] is the
//! snapshot over memtables and the files of day ranges: it merges the scans of one day range after the other, and reads
//! only files whose day range meets the timestamps that are asked for. [`Pins`] counts the open readers of each file,
//! and [`FileSet`] names the files of a day range. [`SetReaders`] are the open readers of those.
//!
//! It is promised that the rows are just those that the layers compose to, where all scans tell theirs, and that a
//! fault loses none: the next call goes on. Each row takes at least one step, and each partial that is read is one. The
//! rows of a snapshot are those at the keys at or above its edge; a file counts in its day range alone. A file is free
//! just where no pin of it is left, and pins take no memory once it was reserved.
//!
//! It stands on `td_layer` for parts, scans and steps, and on `td_memtable`, `td_sttfile` and `td_datafile`, whose
//! scans are layer scans.
#![tactic(auto)]

mod any_scan;
mod file_set;
mod laws;
mod layers;
mod laying;
mod merging;
mod pieces;
mod pins;
mod scan;
mod set_readers;
mod source;
mod spans;

pub use file_set::FileSet;
pub use laws::{rows_of_layers, rows_of_some_keys};
pub use layers::Layers;
pub use merging::Merging;
pub use pins::Pins;
pub use scan::LayerScan;
pub use set_readers::SetReaders;
