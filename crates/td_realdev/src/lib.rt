//! [run] The real devices: standard input and output, a directory with its store, the system's clock, and a gate that
//! does nothing.
//!
//! Each counts its faults: an error raises the count, and a call fails only where it rose. None tells anything of what
//! it holds, but for how many bytes an input gave and whether a place's store is out. A directory holds `head`, `w` and
//! a log's number, `f` and a file's number; the head and a new log are written aside, synced, renamed, and the
//! directory is synced; one process at a time can have entered it. The clock gives at most the end of the year 9999.
//! These few lines call the system, and are trusted to do so.
//!
//! A call takes its memory before it changes the directory. Where a file was renamed or taken away, and the sync of the
//! directory then fails, `head_swap`, `log_create`, `log_drop` and `remove` answer that they failed, and the change is
//! there all the same: what a read gives shows the call as done, and a crash may leave what was there before or after
//! it. `Store` grants this to `head_swap` alone. What it says of the other three, a directory doesn't keep there.
//!
//! Where `finish` fails, the unfinished file is taken away, and a crash may bring it back. A file that can't be taken
//! away isn't listed by `names` as long as the directory is entered, but is once it is entered again.
//!
//! The crate stands on `td_outside` for the traits, on `td_layer` for lists, and on `td_limits` for the last moment.
#![tactic(auto)]

mod clock;
mod directory;
mod gate;
mod log;
mod names;
mod place;
mod store;
mod streams;

pub use clock::SystemClock;
pub use gate::OpenGate;
pub use place::DirPlace;
pub use store::{DirStore, FileReader, FileWriter};
pub use streams::{StandardInput, StandardOutput};
