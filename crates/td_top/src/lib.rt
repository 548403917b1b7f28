//! [run] The top call: reads a script, plays it on the store of a directory, and writes the report.
//!
//! [`vnode`] takes the program's words and [`play`] the command of that name. At `Done` the input was read to its end
//! and is a script, and the bytes written are the text of a report which tells the script's run in the order of its
//! lines, from the state on for which the store stood: one history of entries, each the acceptance of a statement in
//! the state before it, and each reply what a state of that history gives. The store left stands for what the entries
//! make of that state. Each other status has its cause, and over devices that tell what they hold this determines the
//! status. [`program`] is all of the program but the making of its devices: its exit code is that of a status of which
//! all holds that `vnode` says, and the status' line stands on standard error.
//!
//! Over a store that tells its image the text of a report tells the report: of two runs whose texts are the same the
//! reports are ([`texts_tell_reports`]).
//!
//! `status` has the statuses with their exit numbers and lines, `stream` reads a whole source and writes a whole text,
//! `turns` takes one line's turn on a core, `lines` plays the lines of a script, `top` is the top call, `process` what
//! stands around it, and `laws` has the laws of reports. The crate stands on `td_words`, `td_script` and `td_parse`,
//! which read, on `td_core`, which has the store and the state, on `td_told` for the definitions, on `td_report` for
//! the text of a report, on `td_printed`, `td_wal` and `td_codec` for the laws, on `td_outside` for the devices, and on
//! `itoa` for the number in a line.
#![tactic(auto)]

mod laws;
mod lines;
mod process;
mod status;
mod stream;
mod top;
mod turns;

pub use laws::{played_reports_are_printable, texts_tell_reports};
pub use lines::play_lines;
pub use process::program;
pub use status::Status;
pub use top::{play, vnode};
