//! [run] The bytes of a report.
//!
//! [`report`] writes what a run tells, line by line: the version it began at, a line for each reply, a line for each
//! live stream, and the journal. It promises exactly the text that `report_text` of `td_model` gives: every reply,
//! cause and cell, and every line of the journal with its mark. [`a_text_tells_its_report`] promises that the text
//! loses nothing: two reports with the same text are the same report, where their names are words, and their header
//! items aren't empty and have no comma and no byte below 32.
//!
//! It stands on `td_model` for reports, on `td_layer` for lists of bytes, and on `td_lex` for the decimal text of
//! numbers.
#![tactic(auto)]

mod causes;
mod cells;
mod journal;
mod laws;
mod replies;
mod text;

pub use laws::a_text_tells_its_report;
pub use text::report;
