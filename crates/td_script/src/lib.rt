//! [text] Scripts: which bytes are a script, and which statement lines it has.
//!
//! [`script`] cuts bytes into lines, each of which is empty, a comment, a phase line, or a statement of one of 64
//! sessions. It promises the answer of the definition, `specs/Script.antt`: if the bytes are a script, exactly its
//! statement lines with their phases, sessions, ordinals and texts; otherwise the first invalid line. The functions of
//! `laws.rt` do nothing: their contracts are laws of that definition.
//!
//! It stands on `td_layer` alone, for its lists.
#![tactic(auto)]

mod forms;
mod laws;
mod lines;
mod numbering;
mod reading;

pub use laws::{apart, numbered, one_line, one_script};
pub use lines::{Line, ScriptFault};
pub use reading::script;
