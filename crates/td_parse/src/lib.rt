//! [text] Statements: which texts are one, and with which trees.
//!
//! `statement` gives the tree of a text, or why it has none. The grammar is stated on whole texts, as a relation
//! between tokens and trees (`specs/Productions`, one production a line); which texts are statements, where a text
//! fails first, and which cause a text gets that parses and has a name too long, a type or an option that is not
//! built, is stated above it (`specs/Statements`). The crate promises that each text is answered exactly so, that a
//! text has one answer alone, that a text with the tokens of one that parses has that one's answer (so the case of
//! words and the blanks between tokens change none), and that a `;` at the end of a statement changes nothing.
//!
//! The productions are those by which a text is read with one token of lookahead. The grammar as the language's
//! description writes it, each statement whole, is stated too (`specs/Written`), and both derive the same trees
//! (`as_it_is_written`).
//!
//! `script`, which reads the lines of a script, is `td_script`'s, and is given on from here.
//!
//! It stands on `td_clauses`, which reads queries and lists of names and literals, on `td_grammar`, which has the
//! reading of tokens by grammars, on `td_lex`, whose tokens these are, and on `td_model`, whose trees these are.
#![tactic(auto)]

mod drafts;
mod laws;
mod statements;
mod streams;
mod tables;
mod text;
mod writes;

pub use laws::{as_it_is_written, final_semicolon, one_answer, one_tree, same_tokens};
pub use td_script::{Line, ScriptFault, script};
pub use text::statement;
