//! [binding] What can be printed: laws of the names and numbers of statements, catalogs and replies.
//!
//! Nothing runs here. A report's text tells the report where its names are words, its header items aren't empty and
//! have no comma, and its numbers fit. These laws say that what the rules give is so.
//!
//! - [`names_of_a_text_are_words`]: each name in the tree of a text is a word of letters, digits and `_`, and the cause
//!   of a text without a tree can be printed.
//! - [`catalogs_keep_words`]: a catalog whose names are words stays so, whatever a statement with words does.
//! - [`replies_are_printable`]: in a sound state with such a catalog, the reply to such a statement can be printed.
//! - [`states_stay_counted`]: the numbers of a state that replies show stay below 2^64, and no version adds more rows
//!   than an INSERT may.
//! - [`states_stay_printable`]: the empty state is sound, has no name that isn't a word, and its numbers are below
//!   2^64, and each accepted statement of a text leaves a state so.
//! - [`told_reports_are_printable`]: so a report that tells the run of such statements can be printed.
//! - [`texts_fit_heads`]: what a text makes has names and texts as the head of a store asks.
//! - [`catalogs_fit_heads`]: so has each catalog that statements of texts make of the empty one.
//!
//! It stands on `td_parse`, `td_clauses` and `td_grammar` for the grammar of statements, on `td_lex` for tokens, on
//! `td_told` and `td_verdict` for what a statement meets in a state, on `td_aggr` and `td_window` for the cells of
//! aggregates and windows, on `td_bind` for the soundness of histories, and on `td_model` for what can be printed.
#![tactic(auto)]

mod laws;

pub use laws::{
    catalogs_fit_heads, catalogs_keep_words, names_of_a_text_are_words, replies_are_printable,
    states_stay_counted, states_stay_printable, texts_fit_heads, told_reports_are_printable,
};
