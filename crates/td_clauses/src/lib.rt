//! [text] Clauses of queries: names, literals, items, conditions, windows.
//!
//! Each production of a clause is a grammar, given as data (`specs/Productions`, one production a line), and each
//! function reads one production: it gives what `td_grammar`'s reader gives for it, which is exactly the grammar's
//! tree and what follows it, or the first token that no text of it continues with. What the crates above read by
//! these functions is whole queries, lists of names and of literals, and the bounds of a range.
//!
//! The grammar of queries as the language's description writes it, each condition and item whole, is stated beside
//! (`specs/Written`), and both derive the same trees (`query_as_it_is_written`).
//!
//! It stands on `td_grammar`, which has the reading of tokens by grammars and the functions that read one token, and on
//! `td_model`, whose trees these are.
#![tactic(auto)]

mod conds;
mod drafts;
mod laws;
mod lists;
mod literals;
mod queries;

pub use laws::query_as_it_is_written;
pub use literals::{bound, literal_list, name_list, starts_either};
pub use queries::query;
