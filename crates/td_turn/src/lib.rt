//! [run] The turn: a value that threads hold one after another. Its list of entries is the history of all.
//!
//! A value says what it was opened on, its base, and which entries it stands for. A thread takes the value with a pass,
//! adds entries, and gives it back. Tickets are served in the order in which they were drawn.
//!
//! # The rule
//!
//! Three words and one slot are shared: the front, which counts the history's entries; the number of tickets that were
//! drawn; the ticket that is served; and the slot, where the value lies. Each pass knows what its holder has seen, the
//! versions that it notes, its parts, and its ticket. Six kinds of step change them, in any order between threads:
//!
//! - draw ticket: the number of tickets is raised by a compare and exchange, and where it wins the pass has that
//!   ticket;
//! - watch serving: where the ticket that is served is the pass's own, the slot is taken, and the value's list is seen;
//! - count front: the front is raised by the number of entries that were added, the list that they are in is seen, and
//!   their versions are noted;
//! - pass on: the slot is given back, and the next ticket is served;
//! - split: a second pass has seen the same and notes nothing;
//! - join: one pass keeps the longer of what both saw and the versions of both, and the other is spent. A look at the
//!   front then tells that the shorter begins the longer.
//!
//! Between any two of them this holds. The front is the length of the history. What a pass saw begins the history. The
//! tickets that passes have are the numbers from the one that is served up to the number drawn, each once. The slot is
//! at home, with a value of the base that was opened whose list is the history; or the pass whose ticket is served has
//! it, and has seen the history. Each version above the base's is noted by exactly one pass. All parts make 4294967296,
//! and a pass without a part has no ticket and empty lists.
//!
//! # What it promises
//!
//! - `take`: the value has the base that was opened (`base`), and its list begins with what the pass has seen (`list`).
//! - `give`: the pass has seen the value's whole list (`seen`) and notes its new versions (`versions`).
//! - `split`: both passes have seen the same, and the old one keeps its versions (`kept`, `new`).
//! - `join`: the pass has seen the longer (`longer`), which both begin (`begins`), and notes the versions of both
//!   (`versions`).
//! - `close`: the value's list begins with what the pass has seen (`seen`), and the pass notes each version once
//!   (`versions`).
//!
//! No call but `new` takes memory, and none but `take` waits. That `take` returns is promised by no clause.
//!
//! It stands on `atomic_table`, whose steps are proved against the rule, on the limits and on the lists.
#![tactic(auto)]

mod rule;
mod steps;
mod turn;
mod turned;

pub use turn::{Held, Pass, Turn, value};
pub use turned::Turned;
