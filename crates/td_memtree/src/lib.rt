//! [base] A persistent ordered tree: items by key, shared without copying.
//!
//! [`Tree`] is seen as the list of its pairs in the order of their keys. The pairs stand in leaves, to which a put adds
//! up to 16, and forks lead to them by key. Leaves and forks stand behind counted pointers, so that `share` gives the
//! same tree at once, and a change gives a new tree of which only the forks down to the key and its leaf are new:
//! whoever holds a share still sees the pairs as they were. `set` changes its own tree, and changes what no other tree
//! has where it is. Each fork weighs its two sides by their leaves, and neither has more than three times as many as
//! the other; so a tree is at most 75 forks deep, and a change or a look-up touches a number of them that grows with
//! the logarithm of the number of pairs.
//!
//! It promises that a put leaves the item at its key and every other pair, that a removal leaves every other pair, that
//! `walk` gives the pairs from a key on in the order of their keys and goes on from where it is, and that a call that
//! finds no memory leaves all trees as they were, the one that it was to change too.
//!
//! It stands on `td_layer` for keys, and on `arrayvec` for the pending branches of a walk.
#![tactic(auto)]

mod bounded;
mod branch;
mod build;
mod leaf;
mod put;
mod range;
mod send;
mod take;
mod tree;
mod turn;
mod walk;

pub use bounded::Range;
pub use send::{crossing, tree_crosses};
pub use tree::Tree;
pub use walk::Walk;
