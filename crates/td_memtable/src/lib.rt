//! [store] The memtable: the parts of the newest entries, by key, in memory.
//!
//! [`Memtable`] takes puts and cuts, and stands for the part of each key: whether it was cut, and the composition of
//! its puts since. It counts the puts and cuts that it took, at most 65536. `share` gives a reader the same memtable at
//! once; what is put afterwards copies only the nodes that it touches. `scan` gives the puts of a table in a range by
//! key, and says of each key whether it lies in one of the table's cuts. `cuts` gives the ranges of timestamps of a
//! table's cuts, joined. `table_from` gives the next table that has a put or a cut.
//!
//! It promises that a put is laid over that of its key and changes no other, that a cut forgets the puts of its range
//! and no others, that a cut whose first timestamp is beyond its last is counted alone, and that a call that finds no
//! memory leaves the memtable as it was.
//!
//! It stands on `td_memtree` for the trees that hold puts and cuts, on `td_layer` for parts and scans, on `td_model`
//! for the put of an entry, and on `td_limits` for the count.
#![tactic(auto)]

mod cuts;
mod laws;
mod memtable;
mod scan;
mod tables;

pub use laws::one_join;
pub use memtable::Memtable;
pub use scan::MemScan;
