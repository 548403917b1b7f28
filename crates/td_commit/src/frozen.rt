//! Memtables that are to be written.
use td_cols::Kind;
use td_layer::Seq;
use td_memtable::Memtable;

/// The parts of the entries above version `from` up to `version`, to be written to files of these day ranges. `number`
/// tells it from others. The ranges rise. `kinds` has the kinds of the columns of each table but the timestamp, by its
/// number from 1.
#[derive(Drop)]
pub struct Frozen {
    pub number: u64,
    pub from: u64,
    pub version: u64,
    pub ranges: Seq<u32>,
    pub memtable: Memtable,
    pub kinds: Seq<Seq<Kind>>,
}
