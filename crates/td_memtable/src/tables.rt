//! The tables, the timestamps and the day ranges that a memtable has parts of.
ghost use Rattle.std.specs.Prelude.{◌≡◌, ◌-◌, ◌^◌, MatchOption};
ghost use Rattle.td_layer.specs.Keys.{InKeyOrder};
ghost use Rattle.td_memtree.specs.Within.{pairs_within};
ghost use Rattle.td_memtable.specs.Contents.{key_at};
ghost use Rattle.td_memtable.specs.Tables.{NoneFrom, FirstOf, earlier, IsFirstTable, first_time, meets_cut};

use crate::memtable::Memtable;
use td_layer::Key;
use td_memtree::Tree;

// The first table from a number on that has a pair.
fn first_from<T>(pairs: &Tree<T>, from: u32) -> Option<u32>
    ensures { FirstOf from pairs.now result }
{
    let mut rest = pairs.walk(Key { table: from, ts: 0 });
    match rest.next() {
        None => None,
        Some((key, _)) => Some(key.table),
    }
}

// The earlier of two tables, of which each may be missing.
fn earlier(one: Option<u32>, other: Option<u32>) -> Option<u32>
    ensures { result ≡ earlier one other }
{
    match (one, other) {
        (None, other) => other,
        (Some(one), None) => Some(one),
        (Some(one), Some(other)) => Some(one.min(other)),
    }
}

impl Memtable {
    /// The first table, by number from `from` on, that it has a put or a cut of. None comes exactly where it has no
    /// part of such a table. It takes the time of two look-ups.
    pub fn table_from(&self, from: u32) -> Option<u32>
        ensures { MatchOption result (NoneFrom from self.now.puts × NoneFrom from self.now.cuts)
            (IsFirstTable from self.now) }
    {
        let put = first_from(&self.puts, from);
        let cut = first_from(&self.cuts, from);
        earlier(put, cut)
    }

    /// The least timestamp, from one on, of the puts of a table, by number. None comes exactly where it has no such put. It
    /// takes the time of a look-up.
    pub fn first_put(&self, table: u32, from: u64) -> Option<u64>
        ensures first { result
            ≡ first_time (pairs_within (key_at table from) (key_at table (2 ^ 64 - 1)) self.now.puts) }
        ensures in_order { InKeyOrder (pairs_within (key_at table from) (key_at table (2 ^ 64 - 1)) self.now.puts) }
    {
        let first = Key { table, ts: from };
        let last = Key {
            table,
            ts: u64::MAX,
        };
        let mut rest = self.puts.range(first, last);
        match rest.next() {
            None => None,
            Some((key, _)) => Some(key.ts),
        }
    }

    /// Whether a cut, of whatever table, meets the timestamps from `lo` to `hi`, both among them. It takes the time of a walk
    /// over the cuts.
    pub fn meets_cut(&self, lo: u64, hi: u64) -> bool
        ensures { result ≡ meets_cut lo hi self.now.cuts }
    {
        for (key, end) in self.cuts.walk(Key { table: 0, ts: 0 }) {
            if key.ts <= hi && lo <= *end {
                return true;
            }
        }
        false
    }
}
