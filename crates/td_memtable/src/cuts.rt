//! The cuts of a table, joined.
ghost use Rattle.std.specs.Prelude.{◌≡◌, IfOk};
ghost use Rattle.td_memtable.specs.Contents.{ranges_of};
ghost use Rattle.td_memtable.specs.Joined.{AreJoined, lies_in_any, IsJoinOf};

use crate::memtable::Memtable;
use td_layer::{Key, NoMem, Seq};

impl Memtable {
    /// The ranges of timestamps that the cuts of a table, by number, take in, each from its first to its last, both
    /// among them. They rise, and are joined where they overlap or adjoin. It takes the time of a look-up, and then
    /// that of the table's cuts.
    pub fn cuts(&self, table: u32) -> Result<Seq<(u64, u64)>, NoMem>
        ensures { IfOk result (λ ranges. IsJoinOf ranges (ranges_of table self.now.cuts)) }
    {
        let first = Key { table, ts: 0 };
        let last = Key {
            table,
            ts: u64::MAX,
        };
        let mut rest = self.cuts.range(first, last);
        let mut joined = Seq::new(self.alloc);
        let Some((from, end)) = rest.next() else {
            return Ok(joined);
        };
        let mut lo = from.ts;
        let mut hi = *end;
        while let Some((from, end)) = rest.next() {
            if from.ts.saturating_sub(hi) > 1 {
                joined.add((lo, hi))?;
                lo = from.ts;
                hi = *end;
            } else {
                hi = hi.max(*end);
            }
        }
        joined.add((lo, hi))?;
        Ok(joined)
    }
}

/// Whether a timestamp lies in one of some ranges that are joined. It is found by search.
pub(crate) fn lies_in_any(ranges: &[(u64, u64)], ts: u64) -> bool
    requires { AreJoined ranges.now }
    ensures { result ≡ lies_in_any ts ranges.now }
{
    let at = ranges.partition_point(|range| range.1 < ts);
    at < ranges.len() && ranges[at].0 <= ts
}
