//! Scans of a memtable.
ghost use Rattle.std.specs.Prelude.{◌≡◌, false, true, [], Some, OnOk, OnErr};
ghost use Rattle.td_layer.specs.Keys.{InKeyOrder};
ghost use Rattle.td_memtree.specs.Within.{pairs_within};
ghost use Rattle.td_memtable.specs.Contents.{key_at, table_cuts};

use crate::cuts::lies_in_any;
use crate::memtable::Memtable;
use std::marker::Model;
use std::sync::ledger::Ledger;
use td_layer::{Copied, Key, NoMem, Partial, RowScan, ScanFault, Seq, Steps};
use td_memtree::Range;

/// A scan of a memtable: the puts of a table in a range of timestamps, by key, with the table's cuts. Contracts see
/// what is left of it. The first call of `next` joins the cuts, and `cut_at` then finds one by search.
#[derive(Drop)]
pub struct MemScan<'a> {
    table: u32,
    ahead: Option<(Key, &'a Partial)>,
    rest: Range<'a, Partial>,
    memtable: &'a Memtable,
    // The ranges of the table's cuts, joined, once it has begun.
    joined: Option<Seq<(u64, u64)>>,
}

impl<'a> Model for MemScan<'a> {
    ghost use Rattle.std.specs.Prelude.{is_some, IfSome};
    ghost use Rattle.td_memtable.specs.Contents.{ranges_of, table_cuts};
    ghost use Rattle.td_memtable.specs.Joined.{IsJoinOf};
    ghost use Rattle.td_memtable.specs.Scanned.{Scanned, IsScan, puts_left};

    ghost Value = { Scanned };

    ghost view = { λ s. record {
      left = puts_left s.ahead s.rest;
      cuts = table_cuts s.table s.memtable.now.cuts;
      begun = is_some s.joined;
    } };

    ghost invariant = { λ s. IsScan (puts_left s.ahead s.rest)
        × IfSome s.joined (λ ranges. IsJoinOf ranges (ranges_of s.table s.memtable.now.cuts)) };
}

impl Memtable {
    /// The puts of a table, by number, from `lo` to `hi`, both among them, in the order of their keys, with the table's
    /// cuts. It takes the time of a look-up, then that of the table's cuts, and then that of the puts that it gives.
    pub fn scan(&self, table: u32, lo: u64, hi: u64) -> MemScan<'_>
        ensures left { result.left ≡ pairs_within (key_at table lo) (key_at table hi) self.now.puts }
        ensures cuts { result.cuts ≡ table_cuts table self.now.cuts }
        ensures begun { result.begun ≡ false }
    {
        let first = Key { table, ts: lo };
        let last = Key { table, ts: hi };
        let mut rest = self.puts.range(first, last);
        let ahead = rest.next();
        MemScan {
            table,
            ahead,
            rest,
            memtable: self,
            joined: None,
        }
    }
}

impl<'a> MemScan<'a> {
    // Joins the cuts, where that isn't done yet.
    fn begin(&mut self) -> Result<(), NoMem>
        ensures in_order { InKeyOrder self.old.left }
        ensures left { self.new.left ≡ self.old.left }
        ensures cuts { self.new.cuts ≡ self.old.cuts }
        ensures ok { OnOk result (self.new.begun ≡ true) }
        ensures err { OnErr result (self.new.begun ≡ self.old.begun) }
        ensures stays_begun { self.old.begun ≡ true → self.new.begun ≡ true }
    {
        if self.joined.is_none() {
            let joined = self.memtable.cuts(self.table)?;
            self.joined = Some(joined);
        }
        Ok(())
    }
}

impl<'a> RowScan for MemScan<'a> {
    ghost left = { λ s. Some s.left };

    ghost cuts = { λ s. Some s.cuts };

    ghost has_begun = { λ s. s.begun };

    ghost damaged = { λ _. Some [] };

    ghost count = { λ _. 0 };

    fn next<L: Ledger>(
        &mut self,
        steps: &mut Steps<L>,
    ) -> Result<Option<(Key, Partial)>, ScanFault> {
        self.begin()?;
        let Some((key, partial)) = self.ahead else {
            return Ok(None);
        };
        let given = partial.copy()?;
        self.ahead = self.rest.next();
        steps.tick();
        Ok(Some((key, given)))
    }

    fn cut_at(&self, key: Key) -> bool {
        match &self.joined {
            None => unreachable!(),
            Some(ranges) => key.table == self.table && lies_in_any(ranges.as_slice(), key.ts),
        }
    }

    fn faults(&self) -> u64 {
        0
    }
}
