//! The day ranges for which a frozen memtable is written to a file.
ghost use Rattle.std.specs.Prelude.{◌≡◌, ◌≤◌, true, IfOk, IfSome};
ghost use Rattle.td_limits.specs.declared.limits.TheConstants.{LAST_TIMESTAMP};
ghost use Rattle.td_fileio.specs.Days.{is_in_day};
ghost use Rattle.td_levels.specs.Ranges.{has_put_in, AreRangesOf};
ghost use Rattle.td_levels.specs.Sets.{sets_of};
ghost use Rattle.td_levels.specs.Days.{LeastFrom, has_put_of, is_cut_set, has_cut_files, earlier, TimesFit, RangesFit};

use crate::levels::RowLevels;
use std::alloc::Global;
use td_fileio::{day_end, day_start};
use td_fileset::FileSet;
use td_layer::{NoMem, Seq};
use td_limits::DAY_RANGE;
use td_memtable::Memtable;

// The day range of a timestamp.
fn day_of(ts: u64) -> u32
    requires { ts ≤ LAST_TIMESTAMP }
    ensures { is_in_day result ts ≡ true }
{
    (ts / DAY_RANGE) as u32
}

// The earlier of two day ranges, of which each may be missing.
fn earlier(one: Option<u32>, other: Option<u32>) -> Option<u32>
    ensures { result ≡ earlier one other }
{
    match (one, other) {
        (None, other) => other,
        (Some(one), None) => Some(one),
        (Some(one), Some(other)) => Some(one.min(other)),
    }
}

// The least day range, from one on, in which a memtable has a put of a table.
fn least_of_table(memtable: &Memtable, table: u32, from: u32) -> Option<u32>
    requires { TimesFit memtable.now }
    ensures { LeastFrom (λ range. has_put_of table range memtable.now) from result }
{
    match memtable.first_put(table, day_start(from)) {
        None => None,
        Some(ts) => Some(day_of(ts)),
    }
}

// The least day range, from one on, in which a memtable has a put.
fn least_with_put(memtable: &Memtable, from: u32) -> Option<u32>
    requires { TimesFit memtable.now }
    ensures { LeastFrom (λ range. has_put_in range memtable.now) from result }
{
    let mut least = None;
    let mut table = 0;
    while let Some(next) = memtable.table_from(table) {
        least = earlier(least, least_of_table(memtable, next, from));
        if next == u32::MAX {
            return least;
        }
        table = next + 1;
    }
    least
}

// A file set's day range, where that isn't before another and meets a cut of a memtable.
fn least_of_set(memtable: &Memtable, range: u32, from: u32) -> Option<u32>
    ensures { LeastFrom (is_cut_set memtable.now range) from result }
{
    if from <= range && memtable.meets_cut(day_start(range), day_end(range)) {
        Some(range)
    } else {
        None
    }
}

// The least day range of file sets, from one on, that meets a cut of a memtable.
fn least_with_cut(memtable: &Memtable, sets: &[FileSet], from: u32) -> Option<u32>
    ensures { LeastFrom (has_cut_files memtable.now (sets_of sets.now)) from result }
{
    let mut least = None;
    for set in sets {
        least = earlier(least, least_of_set(memtable, set.range, from));
    }
    least
}

// The day ranges at or above an edge that get a file of a memtable, rising.
fn ranges_of(
    alloc: Global,
    memtable: &Memtable,
    sets: &[FileSet],
    edge: u32,
) -> Result<Seq<u32>, NoMem>
    requires times { TimesFit memtable.now }
    requires ranges { RangesFit (sets_of sets.now) }
    ensures { IfOk result (AreRangesOf memtable.now (sets_of sets.now) edge) }
{
    let mut ranges = Seq::new(alloc);
    let mut from = edge;
    while let Some(range) = earlier(
        least_with_put(memtable, from),
        least_with_cut(memtable, sets, from),
    ) {
        ranges.add(range)?;
        from = range + 1;
    }
    Ok(ranges)
}

impl RowLevels {
    /// The day ranges at or above an edge that get a file of the frozen memtable, rising: those in which it has a put, and
    /// those that have files and meet one of its cuts. Where nothing is frozen there are none. It takes the time of a look-up
    /// for each of these and each table of the memtable, and of a walk over its cuts for each file set.
    pub fn ranges(&self, edge: u32) -> Result<Seq<u32>, NoMem>
        requires times { IfSome self.now.frozen TimesFit }
        requires ranges { RangesFit self.now.sets }
        ensures { IfOk result (λ ranges. IfSome self.now.frozen (λ m. AreRangesOf m self.now.sets edge ranges)) }
    {
        match self.frozen() {
            None => Ok(Seq::new(self.alloc())),
            Some(memtable) => {
                let ranges = ranges_of(self.alloc(), memtable, self.sets(), edge)?;
                Ok(ranges)
            }
        }
    }

    /// The day ranges at or above an edge that would get a file of the active memtable, were it frozen, rising.
    pub fn active_ranges(&self, edge: u32) -> Result<Seq<u32>, NoMem>
        requires times { TimesFit self.now.active }
        requires ranges { RangesFit self.now.sets }
        ensures { IfOk result (AreRangesOf self.now.active self.now.sets edge) }
    {
        let ranges = ranges_of(self.alloc(), self.active(), self.sets(), edge)?;
        Ok(ranges)
    }
}
