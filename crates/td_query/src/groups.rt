//! Rows by groups.
ghost use Rattle.std.specs.Prelude.{◌≡◌, IfOk, OnOk, MatchResult};
ghost use Rattle.td_verdict.specs.Groups.{put_group};
ghost use Rattle.td_query.specs.Read.{all_grouped, listed, wanted_from, parts_of, StandsAt, GoesTo, IsOpened};

use crate::parts::part_order;
use crate::rows::{Sorted, put_table};
use crate::tables::Table;
use std::alloc::Global;
use std::cmp::Ordering;
use std::collections::BTreeMap;
use td_layer::{Cell, NoMem, Row, Seq};
use td_model::Plan;
use td_verdict::Comparison;

/// A group whose rows are being read: the cells of the PARTITION BY items, and what is kept of the rows.
#[derive(Drop)]
pub(crate) struct Gathered<W> {
    pub(crate) part: Seq<Cell>,
    pub(crate) kept: W,
}

// The place of the group of a partition among groups that stand in the order of their partitions, or the place at which
// it goes.
fn place_for<W>(groups: &[Gathered<W>], part: &Seq<Cell>) -> Result<usize, usize>
    ensures { MatchResult result (StandsAt part.now (parts_of groups.now)) (GoesTo part.now (parts_of groups.now)) }
{
    let mut at = 0;
    'groups: while at < groups.len() {
        match part_order(part.as_slice(), groups[at].part.as_slice()) {
            Ordering::Less => break,
            Ordering::Equal => return Ok(at),
            Ordering::Greater => at += 1,
        }
    }
    Err(at)
}

/// The place of the group of a partition. Where there is none it is made, with `fresh` for what is kept of no row.
pub(crate) fn group_for<W: Drop>(
    groups: &mut Vec<Gathered<W>>,
    part: &Seq<Cell>,
    fresh: W,
) -> Result<usize, NoMem>
    ensures { IfOk result (IsOpened part.now fresh groups.old.items groups.new.items) }
{
    match place_for(groups.as_slice(), part) {
        Ok(at) => Ok(at),
        Err(at) => {
            let part = part.copy()?;
            groups.insert(at, Gathered { part, kept: fresh })?;
            Ok(at)
        }
    }
}

/// Puts the rows of a table that are wanted into the group of its partition.
pub(crate) fn put_found(
    alloc: Global,
    plan: &Plan,
    comparisons: &[Comparison],
    table: &Table<'_>,
    found: Seq<(u64, Row)>,
    groups: &mut Vec<Gathered<Sorted>>,
) -> Result<(), NoMem>
    ensures { OnOk result (all_grouped groups.new.items
        ≡ put_group table.now.part.now (wanted_from plan.now.schema.columns comparisons.now plan.now.lo plan.now.hi
        (listed table.now) found) (all_grouped groups.old.items)) }
{
    let at = group_for(groups, table.part, BTreeMap::new(alloc))?;
    let group = &mut groups[at];
    put_table(plan, comparisons, table, found, &mut group.kept)?;
    Ok(())
}
