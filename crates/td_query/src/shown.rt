//! The part of an answer that is shown, and the cells of rows.
ghost use Rattle.std.specs.Prelude.{◌≡◌, drop, take, min, IfOk};
ghost use Rattle.td_verdict.specs.Answers.{shown, count_from, limited, cut};
ghost use Rattle.td_query.specs.Picks.{picked_cells, picked_shown};

use crate::cells::{Line, cell_at};
use crate::picks::Picked;
use std::alloc::Global;
use td_layer::{Cell, NoMem, Seq};
use td_model::{Column, Query};

// A count of rows of OFFSET or LIMIT, and at most a bound. A negative number counts as 0.
fn count_within(n: i128, bound: usize) -> usize
    ensures { result ≡ min (count_from n) bound }
{
    if n < 0 {
        0
    } else if n < bound as i128 {
        n as usize
    } else {
        bound
    }
}

// The first rows, as many as LIMIT says where there is one.
fn limited<T>(limit: Option<i128>, rows: &[T]) -> &[T]
    ensures { result.now ≡ limited limit rows.now }
{
    match limit {
        None => rows,
        Some(n) => &rows[..count_within(n, rows.len())],
    }
}

// The rows without the first ones, as many as OFFSET says, and of these as many as LIMIT says.
fn cut<'a, T>(query: &Query, rows: &'a [T]) -> &'a [T]
    ensures { result.now ≡ cut query.now rows.now }
{
    let skip = count_within(query.skip, rows.len());
    limited(query.limit, &rows[skip..])
}

/// Of the rows that OFFSET and LIMIT leave, without the first `skip`, at most `count`.
pub(crate) fn part<'a, T>(query: &Query, rows: &'a [T], skip: u64, count: u64) -> &'a [T]
    ensures { result.now ≡ take count (drop skip (cut query.now rows.now)) }
{
    let rows = cut(query, rows);
    let rest = &rows[(skip as usize).min(rows.len())..];
    &rest[..(count as usize).min(rest.len())]
}

// What is shown of a row.
fn shown(
    alloc: Global,
    columns: &[Column],
    places: &[usize],
    row: &Picked<'_>,
) -> Result<Seq<Cell>, NoMem>
    ensures { IfOk result (λ all. all ≡ shown places.now (picked_cells columns.now row.now)) }
{
    let line = Line {
        name: row.name,
        tags: row.tags,
        ts: row.ts,
        values: &row.row.values,
    };
    let mut all = Seq::new(alloc);
    'places: for place in places {
        let cell = cell_at(columns, &line, *place)?;
        all.add(cell)?;
    }
    Ok(all)
}

/// What is shown of rows.
pub(crate) fn shown_all(
    alloc: Global,
    columns: &[Column],
    places: &[usize],
    rows: &[Picked<'_>],
) -> Result<Seq<Seq<Cell>>, NoMem>
    ensures { IfOk result (λ all. all ≡ picked_shown columns.now places.now rows.now) }
{
    let mut all = Seq::new(alloc);
    'rows: for row in rows {
        let cells = shown(alloc, columns, places, row)?;
        all.add(cells)?;
    }
    Ok(all)
}
