//! What is shown of the rows that were picked.
ghost use Rattle.std.specs.Prelude.{◌≡◌, drop, take, min, IfOk};
ghost use Rattle.td_verdict.specs.Answers.{shown, is_desc, ordered, count_from, limited, cut};
ghost use Rattle.td_answer.specs.Lines.{line_cells, lines_shown};

use crate::cells::{Line, cell_at};
use std::alloc::Global;
use td_layer::{Cell, NoMem, Seq};
use td_model::{Column, OrderBy, Query};

pub(crate) fn is_desc(order: &OrderBy) -> bool
    ensures { result ≡ is_desc order.now }
{
    matches!(order, OrderBy::Desc(_))
}

// Rows by timestamp in the order of an answer.
pub(crate) fn in_order<'a>(order: &OrderBy, lines: Vec<Line<'a>>) -> Vec<Line<'a>>
    ensures { result.items ≡ ordered order.now lines.entry.items }
{
    let mut lines = lines;
    if is_desc(order) {
        lines.reverse();
    }
    lines
}

// A count of rows of OFFSET or LIMIT, and at most a bound. A negative number counts as 0.
pub(crate) fn count_within(n: i128, bound: usize) -> usize
    ensures { result ≡ min (count_from n) bound }
{
    if n < 0 {
        0
    } else if n < bound as i128 {
        n as usize
    } else {
        bound
    }
}

// The first rows, as many as LIMIT says where there is one.
fn limited<'a, 'b>(limit: Option<i128>, lines: &'b [Line<'a>]) -> &'b [Line<'a>]
    ensures { result.now ≡ limited limit lines.now }
{
    match limit {
        None => lines,
        Some(n) => &lines[..count_within(n, lines.len())],
    }
}

// The rows without the first ones, as many as OFFSET says, and of these as many as LIMIT says.
fn cut<'a, 'b>(query: &Query, lines: &'b [Line<'a>]) -> &'b [Line<'a>]
    ensures { result.now ≡ cut query.now lines.now }
{
    let skip = count_within(query.skip, lines.len());
    limited(query.limit, &lines[skip..])
}

// Of the rows that OFFSET and LIMIT leave, without the first `skip`, at most `count`.
pub(crate) fn part<'a, 'b>(
    query: &Query,
    lines: &'b [Line<'a>],
    skip: u64,
    count: u64,
) -> &'b [Line<'a>]
    ensures { result.now ≡ take count (drop skip (cut query.now lines.now)) }
{
    let lines = cut(query, lines);
    let rest = &lines[(skip as usize).min(lines.len())..];
    &rest[..(count as usize).min(rest.len())]
}

// What is shown of a row.
fn shown(
    alloc: Global,
    columns: &[Column],
    places: &[usize],
    line: &Line<'_>,
) -> Result<Seq<Cell>, NoMem>
    ensures { IfOk result (λ all. all ≡ shown places.now (line_cells columns.now line.now)) }
{
    let mut all = Seq::new(alloc);
    for place in places {
        let cell = cell_at(columns, line, *place)?;
        all.add(cell)?;
    }
    Ok(all)
}

// What is shown of rows.
pub(crate) fn shown_all(
    alloc: Global,
    columns: &[Column],
    places: &[usize],
    lines: &[Line<'_>],
) -> Result<Seq<Seq<Cell>>, NoMem>
    ensures { IfOk result (λ all. all ≡ lines_shown columns.now places.now lines.now) }
{
    let mut all = Seq::new(alloc);
    for line in lines {
        let row = shown(alloc, columns, places, line)?;
        all.add(row)?;
    }
    Ok(all)
}
