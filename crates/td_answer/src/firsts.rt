//! The rows of a plan of one table, in the order of the answer, no more than the part of the answer needs.
ghost use Rattle.std.specs.Prelude.{◌≡◌, ◌<◌, ◌^◌, ◌-◌, ◌++◌, [], ◌∷◌, min, take, length, filter, IfOk, IfSome, OnOk};
ghost use Rattle.td_layer.specs.Keys.{InKeyOrder};
ghost use Rattle.td_model.specs.State.{is_cut};
ghost use Rattle.td_verdict.specs.Answers.{ordered};
ghost use Rattle.td_answer.specs.Firsts.{within_limit, rows_wanted, IsEnough, cells_of_lines, cells_found, if_held};
ghost use Rattle.td_answer.specs.Lines.{line_cells};
ghost use Rattle.td_answer.specs.Picks.{listed, tables_of, table_found};

use crate::cells::{Line, all_hold};
use crate::picks::{Table, table_at};
use crate::shown::{count_within, in_order, is_desc};
use std::alloc::Global;
use td_layer::NoMem;
use td_model::{Column, Plan, Query};
use td_rows::RowsByKey;
use td_verdict::Comparison;

// A count of rows that LIMIT cuts, where there is one.
fn within_limit(limit: Option<i128>, count: usize) -> usize
    ensures { result ≡ within_limit limit count }
{
    match limit {
        None => count,
        Some(most) => count_within(most, count),
    }
}

// How many rows in rising order hold a part of the answer, and at most 2^64-1.
#[tactic(auto, using(crate::proofs::Parts::wanted_within))]
fn rows_wanted(query: &Query, skip: u64, count: u64) -> usize
    ensures { result ≡ min (rows_wanted query.now skip count) (2 ^ 64 - 1) }
{
    let end = (skip as usize).saturating_add(count as usize);
    count_within(query.skip, usize::MAX).saturating_add(within_limit(query.limit, end))
}

// Adds a row that is lent, where all comparisons are true of it.
fn add_held<'a>(
    columns: &[Column],
    comparisons: &[Comparison],
    line: Line<'a>,
    lines: &mut Vec<Line<'a>>,
) -> Result<(), NoMem>
    ensures { OnOk result (cells_of_lines columns.now lines.new.items
        ≡ cells_of_lines columns.now lines.old.items ++ if_held comparisons.now (line_cells columns.now line.entry)) }
{
    if all_hold(columns, &line, comparisons) {
        lines.push(line)?;
    }
    Ok(())
}

// The first rows of a table of which all comparisons are true, by timestamp, at most so many. It reads no further.
fn first_lines<'a, M: RowsByKey>(
    alloc: Global,
    plan: &Plan,
    comparisons: &[Comparison],
    table: &Table<'a>,
    rows: &'a M,
    most: usize,
) -> Result<Vec<Line<'a>>, NoMem>
    ensures in_order { InKeyOrder (filter (λ e. is_cut table.now.number plan.now.lo plan.now.hi e.0)
        (M.rows rows.now)) }
    ensures lines { IfOk result (λ lines. cells_of_lines plan.now.schema.columns lines.items
        ≡ take most (cells_found (table_found plan.now comparisons.now (M.rows rows.now) (listed table.now)))) }
{
    let columns = plan.schema.columns.as_slice();
    let mut lines = Vec::new(alloc);
    for (key, row) in rows.range(table.number, plan.lo, plan.hi) {
        if lines.len() >= most {
            return Ok(lines);
        }
        let line = Line {
            name: table.name,
            tags: table.tags,
            ts: key.ts,
            values: &row.values,
        };
        add_held(columns, comparisons, line, &mut lines)?;
    }
    Ok(lines)
}

// The first rows of a table of which all comparisons are true, at most so many, in the order of an answer.
pub(crate) fn lines_of_table<'a, M: RowsByKey>(
    alloc: Global,
    plan: &Plan,
    comparisons: &[Comparison],
    table: &Table<'a>,
    rows: &'a M,
    most: usize,
) -> Result<Vec<Line<'a>>, NoMem>
    ensures in_order { InKeyOrder (filter (λ e. is_cut table.now.number plan.now.lo plan.now.hi e.0)
        (M.rows rows.now)) }
    ensures lines { IfOk result (λ lines. cells_of_lines plan.now.schema.columns lines.items
        ≡ ordered plan.now.query.order (take most
        (cells_found (table_found plan.now comparisons.now (M.rows rows.now) (listed table.now))))) }
{
    let lines = first_lines(alloc, plan, comparisons, table, rows, most)?;
    Ok(in_order(&plan.query.order, lines))
}

// How many rows of a table have to be found for a part of the answer: in falling order all.
pub(crate) fn most_read<M: RowsByKey>(query: &Query, rows: &M, skip: u64, count: u64) -> usize
    ensures enough { IsEnough query.now (length (M.rows rows.now)) skip count result }
    ensures few { length (M.rows rows.now) < 2 ^ 32 }
{
    let all = rows.row_count() as usize;
    if is_desc(&query.order) {
        all
    } else {
        rows_wanted(query, skip, count).min(all)
    }
}

// The table of a plan that has one alone.
pub(crate) fn sole_table(plan: &Plan) -> Option<Table<'_>>
    ensures { IfSome result (λ table. tables_of plan.now ≡ listed table ∷ []) }
{
    if plan.tables.len() == 1 {
        table_at(plan, 0)
    } else {
        None
    }
}
