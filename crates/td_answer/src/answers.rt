//! The answer of a plan.
ghost use Rattle.std.specs.Prelude.{◌≡◌, ◌<◌, ◌^◌, drop, take, length, IfOk};
ghost use Rattle.td_model.specs.declared.language.Query.{Query};
ghost use Rattle.td_model.specs.State.{State};
ghost use Rattle.td_verdict.specs.Fields.{comparisons_of};
ghost use Rattle.td_verdict.specs.Plans.{plan_of, reads_one};
ghost use Rattle.td_verdict.specs.Answers.{row_answer, answer_of, cut, ordered, shown_places};
ghost use Rattle.td_verdict.specs.Sound.{IsSound};
ghost use Rattle.td_answer.specs.Firsts.{cells_of_lines, cells_found};
ghost use Rattle.td_answer.specs.Picks.{plan_found};

use crate::cells::Line;
use crate::firsts::{lines_of_table, most_read, sole_table};
use crate::picks::{lines_of, pick_all};
use crate::shown::{part, shown_all};
use std::alloc::Global;
use td_fields::{comparisons, shown_places};
use td_layer::{Cell, NoMem, Seq};
use td_model::Plan;
use td_rows::RowsByKey;
use td_verdict::Comparison;

// Rows that a plan picks, in the order of the answer: of several tables all, of one table no more than the part needs.
fn lines_in_order<'a, M: RowsByKey>(
    alloc: Global,
    plan: &'a Plan,
    comparisons: &[Comparison],
    rows: &'a M,
    skip: u64,
    count: u64,
) -> Result<Vec<Line<'a>>, NoMem>
    ensures part { IfOk result (λ lines. cells_of_lines plan.now.schema.columns
        (take count (drop skip (cut plan.now.query lines.items)))
        ≡ cells_found (take count (drop skip (cut plan.now.query
        (ordered plan.now.query.order (plan_found plan.now comparisons.now (M.rows rows.now))))))) }
    ensures few { IfOk result (λ _. length (plan_found plan.now comparisons.now (M.rows rows.now)) < 2 ^ 63) }
{
    let most = most_read(&plan.query, rows, skip, count);
    match sole_table(plan) {
        Some(table) => {
            let lines = lines_of_table(alloc, plan, comparisons, &table, rows, most)?;
            Ok(lines)
        }
        None => {
            let picked = pick_all(alloc, plan, comparisons, rows)?;
            let lines = lines_of(alloc, &plan.query.order, picked)?;
            Ok(lines)
        }
    }
}

// That part of what is shown of the rows that a plan picks.
fn shown_of<M: RowsByKey>(
    alloc: Global,
    plan: &Plan,
    rows: &M,
    skip: u64,
    count: u64,
) -> Result<Seq<Seq<Cell>>, NoMem>
    ensures part { IfOk result (λ all. all ≡ take count
        (drop skip (answer_of plan.now.query (shown_places (reads_one plan.now) plan.now.schema plan.now.query)
        (plan_found plan.now (comparisons_of plan.now.schema plan.now.query.conds) (M.rows rows.now))))) }
    ensures small { IfOk result (λ all. length
        (answer_of plan.now.query (shown_places (reads_one plan.now) plan.now.schema plan.now.query)
        (plan_found plan.now (comparisons_of plan.now.schema plan.now.query.conds) (M.rows rows.now))) < 2 ^ 63) }
{
    let comparisons = comparisons(alloc, &plan.schema, plan.query.conds.as_slice())?;
    let places = shown_places(alloc, plan)?;
    let ordered = lines_in_order(alloc, plan, comparisons.as_slice(), rows, skip, count)?;
    let lines = part(&plan.query, ordered.as_slice(), skip, count);
    let columns = plan.schema.columns.as_slice();
    let all = shown_all(alloc, columns, places.as_slice(), lines)?;
    Ok(all)
}

/// A part of the answer of a row query's plan over rows: of its rows, in their order, without the first `skip`, at most
/// `count`. The order is by timestamp, then by table, or the reverse; then OFFSET, then LIMIT. The whole answer has
/// fewer than 2^63 rows. Of a plan of one table in rising order it reads no further than the last row that it gives. A
/// negative OFFSET or LIMIT counts as 0. `Err(NoMem)` is want of memory.
pub fn answer<M: RowsByKey>(
    alloc: Global,
    plan: &Plan,
    rows: &M,
    skip: u64,
    count: u64,
) -> Result<Seq<Seq<Cell>>, NoMem>
    ensures part { (q : Query) (s : State) → IsSound s → plan.now ≡ plan_of q s.catalog → M.rows rows.now ≡ s.rows
        → IfOk result (λ all. all ≡ take count (drop skip (row_answer q s))) }
    ensures small { (q : Query) (s : State) → IsSound s → plan.now ≡ plan_of q s.catalog → M.rows rows.now ≡ s.rows
        → IfOk result (λ all. length (row_answer q s) < 2 ^ 63) }
{
    let shown = shown_of(alloc, plan, rows, skip, count)?;
    Ok(shown)
}
