//! Queries: what one meets, and its plan.
ghost use Rattle.std.specs.Prelude.{◌≡◌, false, true, IfOk};
ghost use Rattle.td_model.specs.Catalog.{no_schema};
ghost use Rattle.td_verdict.specs.Queries.{source_cause, query_verdict};
ghost use Rattle.td_verdict.specs.Plans.{subtables_of, plan_from, plan_of};
ghost use Rattle.td_verdict.specs.Sound.{has_now, IsSoundPlan, IsBounded};
ghost use Rattle.td_bind.specs.Answers.{query_verdict_of, is_table, IsAnswerOf};
ghost use Rattle.td_bind.specs.Tables.{IsThere};

use crate::names::is_taken;
use crate::ranges::range_of;
use crate::selects::{body_cause, reads_all};
use crate::tables::{find_source, names_of, parts_of, planned, tags_of};
use std::alloc::Global;
use td_catalog::Catalog;
use td_fields::comparisons;
use td_layer::{Copied, NoMem, Seq};
use td_model::{Cause, Plan, Query, Schema};
use td_tagidx::TagIndex;
use td_verdict::Source;

// Why a query is refused by what its source's name names, if it is.
fn source_cause(query: &Query, catalog: &Catalog) -> Option<Cause>
    ensures { result ≡ source_cause query.now catalog.now.catalog }
{
    if !is_taken(&query.source, catalog) {
        return Some(Cause::UnknownTable);
    }
    if catalog.find_target(&query.source).is_some() && !reads_all(query) {
        return Some(Cause::TargetOfStream);
    }
    None
}

// The schema of a target.
fn no_schema(alloc: Global) -> Schema
    ensures { result ≡ no_schema }
{
    Schema {
        columns: Seq::new(alloc),
        tags: Seq::new(alloc),
    }
}

// The plan of a query over its source, and over the source's schema.
fn plan_from(
    alloc: Global,
    query: &Query,
    source: Source,
    schema: &Schema,
    catalog: &Catalog,
    tags: &TagIndex,
) -> Result<Plan, NoMem>
    requires subtables { tags.now.subtables ≡ subtables_of catalog.now.catalog }
    requires there { IsThere source catalog.now.catalog }
    ensures { IfOk result (λ plan. plan ≡ plan_from query.now source schema.now catalog.now.catalog) }
{
    let comparisons = comparisons(alloc, schema, query.conds.as_slice())?;
    let comparisons = comparisons.as_slice();
    let columns = schema.columns.len();
    let (lo, hi) = range_of(comparisons);
    let tables = planned(alloc, source, columns, comparisons, catalog, tags)?;
    let parts = parts_of(
        alloc,
        schema,
        query.parts.as_slice(),
        catalog,
        tables.as_slice(),
    )?;
    let tags = tags_of(alloc, catalog, tables.as_slice())?;
    let names = names_of(alloc, catalog, tables.as_slice())?;
    let target = catalog.find_target(&query.source);
    let schema = schema.copy()?;
    let query = query.copy()?;
    Ok(Plan {
        query,
        tables,
        parts,
        tags,
        names,
        schema,
        lo,
        hi,
        target,
    })
}

fn is_table(source: Source) -> bool
    ensures { result ≡ is_table source }
{
    matches!(source, Source::Table(_))
}

// What a query meets over its source, where the source is no cause.
fn bind_over(
    alloc: Global,
    query: &Query,
    source: Source,
    schema: &Schema,
    catalog: &Catalog,
    tags: &TagIndex,
) -> Result<Result<Plan, Cause>, NoMem>
    requires subtables { tags.now.subtables ≡ subtables_of catalog.now.catalog }
    requires there { IsThere source catalog.now.catalog }
    ensures { IfOk result (λ answer. IsAnswerOf query.now source schema.now catalog.now.catalog answer) }
{
    let cause = body_cause(alloc, is_table(source), schema, query)?;
    if let Some(cause) = cause {
        return Ok(Err(cause));
    }
    let plan = plan_from(alloc, query, source, schema, catalog, tags)?;
    Ok(Ok(plan))
}

// What a query meets in a catalog.
fn answer_of(
    alloc: Global,
    query: &Query,
    catalog: &Catalog,
    tags: &TagIndex,
) -> Result<Result<Plan, Cause>, NoMem>
    requires { tags.now.subtables ≡ subtables_of catalog.now.catalog }
    ensures verdict { IfOk result (λ answer. query_verdict_of answer ≡ query_verdict query.now catalog.now.catalog) }
    ensures plan { IfOk result (λ answer. IfOk answer (λ plan. plan ≡ plan_of query.now catalog.now.catalog)) }
{
    if let Some(cause) = source_cause(query, catalog) {
        return Ok(Err(cause));
    }
    match find_source(catalog, &query.source) {
        Some((source, schema)) => {
            let answer = bind_over(alloc, query, source, schema, catalog, tags)?;
            Ok(answer)
        }
        None => {
            let schema = no_schema(alloc);
            let answer = bind_over(alloc, query, Source::Other, &schema, catalog, tags)?;
            Ok(answer)
        }
    }
}

/// What a query meets in a catalog: its plan where it passes, or the first cause that applies. The index has the
/// subtables of the catalog, each with its tags. The plan is sound, where no literal of the conditions is NOW. It can
/// be answered in any case: its timestamps end in the range of time, and its interval has durations in their bounds.
/// `Err(NoMem)` is want of memory.
pub fn bind_query(
    alloc: Global,
    query: &Query,
    catalog: &Catalog,
    tags: &TagIndex,
) -> Result<Result<Plan, Cause>, NoMem>
    requires subtables { tags.now.subtables ≡ subtables_of catalog.now.catalog }
    ensures verdict { IfOk result (λ answer. query_verdict_of answer ≡ query_verdict query.now catalog.now.catalog) }
    ensures plan { IfOk result (λ answer. IfOk answer (λ plan. plan ≡ plan_of query.now catalog.now.catalog)) }
    ensures sound { has_now query.now ≡ false → IfOk result (λ answer. IfOk answer IsSoundPlan) }
    ensures bounded { IfOk result (λ answer. IfOk answer IsBounded) }
{
    catalog.is_valid();
    let answer = answer_of(alloc, query, catalog, tags)?;
    Ok(answer)
}
