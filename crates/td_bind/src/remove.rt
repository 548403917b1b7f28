//! DELETE, TRIM and DROP STREAM.
ghost use Rattle.std.specs.Prelude.{◌≡◌, ◌≤◌, IfOk};
ghost use Rattle.td_verdict.specs.Writes.{bad_bound, cut_between, cut_of, delete_verdict, trim_verdict, drop_stream_verdict};
ghost use Rattle.td_bind.specs.Answers.{verdict_of};

use crate::found::{find_table, written_cause};
use td_catalog::Catalog;
use td_fields::{is_first, said_at, time_from};
use td_layer::{Copied, Name, NoMem};
use td_limits::{DAY_RANGE, KEEP, LAST_TIMESTAMP};
use td_model::{Cause, Kind, Lit, What};

// The timestamps from a bound to another, which lie in their range where there are any.
fn cut_between(table: u32, lo: i128, hi: i128) -> What
    ensures { result ≡ cut_between table lo hi }
{
    if hi < lo {
        return What::Cut {
            table,
            lo: 1,
            hi: 0,
        };
    }
    What::Cut {
        table,
        lo: time_from(lo),
        hi: time_from(hi),
    }
}

// The timestamps from a bound to another.
fn cut_of(table: u32, lo: i128, hi: i128) -> What
    ensures { result ≡ cut_of table lo hi }
{
    cut_between(table, lo.max(0), hi.min(i128::from(LAST_TIMESTAMP)))
}

// That a bound says no timestamp's number.
fn mismatch_at(column: &Name) -> Result<Cause, NoMem>
    ensures { IfOk result (λ cause. cause ≡ Cause.TypeMismatch column.now) }
{
    let column = column.copy()?;
    Ok(Cause::TypeMismatch { column })
}

// What DELETE meets in a catalog, at a moment in milliseconds since 1970.
pub(crate) fn bind_delete(
    table: &Name,
    column: &Name,
    lo: &Lit,
    hi: &Lit,
    catalog: &Catalog,
    moment: u64,
) -> Result<Result<(What, u32), Cause>, NoMem>
    ensures { IfOk result (λ answer. verdict_of answer
        ≡ delete_verdict table.now column.now lo.now hi.now moment catalog.now.catalog) }
{
    if let Some(cause) = written_cause(table, catalog) {
        return Ok(Err(cause));
    }
    let Some((number, schema)) = find_table(catalog, table) else {
        return Ok(Err(Cause::UnknownTable));
    };
    if !is_first(schema.columns.as_slice(), column) {
        return Ok(Err(Cause::NeedsTime));
    }
    let bounds = (
        said_at(Kind::Time, moment, lo).number(),
        said_at(Kind::Time, moment, hi).number(),
    );
    let (Some(lo), Some(hi)) = bounds else {
        let cause = mismatch_at(column)?;
        return Ok(Err(cause));
    };
    Ok(Ok((cut_of(number, lo, hi), 0)))
}

// What TRIM meets at a retention edge and a moment in milliseconds since 1970: the edge rises to the day range of the
// moment 3650 days ago, and never falls.
pub(crate) fn bind_trim(edge: u32, moment: u64) -> Result<(What, u32), Cause>
    requires { moment ≤ LAST_TIMESTAMP }
    ensures { verdict_of result ≡ trim_verdict edge moment }
{
    let reached = moment.saturating_sub(KEEP) / DAY_RANGE;
    Ok((What::Edge(edge.max(reached as u32)), 0))
}

// What DROP STREAM meets in a catalog.
pub(crate) fn bind_drop_stream(name: &Name, catalog: &Catalog) -> Result<(What, u32), Cause>
    ensures { verdict_of result ≡ drop_stream_verdict name.now catalog.now.catalog }
{
    match catalog.find_stream(name) {
        Some(number) => Ok((What::DropStream(number), 0)),
        None => Err(Cause::UnknownStream),
    }
}
