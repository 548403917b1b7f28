//! Any write.
ghost use Rattle.std.specs.Prelude.{◌≡◌, ◌≤◌, IfOk, IsTrue};
ghost use Rattle.td_catalog.specs.Kept.{CanFollow};
ghost use Rattle.td_model.specs.Built.{is_write, is_built};
ghost use Rattle.td_verdict.specs.Sound.{IsFromEdge};
ghost use Rattle.td_verdict.specs.Writes.{write_verdict};
ghost use Rattle.td_bind.specs.Answers.{verdict_of};

use crate::insert::bind_insert;
use crate::make::{bind_make_stable, bind_make_table};
use crate::remove::{bind_delete, bind_drop_stream, bind_trim};
use crate::subtables::bind_make_sub;
use std::alloc::Global;
use td_catalog::Catalog;
use td_layer::NoMem;
use td_limits::LAST_TIMESTAMP;
use td_model::{Cause, Stmt, What};

/// What a write meets in a catalog, at a retention edge and a moment in milliseconds since 1970: accepted as an entry
/// with its count of rows, or refused with the first cause that applies. The catalog can take what is accepted.
/// `Err(NoMem)` is want of memory.
pub fn bind_write(
    alloc: Global,
    stmt: &Stmt,
    catalog: &Catalog,
    edge: u32,
    moment: u64,
) -> Result<Result<(What, u32), Cause>, NoMem>
    requires write { IsTrue (is_write stmt.now) }
    requires built { IsTrue (is_built stmt.now) }
    requires moment { moment ≤ LAST_TIMESTAMP }
    ensures verdict { IfOk result (λ answer. verdict_of answer
        ≡ write_verdict stmt.now catalog.now.catalog edge moment) }
    ensures follows { IfOk result (λ answer. IfOk answer (λ accepted. CanFollow accepted.0 catalog.now.catalog)) }
    ensures edge { IfOk result (λ answer. IfOk answer (λ accepted. IsFromEdge edge accepted.0)) }
{
    catalog.is_valid();
    let answer = answer_of(alloc, stmt, catalog, edge, moment)?;
    Ok(answer)
}

// The answer of the form that a write has.
fn answer_of(
    alloc: Global,
    stmt: &Stmt,
    catalog: &Catalog,
    edge: u32,
    moment: u64,
) -> Result<Result<(What, u32), Cause>, NoMem>
    requires write { IsTrue (is_write stmt.now) }
    requires built { IsTrue (is_built stmt.now) }
    requires moment { moment ≤ LAST_TIMESTAMP }
    ensures { IfOk result (λ answer. verdict_of answer ≡ write_verdict stmt.now catalog.now.catalog edge moment) }
{
    let answer = match stmt {
        Stmt::MakeStable {
            name,
            columns,
            tags,
        } => bind_make_stable(alloc, name, columns, tags.as_ref(), catalog)?,
        Stmt::MakeTable { name, columns } => bind_make_table(alloc, name, columns, catalog)?,
        Stmt::MakeSub { name, stable, tags } => {
            bind_make_sub(alloc, name, stable, tags, catalog, moment)?
        }
        Stmt::Insert {
            table,
            columns,
            rows,
        } => bind_insert(alloc, table, columns.as_ref(), rows, catalog, edge, moment)?,
        Stmt::Delete {
            table,
            column,
            lo,
            hi,
        } => bind_delete(table, column, lo, hi, catalog, moment)?,
        Stmt::Trim => bind_trim(edge, moment),
        Stmt::DropStream { name } => bind_drop_stream(name, catalog),
        _ => unreachable!(),
    };
    Ok(answer)
}
