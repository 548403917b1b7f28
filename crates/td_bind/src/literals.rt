//! Literals at columns, in groups.
ghost use Rattle.std.specs.Prelude.{◌≡◌, map, IfOk};
ghost use Rattle.std.specs.Option.{option_copied};
ghost use Rattle.td_verdict.specs.Writes.{first_given};
ghost use Rattle.td_bind.specs.Literals.{said_group, is_at_fault, first_said};

use std::alloc::Global;
use td_fields::{Said, is_first, said_at};
use td_layer::{NoMem, Seq};
use td_model::{Column, Lit};

/// How a literal is wrong at a column.
#[derive(Clone, Copy)]
pub(crate) enum Fault {
    /// It doesn't suit the column.
    Mismatch,
    /// It is outside the column's range; NULL is outside that of a table's first column.
    Outside,
}

// What the literals of a group say, each read once at its column.
pub(crate) fn said_group(
    alloc: Global,
    moment: u64,
    columns: &[Column],
    group: &[Lit],
) -> Result<Seq<Said>, NoMem>
    ensures { IfOk result (λ said. said ≡ said_group moment columns.now group.now) }
{
    let mut said = Seq::new(alloc);
    for (i, column) in columns.iter().enumerate() {
        let Some(lit) = group.get(i) else {
            return Ok(said);
        };
        said.add(said_at(column.kind, moment, lit))?;
    }
    Ok(said)
}

// What the literals of groups say.
pub(crate) fn said_groups(
    alloc: Global,
    moment: u64,
    columns: &[Column],
    groups: &[Seq<Lit>],
) -> Result<Seq<Seq<Said>>, NoMem>
    ensures { IfOk result (λ said. said ≡ map (said_group moment columns.now) groups.now) }
{
    let mut all = Seq::new(alloc);
    for group in groups {
        let said = said_group(alloc, moment, columns, group.as_slice())?;
        all.add(said)?;
    }
    Ok(all)
}

fn is_at_fault(fault: Fault, table: &[Column], column: &Column, said: Said) -> bool
    ensures { result ≡ is_at_fault fault table.now (column.now, said) }
{
    match fault {
        Fault::Mismatch => !said.suits(),
        Fault::Outside => {
            is_first(table, &column.name) && said.is_null() || !said.fits(column.kind)
        }
    }
}

// The first column at which what a group says is wrong.
pub(crate) fn first_column<'a>(
    fault: Fault,
    table: &[Column],
    columns: &'a [Column],
    group: &[Said],
) -> Option<&'a Column>
    ensures { option_copied result ≡ first_said (is_at_fault fault table.now) columns.now group.now }
{
    for (i, column) in columns.iter().enumerate() {
        let said = group.get(i)?;
        if is_at_fault(fault, table, column, *said) {
            return Some(column);
        }
    }
    None
}

// The first column at which what a group says is wrong, in the order of the groups.
pub(crate) fn first_in_groups<'a>(
    fault: Fault,
    table: &[Column],
    columns: &'a [Column],
    groups: &[Seq<Said>],
) -> Option<&'a Column>
    ensures { option_copied result ≡ first_given (first_said (is_at_fault fault table.now) columns.now) groups.now }
{
    for group in groups {
        let found = first_column(fault, table, columns, group.as_slice());
        if found.is_some() {
            return found;
        }
    }
    None
}
