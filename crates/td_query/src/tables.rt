//! The tables that a plan reads.
ghost use Rattle.std.specs.Prelude.{◌≡◌, slice_get};
ghost use Rattle.std.specs.Option.{option_map};
ghost use Rattle.td_query.specs.Planned.{tables_of};
ghost use Rattle.td_query.specs.Read.{listed};

use td_layer::{Cell, Name, Seq};
use td_model::Plan;

/// A table that is read: its number, the cells that the PARTITION BY items give for it, its name and its tags.
#[derive(Clone, Copy)]
pub(crate) struct Table<'a> {
    pub(crate) number: u32,
    pub(crate) part: &'a Seq<Cell>,
    pub(crate) name: &'a Name,
    pub(crate) tags: &'a Seq<Cell>,
}

/// The table at a place of a plan's tables.
#[tactic(auto, using(crate::proofs::Listing::get_listed))]
pub(crate) fn table_at(plan: &Plan, at: usize) -> Option<Table<'_>>
    ensures { option_map listed result ≡ slice_get (tables_of plan.now) at }
{
    match (
        plan.tables.get(at),
        plan.parts.get(at),
        plan.names.get(at),
        plan.tags.get(at),
    ) {
        (Some(number), Some(part), Some(name), Some(tags)) => Some(Table {
            number: *number,
            part,
            name,
            tags,
        }),
        _ => None,
    }
}
