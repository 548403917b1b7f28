//! Where the tallies of columns stand in the sums of rows.
ghost use Rattle.std.specs.Prelude.{◌≡◌, true, Some, IfOk, OnOk, Option, ℕ, slice_get};
ghost use Rattle.td_query.specs.Slots.{same_place, has_place, IsCovered, AreCovered};

use std::alloc::Global;
use td_fields::place_of;
use td_layer::{NoMem, Seq};
use td_model::{Column, Item, ItemKind};

fn is_same(a: Option<usize>, b: Option<usize>) -> bool
    ensures { result ≡ same_place a b }
{
    match (a, b) {
        (None, None) => true,
        (Some(a), Some(b)) => a == b,
        (None, Some(_)) | (Some(_), None) => false,
    }
}

fn has_place(place: Option<usize>, places: &[Option<usize>]) -> bool
    ensures { result ≡ has_place place places.now }
{
    places.iter().any(|other| is_same(place, *other))
}

/// Where a place stands among others, from 0, or their length where it doesn't.
pub(crate) fn slot_of(place: Option<usize>, places: &[Option<usize>]) -> usize
    ensures { has_place place places.now ≡ true → slice_get places.now result ≡ Some place }
{
    let mut at = 0;
    'places: while at < places.len() {
        if is_same(place, places[at]) {
            break;
        }
        at += 1;
    }
    at
}

// Adds the place of a column that an aggregate is asked of, if it isn't there.
fn add_place(
    columns: &[Column],
    item: &ItemKind,
    places: &mut Vec<Option<usize>>,
) -> Result<(), NoMem>
    ensures covered { OnOk result (IsCovered columns.now places.new.items item.now) }
    ensures kept { OnOk result ((place : Option ℕ) → has_place place places.old.items ≡ true
        → has_place place places.new.items ≡ true) }
{
    if let ItemKind::Fun(_, name) = item {
        let place = place_of(columns, name);
        if !has_place(place, places.as_slice()) {
            places.push(place)?;
        }
    }
    Ok(())
}

/// The places of the columns that a select list asks aggregates of, each once.
pub(crate) fn places_of(
    alloc: Global,
    columns: &[Column],
    items: &[Item],
) -> Result<Seq<Option<usize>>, NoMem>
    ensures { IfOk result (λ places. AreCovered columns.now places items.now) }
{
    let mut places = Vec::new(alloc);
    'items: for item in items {
        add_place(columns, &item.what, &mut places)?;
    }
    Ok(Seq::from_vec(alloc, places))
}
