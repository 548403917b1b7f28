//! Which queries are refused for their select list, and which for their window.
ghost use Rattle.std.specs.Prelude.{◌≡◌};
ghost use Rattle.std.specs.List.{list_any};
ghost use Rattle.td_model.specs.declared.language.Item.{Item};
ghost use Rattle.td_verdict.specs.Parts.{is_part};
ghost use Rattle.td_verdict.specs.Refusals.{has_aggregate, has_window, has_parts, is_grouped, has_bad_star, has_idle_parts, is_of_row, is_loose, has_loose_item, is_column, parts_by_column, needs_window, lacks_window, is_number, takes, is_misused, has_misuse, is_window_start, is_order_other, is_not_start, has_bad_order, is_bad_selection, is_bad_interval, is_bad_state, is_tbname, is_bad_window};
ghost use Rattle.td_verdict.specs.Streams.{is_plain, is_long};
ghost use Rattle.td_verdict.specs.Values.{is_text, is_truth};

use td_fields::{column_named, is_first, is_time, same};
use td_layer::{Func, Name};
use td_limits::{LONGEST_DURATION, WINDOWS_OF_A_ROW};
use td_model::{
    Column, Item, ItemKind, Kind, OrderBy, PartBy, Query, Schema, WindowDef, has_aggregate,
};

pub(crate) fn is_plain(order: &OrderBy) -> bool
    ensures { result ≡ is_plain order.now }
{
    matches!(order, OrderBy::Plain)
}

// Whether a name is the word of ORDER BY for a window's start.
pub(crate) fn is_window_start(name: &Name) -> bool
    ensures { result ≡ is_window_start name.now }
{
    name.as_slice() == b"_wstart".as_slice()
}

// ---- the select list

fn aggregates(query: &Query) -> bool
    ensures { result ≡ has_aggregate query.now }
{
    has_aggregate(query.items.as_slice())
}

fn has_window(query: &Query) -> bool
    ensures { result ≡ has_window query.now }
{
    !query.window.is_whole()
}

fn has_parts(query: &Query) -> bool
    ensures { result ≡ has_parts query.now }
{
    !query.parts.is_empty()
}

// Whether a query answers a row for a group or a window, in place of the rows themselves.
fn is_grouped(query: &Query) -> bool
    ensures { result ≡ is_grouped query.now }
{
    aggregates(query) || has_window(query)
}

fn has_bad_star(query: &Query) -> bool
    ensures { result ≡ has_bad_star query.now }
{
    query.star && (has_parts(query) || has_window(query))
}

fn has_idle_parts(query: &Query) -> bool
    ensures { result ≡ has_idle_parts query.now }
{
    has_parts(query) && !is_grouped(query)
}

fn is_of_row(what: &ItemKind) -> bool
    ensures { result ≡ is_of_row what.now }
{
    matches!(what, ItemKind::TbName | ItemKind::Col(_))
}

// Whether an item is a PARTITION BY item.
fn is_part(what: &ItemKind, part: &PartBy) -> bool
    ensures { result ≡ is_part what.now part.now }
{
    match (what, part) {
        (ItemKind::TbName, PartBy::TbName) => true,
        (ItemKind::Col(name), PartBy::Tag(tag)) => same(tag, name),
        _ => false,
    }
}

fn is_partitioned(what: &ItemKind, parts: &[PartBy]) -> bool
    ensures { result ≡ list_any (is_part what.now) parts.now }
{
    parts.iter().any(|part| is_part(what, part))
}

fn is_loose(query: &Query, what: &ItemKind) -> bool
    ensures { result ≡ is_loose query.now what.now }
{
    is_of_row(what) && !is_partitioned(what, query.parts.as_slice())
}

fn some_is_loose(query: &Query, items: &[Item]) -> bool
    ensures { result ≡ list_any (λ (i : Item). is_loose query.now i.what) items.now }
{
    items.iter().any(|item| is_loose(query, &item.what))
}

fn has_loose_item(query: &Query) -> bool
    ensures { result ≡ has_loose_item query.now }
{
    is_grouped(query) && some_is_loose(query, query.items.as_slice())
}

fn is_column(columns: &[Column], part: &PartBy) -> bool
    ensures { result ≡ is_column columns.now part.now }
{
    match part {
        PartBy::TbName => false,
        PartBy::Tag(name) => column_named(columns, name).is_some(),
    }
}

fn parts_by_column(columns: &[Column], parts: &[PartBy]) -> bool
    ensures { result ≡ list_any (is_column columns.now) parts.now }
{
    parts.iter().any(|part| is_column(columns, part))
}

fn needs_window(what: &ItemKind) -> bool
    ensures { result ≡ needs_window what.now }
{
    matches!(what, ItemKind::WStart | ItemKind::WEnd)
}

fn some_needs_window(items: &[Item]) -> bool
    ensures { result ≡ list_any (λ (i : Item). needs_window i.what) items.now }
{
    items.iter().any(|item| needs_window(&item.what))
}

fn lacks_window(query: &Query) -> bool
    ensures { result ≡ lacks_window query.now }
{
    !has_window(query) && some_needs_window(query.items.as_slice())
}

// Whether a kind is a type of whole numbers.
fn is_number(kind: Kind) -> bool
    ensures { result ≡ is_number kind }
{
    !matches!(kind, Kind::Bool | Kind::Time | Kind::Text(_))
}

// Whether an aggregate takes columns of a kind.
fn takes(func: Func, kind: Kind) -> bool
    ensures { result ≡ takes func kind }
{
    match func {
        Func::Sum | Func::Avg => is_number(kind),
        Func::Min | Func::Max | Func::Spread => is_number(kind) || is_time(kind),
        Func::Count | Func::First | Func::Last => true,
    }
}

fn is_misused(columns: &[Column], what: &ItemKind) -> bool
    ensures { result ≡ is_misused columns.now what.now }
{
    match what {
        ItemKind::Fun(func, name) => {
            !column_named(columns, name).is_some_and(|column| takes(*func, column.kind))
        }
        ItemKind::TbName
        | ItemKind::Col(_)
        | ItemKind::WStart
        | ItemKind::WEnd
        | ItemKind::CountAll => false,
    }
}

fn has_misuse(columns: &[Column], items: &[Item]) -> bool
    ensures { result ≡ list_any (λ (i : Item). is_misused columns.now i.what) items.now }
{
    items.iter().any(|item| is_misused(columns, &item.what))
}

// Whether the order is by another thing than the first column.
fn is_order_other(columns: &[Column], order: &OrderBy) -> bool
    ensures { result ≡ is_order_other columns.now order.now }
{
    match order {
        OrderBy::Plain => false,
        OrderBy::Asc(name) | OrderBy::Desc(name) => !is_first(columns, name),
    }
}

// Whether the order is by another thing than a window's start.
fn is_not_start(order: &OrderBy) -> bool
    ensures { result ≡ is_not_start order.now }
{
    match order {
        OrderBy::Plain => false,
        OrderBy::Asc(name) | OrderBy::Desc(name) => !is_window_start(name),
    }
}

// Whether the order isn't one of a query of its form: one of a window by its start, an aggregate without a window has
// none, and rows go by the first column.
fn has_bad_order(schema: &Schema, query: &Query) -> bool
    ensures { result ≡ has_bad_order schema.now query.now }
{
    (has_window(query) && is_not_start(&query.order))
        || (!has_window(query) && aggregates(query) && !is_plain(&query.order))
        || (!is_grouped(query) && is_order_other(schema.columns.as_slice(), &query.order))
}

/// Whether the select list of a query, its PARTITION BY or its ORDER BY doesn't go with the rest.
pub(crate) fn is_bad_selection(schema: &Schema, query: &Query) -> bool
    ensures { result ≡ is_bad_selection schema.now query.now }
{
    let columns = schema.columns.as_slice();
    let items = query.items.as_slice();
    has_bad_star(query)
        || has_idle_parts(query)
        || has_loose_item(query)
        || parts_by_column(columns, query.parts.as_slice())
        || lacks_window(query)
        || has_misuse(columns, items)
        || has_bad_order(schema, query)
}

// ---- windows

// Whether a duration, in milliseconds, is too long.
fn is_long(duration: u64) -> bool
    ensures { result ≡ is_long duration }
{
    LONGEST_DURATION < duration
}

// Whether an interval's durations, in milliseconds, are out of their bounds.
fn is_bad_interval(len: u64, offset: u64, slide: u64) -> bool
    ensures { result ≡ is_bad_interval len offset slide }
{
    len == 0
        || slide == 0
        || len < slide
        || WINDOWS_OF_A_ROW.saturating_mul(slide) < len
        || len <= offset
        || is_long(len)
        || is_long(offset)
        || is_long(slide)
}

// Whether a state's column is a tag or a timestamp.
fn is_bad_state(columns: &[Column], name: &Name) -> bool
    ensures { result ≡ is_bad_state columns.now name.now }
{
    match column_named(columns, name) {
        Some(column) => is_time(column.kind),
        None => true,
    }
}

fn is_tbname(part: &PartBy) -> bool
    ensures { result ≡ is_tbname part.now }
{
    matches!(part, PartBy::TbName)
}

fn by_table(parts: &[PartBy]) -> bool
    ensures { result ≡ list_any is_tbname parts.now }
{
    parts.iter().any(is_tbname)
}

/// Whether the window clause of a query is refused, over a table or else a supertable.
pub(crate) fn is_bad_window(of_table: bool, schema: &Schema, query: &Query) -> bool
    ensures { result ≡ is_bad_window of_table schema.now query.now query.now.window }
{
    let columns = schema.columns.as_slice();
    match &query.window {
        WindowDef::Whole => false,
        WindowDef::Interval { len, offset, slide } => is_bad_interval(*len, *offset, *slide),
        WindowDef::Session { column, tol } => is_long(*tol) || !is_first(columns, column),
        WindowDef::State { column } => {
            is_bad_state(columns, column) || (!of_table && !by_table(query.parts.as_slice()))
        }
    }
}
