//! Queries, word by word.
use crate::player::number;
use std::alloc::Global;
use td_cases::CaseFault;
use td_layer::{Func, Name, NoMem, Seq};
use td_model::{Item, ItemKind, OrderBy, PartBy, WindowDef};

fn name_of(alloc: Global, word: &str) -> Result<Name, NoMem> {
    let name = Seq::of_bytes(alloc, word.as_bytes())?;
    Ok(name)
}

fn func_of(word: &str) -> Option<Func> {
    match word {
        "count" => Some(Func::Count),
        "sum" => Some(Func::Sum),
        "min" => Some(Func::Min),
        "max" => Some(Func::Max),
        "avg" => Some(Func::Avg),
        "first" => Some(Func::First),
        "last" => Some(Func::Last),
        "spread" => Some(Func::Spread),
        _ => None,
    }
}

// `_wstart`, `_wend`, `tbname`, `count(*)`, an aggregate and a colon before a name, or a name.
fn kind_of(alloc: Global, word: &str) -> Result<ItemKind, CaseFault> {
    match word {
        "_wstart" => return Ok(ItemKind::WStart),
        "_wend" => return Ok(ItemKind::WEnd),
        "tbname" => return Ok(ItemKind::TbName),
        "count(*)" => return Ok(ItemKind::CountAll),
        _ => {}
    }
    let (func, column) = word.split_once(':').unwrap_or(("", word));
    let name = name_of(alloc, column)?;
    match func_of(func) {
        Some(func) => Ok(ItemKind::Fun(func, name)),
        None => Ok(ItemKind::Col(name)),
    }
}

/// Items with commas between them.
pub(crate) fn items_of(alloc: Global, text: &str) -> Result<Seq<Item>, CaseFault> {
    let mut items = Seq::new(alloc);
    for word in text.split(',') {
        let what = kind_of(alloc, word)?;
        items.add(Item { what, alias: None })?;
    }
    Ok(items)
}

fn part_of(alloc: Global, word: &str) -> Result<PartBy, NoMem> {
    if word == "tbname" {
        return Ok(PartBy::TbName);
    }
    let name = name_of(alloc, word)?;
    Ok(PartBy::Tag(name))
}

/// PARTITION BY items with commas between them, or `-` for none.
pub(crate) fn parts_of(alloc: Global, text: &str) -> Result<Seq<PartBy>, CaseFault> {
    let mut parts = Seq::new(alloc);
    if text != "-" {
        for word in text.split(',') {
            let part = part_of(alloc, word)?;
            parts.add(part)?;
        }
    }
    Ok(parts)
}

fn interval_of(text: &str) -> Result<WindowDef, CaseFault> {
    let (len, rest) = text.split_once(':').unwrap_or((text, ""));
    let (offset, slide) = rest.split_once(':').unwrap_or((rest, ""));
    let len = number(len)?;
    let offset = number(offset)?;
    let slide = number(slide)?;
    Ok(WindowDef::Interval { len, offset, slide })
}

/// `interval:LENGTH:OFFSET:SLIDE`, `session:TOLERANCE` over the first column, `state:COLUMN`, or `-` for none.
pub(crate) fn window_of(alloc: Global, text: &str) -> Result<WindowDef, CaseFault> {
    let (kind, rest) = text.split_once(':').unwrap_or((text, ""));
    match kind {
        "interval" => {
            let window = interval_of(rest)?;
            Ok(window)
        }
        "session" => {
            let column = name_of(alloc, "ts")?;
            let tol = number(rest)?;
            Ok(WindowDef::Session { column, tol })
        }
        "state" => {
            let column = name_of(alloc, rest)?;
            Ok(WindowDef::State { column })
        }
        "-" => Ok(WindowDef::Whole),
        _ => Err(CaseFault::Unread),
    }
}

/// `asc` or `desc`, or `-` for none.
pub(crate) fn order_of(alloc: Global, text: &str) -> Result<OrderBy, CaseFault> {
    let name = name_of(alloc, "ts")?;
    match text {
        "asc" => Ok(OrderBy::Asc(name)),
        "desc" => Ok(OrderBy::Desc(name)),
        "-" => Ok(OrderBy::Plain),
        _ => Err(CaseFault::Unread),
    }
}

/// Two numbers with a sign between them.
pub(crate) fn pair_of(text: &str, sign: &str) -> Result<(u64, u64), CaseFault> {
    let (first, second) = text.split_once(sign).unwrap_or((text, ""));
    let first = number(first)?;
    let second = number(second)?;
    Ok((first, second))
}
