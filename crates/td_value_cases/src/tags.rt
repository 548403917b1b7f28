//! Indexes of many subtables.
ghost use Rattle.std.specs.Prelude.{◌≡◌, []};

use crate::lists::cell_of;
use std::alloc::Global;
use td_cases::{CaseFault, Out};
use td_layer::{Cell, NoMem, Seq};
use td_model::Op;
use td_tagidx::TagIndex;

// The tags of the subtables of an index.
#[derive(Clone, Copy)]
enum Tags {
    // a fifth is NULL, a fifth `true`, and a fifth each 2, 3 and 4
    Fifths,
    // a third each is the empty text, `a` and `ab`
    Texts,
    // the subtable's own number
    Own,
}

fn fifth_of(table: u32) -> Cell {
    match table % 5 {
        0 => Cell::Null,
        1 => Cell::Truth(true),
        k => Cell::Num(i128::from(k)),
    }
}

fn text(alloc: Global, bytes: &[u8]) -> Result<Cell, NoMem> {
    Ok(Cell::Str(Seq::of_bytes(alloc, bytes)?))
}

fn tag_of(alloc: Global, tags: Tags, table: u32) -> Result<Cell, NoMem> {
    match tags {
        Tags::Fifths => Ok(fifth_of(table)),
        Tags::Own => Ok(Cell::Num(i128::from(table))),
        Tags::Texts => match table % 3 {
            0 => text(alloc, b""),
            1 => text(alloc, b"a"),
            _ => text(alloc, b"ab"),
        },
    }
}

// An index of the subtables from 1 to below `end`, each of one tag.
fn filled(alloc: Global, tags: Tags, end: u32) -> Result<TagIndex, NoMem> {
    let mut index = TagIndex::empty(alloc);
    match fill(&mut index, alloc, tags, end) {
        Ok(()) => Ok(index),
        Err(NoMem) => {
            drop(index);
            Err(NoMem)
        }
    }
}

fn fill(index: &mut TagIndex, alloc: Global, tags: Tags, end: u32) -> Result<(), NoMem>
    requires { index.old.subtables ≡ [] }
{
    for table in 1..end {
        let tags = [tag_of(alloc, tags, table)?];
        let change = index.prepare(table, &tags)?;
        index.add(change);
    }
    Ok(())
}

fn op_of(word: &str) -> Result<Op, CaseFault> {
    let op = match word {
        "<" => Op::Lt,
        "<=" => Op::Le,
        ">" => Op::Gt,
        ">=" => Op::Ge,
        "=" => Op::Eq,
        "<>" => Op::Ne,
        "is" => Op::IsNull,
        "is_not" => Op::NotNull,
        _ => return Err(CaseFault::Unread),
    };
    Ok(op)
}

/// `tags fifths|COMPARISON|COMPARISON ..` over 10,000 subtables of which a fifth each has the tag NULL, `true`, 2, 3
/// and 4, from number 5 and number 1 on; or `tags texts|..` over 300 of which a third each has the empty text, `a` and
/// `ab`, from number 3 and number 1 on. A comparison is the place of a tag, a comparison and a cell: it shows how many
/// subtables pass, and the first two of them.
pub(crate) fn push_found(out: &mut Out, alloc: Global, text: &str) -> Result<(), CaseFault> {
    let mut words = text.split('|');
    let (tags, end) = match words.next() {
        Some("fifths") => (Tags::Fifths, 10_001),
        Some("texts") => (Tags::Texts, 301),
        _ => return Err(CaseFault::Unread),
    };
    let index = filled(alloc, tags, end)?;
    let shown = push_comparisons(out, alloc, &index, text);
    drop(index);
    shown
}

fn push_comparisons(
    out: &mut Out,
    alloc: Global,
    index: &TagIndex,
    text: &str,
) -> Result<(), CaseFault> {
    for word in text.split('|').skip(1) {
        push_comparison(out, alloc, index, word)?;
    }
    Ok(())
}

fn push_comparison(
    out: &mut Out,
    alloc: Global,
    index: &TagIndex,
    text: &str,
) -> Result<(), CaseFault> {
    let mut words = text.split(' ');
    let place = words.next().unwrap_or("");
    let place = place.parse::<usize>().map_err(|_| CaseFault::Unread)?;
    let op = op_of(words.next().unwrap_or(""))?;
    let cell = cell_of(alloc, words.next().unwrap_or("NULL"))?;
    let found = index.find(place, op, &cell);
    drop(cell);
    let numbers = found?;
    out.number(numbers.len() as i128);
    for number in numbers.as_slice().iter().take(2) {
        out.push(b" ");
        out.number(i128::from(*number));
    }
    out.push(b"|");
    Ok(())
}

/// `each`: 10,000 subtables, each with its own number as its tag: each number that `=` does not find alone. That takes
/// no time to speak of, since no answer looks at each subtable.
pub(crate) fn push_each(out: &mut Out, alloc: Global, text: &str) -> Result<(), CaseFault> {
    let index = filled(alloc, Tags::Own, 10_001)?;
    out.push(b"not found alone:");
    out.push(text.as_bytes());
    let shown = push_not_alone(out, &index);
    drop(index);
    shown
}

fn push_not_alone(out: &mut Out, index: &TagIndex) -> Result<(), CaseFault> {
    for table in 1..10_001_u32 {
        let numbers = index.find(0, Op::Eq, &Cell::Num(i128::from(table)))?;
        if numbers.as_slice() != [table].as_slice() {
            out.push(b" ");
            out.number(i128::from(table));
        }
    }
    Ok(())
}
