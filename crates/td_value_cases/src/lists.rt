//! Lists, rows and cells, and what is read and printed in the cases of other kinds too.
use std::alloc::Global;
use td_cases::{CaseFault, Out};
use td_layer::{Birth, Cell, Copied, Name, Roomy, Row, Seq, Value};

/// A whole number of a case.
pub(crate) fn whole(text: &str) -> Result<i128, CaseFault> {
    text.parse::<i128>().map_err(|_| CaseFault::Unread)
}

/// A number below 2^64 of a case.
pub(crate) fn number(text: &str) -> Result<u64, CaseFault> {
    text.parse::<u64>().map_err(|_| CaseFault::Unread)
}

/// A number below 2^32 of a case.
pub(crate) fn small(text: &str) -> Result<u32, CaseFault> {
    text.parse::<u32>().map_err(|_| CaseFault::Unread)
}

/// A value of a case: `NULL` or a number.
pub(crate) fn value_of(text: &str) -> Result<Value, CaseFault> {
    if text == "NULL" {
        return Ok(Value::Null);
    }
    Ok(Value::Num(whole(text)?))
}

/// A cell of a case: `NULL`, `true`, `false`, a number, a quotient `SUM/COUNT`, or a text behind a quote that nothing
/// closes.
pub(crate) fn cell_of(alloc: Global, text: &str) -> Result<Cell, CaseFault> {
    if let Some(content) = text.strip_prefix('\'') {
        return Ok(Cell::Str(Seq::of_bytes(alloc, content.as_bytes())?));
    }
    if let Some((sum, count)) = text.split_once('/') {
        return Ok(Cell::Frac {
            sum: whole(sum)?,
            count: number(count)?,
        });
    }
    match text {
        "NULL" => Ok(Cell::Null),
        "true" => Ok(Cell::Truth(true)),
        "false" => Ok(Cell::Truth(false)),
        _ => Ok(Cell::Num(whole(text)?)),
    }
}

/// Adds a cell as the cases write it.
pub(crate) fn push_cell(out: &mut Out, cell: &Cell) {
    match cell {
        Cell::Null => out.push(b"NULL"),
        Cell::Truth(true) => out.push(b"true"),
        Cell::Truth(false) => out.push(b"false"),
        Cell::Num(n) => out.number(*n),
        Cell::Frac { sum, count } => {
            out.number(*sum);
            out.push(b"/");
            out.number(i128::from(*count));
        }
        Cell::Str(text) => {
            out.push(b"'");
            out.push(text.as_slice());
        }
    }
}

/// `list TEXT`: what a list of the text's bytes is after `s` is pushed and `!` added, a `-` is put before all and a
/// `+` in its place; what is popped then, how many are left, and what stands at the places 1 and 20.
pub(crate) fn push_list(out: &mut Out, alloc: Global, text: &str) -> Result<(), CaseFault> {
    let mut list = Seq::of_bytes(alloc, text.as_bytes())?;
    let shown = push_changed(out, &mut list);
    drop(list);
    end(alloc);
    shown
}

fn push_changed(out: &mut Out, list: &mut Name) -> Result<(), CaseFault> {
    change(list)?;
    push_copy(out, list)?;
    push_byte(out, list.pop());
    out.push(b" ");
    out.number(list.len() as i128);
    push_byte(out, list.get(1).copied());
    push_byte(out, list.get(20).copied());
    Ok(())
}

fn change(list: &mut Name) -> Result<(), CaseFault> {
    if list.push(b's').is_err() {
        return Err(CaseFault::NoMemory);
    }
    list.add(b'!')?;
    list.insert(0, b'-')?;
    if !list.is_empty() {
        list.set(0, b'+');
    }
    Ok(())
}

fn push_copy(out: &mut Out, list: &Name) -> Result<(), CaseFault> {
    let copy = list.copy()?;
    out.push(copy.as_slice());
    drop(copy);
    Ok(())
}

fn push_byte(out: &mut Out, byte: Option<u8>) {
    match byte {
        Some(byte) => out.push(&[b' ', byte]),
        None => out.push(b" none"),
    }
}

// Ends a list without an item.
fn end(alloc: Global) {
    let empty: Name = Seq::new(alloc);
    empty.done();
}

/// `roomy N N ..`: the numbers as a list with room for all of them keeps them, and then as they are taken off.
pub(crate) fn push_roomy(out: &mut Out, alloc: Global, text: &str) -> Result<(), CaseFault> {
    let mut list = Roomy::new(alloc);
    match fill(&mut list, text) {
        Ok(()) => {
            push_kept(out, list.as_slice());
            push_taken(out, list, text.len());
            Ok(())
        }
        Err(fault) => {
            drop(list);
            Err(fault)
        }
    }
}

fn fill(list: &mut Roomy<u64>, text: &str) -> Result<(), CaseFault> {
    list.reserve(text.len())?;
    for word in text.split(' ') {
        if list.push(number(word)?).is_err() {
            return Err(CaseFault::NoMemory);
        }
    }
    Ok(())
}

fn push_kept(out: &mut Out, numbers: &[u64]) {
    for n in numbers {
        out.number(i128::from(*n));
        out.push(b" ");
    }
    out.push(b"off:");
}

// Takes so many numbers off, or as many as there are.
fn push_taken(out: &mut Out, mut list: Roomy<u64>, most: usize) {
    for _ in 0..most {
        let Some(n) = list.pop() else {
            list.done();
            return;
        };
        out.push(b" ");
        out.number(i128::from(n));
    }
    drop(list);
}

/// `cells CELL,CELL ..`: copies of cells.
pub(crate) fn push_copies(out: &mut Out, alloc: Global, text: &str) -> Result<(), CaseFault> {
    let mut cells = Seq::new(alloc);
    let shown = push_copies_of(out, alloc, &mut cells, text);
    drop(cells);
    shown
}

fn push_copies_of(
    out: &mut Out,
    alloc: Global,
    cells: &mut Seq<Cell>,
    text: &str,
) -> Result<(), CaseFault> {
    for word in text.split(',') {
        cells.add(cell_of(alloc, word)?)?;
    }
    let copies = cells.copy()?;
    for cell in copies.as_slice() {
        push_cell(out, cell);
        out.push(b";");
    }
    drop(copies);
    Ok(())
}

/// `row BORN VALUE VALUE ..`: a copy of a row.
pub(crate) fn push_row(out: &mut Out, alloc: Global, text: &str) -> Result<(), CaseFault> {
    let row = row_of(alloc, text)?;
    let copied = row.copy();
    drop(row);
    let copy = copied?;
    out.push(b"born ");
    out.number(i128::from(copy.birth.born));
    push_values(out, copy.values.as_slice());
    drop(copy);
    Ok(())
}

fn push_values(out: &mut Out, values: &[Value]) {
    for value in values {
        out.push(b" ");
        match value {
            Value::Null => out.push(b"NULL"),
            Value::Num(n) => out.number(*n),
        }
    }
}

fn row_of(alloc: Global, text: &str) -> Result<Row, CaseFault> {
    let mut words = text.split(' ');
    let born = number(words.next().unwrap_or(""))?;
    let mut values = Vec::new(alloc);
    for word in words {
        values.push(value_of(word)?)?;
    }
    Ok(Row {
        birth: Birth { born },
        values: Seq::from_vec(alloc, values),
    })
}
