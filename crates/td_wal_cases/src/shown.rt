//! Items of a log as an answer shows them.
use td_cases::Out;
use td_layer::Cell;
use td_model::{WinKey, WinRow};
use td_wal::{LogBody, LogItem};

fn push_cell(out: &mut Out, cell: &Cell) {
    match cell {
        Cell::Null => out.push(b"NULL"),
        Cell::Truth(true) => out.push(b"true"),
        Cell::Truth(false) => out.push(b"false"),
        Cell::Num(n) => out.number(*n),
        Cell::Frac { sum, count } => {
            out.number(*sum);
            out.push(b"/");
            out.number(i128::from(*count));
        }
        Cell::Str(text) => {
            out.push(b"'");
            out.push(text.as_slice());
            out.push(b"'");
        }
    }
}

fn push_cells(out: &mut Out, cells: &[Cell]) {
    out.push(b"(");
    for cell in cells {
        push_cell(out, cell);
        out.push(b",");
    }
    out.push(b")");
}

fn push_key(out: &mut Out, key: &WinKey) {
    push_cells(out, key.part.as_slice());
    out.push(b"@");
    out.number(i128::from(key.start));
}

fn push_row(out: &mut Out, row: &WinRow) {
    push_key(out, &row.key);
    out.push(b"..");
    out.number(i128::from(row.end));
    push_cells(out, row.cells.as_slice());
}

// A step: its stream, the version up to which it goes, its moment, each window removed and each row added.
fn push_body(out: &mut Out, body: &LogBody) {
    match body {
        LogBody::Text(text) => out.push(text.as_slice()),
        LogBody::Step {
            stream,
            upto,
            moment,
            delta,
        } => {
            out.push(b"step ");
            out.number(i128::from(*stream));
            out.push(b" ");
            out.number(i128::from(*upto));
            out.push(b" ");
            out.number(i128::from(*moment));
            for key in delta.removed.as_slice() {
                out.push(b" -");
                push_key(out, key);
            }
            for row in delta.added.as_slice() {
                out.push(b" +");
                push_row(out, row);
            }
        }
    }
}

/// Adds an item: its version, its session and ordinal, its moment, and its body.
pub(crate) fn push_item(out: &mut Out, item: &LogItem) {
    out.number(i128::from(item.version));
    out.push(b" ");
    out.number(i128::from(item.session));
    out.push(b".");
    out.number(i128::from(item.ordinal));
    out.push(b" ");
    out.number(i128::from(item.moment));
    out.push(b" ");
    push_body(out, &item.body);
    out.push(b"|");
}

/// Adds items.
pub(crate) fn push_items(out: &mut Out, items: &[LogItem]) {
    for item in items {
        push_item(out, item);
    }
}
