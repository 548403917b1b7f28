//! What a head says, as a line shows it.
use td_cases::Out;
use td_layer::Cell;
use td_manifest::{Head, HeadSet, HeadStable, HeadStream, HeadTable};
use td_model::{Column, WinRow};

/// Adds what a head says.
pub(crate) fn push_head(out: &mut Out, head: &Head) {
    push_number(out, b"version ", head.version);
    push_number(out, b" moment ", head.moment);
    push_number(out, b" first log ", head.first_log);
    push_number(out, b" edge ", u64::from(head.edge));
    for stable in head.stables.as_slice() {
        push_stable(out, stable);
    }
    for table in head.tables.as_slice() {
        push_table(out, table);
    }
    for set in head.sets.as_slice() {
        push_set(out, set);
    }
    push_number(out, b"; next stream ", u64::from(head.next_stream));
    for stream in head.streams.as_slice() {
        push_stream(out, stream);
    }
}

fn push_number(out: &mut Out, word: &[u8], number: u64) {
    out.push(word);
    out.number(i128::from(number));
}

// A number behind a word, or `none`.
fn push_maybe(out: &mut Out, word: &[u8], number: Option<u64>) {
    match number {
        None => {
            out.push(word);
            out.push(b"none");
        }
        Some(number) => push_number(out, word, number),
    }
}

fn push_columns(out: &mut Out, columns: &[Column]) {
    out.push(b" (");
    for column in columns {
        out.push(b" ");
        out.push(column.name.as_slice());
        push_number(out, b" ", u64::from(td_cols::code(column.kind)));
    }
    out.push(b" )");
}

fn push_stable(out: &mut Out, stable: &HeadStable) {
    out.push(b"; supertable ");
    out.push(stable.name.as_slice());
    push_columns(out, stable.schema.columns.as_slice());
    push_columns(out, stable.schema.tags.as_slice());
    push_maybe(out, b" latest ", stable.latest);
}

fn push_table(out: &mut Out, table: &HeadTable) {
    match table {
        HeadTable::Plain {
            name,
            columns,
            latest,
        } => {
            out.push(b"; table ");
            out.push(name.as_slice());
            push_columns(out, columns.as_slice());
            push_maybe(out, b" latest ", *latest);
        }
        HeadTable::Sub { name, stable, tags } => {
            out.push(b"; subtable ");
            out.push(name.as_slice());
            push_number(out, b" of ", u64::from(*stable));
            push_cells(out, tags.as_slice());
        }
    }
}

fn push_set(out: &mut Out, set: &HeadSet) {
    push_number(out, b"; files of ", u64::from(set.range));
    push_maybe(out, b" data ", set.main);
    out.push(b" stt");
    for file in set.stt.as_slice() {
        push_number(out, b" ", *file);
    }
}

fn push_stream(out: &mut Out, stream: &HeadStream) {
    push_number(out, b"; stream ", u64::from(stream.number));
    push_number(out, b" made ", stream.made);
    out.push(b" '");
    out.push(stream.text.as_slice());
    push_number(out, b"' upto ", stream.upto);
    push_number(out, b" moment ", stream.moment);
    for row in stream.rows.as_slice() {
        push_row(out, row);
    }
}

fn push_row(out: &mut Out, row: &WinRow) {
    out.push(b" row");
    push_cells(out, row.key.part.as_slice());
    out.push(b" from ");
    out.number(i128::from(row.key.start));
    out.push(b" to ");
    out.number(i128::from(row.end));
    push_cells(out, row.cells.as_slice());
}

fn push_cells(out: &mut Out, cells: &[Cell]) {
    out.push(b" (");
    for cell in cells {
        out.push(b" ");
        push_cell(out, cell);
    }
    out.push(b" )");
}

fn push_cell(out: &mut Out, cell: &Cell) {
    match cell {
        Cell::Null => out.push(b"NULL"),
        Cell::Truth(true) => out.push(b"true"),
        Cell::Truth(false) => out.push(b"false"),
        Cell::Num(n) => out.number(*n),
        Cell::Frac { sum, count } => {
            out.number(*sum);
            push_number(out, b"/", *count);
        }
        Cell::Str(text) => {
            out.push(b"'");
            out.push(text.as_slice());
            out.push(b"'");
        }
    }
}
