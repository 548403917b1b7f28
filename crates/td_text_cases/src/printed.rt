//! Trees as the cases write them.
use td_cases::Out;
use td_layer::{Func, Name, Seq};
use td_model::{
    Cause, Column, Cond, Item, ItemKind, Kind, Lit, Op, OrderBy, PartBy, Query, Stmt, StreamDef,
    Trigger, WindowDef,
};

fn push_cause(out: &mut Out, cause: &Cause) {
    match cause {
        Cause::TooLong => out.push(b"TooLong"),
        Cause::Syntax { at } => {
            out.push(b"Syntax ");
            out.number(i128::from(*at));
        }
        Cause::NameTooLong => out.push(b"NameTooLong"),
        Cause::TypeNotBuilt => out.push(b"TypeNotBuilt"),
        Cause::OptionNotBuilt => out.push(b"OptionNotBuilt"),
        _ => out.push(b"a cause that no text has"),
    }
}

fn push_lit(out: &mut Out, lit: &Lit) {
    match lit {
        Lit::Null => out.push(b"null"),
        Lit::True => out.push(b"true"),
        Lit::False => out.push(b"false"),
        Lit::Now => out.push(b"now"),
        Lit::Num(n) => out.number(*n),
        Lit::Str(text) => {
            out.push(b"'");
            out.push(text.as_slice());
            out.push(b"'");
        }
    }
}

// What stands before an item of a list: nothing before the first.
fn push_comma(out: &mut Out, first: bool) {
    if !first {
        out.push(b", ");
    }
}

fn push_lits(out: &mut Out, lits: &[Lit]) {
    out.push(b" [");
    let mut first = true;
    for lit in lits {
        push_comma(out, first);
        push_lit(out, lit);
        first = false;
    }
    out.push(b"]");
}

fn push_names(out: &mut Out, names: &[Name]) {
    out.push(b" [");
    let mut first = true;
    for name in names {
        push_comma(out, first);
        out.push(name.as_slice());
        first = false;
    }
    out.push(b"]");
}

fn push_kind(out: &mut Out, kind: Kind) {
    match kind {
        Kind::Bool => out.push(b"bool"),
        Kind::I8 => out.push(b"i8"),
        Kind::I16 => out.push(b"i16"),
        Kind::I32 => out.push(b"i32"),
        Kind::I64 => out.push(b"i64"),
        Kind::U8 => out.push(b"u8"),
        Kind::U16 => out.push(b"u16"),
        Kind::U32 => out.push(b"u32"),
        Kind::U64 => out.push(b"u64"),
        Kind::Time => out.push(b"time"),
        Kind::Wide => out.push(b"wide"),
        Kind::Text(n) => {
            out.push(b"text(");
            out.number(i128::from(n));
            out.push(b")");
        }
    }
}

fn push_columns(out: &mut Out, columns: &[Column]) {
    out.push(b" [");
    let mut first = true;
    for column in columns {
        push_comma(out, first);
        out.push(column.name.as_slice());
        out.push(b" ");
        push_kind(out, column.kind);
        first = false;
    }
    out.push(b"]");
}

fn func_text(func: Func) -> &'static [u8] {
    match func {
        Func::Count => b"COUNT(",
        Func::Sum => b"SUM(",
        Func::Min => b"MIN(",
        Func::Max => b"MAX(",
        Func::Avg => b"AVG(",
        Func::First => b"FIRST(",
        Func::Last => b"LAST(",
        Func::Spread => b"SPREAD(",
    }
}

fn push_thing(out: &mut Out, thing: &ItemKind) {
    match thing {
        ItemKind::Col(name) => out.push(name.as_slice()),
        ItemKind::TbName => out.push(b"TBNAME"),
        ItemKind::WStart => out.push(b"_WSTART"),
        ItemKind::WEnd => out.push(b"_WEND"),
        ItemKind::CountAll => out.push(b"COUNT(*)"),
        ItemKind::Fun(func, name) => {
            out.push(func_text(*func));
            out.push(name.as_slice());
            out.push(b")");
        }
    }
}

fn push_items(out: &mut Out, items: &[Item]) {
    let mut first = true;
    for item in items {
        push_comma(out, first);
        push_thing(out, &item.what);
        if let Some(alias) = &item.alias {
            out.push(b" as ");
            out.push(alias.as_slice());
        }
        first = false;
    }
}

fn push_part(out: &mut Out, part: &PartBy) {
    match part {
        PartBy::TbName => out.push(b"TBNAME"),
        PartBy::Tag(name) => out.push(name.as_slice()),
    }
}

fn push_parts(out: &mut Out, parts: &[PartBy]) {
    let mut first = true;
    for part in parts {
        out.push(if first {
            b" by ".as_slice()
        } else {
            b", ".as_slice()
        });
        push_part(out, part);
        first = false;
    }
}

fn op_text(op: Op) -> &'static [u8] {
    match op {
        Op::Lt => b" < ",
        Op::Le => b" <= ",
        Op::Gt => b" > ",
        Op::Ge => b" >= ",
        Op::Eq => b" = ",
        Op::Ne => b" <> ",
        Op::IsNull => b" is ",
        Op::NotNull => b" is not ",
    }
}

fn push_conds(out: &mut Out, conds: &[Cond]) {
    for cond in conds {
        out.push(b" where ");
        push_part(out, &cond.of);
        out.push(op_text(cond.op));
        push_lit(out, &cond.lit);
    }
}

fn push_number(out: &mut Out, front: &[u8], n: i128) {
    out.push(front);
    out.number(n);
}

fn push_window(out: &mut Out, window: &WindowDef) {
    match window {
        WindowDef::Whole => {}
        WindowDef::Interval { len, offset, slide } => {
            push_number(out, b" interval ", i128::from(*len));
            push_number(out, b" ", i128::from(*offset));
            push_number(out, b" ", i128::from(*slide));
        }
        WindowDef::Session { column, tol } => {
            out.push(b" session ");
            out.push(column.as_slice());
            push_number(out, b" ", i128::from(*tol));
        }
        WindowDef::State { column } => {
            out.push(b" state ");
            out.push(column.as_slice());
        }
    }
}

fn push_order(out: &mut Out, order: &OrderBy) {
    match order {
        OrderBy::Plain => {}
        OrderBy::Asc(name) => {
            out.push(b" asc ");
            out.push(name.as_slice());
        }
        OrderBy::Desc(name) => {
            out.push(b" desc ");
            out.push(name.as_slice());
        }
    }
}

/// Appends a query. A part that is not given says nothing, and so does an OFFSET of 0.
pub(crate) fn push_query(out: &mut Out, query: &Query) {
    if query.star {
        out.push(b"*");
    }
    push_items(out, query.items.as_slice());
    out.push(b" from ");
    out.push(query.source.as_slice());
    push_conds(out, query.conds.as_slice());
    push_parts(out, query.parts.as_slice());
    push_window(out, &query.window);
    push_order(out, &query.order);
    if let Some(limit) = query.limit {
        push_number(out, b" limit ", limit);
    }
    if query.skip != 0 {
        push_number(out, b" skip ", query.skip);
    }
}

fn push_bit(out: &mut Out, front: &[u8], bit: bool) {
    out.push(front);
    out.push(if bit {
        b"true".as_slice()
    } else {
        b"false".as_slice()
    })
}

/// Appends a stream.
pub(crate) fn push_stream(out: &mut Out, def: &StreamDef) {
    out.push(b"stream ");
    out.push(def.name.as_slice());
    match def.trigger {
        Trigger::AtOnce => out.push(b" at_once"),
        Trigger::WindowClose => out.push(b" window_close"),
        Trigger::MaxDelay(delay) => push_number(out, b" max_delay ", i128::from(delay)),
    }
    push_number(out, b" ", i128::from(def.watermark));
    push_bit(out, b" expired ", def.ignore_expired);
    push_bit(out, b" history ", def.fill_history);
    out.push(b" ");
    out.push(def.target.as_slice());
    out.push(b": ");
    push_query(out, &def.query);
}

fn push_named(out: &mut Out, front: &[u8], name: &Name) {
    out.push(front);
    out.push(name.as_slice());
}

fn push_stable(out: &mut Out, name: &Name, columns: &[Column], tags: &Option<Seq<Column>>) {
    push_named(out, b"stable ", name);
    push_columns(out, columns);
    match tags {
        None => out.push(b" untagged"),
        Some(tags) => {
            out.push(b" tags");
            push_columns(out, tags.as_slice());
        }
    }
}

fn push_insert(out: &mut Out, table: &Name, columns: &Option<Seq<Name>>, rows: &[Seq<Lit>]) {
    push_named(out, b"insert ", table);
    match columns {
        None => out.push(b" all"),
        Some(columns) => push_names(out, columns.as_slice()),
    }
    for row in rows {
        push_lits(out, row.as_slice());
    }
}

fn push_write(out: &mut Out, tree: &Stmt) {
    match tree {
        Stmt::MakeStable {
            name,
            columns,
            tags,
        } => push_stable(out, name, columns.as_slice(), tags),
        Stmt::MakeTable { name, columns } => {
            push_named(out, b"table ", name);
            push_columns(out, columns.as_slice());
        }
        Stmt::MakeSub { name, stable, tags } => {
            push_named(out, b"sub ", name);
            push_named(out, b" of ", stable);
            push_lits(out, tags.as_slice());
        }
        Stmt::Insert {
            table,
            columns,
            rows,
        } => push_insert(out, table, columns, rows.as_slice()),
        Stmt::Delete {
            table,
            column,
            lo,
            hi,
        } => {
            push_named(out, b"delete ", table);
            push_named(out, b" ", column);
            out.push(b" ");
            push_lit(out, lo);
            out.push(b" ");
            push_lit(out, hi);
        }
        Stmt::MakeStream(def) => push_stream(out, def),
        Stmt::DropStream { name } => push_named(out, b"drop ", name),
        _ => out.push(b"no write"),
    }
}

/// Appends the printed form of a tree, or the cause of a text that has none.
pub(crate) fn push_stmt(out: &mut Out, tree: &Stmt) {
    match tree {
        Stmt::Wrong(cause) => push_cause(out, cause),
        Stmt::Select(query) => {
            out.push(b"select ");
            push_query(out, query);
        }
        Stmt::OpenCursor { cursor, query } => {
            push_named(out, b"open ", cursor);
            out.push(b": ");
            push_query(out, query);
        }
        Stmt::Fetch { cursor, rows } => {
            push_named(out, b"fetch ", cursor);
            push_number(out, b" ", *rows);
        }
        Stmt::CloseCursor { cursor } => push_named(out, b"close ", cursor),
        Stmt::Step { stream } => push_named(out, b"step ", stream),
        Stmt::Commit => out.push(b"commit"),
        Stmt::Merge => out.push(b"merge"),
        Stmt::Sweep => out.push(b"sweep"),
        Stmt::Trim => out.push(b"trim"),
        _ => push_write(out, tree),
    }
}
