//! The answer of a query with groups by a plain regrouping: each step goes over all rows, as the rules say it.
use crate::lines::push_cell;
use std::alloc::Global;
use std::cmp::Ordering;
use td_cases::{CaseFault, Out};
use td_fields::place_of;
use td_layer::{Cell, Func, Key, Name, NoMem, Row, Value};
use td_model::{ItemKind, Kind, OrderBy, PartBy, Plan, WindowDef};

// A row that is picked: the place of its table in the plan, and what it holds in the two columns after the timestamp.
#[derive(Clone, Copy)]
struct Line {
    ts: u64,
    table: u32,
    place: usize,
    second: Value,
    third: Value,
}

// A window of a group, which is named by the place of a table that belongs to it.
#[derive(Drop)]
struct Window {
    group: usize,
    start: i128,
    end: i128,
    lines: Vec<Line>,
}

// A row with the number of its window.
#[derive(Clone, Copy)]
struct Cut {
    window: usize,
    line: Line,
}

// ---- the rows that are picked

fn value_at(row: &Row, place: usize) -> Value {
    match row.values.get(place) {
        Some(value) => *value,
        None => Value::Null,
    }
}

fn line_of(place: usize, entry: &(Key, Row)) -> Line {
    Line {
        ts: entry.0.ts,
        table: entry.0.table,
        place,
        second: value_at(&entry.1, 0),
        third: value_at(&entry.1, 1),
    }
}

fn is_before(a: &Line, b: &Line) -> bool {
    a.ts < b.ts || (a.ts == b.ts && a.table < b.table)
}

fn put_line(lines: &mut Vec<Line>, line: Line) -> Result<(), NoMem> {
    let mut at = 0usize;
    for other in lines.as_slice() {
        if is_before(other, &line) {
            at = at.saturating_add(1);
        }
    }
    let at = at.min(lines.len());
    lines.insert(at, line)?;
    Ok(())
}

fn pick_table(
    plan: &Plan,
    rows: &[(Key, Row)],
    place: usize,
    number: u32,
    lines: &mut Vec<Line>,
) -> Result<(), NoMem> {
    for entry in rows {
        let ts = entry.0.ts;
        if entry.0.table == number && plan.lo <= ts && ts <= plan.hi {
            put_line(lines, line_of(place, entry))?;
        }
    }
    Ok(())
}

fn pick(alloc: Global, plan: &Plan, rows: &[(Key, Row)]) -> Result<Vec<Line>, NoMem> {
    let mut lines = Vec::new(alloc);
    let mut place = 0usize;
    for number in plan.tables.as_slice() {
        pick_table(plan, rows, place, *number, &mut lines)?;
        place = place.saturating_add(1);
    }
    Ok(lines)
}

// ---- groups

// NULL, then numbers, then texts.
fn cell_order(a: &Cell, b: &Cell) -> Ordering {
    match (a, b) {
        (Cell::Null, Cell::Null) => Ordering::Equal,
        (Cell::Null, _) => Ordering::Less,
        (_, Cell::Null) => Ordering::Greater,
        (Cell::Num(m), Cell::Num(n)) => m.cmp(n),
        (Cell::Num(_), _) => Ordering::Less,
        (_, Cell::Num(_)) => Ordering::Greater,
        (Cell::Str(m), Cell::Str(n)) => m.as_slice().cmp(n.as_slice()),
        _ => Ordering::Equal,
    }
}

fn part_order(a: &[Cell], b: &[Cell]) -> Ordering {
    for (left, right) in a.iter().zip(b) {
        let order = cell_order(left, right);
        if order != Ordering::Equal {
            return order;
        }
    }
    Ordering::Equal
}

fn part_at(plan: &Plan, place: usize) -> &[Cell] {
    match plan.parts.get(place) {
        Some(cells) => cells.as_slice(),
        None => &[],
    }
}

fn put_group(plan: &Plan, groups: &mut Vec<usize>, place: usize) -> Result<(), NoMem> {
    let mut at = 0usize;
    for group in groups.as_slice() {
        match part_order(part_at(plan, *group), part_at(plan, place)) {
            Ordering::Less => at = at.saturating_add(1),
            Ordering::Equal => return Ok(()),
            Ordering::Greater => {}
        }
    }
    let at = at.min(groups.len());
    groups.insert(at, place)?;
    Ok(())
}

fn is_whole(window: &WindowDef) -> bool {
    match window {
        WindowDef::Whole => true,
        WindowDef::Interval { .. } | WindowDef::Session { .. } | WindowDef::State { .. } => false,
    }
}

// The groups that hold a row; without PARTITION BY and window there is one in any case.
fn groups_of(alloc: Global, plan: &Plan, lines: &[Line]) -> Result<Vec<usize>, NoMem> {
    let mut groups = Vec::new(alloc);
    for line in lines {
        put_group(plan, &mut groups, line.place)?;
    }
    if groups.is_empty() && plan.query.parts.is_empty() && is_whole(&plan.query.window) {
        groups.push(0)?;
    }
    Ok(groups)
}

fn lines_of(alloc: Global, plan: &Plan, lines: &[Line], group: usize) -> Result<Vec<Line>, NoMem> {
    let mut all = Vec::new(alloc);
    for line in lines {
        if part_order(part_at(plan, line.place), part_at(plan, group)) == Ordering::Equal {
            all.push(*line)?;
        }
    }
    Ok(all)
}

// ---- windows

fn lines_between(
    alloc: Global,
    lines: &[Line],
    start: i128,
    end: i128,
) -> Result<Vec<Line>, NoMem> {
    let mut all = Vec::new(alloc);
    for line in lines {
        let ts = i128::from(line.ts);
        if start <= ts && ts < end {
            all.push(*line)?;
        }
    }
    Ok(all)
}

// Whether a timestamp is the offset and a multiple of the slide.
fn is_start(start: i128, offset: u64, slide: u64) -> bool {
    let slide = i128::from(slide);
    slide > 0 && start.saturating_sub(i128::from(offset)) % slide == 0
}

fn add_interval(
    alloc: Global,
    lines: &[Line],
    group: usize,
    start: i128,
    len: u64,
    windows: &mut Vec<Window>,
) -> Result<(), NoMem> {
    let end = start.saturating_add(i128::from(len));
    let lines = lines_between(alloc, lines, start, end)?;
    if !lines.is_empty() {
        windows.push(Window {
            group,
            start,
            end,
            lines,
        })?;
    }
    Ok(())
}

fn last_ts(lines: &[Line]) -> u64 {
    match lines.last() {
        Some(line) => line.ts,
        None => 0,
    }
}

// Tries each timestamp that may be the start of a window with a row.
fn add_intervals(
    alloc: Global,
    window: (u64, u64, u64),
    lines: &[Line],
    group: usize,
    windows: &mut Vec<Window>,
) -> Result<(), NoMem> {
    let (len, offset, slide) = window;
    let most = last_ts(lines).saturating_add(len).saturating_add(1);
    for turn in 0..most {
        let start = i128::from(turn) - i128::from(len);
        if is_start(start, offset, slide) {
            add_interval(alloc, lines, group, start, len, windows)?;
        }
    }
    Ok(())
}

fn first_ts(lines: &[Line]) -> u64 {
    match lines.first() {
        Some(line) => line.ts,
        None => 0,
    }
}

// Cuts between neighbours that are further apart than the tolerance.
fn session_cuts(alloc: Global, lines: &[Line], tol: u64) -> Result<Vec<Cut>, NoMem> {
    let mut cuts = Vec::new(alloc);
    let mut window = 0usize;
    let mut before = first_ts(lines);
    for line in lines {
        if line.ts.saturating_sub(before) > tol {
            window = window.saturating_add(1);
        }
        cuts.push(Cut {
            window,
            line: *line,
        })?;
        before = line.ts;
    }
    Ok(cuts)
}

fn held(line: &Line, place: Option<usize>) -> Value {
    match place {
        Some(0) => Value::Num(i128::from(line.ts)),
        Some(1) => line.second,
        Some(2) => line.third,
        _ => Value::Null,
    }
}

// Leaves out rows without a state, and cuts between neighbours with unequal ones.
fn state_cuts(alloc: Global, lines: &[Line], place: Option<usize>) -> Result<Vec<Cut>, NoMem> {
    let mut cuts = Vec::new(alloc);
    let mut window = 0usize;
    let mut before = Value::Null;
    for line in lines {
        let state = held(line, place);
        if state != Value::Null {
            if before != Value::Null && before != state {
                window = window.saturating_add(1);
            }
            cuts.push(Cut {
                window,
                line: *line,
            })?;
            before = state;
        }
    }
    Ok(cuts)
}

fn lines_in(alloc: Global, cuts: &[Cut], window: usize) -> Result<Vec<Line>, NoMem> {
    let mut all = Vec::new(alloc);
    for cut in cuts {
        if cut.window == window {
            all.push(cut.line)?;
        }
    }
    Ok(all)
}

fn add_cut(
    alloc: Global,
    cuts: &[Cut],
    group: usize,
    window: usize,
    windows: &mut Vec<Window>,
) -> Result<(), NoMem> {
    let lines = lines_in(alloc, cuts, window)?;
    if !lines.is_empty() {
        windows.push(Window {
            group,
            start: i128::from(first_ts(lines.as_slice())),
            end: i128::from(last_ts(lines.as_slice())),
            lines,
        })?;
    }
    Ok(())
}

fn add_cuts(
    alloc: Global,
    cuts: &[Cut],
    group: usize,
    windows: &mut Vec<Window>,
) -> Result<(), NoMem> {
    for window in 0..cuts.len() {
        add_cut(alloc, cuts, group, window, windows)?;
    }
    Ok(())
}

fn add_whole(
    alloc: Global,
    lines: &[Line],
    group: usize,
    windows: &mut Vec<Window>,
) -> Result<(), NoMem> {
    let lines = Vec::from_slice(alloc, lines)?;
    windows.push(Window {
        group,
        start: 0,
        end: 0,
        lines,
    })?;
    Ok(())
}

fn place_in(plan: &Plan, name: &Name) -> Option<usize> {
    place_of(plan.schema.columns.as_slice(), name)
}

fn add_windows(
    alloc: Global,
    plan: &Plan,
    lines: &[Line],
    group: usize,
    windows: &mut Vec<Window>,
) -> Result<(), NoMem> {
    match &plan.query.window {
        WindowDef::Whole => add_whole(alloc, lines, group, windows),
        WindowDef::Interval { len, offset, slide } => {
            add_intervals(alloc, (*len, *offset, *slide), lines, group, windows)
        }
        WindowDef::Session { tol, .. } => {
            let cuts = session_cuts(alloc, lines, *tol)?;
            add_cuts(alloc, cuts.as_slice(), group, windows)
        }
        WindowDef::State { column } => {
            let cuts = state_cuts(alloc, lines, place_in(plan, column))?;
            add_cuts(alloc, cuts.as_slice(), group, windows)
        }
    }
}

fn windows_of(alloc: Global, plan: &Plan, lines: &[Line]) -> Result<Vec<Window>, NoMem> {
    let groups = groups_of(alloc, plan, lines)?;
    let mut windows = Vec::new(alloc);
    for group in groups.as_slice() {
        let lines = lines_of(alloc, plan, lines, *group)?;
        add_windows(alloc, plan, lines.as_slice(), *group, &mut windows)?;
    }
    Ok(windows)
}

// ---- the order of windows

fn start_of(windows: &[Window], index: usize) -> i128 {
    match windows.get(index) {
        Some(window) => window.start,
        None => 0,
    }
}

// Puts an index behind those of windows that start no later.
fn put_by_start(windows: &[Window], order: &mut Vec<usize>, index: usize) -> Result<(), NoMem> {
    let mut at = 0usize;
    for other in order.as_slice() {
        if start_of(windows, *other) <= start_of(windows, index) {
            at = at.saturating_add(1);
        }
    }
    let at = at.min(order.len());
    order.insert(at, index)?;
    Ok(())
}

fn by_start(alloc: Global, windows: &[Window]) -> Result<Vec<usize>, NoMem> {
    let mut order = Vec::new(alloc);
    for index in 0..windows.len() {
        put_by_start(windows, &mut order, index)?;
    }
    Ok(order)
}

fn as_they_stand(alloc: Global, windows: &[Window]) -> Result<Vec<usize>, NoMem> {
    let mut order = Vec::new(alloc);
    for index in 0..windows.len() {
        order.push(index)?;
    }
    Ok(order)
}

fn order_of(alloc: Global, plan: &Plan, windows: &[Window]) -> Result<Vec<usize>, NoMem> {
    match &plan.query.order {
        OrderBy::Plain => as_they_stand(alloc, windows),
        OrderBy::Asc(_) => by_start(alloc, windows),
        OrderBy::Desc(_) => {
            let mut order = by_start(alloc, windows)?;
            order.reverse();
            Ok(order)
        }
    }
}

// ---- cells

// The values of a column that aren't NULL.
fn values_in(alloc: Global, lines: &[Line], place: Option<usize>) -> Result<Vec<i128>, NoMem> {
    let mut values = Vec::new(alloc);
    for line in lines {
        if let Value::Num(n) = held(line, place) {
            values.push(n)?;
        }
    }
    Ok(values)
}

fn sum_of(values: &[i128]) -> i128 {
    let mut sum = 0i128;
    for value in values {
        sum = sum.saturating_add(*value);
    }
    sum
}

fn least(values: &[i128]) -> i128 {
    let mut found = i128::MAX;
    for value in values {
        if *value < found {
            found = *value;
        }
    }
    found
}

fn greatest(values: &[i128]) -> i128 {
    let mut found = i128::MIN;
    for value in values {
        if *value > found {
            found = *value;
        }
    }
    found
}

fn push_end(out: &mut Out, value: Option<&i128>, is_truth: bool) {
    match value {
        None => out.push(b"NULL"),
        Some(1) if is_truth => out.push(b"true"),
        Some(_) if is_truth => out.push(b"false"),
        Some(n) => out.number(*n),
    }
}

fn push_average(out: &mut Out, values: &[i128]) {
    out.number(sum_of(values));
    out.push(b"/");
    out.number(values.len() as i128);
}

fn push_aggregate(out: &mut Out, func: Func, values: &[i128], is_truth: bool) {
    match func {
        Func::Count => out.number(values.len() as i128),
        _ if values.is_empty() => out.push(b"NULL"),
        Func::Sum => out.number(sum_of(values)),
        Func::Min => out.number(least(values)),
        Func::Max => out.number(greatest(values)),
        Func::Spread => out.number(greatest(values).saturating_sub(least(values))),
        Func::Avg => push_average(out, values),
        Func::First => push_end(out, values.first(), is_truth),
        Func::Last => push_end(out, values.last(), is_truth),
    }
}

fn is_truth(plan: &Plan, place: Option<usize>) -> bool {
    match place {
        None => false,
        Some(place) => match plan.schema.columns.get(place) {
            Some(column) => column.kind == Kind::Bool,
            None => false,
        },
    }
}

fn is_part(part: &PartBy, item: &ItemKind) -> bool {
    match (part, item) {
        (PartBy::TbName, ItemKind::TbName) => true,
        (PartBy::Tag(tag), ItemKind::Col(name)) => tag.as_slice() == name.as_slice(),
        _ => false,
    }
}

fn push_part(out: &mut Out, plan: &Plan, group: usize, item: &ItemKind) {
    for (part, cell) in plan.query.parts.as_slice().iter().zip(part_at(plan, group)) {
        if is_part(part, item) {
            push_cell(out, cell);
            return;
        }
    }
    out.push(b"NULL");
}

fn push_item(
    out: &mut Out,
    alloc: Global,
    plan: &Plan,
    window: &Window,
    item: &ItemKind,
) -> Result<(), NoMem> {
    match item {
        ItemKind::WStart => out.number(window.start),
        ItemKind::WEnd => out.number(window.end),
        ItemKind::CountAll => out.number(window.lines.len() as i128),
        ItemKind::Fun(func, name) => {
            let place = place_in(plan, name);
            let values = values_in(alloc, window.lines.as_slice(), place)?;
            push_aggregate(out, *func, values.as_slice(), is_truth(plan, place));
        }
        ItemKind::TbName | ItemKind::Col(_) => push_part(out, plan, window.group, item),
    }
    Ok(())
}

fn push_window(out: &mut Out, alloc: Global, plan: &Plan, window: &Window) -> Result<(), NoMem> {
    let mut sign: &[u8] = b"";
    for item in plan.query.items.as_slice() {
        out.push(sign);
        push_item(out, alloc, plan, window, &item.what)?;
        sign = b",";
    }
    out.push(b"\n");
    Ok(())
}

// Adds the windows from a place on in their order, at most so many, and then how many these are.
fn push_windows(
    out: &mut Out,
    alloc: Global,
    plan: &Plan,
    windows: &[Window],
    skip: u64,
    count: u64,
) -> Result<(), NoMem> {
    let order = order_of(alloc, plan, windows)?;
    let mut at = 0u64;
    let mut shown = 0u64;
    for index in order.as_slice() {
        if at >= skip
            && shown < count
            && let Some(window) = windows.get(*index)
        {
            push_window(out, alloc, plan, window)?;
            shown = shown.saturating_add(1);
        }
        at = at.saturating_add(1);
    }
    out.push(b"rows ");
    out.number(i128::from(shown));
    out.push(b"\n");
    Ok(())
}

/// Adds a line for each row of a part of the answer, and then how many there are.
pub(crate) fn push_plain(
    out: &mut Out,
    alloc: Global,
    plan: &Plan,
    rows: &[(Key, Row)],
    shown: (u64, u64),
) -> Result<(), CaseFault> {
    let (skip, count) = shown;
    let lines = pick(alloc, plan, rows)?;
    let windows = windows_of(alloc, plan, lines.as_slice())?;
    push_windows(out, alloc, plan, windows.as_slice(), skip, count)?;
    Ok(())
}
