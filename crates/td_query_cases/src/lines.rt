//! Lines that are played on tables and rows.
ghost use Rattle.std.specs.Prelude.{◌≡◌, ◌<◌};

use crate::asks::pair_of;
use crate::plans::{has_bounds, plan_of, words_of};
use crate::player::{Player, put_row};
use crate::random::push_random;
use crate::stored::Stored;
use std::alloc::Global;
use std::sync::ledger::{Blank, Ledger};
use td_cases::{CaseFault, Out};
use td_layer::{Cell, ScanFault, Seq, Steps};
use td_model::Plan;
use td_query::answer;

/// Plays lines, one after another, without tables and rows at first: what they answer.
pub(crate) fn play_all<L: Ledger>(
    alloc: Global,
    lines: &[String],
    blank: Blank,
) -> Result<Seq<u8>, CaseFault>
    requires name { blank.name ≡ L.name }
    requires parts { blank.parts ≡ L.parts }
    requires some { 0 < blank.parts }
{
    let mut out = Out::new(alloc);
    let mut steps: Steps<L> = Steps::new(blank);
    play_lines(&mut out, alloc, lines, &mut steps)?;
    Ok(out.text()?)
}

fn play_lines<L: Ledger>(
    out: &mut Out,
    alloc: Global,
    lines: &[String],
    steps: &mut Steps<L>,
) -> Result<(), CaseFault> {
    let mut player = Player::new(alloc);
    let mut stored = Stored::new(alloc);
    for line in lines {
        play(out, alloc, &mut player, &mut stored, line.as_str(), steps)?;
    }
    Ok(())
}

// Plays a line, and adds what it answers. A line that is empty or begins with `#` is shown as it stands, and one of
// another form as `?`.
fn play<L: Ledger>(
    out: &mut Out,
    alloc: Global,
    player: &mut Player,
    stored: &mut Stored,
    line: &str,
    steps: &mut Steps<L>,
) -> Result<(), CaseFault> {
    let (name, text) = line.split_once(' ').unwrap_or((line, ""));
    match name {
        "columns" => player.set_columns(alloc, text),
        "tags" => player.set_tags(alloc, text),
        "table" => player.add_table(alloc, text),
        "row" => put_row(alloc, text, stored),
        "clear" => {
            *stored = Stored::new(alloc);
            Ok(())
        }
        "ask" => push_asked(out, alloc, player, stored, text, steps),
        "random" => push_random(out, alloc, text, steps),
        _ => {
            push_line(out, line);
            Ok(())
        }
    }
}

fn push_line(out: &mut Out, line: &str) {
    if line.is_empty() || line.starts_with('#') {
        out.push(line.as_bytes());
        out.push(b"\n");
    } else {
        out.push(b"?\n");
    }
}

/// Asks a query over the rows, and adds what it answers.
pub(crate) fn push_asked<L: Ledger>(
    out: &mut Out,
    alloc: Global,
    player: &Player,
    stored: &mut Stored,
    text: &str,
    steps: &mut Steps<L>,
) -> Result<(), CaseFault> {
    let words = words_of(text);
    let (skip, count) = pair_of(words.shown, "+")?;
    let plan = plan_of(alloc, player, &words)?;
    if has_bounds(&plan.query.window) {
        match answer(alloc, &plan, stored, skip, count, steps) {
            Ok(rows) => push_rows(out, rows.as_slice()),
            Err(fault) => push_fault(out, fault),
        }
    } else {
        out.push(b"bad window\n");
    }
    Ok(())
}

fn push_fault(out: &mut Out, fault: ScanFault) {
    match fault {
        ScanFault::ReadFault => out.push(b"read fault\n"),
        ScanFault::Damaged { .. } => out.push(b"damaged\n"),
        ScanFault::NoMemory => out.push(b"no memory\n"),
    }
}

// Adds each row, and then how many there are.
fn push_rows(out: &mut Out, rows: &[Seq<Cell>]) {
    for row in rows {
        push_row(out, row.as_slice());
    }
    out.push(b"rows ");
    out.number(rows.len() as i128);
    out.push(b"\n");
}

fn push_row(out: &mut Out, cells: &[Cell]) {
    let mut sign: &[u8] = b"";
    for cell in cells {
        out.push(sign);
        push_cell(out, cell);
        sign = b",";
    }
    out.push(b"\n");
}

/// Adds a cell as it is shown.
pub(crate) fn push_cell(out: &mut Out, cell: &Cell) {
    match cell {
        Cell::Null => out.push(b"NULL"),
        Cell::Truth(true) => out.push(b"true"),
        Cell::Truth(false) => out.push(b"false"),
        Cell::Num(n) => out.number(*n),
        Cell::Frac { sum, count } => {
            out.number(*sum);
            out.push(b"/");
            out.number(i128::from(*count));
        }
        Cell::Str(text) => out.push(text.as_slice()),
    }
}
