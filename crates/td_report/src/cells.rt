//! Cells, rows and header lines of an answer.
ghost use Rattle.std.specs.Prelude.{◌≡◌, ◌++◌, OnOk, List, ℕ};
ghost use Rattle.std.specs.Fmt.{decimal, signed_decimal};
ghost use Rattle.std.specs.List.{flat_map};
ghost use lib.Chars.{codes};
ghost use Rattle.td_model.specs.Text.{truth_text, quoted_byte, cell_text, more_cell, names_text, more_name, row_line};

use td_layer::{Cell, Name, NoMem, Seq};
use td_lex::decimal;

// A byte of a quoted text: a quote is doubled.
fn push_quoted_byte(out: &mut Name, byte: u8) -> Result<(), NoMem>
    ensures { OnOk result (out.new ≡ out.old ++ quoted_byte byte) }
{
    if byte == b'\'' {
        out.extend(b"''")
    } else {
        out.extend(&[byte])
    }
}

fn push_quoted(out: &mut Name, text: &[u8]) -> Result<(), NoMem>
    ensures { OnOk result (out.new ≡ out.old ++ flat_map quoted_byte text.now) }
{
    for byte in text {
        push_quoted_byte(out, *byte)?;
    }
    Ok(())
}

fn push_truth(out: &mut Name, truth: bool) -> Result<(), NoMem>
    ensures { OnOk result (out.new ≡ out.old ++ truth_text truth) }
{
    if truth {
        out.extend(b"true")
    } else {
        out.extend(b"false")
    }
}

#[tactic(auto, using(std::proofs::lemmas::List::append_assoc))]
fn push_fraction(out: &mut Name, sum: i128, count: u64) -> Result<(), NoMem>
    ensures { OnOk result (out.new ≡ out.old ++ (signed_decimal sum ++ codes "/" ++ decimal count)) }
{
    decimal(sum, out)?;
    out.extend(b"/")?;
    decimal(i128::from(count), out)
}

#[tactic(auto, using(std::proofs::lemmas::List::append_assoc))]
fn push_text(out: &mut Name, text: &[u8]) -> Result<(), NoMem>
    ensures { OnOk result (out.new ≡ out.old ++ (codes "'" ++ flat_map quoted_byte text.now ++ codes "'")) }
{
    out.extend(b"'")?;
    push_quoted(out, text)?;
    out.extend(b"'")
}

fn push_cell(out: &mut Name, cell: &Cell) -> Result<(), NoMem>
    ensures { OnOk result (out.new ≡ out.old ++ cell_text cell.now) }
{
    match cell {
        Cell::Null => out.extend(b"NULL"),
        Cell::Truth(truth) => push_truth(out, *truth),
        Cell::Num(n) => decimal(*n, out),
        Cell::Frac { sum, count } => push_fraction(out, *sum, *count),
        Cell::Str(text) => push_text(out, text.as_slice()),
    }
}

#[tactic(auto, using(std::proofs::lemmas::List::append_assoc))]
fn push_more_cells(out: &mut Name, cells: &[Cell]) -> Result<(), NoMem>
    ensures { OnOk result (out.new ≡ out.old ++ flat_map more_cell cells.now) }
{
    for cell in cells {
        out.extend(b",")?;
        push_cell(out, cell)?;
    }
    Ok(())
}

#[tactic(auto, using(std::proofs::lemmas::List::append_assoc))]
fn push_row(out: &mut Name, cells: &[Cell]) -> Result<(), NoMem>
    ensures { OnOk result (out.new ≡ out.old ++ row_line cells.now) }
{
    match cells {
        [] => out.extend(b"\n"),
        [first, rest @ ..] => {
            push_cell(out, first)?;
            push_more_cells(out, rest)?;
            out.extend(b"\n")
        }
    }
}

pub(crate) fn push_rows(out: &mut Name, rows: &[Seq<Cell>]) -> Result<(), NoMem>
    ensures { OnOk result (out.new ≡ out.old ++ flat_map row_line rows.now) }
{
    for row in rows {
        push_row(out, row.as_slice())?;
    }
    Ok(())
}

#[tactic(auto, using(std::proofs::lemmas::List::append_assoc))]
fn push_more_names(out: &mut Name, names: &[Name]) -> Result<(), NoMem>
    ensures { OnOk result (out.new ≡ out.old ++ flat_map more_name names.now) }
{
    for name in names {
        out.extend(b",")?;
        out.extend(name.as_slice())?;
    }
    Ok(())
}

#[tactic(auto, using(std::proofs::lemmas::List::append_assoc))]
pub(crate) fn push_names(out: &mut Name, names: &[Name]) -> Result<(), NoMem>
    ensures { OnOk result (out.new ≡ out.old ++ names_text names.now) }
{
    match names {
        [] => Ok(()),
        [first, rest @ ..] => {
            out.extend(first.as_slice())?;
            push_more_names(out, rest)
        }
    }
}
