//! What a literal says at a column or a tag.
ghost use Rattle.std.specs.Prelude.{◌≡◌, IfOk};
ghost use Rattle.std.specs.Option.{option_copied};
ghost use Rattle.td_times.specs.Stamps.{timestamp_of};
ghost use Rattle.td_verdict.specs.Values.{is_truth, number_at, is_null, value_of, number_cell, text_at};
ghost use Rattle.td_fields.specs.Said.{said_at, number_said, is_suited, is_null_said, is_fit, value_said, text_cell, cell_from};

use crate::names::{is_time, width_of};
use td_layer::{Cell, Copied, Name, NoMem, Value};
use td_model::{Kind, Lit, in_range};

/// What a literal says at a column or a tag of a kind.
#[derive(Clone, Copy, Debug)]
pub enum Said {
    /// NULL.
    Null,
    /// A number: a truth value 1 or 0 at BOOL, a timestamp its milliseconds since 1970.
    Number(i128),
    /// A text of so many bytes.
    Text(usize),
    /// Nothing that suits there.
    Nothing,
}

impl Said {
    /// Whether it suits the column: NULL does, and what says a number or a text there.
    pub fn suits(&self) -> bool
        ensures { result ≡ is_suited self.now }
    {
        !matches!(self, Said::Nothing)
    }

    /// Whether it is NULL.
    pub fn is_null(&self) -> bool
        ensures { result ≡ is_null_said self.now }
    {
        matches!(self, Said::Null)
    }

    /// Whether a number is in the range of a kind, and a text has at most its bytes.
    pub fn fits(&self, kind: Kind) -> bool
        ensures { result ≡ is_fit kind self.now }
    {
        match self {
            Said::Number(n) => in_range(kind, *n),
            Said::Text(bytes) => *bytes <= usize::from(width_of(kind).unwrap_or(0)),
            Said::Null | Said::Nothing => true,
        }
    }

    /// The number that it says, if it says one.
    pub fn number(&self) -> Option<i128>
        ensures { result ≡ number_said self.now }
    {
        match self {
            Said::Number(n) => Some(*n),
            Said::Null | Said::Text(_) | Said::Nothing => None,
        }
    }

    /// The value that a row gets: a number, or else NULL.
    pub fn value(&self) -> Value
        ensures { result ≡ value_said self.now }
    {
        match self.number() {
            Some(n) => Value::Num(n),
            None => Value::Null,
        }
    }
}

fn is_truth(kind: Kind) -> bool
    ensures { result ≡ is_truth kind }
{
    matches!(kind, Kind::Bool)
}

fn is_null(lit: &Lit) -> bool
    ensures { result ≡ is_null lit.now }
{
    matches!(lit, Lit::Null)
}

// The milliseconds that a text says, if it is a timestamp's.
fn time_of(text: &[u8]) -> Option<i128>
    ensures { result ≡ timestamp_of text.now }
{
    match td_times::timestamp(text) {
        Ok(milliseconds) => Some(i128::from(milliseconds)),
        Err(_) => None,
    }
}

// The number that a literal says.
pub(crate) fn number_at(kind: Kind, moment: u64, lit: &Lit) -> Option<i128>
    ensures { result ≡ number_at kind moment lit.now }
{
    match lit {
        Lit::Null => None,
        Lit::True if is_truth(kind) => Some(1),
        Lit::False if is_truth(kind) => Some(0),
        Lit::Now if is_time(kind) => Some(i128::from(moment)),
        Lit::Num(n) if width_of(kind).is_none() => Some(*n),
        Lit::Str(text) if is_time(kind) => time_of(text.as_slice()),
        _ => None,
    }
}

// The text that a literal says.
pub(crate) fn text_at(kind: Kind, lit: &Lit) -> Option<&Name>
    ensures { option_copied result ≡ text_at kind lit.now }
{
    match lit {
        Lit::Str(text) if width_of(kind).is_some() => Some(text),
        _ => None,
    }
}

// The text of a literal, or NULL where it is none.
fn text_cell(lit: &Lit) -> Result<Cell, NoMem>
    ensures { IfOk result (λ cell. cell ≡ text_cell lit.now) }
{
    match lit {
        Lit::Str(text) => {
            let text = text.copy()?;
            Ok(Cell::Str(text))
        }
        _ => Ok(Cell::Null),
    }
}

/// What a literal says at a column or a tag of a kind, at a moment in milliseconds since 1970. A truth value says a
/// number at BOOL alone, NOW at TIMESTAMP alone, a text the milliseconds of a timestamp at TIMESTAMP and itself at a
/// kind of texts.
pub fn said_at(kind: Kind, moment: u64, lit: &Lit) -> Said
    ensures { result ≡ said_at kind moment lit.now }
{
    if is_null(lit) {
        return Said::Null;
    }
    if let Some(n) = number_at(kind, moment, lit) {
        return Said::Number(n);
    }
    match text_at(kind, lit) {
        Some(text) => Said::Text(text.len()),
        None => Said::Nothing,
    }
}

/// A number's cell: a truth value at BOOL.
pub fn number_cell(kind: Kind, n: i128) -> Cell
    ensures { result ≡ number_cell kind n }
{
    if is_truth(kind) {
        Cell::Truth(n == 1)
    } else {
        Cell::Num(n)
    }
}

/// The cell of a tag of a kind, from what its literal says.
pub fn cell_said(kind: Kind, said: Said, lit: &Lit) -> Result<Cell, NoMem>
    ensures { IfOk result (λ cell. cell ≡ cell_from kind lit.now said) }
{
    match said {
        Said::Number(n) => Ok(number_cell(kind, n)),
        Said::Text(_) => {
            let text = text_cell(lit)?;
            Ok(text)
        }
        Said::Null | Said::Nothing => Ok(Cell::Null),
    }
}
