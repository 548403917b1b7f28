//! Texts and cells.
ghost use Rattle.std.specs.Prelude.{◌≡◌, List, ℕ, Bool, IfOk, IsTrue, length, [], ◌∷◌};
ghost use Rattle.std.specs.List.{list_all};
ghost use Rattle.td_codec.specs.Fields.{Gives, string_read};
ghost use Rattle.td_codec.specs.Lists.{each};
ghost use Rattle.td_codec.specs.Values.{text, is_printable, truth, fraction, cell, cell_list};

use crate::fault::ReadFault;
use crate::lists::{ItemReader, list_of};
use crate::numbers::{i128_of, u8_of, u16_of, u64_of};
use std::alloc::Global;
use td_layer::{Cell, Name, Seq};

/// Whether no byte is below 32.
pub fn is_printable(bytes: &[u8]) -> bool
    ensures { result ≡ is_printable bytes.now }
{
    bytes.iter().all(|b| *b >= 32)
}

/// A text of bytes from 32 on: a length of 16 bits, and so many bytes.
#[tactic(auto, unfolding(crate::specs::Values::text, crate::specs::Fields::string_read))]
pub fn printable_of(alloc: Global, bytes: &[u8]) -> Result<(Name, &[u8]), ReadFault>
    ensures { Gives (λ x. (x.0, x.1.now)) result ((text is_printable).read bytes.now) }
{
    let (size, rest) = u16_of(bytes)?;
    let size = size as usize;
    if rest.len() < size {
        return Err(ReadFault::Broken(bytes.len()));
    }
    let (front, rest) = rest.split_at(size);
    if !is_printable(front) {
        return Err(ReadFault::Broken(bytes.len()));
    }
    let text = Seq::of_bytes(alloc, front)?;
    Ok((text, rest))
}

/// A truth value, 0 or 1.
#[tactic(auto, unfolding(crate::specs::Values::truth))]
fn truth_of(bytes: &[u8]) -> Result<(bool, &[u8]), ReadFault>
    ensures { Gives (λ x. (x.0, x.1.now)) result (truth.read bytes.now) }
{
    let (number, rest) = u8_of(bytes)?;
    if number < 2 {
        return Ok((number == 1, rest));
    }
    Err(ReadFault::Broken(bytes.len()))
}

/// A sum and a count of at least 1.
#[tactic(auto, unfolding(crate::specs::Values::fraction))]
fn fraction_of(bytes: &[u8]) -> Result<((i128, u64), &[u8]), ReadFault>
    ensures { Gives (λ x. (x.0, x.1.now)) result (fraction.read bytes.now) }
{
    let (sum, after) = i128_of(bytes)?;
    let (count, rest) = u64_of(after)?;
    if 1 <= count {
        return Ok(((sum, count), rest));
    }
    Err(ReadFault::Broken(after.len()))
}

/// A cell.
#[tactic(auto, unfolding(crate::specs::Values::cell, crate::specs::Values::cell_form))]
pub fn cell_of(alloc: Global, bytes: &[u8]) -> Result<(Cell, &[u8]), ReadFault>
    ensures { Gives (λ x. (x.0, x.1.now)) result (cell.read bytes.now) }
{
    let (code, rest) = u8_of(bytes)?;
    match code {
        0 => Ok((Cell::Null, rest)),
        1 => {
            let (truth, rest) = truth_of(rest)?;
            Ok((Cell::Truth(truth), rest))
        }
        2 => {
            let (number, rest) = i128_of(rest)?;
            Ok((Cell::Num(number), rest))
        }
        3 => {
            let ((sum, count), rest) = fraction_of(rest)?;
            Ok((Cell::Frac { sum, count }, rest))
        }
        4 => {
            let (text, rest) = printable_of(alloc, rest)?;
            Ok((Cell::Str(text), rest))
        }
        _ => Err(ReadFault::Broken(bytes.len())),
    }
}

/// Reads cells, each by itself.
#[derive(Drop)]
struct Cells;

impl ItemReader for Cells {
    type Item = Cell;

    ghost items = { each cell };

    ghost knows = { λ _ _. Unit {0} };

    fn item_of<'a>(
        &mut self,
        alloc: Global,
        _before: &[Cell],
        bytes: &'a [u8],
    ) -> Result<(Cell, &'a [u8]), ReadFault> {
        let (cell, rest) = cell_of(alloc, bytes)?;
        Ok((cell, rest))
    }
}

/// A count of 32 bits and so many cells.
#[tactic(auto, unfolding(crate::specs::Values::cell_list))]
pub fn cells_of(alloc: Global, bytes: &[u8]) -> Result<(Seq<Cell>, &[u8]), ReadFault>
    ensures { Gives (λ x. (x.0, x.1.now)) result (cell_list.read bytes.now) }
{
    let (cells, rest) = list_of(alloc, &mut Cells, bytes)?;
    Ok((cells, rest))
}
