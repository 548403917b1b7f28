//! Windows of a result, and their order.
ghost use Rattle.std.specs.Prelude.{◌≡◌, List, IfOk, [], ◌∷◌, ◌++◌};
ghost use Rattle.std.specs.Cmp.Lexicographic.{slice_cmp};
ghost use Rattle.td_codec.specs.Fields.{Gives};
ghost use Rattle.td_codec.specs.Values.{rank, number_of, place_of, text_of, cell_cmp, win_cmp, win_key, comes_after, win_key_behind, win_keys, win_key_list, row_key, win_row_behind, win_rows, win_row_list};

use crate::fault::ReadFault;
use crate::lists::{ItemReader, list_of};
use crate::numbers::i64_of;
use crate::values::cells_of;
use std::alloc::Global;
use std::cmp::Ordering;
use td_layer::{Cell, Seq};
use td_model::{WinKey, WinRow};

fn rank_of(cell: &Cell) -> u8
    ensures { result ≡ rank cell.now }
{
    match cell {
        Cell::Null => 0,
        Cell::Truth(_) | Cell::Num(_) => 1,
        Cell::Str(_) => 2,
        Cell::Frac { .. } => 3,
    }
}

fn number_in(cell: &Cell) -> i128
    ensures { result ≡ number_of cell.now }
{
    match cell {
        Cell::Truth(true) => 1,
        Cell::Num(number) => *number,
        Cell::Frac { sum, .. } => *sum,
        Cell::Null | Cell::Truth(false) | Cell::Str(_) => 0,
    }
}

fn place_in(cell: &Cell) -> u64
    ensures { result ≡ place_of cell.now }
{
    match cell {
        Cell::Num(_) => 1,
        Cell::Frac { count, .. } => *count,
        Cell::Null | Cell::Truth(_) | Cell::Str(_) => 0,
    }
}

fn text_in(cell: &Cell) -> &[u8]
    ensures { result.now ≡ text_of cell.now }
{
    match cell {
        Cell::Str(text) => text.as_slice(),
        Cell::Null | Cell::Truth(_) | Cell::Num(_) | Cell::Frac { .. } => &[],
    }
}

/// The order of two cells: NULL, truth values and numbers by value, a truth value before the number equal to it, texts
/// by their bytes, fractions by sum and then by count.
#[tactic(auto, unfolding(crate::specs::Values::cell_cmp))]
pub fn cell_order(a: &Cell, b: &Cell) -> Ordering
    ensures { result ≡ cell_cmp a.now b.now }
{
    let texts = text_in(a).cmp(&text_in(b));
    let places = place_in(a).cmp(&place_in(b));
    let numbers = number_in(a).cmp(&number_in(b));
    let ranks = rank_of(a).cmp(&rank_of(b));
    ranks.then(numbers.then(places.then(texts)))
}

/// The order of two partitions, cell by cell; one that begins the other comes first.
#[tactic(auto, using(crate::proofs::Order::left_ended, crate::proofs::Order::left_ended_first, crate::proofs::Order::right_ended))]
fn part_order(a: &[Cell], b: &[Cell]) -> Ordering
    ensures { result ≡ slice_cmp cell_cmp a.now b.now }
{
    let mut left = a;
    let mut right = b;
    while let [x, xs @ ..] = left {
        let [y, ys @ ..] = right else {
            return Ordering::Greater;
        };
        let order = cell_order(x, y);
        if order.is_ne() {
            return order;
        }
        left = xs;
        right = ys;
    }
    if right.is_empty() {
        Ordering::Equal
    } else {
        Ordering::Less
    }
}

/// The order of two windows: by partition, then by start.
#[tactic(auto, unfolding(crate::specs::Values::win_cmp))]
pub fn win_order(a: &WinKey, b: &WinKey) -> Ordering
    ensures { result ≡ win_cmp a.now b.now }
{
    let starts = a.start.cmp(&b.start);
    part_order(a.part.as_slice(), b.part.as_slice()).then(starts)
}

/// A window: the cells of its partition, and its start.
#[tactic(auto, unfolding(crate::specs::Values::win_key))]
pub fn win_key_of(alloc: Global, bytes: &[u8]) -> Result<(WinKey, &[u8]), ReadFault>
    ensures { Gives (λ x. (x.0, x.1.now)) result (win_key.read bytes.now) }
{
    let (part, rest) = cells_of(alloc, bytes)?;
    let (start, rest) = i64_of(rest)?;
    Ok((WinKey { part, start }, rest))
}

/// Whether a window comes after the last of others.
fn is_behind_keys(before: &[WinKey], key: &WinKey) -> bool
    ensures { result ≡ comes_after (λ k. k) before.now key.now }
{
    match before.last() {
        None => true,
        Some(last) => win_order(last, key).is_lt(),
    }
}

/// Whether a window comes after that of the last of some rows.
fn is_behind_rows(before: &[WinRow], key: &WinKey) -> bool
    ensures { result ≡ comes_after row_key before.now key.now }
{
    match before.last() {
        None => true,
        Some(last) => win_order(&last.key, key).is_lt(),
    }
}

/// Reads windows, each after the one before it.
#[derive(Drop)]
struct Keys;

#[tactic(auto, unfolding(crate::specs::Values::win_keys))]
impl ItemReader for Keys {
    type Item = WinKey;

    ghost items = { win_keys };

    ghost knows = { λ _ _. Unit {0} };

    fn item_of<'a>(
        &mut self,
        alloc: Global,
        before: &[WinKey],
        bytes: &'a [u8],
    ) -> Result<(WinKey, &'a [u8]), ReadFault> {
        let (key, rest) = win_key_of(alloc, bytes)?;
        if !is_behind_keys(before, &key) {
            return Err(ReadFault::Broken(bytes.len()));
        }
        Ok((key, rest))
    }
}

/// A count of 32 bits and so many windows, each after the one before it. One that isn't is a fault at its first byte.
#[tactic(auto, unfolding(crate::specs::Values::win_key_list))]
pub fn win_keys_of(alloc: Global, bytes: &[u8]) -> Result<(Seq<WinKey>, &[u8]), ReadFault>
    ensures { Gives (λ x. (x.0, x.1.now)) result (win_key_list.read bytes.now) }
{
    let (keys, rest) = list_of(alloc, &mut Keys, bytes)?;
    Ok((keys, rest))
}

/// Reads rows of windows, each window after the one before it.
#[derive(Drop)]
struct Rows;

#[tactic(auto, unfolding(crate::specs::Values::win_rows, crate::specs::Values::win_row_behind))]
impl ItemReader for Rows {
    type Item = WinRow;

    ghost items = { win_rows };

    ghost knows = { λ _ _. Unit {0} };

    fn item_of<'a>(
        &mut self,
        alloc: Global,
        before: &[WinRow],
        bytes: &'a [u8],
    ) -> Result<(WinRow, &'a [u8]), ReadFault> {
        let (key, rest) = win_key_of(alloc, bytes)?;
        if !is_behind_rows(before, &key) {
            return Err(ReadFault::Broken(bytes.len()));
        }
        let (end, rest) = i64_of(rest)?;
        let (cells, rest) = cells_of(alloc, rest)?;
        Ok((WinRow { key, end, cells }, rest))
    }
}

/// A count of 32 bits and so many rows of windows, each window after the one before it. A window that isn't is a fault
/// at the first byte of its row.
#[tactic(auto, unfolding(crate::specs::Values::win_row_list))]
pub fn win_rows_of(alloc: Global, bytes: &[u8]) -> Result<(Seq<WinRow>, &[u8]), ReadFault>
    ensures { Gives (λ x. (x.0, x.1.now)) result (win_row_list.read bytes.now) }
{
    let (rows, rest) = list_of(alloc, &mut Rows, bytes)?;
    Ok((rows, rest))
}
