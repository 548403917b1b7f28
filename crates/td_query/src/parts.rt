//! The order of partitions.
ghost use Rattle.std.specs.Prelude.{◌≡◌};
ghost use Rattle.td_verdict.specs.Parts.{rank, number, place, text, cell_cmp, part_cmp};

use std::cmp::Ordering;
use td_layer::Cell;

fn rank_of(cell: &Cell) -> u8
    ensures { result ≡ rank cell.now }
{
    match cell {
        Cell::Null => 0,
        Cell::Truth(_) | Cell::Num(_) => 1,
        Cell::Str(_) => 2,
        Cell::Frac { .. } => 3,
    }
}

fn number_in(cell: &Cell) -> i128
    ensures { result ≡ number cell.now }
{
    match cell {
        Cell::Truth(true) => 1,
        Cell::Num(number) => *number,
        Cell::Frac { sum, .. } => *sum,
        Cell::Null | Cell::Truth(false) | Cell::Str(_) => 0,
    }
}

fn place_in(cell: &Cell) -> u64
    ensures { result ≡ place cell.now }
{
    match cell {
        Cell::Num(_) => 1,
        Cell::Frac { count, .. } => *count,
        Cell::Null | Cell::Truth(_) | Cell::Str(_) => 0,
    }
}

fn text_in(cell: &Cell) -> &[u8]
    ensures { result.now ≡ text cell.now }
{
    match cell {
        Cell::Str(text) => text.as_slice(),
        Cell::Null | Cell::Truth(_) | Cell::Num(_) | Cell::Frac { .. } => &[],
    }
}

// The order of two cells: NULL, truth values and numbers by value, a truth value before the number equal to it, texts
// by their bytes, fractions by sum and then by count.
fn cell_order(a: &Cell, b: &Cell) -> Ordering
    ensures { result ≡ cell_cmp a.now b.now }
{
    let texts = text_in(a).cmp(&text_in(b));
    let places = place_in(a).cmp(&place_in(b));
    let numbers = number_in(a).cmp(&number_in(b));
    let ranks = rank_of(a).cmp(&rank_of(b));
    ranks.then(numbers.then(places.then(texts)))
}

/// The order of two partitions, cell by cell; one that begins the other comes first.
#[tactic(auto, using(crate::proofs::Order::left_ended, crate::proofs::Order::left_ended_first, crate::proofs::Order::right_ended))]
pub(crate) fn part_order(a: &[Cell], b: &[Cell]) -> Ordering
    ensures { result ≡ part_cmp a.now b.now }
{
    let mut left = a;
    let mut right = b;
    while let [x, xs @ ..] = left {
        let [y, ys @ ..] = right else {
            return Ordering::Greater;
        };
        let order = cell_order(x, y);
        if order.is_ne() {
            return order;
        }
        left = xs;
        right = ys;
    }
    if right.is_empty() {
        Ordering::Equal
    } else {
        Ordering::Less
    }
}
