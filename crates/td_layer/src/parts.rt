//! Parts: what the layers of a store hold of a key.
ghost use Rattle.std.specs.Prelude.{◌≡◌, length, IfOk};
ghost use Rattle.td_layer.specs.declared.parts.Part.{Part};
ghost use Rattle.td_layer.specs.Parts.{cell_over, cells_over, put_over, composed, no_part, HaveOneWidth, ActsAsBoth, IsAssociative};

use crate::seq::{Copied, Seq};
use crate::values::{Birth, NoMem, Value};
use std::alloc::Global;

/// A put: a cell for each column but the timestamp, of which those that are `None` leave the value below, and the birth
/// that a row gets which it makes.
#[derive(Debug, Drop)]
pub struct Partial {
    pub birth: Birth,
    pub cells: Seq<Option<Value>>,
}

/// What a layer does to the row of a key: a cut, which leaves no row, and then a put, each if it is there.
#[derive(Debug, Drop)]
pub struct Part {
    pub cut: bool,
    pub put: Option<Partial>,
}

impl Copied for Partial {
    fn copy(&self) -> Result<Partial, NoMem> {
        let cells = self.cells.copy()?;
        Ok(Partial {
            birth: self.birth,
            cells,
        })
    }
}

impl Copied for Part {
    fn copy(&self) -> Result<Part, NoMem> {
        let put = self.put.copy()?;
        Ok(Part { cut: self.cut, put })
    }
}

fn cell_over(over: Option<Value>, under: Option<Value>) -> Option<Value>
    ensures { result ≡ cell_over over under }
{
    match over {
        Some(value) => Some(value),
        None => under,
    }
}

/// Cells over as many cells: a cell that names no value leaves the one below.
pub fn cells_over(
    alloc: Global,
    over: &[Option<Value>],
    under: &[Option<Value>],
) -> Result<Seq<Option<Value>>, NoMem>
    requires { length over.now ≡ length under.now }
    ensures { IfOk result (λ cells. cells ≡ cells_over over.now under.now) }
{
    let mut cells = Vec::with_capacity(alloc, over.len())?;
    for i in 0..over.len() {
        cells.push(cell_over(over[i], under[i]))?;
    }
    Ok(Seq::from_vec(alloc, cells))
}

/// A put over a put: the named cells of the upper one, and else those of the lower one, whose birth it keeps.
pub fn put_over(
    alloc: Global,
    over: &Option<Partial>,
    under: &Option<Partial>,
) -> Result<Option<Partial>, NoMem>
    requires { HaveOneWidth over.now under.now }
    ensures { IfOk result (λ put. put ≡ put_over over.now under.now) }
{
    match (over, under) {
        (None, _) => {
            let put = under.copy()?;
            Ok(put)
        }
        (Some(_), None) => {
            let put = over.copy()?;
            Ok(put)
        }
        (Some(upper), Some(lower)) => {
            let cells = cells_over(alloc, upper.cells.as_slice(), lower.cells.as_slice())?;
            Ok(Some(Partial {
                birth: lower.birth,
                cells,
            }))
        }
    }
}

/// The part that does what `under` and then `over` do to any row: `over` itself where it cuts, else the cut of `under`
/// and the put of `over` on that of `under`, whose birth is kept. Where both have a put, these have equally many cells.
pub fn compose(alloc: Global, over: &Part, under: &Part) -> Result<Part, NoMem>
    requires { HaveOneWidth over.now.put under.now.put }
    ensures { IfOk result (λ part. part ≡ composed over.now under.now) }
{
    if over.cut {
        let part = over.copy()?;
        return Ok(part);
    }
    let put = put_over(alloc, &over.put, &under.put)?;
    Ok(Part {
        cut: under.cut,
        put,
    })
}

/// What is true of compositions: they do to any row what their parts do, they are associative, and the part that does
/// nothing is their unit.
pub fn compositions()
    ensures acts { ActsAsBoth }
    ensures associative { IsAssociative }
    ensures unit_over { (p : Part) → composed no_part p ≡ p }
    ensures unit_under { (p : Part) → composed p no_part ≡ p }
{}
