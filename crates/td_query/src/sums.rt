//! The sums of rows.
ghost use Rattle.std.specs.Prelude.{◌≡◌, ◌<◌, ◌+◌, ◌-◌, ◌^◌, [], IfOk, OnOk, map, length, slice_index_or};
ghost use Rattle.td_aggr.specs.Tallies.{merged, empty_tally};
ghost use Rattle.td_limits.specs.declared.limits.TheConstants.{LAST_TIMESTAMP};
ghost use Rattle.td_query.specs.Planned.{keyed};
ghost use Rattle.td_query.specs.Read.{IsGood};
ghost use Rattle.td_query.specs.Sums.{sum_of, by_each, with_value, with_row, joined, shown_at, IsCounted, AreCounted};

use crate::columns::value_of;
use std::alloc::Global;
use std::marker::Model;
use td_aggr::{Aggr, Tally};
use td_layer::{Cell, Func, Key, NoMem, Row, Seq};

/// So many rows, or more, no memory holds. Aggregates are taken of fewer.
pub(crate) const TOO_MANY_ROWS: u64 = 1 << 62;

/// What is kept of rows in their place: how many there are, and the tallies of the columns that aggregates are asked
/// of.
#[derive(Drop)]
pub(crate) struct Sum {
    rows: u64,
    tallies: Seq<Tally>,
}

impl Model for Sum {
    ghost use Rattle.td_query.specs.Sums.{Sum as ASum, IsKept};

    ghost Value = { ASum };

    ghost view = { λ s. record { rows = s.rows; tallies = s.tallies } };

    ghost invariant = { λ s. IsKept (record { rows = s.rows; tallies = s.tallies }) };
}

// Tallies of no row, one for each place.
fn no_tallies(alloc: Global, places: &[Option<usize>]) -> Result<Seq<Tally>, NoMem>
    ensures { IfOk result (λ ts. ts ≡ map (λ _. empty_tally) places.now) }
{
    let mut tallies = Vec::with_capacity(alloc, places.len())?;
    'places: for _ in places {
        tallies.push(Tally::unit())?;
    }
    Ok(Seq::from_vec(alloc, tallies))
}

// The tally at a place.
fn tally_at(tallies: &[Tally], at: usize) -> Tally
    requires { at < length tallies.now }
    ensures { result ≡ slice_index_or tallies.now at result }
{
    tallies[at]
}

// A tally with a row of a table more, whose column stands at a place.
fn with_value(tally: &Tally, place: Option<usize>, table: u32, ts: u64, row: &Row) -> Tally
    requires counted { IsCounted (2 ^ 62 - 2) tally.now }
    requires good { IsGood LAST_TIMESTAMP (keyed table (ts, row.now)) }
    ensures { result ≡ with_value (keyed table (ts, row.now)) place tally.now }
{
    let one = Tally::one(value_of(place, ts, &row.values), Key { table, ts });
    tally.merge(&one)
}

// Tallies with a row of a table more, whose columns stand at places.
fn add_values(tallies: &mut Seq<Tally>, places: &[Option<usize>], table: u32, ts: u64, row: &Row)
    requires counted { AreCounted (2 ^ 62 - 2) tallies.old }
    requires good { IsGood LAST_TIMESTAMP (keyed table (ts, row.now)) }
    ensures { tallies.new ≡ by_each (with_value (keyed table (ts, row.now))) places.now tallies.old }
{
    let end = tallies.len().min(places.len());
    'places: for at in 0..end {
        let tally = tally_at(tallies.as_slice(), at);
        let next = with_value(&tally, places[at], table, ts, row);
        tallies.set(at, next);
    }
}

// Puts tallies before others.
fn join_tallies(fronts: &[Tally], tallies: &mut Seq<Tally>, most: u64, rows: u64)
    requires few { most + rows < 2 ^ 62 }
    requires fronts { AreCounted most fronts.now }
    requires tallies { AreCounted rows tallies.old }
    ensures { tallies.new ≡ by_each merged fronts.now tallies.old }
{
    let end = tallies.len().min(fronts.len());
    'tallies: for at in 0..end {
        let tally = tally_at(tallies.as_slice(), at);
        let next = fronts[at].merge(&tally);
        tallies.set(at, next);
    }
}

impl Sum {
    /// The sum of no row, over the columns at places.
    pub(crate) fn none(alloc: Global, places: &[Option<usize>]) -> Result<Sum, NoMem>
        ensures { IfOk result (λ s. s ≡ sum_of places.now []) }
    {
        let tallies = no_tallies(alloc, places)?;
        Ok(Sum { rows: 0, tallies })
    }

    /// Adds a row of a table. So many rows as no memory holds count as want of memory, and then the sum stays.
    pub(crate) fn add(
        &mut self,
        places: &[Option<usize>],
        table: u32,
        ts: u64,
        row: &Row,
    ) -> Result<(), NoMem>
        requires good { IsGood LAST_TIMESTAMP (keyed table (ts, row.now)) }
        ensures { OnOk result (self.new ≡ with_row places.now self.old (keyed table (ts, row.now))) }
    {
        if self.rows >= TOO_MANY_ROWS - 1 {
            return Err(NoMem);
        }
        add_values(&mut self.tallies, places, table, ts, row);
        self.rows += 1;
        Ok(())
    }

    /// Puts the rows of another sum before those of this one. So many rows as no memory holds count as want of memory,
    /// and then the sum stays.
    pub(crate) fn join(&mut self, front: &Sum) -> Result<(), NoMem>
        ensures { OnOk result (self.new ≡ joined front.now self.old) }
    {
        if front.rows + self.rows >= TOO_MANY_ROWS {
            return Err(NoMem);
        }
        join_tallies(
            front.tallies.as_slice(),
            &mut self.tallies,
            front.rows,
            self.rows,
        );
        self.rows += front.rows;
        Ok(())
    }

    /// A copy.
    pub(crate) fn copy(&self, alloc: Global) -> Result<Sum, NoMem>
        ensures { IfOk result (λ s. s ≡ self.now) }
    {
        let tallies = Vec::from_slice(alloc, self.tallies.as_slice())?;
        Ok(Sum {
            rows: self.rows,
            tallies: Seq::from_vec(alloc, tallies),
        })
    }

    /// How many rows there are.
    pub(crate) fn count(&self) -> u64
        ensures { result ≡ self.now.rows }
    {
        self.rows
    }

    /// An aggregate of the column whose tally stands at a place; NULL where there is none.
    pub(crate) fn cell(&self, slot: usize, func: Func) -> Cell
        ensures { result ≡ shown_at self.now slot func }
    {
        match self.tallies.get(slot) {
            None => Cell::Null,
            Some(tally) => tally.cell(func),
        }
    }
}
