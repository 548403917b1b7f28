//! A memtable that takes puts of one cell, and what was shared of it.
ghost use Rattle.std.specs.Prelude.{◌≡◌, length, IfOk};
ghost use Rattle.td_layer.specs.Columns.{AreColumnCells};
ghost use Rattle.td_memtable_cases.specs.Narrow.{HaveOneCell};

use crate::lines::Numbers;
use std::alloc::Global;
use std::marker::Model;
use td_cases::CaseFault;
use td_layer::{Birth, Key, NoMem, Seq, Value};
use td_limits::MEMTABLE_PARTS;
use td_memtable::Memtable;
use td_model::Put;

/// A memtable whose puts have one cell, and what was shared of it.
#[derive(Drop)]
pub(crate) struct Player {
    alloc: Global,
    active: Memtable,
    kept: Memtable,
    births: u64,
}

impl Model for Player {
    ghost use Rattle.td_memtable.specs.Contents.{Contents};
    ghost use Rattle.td_memtable_cases.specs.Narrow.{HaveOneCell};

    ghost Value = { Contents };

    ghost view = { λ p. p.active };

    ghost invariant = { λ p. HaveOneCell p.active.puts };
}

// The put of one cell.
fn put_of(alloc: Global, numbers: Numbers) -> Result<Put, NoMem>
    ensures one { IfOk result (λ put. length put.cells ≡ 1) }
    ensures values { IfOk result (λ put. AreColumnCells put.cells) }
{
    let mut cells = Seq::new(alloc);
    cells.add(Some(Value::Num(i128::from(numbers.third))))?;
    Ok(Put {
        key: Key {
            table: numbers.table,
            ts: numbers.second,
        },
        cells,
    })
}

// Lays a put of one cell, where there is room.
fn lay(memtable: &mut Memtable, put: &Put, birth: Birth) -> Result<(), NoMem>
    requires narrow { HaveOneCell memtable.old.puts }
    requires one { length put.now.cells ≡ 1 }
    requires values { AreColumnCells put.now.cells }
    ensures { HaveOneCell memtable.new.puts }
{
    if memtable.held() >= MEMTABLE_PARTS {
        return Ok(());
    }
    memtable.put(put, birth)?;
    Ok(())
}

// Cuts, where there is room.
fn cut(memtable: &mut Memtable, numbers: Numbers) -> Result<(), NoMem>
    requires { HaveOneCell memtable.old.puts }
    ensures { HaveOneCell memtable.new.puts }
{
    if memtable.held() >= MEMTABLE_PARTS {
        return Ok(());
    }
    memtable.cut(numbers.table, numbers.second, numbers.third)?;
    Ok(())
}

impl Player {
    /// An empty memtable.
    pub(crate) fn new(alloc: Global) -> Player {
        Player {
            alloc,
            active: Memtable::empty(alloc),
            kept: Memtable::empty(alloc),
            births: 0,
        }
    }

    /// The memtable.
    pub(crate) fn active(&self) -> &Memtable {
        &self.active
    }

    /// What was shared last; an empty memtable before that.
    pub(crate) fn kept(&self) -> &Memtable {
        &self.kept
    }

    /// Lays one cell, where there is room.
    pub(crate) fn put(&mut self, numbers: Numbers) -> Result<(), CaseFault> {
        let put = put_of(self.alloc, numbers)?;
        let birth = Birth { born: self.births };
        self.births = self.births.wrapping_add(1);
        let laid = lay(&mut self.active, &put, birth);
        drop(put);
        laid?;
        Ok(())
    }

    /// Cuts a table from one timestamp to another, where there is room.
    pub(crate) fn cut(&mut self, numbers: Numbers) -> Result<(), CaseFault> {
        cut(&mut self.active, numbers)?;
        Ok(())
    }

    /// Keeps the memtable as it is.
    pub(crate) fn share(&mut self) -> Result<(), CaseFault> {
        let kept = self.active.share()?;
        self.kept = kept;
        Ok(())
    }
}
