//! Memtables of cases.
ghost use Rattle.std.specs.Prelude.{◌≡◌, IfOk};
ghost use Rattle.std.specs.List.{AllZip};
ghost use Rattle.td_cols.specs.declared.kinds.Kind.TheVariants.{I64};
ghost use Rattle.td_block.specs.Rows.{IsCellOf};
ghost use Rattle.td_file_cases.specs.Parts.{both_columns, IsOfTables, IsPut, HasParts};

use crate::scans::number_of;
use std::alloc::Global;
use std::marker::Model;
use td_cases::CaseFault;
use td_cols::{Kind, in_range};
use td_layer::{Birth, Key, Seq, Value};
use td_limits::{LAST_TIMESTAMP, MEMTABLE_PARTS};
use td_memtable::Memtable;
use td_model::Put;

/// A memtable of puts and cuts of the tables 1 and 2, which have two BIGINT columns each.
#[derive(Drop)]
pub(crate) struct Parts {
    alloc: Global,
    memtable: Memtable,
}

impl Model for Parts {
    ghost use Rattle.td_memtable.specs.Contents.{Contents};
    ghost use Rattle.td_file_cases.specs.Parts.{HasParts};

    ghost Value = { Contents };

    ghost view = { λ p. p.memtable };

    ghost invariant = { λ p. HasParts p.memtable };
}

// A cell: `-` names no value, and `NULL` names NULL.
fn cell_of(word: Option<&str>) -> Result<Option<Value>, CaseFault>
    ensures { IfOk result (IsCellOf I64) }
{
    match word.unwrap_or("") {
        "-" => Ok(None),
        "NULL" => Ok(Some(Value::Null)),
        digits => {
            let number = digits.parse::<i128>().map_err(|_| CaseFault::Unread)?;
            if !in_range(Kind::I64, number) {
                return Err(CaseFault::Unread);
            }
            Ok(Some(Value::Num(number)))
        }
    }
}

// The cells of two columns.
fn cells_of(
    alloc: Global,
    first: Option<&str>,
    second: Option<&str>,
) -> Result<Seq<Option<Value>>, CaseFault>
    ensures { IfOk result (AllZip IsCellOf both_columns) }
{
    let first = cell_of(first)?;
    let second = cell_of(second)?;
    let mut cells = Seq::new(alloc);
    cells.add(first)?;
    cells.add(second)?;
    Ok(cells)
}

// A key of one of the tables.
fn key_of(table: Option<&str>, ts: u64) -> Result<Key, CaseFault>
    ensures table { IfOk result IsOfTables }
    ensures ts { IfOk result (λ key. key.ts ≡ ts) }
{
    match table.unwrap_or("") {
        "1" => Ok(Key { table: 1, ts }),
        "2" => Ok(Key { table: 2, ts }),
        _ => Err(CaseFault::Unread),
    }
}

// `TABLE TS BORN CELL CELL`: a put and its birth.
fn put_of(alloc: Global, text: &str) -> Result<(Put, Birth), CaseFault>
    ensures { IfOk result (λ p. IsPut (p.0.key, record { birth = p.1; cells = p.0.cells })) }
{
    let mut words = text.splitn(5, ' ');
    let table = words.next();
    let ts = number_of(words.next())?;
    if ts > LAST_TIMESTAMP {
        return Err(CaseFault::Unread);
    }
    let born = number_of(words.next())?;
    let key = key_of(table, ts)?;
    let first = words.next();
    let cells = cells_of(alloc, first, words.next())?;
    Ok((Put { key, cells }, Birth { born }))
}

// Lays a put, where there is room.
fn lay(memtable: &mut Memtable, put: &Put, birth: Birth) -> Result<(), CaseFault>
    requires parts { HasParts memtable.old }
    requires put { IsPut (put.now.key, record { birth = birth; cells = put.now.cells }) }
    ensures { HasParts memtable.new }
{
    if memtable.held() >= MEMTABLE_PARTS {
        return Err(CaseFault::Unread);
    }
    memtable.put(put, birth)?;
    Ok(())
}

// Cuts the table of a key from its timestamp to another, where there is room.
fn cut(memtable: &mut Memtable, key: Key, hi: u64) -> Result<(), CaseFault>
    requires parts { HasParts memtable.old }
    requires key { IsOfTables key }
    ensures { HasParts memtable.new }
{
    if memtable.held() >= MEMTABLE_PARTS {
        return Err(CaseFault::Unread);
    }
    memtable.cut(key.table, key.ts, hi)?;
    Ok(())
}

impl Parts {
    /// A memtable that holds nothing.
    pub(crate) fn new(alloc: Global) -> Parts {
        Parts {
            alloc,
            memtable: Memtable::empty(alloc),
        }
    }

    // Lays a put.
    fn put(&mut self, text: &str) -> Result<(), CaseFault> {
        let (put, birth) = put_of(self.alloc, text)?;
        lay(&mut self.memtable, &put, birth)?;
        Ok(())
    }

    // `TABLE LO HI`: cuts a table from one timestamp to another.
    fn cut(&mut self, text: &str) -> Result<(), CaseFault> {
        let mut words = text.splitn(3, ' ');
        let table = words.next();
        let lo = number_of(words.next())?;
        let hi = number_of(words.next())?;
        let key = key_of(table, lo)?;
        cut(&mut self.memtable, key, hi)?;
        Ok(())
    }

    /// `put TABLE TS BORN CELL CELL` or `cut TABLE LO HI`.
    pub(crate) fn play(&mut self, text: &str) -> Result<(), CaseFault> {
        let (kind, text) = text.split_once(' ').unwrap_or((text, ""));
        match kind {
            "put" => self.put(text),
            "cut" => self.cut(text),
            _ => Err(CaseFault::Unread),
        }
    }

    /// The memtable.
    pub(crate) fn into_memtable(self) -> Memtable
        ensures parts { HasParts result }
        ensures same { result ≡ self }
    {
        self.memtable
    }
}
