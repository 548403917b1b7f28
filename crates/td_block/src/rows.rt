//! Rows: timestamps, births, and the cells of a row and of a column.
ghost use Rattle.std.specs.Prelude.{◌≡◌, ◌++◌, slice_index, slice_index_or, IfOk, OnOk};
ghost use Rattle.std.specs.List.{flat_map};
ghost use Rattle.std.specs.Int.{w64, to_le_bytes};
ghost use Rattle.td_codec.specs.Fields.{Gives};
ghost use Rattle.td_block.specs.Rows.{is_later, time_behind, times, births, row_cells, rows_from, times_of, births_of, column_at};

use std::alloc::Global;
use td_codec::{ReadFault, u64_of};
use td_layer::{Birth, NoMem, Partial, Seq, Value};
use td_limits::LAST_TIMESTAMP;

// ---- reading

/// Whether a timestamp comes after the last of those before it.
fn is_later(before: &[u64], time: u64) -> bool
    ensures { result ≡ is_later before.now time }
{
    match before.last() {
        None => true,
        Some(last) => *last < time,
    }
}

/// A timestamp behind those before it.
fn time_of<'a>(before: &[u64], bytes: &'a [u8]) -> Result<(u64, &'a [u8]), ReadFault>
    ensures { Gives (λ x. (x.0, x.1.now)) result ((time_behind before.now).read bytes.now) }
{
    let (time, rest) = u64_of(bytes)?;
    if time <= LAST_TIMESTAMP && is_later(before, time) {
        return Ok((time, rest));
    }
    Err(ReadFault::Broken(bytes.len()))
}

/// Rising timestamps of so many rows.
#[tactic(auto, unfolding(crate::specs::Rows::times))]
pub(crate) fn times_of(
    alloc: Global,
    rows: u32,
    bytes: &[u8],
) -> Result<(Seq<u64>, &[u8]), ReadFault>
    ensures { Gives (λ x. (x.0, x.1.now)) result ((times rows).read bytes.now) }
{
    let mut times = Seq::from_vec(alloc, Vec::with_capacity(alloc, rows as usize)?);
    let mut rest = bytes;
    for _ in 0..rows {
        let (time, after) = time_of(times.as_slice(), rest)?;
        times.add(time)?;
        rest = after;
    }
    Ok((times, rest))
}

/// Births of so many rows.
#[tactic(auto, unfolding(crate::specs::Rows::births))]
pub(crate) fn births_of(
    alloc: Global,
    rows: u32,
    bytes: &[u8],
) -> Result<(Seq<u64>, &[u8]), ReadFault>
    ensures { Gives (λ x. (x.0, x.1.now)) result ((births rows).read bytes.now) }
{
    let mut births = Seq::from_vec(alloc, Vec::with_capacity(alloc, rows as usize)?);
    let mut rest = bytes;
    for _ in 0..rows {
        let (birth, after) = u64_of(rest)?;
        births.add(birth)?;
        rest = after;
    }
    Ok((births, rest))
}

/// The cell of a row in a column, or of a column in a row: none beyond the end.
fn cell_at(cells: &[Option<Value>], at: usize) -> Option<Value>
    ensures { result ≡ slice_index_or cells.now at None }
{
    match cells.get(at) {
        None => None,
        Some(cell) => *cell,
    }
}

/// The cells of a row, over all columns.
fn row_cells(
    alloc: Global,
    columns: &[Seq<Option<Value>>],
    row: usize,
) -> Result<Seq<Option<Value>>, NoMem>
    ensures { IfOk result (λ cells. cells ≡ row_cells columns.now row) }
{
    let mut cells = Vec::with_capacity(alloc, columns.len())?;
    for column in columns {
        cells.push(cell_at(column.as_slice(), row))?;
    }
    Ok(Seq::from_vec(alloc, cells))
}

/// The birth of a row: 0 beyond the end.
fn birth_at(births: &[u64], row: usize) -> u64
    ensures { result ≡ slice_index births.now row }
{
    match births.get(row) {
        None => 0,
        Some(born) => *born,
    }
}

/// The rows of these timestamps, births and columns.
pub(crate) fn rows_from(
    alloc: Global,
    times: &[u64],
    births: &[u64],
    columns: &[Seq<Option<Value>>],
) -> Result<Seq<(u64, Partial)>, NoMem>
    ensures { IfOk result (λ rows. rows ≡ rows_from times.now births.now columns.now) }
{
    let mut rows = Seq::from_vec(alloc, Vec::with_capacity(alloc, times.len())?);
    for row in 0..times.len() {
        let born = birth_at(births, row);
        let birth = Birth { born };
        let cells = row_cells(alloc, columns, row)?;
        rows.add((times[row], Partial { birth, cells }))?;
    }
    Ok(rows)
}

// ---- writing

/// Adds the timestamps of rows.
#[tactic(auto, unfolding(crate::specs::Rows::times))]
pub(crate) fn push_times(out: &mut Vec<u8>, rows: &[(u64, Partial)]) -> Result<(), NoMem>
    ensures { OnOk result (out.new.items ≡ out.old.items ++ flat_map (to_le_bytes w64) (times_of rows.now)) }
{
    for row in rows {
        out.extend_from_slice(&row.0.to_le_bytes())?;
    }
    Ok(())
}

/// Adds the births of rows.
pub(crate) fn push_births(out: &mut Vec<u8>, rows: &[(u64, Partial)]) -> Result<(), NoMem>
    ensures { OnOk result (out.new.items ≡ out.old.items ++ flat_map (to_le_bytes w64) (births_of rows.now)) }
{
    for row in rows {
        out.extend_from_slice(&row.1.birth.born.to_le_bytes())?;
    }
    Ok(())
}

/// The cells of a column of rows.
pub(crate) fn column_at(
    alloc: Global,
    rows: &[(u64, Partial)],
    column: usize,
) -> Result<Vec<Option<Value>>, NoMem>
    ensures { IfOk result (λ cells. cells.items ≡ column_at rows.now column) }
{
    let mut cells = Vec::with_capacity(alloc, rows.len())?;
    for row in rows {
        cells.push(cell_at(row.1.cells.as_slice(), column))?;
    }
    Ok(cells)
}
