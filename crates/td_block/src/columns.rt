//! Columns: cells and their bytes.
ghost use Rattle.std.specs.Prelude.{◌≡◌, ◌<◌, ◌^◌, ◌++◌, length, take, map, OnOk, IsTrue};
ghost use Rattle.std.specs.List.{AllByRecursion, flat_map};
ghost use Rattle.td_cols.specs.Kinds.{kind_width};
ghost use Rattle.td_cols.specs.Spelling.{spelling};
ghost use Rattle.td_codec.specs.Fields.{Gives, kind_number};
ghost use Rattle.td_block.specs.Bits.{bitmap};
ghost use Rattle.td_block.specs.Columns.{is_fixed, code, named_byte, valued_byte, named, valued, bit_of, lane, cell_from, cell_of_bits, cells, column};
ghost use Rattle.td_block.specs.Rows.{IsCellOf};
ghost use Rattle.td_block.specs.Blocks.{columns};

use crate::bits::{Bit, bitmap_length, is_set, packed};
use std::alloc::Global;
use td_codec::{ReadFault, number_of, u8_of};
use td_cols::{Kind, store, width};
use td_layer::{NoMem, Seq, Value};

/// Whether columns of the kind can stand in blocks.
pub(crate) fn is_fixed(kind: Kind) -> bool
    ensures fixed { result ≡ is_fixed kind }
    ensures some { IsTrue result → 0 < kind_width kind }
{
    td_cols::code(kind) < 11
}

// ---- reading

/// The code of the kind.
fn code_of(kind: Kind, bytes: &[u8]) -> Result<(u8, &[u8]), ReadFault>
    ensures read { Gives (λ x. (x.0, x.1.now)) result ((code kind).read bytes.now) }
    ensures fixed { OnOk result (0 < kind_width kind) }
{
    let (own, rest) = u8_of(bytes)?;
    if own == td_cols::code(kind) && is_fixed(kind) {
        return Ok((own, rest));
    }
    Err(ReadFault::Broken(bytes.len()))
}

/// A byte of the bitmap of the named rows behind those before it.
fn named_byte_of<'a>(rows: u32, before: &[u8], bytes: &'a [u8]) -> Result<(u8, &'a [u8]), ReadFault>
    requires { length before.now < 2 ^ 32 }
    ensures { Gives (λ x. (x.0, x.1.now)) result ((named_byte rows before.now).read bytes.now) }
{
    let (byte, rest) = u8_of(bytes)?;
    let bits = (rows as usize).saturating_sub(8 * before.len()).min(8);
    if u32::from(byte) < 1 << bits {
        return Ok((byte, rest));
    }
    Err(ReadFault::Broken(bytes.len()))
}

/// The bitmap of the named rows.
fn named_of(rows: u32, bytes: &[u8]) -> Result<(&[u8], &[u8]), ReadFault>
    ensures { Gives (λ x. (x.0.now, x.1.now)) result ((named rows).read bytes.now) }
{
    let mut rest = bytes;
    for at in 0..bitmap_length(rows) {
        let (_, after) = named_byte_of(rows, &bytes[..at], rest)?;
        rest = after;
    }
    Ok((&bytes[..bitmap_length(rows)], rest))
}

/// A byte of the bitmap of the values behind those before it.
fn valued_byte_of<'a>(
    names: &[u8],
    before: &[u8],
    bytes: &'a [u8],
) -> Result<(u8, &'a [u8]), ReadFault>
    ensures { Gives (λ x. (x.0, x.1.now)) result ((valued_byte names.now before.now).read bytes.now) }
{
    let (byte, rest) = u8_of(bytes)?;
    let names_here = names.get(before.len()).copied().unwrap_or(0);
    if byte & names_here == byte {
        return Ok((byte, rest));
    }
    Err(ReadFault::Broken(bytes.len()))
}

/// The bitmap of the values, which are only where a row names one.
fn valued_of<'a>(
    rows: u32,
    names: &[u8],
    bytes: &'a [u8],
) -> Result<(&'a [u8], &'a [u8]), ReadFault>
    ensures { Gives (λ x. (x.0.now, x.1.now)) result ((valued rows names.now).read bytes.now) }
{
    let mut rest = bytes;
    for at in 0..bitmap_length(rows) {
        let (_, after) = valued_byte_of(names, &bytes[..at], rest)?;
        rest = after;
    }
    Ok((&bytes[..bitmap_length(rows)], rest))
}

/// The cell of two bits and a lane.
fn cell_from(name: bool, has_value: bool, number: i128) -> Option<Value>
    ensures { result ≡ cell_from name has_value number }
{
    if has_value {
        Some(Value::Num(number))
    } else if name {
        Some(Value::Null)
    } else {
        None
    }
}

/// A number of the kind. Each kind has a call of its own, so that its width and its range are known where its bytes
/// are loaded.
fn lane_of(kind: Kind, bytes: &[u8]) -> Result<(i128, &[u8]), ReadFault>
    requires { 0 < kind_width kind }
    ensures { Gives (λ x. (x.0, x.1.now)) result ((kind_number kind).read bytes.now) }
{
    match kind {
        Kind::Bool => number_of(Kind::Bool, bytes),
        Kind::I8 => number_of(Kind::I8, bytes),
        Kind::I16 => number_of(Kind::I16, bytes),
        Kind::I32 => number_of(Kind::I32, bytes),
        Kind::I64 => number_of(Kind::I64, bytes),
        Kind::U8 => number_of(Kind::U8, bytes),
        Kind::U16 => number_of(Kind::U16, bytes),
        Kind::U32 => number_of(Kind::U32, bytes),
        Kind::U64 => number_of(Kind::U64, bytes),
        Kind::Time => number_of(Kind::Time, bytes),
        Kind::Wide | Kind::Text(_) => number_of(kind, bytes),
    }
}

/// The cell of a row whose bits these are: a number of the kind, which is 0 where there is no value.
fn cell_of(
    kind: Kind,
    name: bool,
    has_value: bool,
    bytes: &[u8],
) -> Result<(Option<Value>, &[u8]), ReadFault>
    requires { 0 < kind_width kind }
    ensures { Gives (λ x. (x.0, x.1.now)) result ((cell_of_bits kind name has_value).read bytes.now) }
{
    let (number, rest) = lane_of(kind, bytes)?;
    if has_value || number == 0 {
        return Ok((cell_from(name, has_value, number), rest));
    }
    Err(ReadFault::Broken(bytes.len()))
}

/// The cells of so many rows, by the bitmaps before them.
fn cells_of<'a>(
    alloc: Global,
    kind: Kind,
    rows: u32,
    names: &[u8],
    values: &[u8],
    bytes: &'a [u8],
) -> Result<(Seq<Option<Value>>, &'a [u8]), ReadFault>
    requires { 0 < kind_width kind }
    ensures { Gives (λ x. (x.0, x.1.now)) result ((cells kind rows names.now values.now).read bytes.now) }
{
    let mut cells = Seq::from_vec(alloc, Vec::with_capacity(alloc, rows as usize)?);
    let mut rest = bytes;
    for row in 0..rows {
        let (cell, after) = cell_of(kind, is_set(names, row), is_set(values, row), rest)?;
        cells.add(cell)?;
        rest = after;
    }
    Ok((cells, rest))
}

/// A column of so many rows of the kind, as its cells.
#[tactic(auto, unfolding(crate::specs::Columns::column))]
fn column_of(
    alloc: Global,
    rows: u32,
    kind: Kind,
    bytes: &[u8],
) -> Result<(Seq<Option<Value>>, &[u8]), ReadFault>
    ensures { Gives (λ x. (x.0, x.1.now)) result ((column rows kind).read bytes.now) }
{
    let (_, rest) = code_of(kind, bytes)?;
    let (names, rest) = named_of(rows, rest)?;
    let (values, rest) = valued_of(rows, names, rest)?;
    let (cells, rest) = cells_of(alloc, kind, rows, names, values, rest)?;
    Ok((cells, rest))
}

/// The columns of so many rows of the kinds, one behind the other.
pub(crate) fn columns_of<'a>(
    alloc: Global,
    rows: u32,
    kinds: &[Kind],
    bytes: &'a [u8],
) -> Result<(Seq<Seq<Option<Value>>>, &'a [u8]), ReadFault>
    ensures { Gives (λ x. (x.0, x.1.now)) result ((columns rows kinds.now).read bytes.now) }
{
    let mut columns = Seq::from_vec(alloc, Vec::with_capacity(alloc, kinds.len())?);
    let mut rest = bytes;
    for kind in kinds {
        let (column, after) = column_of(alloc, rows, *kind, rest)?;
        columns.add(column)?;
        rest = after;
    }
    Ok((columns, rest))
}

// ---- writing

/// The number in the lane of a cell.
fn lane(cell: Option<Value>) -> i128
    ensures { result ≡ lane cell }
{
    match cell {
        Some(Value::Num(number)) => number,
        None | Some(Value::Null) => 0,
    }
}

/// The first eight cells, or all where there are fewer.
fn first_eight(cells: &[Option<Value>]) -> &[Option<Value>]
    ensures { result.now ≡ take 8 cells.now }
{
    if cells.len() < 8 {
        cells
    } else {
        cells.split_at(8).0
    }
}

/// Adds a bitmap of cells.
fn push_bitmap(out: &mut Vec<u8>, bit: Bit, cells: &[Option<Value>]) -> Result<(), NoMem>
    requires { length cells.now < 2 ^ 32 }
    ensures { OnOk result (out.new.items ≡ out.old.items ++ bitmap (map (bit_of bit) cells.now)) }
{
    for at in 0..bitmap_length(cells.len() as u32) {
        let byte = packed(bit, first_eight(&cells[8 * at..]));
        out.push(byte)?;
    }
    Ok(())
}

/// Adds the lane of a cell.
fn push_lane(out: &mut Vec<u8>, kind: Kind, cell: Option<Value>) -> Result<(), NoMem>
    requires fixed { IsTrue (is_fixed kind) }
    requires cell { IsCellOf kind cell }
    ensures { OnOk result (out.new.items ≡ out.old.items ++ spelling kind (lane cell)) }
{
    let mut bytes = [0u8; 16];
    let size = width(kind);
    store(kind, lane(cell), &mut bytes[..size]);
    out.extend_from_slice(&bytes[..size])?;
    Ok(())
}

/// Adds the lanes of cells.
fn push_lanes(out: &mut Vec<u8>, kind: Kind, cells: &[Option<Value>]) -> Result<(), NoMem>
    requires fixed { IsTrue (is_fixed kind) }
    requires cells { AllByRecursion (IsCellOf kind) cells.now }
    ensures { OnOk result (out.new.items ≡ out.old.items ++ flat_map (λ cell. spelling kind (lane cell)) cells.now) }
{
    for cell in cells {
        push_lane(out, kind, *cell)?;
    }
    Ok(())
}

/// Adds a column of cells of the kind.
#[tactic(auto, unfolding(crate::specs::Columns::column))]
pub(crate) fn push_column(
    out: &mut Vec<u8>,
    kind: Kind,
    cells: &[Option<Value>],
) -> Result<(), NoMem>
    requires few { length cells.now < 2 ^ 32 }
    requires fixed { IsTrue (is_fixed kind) }
    requires cells { AllByRecursion (IsCellOf kind) cells.now }
    ensures { OnOk result (out.new.items ≡ out.old.items ++ (column (length cells.now) kind).spelled cells.now) }
{
    out.push(td_cols::code(kind))?;
    push_bitmap(out, Bit::Named, cells)?;
    push_bitmap(out, Bit::Valued, cells)?;
    push_lanes(out, kind, cells)?;
    Ok(())
}
