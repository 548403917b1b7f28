//! What a block tells of itself without its kinds.
ghost use Rattle.std.specs.Prelude.{◌≡◌, ◌<◌, ◌≤◌, ◌^◌, ◌==◌, ◌&&◌, nat_le, length, [], IfSome, IfOk};
ghost use Rattle.std.specs.Int.{w16, w32};
ghost use Rattle.td_cols.specs.Kinds.{kind_width};
ghost use Rattle.td_codec.specs.Fields.{Gives, number, checked};
ghost use Rattle.td_codec.specs.Lists.{items_read};
ghost use Rattle.td_block.specs.Blocks.{Answers, IsAnswer, GivesFor, is_count, head};
ghost use Rattle.td_block.specs.Headers.{column_length, block_length, kind_of_code, passed, first_time, last_time, kind_read, kinds_of, head_parts, header_read, head_found, header_found};

use crate::bits::bitmap_length;
use crate::block::{BlockFault, placed};
use std::alloc::Global;
use td_codec::{ReadFault, u8_of, u64_of};
use td_cols::{Kind, width};
use td_layer::Seq;
use td_limits::{BLOCK_ROWS, LAST_TIMESTAMP};

/// The four bytes that begin a block, `TDB1`, as a number of 32 bits with the lowest byte first.
pub const BLOCK_MAGIC: u32 = 0x3142_4454;

/// What the head of a block says, its first 14 bytes: the number of its table, how many rows it has, and how many
/// columns.
#[derive(Clone, Copy, Debug, PartialEq, Eq)]
pub struct Head {
    pub table: u32,
    pub rows: u32,
    pub columns: u16,
}

/// What a block says of itself: the number of its table, how many rows it has, the kinds of its columns, its first
/// and its last timestamp, and how many bytes it takes.
#[derive(Debug, Drop)]
pub struct Header {
    pub table: u32,
    pub rows: u32,
    pub kinds: Seq<Kind>,
    pub first: u64,
    pub last: u64,
    pub size: u64,
}

// ---- lengths

/// How many bytes a column of so many rows takes: its code, its two bitmaps and its lanes.
pub fn column_length(rows: u32, kind: Kind) -> u64
    ensures length { result ≡ column_length rows kind }
    ensures few { result < 2 ^ 37 }
{
    1 + 2 * bitmap_length(rows) as u64 + rows as u64 * width(kind) as u64
}

/// How many bytes a block of so many rows with columns of these kinds takes.
pub fn block_length(rows: u32, kinds: &[Kind]) -> u64
    requires { length kinds.now < 2 ^ 16 }
    ensures { result ≡ block_length rows kinds.now }
{
    let mut size = 14 + 16 * rows as u64;
    for kind in kinds {
        size += column_length(rows, *kind);
    }
    size
}

// ---- the head

/// A number of 32 bits, or how many bytes there are where it is cut short.
#[tactic(auto, unfolding(td_codec::specs::Fields::number_read))]
fn number_32(bytes: &[u8]) -> Result<(u32, &[u8]), usize>
    ensures { GivesFor (λ x. (x.0, x.1.now)) result ((number w32).read bytes.now) }
{
    if bytes.len() < 4 {
        return Err(bytes.len());
    }
    let (front, rest) = bytes.split_at(4);
    let number = u32::from_le_bytes([front[0], front[1], front[2], front[3]]);
    Ok((number, rest))
}

/// A number of 16 bits, or how many bytes there are where it is cut short.
#[tactic(auto, unfolding(td_codec::specs::Fields::number_read))]
fn number_16(bytes: &[u8]) -> Result<(u16, &[u8]), usize>
    ensures { GivesFor (λ x. (x.0, x.1.now)) result ((number w16).read bytes.now) }
{
    if bytes.len() < 2 {
        return Err(bytes.len());
    }
    let (front, rest) = bytes.split_at(2);
    let number = u16::from_le_bytes([front[0], front[1]]);
    Ok((number, rest))
}

/// The bytes that begin a block.
fn magic_of(bytes: &[u8]) -> Result<(u32, &[u8]), usize>
    ensures read { GivesFor (λ x. (x.0, x.1.now)) result
        ((checked (number w32) (λ n. n == BLOCK_MAGIC)).read bytes.now) }
    ensures magic { IfOk result (λ x. x.0 ≡ BLOCK_MAGIC) }
{
    let (magic, rest) = number_32(bytes)?;
    if magic == BLOCK_MAGIC {
        return Ok((magic, rest));
    }
    Err(bytes.len())
}

/// The number of a table.
fn table_of(bytes: &[u8]) -> Result<(u32, &[u8]), usize>
    ensures { GivesFor (λ x. (x.0, x.1.now)) result ((checked (number w32) (λ n. nat_le 1 n)).read bytes.now) }
{
    let (table, rest) = number_32(bytes)?;
    if 1 <= table {
        return Ok((table, rest));
    }
    Err(bytes.len())
}

/// The count of rows.
fn row_count_of(bytes: &[u8]) -> Result<(u32, &[u8]), usize>
    ensures read { GivesFor (λ x. (x.0, x.1.now)) result
        ((checked (number w32) (λ n. nat_le 1 n && nat_le n BLOCK_ROWS)).read bytes.now) }
    ensures some { IfOk result (λ x. 1 ≤ x.0) }
{
    let (rows, rest) = number_32(bytes)?;
    if 1 <= rows && rows <= BLOCK_ROWS {
        return Ok((rows, rest));
    }
    Err(bytes.len())
}

/// Whether a count of columns is the wanted one, where one is wanted.
fn is_count(wanted: Option<usize>, count: u16) -> bool
    ensures { result ≡ is_count wanted count }
{
    match wanted {
        None => true,
        Some(wanted) => count as usize == wanted,
    }
}

/// The count of columns, which is the wanted one, where one is wanted.
fn column_count_of(wanted: Option<usize>, bytes: &[u8]) -> Result<(u16, &[u8]), usize>
    ensures { GivesFor (λ x. (x.0, x.1.now)) result ((checked (number w16) (is_count wanted)).read bytes.now) }
{
    let (count, rest) = number_16(bytes)?;
    if is_count(wanted, count) {
        return Ok((count, rest));
    }
    Err(bytes.len())
}

/// The head, with the wanted count of columns, where one is wanted; or how many bytes are left where its first fault
/// is.
#[tactic(auto, unfolding(crate::specs::Blocks::head))]
fn head_in(wanted: Option<usize>, bytes: &[u8]) -> Result<(Head, &[u8]), usize>
    ensures read { GivesFor (λ x. (head_parts x.0, x.1.now)) result ((head wanted).read bytes.now) }
    ensures some { IfOk result (λ x. 1 ≤ x.0.rows) }
{
    let (_, rest) = magic_of(bytes)?;
    let (table, rest) = table_of(rest)?;
    let (rows, rest) = row_count_of(rest)?;
    let (columns, rest) = column_count_of(wanted, rest)?;
    Ok((
        Head {
            table,
            rows,
            columns,
        },
        rest,
    ))
}

/// The head of a block that is read on.
pub(crate) fn front_of(wanted: Option<usize>, bytes: &[u8]) -> Result<(Head, &[u8]), ReadFault>
    ensures read { Gives (λ x. (head_parts x.0, x.1.now)) result ((head wanted).read bytes.now) }
    ensures some { IfOk result (λ x. 1 ≤ x.0.rows) }
{
    match head_in(wanted, bytes) {
        Ok(found) => Ok(found),
        Err(left) => Err(ReadFault::Broken(left)),
    }
}

/// The head of the block that begins the bytes, of which it takes 14, or the place of its first fault. It takes no
/// memory.
#[tactic(auto, unfolding(crate::specs::Headers::head_found))]
pub fn head_of(bytes: &[u8]) -> Result<Head, BlockFault>
    ensures { IsAnswer result (head_found bytes.now) }
{
    match head_in(None, bytes) {
        Ok((head, _)) => Ok(head),
        Err(left) => Err(BlockFault::Bad(bytes.len().saturating_sub(left) as u64)),
    }
}

// ---- the header

/// The kind of a code, where columns of the kind can stand in blocks: 1 to 10.
#[tactic(auto, unfolding(td_cols::specs::Kinds::kind_width))]
pub fn kind_of(code: u8) -> Option<Kind>
    ensures kind { result ≡ kind_of_code code }
    ensures some { IfSome result (λ kind. 0 < kind_width kind) }
{
    match code {
        1 => Some(Kind::Bool),
        2 => Some(Kind::I8),
        3 => Some(Kind::I16),
        4 => Some(Kind::I32),
        5 => Some(Kind::I64),
        6 => Some(Kind::U8),
        7 => Some(Kind::U16),
        8 => Some(Kind::U32),
        9 => Some(Kind::U64),
        10 => Some(Kind::Time),
        _ => None,
    }
}

/// What is behind so many fields of one width.
fn passed(width: usize, count: usize, bytes: &[u8]) -> Result<&[u8], ReadFault>
    requires some { 0 < width }
    requires narrow { width ≤ 16 }
    requires few { count < 2 ^ 32 }
    ensures { Gives (λ x. x.now) result (passed width count bytes.now) }
{
    if bytes.len() < width * count {
        return Err(ReadFault::Broken(bytes.len() % width));
    }
    let (_, rest) = bytes.split_at(width * count);
    Ok(rest)
}

/// The first timestamp.
fn first_time(bytes: &[u8]) -> Result<(u64, &[u8]), ReadFault>
    ensures { Gives (λ x. (x.0, x.1.now)) result (first_time bytes.now) }
{
    let (time, rest) = u64_of(bytes)?;
    if time <= LAST_TIMESTAMP {
        return Ok((time, rest));
    }
    Err(ReadFault::Broken(bytes.len()))
}

/// The last of so many timestamps behind the first.
fn last_time(more: u32, first: u64, bytes: &[u8]) -> Result<(u64, &[u8]), ReadFault>
    ensures { Gives (λ x. (x.0, x.1.now)) result (last_time more first bytes.now) }
{
    if more == 0 {
        return Ok((first, bytes));
    }
    let after = passed(8, (more - 1) as usize, bytes)?;
    let (time, rest) = u64_of(after)?;
    if time <= LAST_TIMESTAMP && first < time {
        return Ok((time, rest));
    }
    Err(ReadFault::Broken(after.len()))
}

/// The kind of a column, behind which the column's bytes are passed over.
#[tactic(auto, unfolding(crate::specs::Headers::kind_read))]
fn kind_in(rows: u32, bytes: &[u8]) -> Result<(Kind, &[u8]), ReadFault>
    ensures { Gives (λ x. (x.0, x.1.now)) result (kind_read rows bytes.now) }
{
    let (code, rest) = u8_of(bytes)?;
    let Some(kind) = kind_of(code) else {
        return Err(ReadFault::Broken(bytes.len()));
    };
    let rest = passed(1, 2 * bitmap_length(rows), rest)?;
    let rest = passed(width(kind), rows as usize, rest)?;
    Ok((kind, rest))
}

/// The kinds of so many columns.
fn kinds_in<'a>(
    alloc: Global,
    rows: u32,
    columns: u16,
    bytes: &'a [u8],
) -> Result<(Seq<Kind>, &'a [u8]), ReadFault>
    ensures read { Gives (λ x. (x.0, x.1.now)) result (items_read (kinds_of rows) [] columns bytes.now) }
    ensures few { IfOk result (λ x. length x.0 < 2 ^ 16) }
{
    let mut kinds = Seq::from_vec(alloc, Vec::with_capacity(alloc, columns as usize)?);
    let mut rest = bytes;
    for _ in 0..columns {
        let (kind, after) = kind_in(rows, rest)?;
        kinds.add(kind)?;
        rest = after;
    }
    Ok((kinds, rest))
}

/// The header of the block at the front of the bytes, and the bytes behind the block.
#[tactic(auto, unfolding(crate::specs::Headers::header_read))]
fn header_in(alloc: Global, bytes: &[u8]) -> Result<(Header, &[u8]), ReadFault>
    ensures { Gives (λ x. (x.0, x.1.now)) result (header_read bytes.now) }
{
    let (head, rest) = front_of(None, bytes)?;
    let (first, rest) = first_time(rest)?;
    let (last, rest) = last_time(head.rows - 1, first, rest)?;
    let rest = passed(8, head.rows as usize, rest)?;
    let (kinds, rest) = kinds_in(alloc, head.rows, head.columns, rest)?;
    let size = block_length(head.rows, kinds.as_slice());
    Ok((
        Header {
            table: head.table,
            rows: head.rows,
            kinds,
            first,
            last,
            size,
        },
        rest,
    ))
}

/// The header of the block that begins the bytes, by its own kinds, or the place of its first fault. Of the
/// timestamps the first and the last are looked at and of the columns the codes; all else is passed over, but must be
/// there.
#[tactic(auto, unfolding(crate::specs::Headers::header_found))]
pub fn header_of(alloc: Global, bytes: &[u8]) -> Result<Header, BlockFault>
    ensures { Answers result (header_found bytes.now) }
{
    match header_in(alloc, bytes) {
        Ok((header, _)) => Ok(header),
        Err(fault) => Err(placed(bytes.len(), fault)),
    }
}
