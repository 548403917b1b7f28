//! Reading the block of an entry.
ghost use Rattle.std.specs.Prelude.{◌≡◌, ◌+◌, ◌*◌, ◌<◌, ◌≤◌, ◌^◌, min, true, length, take, drop, replicate, slice_index, IfOk, IfErr, None};
ghost use Rattle.std.specs.List.{AllByRecursion};
ghost use Rattle.td_layer.specs.Columns.{AreColumnCells};
ghost use Rattle.td_layer.specs.Scans.{HasScanCause};
ghost use Rattle.td_block.specs.Bits.{bitmap_length as bitmap_bytes, packed};
ghost use Rattle.td_block.specs.Rows.{CanHold, times_of};
ghost use Rattle.td_block.specs.Blocks.{Answers, Begins};
ghost use Rattle.td_block.specs.Headers.{head_found};
ghost use Rattle.td_fileio.specs.Places.{GivesPlaced};
ghost use Rattle.td_fileio.specs.Reading.{IsAhead, IsPart, IsSameFile};
ghost use Rattle.td_layer.specs.declared.scans.ScanFault.TheVariants.{Damaged};
ghost use Rattle.td_datafile.specs.Reading.{Answered, IsNoDamage};
ghost use Rattle.td_datafile.specs.Blocks.{is_behind, rows_checked, full_bitmap, first_other, first_unnamed, whole_decoded, moved, own_length, entry_length, agreeing, checked_rows, own_block};

use crate::format::Entry;
use crate::opening::bytes_at;
use std::alloc::Global;
use td_block::{Block, BlockFault, Head, block_length, column_length, decode, head_of};
use td_cols::Kind;
use td_fileio::{Ahead, FileBytes, is_in_day};
use td_layer::{Key, Partial, ScanFault, Seq};

/// What is wanted of a file: the partials of a table with columns of these kinds, from one timestamp to another, both
/// among them.
#[derive(Clone, Copy, Debug)]
pub(crate) struct Wanted<'a> {
    pub table: u32,
    pub kinds: &'a [Kind],
    pub lo: u64,
    pub hi: u64,
}

/// Where a scan stands: the day range of the file, which entry is next, where that entry stands, and the last key
/// before its block.
#[derive(Clone, Copy, Debug)]
pub(crate) struct Spot {
    pub range: u32,
    pub next: usize,
    pub place: u64,
    pub last: Key,
}

// ---- keys

// Whether a key comes behind the last one before it.
fn is_behind(last: Key, key: Key) -> bool
    ensures { result ≡ is_behind last key }
{
    last.table < key.table || (last.table == key.table && last.ts < key.ts)
}

// The last key of rows of a table behind a key, or the place of the first timestamp that doesn't rise or lies outside
// the day range.
fn rows_checked(
    range: u32,
    table: u32,
    last: Key,
    place: u64,
    rows: &[(u64, Partial)],
) -> Result<Key, u64>
    requires { place + 8 * length rows.now < 2 ^ 64 }
    ensures { result ≡ rows_checked range table last place rows.now }
{
    let mut last = last;
    let mut place = place;
    let mut left = rows;
    while let Some((row, rest)) = left.split_first() {
        let key = Key { table, ts: row.0 };
        if !is_behind(last, key) || !is_in_day(range, row.0) {
            return Err(place);
        }
        last = key;
        place += 8;
        left = rest;
    }
    Ok(last)
}

// ---- blocks whose cells are all named

// How many bytes a bitmap of so many rows takes.
fn bitmap_length(rows: u32) -> u32
    ensures { result ≡ bitmap_bytes rows }
{
    ((u64::from(rows) + 7) / 8) as u32
}

// A byte whose first so many bits are set, or all of them.
fn set_bits(count: u32) -> u8
    ensures { result ≡ packed (replicate (min 8 count) true) }
{
    match count {
        0 => 0,
        1 => 1,
        2 => 3,
        3 => 7,
        4 => 15,
        5 => 31,
        6 => 63,
        7 => 127,
        _ => 255,
    }
}

// A byte of the bitmap that names all of so many rows.
fn full_byte(rows: u32, byte: u32) -> u8
    requires { byte < bitmap_bytes rows }
    ensures { result ≡ slice_index (full_bitmap rows) byte }
{
    set_bits(rows - 8 * byte)
}

// The first byte of a bitmap at a place of a part that doesn't name all of so many rows; what is cut short isn't
// looked at.
fn first_in_bitmap(rows: u32, at: usize, part: &[u8]) -> Option<u64>
    requires { at ≤ length part.now }
    ensures { result ≡ first_other at (full_bitmap rows) (drop at part.now) }
{
    let mut place = at;
    for byte in 0..bitmap_length(rows) {
        if place == part.len() {
            return None;
        }
        if full_byte(rows, byte) != part[place] {
            return Some(place as u64);
        }
        place += 1;
    }
    None
}

// The first byte that doesn't name all rows, in the bitmaps of the named cells of columns of these kinds, the first of
// which begins at a place of a part.
fn first_unnamed(at: u64, rows: u32, kinds: &[Kind], part: &[u8]) -> Option<u64>
    ensures { result ≡ first_unnamed at rows kinds.now part.now }
{
    let mut at = at;
    let mut left = kinds;
    while let Some((kind, rest)) = left.split_first() {
        if at >= part.len() as u64 {
            return None;
        }
        if let Some(place) = first_in_bitmap(rows, at as usize + 1, part) {
            return Some(place);
        }
        at += column_length(rows, *kind);
        left = rest;
    }
    None
}

// The block of so many rows that begins a part, all of whose cells are named.
#[tactic(auto, unfolding(crate::specs::Blocks::whole_decoded))]
fn whole_block(alloc: Global, kinds: &[Kind], rows: u32, part: &[u8]) -> Result<Block, BlockFault>
    ensures read { Answers result (whole_decoded kinds.now rows part.now) }
    ensures begins { IfOk result (Begins kinds.now part.now) }
    ensures holds { IfOk result (λ b. CanHold kinds.now b.table b.rows) }
    ensures values { IfOk result (λ b. AllByRecursion (λ row. AreColumnCells row.1.cells) b.rows) }
{
    let unnamed = first_unnamed(14 + 16 * u64::from(rows), rows, kinds, part);
    match decode(alloc, kinds, part) {
        Ok(block) => match unnamed {
            None => Ok(block),
            Some(place) => Err(BlockFault::Bad(place)),
        },
        Err(BlockFault::Bad(at)) => match unnamed {
            None => Err(BlockFault::Bad(at)),
            Some(place) => Err(BlockFault::Bad(place.min(at))),
        },
        Err(BlockFault::NoMemory) => Err(BlockFault::NoMemory),
    }
}

// ---- the block of an entry

// How many bytes the block with a head takes whose columns are of these kinds; those of the head, where it has another
// count of columns.
fn own_length(kinds: &[Kind], head: Head) -> usize
    ensures { result ≡ own_length kinds.now head }
{
    if kinds.len() == head.columns as usize {
        block_length(head.rows, kinds) as usize
    } else {
        14
    }
}

/// How many bytes an entry takes.
pub(crate) fn entry_length(entry: &Entry) -> u64
    requires { entry_length entry.now < 2 ^ 64 }
    ensures { result ≡ entry_length entry.now }
{
    38 + 52 * entry.columns.len() as u64
}

// The first timestamp of rows: 0 where there is none.
fn first_time(rows: &[(u64, Partial)]) -> u64
    ensures { result ≡ slice_index (times_of rows.now) 0 }
{
    match rows.first() {
        None => 0,
        Some(row) => row.0,
    }
}

// The rows of a block with its entry, which stands at a place, and its last timestamp; or the place of the first number
// of the entry that isn't that of the block.
fn agreeing(
    place: u64,
    columns: usize,
    entry: &Entry,
    block: Block,
    last: u64,
) -> Result<Seq<(u64, Partial)>, u64>
    requires { place + 38 < 2 ^ 64 }
    ensures exact { result ≡ agreeing place columns entry.now block last }
    ensures rows { IfOk result (λ rows. rows ≡ block.rows) }
    ensures long { IfOk result (λ rows. length rows ≡ entry.now.rows) }
{
    if block.used != u64::from(entry.size) {
        return Err(place + 8);
    }
    if block.rows.len() != entry.rows as usize {
        return Err(place + 16);
    }
    if first_time(block.rows.as_slice()) != entry.first {
        return Err(place + 20);
    }
    if last != entry.last {
        return Err(place + 28);
    }
    if entry.columns.len() != columns {
        return Err(place + 36);
    }
    Ok(block.rows)
}

// The rows of a block with its entry, which stands at a place behind a key, or the place of the first fault.
fn checked_rows(
    range: u32,
    last: Key,
    place: u64,
    columns: usize,
    entry: &Entry,
    block: Block,
) -> Result<Seq<(u64, Partial)>, u64>
    requires place { place + 38 < 2 ^ 64 }
    requires used { 14 + 8 * length block.rows ≤ block.used }
    requires within { entry.now.offset + block.used < 2 ^ 64 }
    ensures exact { result ≡ checked_rows range last place columns entry.now block }
    ensures rows { IfOk result (λ rows. rows ≡ block.rows) }
    ensures long { IfOk result (λ rows. length rows ≡ entry.now.rows) }
{
    let key = rows_checked(
        range,
        entry.table,
        last,
        entry.offset + 14,
        block.rows.as_slice(),
    )?;
    let rows = agreeing(place, columns, entry, block, key.ts)?;
    Ok(rows)
}

// The head of the block that begins a part of a file at a place.
fn head_in<F: FileBytes>(file: &F, at: u64, part: &[u8]) -> Result<Head, ScanFault>
    requires { at + length part.now < 2 ^ 64 }
    ensures { Answered (F.file file.now) result (moved at (head_found part.now)) }
{
    match head_of(part) {
        Ok(head) => Ok(head),
        Err(BlockFault::Bad(place)) => Err(damaged(file, at + place)),
        Err(BlockFault::NoMemory) => unreachable!(),
    }
}

// The block with this head that begins a part of a file at a place, all of whose cells are named.
fn block_in<F: FileBytes>(
    alloc: Global,
    file: &F,
    kinds: &[Kind],
    at: u64,
    head: Head,
    part: &[u8],
) -> Result<Block, ScanFault>
    requires { at + length part.now < 2 ^ 64 }
    ensures read { Answered (F.file file.now) result (moved at (whole_decoded kinds.now head.rows part.now)) }
    ensures used { IfOk result (λ b. 14 + 8 * length b.rows ≤ b.used) }
    ensures within { IfOk result (λ b. b.used ≤ length part.now) }
    ensures values { IfOk result (λ b. AllByRecursion (λ row. AreColumnCells row.1.cells) b.rows) }
{
    match whole_block(alloc, kinds, head.rows, part) {
        Ok(block) => Ok(block),
        Err(BlockFault::Bad(place)) => Err(damaged(file, at + place)),
        Err(BlockFault::NoMemory) => Err(ScanFault::NoMemory),
    }
}

// The rows of a block with its entry, which stands at a place behind a key.
fn rows_in<F: FileBytes>(
    file: &F,
    range: u32,
    last: Key,
    place: u64,
    columns: usize,
    entry: &Entry,
    block: Block,
) -> Result<Seq<(u64, Partial)>, ScanFault>
    requires place { place + 38 < 2 ^ 64 }
    requires used { 14 + 8 * length block.rows ≤ block.used }
    requires within { entry.now.offset + block.used < 2 ^ 64 }
    ensures read { Answered (F.file file.now) result (checked_rows range last place columns entry.now block) }
    ensures rows { IfOk result (λ rows. rows ≡ block.rows) }
    ensures long { IfOk result (λ rows. length rows ≡ entry.now.rows) }
{
    match checked_rows(range, last, place, columns, entry, block) {
        Ok(rows) => Ok(rows),
        Err(at) => Err(damaged(file, at)),
    }
}

/// The rows of the block of an entry, which stands at a place behind a key. A sound block is read by one call of
/// `part_at`.
#[tactic(auto, unfolding(crate::specs::Blocks::own_block))]
pub(crate) fn own_block<F: FileBytes>(
    alloc: Global,
    file: &mut F,
    ahead: &mut Ahead,
    kinds: &[Kind],
    spot: Spot,
    entry: &Entry,
) -> Result<Seq<(u64, Partial)>, ScanFault>
    requires place { spot.place + 38 < 2 ^ 64 }
    requires ahead { IsAhead (F.bytes file.old) ahead.old.from ahead.old.bytes }
    ensures read { GivesPlaced (λ rows. rows) (F.bytes file.old) (F.file file.old) result
        (own_block kinds.now spot.range spot.last spot.place entry.now) }
    ensures values { IfOk result (AllByRecursion (λ row. AreColumnCells row.1.cells)) }
    ensures long { IfOk result (λ rows. length rows ≡ entry.now.rows) }
    ensures ahead { IsAhead (F.bytes file.new) ahead.new.from ahead.new.bytes }
    ensures file { IsSameFile (F.bytes file.old) (F.bytes file.new) (F.file file.old) (F.file file.new)
        (F.size file.old) (F.size file.new) }
    ensures cause { HasScanCause None (F.count file.old) (F.count file.new) result }
{
    let at = entry.offset;
    let read = (entry.size as usize).max(14);
    let (head, part) = head_and_part(alloc, file, ahead, at, read)?;
    if head.table != entry.table {
        return Err(damaged(file, spot.place + 12));
    }
    let part = own_part(alloc, file, ahead, at, own_length(kinds, head), read, part)?;
    let block = block_in(alloc, file, kinds, at, head, part.as_slice())?;
    let rows = rows_in(
        file,
        spot.range,
        spot.last,
        spot.place,
        kinds.len(),
        entry,
        block,
    )?;
    Ok(rows)
}

/// The fault of damaged bytes at a place of a file.
pub(crate) fn damaged<F: FileBytes>(file: &F, at: u64) -> ScanFault
    ensures { result ≡ Damaged (F.file file.now) at }
{
    ScanFault::Damaged {
        file: file.name(),
        at,
    }
}

// The first bytes of a part, as many as a head takes.
fn front_of(part: &[u8]) -> &[u8]
    ensures { result.now ≡ take 14 part.now }
{
    if part.len() < 14 {
        return part;
    }
    let (front, _) = part.split_at(14);
    front
}

// The head of the block at a place, and the part of the file with so many bytes there.
fn head_and_part<F: FileBytes>(
    alloc: Global,
    file: &mut F,
    ahead: &mut Ahead,
    at: u64,
    size: usize,
) -> Result<(Head, Vec<u8>), ScanFault>
    requires most { 14 ≤ size }
    requires ahead { IsAhead (F.bytes file.old) ahead.old.from ahead.old.bytes }
    ensures read { GivesPlaced (λ x. x.0) (F.bytes file.old) (F.file file.old) result
        (λ all. moved at (head_found (take 14 (drop at all)))) }
    ensures part { IfOk result (λ x. IsPart (F.bytes file.old) (F.size file.old) at size x.1.items) }
    ensures place { IfOk result (λ x. at + length x.1.items < 2 ^ 64) }
    ensures ahead { IsAhead (F.bytes file.new) ahead.new.from ahead.new.bytes }
    ensures file { IsSameFile (F.bytes file.old) (F.bytes file.new) (F.file file.old) (F.file file.new)
        (F.size file.old) (F.size file.new) }
    ensures cause { HasScanCause None (F.count file.old) (F.count file.new) result }
{
    let part = bytes_at(alloc, file, ahead, at, size)?;
    let head = head_in(file, at, front_of(part.as_slice()))?;
    Ok((head, part))
}

// The part of a file with so many bytes at a place, where some that begins there was read.
fn own_part<F: FileBytes>(
    alloc: Global,
    file: &mut F,
    ahead: &mut Ahead,
    at: u64,
    own: usize,
    read: usize,
    part: Vec<u8>,
) -> Result<Vec<u8>, ScanFault>
    requires part { IsPart (F.bytes file.old) (F.size file.old) at read part.items }
    requires place { at + length part.items < 2 ^ 64 }
    requires ahead { IsAhead (F.bytes file.old) ahead.old.from ahead.old.bytes }
    ensures part { IfOk result (λ x. IsPart (F.bytes file.old) (F.size file.old) at own x.items) }
    ensures place { IfOk result (λ x. at + length x.items < 2 ^ 64) }
    ensures fault { IfErr result IsNoDamage }
    ensures ahead { IsAhead (F.bytes file.new) ahead.new.from ahead.new.bytes }
    ensures file { IsSameFile (F.bytes file.old) (F.bytes file.new) (F.file file.old) (F.file file.new)
        (F.size file.old) (F.size file.new) }
    ensures cause { HasScanCause None (F.count file.old) (F.count file.new) result }
{
    if own == read {
        return Ok(part);
    }
    let own = bytes_at(alloc, file, ahead, at, own)?;
    Ok(own)
}
