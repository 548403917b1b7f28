//! Reading blocks one by one.
ghost use Rattle.std.specs.Prelude.{◌≡◌, ◌+◌, ◌*◌, ◌<◌, ◌≤◌, ◌^◌, ◌&&◌, nat_le, nat_lt, [], length, take, drop, IfOk, IfSome, Some, None, Ok};
ghost use Rattle.std.specs.List.{AllByRecursion};
ghost use Rattle.std.specs.Int.{w64};
ghost use Rattle.td_cols.specs.Kinds.{kind_width};
ghost use Rattle.td_layer.specs.Columns.{AreColumnCells};
ghost use Rattle.td_layer.specs.Scans.{HasScanCause};
ghost use Rattle.td_codec.specs.Fields.{checked, number};
ghost use Rattle.td_limits.specs.declared.limits.TheConstants.{LAST_TIMESTAMP};
ghost use Rattle.td_block.specs.Bits.{bitmap_length as bitmap_bytes};
ghost use Rattle.td_block.specs.Headers.{first_time, last_time, head_found};
ghost use Rattle.td_block.specs.Blocks.{decoded};
ghost use Rattle.td_fileio.specs.Places.{GivesPlaced};
ghost use Rattle.td_fileio.specs.Reading.{IsAhead, IsSameFile};
ghost use Rattle.td_sttfile.specs.Reading.{GivesFrom, Answered};
ghost use Rattle.td_sttfile.specs.Blocks.{is_behind, rows_checked, moved, own_length, own_found, own_at, ends_read, kind_said, column_read, next_kind, columns_read, rest_read, passed_at, other_found, is_outside, wanted_found, found_at, block_at};

use crate::places::{bytes_at, damaged, place_behind, u8_at, u64_at};
use std::alloc::Global;
use td_block::{Block, BlockFault, Head, block_length, decode, head_of, kind_of};
use td_cols::{Kind, code, width};
use td_fileio::{Ahead, FileBytes, is_in_day};
use td_layer::{Key, Partial, ScanFault, Seq};
use td_limits::LAST_TIMESTAMP;

/// What is wanted of a file: the partials of a table with columns of these kinds, from one timestamp to another, both
/// among them.
#[derive(Clone, Copy, Debug)]
pub(crate) struct Wanted<'a> {
    pub table: u32,
    pub kinds: &'a [Kind],
    pub lo: u64,
    pub hi: u64,
}

/// Where the next block of a file stands: its place, how many blocks are left from there on, the last key before
/// them, and the day range of the file.
#[derive(Clone, Copy, Debug)]
pub(crate) struct Spot {
    pub range: u32,
    pub blocks: u32,
    pub at: u64,
    pub last: Key,
}

/// What was read of a block: its rows, or none where it is of another table; the place behind it; and its last key.
#[derive(Debug, Drop)]
pub(crate) struct Found {
    pub rows: Seq<(u64, Partial)>,
    pub next: u64,
    pub last: Key,
}

// ---- keys

// Whether a key comes behind the last one before it.
fn is_behind(last: Key, key: Key) -> bool
    ensures { result ≡ is_behind last key }
{
    last.table < key.table || (last.table == key.table && last.ts < key.ts)
}

// The last key of rows of a table behind a key, or the place of the first timestamp that doesn't rise or lies outside
// the day range.
fn rows_checked(
    range: u32,
    table: u32,
    last: Key,
    place: u64,
    rows: &[(u64, Partial)],
) -> Result<Key, u64>
    requires { place + 8 * length rows.now < 2 ^ 64 }
    ensures { result ≡ rows_checked range table last place rows.now }
{
    let mut last = last;
    let mut place = place;
    let mut left = rows;
    while let Some((row, rest)) = left.split_first() {
        let key = Key { table, ts: row.0 };
        if !is_behind(last, key) || !is_in_day(range, row.0) {
            return Err(place);
        }
        last = key;
        place += 8;
        left = rest;
    }
    Ok(last)
}

// ---- a block of the table

// How many bytes the block with a head takes whose columns are of these kinds; those of the head, where it has another
// count of columns.
fn own_length(kinds: &[Kind], head: Head) -> usize
    ensures { result ≡ own_length kinds.now head }
{
    if kinds.len() == head.columns as usize {
        block_length(head.rows, kinds) as usize
    } else {
        14
    }
}

// The block of a table that begins a part of a file at a place.
fn own_in<F: FileBytes>(
    alloc: Global,
    file: &F,
    kinds: &[Kind],
    at: u64,
    part: &[u8],
) -> Result<Block, ScanFault>
    requires { at + length part.now < 2 ^ 64 }
    ensures read { Answered (F.file file.now) result (moved at (decoded kinds.now part.now)) }
    ensures used { IfOk result (λ b. 14 + 8 * length b.rows ≤ b.used) }
    ensures within { IfOk result (λ b. b.used ≤ length part.now) }
    ensures values { IfOk result (λ b. AllByRecursion (λ row. AreColumnCells row.1.cells) b.rows) }
{
    match decode(alloc, kinds, part) {
        Ok(block) => Ok(block),
        Err(BlockFault::Bad(place)) => Err(damaged(file, at + place)),
        Err(BlockFault::NoMemory) => Err(ScanFault::NoMemory),
    }
}

// The rows of a block at a place, whose keys come behind the last one before them.
fn found_in<F: FileBytes>(
    file: &F,
    table: u32,
    range: u32,
    last: Key,
    at: u64,
    block: Block,
) -> Result<Found, ScanFault>
    requires used { 14 + 8 * length block.rows ≤ block.used }
    requires place { at + block.used < 2 ^ 64 }
    ensures read { Answered (F.file file.now) result (own_found table range last at block) }
    ensures rows { IfOk result (λ f. f.rows ≡ block.rows) }
{
    match rows_checked(range, table, last, at + 14, block.rows.as_slice()) {
        Ok(key) => Ok(Found {
            rows: block.rows,
            next: at + block.used,
            last: key,
        }),
        Err(place) => Err(damaged(file, place)),
    }
}

// The block of the table that is wanted, with this head, at a place.
#[tactic(auto, unfolding(crate::specs::Blocks::own_at))]
fn own_at<F: FileBytes>(
    alloc: Global,
    file: &mut F,
    ahead: &mut Ahead,
    wanted: &Wanted<'_>,
    spot: Spot,
    head: Head,
) -> Result<Found, ScanFault>
    requires ahead { IsAhead (F.bytes file.old) ahead.old.from ahead.old.bytes }
    ensures read { GivesPlaced (λ f. f) (F.bytes file.old) (F.file file.old) result
        (own_at wanted.now.kinds.now wanted.now.table spot.range spot.last head spot.at) }
    ensures values { IfOk result (λ f. AllByRecursion (λ row. AreColumnCells row.1.cells) f.rows) }
    ensures ahead { IsAhead (F.bytes file.new) ahead.new.from ahead.new.bytes }
    ensures file { IsSameFile (F.bytes file.old) (F.bytes file.new) (F.file file.old) (F.file file.new)
        (F.size file.old) (F.size file.new) }
    ensures cause { HasScanCause None (F.count file.old) (F.count file.new) result }
{
    let part = bytes_at(alloc, file, ahead, spot.at, own_length(wanted.kinds, head))?;
    let block = own_in(alloc, file, wanted.kinds, spot.at, part.as_slice())?;
    let found = found_in(file, wanted.table, spot.range, spot.last, spot.at, block)?;
    Ok(found)
}

// ---- the ends of a block

// The first timestamp of a block, behind its head.
fn first_time_at<F: FileBytes>(
    alloc: Global,
    file: &mut F,
    ahead: &mut Ahead,
    at: u64,
    size: u64,
) -> Result<u64, ScanFault>
    requires size { size ≡ F.size file.old }
    requires sized { IfSome (F.bytes file.old) (λ all. length all ≡ size) }
    requires within { at ≤ size }
    requires ahead { IsAhead (F.bytes file.old) ahead.old.from ahead.old.bytes }
    ensures read { GivesFrom (λ ts. (ts, at + 8)) (F.bytes file.old) (F.file file.old) size at result first_time }
    ensures ahead { IsAhead (F.bytes file.new) ahead.new.from ahead.new.bytes }
    ensures file { IsSameFile (F.bytes file.old) (F.bytes file.new) (F.file file.old) (F.file file.new)
        (F.size file.old) (F.size file.new) }
    ensures cause { HasScanCause None (F.count file.old) (F.count file.new) result }
{
    let time = u64_at(alloc, file, ahead, at, size)?;
    if time <= LAST_TIMESTAMP {
        return Ok(time);
    }
    Err(damaged(file, at))
}

// A timestamp above the first.
fn later_time_at<F: FileBytes>(
    alloc: Global,
    file: &mut F,
    ahead: &mut Ahead,
    first: u64,
    at: u64,
    size: u64,
) -> Result<u64, ScanFault>
    requires size { size ≡ F.size file.old }
    requires sized { IfSome (F.bytes file.old) (λ all. length all ≡ size) }
    requires within { at ≤ size }
    requires ahead { IsAhead (F.bytes file.old) ahead.old.from ahead.old.bytes }
    ensures read { GivesFrom (λ ts. (ts, at + 8)) (F.bytes file.old) (F.file file.old) size at result
        (checked (number w64) (λ ts. nat_le ts LAST_TIMESTAMP && nat_lt first ts)).read }
    ensures ahead { IsAhead (F.bytes file.new) ahead.new.from ahead.new.bytes }
    ensures file { IsSameFile (F.bytes file.old) (F.bytes file.new) (F.file file.old) (F.file file.new)
        (F.size file.old) (F.size file.new) }
    ensures cause { HasScanCause None (F.count file.old) (F.count file.new) result }
{
    let time = u64_at(alloc, file, ahead, at, size)?;
    if time <= LAST_TIMESTAMP && first < time {
        return Ok(time);
    }
    Err(damaged(file, at))
}

// The last timestamp of so many behind the first, and the place behind it.
fn last_time_at<F: FileBytes>(
    alloc: Global,
    file: &mut F,
    ahead: &mut Ahead,
    more: u32,
    first: u64,
    at: u64,
    size: u64,
) -> Result<(u64, u64), ScanFault>
    requires size { size ≡ F.size file.old }
    requires sized { IfSome (F.bytes file.old) (λ all. length all ≡ size) }
    requires within { at ≤ size }
    requires ahead { IsAhead (F.bytes file.old) ahead.old.from ahead.old.bytes }
    ensures read { GivesFrom (λ x. x) (F.bytes file.old) (F.file file.old) size at result (last_time more first) }
    ensures ahead { IsAhead (F.bytes file.new) ahead.new.from ahead.new.bytes }
    ensures file { IsSameFile (F.bytes file.old) (F.bytes file.new) (F.file file.old) (F.file file.new)
        (F.size file.old) (F.size file.new) }
    ensures behind { IfOk result (λ x. x.1 ≡ at + 8 * more) }
    ensures cause { HasScanCause None (F.count file.old) (F.count file.new) result }
{
    if more == 0 {
        return Ok((first, at));
    }
    let place = place_behind(file.name(), size, at, 8, u64::from(more - 1))?;
    let time = later_time_at(alloc, file, ahead, first, place, size)?;
    Ok((time, place + 8))
}

// The first timestamp of a block and the last, and the place behind its timestamps.
#[derive(Clone, Copy, Debug)]
struct Ends {
    first: u64,
    last: u64,
    next: u64,
}

// The ends of the block with this head at a place.
fn ends_at<F: FileBytes>(
    alloc: Global,
    file: &mut F,
    ahead: &mut Ahead,
    head: Head,
    at: u64,
    size: u64,
) -> Result<Ends, ScanFault>
    requires size { size ≡ F.size file.old }
    requires sized { IfSome (F.bytes file.old) (λ all. length all ≡ size) }
    requires within { at + 14 ≤ size }
    requires rows { 1 ≤ head.rows }
    requires ahead { IsAhead (F.bytes file.old) ahead.old.from ahead.old.bytes }
    ensures read { GivesFrom (λ e. ((e.first, e.last), e.next)) (F.bytes file.old) (F.file file.old) size (at + 14)
        result (ends_read head) }
    ensures ahead { IsAhead (F.bytes file.new) ahead.new.from ahead.new.bytes }
    ensures file { IsSameFile (F.bytes file.old) (F.bytes file.new) (F.file file.old) (F.file file.new)
        (F.size file.old) (F.size file.new) }
    ensures behind { IfOk result (λ e. e.next ≡ at + 14 + 8 * head.rows) }
    ensures cause { HasScanCause None (F.count file.old) (F.count file.new) result }
{
    let first = first_time_at(alloc, file, ahead, at + 14, size)?;
    let (last, next) = last_time_at(alloc, file, ahead, head.rows - 1, first, at + 22, size)?;
    Ok(Ends { first, last, next })
}

// ---- a block that is passed over

// How many bytes a bitmap of so many rows takes.
fn bitmap_length(rows: u32) -> u64
    ensures { result ≡ bitmap_bytes rows }
{
    (u64::from(rows) + 7) / 8
}

// The kind of a code, where it is that of the given kind or none is given.
fn kind_said(given: Option<Kind>, number: u8) -> Option<Kind>
    ensures kind { result ≡ kind_said given number }
    ensures some { IfSome result (λ kind. 0 < kind_width kind) }
{
    match given {
        Some(kind) if number != code(kind) => None,
        _ => kind_of(number),
    }
}

// The place behind a column of so many rows, of the given kind where one is given.
fn column_at<F: FileBytes>(
    alloc: Global,
    file: &mut F,
    ahead: &mut Ahead,
    given: Option<Kind>,
    rows: u32,
    at: u64,
    size: u64,
) -> Result<u64, ScanFault>
    requires size { size ≡ F.size file.old }
    requires sized { IfSome (F.bytes file.old) (λ all. length all ≡ size) }
    requires within { at ≤ size }
    requires ahead { IsAhead (F.bytes file.old) ahead.old.from ahead.old.bytes }
    ensures read { GivesFrom (λ next. (tt, next)) (F.bytes file.old) (F.file file.old) size at result
        (column_read given rows) }
    ensures ahead { IsAhead (F.bytes file.new) ahead.new.from ahead.new.bytes }
    ensures file { IsSameFile (F.bytes file.old) (F.bytes file.new) (F.file file.old) (F.file file.new)
        (F.size file.old) (F.size file.new) }
    ensures cause { HasScanCause None (F.count file.old) (F.count file.new) result }
{
    let code = u8_at(alloc, file, ahead, at, size)?;
    let Some(kind) = kind_said(given, code) else {
        return Err(damaged(file, at));
    };
    let number = file.name();
    let lanes = place_behind(number, size, at + 1, 1, 2 * bitmap_length(rows))?;
    let next = place_behind(number, size, lanes, width(kind) as u64, u64::from(rows))?;
    Ok(next)
}

// The first of the given kinds, where there is one, and the others.
fn next_kind(given: &[Kind]) -> (Option<Kind>, &[Kind])
    ensures { (result.0, result.1.now) ≡ next_kind given.now }
{
    match given.split_first() {
        None => (None, given),
        Some((kind, others)) => (Some(*kind), others),
    }
}

// The place behind so many columns of so many rows, the first of the given kinds as far as these go.
fn columns_at<F: FileBytes>(
    alloc: Global,
    file: &mut F,
    ahead: &mut Ahead,
    given: &[Kind],
    rows: u32,
    columns: u16,
    at: u64,
    size: u64,
) -> Result<u64, ScanFault>
    requires size { size ≡ F.size file.old }
    requires sized { IfSome (F.bytes file.old) (λ all. length all ≡ size) }
    requires within { at ≤ size }
    requires ahead { IsAhead (F.bytes file.old) ahead.old.from ahead.old.bytes }
    ensures read { GivesFrom (λ next. (tt, next)) (F.bytes file.old) (F.file file.old) size at result
        (columns_read rows given.now columns) }
    ensures ahead { IsAhead (F.bytes file.new) ahead.new.from ahead.new.bytes }
    ensures file { IsSameFile (F.bytes file.old) (F.bytes file.new) (F.file file.old) (F.file file.new)
        (F.size file.old) (F.size file.new) }
    ensures cause { HasScanCause None (F.count file.old) (F.count file.new) result }
{
    let mut place = at;
    let mut left = given;
    for _ in 0..columns {
        let (kind, others) = next_kind(left);
        let next = column_at(alloc, file, ahead, kind, rows, place, size)?;
        place = next;
        left = others;
    }
    Ok(place)
}

// The place behind the block with this head, whose births stand at a place.
fn rest_at<F: FileBytes>(
    alloc: Global,
    file: &mut F,
    ahead: &mut Ahead,
    given: &[Kind],
    head: Head,
    at: u64,
    size: u64,
) -> Result<u64, ScanFault>
    requires size { size ≡ F.size file.old }
    requires sized { IfSome (F.bytes file.old) (λ all. length all ≡ size) }
    requires within { at ≤ size }
    requires ahead { IsAhead (F.bytes file.old) ahead.old.from ahead.old.bytes }
    ensures read { GivesFrom (λ next. (tt, next)) (F.bytes file.old) (F.file file.old) size at result
        (rest_read given.now head) }
    ensures ahead { IsAhead (F.bytes file.new) ahead.new.from ahead.new.bytes }
    ensures file { IsSameFile (F.bytes file.old) (F.bytes file.new) (F.file file.old) (F.file file.new)
        (F.size file.old) (F.size file.new) }
    ensures cause { HasScanCause None (F.count file.old) (F.count file.new) result }
{
    let columns = place_behind(file.name(), size, at, 8, u64::from(head.rows))?;
    let next = columns_at(
        alloc,
        file,
        ahead,
        given,
        head.rows,
        head.columns,
        columns,
        size,
    )?;
    Ok(next)
}

// A block that is passed over, with this head and these ends: no row, the place behind it and its last key.
#[tactic(auto, unfolding(crate::specs::Blocks::passed_at))]
fn passed_at<F: FileBytes>(
    alloc: Global,
    file: &mut F,
    ahead: &mut Ahead,
    given: &[Kind],
    spot: Spot,
    head: Head,
    ends: Ends,
    size: u64,
) -> Result<Found, ScanFault>
    requires size { size ≡ F.size file.old }
    requires sized { IfSome (F.bytes file.old) (λ all. length all ≡ size) }
    requires within { ends.next ≤ size }
    requires behind { ends.next ≡ spot.at + 14 + 8 * head.rows }
    requires rows { 1 ≤ head.rows }
    requires ahead { IsAhead (F.bytes file.old) ahead.old.from ahead.old.bytes }
    ensures read { GivesPlaced (λ f. f) (F.bytes file.old) (F.file file.old) result (λ all.
        passed_at given.now spot.range spot.last head (ends.first, ends.last) (drop ends.next all) spot.at all) }
    ensures values { IfOk result (λ f. f.rows ≡ []) }
    ensures ahead { IsAhead (F.bytes file.new) ahead.new.from ahead.new.bytes }
    ensures file { IsSameFile (F.bytes file.old) (F.bytes file.new) (F.file file.old) (F.file file.new)
        (F.size file.old) (F.size file.new) }
    ensures cause { HasScanCause None (F.count file.old) (F.count file.new) result }
{
    let first = Key {
        table: head.table,
        ts: ends.first,
    };
    if !is_behind(spot.last, first) || !is_in_day(spot.range, ends.first) {
        return Err(damaged(file, spot.at + 14));
    }
    if !is_in_day(spot.range, ends.last) {
        return Err(damaged(file, ends.next - 8));
    }
    let next = rest_at(alloc, file, ahead, given, head, ends.next, size)?;
    Ok(Found {
        rows: Seq::new(alloc),
        next,
        last: Key {
            table: head.table,
            ts: ends.last,
        },
    })
}

// ---- any block

// The head of the block that begins a part of a file at a place.
fn head_in<F: FileBytes>(file: &F, at: u64, part: &[u8]) -> Result<Head, ScanFault>
    requires { at + length part.now < 2 ^ 64 }
    ensures read { Answered (F.file file.now) result (moved at (head_found part.now)) }
    ensures rows { IfOk result (λ head. 1 ≤ head.rows) }
    ensures long { IfOk result (λ _. 14 ≤ length part.now) }
{
    match head_of(part) {
        Ok(head) => Ok(head),
        Err(BlockFault::Bad(place)) => Err(damaged(file, at + place)),
        Err(BlockFault::NoMemory) => unreachable!(),
    }
}

// The head of the block at a place of a file of this size.
fn head_at<F: FileBytes>(
    alloc: Global,
    file: &mut F,
    ahead: &mut Ahead,
    at: u64,
    size: u64,
) -> Result<Head, ScanFault>
    requires size { size ≡ F.size file.old }
    requires ahead { IsAhead (F.bytes file.old) ahead.old.from ahead.old.bytes }
    ensures read { GivesPlaced (λ h. h) (F.bytes file.old) (F.file file.old) result
        (λ all. moved at (head_found (take 14 (drop at all)))) }
    ensures within { IfOk result (λ _. at + 14 ≤ size) }
    ensures rows { IfOk result (λ head. 1 ≤ head.rows) }
    ensures ahead { IsAhead (F.bytes file.new) ahead.new.from ahead.new.bytes }
    ensures file { IsSameFile (F.bytes file.old) (F.bytes file.new) (F.file file.old) (F.file file.new)
        (F.size file.old) (F.size file.new) }
    ensures cause { HasScanCause None (F.count file.old) (F.count file.new) result }
{
    let part = bytes_at(alloc, file, ahead, at, 14)?;
    let head = head_in(file, at, part.as_slice())?;
    Ok(head)
}

// A block of another table, with this head, which is passed over by its own codes.
fn other_at<F: FileBytes>(
    alloc: Global,
    file: &mut F,
    ahead: &mut Ahead,
    spot: Spot,
    head: Head,
    size: u64,
) -> Result<Found, ScanFault>
    requires size { size ≡ F.size file.old }
    requires sized { IfSome (F.bytes file.old) (λ all. length all ≡ size) }
    requires within { spot.at + 14 ≤ size }
    requires rows { 1 ≤ head.rows }
    requires ahead { IsAhead (F.bytes file.old) ahead.old.from ahead.old.bytes }
    ensures read { GivesPlaced (λ f. f) (F.bytes file.old) (F.file file.old) result (λ all.
        other_found spot.range spot.last head spot.at all (ends_read head (drop (spot.at + 14) all))) }
    ensures values { IfOk result (λ f. AllByRecursion (λ row. AreColumnCells row.1.cells) f.rows) }
    ensures ahead { IsAhead (F.bytes file.new) ahead.new.from ahead.new.bytes }
    ensures file { IsSameFile (F.bytes file.old) (F.bytes file.new) (F.file file.old) (F.file file.new)
        (F.size file.old) (F.size file.new) }
    ensures cause { HasScanCause None (F.count file.old) (F.count file.new) result }
{
    let ends = ends_at(alloc, file, ahead, head, spot.at, size)?;
    let found = passed_at(alloc, file, ahead, &[], spot, head, ends, size)?;
    Ok(found)
}

// Whether a block of the table that is wanted, with this head and these ends, can be passed over.
fn is_outside(wanted: &Wanted<'_>, head: Head, ends: Ends) -> bool
    ensures { result ≡ is_outside wanted.now.kinds.now wanted.now.lo wanted.now.hi head (ends.first, ends.last) }
{
    wanted.kinds.len() == head.columns as usize && (ends.last < wanted.lo || wanted.hi < ends.first)
}

// A block of the table that is wanted, with this head: it is passed over where its ends could be read and lie outside
// of what is wanted, else decoded.
fn wanted_at<F: FileBytes>(
    alloc: Global,
    file: &mut F,
    ahead: &mut Ahead,
    wanted: &Wanted<'_>,
    spot: Spot,
    head: Head,
    size: u64,
) -> Result<Found, ScanFault>
    requires size { size ≡ F.size file.old }
    requires sized { IfSome (F.bytes file.old) (λ all. length all ≡ size) }
    requires within { spot.at + 14 ≤ size }
    requires rows { 1 ≤ head.rows }
    requires ahead { IsAhead (F.bytes file.old) ahead.old.from ahead.old.bytes }
    ensures read { GivesPlaced (λ f. f) (F.bytes file.old) (F.file file.old) result (λ all.
        wanted_found wanted.now.kinds.now wanted.now.table wanted.now.lo wanted.now.hi spot.range spot.last head spot.at
        all (ends_read head (drop (spot.at + 14) all))) }
    ensures values { IfOk result (λ f. AllByRecursion (λ row. AreColumnCells row.1.cells) f.rows) }
    ensures ahead { IsAhead (F.bytes file.new) ahead.new.from ahead.new.bytes }
    ensures file { IsSameFile (F.bytes file.old) (F.bytes file.new) (F.file file.old) (F.file file.new)
        (F.size file.old) (F.size file.new) }
    ensures cause { HasScanCause None (F.count file.old) (F.count file.new) result }
{
    match ends_at(alloc, file, ahead, head, spot.at, size) {
        Ok(ends) if is_outside(wanted, head, ends) => {
            let found = passed_at(alloc, file, ahead, wanted.kinds, spot, head, ends, size)?;
            Ok(found)
        }
        Ok(_) | Err(ScanFault::Damaged { .. }) => {
            let found = own_at(alloc, file, ahead, wanted, spot, head)?;
            Ok(found)
        }
        Err(fault) => Err(fault),
    }
}

// What is read of the block at a place with this head, which is of the table that is wanted or of one below it.
#[tactic(auto, unfolding(crate::specs::Blocks::found_at))]
fn found_at<F: FileBytes>(
    alloc: Global,
    file: &mut F,
    ahead: &mut Ahead,
    wanted: &Wanted<'_>,
    spot: Spot,
    head: Head,
    size: u64,
) -> Result<Found, ScanFault>
    requires size { size ≡ F.size file.old }
    requires sized { IfSome (F.bytes file.old) (λ all. length all ≡ size) }
    requires within { spot.at + 14 ≤ size }
    requires rows { 1 ≤ head.rows }
    requires ahead { IsAhead (F.bytes file.old) ahead.old.from ahead.old.bytes }
    ensures read { GivesPlaced (λ f. f) (F.bytes file.old) (F.file file.old) result
        (found_at wanted.now.kinds.now wanted.now.table wanted.now.lo wanted.now.hi spot.range spot.last head spot.at) }
    ensures values { IfOk result (λ f. AllByRecursion (λ row. AreColumnCells row.1.cells) f.rows) }
    ensures ahead { IsAhead (F.bytes file.new) ahead.new.from ahead.new.bytes }
    ensures file { IsSameFile (F.bytes file.old) (F.bytes file.new) (F.file file.old) (F.file file.new)
        (F.size file.old) (F.size file.new) }
    ensures cause { HasScanCause None (F.count file.old) (F.count file.new) result }
{
    if head.table < wanted.table {
        let found = other_at(alloc, file, ahead, spot, head, size)?;
        return Ok(found);
    }
    let found = wanted_at(alloc, file, ahead, wanted, spot, head, size)?;
    Ok(found)
}

/// What is read of the block at a spot, or nothing where it is of a table above the one that is wanted.
#[tactic(auto, unfolding(crate::specs::Blocks::block_at))]
pub(crate) fn block_at<F: FileBytes>(
    alloc: Global,
    file: &mut F,
    ahead: &mut Ahead,
    wanted: &Wanted<'_>,
    spot: Spot,
) -> Result<Option<Found>, ScanFault>
    requires ahead { IsAhead (F.bytes file.old) ahead.old.from ahead.old.bytes }
    ensures read { GivesPlaced (λ f. f) (F.bytes file.old) (F.file file.old) result
        (block_at wanted.now.kinds.now wanted.now.table wanted.now.lo wanted.now.hi spot.range spot.last spot.at) }
    ensures values { IfOk result (λ o. IfSome o (λ f. AllByRecursion (λ row. AreColumnCells row.1.cells) f.rows)) }
    ensures ahead { IsAhead (F.bytes file.new) ahead.new.from ahead.new.bytes }
    ensures file { IsSameFile (F.bytes file.old) (F.bytes file.new) (F.file file.old) (F.file file.new)
        (F.size file.old) (F.size file.new) }
    ensures cause { HasScanCause None (F.count file.old) (F.count file.new) result }
{
    let size = file.len();
    let head = head_at(alloc, file, ahead, spot.at, size)?;
    if head.table < spot.last.table {
        return Err(damaged(file, spot.at + 4));
    }
    if wanted.table < head.table {
        return Ok(None);
    }
    let found = found_at(alloc, file, ahead, wanted, spot, head, size)?;
    Ok(Some(found))
}
