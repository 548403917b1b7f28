//! Reading what stands before the blocks.
ghost use Rattle.std.specs.Prelude.{◌≡◌, ◌+◌, ◌*◌, ◌&&◌, nat_le, [], IfOk, None};
ghost use Rattle.std.specs.Int.{w32, w64};
ghost use Rattle.td_layer.specs.Scans.{HasScanCause};
ghost use Rattle.td_codec.specs.Fields.{Gives, checked, number};
ghost use Rattle.td_codec.specs.Lists.{counted, items_read};
ghost use Rattle.td_fileio.specs.Days.{is_in_day};
ghost use Rattle.td_fileio.specs.Places.{GivesPlaced, field_at};
ghost use Rattle.td_fileio.specs.Reading.{IsAhead, IsSameFile};
ghost use Rattle.td_sttfile.specs.Cuts.{follows, begins_apart, cut_behind};
ghost use Rattle.td_sttfile.specs.Opening.{last_cut, cut_items, magic, front, opening, opening_length, opening_parts, opening_at};

use crate::format::{FILE_MAGIC, FileCut};
use crate::places::bytes_at;
use std::alloc::Global;
use td_codec::{ReadFault, u32_of, u64_of};
use td_fileio::{Ahead, FileBytes, is_in_day, placed};
use td_layer::{ScanFault, Seq};

/// What stands before the blocks of a file: its day range, its cuts, and how many blocks there are.
#[derive(Debug, Drop)]
pub(crate) struct Opening {
    pub range: u32,
    pub cuts: Seq<FileCut>,
    pub blocks: u32,
}

// ---- fields

// The magic.
fn magic_of(bytes: &[u8]) -> Result<(u32, &[u8]), ReadFault>
    ensures read { Gives (λ x. (x.0, x.1.now)) result (magic.read bytes.now) }
    ensures magic { IfOk result (λ x. x.0 ≡ FILE_MAGIC) }
{
    let (number, rest) = u32_of(bytes)?;
    if number == FILE_MAGIC {
        return Ok((number, rest));
    }
    Err(ReadFault::Broken(bytes.len()))
}

// The day range and the count of the cuts.
#[tactic(auto, unfolding(crate::specs::Opening::front))]
fn front_of(bytes: &[u8]) -> Result<(u32, u32, &[u8]), ReadFault>
    ensures { Gives (λ x. ((FILE_MAGIC, (x.0, x.1)), x.2.now)) result (front.read bytes.now) }
{
    let (_, rest) = magic_of(bytes)?;
    let (range, rest) = u32_of(rest)?;
    let (cuts, rest) = u32_of(rest)?;
    Ok((range, cuts, rest))
}

// Whether a cut's table is not below that of the cut before.
fn follows(before: Option<FileCut>, table: u32) -> bool
    ensures { result ≡ follows before table }
{
    match before {
        None => true,
        Some(cut) => cut.table <= table,
    }
}

// Whether a cut begins apart from the cut before, where that is of the same table.
fn begins_apart(before: Option<FileCut>, table: u32, lo: u64) -> bool
    ensures { result ≡ begins_apart before table lo }
{
    match before {
        None => true,
        Some(cut) => cut.table != table || (cut.hi < lo && 1 < lo - cut.hi),
    }
}

// The table of a cut behind another.
fn cut_table_of(before: Option<FileCut>, bytes: &[u8]) -> Result<(u32, &[u8]), ReadFault>
    ensures { Gives (λ x. (x.0, x.1.now)) result ((checked (number w32) (follows before)).read bytes.now) }
{
    let (table, rest) = u32_of(bytes)?;
    if follows(before, table) {
        return Ok((table, rest));
    }
    Err(ReadFault::Broken(bytes.len()))
}

// The first timestamp of a cut of a table behind another cut.
fn cut_lo_of(
    range: u32,
    before: Option<FileCut>,
    table: u32,
    bytes: &[u8],
) -> Result<(u64, &[u8]), ReadFault>
    ensures { Gives (λ x. (x.0, x.1.now)) result
        ((checked (number w64) (λ lo. is_in_day range lo && begins_apart before table lo)).read bytes.now) }
{
    let (lo, rest) = u64_of(bytes)?;
    if is_in_day(range, lo) && begins_apart(before, table, lo) {
        return Ok((lo, rest));
    }
    Err(ReadFault::Broken(bytes.len()))
}

// The last timestamp of a cut.
fn cut_hi_of(range: u32, lo: u64, bytes: &[u8]) -> Result<(u64, &[u8]), ReadFault>
    ensures { Gives (λ x. (x.0, x.1.now)) result
        ((checked (number w64) (λ hi. nat_le lo hi && is_in_day range hi)).read bytes.now) }
{
    let (hi, rest) = u64_of(bytes)?;
    if lo <= hi && is_in_day(range, hi) {
        return Ok((hi, rest));
    }
    Err(ReadFault::Broken(bytes.len()))
}

// A cut behind another.
#[tactic(auto, unfolding(crate::specs::Cuts::cut_behind))]
fn cut_of(range: u32, before: Option<FileCut>, bytes: &[u8]) -> Result<(FileCut, &[u8]), ReadFault>
    ensures { Gives (λ x. (x.0, x.1.now)) result ((cut_behind range before).read bytes.now) }
{
    let (table, rest) = cut_table_of(before, bytes)?;
    let (lo, rest) = cut_lo_of(range, before, table, rest)?;
    let (hi, rest) = cut_hi_of(range, lo, rest)?;
    Ok((FileCut { table, lo, hi }, rest))
}

// The last of some cuts.
fn last_cut(cuts: &[FileCut]) -> Option<FileCut>
    ensures { result ≡ last_cut cuts.now }
{
    match cuts.last() {
        None => None,
        Some(cut) => Some(*cut),
    }
}

// So many cuts.
fn cuts_of(
    alloc: Global,
    range: u32,
    count: u32,
    bytes: &[u8],
) -> Result<(Seq<FileCut>, &[u8]), ReadFault>
    ensures { Gives (λ x. (x.0, x.1.now)) result (items_read (cut_items range) [] count bytes.now) }
{
    let mut cuts = Seq::new(alloc);
    let mut rest = bytes;
    for _ in 0..count {
        let (cut, after) = cut_of(range, last_cut(cuts.as_slice()), rest)?;
        cuts.add(cut)?;
        rest = after;
    }
    Ok((cuts, rest))
}

// The count of the cuts, and the cuts.
fn cut_list_of(alloc: Global, range: u32, bytes: &[u8]) -> Result<(Seq<FileCut>, &[u8]), ReadFault>
    ensures { Gives (λ x. (x.0, x.1.now)) result ((counted (cut_items range)).read bytes.now) }
{
    let (count, rest) = u32_of(bytes)?;
    let (cuts, rest) = cuts_of(alloc, range, count, rest)?;
    Ok((cuts, rest))
}

// The day range, the cuts and the count of the blocks.
#[tactic(auto, unfolding(crate::specs::Opening::opening))]
fn opening_of(alloc: Global, bytes: &[u8]) -> Result<(Opening, &[u8]), ReadFault>
    ensures { Gives (λ x. (opening_parts x.0, x.1.now)) result (opening.read bytes.now) }
{
    let (_, rest) = magic_of(bytes)?;
    let (range, rest) = u32_of(rest)?;
    let (cuts, rest) = cut_list_of(alloc, range, rest)?;
    let (blocks, rest) = u32_of(rest)?;
    Ok((
        Opening {
            range,
            cuts,
            blocks,
        },
        rest,
    ))
}

// ---- the file

// The day range and the count of the cuts of a file.
fn front_at<F: FileBytes>(
    alloc: Global,
    file: &mut F,
    ahead: &mut Ahead,
) -> Result<(u32, u32), ScanFault>
    requires ahead { IsAhead (F.bytes file.old) ahead.old.from ahead.old.bytes }
    ensures read { GivesPlaced (λ x. ((FILE_MAGIC, (x.0, x.1)), 12)) (F.bytes file.old) (F.file file.old) result
        (field_at front 12 0) }
    ensures ahead { IsAhead (F.bytes file.new) ahead.new.from ahead.new.bytes }
    ensures file { IsSameFile (F.bytes file.old) (F.bytes file.new) (F.file file.old) (F.file file.new)
        (F.size file.old) (F.size file.new) }
    ensures cause { HasScanCause None (F.count file.old) (F.count file.new) result }
{
    let part = bytes_at(alloc, file, ahead, 0, 12)?;
    match front_of(part.as_slice()) {
        Ok((range, cuts, _)) => Ok((range, cuts)),
        Err(fault) => Err(placed(file.name(), 0, part.len(), fault)),
    }
}

// The opening of a file with so many cuts.
fn whole_at<F: FileBytes>(
    alloc: Global,
    file: &mut F,
    ahead: &mut Ahead,
    cuts: u32,
) -> Result<Opening, ScanFault>
    requires ahead { IsAhead (F.bytes file.old) ahead.old.from ahead.old.bytes }
    ensures read { GivesPlaced (λ o. (opening_parts o, opening_length cuts)) (F.bytes file.old) (F.file file.old)
        result (field_at opening (opening_length cuts) 0) }
    ensures ahead { IsAhead (F.bytes file.new) ahead.new.from ahead.new.bytes }
    ensures file { IsSameFile (F.bytes file.old) (F.bytes file.new) (F.file file.old) (F.file file.new)
        (F.size file.old) (F.size file.new) }
    ensures cause { HasScanCause None (F.count file.old) (F.count file.new) result }
{
    let part = bytes_at(alloc, file, ahead, 0, 16 + 20 * cuts as usize)?;
    match opening_of(alloc, part.as_slice()) {
        Ok((opening, _)) => Ok(opening),
        Err(fault) => Err(placed(file.name(), 0, part.len(), fault)),
    }
}

/// The opening of a file, with the place behind it.
#[tactic(auto, unfolding(crate::specs::Opening::opening_at))]
pub(crate) fn opening_at<F: FileBytes>(
    alloc: Global,
    file: &mut F,
    ahead: &mut Ahead,
) -> Result<(Opening, u64), ScanFault>
    requires ahead { IsAhead (F.bytes file.old) ahead.old.from ahead.old.bytes }
    ensures read { GivesPlaced (λ x. (opening_parts x.0, x.1)) (F.bytes file.old) (F.file file.old) result
        opening_at }
    ensures ahead { IsAhead (F.bytes file.new) ahead.new.from ahead.new.bytes }
    ensures file { IsSameFile (F.bytes file.old) (F.bytes file.new) (F.file file.old) (F.file file.new)
        (F.size file.old) (F.size file.new) }
    ensures cause { HasScanCause None (F.count file.old) (F.count file.new) result }
{
    let (_, cuts) = front_at(alloc, file, ahead)?;
    let opening = whole_at(alloc, file, ahead, cuts)?;
    Ok((opening, 16 + 20 * u64::from(cuts)))
}
