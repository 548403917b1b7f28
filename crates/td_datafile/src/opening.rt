//! Reading the day range and the index of a file.
ghost use Rattle.std.specs.Prelude.{◌≡◌, ◌+◌, ◌-◌, ◌<◌, ◌≤◌, ◌^◌, ◌==◌, ◌&&◌, nat_le, length, IfOk, IfErr, IfSome, None};
ghost use Rattle.std.specs.List.{flat_map};
ghost use Rattle.std.specs.Int.{w32, w64};
ghost use Rattle.td_layer.specs.declared.scans.ScanFault.TheVariants.{Damaged};
ghost use Rattle.td_layer.specs.Scans.{HasScanCause};
ghost use Rattle.td_codec.specs.Fields.{Gives, checked, number};
ghost use Rattle.td_fileio.specs.Places.{GivesPlaced, field_at};
ghost use Rattle.td_fileio.specs.Reading.{IsAhead, IsPart, IsSameFile};
ghost use Rattle.td_datafile.specs.Index.{entry_bytes};
ghost use Rattle.td_datafile.specs.Entries.{behind};
ghost use Rattle.td_datafile.specs.Known.{AreEntries};
ghost use Rattle.td_datafile.specs.Written.{blocks_begin};
ghost use Rattle.td_datafile.specs.Reading.{IsNoDamage};
ghost use Rattle.td_datafile.specs.Opening.{front, tail, end_place, index_in, checked_end, opening_of, opening_at};

use crate::entries::{Behind, entries_of};
use crate::format::{Entry, FILE_END, FILE_MAGIC};
use std::alloc::Global;
use td_codec::{ReadFault, u32_of, u64_of};
use td_fileio::{Ahead, FileBytes, part_at, placed};
use td_layer::{ScanFault, Seq};

/// What a file says of its blocks: its day range, the place where its index begins, and the entries.
#[derive(Debug, Drop)]
pub(crate) struct Opening {
    pub range: u32,
    pub index: u64,
    pub entries: Seq<Entry>,
}

// ---- fields

// The magic.
fn magic_of(bytes: &[u8]) -> Result<(u32, &[u8]), ReadFault>
    ensures read { Gives (λ x. (x.0, x.1.now)) result ((checked (number w32) (λ n. n == FILE_MAGIC)).read bytes.now) }
    ensures magic { IfOk result (λ x. x.0 ≡ FILE_MAGIC) }
{
    let (number, rest) = u32_of(bytes)?;
    if number == FILE_MAGIC {
        return Ok((number, rest));
    }
    Err(ReadFault::Broken(bytes.len()))
}

// The day range and the count of the blocks.
#[tactic(auto, unfolding(crate::specs::Opening::front))]
fn front_of(bytes: &[u8]) -> Result<(u32, u32, &[u8]), ReadFault>
    ensures { Gives (λ x. ((FILE_MAGIC, (x.0, x.1)), x.2.now)) result (front.read bytes.now) }
{
    let (_, rest) = magic_of(bytes)?;
    let (range, rest) = u32_of(rest)?;
    let (blocks, rest) = u32_of(rest)?;
    Ok((range, blocks, rest))
}

// The end mark.
fn end_mark_of(bytes: &[u8]) -> Result<(u32, &[u8]), ReadFault>
    ensures read { Gives (λ x. (x.0, x.1.now)) result ((checked (number w32) (λ n. n == FILE_END)).read bytes.now) }
    ensures mark { IfOk result (λ x. x.0 ≡ FILE_END) }
{
    let (number, rest) = u32_of(bytes)?;
    if number == FILE_END {
        return Ok((number, rest));
    }
    Err(ReadFault::Broken(bytes.len()))
}

// Where the last bytes of a file of this size begin.
fn end_place(size: u64) -> u64
    ensures { result ≡ end_place size }
{
    size.saturating_sub(12).max(12)
}

// Where the index of a file of this size begins.
fn index_place_of(size: u64, bytes: &[u8]) -> Result<(u64, &[u8]), ReadFault>
    ensures read { Gives (λ x. (x.0, x.1.now)) result
        ((checked (number w64) (λ at. nat_le blocks_begin at && nat_le at (end_place size))).read bytes.now) }
    ensures within { IfOk result (λ x. x.0 ≤ end_place size) }
{
    let (place, rest) = u64_of(bytes)?;
    if 12 <= place && place <= end_place(size) {
        return Ok((place, rest));
    }
    Err(ReadFault::Broken(bytes.len()))
}

// The last bytes of a file of this size: where its index begins.
#[tactic(auto, unfolding(crate::specs::Opening::tail))]
fn tail_of(size: u64, bytes: &[u8]) -> Result<(u64, &[u8]), ReadFault>
    ensures read { Gives (λ x. ((x.0, FILE_END), x.1.now)) result ((tail size).read bytes.now) }
    ensures within { IfOk result (λ x. x.0 ≤ end_place size) }
{
    let (place, rest) = index_place_of(size, bytes)?;
    let (_, rest) = end_mark_of(rest)?;
    Ok((place, rest))
}

// The index of so many blocks, with nothing behind it, and what stands behind the last block.
#[tactic(auto, unfolding(crate::specs::Opening::index_in))]
fn index_of(
    alloc: Global,
    range: u32,
    place: u64,
    blocks: u32,
    bytes: &[u8],
) -> Result<(Seq<Entry>, Behind, &[u8]), ReadFault>
    ensures read { Gives (λ x. (x.0, x.2.now)) result ((index_in range place blocks).read bytes.now) }
    ensures behind { IfOk result (λ x. x.1 ≡ behind x.0) }
    ensures within { IfOk result (λ x. length (flat_map entry_bytes x.0) ≤ length bytes.now) }
    ensures known { IfOk result (λ x. AreEntries x.0) }
{
    let (entries, behind, rest) = entries_of(alloc, range, place, blocks, bytes)?;
    if rest.is_empty() {
        return Ok((entries, behind, rest));
    }
    Err(ReadFault::Broken(rest.len()))
}

// ---- the file

/// A part of a file: so many bytes at a place, or those that are left there.
pub(crate) fn bytes_at<F: FileBytes>(
    alloc: Global,
    file: &mut F,
    ahead: &mut Ahead,
    at: u64,
    most: usize,
) -> Result<Vec<u8>, ScanFault>
    requires ahead { IsAhead (F.bytes file.old) ahead.old.from ahead.old.bytes }
    ensures part { IfOk result (λ part. IsPart (F.bytes file.old) (F.size file.old) at most part.items) }
    ensures place { IfOk result (λ part. at + length part.items < 2 ^ 64) }
    ensures fault { IfErr result IsNoDamage }
    ensures ahead { IsAhead (F.bytes file.new) ahead.new.from ahead.new.bytes }
    ensures file { IsSameFile (F.bytes file.old) (F.bytes file.new) (F.file file.old) (F.file file.new)
        (F.size file.old) (F.size file.new) }
    ensures cause { HasScanCause None (F.count file.old) (F.count file.new) result }
{
    let part = part_at(alloc, file, ahead, at, most)?;
    Ok(part)
}

// The day range and the count of the blocks of a file.
fn front_at<F: FileBytes>(
    alloc: Global,
    file: &mut F,
    ahead: &mut Ahead,
) -> Result<(u32, u32), ScanFault>
    requires ahead { IsAhead (F.bytes file.old) ahead.old.from ahead.old.bytes }
    ensures read { GivesPlaced (λ x. ((FILE_MAGIC, (x.0, x.1)), 12)) (F.bytes file.old) (F.file file.old) result
        (field_at front 12 0) }
    ensures ahead { IsAhead (F.bytes file.new) ahead.new.from ahead.new.bytes }
    ensures file { IsSameFile (F.bytes file.old) (F.bytes file.new) (F.file file.old) (F.file file.new)
        (F.size file.old) (F.size file.new) }
    ensures cause { HasScanCause None (F.count file.old) (F.count file.new) result }
{
    let part = bytes_at(alloc, file, ahead, 0, 12)?;
    match front_of(part.as_slice()) {
        Ok((range, blocks, _)) => Ok((range, blocks)),
        Err(fault) => Err(placed(file.name(), 0, part.len(), fault)),
    }
}

// Where the index of a file of this size begins.
fn tail_at<F: FileBytes>(
    alloc: Global,
    file: &mut F,
    ahead: &mut Ahead,
    size: u64,
) -> Result<u64, ScanFault>
    requires ahead { IsAhead (F.bytes file.old) ahead.old.from ahead.old.bytes }
    ensures read { GivesPlaced (λ x. ((x, FILE_END), end_place size + 12)) (F.bytes file.old) (F.file file.old) result
        (field_at (tail size) 12 (end_place size)) }
    ensures within { IfOk result (λ x. x ≤ end_place size) }
    ensures ahead { IsAhead (F.bytes file.new) ahead.new.from ahead.new.bytes }
    ensures file { IsSameFile (F.bytes file.old) (F.bytes file.new) (F.file file.old) (F.file file.new)
        (F.size file.old) (F.size file.new) }
    ensures cause { HasScanCause None (F.count file.old) (F.count file.new) result }
{
    let at = end_place(size);
    let part = bytes_at(alloc, file, ahead, at, 12)?;
    match tail_of(size, part.as_slice()) {
        Ok((place, _)) => Ok(place),
        Err(fault) => Err(placed(file.name(), at, part.len(), fault)),
    }
}

// The index of so many blocks of a file of a day range, which takes so many bytes at a place, and what stands behind
// the last block.
fn index_at<F: FileBytes>(
    alloc: Global,
    file: &mut F,
    ahead: &mut Ahead,
    range: u32,
    blocks: u32,
    place: u64,
    long: u64,
) -> Result<(Seq<Entry>, Behind), ScanFault>
    requires ahead { IsAhead (F.bytes file.old) ahead.old.from ahead.old.bytes }
    ensures read { GivesPlaced (λ x. (x.0, place + long)) (F.bytes file.old) (F.file file.old) result
        (field_at (index_in range place blocks) long place) }
    ensures behind { IfOk result (λ x. x.1 ≡ behind x.0) }
    ensures room { IfOk result (λ x. place + length (flat_map entry_bytes x.0) < 2 ^ 64) }
    ensures known { IfOk result (λ x. AreEntries x.0) }
    ensures ahead { IsAhead (F.bytes file.new) ahead.new.from ahead.new.bytes }
    ensures file { IsSameFile (F.bytes file.old) (F.bytes file.new) (F.file file.old) (F.file file.new)
        (F.size file.old) (F.size file.new) }
    ensures cause { HasScanCause None (F.count file.old) (F.count file.new) result }
{
    let part = bytes_at(alloc, file, ahead, place, long as usize)?;
    match index_of(alloc, range, place, blocks, part.as_slice()) {
        Ok((entries, behind, _)) => Ok((entries, behind)),
        Err(fault) => Err(placed(file.name(), place, part.len(), fault)),
    }
}

// The opening of a file of this size.
#[tactic(auto, unfolding(crate::specs::Opening::opening_of))]
fn sized_opening<F: FileBytes>(
    alloc: Global,
    file: &mut F,
    ahead: &mut Ahead,
    size: u64,
) -> Result<Opening, ScanFault>
    requires ahead { IsAhead (F.bytes file.old) ahead.old.from ahead.old.bytes }
    ensures read { GivesPlaced (λ o. o) (F.bytes file.old) (F.file file.old) result (opening_of size) }
    ensures room { IfOk result (λ o. o.index + length (flat_map entry_bytes o.entries) < 2 ^ 64) }
    ensures known { IfOk result (λ o. AreEntries o.entries) }
    ensures ahead { IsAhead (F.bytes file.new) ahead.new.from ahead.new.bytes }
    ensures file { IsSameFile (F.bytes file.old) (F.bytes file.new) (F.file file.old) (F.file file.new)
        (F.size file.old) (F.size file.new) }
    ensures cause { HasScanCause None (F.count file.old) (F.count file.new) result }
{
    let (range, blocks) = front_at(alloc, file, ahead)?;
    let index = tail_at(alloc, file, ahead, size)?;
    let end = end_place(size);
    let (entries, behind) = index_at(alloc, file, ahead, range, blocks, index, end - index)?;
    if behind.place == index {
        return Ok(Opening {
            range,
            index,
            entries,
        });
    }
    Err(ScanFault::Damaged {
        file: file.name(),
        at: end,
    })
}

/// The opening of a file: its day range and its index. `Damaged` comes exactly where the front, the end or the index
/// breaks the form, with the place of the first fault in this order; `ReadFault` only where the reader's count of
/// faults rose.
pub(crate) fn opening_at<F: FileBytes>(
    alloc: Global,
    file: &mut F,
    ahead: &mut Ahead,
) -> Result<Opening, ScanFault>
    requires ahead { IsAhead (F.bytes file.old) ahead.old.from ahead.old.bytes }
    ensures read { GivesPlaced (λ o. o) (F.bytes file.old) (F.file file.old) result opening_at }
    ensures room { IfOk result (λ o. o.index + length (flat_map entry_bytes o.entries) < 2 ^ 64) }
    ensures known { IfOk result (λ o. AreEntries o.entries) }
    ensures ahead { IsAhead (F.bytes file.new) ahead.new.from ahead.new.bytes }
    ensures file { IsSameFile (F.bytes file.old) (F.bytes file.new) (F.file file.old) (F.file file.new)
        (F.size file.old) (F.size file.new) }
    ensures cause { HasScanCause None (F.count file.old) (F.count file.new) result }
{
    let size = file.len();
    let opening = sized_opening(alloc, file, ahead, size)?;
    Ok(opening)
}
