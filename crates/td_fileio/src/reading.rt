//! Parts of a file.
ghost use Rattle.std.specs.Prelude.{◌≡◌, ◌+◌, ◌-◌, ◌<◌, ◌≤◌, ◌^◌, min, max, [], length, take, drop, replicate, IfOk, OnOk, OnErr, IsTrue, Some};
ghost use Rattle.td_outside.specs.Causes.{HasCause};
ghost use Rattle.td_layer.specs.Scans.{HasScanCause};
ghost use Rattle.td_fileio.specs.declared.reading.TheConstants.{PIECE};
ghost use Rattle.td_fileio.specs.Reading.{StandsAt, IsSameFile, IsPart, IsAhead};

use crate::bytes::FileBytes;
use std::alloc::Global;
use td_layer::{Name, NoMem, ScanFault, Seq};
use td_outside::Failed;

pub(crate) const PIECE: u64 = 65_536;

// A part of at least so many bytes is read by itself.
const ALONE: u64 = 16_384;

/// Bytes of a file that were read ahead, and the place from which on they stand there.
#[derive(Debug, Drop)]
pub struct Ahead {
    pub from: u64,
    pub bytes: Name,
}

impl Ahead {
    /// Nothing was read ahead. It takes no memory.
    pub fn new(alloc: Global) -> Ahead
        ensures { result ≡ record { from = 0; bytes = [] } }
    {
        Ahead {
            from: 0,
            bytes: Seq::new(alloc),
        }
    }
}

/// Fills a buffer with the bytes that stand at a place of a file, by as many calls of the reader as it takes.
pub fn read_exact_at<R: FileBytes>(file: &mut R, at: u64, buf: &mut [u8]) -> Result<(), Failed>
    requires within { at + length buf.old ≤ R.size file.old }
    requires place { at + length buf.old < 2 ^ 64 }
    ensures read { OnOk result (StandsAt (R.bytes file.old) at buf.new) }
    ensures file { IsSameFile (R.bytes file.old) (R.bytes file.new) (R.file file.old) (R.file file.new)
        (R.size file.old) (R.size file.new) }
    ensures cause { HasCause (R.count file.old) (R.count file.new) result }
{
    let mut done = 0;
    while done < buf.len() {
        match file.read_at(at + done as u64, &mut buf[done..]) {
            Err(Failed) => return Err(Failed),
            Ok(count) => done += count,
        }
    }
    Ok(())
}

// So many bytes, each 0.
fn zeros(alloc: Global, count: usize) -> Result<Vec<u8>, NoMem>
    ensures { IfOk result (λ v. v.items ≡ replicate count 0) }
{
    let bytes = vec![in alloc; 0u8; count]?;
    Ok(bytes)
}

// So many bytes at a place of a file.
fn exact_part<R: FileBytes>(
    alloc: Global,
    file: &mut R,
    at: u64,
    count: usize,
) -> Result<Vec<u8>, ScanFault>
    requires within { at + count ≤ R.size file.old }
    requires place { at + count < 2 ^ 64 }
    ensures read { IfOk result (λ part. StandsAt (R.bytes file.old) at part.items) }
    ensures long { IfOk result (λ part. length part.items ≡ count) }
    ensures file { IsSameFile (R.bytes file.old) (R.bytes file.new) (R.file file.old) (R.file file.new)
        (R.size file.old) (R.size file.new) }
    ensures cause { HasScanCause (Some []) (R.count file.old) (R.count file.new) result }
{
    let mut part = zeros(alloc, count)?;
    match read_exact_at(file, at, part.as_mut_slice()) {
        Ok(()) => Ok(part),
        Err(Failed) => Err(ScanFault::ReadFault),
    }
}

// Whether so many bytes at a place were read ahead.
fn holds(ahead: &Ahead, at: u64, count: usize) -> bool
    ensures { IsTrue result → (ahead.now.from ≤ at) × (at - ahead.now.from + count ≤ length ahead.now.bytes) }
{
    if at < ahead.from {
        return false;
    }
    let skip = at - ahead.from;
    let held = ahead.bytes.len() as u64;
    skip <= held && count as u64 <= held - skip
}

// So many bytes at a place, of those that were read ahead.
fn held_part(alloc: Global, ahead: &Ahead, at: u64, count: usize) -> Result<Vec<u8>, NoMem>
    requires from { ahead.now.from ≤ at }
    requires held { at - ahead.now.from + count ≤ length ahead.now.bytes }
    ensures { IfOk result (λ part. part.items ≡ take count (drop (at - ahead.now.from) ahead.now.bytes)) }
{
    let skip = (at - ahead.from) as usize;
    let (_, rest) = ahead.bytes.as_slice().split_at(skip);
    let (front, _) = rest.split_at(count);
    let part = Vec::from_slice(alloc, front)?;
    Ok(part)
}

// Reads 64 KiB ahead from a place on, or as many as are asked for where these are more, or what is left there, of a
// file of this size.
fn read_ahead<R: FileBytes>(
    alloc: Global,
    file: &mut R,
    ahead: &mut Ahead,
    at: u64,
    least: usize,
    size: u64,
) -> Result<(), ScanFault>
    requires size { size ≡ R.size file.old }
    requires within { at + least ≤ size }
    requires ahead { IsAhead (R.bytes file.old) ahead.old.from ahead.old.bytes }
    ensures from { OnOk result (ahead.new.from ≡ at) }
    ensures held { OnOk result (length ahead.new.bytes ≡ min (max PIECE least) (size - at)) }
    ensures ahead { IsAhead (R.bytes file.new) ahead.new.from ahead.new.bytes }
    ensures file { IsSameFile (R.bytes file.old) (R.bytes file.new) (R.file file.old) (R.file file.new)
        (R.size file.old) (R.size file.new) }
    ensures cause { HasScanCause (Some []) (R.count file.old) (R.count file.new) result }
{
    let count = PIECE.max(least as u64).min(size - at) as usize;
    let part = exact_part(alloc, file, at, count)?;
    ahead.from = at;
    ahead.bytes = Seq::from_vec(alloc, part);
    Ok(())
}

// Has so many bytes at a place of a file of this size read ahead.
fn have_ahead<R: FileBytes>(
    alloc: Global,
    file: &mut R,
    ahead: &mut Ahead,
    at: u64,
    count: usize,
    size: u64,
) -> Result<(), ScanFault>
    requires size { size ≡ R.size file.old }
    requires within { at + count ≤ size }
    requires ahead { IsAhead (R.bytes file.old) ahead.old.from ahead.old.bytes }
    ensures from { OnOk result (ahead.new.from ≤ at) }
    ensures held { OnOk result (at - ahead.new.from + count ≤ length ahead.new.bytes) }
    ensures ahead { IsAhead (R.bytes file.new) ahead.new.from ahead.new.bytes }
    ensures file { IsSameFile (R.bytes file.old) (R.bytes file.new) (R.file file.old) (R.file file.new)
        (R.size file.old) (R.size file.new) }
    ensures cause { HasScanCause (Some []) (R.count file.old) (R.count file.new) result }
{
    if holds(ahead, at, count) {
        return Ok(());
    }
    read_ahead(alloc, file, ahead, at, count, size)?;
    Ok(())
}

/// A part of a file: so many bytes at a place, or those that are left there. It comes from the bytes that were read
/// ahead, where it is among them. Else a part of at least 16 KiB is read by itself, and for a smaller one the next
/// 64 KiB are read ahead.
pub fn part_at<R: FileBytes>(
    alloc: Global,
    file: &mut R,
    ahead: &mut Ahead,
    at: u64,
    most: usize,
) -> Result<Vec<u8>, ScanFault>
    requires ahead { IsAhead (R.bytes file.old) ahead.old.from ahead.old.bytes }
    ensures part { IfOk result (λ part. IsPart (R.bytes file.old) (R.size file.old) at most part.items) }
    ensures place { IfOk result (λ part. at + length part.items < 2 ^ 64) }
    ensures ahead { IsAhead (R.bytes file.new) ahead.new.from ahead.new.bytes }
    ensures file { IsSameFile (R.bytes file.old) (R.bytes file.new) (R.file file.old) (R.file file.new)
        (R.size file.old) (R.size file.new) }
    ensures cause { HasScanCause (Some []) (R.count file.old) (R.count file.new) result }
{
    let size = file.len();
    let left = size.saturating_sub(at);
    if left == 0 {
        return Ok(Vec::new(alloc));
    }
    let count = left.min(most as u64) as usize;
    if count as u64 >= ALONE && !holds(ahead, at, count) {
        let part = exact_part(alloc, file, at, count)?;
        return Ok(part);
    }
    have_ahead(alloc, file, ahead, at, count, size)?;
    let part = held_part(alloc, ahead, at, count)?;
    Ok(part)
}
