//! Reading numbers at places of a file.
ghost use Rattle.std.specs.Prelude.{◌≡◌, ◌+◌, ◌*◌, ◌<◌, ◌≤◌, ◌^◌, length, IfOk, IfErr, IfSome, None};
ghost use Rattle.std.specs.Int.{w8, w64};
ghost use Rattle.td_layer.specs.declared.scans.ScanFault.TheVariants.{Damaged};
ghost use Rattle.td_layer.specs.Scans.{HasScanCause};
ghost use Rattle.td_codec.specs.Fields.{number};
ghost use Rattle.td_fileio.specs.Reading.{IsAhead, IsPart, IsSameFile};
ghost use Rattle.td_sttfile.specs.Reading.{GivesFrom, IsNoDamage, place_behind};

use std::alloc::Global;
use td_codec::{u8_of, u64_of};
use td_fileio::{Ahead, FileBytes, part_at, placed};
use td_layer::ScanFault;

/// A part of a file: so many bytes at a place, or those that are left there.
pub(crate) fn bytes_at<F: FileBytes>(
    alloc: Global,
    file: &mut F,
    ahead: &mut Ahead,
    at: u64,
    most: usize,
) -> Result<Vec<u8>, ScanFault>
    requires ahead { IsAhead (F.bytes file.old) ahead.old.from ahead.old.bytes }
    ensures part { IfOk result (λ part. IsPart (F.bytes file.old) (F.size file.old) at most part.items) }
    ensures place { IfOk result (λ part. at + length part.items < 2 ^ 64) }
    ensures fault { IfErr result IsNoDamage }
    ensures ahead { IsAhead (F.bytes file.new) ahead.new.from ahead.new.bytes }
    ensures file { IsSameFile (F.bytes file.old) (F.bytes file.new) (F.file file.old) (F.file file.new)
        (F.size file.old) (F.size file.new) }
    ensures cause { HasScanCause None (F.count file.old) (F.count file.new) result }
{
    let part = part_at(alloc, file, ahead, at, most)?;
    Ok(part)
}

/// The fault of damaged bytes at a place of a file.
pub(crate) fn damaged<F: FileBytes>(file: &F, at: u64) -> ScanFault
    ensures { result ≡ Damaged (F.file file.now) at }
{
    ScanFault::Damaged {
        file: file.name(),
        at,
    }
}

/// A byte at a place of a file of this size.
pub(crate) fn u8_at<F: FileBytes>(
    alloc: Global,
    file: &mut F,
    ahead: &mut Ahead,
    at: u64,
    size: u64,
) -> Result<u8, ScanFault>
    requires size { size ≡ F.size file.old }
    requires sized { IfSome (F.bytes file.old) (λ all. length all ≡ size) }
    requires within { at ≤ size }
    requires ahead { IsAhead (F.bytes file.old) ahead.old.from ahead.old.bytes }
    ensures read { GivesFrom (λ n. (n, at + 1)) (F.bytes file.old) (F.file file.old) size at result (number w8).read }
    ensures ahead { IsAhead (F.bytes file.new) ahead.new.from ahead.new.bytes }
    ensures file { IsSameFile (F.bytes file.old) (F.bytes file.new) (F.file file.old) (F.file file.new)
        (F.size file.old) (F.size file.new) }
    ensures cause { HasScanCause None (F.count file.old) (F.count file.new) result }
{
    let part = bytes_at(alloc, file, ahead, at, 1)?;
    match u8_of(part.as_slice()) {
        Ok((number, _)) => Ok(number),
        Err(fault) => Err(placed(file.name(), at, part.len(), fault)),
    }
}

/// A number of 64 bits at a place of a file of this size.
pub(crate) fn u64_at<F: FileBytes>(
    alloc: Global,
    file: &mut F,
    ahead: &mut Ahead,
    at: u64,
    size: u64,
) -> Result<u64, ScanFault>
    requires size { size ≡ F.size file.old }
    requires sized { IfSome (F.bytes file.old) (λ all. length all ≡ size) }
    requires within { at ≤ size }
    requires ahead { IsAhead (F.bytes file.old) ahead.old.from ahead.old.bytes }
    ensures read { GivesFrom (λ n. (n, at + 8)) (F.bytes file.old) (F.file file.old) size at result (number w64).read }
    ensures ahead { IsAhead (F.bytes file.new) ahead.new.from ahead.new.bytes }
    ensures file { IsSameFile (F.bytes file.old) (F.bytes file.new) (F.file file.old) (F.file file.new)
        (F.size file.old) (F.size file.new) }
    ensures cause { HasScanCause None (F.count file.old) (F.count file.new) result }
{
    let part = bytes_at(alloc, file, ahead, at, 8)?;
    match u64_of(part.as_slice()) {
        Ok((number, _)) => Ok(number),
        Err(fault) => Err(placed(file.name(), at, part.len(), fault)),
    }
}

/// The place behind so many fields of one width, from a place of a file of this size on.
pub(crate) fn place_behind(
    file: u64,
    size: u64,
    at: u64,
    width: u64,
    count: u64,
) -> Result<u64, ScanFault>
    requires within { at ≤ size }
    requires some { 0 < width }
    requires narrow { width ≤ 16 }
    requires few { count < 2 ^ 33 }
    ensures { result ≡ place_behind file size at width count }
{
    let left = size - at;
    if left < width * count {
        return Err(ScanFault::Damaged {
            file,
            at: size - left % width,
        });
    }
    Ok(at + width * count)
}
