//! File sets.
ghost use Rattle.std.specs.Prelude.{◌≡◌, ◌∷◌, ◌++◌, [], List, IfOk, nat_le, not, ◌&&◌};
ghost use Rattle.std.specs.Int.{w32};
ghost use Rattle.td_codec.specs.Fields.{Gives, checked, number};
ghost use Rattle.td_codec.specs.Lists.{items_read};
ghost use Rattle.td_manifest.specs.Listed.{perhaps};
ghost use Rattle.td_manifest.specs.Heads.{sets_field};
ghost use Rattle.td_manifest.specs.Files.{is_used, main_file, all_files, stt_behind, stt_items, rises, set_files, set_items};

use crate::head::HeadSet;
use crate::lists::{ItemReader, items_of};
use crate::names::Files;
use crate::tables::begun;
use std::alloc::Global;
use td_codec::{ReadFault, u32_of, u64_of};
use td_layer::Seq;
use td_limits::LAST_DAY_RANGE;

/// So many stt files, which differ from those before; they are used then.
fn stt_files_of<'a>(
    alloc: Global,
    files: &mut Files,
    count: u32,
    bytes: &'a [u8],
) -> Result<(Seq<u64>, &'a [u8]), ReadFault>
    ensures read { Gives (λ x. (x.0, x.1.now)) result (items_read (stt_items files.old) [] count bytes.now) }
    ensures used { IfOk result (λ x. files.new ≡ files.old ++ x.0) }
{
    let mut stt = Seq::new(alloc);
    let mut rest = bytes;
    for _ in 0..count {
        let (file, after) = stt_file_of(files, rest)?;
        stt.add(file)?;
        rest = after;
    }
    Ok((stt, rest))
}

/// A file that differs from those before; it is used then.
fn stt_file_of<'a>(files: &mut Files, bytes: &'a [u8]) -> Result<(u64, &'a [u8]), ReadFault>
    ensures read { Gives (λ x. (x.0, x.1.now)) result ((stt_behind files.old).read bytes.now) }
    ensures used { IfOk result (λ x. files.new ≡ files.old ++ x.0 ∷ []) }
{
    let (file, rest) = u64_of(bytes)?;
    if !files.add(file)? {
        return Err(ReadFault::Broken(bytes.len()));
    }
    Ok((file, rest))
}

/// A data file that differs from those before, or none; it is used then.
#[tactic(auto, unfolding(crate::specs::Listed::perhaps))]
fn main_file_of<'a>(
    files: &mut Files,
    bytes: &'a [u8],
) -> Result<(Option<u64>, &'a [u8]), ReadFault>
    ensures read { Gives (λ x. (x.0, x.1.now)) result
        ((perhaps (λ file. not (is_used file files.old))).read bytes.now) }
    ensures used { IfOk result (λ x. files.new ≡ files.old ++ main_file x.0) }
{
    let (file, rest) = u64_of(bytes)?;
    if file == u64::MAX {
        return Ok((None, rest));
    }
    if !files.add(file)? {
        return Err(ReadFault::Broken(bytes.len()));
    }
    Ok((Some(file), rest))
}

/// Whether a day range comes after those of these sets.
fn rises(before: &[HeadSet], range: u32) -> bool
    ensures { result ≡ rises before.now range }
{
    match before.last() {
        None => true,
        Some(last) => last.range < range,
    }
}

/// A day range that comes after those of these sets.
fn range_of<'a>(before: &[HeadSet], bytes: &'a [u8]) -> Result<(u32, &'a [u8]), ReadFault>
    ensures { Gives (λ x. (x.0, x.1.now)) result
        ((checked (number w32) (λ range. nat_le range LAST_DAY_RANGE && rises before.now range)).read bytes.now) }
{
    let (range, rest) = u32_of(bytes)?;
    if range <= LAST_DAY_RANGE && rises(before, range) {
        return Ok((range, rest));
    }
    Err(ReadFault::Broken(bytes.len()))
}

/// The files of a set, which differ from those before; they are used then.
#[tactic(auto, unfolding(crate::specs::Files::set_files))]
fn set_files_of<'a>(
    alloc: Global,
    files: &mut Files,
    bytes: &'a [u8],
) -> Result<((Option<u64>, Seq<u64>), &'a [u8]), ReadFault>
    ensures read { Gives (λ x. (x.0, x.1.now)) result ((set_files files.old).read bytes.now) }
    ensures used { IfOk result (λ x. files.new ≡ (files.old ++ main_file x.0.0) ++ x.0.1) }
{
    let (main, rest) = main_file_of(files, bytes)?;
    let (count, rest) = u32_of(rest)?;
    let (stt, rest) = stt_files_of(alloc, files, count, rest)?;
    Ok(((main, stt), rest))
}

/// Reads file sets in the order of their day ranges, whose files differ.
#[derive(Drop)]
struct Sets {
    files: Files,
}

#[tactic(auto, unfolding(crate::specs::Files::set_items, crate::specs::Files::set_behind))]
impl ItemReader for Sets {
    type Item = HeadSet;

    ghost items = { λ _. set_items };

    ghost knows = { λ r before. r.files ≡ all_files before };

    fn item_of<'a>(
        &mut self,
        alloc: Global,
        before: &[HeadSet],
        bytes: &'a [u8],
    ) -> Result<(HeadSet, &'a [u8]), ReadFault> {
        let (range, rest) = range_of(before, bytes)?;
        let ((main, stt), rest) = set_files_of(alloc, &mut self.files, rest)?;
        Ok((HeadSet { range, main, stt }, rest))
    }
}

/// The file sets of a head of this version.
#[tactic(auto, unfolding(crate::specs::Heads::sets_field))]
pub(crate) fn sets_of(
    alloc: Global,
    version: u64,
    bytes: &[u8],
) -> Result<(Seq<HeadSet>, &[u8]), ReadFault>
    ensures { Gives (λ x. (x.0, x.1.now)) result ((sets_field version).read bytes.now) }
{
    let (count, rest) = u32_of(bytes)?;
    if !begun(version, count == 0) {
        return Err(ReadFault::Broken(bytes.len()));
    }
    let mut reader = Sets {
        files: Files::new(alloc),
    };
    let (sets, rest) = items_of(alloc, &mut reader, count, rest)?;
    Ok((sets, rest))
}
