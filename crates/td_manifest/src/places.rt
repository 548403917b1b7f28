//! Where the numbers of files, and the text of the first stream, stand in a head's bytes.
ghost use Rattle.std.specs.Prelude.{◌≡◌, ◌<◌, ◌+◌, ◌^◌, ◌++◌, length, IfOk, OnOk, IsTrue, true};
ghost use Rattle.std.specs.List.{list_all};
ghost use Rattle.td_manifest.specs.Files.{files_of};
ghost use Rattle.td_manifest.specs.Heads.{head_body};
ghost use Rattle.td_manifest.specs.Places.{catalog_bytes, front_bytes, own_offset, file_offset, file_place, stream_place};
ghost use Rattle.td_manifest.specs.Writing.{can_put_set};

use crate::head::{Head, HeadSet};
use crate::reading::FORMAT;
use crate::writing::{Put, put_list, put_start};
use std::alloc::Global;
use td_codec::{put_u32, put_u64};
use td_layer::{Name, NoMem, Seq};

/// Bytes of a set before its data file, of a file's number, and of a set before its stt files.
const RANGE_BYTES: u64 = 4;

const FILE_BYTES: u64 = 8;

const STT_OFFSET: u64 = 16;

/// Bytes behind the file sets before the text of the first stream: the number of the next stream, the count of streams,
/// and the stream's number, its version and its text's length.
const BEFORE_TEXT: u64 = 24;

/// Adds the supertables and tables of a head.
#[tactic(auto, using(std::proofs::lemmas::List::append_assoc), unfolding(crate::specs::Heads::stables_field, crate::specs::Heads::tables_field, crate::specs::Tables::table_items))]
fn put_catalog(out: &mut Name, head: &Head) -> Result<(), NoMem>
    requires { IsTrue (head_body.fits head.now) }
    ensures { OnOk result (out.new ≡ out.old ++ catalog_bytes head.now) }
{
    put_list(out, head.stables.as_slice())?;
    put_list(out, head.tables.as_slice())?;
    Ok(())
}

/// A head's bytes up to the count of its file sets, with 0 as the count of all bytes.
#[tactic(auto, using(std::proofs::lemmas::List::append_assoc))]
fn front_of(alloc: Global, head: &Head) -> Result<Name, NoMem>
    requires { IsTrue (head_body.fits head.now) }
    ensures { IfOk result (λ front. front ≡ front_bytes head.now) }
{
    let mut front = Seq::new(alloc);
    front.extend(b"TDH1")?;
    put_u64(&mut front, 0)?;
    put_u32(&mut front, FORMAT)?;
    put_start(&mut front, head)?;
    put_catalog(&mut front, head)?;
    Ok(front)
}

/// How many files a set has.
#[tactic(auto, unfolding(crate::specs::Writing::can_put_set))]
fn count_of_files(set: &HeadSet) -> usize
    requires { IsTrue (can_put_set set.now) }
    ensures { result ≡ length (files_of set.now) }
{
    match set.main {
        None => set.stt.len(),
        Some(_) => set.stt.len() + 1,
    }
}

/// The place in a set of its file of an index, from 0.
#[tactic(auto, unfolding(crate::specs::Writing::can_put_set))]
fn own_offset(set: &HeadSet, index: usize) -> u64
    requires can_put { IsTrue (can_put_set set.now) }
    requires within { index < length (files_of set.now) }
    ensures place { result ≡ own_offset set.now.main index }
    ensures small { result < 2 ^ 36 }
{
    match set.main {
        Some(_) if index == 0 => RANGE_BYTES,
        Some(_) => STT_OFFSET + FILE_BYTES * (index as u64 - 1),
        None => STT_OFFSET + FILE_BYTES * index as u64,
    }
}

/// The place of the file of an index among those of some sets, which stand behind these bytes.
fn place_among(before: Name, sets: &[HeadSet], index: usize) -> Result<u64, NoMem>
    requires { IsTrue (list_all can_put_set sets.now) }
    ensures { IfOk result (λ at. at ≡ length before + file_offset sets.now index) }
{
    let mut before = before;
    let mut left = index;
    for set in sets {
        let count = count_of_files(set);
        if left < count {
            return Ok(before.len() as u64 + own_offset(set, left));
        }
        left -= count;
        set.put(&mut before)?;
    }
    Ok(before.len() as u64)
}

/// Where the number of a file stands in a head's bytes, by the file's index, from 0, in the order of all files.
pub fn place_of_file(alloc: Global, head: &Head, index: usize) -> Result<u64, NoMem>
    requires { IsTrue (head_body.fits head.now) }
    ensures { IfOk result (λ at. at ≡ file_place head.now index) }
{
    let mut before = front_of(alloc, head)?;
    put_u32(&mut before, 0)?;
    let place = place_among(before, head.sets.as_slice(), index)?;
    Ok(place)
}

/// Where the text of a head's first stream stands in its bytes.
pub fn place_of_stream(alloc: Global, head: &Head) -> Result<u64, NoMem>
    requires { IsTrue (head_body.fits head.now) }
    ensures { IfOk result (λ at. at ≡ stream_place head.now) }
{
    let mut before = front_of(alloc, head)?;
    put_list(&mut before, head.sets.as_slice())?;
    Ok(before.len() as u64 + BEFORE_TEXT)
}
