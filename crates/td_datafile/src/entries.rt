//! Reading the entries of an index.
ghost use Rattle.std.specs.Prelude.{◌≡◌, ◌+◌, ◌-◌, ◌*◌, ◌<◌, ◌≤◌, ◌^◌, ◌==◌, ◌&&◌, nat_le, int_le, [], IfOk};
ghost use Rattle.std.specs.Int.{w16, w32, w64};
ghost use Rattle.td_limits.specs.declared.limits.TheConstants.{BLOCK_ROWS};
ghost use Rattle.td_codec.specs.Fields.{Gives, checked, number};
ghost use Rattle.td_codec.specs.Lists.{each, items_read};
ghost use Rattle.td_fileio.specs.Days.{is_in_day};
ghost use Rattle.td_datafile.specs.Entries.{is_sum, is_bound, wide, summary_in, summaries_in, comes_later, can_end, behind, behind_entry, entry_behind, entry_items};

use crate::format::{Entry, Summary};
use std::alloc::Global;
use td_codec::{ReadFault, i128_of, u16_of, u32_of, u64_of};
use td_fileio::is_in_day;
use td_layer::Seq;
use td_limits::BLOCK_ROWS;

/// What stands behind the blocks so far: the place of the next block, the least table that it may have, and the least
/// timestamp with which it may begin where it is of that table.
#[derive(Clone, Copy, Debug)]
pub(crate) struct Behind {
    pub place: u64,
    pub table: u32,
    pub from: u64,
}

// ---- summaries

// Whether so many numbers of a column can have this sum.
fn is_sum(count: u32, sum: i128) -> bool
    ensures { result ≡ is_sum count sum }
{
    let most = i128::from(count) * 18_446_744_073_709_551_616;
    -most <= sum && sum <= most
}

// Whether this can be the least or the greatest of so many numbers of a column.
fn is_bound(count: u32, number: i128) -> bool
    ensures { result ≡ is_bound count number }
{
    if count == 0 {
        return number == 0;
    }
    -9_223_372_036_854_775_808 <= number && number <= 18_446_744_073_709_551_615
}

// How many values a column of so many rows has.
fn count_of(rows: u32, bytes: &[u8]) -> Result<(u32, &[u8]), ReadFault>
    ensures { Gives (λ x. (x.0, x.1.now)) result ((checked (number w32) (λ count. nat_le count rows)).read bytes.now) }
{
    let (count, rest) = u32_of(bytes)?;
    if count <= rows {
        return Ok((count, rest));
    }
    Err(ReadFault::Broken(bytes.len()))
}

// The sum of so many values.
fn sum_of(count: u32, bytes: &[u8]) -> Result<(i128, &[u8]), ReadFault>
    ensures { Gives (λ x. (x.0, x.1.now)) result ((checked wide (is_sum count)).read bytes.now) }
{
    let (sum, rest) = i128_of(bytes)?;
    if is_sum(count, sum) {
        return Ok((sum, rest));
    }
    Err(ReadFault::Broken(bytes.len()))
}

// The least of so many values.
fn least_of(count: u32, bytes: &[u8]) -> Result<(i128, &[u8]), ReadFault>
    ensures { Gives (λ x. (x.0, x.1.now)) result ((checked wide (is_bound count)).read bytes.now) }
{
    let (least, rest) = i128_of(bytes)?;
    if is_bound(count, least) {
        return Ok((least, rest));
    }
    Err(ReadFault::Broken(bytes.len()))
}

// The greatest of so many values.
fn greatest_of(count: u32, least: i128, bytes: &[u8]) -> Result<(i128, &[u8]), ReadFault>
    ensures { Gives (λ x. (x.0, x.1.now)) result
        ((checked wide (λ n. is_bound count n && int_le least n)).read bytes.now) }
{
    let (greatest, rest) = i128_of(bytes)?;
    if is_bound(count, greatest) && least <= greatest {
        return Ok((greatest, rest));
    }
    Err(ReadFault::Broken(bytes.len()))
}

// The summary of a column of so many rows.
#[tactic(auto, unfolding(crate::specs::Entries::summary_in))]
fn summary_of(rows: u32, bytes: &[u8]) -> Result<(Summary, &[u8]), ReadFault>
    ensures { Gives (λ x. (x.0, x.1.now)) result ((summary_in rows).read bytes.now) }
{
    let (count, rest) = count_of(rows, bytes)?;
    let (sum, rest) = sum_of(count, rest)?;
    let (least, rest) = least_of(count, rest)?;
    let (greatest, rest) = greatest_of(count, least, rest)?;
    Ok((
        Summary {
            count,
            sum,
            least,
            greatest,
        },
        rest,
    ))
}

// So many summaries of columns of so many rows.
fn so_many_summaries(
    alloc: Global,
    rows: u32,
    columns: u16,
    bytes: &[u8],
) -> Result<(Seq<Summary>, &[u8]), ReadFault>
    ensures { Gives (λ x. (x.0, x.1.now)) result (items_read (each (summary_in rows)) [] columns bytes.now) }
{
    let mut summaries = Seq::new(alloc);
    let mut rest = bytes;
    for _ in 0..columns {
        let (summary, after) = summary_of(rows, rest)?;
        summaries.add(summary)?;
        rest = after;
    }
    Ok((summaries, rest))
}

// The count of the columns of so many rows, and their summaries.
fn summaries_of(alloc: Global, rows: u32, bytes: &[u8]) -> Result<(Seq<Summary>, &[u8]), ReadFault>
    ensures { Gives (λ x. (x.0, x.1.now)) result ((summaries_in rows).read bytes.now) }
{
    let (columns, rest) = u16_of(bytes)?;
    let (summaries, rest) = so_many_summaries(alloc, rows, columns, rest)?;
    Ok((summaries, rest))
}

// ---- entries

// The place of a block, which is behind those before it.
fn offset_of(behind: Behind, bytes: &[u8]) -> Result<(u64, &[u8]), ReadFault>
    ensures { Gives (λ x. (x.0, x.1.now)) result ((checked (number w64) (λ at. at == behind.place)).read bytes.now) }
{
    let (offset, rest) = u64_of(bytes)?;
    if offset == behind.place {
        return Ok((offset, rest));
    }
    Err(ReadFault::Broken(bytes.len()))
}

// How many bytes a block at a place takes, which ends before the index.
fn size_of(index: u64, offset: u64, bytes: &[u8]) -> Result<(u32, &[u8]), ReadFault>
    ensures read { Gives (λ x. (x.0, x.1.now)) result
        ((checked (number w32) (λ size. nat_le (offset + size) index)).read bytes.now) }
    ensures within { IfOk result (λ x. offset + x.0 ≤ index) }
{
    let (size, rest) = u32_of(bytes)?;
    if offset <= index && u64::from(size) <= index - offset {
        return Ok((size, rest));
    }
    Err(ReadFault::Broken(bytes.len()))
}

// The table of a block.
fn table_of(behind: Behind, bytes: &[u8]) -> Result<(u32, &[u8]), ReadFault>
    ensures { Gives (λ x. (x.0, x.1.now)) result
        ((checked (number w32) (λ table. nat_le behind.table table)).read bytes.now) }
{
    let (table, rest) = u32_of(bytes)?;
    if behind.table <= table {
        return Ok((table, rest));
    }
    Err(ReadFault::Broken(bytes.len()))
}

// How many rows a block has.
fn rows_of(bytes: &[u8]) -> Result<(u32, &[u8]), ReadFault>
    ensures read { Gives (λ x. (x.0, x.1.now)) result
        ((checked (number w32) (λ rows. nat_le 1 rows && nat_le rows BLOCK_ROWS)).read bytes.now) }
    ensures some { IfOk result (λ x. 1 ≤ x.0) }
{
    let (rows, rest) = u32_of(bytes)?;
    if 1 <= rows && rows <= BLOCK_ROWS {
        return Ok((rows, rest));
    }
    Err(ReadFault::Broken(bytes.len()))
}

// Whether the first timestamp of a block comes after those before it.
fn comes_later(behind: Behind, table: u32, first: u64) -> bool
    ensures { result ≡ comes_later behind table first }
{
    behind.table != table || behind.from <= first
}

// The first timestamp of a block.
fn first_of(range: u32, behind: Behind, table: u32, bytes: &[u8]) -> Result<(u64, &[u8]), ReadFault>
    ensures { Gives (λ x. (x.0, x.1.now)) result
        ((checked (number w64) (λ first. is_in_day range first && comes_later behind table first)).read bytes.now) }
{
    let (first, rest) = u64_of(bytes)?;
    if is_in_day(range, first) && comes_later(behind, table, first) {
        return Ok((first, rest));
    }
    Err(ReadFault::Broken(bytes.len()))
}

// Whether so many rows can begin and end with these timestamps.
fn can_end(rows: u32, first: u64, last: u64) -> bool
    requires { 1 ≤ rows }
    ensures { result ≡ can_end rows first last }
{
    if rows == 1 {
        return last == first;
    }
    first <= last && u64::from(rows - 1) <= last - first
}

// The last timestamp of a block.
fn last_of(range: u32, rows: u32, first: u64, bytes: &[u8]) -> Result<(u64, &[u8]), ReadFault>
    requires { 1 ≤ rows }
    ensures read { Gives (λ x. (x.0, x.1.now)) result
        ((checked (number w64) (λ last. is_in_day range last && can_end rows first last)).read bytes.now) }
    ensures few { IfOk result (λ x. x.0 < 2 ^ 63) }
{
    let (last, rest) = u64_of(bytes)?;
    if is_in_day(range, last) && can_end(rows, first, last) {
        return Ok((last, rest));
    }
    Err(ReadFault::Broken(bytes.len()))
}

// An entry behind others, in a file of a day range whose index begins at a place.
#[tactic(auto, unfolding(crate::specs::Entries::entry_behind))]
fn entry_of(
    alloc: Global,
    range: u32,
    index: u64,
    behind: Behind,
    bytes: &[u8],
) -> Result<(Entry, &[u8]), ReadFault>
    ensures read { Gives (λ x. (x.0, x.1.now)) result ((entry_behind range index behind).read bytes.now) }
    ensures within { IfOk result (λ x. x.0.offset + x.0.size ≤ index) }
    ensures few { IfOk result (λ x. x.0.last < 2 ^ 63) }
{
    let (offset, rest) = offset_of(behind, bytes)?;
    let (size, rest) = size_of(index, offset, rest)?;
    let (table, rest) = table_of(behind, rest)?;
    let (rows, rest) = rows_of(rest)?;
    let (first, rest) = first_of(range, behind, table, rest)?;
    let (last, rest) = last_of(range, rows, first, rest)?;
    let (columns, rest) = summaries_of(alloc, rows, rest)?;
    Ok((
        Entry {
            offset,
            size,
            table,
            rows,
            first,
            last,
            columns,
        },
        rest,
    ))
}

// What stands behind an entry.
fn behind_entry(entry: &Entry) -> Behind
    requires place { entry.now.offset + entry.now.size < 2 ^ 64 }
    requires last { entry.now.last < 2 ^ 63 }
    ensures { result ≡ behind_entry entry.now }
{
    Behind {
        place: entry.offset + u64::from(entry.size),
        table: entry.table,
        from: entry.last + 1,
    }
}

/// So many entries of the index of a file of a day range, which begins at a place; and what stands behind the last.
pub(crate) fn entries_of(
    alloc: Global,
    range: u32,
    index: u64,
    count: u32,
    bytes: &[u8],
) -> Result<(Seq<Entry>, Behind, &[u8]), ReadFault>
    ensures read { Gives (λ x. (x.0, x.2.now)) result (items_read (entry_items range index) [] count bytes.now) }
    ensures behind { IfOk result (λ x. x.1 ≡ behind x.0) }
{
    let mut entries = Seq::new(alloc);
    let mut behind = Behind {
        place: 12,
        table: 1,
        from: 0,
    };
    let mut rest = bytes;
    for _ in 0..count {
        let (entry, after) = entry_of(alloc, range, index, behind, rest)?;
        behind = behind_entry(&entry);
        entries.add(entry)?;
        rest = after;
    }
    Ok((entries, behind, rest))
}
