//! Folds of files.
ghost use Rattle.std.specs.Prelude.{◌≡◌, ℕ, ◌+◌, ◌*◌, ◌<◌, ◌≤◌, ◌^◌, not, if◌then◌else◌, ◌∷◌, [], length, slice_index_or, IfOk, IfSome, OnOk, OnErr, None};
ghost use Rattle.std.specs.List.{AllByRecursion, flat_map};
ghost use Rattle.td_limits.specs.declared.limits.TheConstants.{BLOCK_ROWS, FOLD_STEPS};
ghost use Rattle.td_layer.specs.Columns.{IsColumnValue, AreColumnCells};
ghost use Rattle.td_layer.specs.Scans.{HasScanCause};
ghost use Rattle.td_aggr.specs.Tallies.{merged, IsSound};
ghost use Rattle.td_fileio.specs.Places.{GivesPlaced};
ghost use Rattle.td_fileio.specs.Reading.{IsAhead, IsSameFile};
ghost use Rattle.td_datafile.specs.Sums.{no_numbers};
ghost use Rattle.td_datafile.specs.Index.{entry_bytes};
ghost use Rattle.td_datafile.specs.Blocks.{entry_length};
ghost use Rattle.td_datafile.specs.Reading.{Answered};
ghost use Rattle.td_datafile.specs.Scanned.{is_wanted};
ghost use Rattle.td_datafile.specs.Scanning.{want_of, bytes_left};
ghost use Rattle.td_datafile.specs.Known.{IsSummaryOf, AreEntries};
ghost use Rattle.td_datafile.specs.Folding.{value_of, tally_of_rows, is_covered, bound_of, tally_of_summary, summed_part, read_part, part_of, nothing_gathered, counted, one_gathered, either, both, gathered_of, spot_behind, gathered, marks_of, with_marks, folded_behind, folded, is_partial, partial_rows, steps_of, IsPart, IsGathered, IsFound, AreFound};

use crate::blocks::{Spot, Wanted, damaged, entry_length, own_block};
use crate::format::{Entry, Summary};
use crate::opening::{Opening, opening_at};
use crate::scans::{entry_at, is_needed};
use crate::sums::cell_at;
use std::alloc::Global;
use std::sync::ledger::Ledger;
use td_aggr::{Aggr, Tally};
use td_cols::Kind;
use td_fileio::{Ahead, FileBytes};
use td_layer::{Key, Partial, ScanFault, Steps, Value};

/// A block that has values in a column, by the spot of its entry, and what it adds.
#[derive(Clone, Copy)]
pub(crate) struct BlockPart {
    pub spot: Spot,
    pub part: Tally,
}

/// What blocks add together, and the first and the last of them that have values.
#[derive(Clone, Copy)]
pub(crate) struct Gathering {
    pub tally: Tally,
    pub first: Option<BlockPart>,
    pub last: Option<BlockPart>,
}

// ---- rows

// The value of a cell of a row: NULL where it names none.
fn value_at(cells: &[Option<Value>], column: usize) -> Value
    requires { AreColumnCells cells.now }
    ensures value { result ≡ value_of (slice_index_or cells.now column None) }
    ensures in_range { IsColumnValue result }
{
    match cell_at(cells, column) {
        None => Value::Null,
        Some(value) => value,
    }
}

// Whether a row is wanted.
fn is_wanted(wanted: &Wanted<'_>, row: &(u64, Partial)) -> bool
    ensures { result ≡ is_wanted wanted.now.lo wanted.now.hi row.now }
{
    wanted.lo <= row.0 && row.0 <= wanted.hi
}

// The tally of a row, where it is wanted, and of others behind it.
fn with_row(wanted: &Wanted<'_>, column: usize, row: &(u64, Partial), others: Tally) -> Tally
    requires values { AreColumnCells row.now.1.cells }
    requires sound { IsSound others }
    requires rows { others.rows < BLOCK_ROWS }
    requires count { others.count < BLOCK_ROWS }
    ensures tally { result ≡ merged (tally_of_rows (want_of wanted.now) column (row.now ∷ [])) others }
    ensures sound { IsSound result }
    ensures rows { result.rows ≤ others.rows + 1 }
    ensures count { result.count ≤ others.count + 1 }
{
    if is_wanted(wanted, row) {
        let key = Key {
            table: wanted.table,
            ts: row.0,
        };
        let own = Tally::one(value_at(row.1.cells.as_slice(), column), key);
        return own.merge(&others);
    }
    others
}

// The tally of a column over the wanted rows of some.
fn tally_of_rows(wanted: &Wanted<'_>, column: usize, rows: &[(u64, Partial)]) -> Tally
    requires few { length rows.now ≤ BLOCK_ROWS }
    requires values { AllByRecursion (λ row. AreColumnCells row.1.cells) rows.now }
    ensures tally { result ≡ tally_of_rows (want_of wanted.now) column rows.now }
    ensures part { IsPart result }
{
    let mut tally = Tally::unit();
    let mut left = rows;
    while let Some((row, rest)) = left.split_last() {
        tally = with_row(wanted, column, row, tally);
        left = rest;
    }
    tally
}

// ---- what a block adds

/// Whether all rows of the block of an entry are wanted.
pub(crate) fn is_covered(wanted: &Wanted<'_>, entry: &Entry) -> bool
    ensures { result ≡ is_covered (want_of wanted.now) entry.now }
{
    wanted.lo <= entry.first && entry.last <= wanted.hi
}

// A bound of so many values: NULL where there is none.
fn bound_of(count: u32, number: i128) -> Value
    ensures { result ≡ bound_of count number }
{
    if count == 0 {
        return Value::Null;
    }
    Value::Num(number)
}

// What a summary says of so many rows.
fn tally_of_summary(rows: u32, summary: Summary) -> Tally
    ensures { result ≡ tally_of_summary rows summary }
{
    Tally {
        rows: u64::from(rows),
        count: u64::from(summary.count),
        sum: summary.sum,
        min: bound_of(summary.count, summary.least),
        max: bound_of(summary.count, summary.greatest),
        first: None,
        last: None,
    }
}

// The summary of a column, by number: of no value where there is no such column.
fn summary_of(columns: &[Summary], column: usize) -> Summary
    ensures { result ≡ slice_index_or columns.now column no_numbers }
{
    match columns.get(column) {
        None => Summary {
            count: 0,
            sum: 0,
            least: 0,
            greatest: 0,
        },
        Some(summary) => *summary,
    }
}

// What the index says of a column of the block of an entry, which stands at a spot.
fn summed_part<F: FileBytes>(
    file: &F,
    wanted: &Wanted<'_>,
    column: usize,
    spot: Spot,
    entry: &Entry,
) -> Result<Tally, ScanFault>
    requires place { spot.place + 38 < 2 ^ 64 }
    requires few { entry.now.rows ≤ BLOCK_ROWS }
    requires sums { AllByRecursion (IsSummaryOf entry.now.rows) entry.now.columns }
    ensures read { Answered (F.file file.now) result
        (summed_part (want_of wanted.now) column spot entry.now) }
    ensures part { IfOk result IsPart }
{
    if entry.columns.len() != wanted.kinds.len() {
        return Err(damaged(file, spot.place + 36));
    }
    let summary = summary_of(entry.columns.as_slice(), column);
    Ok(tally_of_summary(entry.rows, summary))
}

// What the rows of the block of an entry, which stands at a spot, say of a column.
fn read_part<F: FileBytes>(
    alloc: Global,
    file: &mut F,
    ahead: &mut Ahead,
    wanted: &Wanted<'_>,
    column: usize,
    spot: Spot,
    entry: &Entry,
) -> Result<Tally, ScanFault>
    requires place { spot.place + 38 < 2 ^ 64 }
    requires few { entry.now.rows ≤ BLOCK_ROWS }
    requires ahead { IsAhead (F.bytes file.old) ahead.old.from ahead.old.bytes }
    ensures read { GivesPlaced (λ t. t) (F.bytes file.old) (F.file file.old) result
        (read_part (want_of wanted.now) column spot entry.now) }
    ensures part { IfOk result IsPart }
    ensures ahead { IsAhead (F.bytes file.new) ahead.new.from ahead.new.bytes }
    ensures file { IsSameFile (F.bytes file.old) (F.bytes file.new) (F.file file.old) (F.file file.new)
        (F.size file.old) (F.size file.new) }
    ensures cause { HasScanCause None (F.count file.old) (F.count file.new) result }
{
    let rows = own_block(alloc, file, ahead, wanted.kinds, spot, entry)?;
    Ok(tally_of_rows(wanted, column, rows.as_slice()))
}

// So many steps.
fn count_steps<L: Ledger>(rows: u32, steps: &mut Steps<L>)
    ensures { steps.new ≡ steps.old + rows }
{
    for _ in 0..rows {
        steps.tick();
    }
}

// What the block of an entry, which stands at a spot, adds: by the index where all its rows are wanted, and else by its
// rows, of which each is a step.
fn part_of<F: FileBytes, L: Ledger>(
    alloc: Global,
    file: &mut F,
    ahead: &mut Ahead,
    wanted: &Wanted<'_>,
    column: usize,
    spot: Spot,
    entry: &Entry,
    steps: &mut Steps<L>,
) -> Result<Tally, ScanFault>
    requires place { spot.place + 38 < 2 ^ 64 }
    requires few { entry.now.rows ≤ BLOCK_ROWS }
    requires sums { AllByRecursion (IsSummaryOf entry.now.rows) entry.now.columns }
    requires ahead { IsAhead (F.bytes file.old) ahead.old.from ahead.old.bytes }
    ensures read { GivesPlaced (λ t. t) (F.bytes file.old) (F.file file.old) result
        (part_of (want_of wanted.now) column spot entry.now) }
    ensures part { IfOk result IsPart }
    ensures steps { OnOk result (steps.new
        ≡ steps.old + (if is_covered (want_of wanted.now) entry.now then 0 else entry.now.rows)) }
    ensures no_steps { OnErr result (steps.new ≡ steps.old) }
    ensures ahead { IsAhead (F.bytes file.new) ahead.new.from ahead.new.bytes }
    ensures file { IsSameFile (F.bytes file.old) (F.bytes file.new) (F.file file.old) (F.file file.new)
        (F.size file.old) (F.size file.new) }
    ensures cause { HasScanCause None (F.count file.old) (F.count file.new) result }
{
    if is_covered(wanted, entry) {
        let part = summed_part(file, wanted, column, spot, entry)?;
        return Ok(part);
    }
    let part = read_part(alloc, file, ahead, wanted, column, spot, entry)?;
    count_steps(entry.rows, steps);
    Ok(part)
}

// ---- what blocks add together

// Nothing.
fn nothing_gathered() -> Gathering
    ensures gathering { result ≡ nothing_gathered }
    ensures sound { IsSound result.tally }
{
    Gathering {
        tally: Tally::unit(),
        first: None,
        last: None,
    }
}

// The block of an entry at a spot with what it adds, where that has values.
fn counted(spot: Spot, part: Tally) -> Option<BlockPart>
    ensures { result ≡ counted spot part }
{
    if part.count == 0 {
        return None;
    }
    Some(BlockPart { spot, part })
}

// The block of an entry at a spot with what it adds.
fn one_gathered(spot: Spot, part: Tally) -> Gathering
    ensures { result ≡ one_gathered spot part }
{
    Gathering {
        tally: part,
        first: counted(spot, part),
        last: counted(spot, part),
    }
}

// The former, or else the latter.
fn either(former: Option<BlockPart>, latter: Option<BlockPart>) -> Option<BlockPart>
    ensures { result ≡ either former latter }
{
    match former {
        None => latter,
        Some(found) => Some(found),
    }
}

// What blocks add, and others behind them.
fn both(front: Gathering, back: Gathering) -> Gathering
    requires front { IsSound front.tally }
    requires back { IsSound back.tally }
    requires rows { front.tally.rows + back.tally.rows < 2 ^ 62 }
    requires count { front.tally.count + back.tally.count < 2 ^ 62 }
    ensures { result ≡ both front back }
{
    Gathering {
        tally: front.tally.merge(&back.tally),
        first: either(front.first, back.first),
        last: either(back.last, front.last),
    }
}

// What the block of an entry, which stands at a spot, adds, where it can have wanted rows.
fn gathered_of<F: FileBytes, L: Ledger>(
    alloc: Global,
    file: &mut F,
    ahead: &mut Ahead,
    wanted: &Wanted<'_>,
    column: usize,
    spot: Spot,
    entry: &Entry,
    steps: &mut Steps<L>,
) -> Result<Gathering, ScanFault>
    requires place { spot.place + 38 < 2 ^ 64 }
    requires few { entry.now.rows ≤ BLOCK_ROWS }
    requires sums { AllByRecursion (IsSummaryOf entry.now.rows) entry.now.columns }
    requires ahead { IsAhead (F.bytes file.old) ahead.old.from ahead.old.bytes }
    ensures read { GivesPlaced (λ g. g) (F.bytes file.old) (F.file file.old) result
        (gathered_of (want_of wanted.now) column spot entry.now) }
    ensures part { IfOk result (IsGathered spot) }
    ensures steps { OnOk result (steps.new
        ≡ steps.old + (if is_partial (want_of wanted.now) entry.now then entry.now.rows else 0)) }
    ensures no_steps { OnErr result (steps.new ≡ steps.old) }
    ensures ahead { IsAhead (F.bytes file.new) ahead.new.from ahead.new.bytes }
    ensures file { IsSameFile (F.bytes file.old) (F.bytes file.new) (F.file file.old) (F.file file.new)
        (F.size file.old) (F.size file.new) }
    ensures cause { HasScanCause None (F.count file.old) (F.count file.new) result }
{
    if !is_needed(wanted, entry) {
        return Ok(nothing_gathered());
    }
    let part = part_of(alloc, file, ahead, wanted, column, spot, entry, steps)?;
    Ok(one_gathered(spot, part))
}

// The spot behind an entry.
fn spot_behind(spot: Spot, entry: &Entry) -> Spot
    requires next { spot.next + 1 < 2 ^ 64 }
    requires place { spot.place + entry_length entry.now < 2 ^ 64 }
    ensures { result ≡ spot_behind spot entry.now }
{
    Spot {
        range: spot.range,
        next: spot.next + 1,
        place: spot.place + entry_length(entry),
        last: Key {
            table: entry.table,
            ts: entry.last,
        },
    }
}

// What the blocks of the entries of an index add together, the first of which stands at a spot.
fn gather<F: FileBytes, L: Ledger>(
    alloc: Global,
    file: &mut F,
    ahead: &mut Ahead,
    wanted: &Wanted<'_>,
    column: usize,
    start: Spot,
    entries: &[Entry],
    steps: &mut Steps<L>,
) -> Result<Gathering, ScanFault>
    requires next { start.next ≡ 0 }
    requires room { start.place + bytes_left entries.now start < 2 ^ 64 }
    requires known { AreEntries entries.now }
    requires ahead { IsAhead (F.bytes file.old) ahead.old.from ahead.old.bytes }
    ensures read { GivesPlaced (λ g. g) (F.bytes file.old) (F.file file.old) result
        (λ all. gathered (want_of wanted.now) column all start entries.now) }
    ensures found { IfOk result (AreFound entries.now) }
    ensures rows { IfOk result (λ g. g.tally.rows ≤ BLOCK_ROWS * length entries.now) }
    ensures count { IfOk result (λ g. g.tally.count ≤ BLOCK_ROWS * length entries.now) }
    ensures steps { OnOk result (steps.new ≡ steps.old + partial_rows (want_of wanted.now) entries.now) }
    ensures most_steps { steps.new ≤ steps.old + partial_rows (want_of wanted.now) entries.now }
    ensures ahead { IsAhead (F.bytes file.new) ahead.new.from ahead.new.bytes }
    ensures file { IsSameFile (F.bytes file.old) (F.bytes file.new) (F.file file.old) (F.file file.new)
        (F.size file.old) (F.size file.new) }
    ensures cause { HasScanCause None (F.count file.old) (F.count file.new) result }
{
    let mut all = nothing_gathered();
    let mut spot = start;
    while spot.next < entries.len() {
        let entry = entry_at(entries, spot.next);
        let one = gathered_of(alloc, file, ahead, wanted, column, spot, entry, steps)?;
        all = both(all, one);
        spot = spot_behind(spot, entry);
    }
    Ok(all)
}

// ---- the first and the last value

// What a block says of its first and its last value, where there is such a block: one that wasn't read is read for
// them.
fn marks_of<F: FileBytes>(
    alloc: Global,
    file: &mut F,
    ahead: &mut Ahead,
    wanted: &Wanted<'_>,
    column: usize,
    entries: &[Entry],
    block: Option<BlockPart>,
) -> Result<Tally, ScanFault>
    requires known { AreEntries entries.now }
    requires found { IfSome block (IsFound entries.now) }
    requires ahead { IsAhead (F.bytes file.old) ahead.old.from ahead.old.bytes }
    ensures read { GivesPlaced (λ t. t) (F.bytes file.old) (F.file file.old) result
        (λ all. marks_of (want_of wanted.now) column entries.now all block) }
    ensures sound { IfOk result IsSound }
    ensures ahead { IsAhead (F.bytes file.new) ahead.new.from ahead.new.bytes }
    ensures file { IsSameFile (F.bytes file.old) (F.bytes file.new) (F.file file.old) (F.file file.new)
        (F.size file.old) (F.size file.new) }
    ensures cause { HasScanCause None (F.count file.old) (F.count file.new) result }
{
    let Some(found) = block else {
        return Ok(Tally::unit());
    };
    let entry = entry_at(entries, found.spot.next);
    if !is_covered(wanted, entry) {
        return Ok(found.part);
    }
    let part = read_part(alloc, file, ahead, wanted, column, found.spot, entry)?;
    Ok(part)
}

// A tally with the first value of one and the last of another.
fn marked(tally: Tally, front: Tally, back: Tally) -> Tally
    requires tally { IsSound tally }
    requires front { IsSound front }
    requires back { IsSound back }
    ensures tally { result ≡ record tally { first = front.first; last = back.last } }
    ensures sound { IsSound result }
{
    Tally {
        first: front.first,
        last: back.last,
        ..tally
    }
}

// What was gathered, with the first value of the first block that has values, and the last value of the last.
fn with_marks<F: FileBytes>(
    alloc: Global,
    file: &mut F,
    ahead: &mut Ahead,
    wanted: &Wanted<'_>,
    column: usize,
    entries: &[Entry],
    gathered: Gathering,
) -> Result<Tally, ScanFault>
    requires known { AreEntries entries.now }
    requires found { AreFound entries.now gathered }
    requires ahead { IsAhead (F.bytes file.old) ahead.old.from ahead.old.bytes }
    ensures read { GivesPlaced (λ t. t) (F.bytes file.old) (F.file file.old) result
        (λ all. with_marks (want_of wanted.now) column entries.now all gathered) }
    ensures sound { IfOk result IsSound }
    ensures rows { IfOk result (λ t. t.rows ≡ gathered.tally.rows) }
    ensures count { IfOk result (λ t. t.count ≡ gathered.tally.count) }
    ensures ahead { IsAhead (F.bytes file.new) ahead.new.from ahead.new.bytes }
    ensures file { IsSameFile (F.bytes file.old) (F.bytes file.new) (F.file file.old) (F.file file.new)
        (F.size file.old) (F.size file.new) }
    ensures cause { HasScanCause None (F.count file.old) (F.count file.new) result }
{
    let front = marks_of(alloc, file, ahead, wanted, column, entries, gathered.first)?;
    let back = marks_of(alloc, file, ahead, wanted, column, entries, gathered.last)?;
    Ok(marked(gathered.tally, front, back))
}

// ---- the file

// The tally of a column over what is wanted of a file with this opening.
fn folded_of<F: FileBytes, L: Ledger>(
    alloc: Global,
    file: &mut F,
    ahead: &mut Ahead,
    wanted: &Wanted<'_>,
    column: usize,
    opening: &Opening,
    steps: &mut Steps<L>,
) -> Result<Tally, ScanFault>
    requires room { opening.now.index + length (flat_map entry_bytes opening.now.entries) < 2 ^ 64 }
    requires known { AreEntries opening.now.entries }
    requires ahead { IsAhead (F.bytes file.old) ahead.old.from ahead.old.bytes }
    ensures read { GivesPlaced (λ t. t) (F.bytes file.old) (F.file file.old) result
        (folded_behind (want_of wanted.now) column opening.now) }
    ensures sound { IfOk result IsSound }
    ensures rows { IfOk result (λ t. t.rows < 2 ^ 42) }
    ensures count { IfOk result (λ t. t.count < 2 ^ 42) }
    ensures steps { OnOk result (steps.new ≡ steps.old + partial_rows (want_of wanted.now) opening.now.entries) }
    ensures most_steps { steps.new ≤ steps.old + FOLD_STEPS }
    ensures file { IsSameFile (F.bytes file.old) (F.bytes file.new) (F.file file.old) (F.file file.new)
        (F.size file.old) (F.size file.new) }
    ensures cause { HasScanCause None (F.count file.old) (F.count file.new) result }
{
    let start = Spot {
        range: opening.range,
        next: 0,
        place: opening.index,
        last: Key { table: 0, ts: 0 },
    };
    let entries = opening.entries.as_slice();
    let gathered = gather(alloc, file, ahead, wanted, column, start, entries, steps)?;
    let tally = with_marks(alloc, file, ahead, wanted, column, entries, gathered)?;
    Ok(tally)
}

// The tally of a column over what is wanted of a file.
#[tactic(auto, unfolding(crate::specs::Folding::folded))]
fn folded<F: FileBytes, L: Ledger>(
    alloc: Global,
    file: &mut F,
    wanted: &Wanted<'_>,
    column: usize,
    steps: &mut Steps<L>,
) -> Result<Tally, ScanFault>
    ensures read { GivesPlaced (λ t. t) (F.bytes file.old) (F.file file.old) result
        (folded (want_of wanted.now) column) }
    ensures sound { IfOk result IsSound }
    ensures rows { IfOk result (λ t. t.rows < 2 ^ 42) }
    ensures count { IfOk result (λ t. t.count < 2 ^ 42) }
    ensures steps { OnOk result (IfSome (F.bytes file.old)
        (λ all. steps.new ≡ steps.old + steps_of (want_of wanted.now) all)) }
    ensures most_steps { steps.new ≤ steps.old + FOLD_STEPS }
    ensures file { IsSameFile (F.bytes file.old) (F.bytes file.new) (F.file file.old) (F.file file.new)
        (F.size file.old) (F.size file.new) }
    ensures cause { HasScanCause None (F.count file.old) (F.count file.new) result }
{
    let mut ahead = Ahead::new(alloc);
    let opening = opening_at(alloc, file, &mut ahead)?;
    let tally = folded_of(alloc, file, &mut ahead, wanted, column, &opening, steps)?;
    Ok(tally)
}

/// The tally of a column over the rows of a table, by number, with columns of these kinds, from `lo` to `hi`, both
/// among them: of a file that was written, that of the rows that a scan gives. Columns are counted from 0, without the
/// timestamp.
///
/// What the range covers whole isn't read: the index says of a column how many values a block has, their sum, the least
/// and the greatest. A step is one row of a block that the range covers in part, and there are at most two of these.
/// Besides them, at most two blocks are read: the first and the last that have values, for the first and the last of
/// these.
///
/// `ReadFault` comes only where the reader's count of faults rose; `Damaged` with the place of the first fault that is
/// met, where the file tells its bytes. The file stays as it is.
pub fn fold<F: FileBytes, L: Ledger>(
    alloc: Global,
    file: &mut F,
    table: u32,
    kinds: &[Kind],
    lo: u64,
    hi: u64,
    column: usize,
    steps: &mut Steps<L>,
) -> Result<Tally, ScanFault>
    requires column { column < length kinds.now }
    ensures tally { GivesPlaced (λ t. t) (F.bytes file.old) (F.file file.old) result
        (folded (record { table = table; kinds = kinds.now; lo = lo; hi = hi }) column) }
    ensures sound { IfOk result IsSound }
    ensures rows { IfOk result (λ t. t.rows < 2 ^ 42) }
    ensures count { IfOk result (λ t. t.count < 2 ^ 42) }
    ensures steps { OnOk result (IfSome (F.bytes file.old) (λ all. steps.new
        ≡ steps.old + steps_of (record { table = table; kinds = kinds.now; lo = lo; hi = hi }) all)) }
    ensures most_steps { steps.new ≤ steps.old + FOLD_STEPS }
    ensures file { IsSameFile (F.bytes file.old) (F.bytes file.new) (F.file file.old) (F.file file.new)
        (F.size file.old) (F.size file.new) }
    ensures cause { HasScanCause None (F.count file.old) (F.count file.new) result }
{
    let wanted = Wanted {
        table,
        kinds,
        lo,
        hi,
    };
    let tally = folded(alloc, file, &wanted, column, steps)?;
    Ok(tally)
}
