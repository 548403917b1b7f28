//! Snapshots over layers.
ghost use Rattle.std.specs.Prelude.{◌≡◌, map, IfOk};
ghost use Rattle.td_fileset.specs.Layered.{HaveOwnRanges};
ghost use Rattle.td_fileset.specs.Opened.{Readers};

use crate::blocks::{push_cell, push_number};
use crate::file::CaseFile;
use crate::hex::bytes_of;
use crate::parts::Parts;
use crate::scans::number_of;
use std::alloc::Global;
use std::collections::BTreeMap;
use std::sync::ledger::Ledger;
use td_cases::{CaseFault, Out};
use td_cols::Kind;
use td_fileset::{Layers, SetReaders};
use td_layer::{NoMem, Row, ScanFault, Seq, Snapshot, Steps};
use td_memtable::Memtable;

// The files of a day range.
#[derive(Drop)]
struct Files {
    stt: Vec<CaseFile>,
    main: Option<CaseFile>,
}

impl Files {
    fn new(alloc: Global) -> Files {
        Files {
            stt: Vec::new(alloc),
            main: None,
        }
    }

    // An stt file over those that are there, or the data file.
    fn put(&mut self, kind: &str, file: CaseFile) -> Result<(), CaseFault> {
        if kind == "data" {
            self.main = Some(file);
            return Ok(());
        }
        self.stt.insert(0, file)?;
        Ok(())
    }
}

// Layers that are put over one another: memtables, the newest first, what is put into the one above them, and the
// files of the first two day ranges, of which each fails at one call.
#[derive(Drop)]
struct Stack {
    alloc: Global,
    fails: u64,
    memtables: Vec<Memtable>,
    parts: Parts,
    first: Files,
    second: Files,
}

// A number of 32 bits.
fn small_of(word: Option<&str>) -> Result<u32, CaseFault> {
    word.unwrap_or("")
        .parse::<u32>()
        .map_err(|_| CaseFault::Unread)
}

impl Stack {
    fn new(alloc: Global, fails: u64) -> Stack {
        Stack {
            alloc,
            fails,
            memtables: Vec::new(alloc),
            parts: Parts::new(alloc),
            first: Files::new(alloc),
            second: Files::new(alloc),
        }
    }

    // `RANGE BYTES`: a file over those of one of the first two day ranges.
    fn put_file(&mut self, kind: &str, text: &str) -> Result<(), CaseFault> {
        let (range, digits) = text.split_once(' ').unwrap_or((text, ""));
        let bytes = Seq::from_vec(self.alloc, bytes_of(self.alloc, digits)?);
        let file = CaseFile::new(bytes, self.fails);
        match range {
            "0" => self.first.put(kind, file),
            "1" => self.second.put(kind, file),
            _ => Err(CaseFault::Unread),
        }
    }

    // A memtable above those that are there.
    fn begin_memtable(&mut self) -> Result<(), CaseFault> {
        let parts = std::mem::replace(&mut self.parts, Parts::new(self.alloc));
        self.memtables.insert(0, parts.into_memtable())?;
        Ok(())
    }

    // `stt RANGE BYTES` or `data RANGE BYTES`, a file over those of its day range; `memtable`; or a part of the
    // newest memtable.
    fn put(&mut self, text: &str) -> Result<(), CaseFault> {
        let (kind, rest) = text.split_once(' ').unwrap_or((text, ""));
        match kind {
            "stt" | "data" => self.put_file(kind, rest),
            "memtable" => self.begin_memtable(),
            _ => self.parts.play(text),
        }
    }
}

// The readers of the files of a day range.
fn set_of(range: u32, files: Files) -> SetReaders<CaseFile>
    ensures { result.files.range ≡ range }
{
    let Files { stt, main } = files;
    SetReaders { range, stt, main }
}

// The readers of the first two day ranges.
#[tactic(auto, using(crate::proofs::Kept::two_ranges))]
fn sets_of(
    alloc: Global,
    first: Files,
    second: Files,
) -> Result<Vec<SetReaders<CaseFile>>, CaseFault>
    ensures { IfOk result (λ sets. HaveOwnRanges (map (λ (r : Readers). r.files) sets.items)) }
{
    let mut sets = Vec::new(alloc);
    let first = set_of(0, first);
    sets.push(first)?;
    let second = set_of(1, second);
    sets.push(second)?;
    Ok(sets)
}

// The kinds of the columns of the tables 1 and 2.
fn kinds(alloc: Global) -> Result<BTreeMap<u32, Seq<Kind>>, CaseFault> {
    let mut kinds = BTreeMap::new(alloc);
    for table in 1..3 {
        let mut own = Seq::new(alloc);
        own.add(Kind::I64)?;
        own.add(Kind::I64)?;
        kinds.insert(table, own)?;
    }
    Ok(kinds)
}

// The snapshot of layers at the keys at or above an edge.
fn layers_of(stack: Stack, edge: u32) -> Result<Layers<CaseFile>, CaseFault> {
    let mut stack = stack;
    stack.begin_memtable()?;
    let Stack {
        alloc,
        fails: _,
        memtables,
        parts,
        first,
        second,
    } = stack;
    drop(parts);
    let kinds = kinds(alloc)?;
    let sets = sets_of(alloc, first, second)?;
    Ok(Layers::new(alloc, memtables, sets, kinds, edge))
}

/// `layers EDGE TABLE LO HI; LAYER; LAYER; ..`: the rows of a table from one timestamp to another that these layers make
/// at or above the edge, the oldest first, and `end`; or where a file is damaged. A layer is `stt RANGE BYTES` or
/// `data RANGE BYTES`, or `memtable` and then its parts.
pub(crate) fn push_rows<L: Ledger>(
    out: &mut Out,
    alloc: Global,
    text: &str,
    steps: &mut Steps<L>,
) -> Result<(), CaseFault> {
    push_asked(out, alloc, 0, text, steps)
}

/// `layersfail CALL EDGE TABLE LO HI; ..`: the same, where a call of each file's reader fails; the snapshot is then
/// asked again, as often as it says so. Behind the answer stands how often readers failed.
pub(crate) fn push_failing<L: Ledger>(
    out: &mut Out,
    alloc: Global,
    text: &str,
    steps: &mut Steps<L>,
) -> Result<(), CaseFault> {
    let (call, text) = text.split_once(' ').unwrap_or((text, ""));
    let call = number_of(Some(call))?;
    push_asked(out, alloc, call, text, steps)
}

fn push_asked<L: Ledger>(
    out: &mut Out,
    alloc: Global,
    fails: u64,
    text: &str,
    steps: &mut Steps<L>,
) -> Result<(), CaseFault> {
    let (asked, text) = text.split_once("; ").unwrap_or((text, ""));
    let mut words = asked.splitn(4, ' ');
    let edge = small_of(words.next())?;
    let table = small_of(words.next())?;
    let lo = number_of(words.next())?;
    let hi = number_of(words.next())?;
    let mut stack = Stack::new(alloc, fails);
    for layer in text.split("; ") {
        stack.put(layer)?;
    }
    let mut layers = layers_of(stack, edge)?;
    let answered = push_answers(out, &mut layers, table, lo, hi, steps);
    if fails > 0 {
        push_number(out, b" faults ", i128::from(layers.faults()));
    }
    drop(layers.into_readers());
    answered
}

// Adds what a snapshot answers, and asks it again while a reader fails.
fn push_answers<L: Ledger>(
    out: &mut Out,
    layers: &mut Layers<CaseFile>,
    table: u32,
    lo: u64,
    hi: u64,
    steps: &mut Steps<L>,
) -> Result<(), CaseFault> {
    for _ in 0..9 {
        match layers.rows_of(table, lo, hi, steps) {
            Ok(rows) => {
                push_found(out, rows.as_slice());
                return Ok(());
            }
            Err(ScanFault::ReadFault) => out.push(b"read fault; "),
            Err(ScanFault::Damaged { file, at }) => {
                push_number(out, b"file ", i128::from(file));
                push_number(out, b" damaged at ", i128::from(at));
                return Ok(());
            }
            Err(ScanFault::NoMemory) => return Err(CaseFault::NoMemory),
        }
    }
    Ok(())
}

fn push_found(out: &mut Out, rows: &[(u64, Row)]) {
    for (ts, row) in rows {
        push_number(out, b"", i128::from(*ts));
        push_number(out, b" born ", i128::from(row.birth.born));
        for value in row.values.as_slice() {
            push_cell(out, Some(*value));
        }
        out.push(b"; ");
    }
    out.push(b"end");
}
