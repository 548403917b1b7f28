//! Files of a commit.
ghost use Rattle.std.specs.Prelude.{◌≡◌, [], ◌∷◌, IfOk};
ghost use Rattle.td_commit.specs.Sound.{IsSound};
ghost use Rattle.td_file_cases.specs.Parts.{both_columns, both_tables, HasParts};

use crate::hex::push_hex;
use crate::parts::Parts;
use std::alloc::Global;
use td_cases::{CaseFault, Out};
use td_cols::Kind;
use td_commit::{Frozen, write_files};
use td_layer::{NoMem, Seq};
use td_memtable::Memtable;
use td_outside::{IoFault, Writer};

// A file in memory that is written.
#[derive(Drop)]
struct CaseWriter {
    bytes: Seq<u8>,
}

impl Writer for CaseWriter {
    ghost use Rattle.std.specs.Prelude.{Some};

    ghost written = { λ w. Some w.bytes };

    ghost name = { λ _. 1 };

    ghost count = { λ _. 0 };

    fn write(&mut self, _alloc: Global, bytes: &[u8]) -> Result<(), IoFault> {
        if self.bytes.extend(bytes).is_err() {
            return Err(IoFault::NoMemory);
        }
        Ok(())
    }

    fn faults(&self) -> u64 {
        0
    }
}

// The kinds of a table's columns.
fn columns(alloc: Global) -> Result<Seq<Kind>, NoMem>
    ensures { IfOk result (λ kinds. kinds ≡ both_columns) }
{
    let mut kinds = Seq::new(alloc);
    kinds.add(Kind::I64)?;
    kinds.add(Kind::I64)?;
    Ok(kinds)
}

// The kinds of the columns of both tables.
fn tables(alloc: Global) -> Result<Seq<Seq<Kind>>, NoMem>
    ensures { IfOk result (λ kinds. kinds ≡ both_tables) }
{
    let mut kinds = Seq::new(alloc);
    kinds.add(columns(alloc)?)?;
    kinds.add(columns(alloc)?)?;
    Ok(kinds)
}

// The first two day ranges.
fn ranges(alloc: Global) -> Result<Seq<u32>, NoMem>
    ensures { IfOk result (λ ranges. ranges ≡ 0 ∷ 1 ∷ []) }
{
    let mut ranges = Seq::new(alloc);
    ranges.add(0)?;
    ranges.add(1)?;
    Ok(ranges)
}

// The memtable, to be written to files of the first two day ranges.
fn frozen_of(alloc: Global, memtable: Memtable) -> Result<Frozen, NoMem>
    requires { HasParts memtable }
    ensures sound { IfOk result IsSound }
    ensures ranges { IfOk result (λ f. f.ranges ≡ 0 ∷ 1 ∷ []) }
{
    let ranges = ranges(alloc)?;
    let kinds = tables(alloc)?;
    Ok(Frozen {
        number: 1,
        from: 0,
        version: 1,
        ranges,
        memtable,
        kinds,
    })
}

// Two files of which nothing is written.
fn files(alloc: Global) -> Result<Vec<CaseWriter>, CaseFault>
    ensures { IfOk result (λ files. files.items ≡ record { bytes = [] } ∷ record { bytes = [] } ∷ []) }
{
    let mut files = Vec::new(alloc);
    files.push(CaseWriter {
        bytes: Seq::new(alloc),
    })?;
    files.push(CaseWriter {
        bytes: Seq::new(alloc),
    })?;
    Ok(files)
}

/// `commit PART; PART; ..`: the files of the first two day ranges of a memtable of these puts and cuts, and `end`.
pub(crate) fn push_committed(out: &mut Out, alloc: Global, text: &str) -> Result<(), CaseFault> {
    let mut parts = Parts::new(alloc);
    for part in text.split("; ") {
        parts.play(part)?;
    }
    let frozen = frozen_of(alloc, parts.into_memtable())?;
    let mut files = files(alloc)?;
    if write_files(alloc, &frozen, files.as_mut_slice()).is_err() {
        return Err(CaseFault::NoMemory);
    }
    push_files(out, files.as_slice());
    Ok(())
}

fn push_files(out: &mut Out, files: &[CaseWriter]) {
    for file in files {
        push_hex(out, file.bytes.as_slice());
        out.push(b"; ");
    }
    out.push(b"end");
}
