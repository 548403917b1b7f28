//! Blocks.
use crate::hex::{bytes_of, push_hex};
use std::alloc::Global;
use td_block::{Block, BlockFault, Header, decode, encode, head_of, header_of};
use td_cases::{CaseFault, Out};
use td_cols::Kind;
use td_layer::{Partial, Value};

fn kind_of(word: &str) -> Result<Kind, CaseFault> {
    let kind = match word {
        "bool" => Kind::Bool,
        "i8" => Kind::I8,
        "i16" => Kind::I16,
        "i32" => Kind::I32,
        "i64" => Kind::I64,
        "u8" => Kind::U8,
        "u16" => Kind::U16,
        "u32" => Kind::U32,
        "u64" => Kind::U64,
        "time" => Kind::Time,
        "wide" => Kind::Wide,
        "text" => Kind::Text(9),
        _ => return Err(CaseFault::Unread),
    };
    Ok(kind)
}

fn word_of(kind: Kind) -> &'static [u8] {
    match kind {
        Kind::Bool => b"bool",
        Kind::I8 => b"i8",
        Kind::I16 => b"i16",
        Kind::I32 => b"i32",
        Kind::I64 => b"i64",
        Kind::U8 => b"u8",
        Kind::U16 => b"u16",
        Kind::U32 => b"u32",
        Kind::U64 => b"u64",
        Kind::Time => b"time",
        Kind::Wide => b"wide",
        Kind::Text(_) => b"text",
    }
}

/// Words of kinds with commas between them, or `-` for none.
pub(crate) fn kinds_of(alloc: Global, words: &str) -> Result<Vec<Kind>, CaseFault> {
    let mut kinds = Vec::new(alloc);
    if words == "-" {
        return Ok(kinds);
    }
    for word in words.split(',') {
        kinds.push(kind_of(word)?)?;
    }
    Ok(kinds)
}

fn push_fault(out: &mut Out, fault: BlockFault) -> Result<(), CaseFault> {
    match fault {
        BlockFault::Bad(at) => {
            push_number(out, b"bad ", i128::from(at));
            Ok(())
        }
        BlockFault::NoMemory => Err(CaseFault::NoMemory),
    }
}

/// Adds a word and a number.
pub(crate) fn push_number(out: &mut Out, word: &[u8], number: i128) {
    out.push(word);
    out.number(number);
}

/// `decode KINDS BYTES`: the table, the bytes that the block takes, and its rows: timestamp, birth and cells, of
/// which `-` is one that isn't named; or the place where it is bad.
pub(crate) fn push_decoded(out: &mut Out, alloc: Global, text: &str) -> Result<(), CaseFault> {
    let (words, digits) = text.split_once(' ').unwrap_or((text, ""));
    let kinds = kinds_of(alloc, words)?;
    let bytes = bytes_of(alloc, digits)?;
    match decode(alloc, kinds.as_slice(), bytes.as_slice()) {
        Ok(block) => push_block(out, &block),
        Err(fault) => push_fault(out, fault)?,
    }
    Ok(())
}

fn push_block(out: &mut Out, block: &Block) {
    push_number(out, b"table ", i128::from(block.table));
    push_number(out, b" used ", i128::from(block.used));
    for row in block.rows.as_slice() {
        out.push(b"; ");
        push_row(out, row);
    }
}

/// Adds a row: its timestamp, its birth and its cells.
pub(crate) fn push_row(out: &mut Out, row: &(u64, Partial)) {
    push_number(out, b"", i128::from(row.0));
    push_number(out, b" born ", i128::from(row.1.birth.born));
    for cell in row.1.cells.as_slice() {
        push_cell(out, *cell);
    }
}

/// Adds a cell: `-` where it names no value.
pub(crate) fn push_cell(out: &mut Out, cell: Option<Value>) {
    match cell {
        None => out.push(b" -"),
        Some(Value::Null) => out.push(b" NULL"),
        Some(Value::Num(number)) => push_number(out, b" ", number),
    }
}

/// `again KINDS BYTES`: the bytes of the block that begins these, written again.
pub(crate) fn push_again(out: &mut Out, alloc: Global, text: &str) -> Result<(), CaseFault> {
    let (words, digits) = text.split_once(' ').unwrap_or((text, ""));
    let kinds = kinds_of(alloc, words)?;
    let bytes = bytes_of(alloc, digits)?;
    match decode(alloc, kinds.as_slice(), bytes.as_slice()) {
        Ok(block) => {
            let written = encode(alloc, block.table, kinds.as_slice(), block.rows.as_slice())?;
            push_hex(out, written.as_slice());
        }
        Err(fault) => push_fault(out, fault)?,
    }
    Ok(())
}

/// `head BYTES`: the table, and the counts of rows and columns.
pub(crate) fn push_head(out: &mut Out, alloc: Global, text: &str) -> Result<(), CaseFault> {
    let bytes = bytes_of(alloc, text)?;
    match head_of(bytes.as_slice()) {
        Ok(head) => {
            push_number(out, b"table ", i128::from(head.table));
            push_number(out, b" rows ", i128::from(head.rows));
            push_number(out, b" columns ", i128::from(head.columns));
        }
        Err(fault) => push_fault(out, fault)?,
    }
    Ok(())
}

/// `header BYTES`: the table, the count of rows, the first and the last timestamp, the bytes that the block takes,
/// and the kinds of its columns.
pub(crate) fn push_header(out: &mut Out, alloc: Global, text: &str) -> Result<(), CaseFault> {
    let bytes = bytes_of(alloc, text)?;
    match header_of(alloc, bytes.as_slice()) {
        Ok(header) => push_header_of(out, &header),
        Err(fault) => push_fault(out, fault)?,
    }
    Ok(())
}

fn push_header_of(out: &mut Out, header: &Header) {
    push_number(out, b"table ", i128::from(header.table));
    push_number(out, b" rows ", i128::from(header.rows));
    push_number(out, b" first ", i128::from(header.first));
    push_number(out, b" last ", i128::from(header.last));
    push_number(out, b" size ", i128::from(header.size));
    for kind in header.kinds.as_slice() {
        out.push(b" ");
        out.push(word_of(*kind));
    }
}
