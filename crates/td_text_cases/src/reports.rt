//! Reports.
use crate::parts::{cause_of, cell_of, journal_line_of, name, number, reply_of, small};
use std::alloc::Global;
use td_cases::CaseFault;
use td_layer::{Cell, Copied, Name, Seq};
use td_model::{JournalLine, Reply, Report};
use td_report::report;

/// `reply WORD|NUMBER|NUMBER` or `reply answer|PREFIX|HEADER|ROWS`: the report of a reply to the second statement of
/// session 1. The items of the header and the cells of a row are parted by commas, and rows by semicolons.
pub(crate) fn reply_told(alloc: Global, text: &str) -> Result<Seq<u8>, CaseFault> {
    let mut parts = text.split('|');
    let word = parts.next().unwrap_or("");
    let first = number(parts.next())?;
    if word == "answer" {
        let answer = answer_of(alloc, first, parts.next().unwrap_or(""), parts.next())?;
        return told(alloc, answer);
    }
    match reply_of(word, first, small(parts.next())?) {
        Some(reply) => told(alloc, reply),
        None => Err(CaseFault::Unread),
    }
}

fn answer_of(
    alloc: Global,
    prefix: u64,
    header: &str,
    rows: Option<&str>,
) -> Result<Reply, CaseFault> {
    let header = header_of(alloc, header)?;
    match rows_of(alloc, rows) {
        Ok(rows) => Ok(Reply::Answer {
            prefix,
            header,
            rows,
        }),
        Err(fault) => {
            drop(header);
            Err(fault)
        }
    }
}

fn header_of(alloc: Global, text: &str) -> Result<Seq<Name>, CaseFault> {
    let mut names = Vec::new(alloc);
    for item in text.split(',') {
        names.push(name(alloc, Some(item))?)?;
    }
    Ok(Seq::from_vec(alloc, names))
}

fn rows_of(alloc: Global, text: Option<&str>) -> Result<Seq<Seq<Cell>>, CaseFault> {
    let mut rows = Vec::new(alloc);
    if let Some(text) = text {
        for row in text.split(';') {
            rows.push(row_of(alloc, row)?)?;
        }
    }
    Ok(Seq::from_vec(alloc, rows))
}

fn row_of(alloc: Global, text: &str) -> Result<Seq<Cell>, CaseFault> {
    let mut cells = Vec::new(alloc);
    for cell in text.split(',') {
        cells.push(cell_of(alloc, cell)?)?;
    }
    Ok(Seq::from_vec(alloc, cells))
}

/// `cause WORD|OF`: the report of a refusal at prefix 9, with a copy of a cause, of the second statement of session 1.
pub(crate) fn cause_told(alloc: Global, text: &str) -> Result<Seq<u8>, CaseFault> {
    let (word, of) = match text.split_once('|') {
        Some((word, of)) => (word, Some(of)),
        None => (text, None),
    };
    let cause = cause_of(alloc, word, of)?;
    let copy = cause.copy();
    drop(cause);
    told(
        alloc,
        Reply::Refused {
            prefix: 9,
            cause: copy?,
        },
    )
}

// The report of one reply.
fn told(alloc: Global, reply: Reply) -> Result<Seq<u8>, CaseFault> {
    let replies = Seq::from_vec(alloc, vec![in alloc; (1, 2, reply)]?);
    written(
        alloc,
        Report {
            base: 0,
            replies,
            streams: Seq::new(alloc),
            journal: Seq::new(alloc),
        },
    )
}

// The report of parts.
fn written(alloc: Global, parts: Report) -> Result<Seq<u8>, CaseFault> {
    let text = report(alloc, &parts);
    drop(parts);
    Ok(text?)
}

/// `report BASE|PART|PART ..`: the report of parts, each of which is `stream NAME UPTO` or a line of the journal.
pub(crate) fn report_told(alloc: Global, text: &str) -> Result<Seq<u8>, CaseFault> {
    let base = number(text.split('|').next())?;
    let streams = streams_of(alloc, text)?;
    match journal_of(alloc, text) {
        Ok(journal) => written(
            alloc,
            Report {
                base,
                replies: Seq::new(alloc),
                streams,
                journal,
            },
        ),
        Err(fault) => {
            drop(streams);
            Err(fault)
        }
    }
}

fn streams_of(alloc: Global, text: &str) -> Result<Seq<(Name, u64)>, CaseFault> {
    let mut streams = Vec::new(alloc);
    for part in text.split('|').skip(1) {
        if let Some(stream) = part.strip_prefix("stream ") {
            let mut words = stream.split(' ');
            let called = name(alloc, words.next())?;
            streams.push((called, number(words.next())?))?;
        }
    }
    Ok(Seq::from_vec(alloc, streams))
}

fn journal_of(alloc: Global, text: &str) -> Result<Seq<JournalLine>, CaseFault> {
    let mut lines = Vec::new(alloc);
    for part in text.split('|').skip(1) {
        if !part.starts_with("stream ") {
            lines.push(journal_line_of(alloc, part)?)?;
        }
    }
    Ok(Seq::from_vec(alloc, lines))
}
