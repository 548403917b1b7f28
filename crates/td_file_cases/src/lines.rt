//! Lines and what they show.
ghost use Rattle.std.specs.Prelude.{◌≡◌, ◌<◌};

use crate::{blocks, commits, folds, layers, scans};
use std::alloc::Global;
use std::sync::ledger::{Blank, Ledger};
use td_cases::{CaseFault, Out};
use td_layer::{Seq, Steps};

/// What lines show: the answer of a case, or the line itself, and a newline each.
pub(crate) fn shown_all<L: Ledger>(
    alloc: Global,
    lines: &[String],
    blank: Blank,
) -> Result<Seq<u8>, CaseFault>
    requires name { blank.name ≡ L.name }
    requires parts { blank.parts ≡ L.parts }
    requires some { 0 < blank.parts }
{
    let mut out = Out::new(alloc);
    let mut steps: Steps<L> = Steps::new(blank);
    push_lines(&mut out, alloc, lines, &mut steps)?;
    Ok(out.text()?)
}

fn push_lines<L: Ledger>(
    out: &mut Out,
    alloc: Global,
    lines: &[String],
    steps: &mut Steps<L>,
) -> Result<(), CaseFault> {
    for line in lines {
        push_line(out, alloc, line.as_str(), steps)?;
        out.push(b"\n");
    }
    Ok(())
}

// Adds what a line shows.
fn push_line<L: Ledger>(
    out: &mut Out,
    alloc: Global,
    line: &str,
    steps: &mut Steps<L>,
) -> Result<(), CaseFault> {
    if line.is_empty() || line.starts_with('#') {
        out.push(line.as_bytes());
        return Ok(());
    }
    let (kind, text) = line.split_once(' ').unwrap_or((line, ""));
    match push_answer(out, alloc, kind, text, steps) {
        Ok(()) => Ok(()),
        Err(CaseFault::Unread) => {
            out.push(b"unread");
            Ok(())
        }
        Err(fault) => Err(fault),
    }
}

// Adds the answer of a case.
fn push_answer<L: Ledger>(
    out: &mut Out,
    alloc: Global,
    kind: &str,
    text: &str,
    steps: &mut Steps<L>,
) -> Result<(), CaseFault> {
    match kind {
        "decode" => blocks::push_decoded(out, alloc, text),
        "again" => blocks::push_again(out, alloc, text),
        "head" => blocks::push_head(out, alloc, text),
        "header" => blocks::push_header(out, alloc, text),
        "scan" => scans::push_scanned(out, alloc, text, steps),
        "fail" => scans::push_failing(out, alloc, text, steps),
        "cut" => scans::push_cuts(out, alloc, text, steps),
        "data" => scans::push_data(out, alloc, text, steps),
        "datafail" => scans::push_failing_data(out, alloc, text, steps),
        "fold" => folds::push_folded(out, alloc, text, steps),
        "foldfail" => folds::push_failing(out, alloc, text, steps),
        "layers" => layers::push_rows(out, alloc, text, steps),
        "layersfail" => layers::push_failing(out, alloc, text, steps),
        "commit" => commits::push_committed(out, alloc, text),
        _ => Err(CaseFault::Unread),
    }
}
