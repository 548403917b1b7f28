//! The lines of a script, played one after another on a core.
ghost use Rattle.std.specs.Prelude.{◌≡◌, ◌≤◌, [], IfOk, OnErr, length};
ghost use Rattle.std.specs.List.{AllByRecursion};
ghost use Rattle.td_limits.specs.declared.limits.TheConstants.{LAST_TIMESTAMP};
ghost use Rattle.td_model.specs.Printable.{IsCount};
ghost use Rattle.td_script.specs.Script.{Numbered};
ghost use Rattle.td_core.specs.CoreState.{seen};
ghost use Rattle.td_core.specs.Covers.{Covers};
ghost use Rattle.td_printed.specs.Names.{IsCountedEntry, IsCountedLine, HasCounts};
ghost use Rattle.td_top.specs.Turns.{PlayedOn, RepliedOn, PlayedText, HasSome};

use crate::turns::line_turn;
use std::alloc::Global;
use td_core::Core;
use td_layer::{NoMem, Seq};
use td_model::{JournalLine, Mark, Reply, Report};
use td_outside::{Clock, Store};
use td_parse::Line;
use td_report::report;

fn copied_mark(mark: &Mark) -> Result<Mark, NoMem>
    ensures { IfOk result (λ m. m ≡ mark.now) }
{
    match mark {
        Mark::Plain => Ok(Mark::Plain),
        Mark::Halt => Ok(Mark::Halt),
        Mark::Step {
            stream,
            upto,
            moment,
        } => {
            let stream = stream.copy()?;
            Ok(Mark::Step {
                stream,
                upto: *upto,
                moment: *moment,
            })
        }
    }
}

// The numbers of an entry are below 2^64. It does nothing.
fn are_counts(_version: u64, _session: u32, _ordinal: u32, _moment: u64)
    ensures { IsCount _version × IsCount _session × IsCount _ordinal × IsCount _moment }
{}

fn copied_line(line: &JournalLine) -> Result<JournalLine, NoMem>
    ensures copy { IfOk result (λ l. l ≡ line.now) }
    ensures counted { IfOk result (λ l. IsCountedEntry l) }
{
    are_counts(line.version, line.session, line.ordinal, line.moment);
    let mark = copied_mark(&line.mark)?;
    Ok(JournalLine {
        version: line.version,
        session: line.session,
        ordinal: line.ordinal,
        moment: line.moment,
        mark,
    })
}

fn copied_lines(alloc: Global, lines: &[JournalLine]) -> Result<Seq<JournalLine>, NoMem>
    ensures copy { IfOk result (λ all. all ≡ lines.now) }
    ensures counted { IfOk result (λ all. AllByRecursion IsCountedEntry all) }
    ensures few { IfOk result (λ all. IsCount (length all)) }
{
    let mut all = Seq::new(alloc);
    for line in lines {
        all.add(copied_line(line)?)?;
    }
    Ok(all)
}

// The session and the ordinal of a reply are below 2^64, and so is the count of its rows. It does nothing.
fn is_counted(session: u32, ordinal: u32, reply: &Reply)
    ensures { IsCountedLine (session, ordinal, reply.now) }
{
    if let Reply::Answer { rows, .. } = reply {
        let _ = rows.len();
    }
}

// The replies to the lines of a script, with the session and the ordinal of each.
fn replies_to<S: Store, C: Clock>(
    alloc: Global,
    core: &mut Core<S, C>,
    lines: &[Line],
) -> Result<Seq<(u32, u32, Reply)>, NoMem>
    requires numbered { Numbered [] lines.now }
    requires covers { Covers (C.readings core.old.clock) (seen S.told S.count C.readings core.old) core.old.state [] }
    requires floor { (core.old.floor ≡ core.old.state.moment) × (core.old.floor ≤ LAST_TIMESTAMP) }
    requires base { (core.old.base ≡ core.old.state.version) × (core.old.journal ≡ []) }
    ensures replies { IfOk result (λ rs. RepliedOn (seen S.told S.count C.readings core.old)
        (seen S.told S.count C.readings core.new) lines.now rs) }
    ensures counted { IfOk result (λ rs. AllByRecursion IsCountedLine rs) }
    ensures broke { OnErr result (HasSome (seen S.told S.count C.readings core.old)
        (seen S.told S.count C.readings core.new)) }
{
    let mut replies = Seq::new(alloc);
    for line in lines {
        let reply = line_turn(alloc, core, line)?;
        is_counted(line.session, line.ordinal, &reply);
        replies.add((line.session, line.ordinal, reply))?;
    }
    Ok(replies)
}

/// Plays the lines of a script in their order on a core that was opened and has no entry since. The answer is the
/// report, or want of memory for it: the core then has the entries of the lines so far.
///
/// The turn of a write or of a text that is no statement reads the clock once, that of a query not at all; the moments
/// are the clock's readings, and don't fall where these do. The report's numbers are below 2^64, and so are the counts
/// of its rows.
pub fn play_lines<S: Store, C: Clock>(
    alloc: Global,
    core: &mut Core<S, C>,
    lines: &[Line],
) -> Result<Report, NoMem>
    requires numbered { Numbered [] lines.now }
    requires covers { Covers (C.readings core.old.clock) (seen S.told S.count C.readings core.old) core.old.state [] }
    requires floor { (core.old.floor ≡ core.old.state.moment) × (core.old.floor ≤ LAST_TIMESTAMP) }
    requires base { (core.old.base ≡ core.old.state.version) × (core.old.journal ≡ []) }
    ensures played { IfOk result (λ r. PlayedOn (seen S.told S.count C.readings core.old)
        (seen S.told S.count C.readings core.new) lines.now r) }
    ensures counts { IfOk result (λ r. HasCounts r) }
    ensures broke { OnErr result (HasSome (seen S.told S.count C.readings core.old)
        (seen S.told S.count C.readings core.new)) }
{
    let replies = replies_to(alloc, core, lines)?;
    let journal = copied_lines(alloc, core.journal())?;
    Ok(Report {
        base: core.base(),
        replies,
        streams: Seq::new(alloc),
        journal,
    })
}

// The text of the report of lines that are played.
pub(crate) fn report_of<S: Store, C: Clock>(
    alloc: Global,
    core: &mut Core<S, C>,
    lines: &[Line],
) -> Result<Seq<u8>, NoMem>
    requires numbered { Numbered [] lines.now }
    requires covers { Covers (C.readings core.old.clock) (seen S.told S.count C.readings core.old) core.old.state [] }
    requires floor { (core.old.floor ≡ core.old.state.moment) × (core.old.floor ≤ LAST_TIMESTAMP) }
    requires base { (core.old.base ≡ core.old.state.version) × (core.old.journal ≡ []) }
    ensures played { IfOk result (λ text. PlayedText (seen S.told S.count C.readings core.old)
        (seen S.told S.count C.readings core.new) lines.now text) }
    ensures broke { OnErr result (HasSome (seen S.told S.count C.readings core.old)
        (seen S.told S.count C.readings core.new)) }
{
    let played = play_lines(alloc, core, lines)?;
    let text = report(alloc, &played)?;
    Ok(text)
}
