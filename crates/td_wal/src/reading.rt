//! Reading a log.
ghost use Rattle.std.specs.Prelude.{◌≡◌, ◌⊎◌, ◌==◌, ◌&&◌, ◌≤◌, List, ℕ, [], OnOk, IfOk};
ghost use Rattle.std.specs.Int.{w32, w64};
ghost use Rattle.td_codec.specs.Fields.{Gives, checked, number};
ghost use Rattle.td_wal.specs.Items.{all_bytes, enclosed, version_field, moment_field, session_field, item_head, ItemHead, step_head, step, is_step_of, body_form, body, item};
ghost use Rattle.td_wal.specs.declared.item.LogItem.{LogItem as Item};
ghost use Rattle.td_wal.specs.declared.reading.LogFault.TheVariants as faults;
ghost use Rattle.td_wal.specs.Log.{IsLog, LogAt, Answers, AnswersAt};
ghost use Rattle.td_wal.specs.Parts.{head_parts, step_parts, step_head_parts};

use crate::item::{LogBody, LogItem};
use std::alloc::Global;
use td_codec::{ReadFault, u8_of, u32_of, u64_of, win_keys_of, win_rows_of};
use td_layer::{Name, Seq};
use td_limits::{LAST_TIMESTAMP, LAST_VERSION, SESSIONS};
use td_model::Delta;

/// Why a log was not read: the bytes break its form first at a place, behind these items, which are whole; or there was
/// no memory.
#[derive(Debug, Drop)]
pub enum LogFault {
    NotThis { at: u64, items: Seq<LogItem> },
    NoMemory,
}

impl From<td_layer::NoMem> for LogFault {
    ghost use Rattle.td_wal.specs.declared.reading.LogFault.TheVariants.{NoMemory};

    ghost from_gives = { λ _ e. e ≡ NoMemory };

    fn from(_: td_layer::NoMem) -> LogFault {
        LogFault::NoMemory
    }
}

/// What stands before the body of an item.
#[derive(Clone, Copy)]
pub(crate) struct ItemHead {
    size: u32,
    version: u64,
    moment: u64,
    session: u32,
    ordinal: u32,
}

/// What stands before the windows of a step.
#[derive(Clone, Copy)]
pub(crate) struct StepHead {
    stream: u32,
    upto: u64,
    moment: u64,
}

/// This version, which isn't beyond the last.
fn version_of(version: u64, bytes: &[u8]) -> Result<(u64, &[u8]), ReadFault>
    ensures read { Gives (λ x. (x.0, x.1.now)) result ((version_field version).read bytes.now) }
    ensures in_range { OnOk result (version ≤ LAST_VERSION) }
{
    let (own, rest) = u64_of(bytes)?;
    if own == version && own <= LAST_VERSION {
        return Ok((own, rest));
    }
    Err(ReadFault::Broken(bytes.len()))
}

/// A moment from this one on, up to the last.
fn moment_of(least: u64, bytes: &[u8]) -> Result<(u64, &[u8]), ReadFault>
    ensures { Gives (λ x. (x.0, x.1.now)) result ((moment_field least).read bytes.now) }
{
    let (moment, rest) = u64_of(bytes)?;
    if least <= moment && moment <= LAST_TIMESTAMP {
        return Ok((moment, rest));
    }
    Err(ReadFault::Broken(bytes.len()))
}

/// A session, or 0 for none.
fn session_of(bytes: &[u8]) -> Result<(u32, &[u8]), ReadFault>
    ensures { Gives (λ x. (x.0, x.1.now)) result (session_field.read bytes.now) }
{
    let (session, rest) = u32_of(bytes)?;
    if session <= SESSIONS {
        return Ok((session, rest));
    }
    Err(ReadFault::Broken(bytes.len()))
}

/// What stands before the body of an item of this version, and of a moment from this one on.
#[tactic(auto, unfolding(crate::specs::Items::item_head))]
fn head_of(version: u64, least: u64, bytes: &[u8]) -> Result<(ItemHead, &[u8]), ReadFault>
    ensures read { Gives (λ x. (head_parts x.0, x.1.now)) result ((item_head version least).read bytes.now) }
    ensures in_range { OnOk result (version ≤ LAST_VERSION) }
{
    let (size, rest) = u32_of(bytes)?;
    let (version, rest) = version_of(version, rest)?;
    let (moment, rest) = moment_of(least, rest)?;
    let (session, rest) = session_of(rest)?;
    let (ordinal, rest) = u32_of(rest)?;
    Ok((
        ItemHead {
            size,
            version,
            moment,
            session,
            ordinal,
        },
        rest,
    ))
}

/// A text of so many bytes.
fn text_of(alloc: Global, size: usize, bytes: &[u8]) -> Result<(Name, &[u8]), ReadFault>
    ensures { Gives (λ x. (x.0, x.1.now)) result ((enclosed size all_bytes).read bytes.now) }
{
    if bytes.len() < size {
        return Err(ReadFault::Broken(bytes.len()));
    }
    let (front, rest) = bytes.split_at(size);
    let text = Seq::of_bytes(alloc, front)?;
    Ok((text, rest))
}

/// What stands before the windows of a step of an item of this version and moment.
#[tactic(auto, unfolding(crate::specs::Items::step_head))]
fn step_head_of(version: u64, moment: u64, bytes: &[u8]) -> Result<(StepHead, &[u8]), ReadFault>
    ensures { Gives (λ x. (step_head_parts x.0, x.1.now)) result ((step_head version moment).read bytes.now) }
{
    let (stream, rest) = u32_of(bytes)?;
    let (upto, rest) = u64_of(rest)?;
    let (own, rest) = u64_of(rest)?;
    if upto < version && own <= moment {
        return Ok((
            StepHead {
                stream,
                upto,
                moment: own,
            },
            rest,
        ));
    }
    Err(ReadFault::Broken(bytes.len()))
}

/// A step of an item of this version and moment.
#[tactic(auto, unfolding(crate::specs::Items::step))]
fn step_of(
    alloc: Global,
    version: u64,
    moment: u64,
    bytes: &[u8],
) -> Result<((StepHead, Delta), &[u8]), ReadFault>
    ensures { Gives (λ x. (step_parts x.0, x.1.now)) result ((step version moment).read bytes.now) }
{
    let (head, rest) = step_head_of(version, moment, bytes)?;
    let (removed, rest) = win_keys_of(alloc, rest)?;
    let (added, rest) = win_rows_of(alloc, rest)?;
    Ok(((head, Delta { removed, added }), rest))
}

/// A step in a part of so many bytes, which it fills.
fn step_in(
    alloc: Global,
    version: u64,
    moment: u64,
    size: usize,
    bytes: &[u8],
) -> Result<((StepHead, Delta), &[u8]), ReadFault>
    ensures { Gives (λ x. (step_parts x.0, x.1.now)) result ((enclosed size (step version moment)).read bytes.now) }
{
    if bytes.len() < size {
        return Err(ReadFault::Broken(bytes.len()));
    }
    let (front, rest) = bytes.split_at(size);
    match step_of(alloc, version, moment, front) {
        Ok((step, [])) => Ok((step, rest)),
        Ok((_, left)) => Err(ReadFault::Broken(left.len() + rest.len())),
        Err(ReadFault::NoMemory) => Err(ReadFault::NoMemory),
        Err(ReadFault::Broken(left)) => Err(ReadFault::Broken(left + rest.len())),
    }
}

/// A kind, and a body of that kind in so many bytes.
#[tactic(auto, unfolding(crate::specs::Items::body, crate::specs::Items::body_form))]
fn body_of(
    alloc: Global,
    version: u64,
    moment: u64,
    size: u32,
    bytes: &[u8],
) -> Result<(LogBody, &[u8]), ReadFault>
    ensures { Gives (λ x. (x.0, x.1.now)) result ((body version moment size).read bytes.now) }
{
    let (kind, rest) = u8_of(bytes)?;
    match kind {
        1 => {
            let (text, rest) = text_of(alloc, size as usize, rest)?;
            Ok((LogBody::Text(text), rest))
        }
        2 => {
            let ((head, delta), rest) = step_in(alloc, version, moment, size as usize, rest)?;
            Ok((
                LogBody::Step {
                    stream: head.stream,
                    upto: head.upto,
                    moment: head.moment,
                    delta,
                },
                rest,
            ))
        }
        _ => Err(ReadFault::Broken(bytes.len())),
    }
}

/// An item of this version, and of a moment from this one on.
#[tactic(auto, unfolding(crate::specs::Items::item))]
fn item_of(
    alloc: Global,
    version: u64,
    least: u64,
    bytes: &[u8],
) -> Result<(LogItem, &[u8]), ReadFault>
    ensures read { Gives (λ x. (x.0, x.1.now)) result ((item version least).read bytes.now) }
    ensures in_range { OnOk result (version ≤ LAST_VERSION) }
{
    let (head, rest) = head_of(version, least, bytes)?;
    let (body, rest) = body_of(alloc, head.version, head.moment, head.size, rest)?;
    Ok((
        LogItem {
            version: head.version,
            moment: head.moment,
            session: head.session,
            ordinal: head.ordinal,
            body,
        },
        rest,
    ))
}

/// The items of a log with the place of its closed gate, or where its form breaks.
#[tactic(auto, using(crate::proofs::LogLaws::gate_is, crate::proofs::LogLaws::ends_broken, crate::proofs::LogLaws::ends_short))]
fn items_of(alloc: Global, bytes: &[u8], first: u64) -> Result<(Seq<LogItem>, u64), LogFault>
    ensures { AnswersAt first bytes.now result }
{
    let mut items = Seq::new(alloc);
    let mut rest = bytes;
    let mut version = first;
    let mut least = 0;
    while let Some((gate, more)) = rest.split_first() {
        if *gate != 1 {
            let at = bytes.len().saturating_sub(rest.len()) as u64;
            return Ok((items, at));
        }
        match item_of(alloc, version, least, more) {
            Ok((item, next)) => {
                version += 1;
                least = item.moment;
                rest = next;
                items.add(item)?;
            }
            Err(ReadFault::NoMemory) => return Err(LogFault::NoMemory),
            Err(ReadFault::Broken(left)) => {
                let at = bytes.len().saturating_sub(left) as u64;
                return Err(LogFault::NotThis { at, items });
            }
        }
    }
    let at = bytes.len() as u64;
    Err(LogFault::NotThis { at, items })
}

/// The items of a log whose first item has the version `first`, up to the first gate that isn't open. `NotThis` comes
/// exactly where the bytes aren't such a log, with the place of the first field that is cut short or breaks its rule,
/// and the items whose bodies stand whole before it.
pub fn read_all(alloc: Global, bytes: &[u8], first: u64) -> Result<Seq<LogItem>, LogFault>
    ensures exact { Answers first bytes.now result }
    // A log is read, unless memory runs out.
    ensures only { (items : List Item) → IsLog first bytes.now items
        → (result ≡ Ok items) ⊎ (result ≡ Err faults.NoMemory) }
{
    let (items, _) = items_of(alloc, bytes, first)?;
    Ok(items)
}

/// The same with the place of the gate that isn't open, where the next item is appended.
pub fn read_to_gate(
    alloc: Global,
    bytes: &[u8],
    first: u64,
) -> Result<(Seq<LogItem>, u64), LogFault>
    ensures exact { AnswersAt first bytes.now result }
    ensures only { (items : List Item) (at : ℕ) → LogAt first items at bytes.now
        → (result ≡ Ok (items, at)) ⊎ (result ≡ Err faults.NoMemory) }
{
    items_of(alloc, bytes, first)
}
