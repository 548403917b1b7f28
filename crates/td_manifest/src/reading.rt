//! Reading a head.
ghost use Rattle.std.specs.Prelude.{◌≡◌, ◌⊎◌, ◌==◌, ◌≤◌, List, ℕ, IfOk};
ghost use Rattle.std.specs.Int.{w32, w64};
ghost use Rattle.td_codec.specs.Fields.{Gives, checked, number};
ghost use Rattle.td_manifest.specs.declared.head.Head.{Head as Said};
ghost use Rattle.td_manifest.specs.declared.fault.HeadFault.TheVariants as faults;
ghost use Rattle.td_manifest.specs.Heads.{version_field, moment_field, first_log_field, edge_field, start_field, next_field, objects_field, head_body, mark, head_read, HasBytes, IsHead, Answers};
ghost use Rattle.td_manifest.specs.Parts.{start_parts, object_parts};

use crate::fault::HeadFault;
use crate::files::sets_of;
use crate::head::{Head, HeadSet, HeadStable, HeadStream, HeadTable};
use crate::streams::streams_of;
use crate::tables::{begun, stables_of, tables_of};
use std::alloc::Global;
use td_codec::{ReadFault, u32_of, u64_of};
use td_layer::Seq;
use td_limits::{LAST_DAY_RANGE, LAST_TIMESTAMP, LAST_VERSION};

/// The number of the form that is read and written.
pub(crate) const FORMAT: u32 = 1;

/// What a head says before its objects.
#[derive(Clone, Copy)]
pub(crate) struct HeadStart {
    version: u64,
    moment: u64,
    first_log: u64,
    edge: u32,
}

/// What a head says of supertables, tables, files and streams.
#[derive(Drop)]
pub(crate) struct HeadObjects {
    stables: Seq<HeadStable>,
    tables: Seq<HeadTable>,
    sets: Seq<HeadSet>,
    next_stream: u32,
    streams: Seq<HeadStream>,
}

/// A version.
fn version_of(bytes: &[u8]) -> Result<(u64, &[u8]), ReadFault>
    ensures { Gives (λ x. (x.0, x.1.now)) result (version_field.read bytes.now) }
{
    let (version, rest) = u64_of(bytes)?;
    if version <= LAST_VERSION {
        return Ok((version, rest));
    }
    Err(ReadFault::Broken(bytes.len()))
}

/// The moment of a version.
fn moment_of(version: u64, bytes: &[u8]) -> Result<(u64, &[u8]), ReadFault>
    ensures { Gives (λ x. (x.0, x.1.now)) result ((moment_field version).read bytes.now) }
{
    let (moment, rest) = u64_of(bytes)?;
    if moment <= LAST_TIMESTAMP && begun(version, moment == 0) {
        return Ok((moment, rest));
    }
    Err(ReadFault::Broken(bytes.len()))
}

/// The first log of a head of a version.
fn first_log_of(version: u64, bytes: &[u8]) -> Result<(u64, &[u8]), ReadFault>
    requires { version ≤ LAST_VERSION }
    ensures { Gives (λ x. (x.0, x.1.now)) result ((first_log_field version).read bytes.now) }
{
    let (log, rest) = u64_of(bytes)?;
    if 1 <= log && log <= version + 1 {
        return Ok((log, rest));
    }
    Err(ReadFault::Broken(bytes.len()))
}

/// The retention edge of a head of a version.
fn edge_of(version: u64, bytes: &[u8]) -> Result<(u32, &[u8]), ReadFault>
    ensures { Gives (λ x. (x.0, x.1.now)) result ((edge_field version).read bytes.now) }
{
    let (edge, rest) = u32_of(bytes)?;
    if edge <= LAST_DAY_RANGE && begun(version, edge == 0) {
        return Ok((edge, rest));
    }
    Err(ReadFault::Broken(bytes.len()))
}

/// The number of the next stream, of a head of a version.
fn next_of(version: u64, bytes: &[u8]) -> Result<(u32, &[u8]), ReadFault>
    ensures { Gives (λ x. (x.0, x.1.now)) result ((next_field version).read bytes.now) }
{
    let (next, rest) = u32_of(bytes)?;
    if 1 <= next && begun(version, next == 1) {
        return Ok((next, rest));
    }
    Err(ReadFault::Broken(bytes.len()))
}

/// What a head says before its objects.
#[tactic(auto, unfolding(crate::specs::Heads::start_field))]
fn start_of(bytes: &[u8]) -> Result<(HeadStart, &[u8]), ReadFault>
    ensures { Gives (λ x. (start_parts x.0, x.1.now)) result (start_field.read bytes.now) }
{
    let (version, rest) = version_of(bytes)?;
    let (moment, rest) = moment_of(version, rest)?;
    let (first_log, rest) = first_log_of(version, rest)?;
    let (edge, rest) = edge_of(version, rest)?;
    Ok((
        HeadStart {
            version,
            moment,
            first_log,
            edge,
        },
        rest,
    ))
}

/// The objects of a head of a version.
#[tactic(auto, unfolding(crate::specs::Heads::objects_field))]
fn objects_of(alloc: Global, version: u64, bytes: &[u8]) -> Result<(HeadObjects, &[u8]), ReadFault>
    ensures { Gives (λ x. (object_parts x.0, x.1.now)) result ((objects_field version).read bytes.now) }
{
    let ((stables, names), rest) = stables_of(alloc, version, bytes)?;
    let (tables, rest) = tables_of(alloc, version, stables.as_slice(), names, rest)?;
    let (sets, rest) = sets_of(alloc, version, rest)?;
    let (next_stream, rest) = next_of(version, rest)?;
    let (streams, rest) = streams_of(alloc, version, next_stream, rest)?;
    Ok((
        HeadObjects {
            stables,
            tables,
            sets,
            next_stream,
            streams,
        },
        rest,
    ))
}

/// What a head says.
#[tactic(auto, unfolding(crate::specs::Heads::head_body))]
fn body_of(alloc: Global, bytes: &[u8]) -> Result<(Head, &[u8]), ReadFault>
    ensures { Gives (λ x. (x.0, x.1.now)) result (head_body.read bytes.now) }
{
    let (start, rest) = start_of(bytes)?;
    let (objects, rest) = objects_of(alloc, start.version, rest)?;
    let HeadObjects {
        stables,
        tables,
        sets,
        next_stream,
        streams,
    } = objects;
    Ok((
        Head {
            version: start.version,
            moment: start.moment,
            first_log: start.first_log,
            edge: start.edge,
            stables,
            tables,
            sets,
            next_stream,
            streams,
        },
        rest,
    ))
}

/// What follows a mark.
#[tactic(auto, unfolding(crate::specs::Heads::mark, td_codec::specs::Fields::string_read))]
fn mark_of<'a>(text: &[u8], bytes: &'a [u8]) -> Result<&'a [u8], ReadFault>
    ensures { Gives (λ rest. (tt, rest.now)) result ((mark text.now).read bytes.now) }
{
    if bytes.len() < text.len() {
        return Err(ReadFault::Broken(bytes.len()));
    }
    let (front, rest) = bytes.split_at(text.len());
    if front != text {
        return Err(ReadFault::Broken(bytes.len()));
    }
    Ok(rest)
}

/// The count of all bytes.
fn size_of(size: usize, bytes: &[u8]) -> Result<(u64, &[u8]), ReadFault>
    ensures { Gives (λ x. (x.0, x.1.now)) result ((checked (number w64) (λ n. n == size)).read bytes.now) }
{
    let (own, rest) = u64_of(bytes)?;
    if own == size as u64 {
        return Ok((own, rest));
    }
    Err(ReadFault::Broken(bytes.len()))
}

/// The format.
fn format_of(bytes: &[u8]) -> Result<(u32, &[u8]), ReadFault>
    ensures { Gives (λ x. (x.0, x.1.now)) result ((checked (number w32) (λ n. n == FORMAT)).read bytes.now) }
{
    let (format, rest) = u32_of(bytes)?;
    if format == FORMAT {
        return Ok((format, rest));
    }
    Err(ReadFault::Broken(bytes.len()))
}

/// The head that all these bytes are.
#[tactic(auto, unfolding(crate::specs::Heads::head_read, crate::specs::Heads::frame))]
fn whole(alloc: Global, bytes: &[u8]) -> Result<Head, ReadFault>
    ensures { Gives (λ h. h) result (head_read bytes.now) }
{
    let rest = mark_of(b"TDH1", bytes)?;
    let (_, rest) = size_of(bytes.len(), rest)?;
    let (_, rest) = format_of(rest)?;
    let (head, rest) = body_of(alloc, rest)?;
    let rest = mark_of(b"TDHE", rest)?;
    if !rest.is_empty() {
        return Err(ReadFault::Broken(rest.len()));
    }
    Ok(head)
}

/// The head that bytes are, or the place of their first fault.
fn answer(alloc: Global, bytes: &[u8]) -> Result<Head, HeadFault>
    ensures { Answers bytes.now result }
{
    match whole(alloc, bytes) {
        Ok(head) => Ok(head),
        Err(ReadFault::NoMemory) => Err(HeadFault::NoMemory),
        Err(ReadFault::Broken(left)) => {
            let at = bytes.len().saturating_sub(left) as u64;
            Err(HeadFault::NotThis(at))
        }
    }
}

/// The head that bytes are. `NotThis` comes exactly where they are none, with the place of the first field that is cut
/// short or breaks its rule.
pub fn decode(alloc: Global, bytes: &[u8]) -> Result<Head, HeadFault>
    ensures exact { Answers bytes.now result }
    // The head that was read can be written.
    ensures has_bytes { IfOk result (λ head. HasBytes head) }
    // A head is read, unless memory runs out.
    ensures only { (head : Said) → IsHead bytes.now head → (result ≡ Ok head) ⊎ (result ≡ Err faults.NoMemory) }
{
    answer(alloc, bytes)
}
