//! Streams.
ghost use Rattle.std.specs.Prelude.{◌≡◌, ◌∷◌, ◌++◌, List};
ghost use Rattle.td_codec.specs.Fields.{Gives};
ghost use Rattle.td_manifest.specs.Heads.{streams_field};
ghost use Rattle.td_manifest.specs.Streams.{statement_text, comes_next, number_field, made_field, upto_field, step_moment, stream_items};

use crate::head::HeadStream;
use crate::lists::{ItemReader, items_of};
use crate::tables::begun;
use std::alloc::Global;
use td_codec::{ReadFault, u32_of, u64_of, win_rows_of};
use td_layer::{Name, Seq};
use td_limits::{LAST_TIMESTAMP, STREAMS};

/// A length of 32 bits, and so many bytes.
#[tactic(auto, unfolding(crate::specs::Streams::statement_text, td_codec::specs::Fields::string_read))]
fn statement_of(alloc: Global, bytes: &[u8]) -> Result<(Name, &[u8]), ReadFault>
    ensures { Gives (λ x. (x.0, x.1.now)) result (statement_text.read bytes.now) }
{
    let (size, rest) = u32_of(bytes)?;
    let size = size as usize;
    if rest.len() < size {
        return Err(ReadFault::Broken(rest.len()));
    }
    let (front, rest) = rest.split_at(size);
    let text = Seq::of_bytes(alloc, front)?;
    Ok((text, rest))
}

/// Whether a number comes after those of these streams.
fn comes_next(before: &[HeadStream], number: u32) -> bool
    ensures { result ≡ comes_next before.now number }
{
    match before.last() {
        None => true,
        Some(last) => last.number < number,
    }
}

/// The number of a stream, below the next one and behind those of these streams.
fn number_of<'a>(
    next: u32,
    before: &[HeadStream],
    bytes: &'a [u8],
) -> Result<(u32, &'a [u8]), ReadFault>
    ensures { Gives (λ x. (x.0, x.1.now)) result ((number_field next before.now).read bytes.now) }
{
    let (number, rest) = u32_of(bytes)?;
    if 1 <= number && number < next && comes_next(before, number) {
        return Ok((number, rest));
    }
    Err(ReadFault::Broken(bytes.len()))
}

/// The version that made a stream of a head of this version.
fn made_of(version: u64, bytes: &[u8]) -> Result<(u64, &[u8]), ReadFault>
    ensures { Gives (λ x. (x.0, x.1.now)) result ((made_field version).read bytes.now) }
{
    let (made, rest) = u64_of(bytes)?;
    if 1 <= made && made <= version {
        return Ok((made, rest));
    }
    Err(ReadFault::Broken(bytes.len()))
}

/// The version up to which the result goes, of a stream that this version made.
fn upto_of(version: u64, made: u64, bytes: &[u8]) -> Result<(u64, &[u8]), ReadFault>
    ensures { Gives (λ x. (x.0, x.1.now)) result ((upto_field version made).read bytes.now) }
{
    let (upto, rest) = u64_of(bytes)?;
    if made.saturating_sub(1) <= upto && upto < version {
        return Ok((upto, rest));
    }
    Err(ReadFault::Broken(bytes.len()))
}

/// The moment of a stream's last step.
fn step_moment_of(bytes: &[u8]) -> Result<(u64, &[u8]), ReadFault>
    ensures { Gives (λ x. (x.0, x.1.now)) result (step_moment.read bytes.now) }
{
    let (moment, rest) = u64_of(bytes)?;
    if moment <= LAST_TIMESTAMP {
        return Ok((moment, rest));
    }
    Err(ReadFault::Broken(bytes.len()))
}

/// Reads streams of a head of a version and next number, in the order of their numbers.
#[derive(Drop)]
struct Streams {
    version: u64,
    next: u32,
}

#[tactic(auto, unfolding(crate::specs::Streams::stream_items, crate::specs::Streams::stream_behind))]
impl ItemReader for Streams {
    type Item = HeadStream;

    ghost items = { λ r. stream_items r.version r.next };

    ghost knows = { λ _ _. Unit {0} };

    fn item_of<'a>(
        &mut self,
        alloc: Global,
        before: &[HeadStream],
        bytes: &'a [u8],
    ) -> Result<(HeadStream, &'a [u8]), ReadFault> {
        let (number, rest) = number_of(self.next, before, bytes)?;
        let (made, rest) = made_of(self.version, rest)?;
        let (text, rest) = statement_of(alloc, rest)?;
        let (upto, rest) = upto_of(self.version, made, rest)?;
        let (moment, rest) = step_moment_of(rest)?;
        let (rows, rest) = win_rows_of(alloc, rest)?;
        Ok((
            HeadStream {
                number,
                made,
                text,
                upto,
                moment,
                rows,
            },
            rest,
        ))
    }
}

/// The streams of a head of this version and next number.
#[tactic(auto, unfolding(crate::specs::Heads::streams_field))]
pub(crate) fn streams_of(
    alloc: Global,
    version: u64,
    next: u32,
    bytes: &[u8],
) -> Result<(Seq<HeadStream>, &[u8]), ReadFault>
    ensures { Gives (λ x. (x.0, x.1.now)) result ((streams_field version next).read bytes.now) }
{
    let (count, rest) = u32_of(bytes)?;
    if !(count as usize <= STREAMS && begun(version, count == 0)) {
        return Err(ReadFault::Broken(bytes.len()));
    }
    let (streams, rest) = items_of(alloc, &mut Streams { version, next }, count, rest)?;
    Ok((streams, rest))
}
