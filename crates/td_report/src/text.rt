//! The whole text.
ghost use Rattle.std.specs.Prelude.{◌≡◌, IfOk};
ghost use Rattle.td_model.specs.Text.{report_text};

use crate::journal::{push_journal, push_streams};
use crate::replies::push_replies;
use std::alloc::Global;
use td_layer::{NoMem, Seq};
use td_lex::decimal;
use td_model::Report;

/// The text of a report: `base` with the version that it began at, the replies in their order, a line for each live
/// stream, `journal` with the count of its lines, and these. It answers want of memory alone, and leaves the report
/// as it is.
#[tactic(auto, using(std::proofs::lemmas::List::append_assoc))]
pub fn report(alloc: Global, parts: &Report) -> Result<Seq<u8>, NoMem>
    ensures { IfOk result (λ text. text ≡ report_text parts.now) }
{
    let mut out = Seq::new(alloc);
    out.extend(b"base ")?;
    decimal(i128::from(parts.base), &mut out)?;
    out.extend(b"\n")?;
    push_replies(&mut out, parts.replies.as_slice())?;
    push_streams(&mut out, parts.streams.as_slice())?;
    out.extend(b"journal ")?;
    decimal(i128::from(parts.journal.len() as u64), &mut out)?;
    out.extend(b"\n")?;
    push_journal(&mut out, parts.journal.as_slice())?;
    Ok(out)
}
