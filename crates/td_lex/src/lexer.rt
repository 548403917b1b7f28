//! A text as a list of tokens.
ghost use Rattle.std.specs.Prelude.{◌≡◌, ◌+◌, length, IfOk};
ghost use Rattle.td_lex.specs.Tokens.{Answers};
ghost use Rattle.td_lex.specs.Laws.{AreSpans, Lexes};

use crate::kinds::{LexFault, Spanned, Stop};
use crate::scan::{past_blanks, token};
use std::alloc::Global;
use td_layer::{NoMem, Seq};

/// The tokens of a text up to its first fault.
#[derive(Drop)]
pub struct Lexed {
    /// All tokens, or those before the fault.
    pub tokens: Vec<Spanned>,
    /// The first fault, if there is one. It is never want of memory.
    pub fault: Option<LexFault>,
}

/// The tokens of a text, which blanks (spaces and tabs) may part, each with where it stands. A text that is no list of
/// tokens has `BadToken` or `TooWide` with the place, in bytes from 0, at which its first token of no form begins, or
/// its first number or duration that is too wide, whichever comes first from the left.
pub fn tokens(alloc: Global, text: &[u8]) -> Result<Seq<Spanned>, LexFault>
    ensures answer { Answers text.now result }
    // Each token's text is the slice of its source, and the spans are in order.
    ensures spans { IfOk result (λ ts. AreSpans text.now 0 ts) }
{
    match tokens_and_fault(alloc, text) {
        Ok(Lexed { tokens, fault }) => match fault {
            None => Ok(Seq::from_vec(alloc, tokens)),
            Some(fault) => Err(fault),
        },
        Err(NoMem) => Err(LexFault::NoMemory),
    }
}

/// The tokens of a text as [`tokens`] gives them, and where the text has a fault, those that stand before the first
/// one, with it.
pub fn tokens_and_fault(alloc: Global, text: &[u8]) -> Result<Lexed, NoMem>
    ensures { IfOk result (λ l. Lexes text.now l.tokens.items l.fault) }
{
    let mut found = Vec::new(alloc);
    let mut rest = past_blanks(text);
    while !rest.is_empty() {
        let at = (text.len() - rest.len()) as u64;
        match token(alloc, rest) {
            Ok((token, after)) => {
                let end = (text.len() - after.len()) as u64;
                found.push(Spanned { token, at, end })?;
                rest = past_blanks(after);
            }
            Err(Stop::NoForm) => return Ok(failed(found, LexFault::BadToken(at))),
            Err(Stop::Wide) => return Ok(failed(found, LexFault::TooWide(at))),
            Err(Stop::NoMemory) => return Err(NoMem),
        }
    }
    Ok(Lexed {
        tokens: found,
        fault: None,
    })
}

// The tokens before a fault.
fn failed(tokens: Vec<Spanned>, fault: LexFault) -> Lexed
    ensures tokens { result.tokens.items ≡ tokens.items }
    ensures fault { result.fault ≡ Some fault }
{
    let fault = Some(fault);
    Lexed { tokens, fault }
}
