//! Tokens, timestamps and decimal texts.
use std::alloc::Global;
use td_cases::{CaseFault, Out};
use td_layer::Seq;
use td_lex::{LexFault, Spanned, Token, decimal, tokens};
use td_times::timestamp;

/// `tokens TEXT`: each token with its kind, its value and its place, and a bar; or `bad` or `wide` with the place.
pub(crate) fn tokens_of(alloc: Global, text: &[u8]) -> Result<Seq<u8>, CaseFault> {
    let mut out = Out::new(alloc);
    match tokens(alloc, text) {
        Ok(found) => {
            push_tokens(&mut out, found.as_slice());
            drop(found);
        }
        Err(LexFault::BadToken(at)) => push_place(&mut out, b"bad ", at),
        Err(LexFault::TooWide(at)) => push_place(&mut out, b"wide ", at),
        Err(LexFault::NoMemory) => {
            drop(out);
            return Err(CaseFault::NoMemory);
        }
    }
    Ok(out.text()?)
}

fn push_tokens(out: &mut Out, found: &[Spanned]) {
    for spanned in found {
        push_token(out, spanned);
    }
}

fn push_place(out: &mut Out, front: &[u8], at: u64) {
    out.push(front);
    out.number(i128::from(at));
}

fn push_token(out: &mut Out, spanned: &Spanned) {
    match &spanned.token {
        Token::Word(name) => push_bytes(out, b"word ", name.as_slice()),
        Token::Num(n) => out.number(*n),
        Token::Dur { count, unit } => {
            push_place(out, b"dur ", *count);
            out.push(&[*unit]);
        }
        Token::Str(content) => push_bytes(out, b"text ", content.as_slice()),
        Token::Sym(b) => push_bytes(out, b"sym ", &[*b]),
        Token::Le => out.push(b"le"),
        Token::Ge => out.push(b"ge"),
        Token::Ne => out.push(b"ne"),
    }
    push_place(out, b" ", spanned.at);
    push_place(out, b"-", spanned.end);
    out.push(b"|");
}

fn push_bytes(out: &mut Out, front: &[u8], bytes: &[u8]) {
    out.push(front);
    out.push(bytes);
}

/// `time TEXT`: the milliseconds since 1970, or `bad time`.
pub(crate) fn time_of(alloc: Global, text: &[u8]) -> Result<Seq<u8>, CaseFault> {
    let mut out = Out::new(alloc);
    match timestamp(text) {
        Ok(ts) => out.number(i128::from(ts)),
        Err(_) => out.push(b"bad time"),
    }
    Ok(out.text()?)
}

/// `number N`: the decimal text of a number behind an `x`.
pub(crate) fn number_of(alloc: Global, text: &str) -> Result<Seq<u8>, CaseFault> {
    let Ok(n) = text.parse::<i128>() else {
        return Err(CaseFault::Unread);
    };
    let mut out = Seq::of_bytes(alloc, b"x")?;
    decimal(n, &mut out)?;
    Ok(out)
}
