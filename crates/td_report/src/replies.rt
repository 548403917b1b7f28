//! Replies, each behind the session and the ordinal of its statement.
ghost use Rattle.std.specs.Prelude.{◌≡◌, ◌++◌, OnOk, List, ℕ, length};
ghost use Rattle.std.specs.Fmt.{decimal};
ghost use Rattle.std.specs.List.{flat_map};
ghost use lib.Chars.{codes};
ghost use Rattle.td_model.specs.Text.{cause_text, names_text, row_line, reply_text, reply_line};

use crate::causes::push_cause;
use crate::cells::{push_names, push_rows};
use td_layer::{Cell, Name, NoMem, Seq};
use td_lex::decimal;
use td_model::{Cause, Reply};

// Words with the space behind them, a number, and the end of the line.
#[tactic(auto, using(std::proofs::lemmas::List::append_assoc))]
fn push_one(out: &mut Name, words: &[u8], n: u64) -> Result<(), NoMem>
    ensures { OnOk result (out.new ≡ out.old ++ (words.now ++ decimal n ++ codes "\n")) }
{
    out.extend(words)?;
    decimal(i128::from(n), out)?;
    out.extend(b"\n")
}

// Two numbers, each behind its words with their spaces, and the end of the line.
#[tactic(auto, using(std::proofs::lemmas::List::append_assoc))]
fn push_two(out: &mut Name, words: &[u8], n: u64, between: &[u8], m: u64) -> Result<(), NoMem>
    ensures { OnOk result (out.new ≡ out.old ++ (words.now ++ decimal n ++ between.now ++ decimal m ++ codes "\n")) }
{
    out.extend(words)?;
    decimal(i128::from(n), out)?;
    out.extend(between)?;
    decimal(i128::from(m), out)?;
    out.extend(b"\n")
}

#[tactic(auto, using(std::proofs::lemmas::List::append_assoc))]
fn push_answer(
    out: &mut Name,
    prefix: u64,
    header: &[Name],
    rows: &[Seq<Cell>],
) -> Result<(), NoMem>
    ensures { OnOk result (out.new ≡ out.old ++ (codes "answer " ++ decimal prefix ++ codes " rows " ++
        decimal (length rows.now) ++ codes "\n" ++ names_text header.now ++ codes "\n" ++
        flat_map row_line rows.now)) }
{
    push_two(out, b"answer ", prefix, b" rows ", rows.len() as u64)?;
    push_names(out, header)?;
    out.extend(b"\n")?;
    push_rows(out, rows)
}

#[tactic(auto, using(std::proofs::lemmas::List::append_assoc))]
fn push_refused(out: &mut Name, prefix: u64, cause: &Cause) -> Result<(), NoMem>
    ensures { OnOk result (out.new ≡ out.old ++ (codes "refused " ++ decimal prefix ++ codes " " ++
        cause_text cause.now ++ codes "\n")) }
{
    out.extend(b"refused ")?;
    decimal(i128::from(prefix), out)?;
    out.extend(b" ")?;
    push_cause(out, cause)?;
    out.extend(b"\n")
}

fn push_reply(out: &mut Name, reply: &Reply) -> Result<(), NoMem>
    ensures { OnOk result (out.new ≡ out.old ++ reply_text reply.now) }
{
    match reply {
        Reply::Accepted { version } => push_one(out, b"accepted ", *version),
        Reply::AcceptedRows { version, rows } => {
            push_two(out, b"accepted ", *version, b" rows ", u64::from(*rows))
        }
        Reply::AcceptedEdge { version, edge } => {
            push_two(out, b"accepted ", *version, b" edge ", u64::from(*edge))
        }
        Reply::Answer {
            prefix,
            header,
            rows,
        } => push_answer(out, *prefix, header.as_slice(), rows.as_slice()),
        Reply::Opened { prefix } => push_one(out, b"opened ", *prefix),
        Reply::Closed => out.extend(b"closed\n"),
        Reply::Committed { version } => push_one(out, b"committed ", *version),
        Reply::Nothing => out.extend(b"nothing\n"),
        Reply::Stopped { version } => push_one(out, b"stopped ", *version),
        Reply::Merged { count } => push_one(out, b"merged ", u64::from(*count)),
        Reply::Swept { count } => push_one(out, b"swept ", u64::from(*count)),
        Reply::Asked => out.extend(b"asked\n"),
        Reply::Refused { prefix, cause } => push_refused(out, *prefix, cause),
        Reply::StoreFault => out.extend(b"store fault\n"),
        Reply::StoreFaultHalt { halt } => push_one(out, b"store fault halt ", *halt),
        Reply::Damaged { file, at } => push_two(out, b"damaged ", *file, b" ", *at),
        Reply::NoMemory => out.extend(b"no memory\n"),
    }
}

#[tactic(auto, using(std::proofs::lemmas::List::append_assoc))]
fn push_reply_line(out: &mut Name, line: &(u32, u32, Reply)) -> Result<(), NoMem>
    ensures { OnOk result (out.new ≡ out.old ++ reply_line line.now) }
{
    decimal(i128::from(line.0), out)?;
    out.extend(b".")?;
    decimal(i128::from(line.1), out)?;
    out.extend(b" ")?;
    push_reply(out, &line.2)
}

pub(crate) fn push_replies(out: &mut Name, lines: &[(u32, u32, Reply)]) -> Result<(), NoMem>
    ensures { OnOk result (out.new ≡ out.old ++ flat_map reply_line lines.now) }
{
    for line in lines {
        push_reply_line(out, line)?;
    }
    Ok(())
}
