//! Lines of live streams, and lines of the journal.
ghost use Rattle.std.specs.Prelude.{◌≡◌, ◌++◌, OnOk, List, ℕ};
ghost use Rattle.std.specs.Fmt.{decimal};
ghost use Rattle.std.specs.List.{flat_map};
ghost use lib.Chars.{codes};
ghost use Rattle.td_model.specs.Text.{who_text, mark_text, journal_line, stream_line};

use td_layer::{Name, NoMem};
use td_lex::decimal;
use td_model::{JournalLine, Mark};

#[tactic(auto, using(std::proofs::lemmas::List::append_assoc))]
fn push_stream_line(out: &mut Name, stream: &(Name, u64)) -> Result<(), NoMem>
    ensures { OnOk result (out.new ≡ out.old ++ stream_line stream.now) }
{
    out.extend(b"stream ")?;
    out.extend(stream.0.as_slice())?;
    out.extend(b" upto ")?;
    decimal(i128::from(stream.1), out)?;
    out.extend(b"\n")
}

pub(crate) fn push_streams(out: &mut Name, streams: &[(Name, u64)]) -> Result<(), NoMem>
    ensures { OnOk result (out.new ≡ out.old ++ flat_map stream_line streams.now) }
{
    for stream in streams {
        push_stream_line(out, stream)?;
    }
    Ok(())
}

// Whose entry it is.
#[tactic(auto, using(std::proofs::lemmas::List::append_assoc))]
fn push_who(out: &mut Name, session: u32, ordinal: u32) -> Result<(), NoMem>
    ensures { OnOk result (out.new ≡ out.old ++ who_text session ordinal) }
{
    if session == 0 && ordinal == 0 {
        return out.extend(b"0");
    }
    decimal(i128::from(session), out)?;
    out.extend(b".")?;
    decimal(i128::from(ordinal), out)
}

#[tactic(auto, using(std::proofs::lemmas::List::append_assoc))]
fn push_step(out: &mut Name, stream: &Name, upto: u64, moment: u64) -> Result<(), NoMem>
    ensures { OnOk result (out.new ≡ out.old ++ (codes " step " ++ stream.now ++ codes " " ++ decimal upto ++
        codes " " ++ decimal moment)) }
{
    out.extend(b" step ")?;
    out.extend(stream.as_slice())?;
    out.extend(b" ")?;
    decimal(i128::from(upto), out)?;
    out.extend(b" ")?;
    decimal(i128::from(moment), out)
}

fn push_mark(out: &mut Name, mark: &Mark) -> Result<(), NoMem>
    ensures { OnOk result (out.new ≡ out.old ++ mark_text mark.now) }
{
    match mark {
        Mark::Plain => Ok(()),
        Mark::Step {
            stream,
            upto,
            moment,
        } => push_step(out, stream, *upto, *moment),
        Mark::Halt => out.extend(b" halt"),
    }
}

#[tactic(auto, using(std::proofs::lemmas::List::append_assoc))]
fn push_journal_line(out: &mut Name, line: &JournalLine) -> Result<(), NoMem>
    ensures { OnOk result (out.new ≡ out.old ++ journal_line line.now) }
{
    decimal(i128::from(line.version), out)?;
    out.extend(b" ")?;
    push_who(out, line.session, line.ordinal)?;
    out.extend(b" ")?;
    decimal(i128::from(line.moment), out)?;
    push_mark(out, &line.mark)?;
    out.extend(b"\n")
}

pub(crate) fn push_journal(out: &mut Name, lines: &[JournalLine]) -> Result<(), NoMem>
    ensures { OnOk result (out.new ≡ out.old ++ flat_map journal_line lines.now) }
{
    for line in lines {
        push_journal_line(out, line)?;
    }
    Ok(())
}
