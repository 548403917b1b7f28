//! Causes of refusal, each as its name and its fields.
ghost use Rattle.std.specs.Prelude.{◌≡◌, ◌++◌, OnOk, List, ℕ};
ghost use Rattle.std.specs.Fmt.{decimal};
ghost use lib.Chars.{codes};
ghost use Rattle.td_model.specs.Text.{many_text, cause_text};

use td_layer::{Name, NoMem};
use td_lex::decimal;
use td_limits::LAST_VERSION;
use td_model::{Cause, Many};

// Of what there are too many.
fn push_many(out: &mut Name, what: Many) -> Result<(), NoMem>
    ensures { OnOk result (out.new ≡ out.old ++ many_text what) }
{
    match what {
        Many::Columns => out.extend(b"columns"),
        Many::Tags => out.extend(b"tags"),
        Many::Rows => out.extend(b"rows"),
        Many::Tables => out.extend(b"tables"),
        Many::Streams => out.extend(b"streams"),
        Many::Numbers => out.extend(b"numbers"),
        Many::Cursors => out.extend(b"cursors"),
    }
}

// A cause with one number, its name with the space behind it.
#[tactic(auto, using(std::proofs::lemmas::List::append_assoc))]
fn push_with_number(out: &mut Name, name: &[u8], n: u64) -> Result<(), NoMem>
    ensures { OnOk result (out.new ≡ out.old ++ (name.now ++ decimal n)) }
{
    out.extend(name)?;
    decimal(i128::from(n), out)
}

// A cause with a column, its name with the space behind it.
#[tactic(auto, using(std::proofs::lemmas::List::append_assoc))]
fn push_with_column(out: &mut Name, name: &[u8], column: &Name) -> Result<(), NoMem>
    ensures { OnOk result (out.new ≡ out.old ++ (name.now ++ column.now)) }
{
    out.extend(name)?;
    out.extend(column.as_slice())
}

#[tactic(auto, using(std::proofs::lemmas::List::append_assoc))]
fn push_too_many(out: &mut Name, what: Many, limit: u64) -> Result<(), NoMem>
    ensures { OnOk result (out.new ≡ out.old ++ (codes "TooMany " ++ many_text what ++ codes " " ++ decimal limit)) }
{
    out.extend(b"TooMany ")?;
    push_many(out, what)?;
    out.extend(b" ")?;
    decimal(i128::from(limit), out)
}

pub(crate) fn push_cause(out: &mut Name, cause: &Cause) -> Result<(), NoMem>
    ensures { OnOk result (out.new ≡ out.old ++ cause_text cause.now) }
{
    match cause {
        Cause::TooLong => out.extend(b"TooLong"),
        Cause::Syntax { at } => push_with_number(out, b"Syntax ", *at),
        Cause::NameTooLong => out.extend(b"NameTooLong"),
        Cause::TypeNotBuilt => out.extend(b"TypeNotBuilt"),
        Cause::OptionNotBuilt => out.extend(b"OptionNotBuilt"),
        Cause::Stopped { version } => push_with_number(out, b"Stopped ", *version),
        Cause::TooManyVersions => push_with_number(out, b"TooMany versions ", LAST_VERSION),
        Cause::UnknownTable => out.extend(b"UnknownTable"),
        Cause::UnknownStable => out.extend(b"UnknownStable"),
        Cause::UnknownStream => out.extend(b"UnknownStream"),
        Cause::UnknownCursor => out.extend(b"UnknownCursor"),
        Cause::TargetOfStream => out.extend(b"TargetOfStream"),
        Cause::SourceIsTarget => out.extend(b"SourceIsTarget"),
        Cause::NotAStable => out.extend(b"NotAStable"),
        Cause::NotATable => out.extend(b"NotATable"),
        Cause::NeedsTags => out.extend(b"NeedsTags"),
        Cause::NameTaken => out.extend(b"NameTaken"),
        Cause::NeedsTime => out.extend(b"NeedsTime"),
        Cause::UnknownColumn => out.extend(b"UnknownColumn"),
        Cause::Arity => out.extend(b"Arity"),
        Cause::TypeMismatch { column } => push_with_column(out, b"TypeMismatch ", column),
        Cause::OutOfRange { column } => push_with_column(out, b"OutOfRange ", column),
        Cause::TooMany { what, limit } => push_too_many(out, *what, *limit),
        Cause::BadSelect => out.extend(b"BadSelect"),
        Cause::BadWindow => out.extend(b"BadWindow"),
        Cause::BadLimit => out.extend(b"BadLimit"),
        Cause::BeforeEdge { edge } => push_with_number(out, b"BeforeEdge ", u64::from(*edge)),
    }
}
