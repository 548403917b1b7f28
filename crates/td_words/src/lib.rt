//! [run] The command line: which words are a command of the program.
//!
//! [`read_command`] gives the command that the words are, or says that they aren't one. So far the only command is
//! `play` and one directory, whose name isn't empty and doesn't begin with `-` ([`is_dir`]). Words of which one begins
//! with `-` are never a command. `clap` is given the rest of their grammar, and its contracts show that the answer is
//! exactly that of the definition, unless memory runs out, which is answered only for words that are a command.
//!
//! The crate stands on `clap`, and on `td_layer` for the error that memory ran out.
#![tactic(auto)]

ghost use Rattle.std.specs.Prelude.{◌≡◌, ◌↔◌, true, None, IfOk, IfErr, map, is_some, option_map, string_bytes};
ghost use Rattle.std.specs.List.{list_any};
ghost use Rattle.clap.specs.Words.{app_of, subcommand_rows_of, kind_of};
ghost use Rattle.td_words.specs.Words.{dir_named, dir_of, is_dashed, is_dir};
ghost use Rattle.td_words.specs.Program.{dir_in, program_app};

use clap::builder::ValueParser;
use clap::error::ErrorKind;
use clap::{Arg, ArgMatches, Error};
use std::alloc::Global;
use td_layer::NoMem;

/// A command of the program.
#[derive(Clone, Copy, Debug, PartialEq, Eq)]
pub enum Command<'a> {
    /// Plays a script on the store of a directory.
    Play { dir: &'a str },
}

/// The command that these words are, or none. Want of memory comes only at words that are a command.
pub fn read_command<'a>(alloc: Global, words: &'a [String]) -> Result<Option<Command<'a>>, NoMem>
    ensures command { IfOk result (λ c. option_map dir_named c ≡ dir_of (map string_bytes words.now)) }
    ensures starved { IfErr result (λ e. is_some (dir_of (map string_bytes words.now)) ≡ true) }
{
    match parsed(alloc, words) {
        Ok(command) => Ok(command),
        Err(NoMem) => starved(words),
    }
}

// What is answered where there was no memory to parse the words: that they are no command is told by their shape, which
// takes no memory.
fn starved<'a>(words: &'a [String]) -> Result<Option<Command<'a>>, NoMem>
    ensures command { IfOk result (λ c. (c ≡ None) × (dir_of (map string_bytes words.now) ≡ None)) }
    ensures starved { IfErr result (λ e. is_some (dir_of (map string_bytes words.now)) ≡ true) }
{
    match words {
        [word, dir] if word.as_bytes() == b"play".as_slice() && is_dir(dir.as_bytes()) => Err(
            NoMem,
        ),
        _ => Ok(None),
    }
}

/// Whether a word can name a directory: it isn't empty and doesn't begin with `-`.
pub fn is_dir(dir: &[u8]) -> bool
    ensures { result ≡ is_dir dir.now }
{
    match dir {
        [] => false,
        [first, ..] => *first != b'-',
    }
}

// The command that these words are by the grammar that is told to `clap`, or none.
fn parsed<'a>(alloc: Global, words: &'a [String]) -> Result<Option<Command<'a>>, NoMem>
    ensures { IfOk result (λ c. option_map dir_named c ≡ dir_of (map string_bytes words.now)) }
{
    if has_dashed(words) {
        return Ok(None);
    }
    let program = program(alloc)?;
    match program.try_get_matches_from(words) {
        Ok(matches) => Ok(command_in(&matches)),
        Err(error) => {
            if is_want_of_memory(&error) {
                Err(NoMem)
            } else {
                Ok(None)
            }
        }
    }
}

// Whether a parse failed for want of memory, and not by its words.
fn is_want_of_memory(error: &Error) -> bool
    ensures { (result ≡ true) ↔ (kind_of error.now ≡ ErrorKind.OutOfMemory) }
{
    error.kind() == ErrorKind::OutOfMemory
}

// Whether a word begins with a dash.
fn has_dashed(words: &[String]) -> bool
    ensures { result ≡ list_any (λ w. is_dashed (string_bytes w)) words.now }
{
    words.iter().any(|word| is_dashed(word.as_bytes()))
}

fn is_dashed(word: &[u8]) -> bool
    ensures { result ≡ is_dashed word.now }
{
    match word {
        [] => false,
        [first, ..] => *first == b'-',
    }
}

// The command line: the subcommand `play` with its directory, and no help.
fn program<'a>(alloc: Global) -> Result<clap::Command<'a>, NoMem>
    ensures { IfOk result (λ c. app_of c ≡ program_app) }
{
    let dir = Arg::new(alloc, "DIR")
        .required(true)
        .value_parser(ValueParser::NonEmptyString);
    let play = clap::Command::new(alloc, "play").arg(dir)?;
    let bare = clap::Command::new(alloc, "td_vnode")
        .no_binary_name(true)
        .disable_help_flag(true)
        .disable_help_subcommand(true)
        .subcommand_required(true);
    let whole = bare.subcommand(play)?;
    Ok(whole)
}

// The command of the matches of a parse.
fn command_in<'a>(matches: &ArgMatches<'a>) -> Option<Command<'a>>
    ensures { option_map dir_named result ≡ dir_in (subcommand_rows_of matches.now) }
{
    let play = matches.subcommand_matches("play")?;
    let dir = play.get_str("DIR")?;
    Some(Command::Play { dir })
}
