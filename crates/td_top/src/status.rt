//! How the program ends: the statuses, their exit numbers and their lines.
ghost use Rattle.std.specs.Prelude.{◌≡◌, Some};
ghost use Rattle.td_top.specs.Exit.{exit_number, status_words, status_text};
ghost use Rattle.td_top.specs.Status.{script_status, read_status, open_status, enter_status};
ghost use Rattle.td_top.specs.declared.status.Status.TheVariants as status;

use crate::stream::ReadFault;
use std::fmt;
use td_core::{FileId, OpenCause};
use td_layer::NoMem;
use td_outside::IoFault;
use td_script::ScriptFault;

/// How the program ends.
#[derive(Clone, Copy)]
pub enum Status {
    /// The report was written.
    Done,
    /// There was no memory. Nothing was written.
    NoMemory,
    /// The words aren't a command. Nothing was read or written.
    Usage,
    /// The line, from 1, is the first that no script has. Nothing was written.
    BadScript(u64),
    /// More than 67108864 bytes stand before the input's end. Nothing was written.
    TooLarge,
    /// A read failed. Nothing was written.
    InputFault,
    /// A write failed. What was written is a front of the report.
    OutputFault,
    /// The directory couldn't be entered or the store not opened, and nothing was written; or the directory failed as
    /// it was left, and the report was written.
    StoreFault,
    /// The store breaks the form of a store first in this file, at this place in bytes from 0. Nothing was written or
    /// changed.
    NotThisStore { file: FileId, at: u64 },
}

impl Status {
    /// The number that the program ends with.
    pub fn exit_number(self) -> u8
        ensures { result ≡ exit_number self }
    {
        match self {
            Status::Done => 0,
            Status::NoMemory => 1,
            Status::Usage => 2,
            Status::BadScript(_) => 3,
            Status::TooLarge => 4,
            Status::InputFault => 5,
            Status::OutputFault => 6,
            Status::StoreFault => 7,
            Status::NotThisStore { .. } => 8,
        }
    }

    // The words of the line on standard error, before its number or its place; none for `Done`.
    pub(crate) fn words(self) -> &'static str
        ensures { result.now ≡ status_words self }
    {
        match self {
            Status::Done => "",
            Status::NoMemory => "no memory",
            Status::Usage => "usage: td_vnode play DIR, run DIR, gen N DIR",
            Status::BadScript(_) => "bad script: line ",
            Status::TooLarge => "script too large",
            Status::InputFault => "input fault",
            Status::OutputFault => "output fault",
            Status::StoreFault => "store fault",
            Status::NotThisStore { .. } => "not this store: ",
        }
    }
}

/// The text of the line on standard error, which is empty for `Done`.
impl fmt::Display for Status {
    ghost output = { λ s. Some (status_text s) };

    fn fmt<W: fmt::Write>(&self, f: &mut fmt::Formatter<W>) -> fmt::Result {
        f.write_str(self.words())?;
        match *self {
            Status::BadScript(line) => write!(f, "{line}"),
            Status::NotThisStore { file, at } => match file {
                FileId::Head => write!(f, "head at {at}"),
                FileId::Log(number) => write!(f, "log {number} at {at}"),
                FileId::File(number) => write!(f, "file {number} at {at}"),
            },
            _ => Ok(()),
        }
    }
}

impl From<NoMem> for Status {
    ghost from_gives = { λ _ s. s ≡ status.NoMemory };

    fn from(_error: NoMem) -> Status {
        Status::NoMemory
    }
}

impl From<ScriptFault> for Status {
    ghost from_gives = { λ fault s. s ≡ script_status fault };

    fn from(fault: ScriptFault) -> Status {
        match fault {
            ScriptFault::NoMemory => Status::NoMemory,
            ScriptFault::BadScript(line) => Status::BadScript(line),
        }
    }
}

impl From<ReadFault> for Status {
    ghost from_gives = { λ fault s. s ≡ read_status fault };

    fn from(fault: ReadFault) -> Status {
        match fault {
            ReadFault::NoMemory => Status::NoMemory,
            ReadFault::TooLarge => Status::TooLarge,
            ReadFault::Input => Status::InputFault,
        }
    }
}

impl From<IoFault> for Status {
    ghost from_gives = { λ fault s. s ≡ enter_status fault };

    fn from(fault: IoFault) -> Status {
        match fault {
            IoFault::Failed => Status::StoreFault,
            IoFault::NoMemory => Status::NoMemory,
        }
    }
}

impl From<OpenCause> for Status {
    ghost from_gives = { λ cause s. s ≡ open_status cause };

    fn from(cause: OpenCause) -> Status {
        match cause {
            OpenCause::StoreFault => Status::StoreFault,
            OpenCause::NotThisStore { file, at } => Status::NotThisStore { file, at },
            OpenCause::NoMemory => Status::NoMemory,
        }
    }
}
