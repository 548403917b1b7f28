//! What tokens are, and why a text is not a list of them.
use std::alloc::{AllocError, AllocFailed};
use td_layer::Name;

/// A token of the statement language.
#[derive(Debug, Drop)]
pub enum Token {
    /// A word, folded to lower case.
    Word(Name),
    /// A whole number.
    Num(i128),
    /// A duration: how many, of which unit, whose letter is folded to lower case.
    Dur { count: u64, unit: u8 },
    /// The content of a text in quotes: UTF-8, each doubled quote once.
    Str(Name),
    /// One of `( ) , ; * < > =`.
    Sym(u8),
    /// `<=`
    Le,
    /// `>=`
    Ge,
    /// `<>` or `!=`
    Ne,
}

/// A token, and where it stands: from the byte `at` up to the byte before `end`, counted from 0.
#[derive(Debug, Drop)]
pub struct Spanned {
    pub token: Token,
    pub at: u64,
    pub end: u64,
}

/// Why a text is not a list of tokens.
#[derive(Clone, Copy, Debug, PartialEq, Eq)]
pub enum LexFault {
    /// At this byte no token begins that is of its form.
    BadToken(u64),
    /// At this byte a number begins that is outside -2^127 to 2^127-1, or a duration whose count is above 2^63-1.
    TooWide(u64),
    /// There is no memory for the tokens.
    NoMemory,
}

/// Why no token was read at the front of a text.
#[derive(Clone, Copy, Debug, PartialEq, Eq)]
pub(crate) enum Stop {
    NoForm,
    Wide,
    NoMemory,
}

impl From<AllocError> for Stop {
    ghost use Rattle.td_lex.specs.declared.kinds.Stop.TheVariants.{NoMemory};
    ghost use Rattle.std.specs.Prelude.{◌≡◌};

    ghost from_gives = { λ _ e. e ≡ NoMemory };

    fn from(_: AllocError) -> Self {
        Stop::NoMemory
    }
}

impl<T: Drop> From<AllocFailed<T>> for Stop {
    ghost use Rattle.td_lex.specs.declared.kinds.Stop.TheVariants.{NoMemory};
    ghost use Rattle.std.specs.Prelude.{◌≡◌};

    ghost from_gives = { λ _ e. e ≡ NoMemory };

    fn from(_: AllocFailed<T>) -> Self {
        Stop::NoMemory
    }
}
