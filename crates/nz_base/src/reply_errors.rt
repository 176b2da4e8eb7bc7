//! The errors that replies tell, with their numbers and texts.
ghost use Rattle.std.specs.Prelude.{◌≡◌};
ghost use Rattle.nz_spec.specs.outside.Error.{error_number, error_text};
ghost use Rattle.nz_base.specs.Errors.{error_of};

use crate::Memory;
use std::alloc::AllocError;

/// What was wrong with a command, or with what stands outside any.
#[derive(Clone, Copy, Debug, PartialEq, Eq)]
pub enum Error {
    /// A bad or a stray token, or a command that isn't of its form.
    Syntax,
    /// A symbol of a term or of a sort isn't in scope.
    UnknownSymbol,
    /// A count of arguments or a sort doesn't fit.
    Sort,
    /// A product of variables, or a divisor that isn't a constant other than zero.
    NotLinear,
    /// A number is beyond the bounds.
    TooWide,
    /// The command goes beyond a limit.
    Limit,
    /// The last answer has nothing of what is to be shown.
    NothingToShow,
    /// Fewer levels were pushed than are to be popped.
    BelowZero,
    /// A live name or an operator is declared again.
    AlreadyDeclared,
    /// The input ends inside the command.
    Incomplete,
    /// There was no memory: in the place of any other reply.
    OutOfMemory,
}

impl Error {
    /// The number by which a reply tells the error.
    pub fn number(self) -> u8
        ensures number { result ≡ error_number (error_of self) }
    {
        match self {
            Error::Syntax => 1,
            Error::UnknownSymbol => 2,
            Error::Sort => 3,
            Error::NotLinear => 4,
            Error::TooWide => 5,
            Error::Limit => 6,
            Error::NothingToShow => 7,
            Error::BelowZero => 8,
            Error::AlreadyDeclared => 9,
            Error::Incomplete => 10,
            Error::OutOfMemory => 11,
        }
    }

    /// The words that a reply puts behind the number.
    pub fn text(self) -> &'static [u8]
        ensures text { result.now ≡ error_text (error_of self) }
    {
        match self {
            Error::Syntax => b"syntax",
            Error::UnknownSymbol => b"unknown symbol",
            Error::Sort => b"sort",
            Error::NotLinear => b"not linear",
            Error::TooWide => b"number too wide",
            Error::Limit => b"limit",
            Error::NothingToShow => b"no answer to show",
            Error::BelowZero => b"pop below zero",
            Error::AlreadyDeclared => b"already declared",
            Error::Incomplete => b"incomplete command",
            Error::OutOfMemory => b"out of memory",
        }
    }
}

impl From<Memory> for Error {
    ghost use Rattle.nz_base.specs.declared.reply_errors.Error.TheVariants as errors;

    ghost from_gives = { λ _ e. e ≡ errors.OutOfMemory };

    fn from(_memory: Memory) -> Error {
        Error::OutOfMemory
    }
}

impl From<AllocError> for Error {
    ghost use Rattle.nz_base.specs.declared.reply_errors.Error.TheVariants as errors;

    ghost from_gives = { λ _ e. e ≡ errors.OutOfMemory };

    fn from(_error: AllocError) -> Error {
        Error::OutOfMemory
    }
}
