//! Why a line is no statement.

ghost use Rattle.std.specs.Prelude.{◌≡◌};
ghost use Rattle.line_words.specs.declared.fault.LineFault.TheVariants.{NoMemory};

use std::alloc::{AllocError, AllocFailed};
use thiserror::Error;

/// Why a line is no statement: the first of its faults, its words read from left to right.
#[derive(Clone, Copy, Debug, PartialEq, Eq, Error)]
pub enum LineFault {
    /// More than `MOST_LINE_BYTES`.
    #[error("the line is too long")]
    TooLong = 1,
    /// A byte outside 32 to 126.
    #[error("a byte isn't printable ASCII")]
    NotAscii = 2,
    /// No byte.
    #[error("the line is empty")]
    Empty = 3,
    /// Not one of the fixed words that may come here, no letters of an access, or a word after the end.
    #[error("unknown word")]
    UnknownWord = 4,
    /// Not a number of the form that is wanted here.
    #[error("not a number")]
    BadNumber = 5,
    /// Not a name.
    #[error("not a name")]
    BadName = 6,
    /// A step after `MOST_STEPS`, or an OUT after `MOST_OUTPUTS`.
    #[error("too many steps")]
    TooManySteps = 7,
    /// An access after `MOST_ACCESSES`.
    #[error("too many accesses")]
    TooManyAccesses = 8,
    /// A register of the number `MOST_REGISTERS` or above.
    #[error("no such register")]
    BadRegister = 9,
    /// No fault of the line: memory ran out.
    #[error("out of memory")]
    NoMemory = 10,
    /// A grantee that its deed names before.
    #[error("a grantee twice")]
    DuplicateGrantee = 11,
    /// A grantee of a deed after `MOST_GRANTEES`.
    #[error("too many grantees")]
    TooManyGrantees = 12,
}

impl From<AllocError> for LineFault {
    ghost from_gives = { λ _ e. e ≡ NoMemory };

    fn from(_e: AllocError) -> LineFault {
        LineFault::NoMemory
    }
}

impl<T: Drop> From<AllocFailed<T>> for LineFault {
    ghost from_gives = { λ _ e. e ≡ NoMemory };

    fn from(_e: AllocFailed<T>) -> LineFault {
        LineFault::NoMemory
    }
}
