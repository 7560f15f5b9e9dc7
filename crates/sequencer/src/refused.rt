//! Why a statement that reads well is not taken into the log.

use std::alloc::{AllocError, AllocFailed};

/// Why a statement is refused. After a refusal the log is as it was.
#[derive(Clone, Copy, Debug, PartialEq, Eq)]
pub enum Refused {
    /// A table that no accepted CREATE before the statement names.
    UnknownTable = 1,
    /// A CREATE of a table that is there.
    TableExists = 2,
    /// A CREATE with no column or more than `MOST_COLUMNS`, or an INSERT whose registers are not as many as its table's columns.
    BadColumns = 3,
    /// An access to the table and row of an earlier one.
    DuplicateAccess = 4,
    /// A LOAD or STORE of a column that its table doesn't have.
    BadColumnNumber = 5,
    /// A SKIP past the last step.
    SkipPastEnd = 6,
    /// The log has `MOST_PLACES` places.
    LogFull = 7,
    /// A name that would be the 65,537th user or table.
    TooManyNames = 8,
    /// A growth was refused. It is returned only for a statement that passes all the other tests.
    NoMemory = 9,
}

impl From<AllocError> for Refused {
    ghost use Rattle.std.specs.Prelude.{◌≡◌};
    ghost use Rattle.sequencer.specs.declared.refused.Refused.TheVariants.{NoMemory};

    ghost from_gives = { λ _ e. e ≡ NoMemory };

    fn from(_e: AllocError) -> Refused {
        Refused::NoMemory
    }
}

impl<T: Drop> From<AllocFailed<T>> for Refused {
    ghost use Rattle.std.specs.Prelude.{◌≡◌};
    ghost use Rattle.sequencer.specs.declared.refused.Refused.TheVariants.{NoMemory};

    ghost from_gives = { λ _ e. e ≡ NoMemory };

    fn from(_e: AllocFailed<T>) -> Refused {
        Refused::NoMemory
    }
}
