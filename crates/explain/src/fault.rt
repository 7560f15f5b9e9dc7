//! Why there is no explanation.

ghost use Rattle.std.specs.Prelude.{◌≡◌};
ghost use Rattle.explain.specs.declared.fault.ExplainFault.TheVariants.{NoMemory};
ghost use Rattle.explain.specs.Faults.{explain_fault_text};

use std::alloc::AllocError;
use std::fmt;
use thiserror::Error;

/// Why a place isn't explained.
#[derive(Clone, Copy, Debug, PartialEq, Eq, Error)]
pub enum ExplainFault {
    /// The log has no such place.
    NoSuchPlace,
    /// The place isn't finished yet.
    NotFinished,
    /// A growth was refused.
    NoMemory,
    /// The statement of the place was dropped.
    Forgotten,
}

impl fmt::Display for ExplainFault {
    ghost use Rattle.std.specs.Prelude.{Some};

    ghost output = { λ fault. Some (explain_fault_text fault) };

    fn fmt<W: fmt::Write>(&self, f: &mut fmt::Formatter<W>) -> fmt::Result {
        f.write_str(match self {
            ExplainFault::NoSuchPlace => "no such place",
            ExplainFault::NotFinished => "not finished",
            ExplainFault::NoMemory => "out of memory",
            ExplainFault::Forgotten => "forgotten",
        })
    }
}

impl From<AllocError> for ExplainFault {
    ghost from_gives = { λ _ e. e ≡ NoMemory };

    fn from(_e: AllocError) -> ExplainFault {
        ExplainFault::NoMemory
    }
}
