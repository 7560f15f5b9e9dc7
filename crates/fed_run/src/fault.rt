//! Why a run takes no more, or doesn't say what is there.

ghost use Rattle.std.specs.Prelude.{◌≡◌};
ghost use Rattle.fed_run.specs.declared.fault.FeedFault.TheVariants.{NoMemory};
ghost use Rattle.fed_run.specs.declared.fault.AskFault.{AskFault};
ghost use Rattle.fed_run.specs.Faults.{ask_fault_of, ask_fault_text, feed_fault_text};

use audit_text::WorkFault;
use line_io::EngineFault;
use std::alloc::AllocError;
use std::fmt;
use thiserror::Error;

/// Why a call did less than it was asked for.
#[derive(Clone, Copy, Debug, PartialEq, Eq, Error)]
pub enum FeedFault {
    /// A growth was refused. Nothing is lost: the call may be made again.
    NoMemory,
    /// There are as many lines as can be counted.
    Full,
    /// The text was ended before.
    Ended,
}

impl fmt::Display for FeedFault {
    ghost use Rattle.std.specs.Prelude.{Some};

    ghost output = { λ fault. Some (feed_fault_text fault) };

    fn fmt<W: fmt::Write>(&self, f: &mut fmt::Formatter<W>) -> fmt::Result {
        f.write_str(match self {
            FeedFault::NoMemory => "out of memory",
            FeedFault::Full => "too many lines",
            FeedFault::Ended => "the log has ended",
        })
    }
}

impl From<AllocError> for FeedFault {
    ghost from_gives = { λ _ e. e ≡ NoMemory };

    fn from(_e: AllocError) -> FeedFault {
        FeedFault::NoMemory
    }
}

/// Of a run in order, on the calling thread, a call fails where memory runs out, and nowhere else.
impl From<EngineFault> for FeedFault {
    ghost from_gives = { λ _ e. e ≡ NoMemory };

    fn from(_fault: EngineFault) -> FeedFault {
        FeedFault::NoMemory
    }
}

/// Why a run doesn't say what is there.
#[derive(Clone, Copy, Debug, PartialEq, Eq, Error)]
pub enum AskFault {
    /// Out of memory.
    NoMemory,
    /// No reported statement creates the table.
    NoSuchTable,
    /// Lines wait to be run, since a call of `step` or `finish` ended in a fault: make it again first.
    Waiting,
}

impl fmt::Display for AskFault {
    ghost use Rattle.std.specs.Prelude.{Some};

    ghost output = { λ fault. Some (ask_fault_text fault) };

    fn fmt<W: fmt::Write>(&self, f: &mut fmt::Formatter<W>) -> fmt::Result {
        f.write_str(match self {
            AskFault::NoMemory => "out of memory",
            AskFault::NoSuchTable => "no such table",
            AskFault::Waiting => "lines wait to be run",
        })
    }
}

/// Rows and holders of a run are listed in memory: where the table is there, only that may run out.
impl From<WorkFault> for AskFault {
    ghost from_gives = { λ fault e. e ≡ ask_fault_of fault };

    fn from(fault: WorkFault) -> AskFault {
        match fault {
            WorkFault::NoSuchTable => AskFault::NoSuchTable,
            _ => AskFault::NoMemory,
        }
    }
}
