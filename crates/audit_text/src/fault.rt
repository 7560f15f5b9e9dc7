//! Why work on a log failed.

ghost use Rattle.std.specs.Prelude.{◌≡◌};
ghost use Rattle.line_io.specs.declared.fault.EngineFault.{EngineFault};
ghost use Rattle.audit_text.specs.Faults.{extent_text, range_text, work_fault_text};
ghost use Rattle.audit_text.specs.declared.fault.WorkFault.{WorkFault};

use line_io::{EngineFault, WriteFault};
use std::alloc::AllocError;
use std::fmt;
use thiserror::Error;

/// Why work on a log failed.
#[derive(Clone, Copy, Debug, PartialEq, Eq, Error)]
pub enum WorkFault {
    /// Running the log, or writing what is said of it, failed.
    Run(EngineFault),
    /// The log has no such place, but has this many.
    NoSuchPlace(u64),
    /// No accepted statement before the place creates the table.
    NoSuchTable,
    /// No accepted statement names the user.
    NoSuchUser,
}

/// Which places a log has that has this many.
#[derive(Clone, Copy)]
struct Places(u64);

/// And where it ends.
#[derive(Clone, Copy)]
struct Extent(u64);

impl fmt::Display for Places {
    ghost use Rattle.std.specs.Prelude.{Some};

    ghost output = { λ places. Some (range_text places.0) };

    fn fmt<W: fmt::Write>(&self, f: &mut fmt::Formatter<W>) -> fmt::Result {
        match self.0 {
            0 => f.write_str("no places"),
            places => write!(f, "places 0 to {}", places - 1),
        }
    }
}

impl fmt::Display for Extent {
    ghost use Rattle.std.specs.Prelude.{Some};

    ghost output = { λ extent. Some (extent_text extent.0) };

    fn fmt<W: fmt::Write>(&self, f: &mut fmt::Formatter<W>) -> fmt::Result {
        let Extent(end) = self;
        let places = Places(*end);
        write!(f, "{places}, and ends at {end}")
    }
}

impl fmt::Display for WorkFault {
    ghost use Rattle.std.specs.Prelude.{Some};

    ghost output = { λ fault. Some (work_fault_text fault) };

    fn fmt<W: fmt::Write>(&self, f: &mut fmt::Formatter<W>) -> fmt::Result {
        match self {
            WorkFault::Run(fault) => write!(f, "{fault}"),
            WorkFault::NoSuchPlace(places) => {
                let extent = Extent(*places);
                write!(f, "no such place: the log has {extent}")
            }
            WorkFault::NoSuchTable => f.write_str("no such table"),
            WorkFault::NoSuchUser => f.write_str("no such user"),
        }
    }
}

impl From<AllocError> for WorkFault {
    ghost from_gives = { λ _ e. e ≡ WorkFault.Run EngineFault.NoMemory };

    fn from(_e: AllocError) -> WorkFault {
        WorkFault::Run(EngineFault::NoMemory)
    }
}

impl From<EngineFault> for WorkFault {
    ghost from_gives = { λ fault e. e ≡ WorkFault.Run fault };

    fn from(fault: EngineFault) -> WorkFault {
        WorkFault::Run(fault)
    }
}

impl From<WriteFault> for WorkFault {
    ghost from_gives = { λ _ e. e ≡ WorkFault.Run EngineFault.Write };

    fn from(_fault: WriteFault) -> WorkFault {
        WorkFault::Run(EngineFault::Write)
    }
}
