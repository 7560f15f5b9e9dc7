//! Why reading, writing or a run ended early.
ghost use Rattle.std.specs.Prelude.{◌≡◌};
ghost use Rattle.line_io.specs.Faults.{engine_fault_text};
ghost use Rattle.line_io.specs.declared.fault.EngineFault.{EngineFault};

use std::alloc::{AllocError, AllocFailed};
use std::fmt;
use thiserror::Error;

/// A write or a flush failed, or a write took no byte.
#[derive(Clone, Copy, Debug, PartialEq, Eq, Error)]
#[error("cannot write")]
pub struct WriteFault;

/// Why a batch wasn't run, or why a run ended before the end of its log.
#[derive(Clone, Copy, Debug, PartialEq, Eq, Error)]
pub enum EngineFault {
    /// A growth was refused.
    NoMemory = 1,
    /// The reader failed.
    Read = 2,
    /// The writer failed, or took no byte of a piece that wasn't empty.
    Write = 3,
    /// A setting is outside its limits, or the range isn't one that can be run next.
    BadSettings = 4,
    /// A worker's thread could not be started.
    Spawn = 5,
}

impl fmt::Display for EngineFault {
    ghost use Rattle.std.specs.Prelude.{Some};

    ghost output = { λ fault. Some (engine_fault_text fault) };

    fn fmt<W: fmt::Write>(&self, f: &mut fmt::Formatter<W>) -> fmt::Result {
        f.write_str(match self {
            EngineFault::NoMemory => "out of memory",
            EngineFault::Read => "cannot read",
            EngineFault::Write => "cannot write",
            EngineFault::BadSettings => "bad settings",
            EngineFault::Spawn => "cannot start a worker",
        })
    }
}

impl From<AllocError> for EngineFault {
    ghost from_gives = { λ _ e. e ≡ EngineFault.NoMemory };

    fn from(_e: AllocError) -> EngineFault {
        EngineFault::NoMemory
    }
}

impl<T: Drop> From<AllocFailed<T>> for EngineFault {
    ghost from_gives = { λ _ e. e ≡ EngineFault.NoMemory };

    fn from(_e: AllocFailed<T>) -> EngineFault {
        EngineFault::NoMemory
    }
}

impl From<WriteFault> for EngineFault {
    ghost from_gives = { λ _ e. e ≡ EngineFault.Write };

    fn from(_fault: WriteFault) -> EngineFault {
        EngineFault::Write
    }
}
