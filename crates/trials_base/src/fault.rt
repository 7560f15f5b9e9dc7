//! Why a trial ends without success.

use engine::EngineFault;
use explain::ExplainFault;
use log_text::LineFault;
use sequencer::Refused;
use std::alloc::AllocError;
use std::io;
use thiserror::Error;

/// What a step of a trial results in.
pub type Attempt<T> = Result<T, TrialFault>;

/// Why a trial ends without success.
#[derive(Clone, Copy, Debug, PartialEq, Eq, Error)]
pub enum TrialFault {
    /// A line is no statement.
    #[error("a line is not taken")]
    Line(#[from] LineFault),
    /// A log doesn't take a statement.
    #[error("a statement is not taken")]
    Statement(#[from] Refused),
    /// A call can't be made here, or fails where memory is ample.
    #[error("a call failed")]
    Call,
    /// The plain book says something else than the book.
    #[error("the plain book differs")]
    Differs,
    /// A growth was refused.
    #[error("out of memory")]
    NoMemory(#[from(alloc)] AllocError),
    /// A growth was refused that isn't a call's own, as by which its arguments are made.
    #[error("out of memory")]
    Beside,
    /// A batch or a run failed.
    #[error(transparent)]
    Run(#[from] EngineFault),
    /// A place isn't explained.
    #[error(transparent)]
    Place(#[from] ExplainFault),
    /// A file can't be opened.
    #[error("cannot open file")]
    Open,
    /// A file is longer than 2^20 bytes.
    #[error("the file is too long")]
    TooLong,
    /// A file isn't text, or not as it has to be.
    #[error("not text")]
    NotText,
    /// The words of the command line or a file can't be read, or what is said can't be printed.
    #[error("cannot read or print")]
    Io,
}

impl TrialFault {
    /// Whether a growth or the start of a thread was refused to a call.
    pub fn is_refusal(self) -> bool {
        match self {
            TrialFault::NoMemory(_) => true,
            TrialFault::Line(fault) => fault == LineFault::NoMemory,
            TrialFault::Statement(fault) => fault == Refused::NoMemory,
            TrialFault::Run(fault) => {
                fault == EngineFault::NoMemory || fault == EngineFault::Spawn
            }
            TrialFault::Place(fault) => fault == ExplainFault::NoMemory,
            _ => false,
        }
    }

    /// Whether a growth or the start of a thread was refused, to a call or beside it.
    pub fn is_of_memory(self) -> bool {
        self == TrialFault::Beside || self.is_refusal()
    }

    /// This fault of what isn't a call's own.
    pub fn beside(self) -> TrialFault {
        if self.is_refusal() {
            TrialFault::Beside
        } else {
            self
        }
    }
}

impl From<io::Error> for TrialFault {
    fn from(error: io::Error) -> TrialFault {
        if error.kind() == io::ErrorKind::OutOfMemory {
            TrialFault::NoMemory(AllocError)
        } else {
            TrialFault::Io
        }
    }
}

/// What is made beside a call.
pub fn beside<T, F>(made: Result<T, F>) -> Attempt<T>
where
    TrialFault: From<F>,
{
    made.map_err(|fault| TrialFault::from(fault).beside())
}
