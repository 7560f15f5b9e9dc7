//! Why the program ends early, with the reason that the system gave.

ghost use Rattle.std.specs.Prelude.{◌≡◌, ◌++◌, [], ℕ, IfOk, List, codes, string_bytes, unwrap_or};
ghost use Rattle.command_line.specs.Words.{path_of};
ghost use Rattle.bohm.specs.Failing.{FollowsFault, MayGiveReason};

use audit_text::WorkFault;
use command_line::{ProgramFault, Source};
use line_io::EngineFault;
use std::alloc::{AllocError, Global};
use std::cell::Cell;
use std::io::Write;
use std::{fmt, io};

/// Why the last call of a kind failed, if it did.
pub type Reason = Cell<Option<io::Error>>;

/// Why the last read of the log and the last write of what is told failed, if they did.
#[derive(Drop)]
pub struct Reasons {
    pub read: Reason,
    pub write: Reason,
}

impl Reasons {
    /// None yet.
    pub fn new() -> Reasons {
        Reasons {
            read: Cell::new(None),
            write: Cell::new(None),
        }
    }
}

/// Notes whether a call failed, and why.
pub fn note<T>(reason: &Reason, answer: &io::Result<T>) {
    reason.set(match answer {
        Ok(_) => None,
        Err(error) => Some(*error),
    });
}

/// A writer that notes why the last write failed, if it did.
#[derive(Drop)]
pub struct Noting<'a, W> {
    inner: W,
    reason: &'a Reason,
}

impl<'a, W> Noting<'a, W> {
    /// Notes the reason there.
    pub fn new(inner: W, reason: &'a Reason) -> Self
        ensures { result.inner ≡ inner }
    {
        Noting { inner, reason }
    }
}

impl<W: Write> Write for Noting<'_, W> {
    ghost contents = { λ noting. W.contents noting.inner };

    fn write(&mut self, buf: &[u8]) -> io::Result<usize> {
        let answer = self.inner.write(buf);
        note(self.reason, &answer);
        answer
    }

    fn flush(&mut self) -> io::Result<()> {
        let answer = self.inner.flush();
        note(self.reason, &answer);
        answer
    }
}

/// Why the program ends early.
#[derive(Drop)]
pub struct Failure {
    /// The fault.
    pub fault: ProgramFault,
    /// What is said after the text of the fault.
    pub more: String,
}

/// Some words, and then why a call failed.
fn told_text(alloc: Global, words: &str, why: &str) -> Result<String, AllocError>
    ensures { IfOk result (λ text. string_bytes text ≡ words.now ++ codes ": " ++ why.now) }
{
    format!(in alloc; "{words}: {why}")
}

/// Some words, and then why the last call of a kind failed. Nothing where it didn't, or out of memory.
fn reason_text(alloc: Global, words: &str, reason: &Reason) -> String
    ensures { MayGiveReason words.now (string_bytes result) }
{
    let Some(error) = reason.get() else {
        return String::new(alloc);
    };
    let Ok(why) = format!(in alloc; "{error}") else {
        return String::new(alloc);
    };
    match told_text(alloc, words, why.as_str()) {
        Ok(text) => text,
        Err(_) => String::new(alloc),
    }
}

/// The name of a log, and then why the last read failed. Nothing where it didn't, or out of memory.
fn read_text(alloc: Global, name: &str, reason: &Reason) -> String
    ensures { MayGiveReason (codes " " ++ name.now) (string_bytes result) }
{
    match format!(in alloc; " {name}") {
        Ok(words) => reason_text(alloc, words.as_str(), reason),
        Err(_) => String::new(alloc),
    }
}

/// What is said after a fault of the work on the log of a source.
fn more_of(alloc: Global, fault: &ProgramFault, source: Source<'_>, reasons: &Reasons) -> String
    ensures { FollowsFault fault.now (unwrap_or (path_of source.entry) (codes "-")) (string_bytes result) }
{
    match fault {
        ProgramFault::Work(WorkFault::Run(EngineFault::Read)) => {
            read_text(alloc, source.name(), &reasons.read)
        }
        ProgramFault::Work(WorkFault::Run(EngineFault::Write)) => {
            reason_text(alloc, "", &reasons.write)
        }
        ProgramFault::Work(
            WorkFault::Run(EngineFault::NoMemory | EngineFault::BadSettings | EngineFault::Spawn),
        ) => String::new(alloc),
        ProgramFault::Work(
            WorkFault::NoSuchPlace(_) | WorkFault::NoSuchTable | WorkFault::NoSuchUser,
        ) => String::new(alloc),
        ProgramFault::Usage(_) | ProgramFault::Open(_) => String::new(alloc),
    }
}

impl Failure {
    /// A fault after which nothing is said.
    pub fn plain(alloc: Global, fault: ProgramFault) -> Failure
        ensures fault { result.fault ≡ fault }
        ensures more { string_bytes result.more ≡ [] }
    {
        Failure {
            fault,
            more: String::new(alloc),
        }
    }

    /// A fault of the work on the log of a source, with the reason of the read or the write that failed.
    pub fn of(alloc: Global, fault: ProgramFault, source: Source<'_>, reasons: &Reasons) -> Failure
        ensures fault { result.fault ≡ fault }
        ensures more { FollowsFault fault (unwrap_or (path_of source.entry) (codes "-")) (string_bytes result.more) }
    {
        let more = more_of(alloc, &fault, source, reasons);
        Failure { fault, more }
    }
}

impl fmt::Display for Failure {
    ghost use Rattle.std.specs.Prelude.{Some};
    ghost use Rattle.command_line.specs.Words.{message_of};

    ghost output = { λ failure. Some (message_of failure.fault ++ string_bytes failure.more) };

    fn fmt<W: fmt::Write>(&self, f: &mut fmt::Formatter<W>) -> fmt::Result {
        let Failure { fault, more } = self;
        write!(f, "{fault}{more}")
    }
}
