//! Standard input and the files of the system, as sources of logs.

ghost use Rattle.std.specs.Prelude.{◌≡◌, IsSome, None};
ghost use Rattle.batched_text.specs.declared.settings.Arrival.{Arrival};

use crate::failing::Reason;
use crate::progress::ProgressStyle;
use crate::watched::Watched;
use batched_text::Arrival;
use command_line::{Opened, Source, Sources};
use std::io::{Eprint, Read};
use std::rt::{Clock, Files};
use std::{fs, io};

/// A log that is read from standard input, or from a file.
#[derive(Drop)]
pub enum SystemLog<I, F> {
    Input(I),
    File(F),
}

impl<I: Read, F: Read> Read for SystemLog<I, F> {
    fn read(&mut self, buf: &mut [u8]) -> io::Result<usize> {
        match self {
            SystemLog::Input(input) => input.read(buf),
            SystemLog::File(file) => file.read(buf),
        }
    }
}

/// Standard input and the files of the system. How much of the log is read is shown in this way, and why it can't be is noted.
pub struct SystemSources<'a, R> {
    rt: &'a R,
    view: Option<ProgressStyle>,
    reason: &'a Reason,
}

impl<'a, R> SystemSources<'a, R> {
    /// All sources of the system.
    pub fn new(rt: &'a R, view: Option<ProgressStyle>, reason: &'a Reason) -> Self {
        SystemSources { rt, view, reason }
    }
}

/// How many bytes the file of a path has, where that is known: of a regular file.
fn size_of<R: Files>(rt: &R, path: &str) -> Option<u64> {
    match fs::metadata(rt, path) {
        Ok(found) if found.is_file() => Some(found.len()),
        _ => None,
    }
}

/// How the bytes of a file arrive of which the size is known, or isn't.
fn arrival_of(size: Option<u64>) -> Arrival
    ensures stored { IsSome size → result ≡ Arrival.Stored }
    ensures live { size ≡ None → result ≡ Arrival.Live }
{
    match size {
        Some(_) => Arrival::Stored,
        None => Arrival::Live,
    }
}

impl<'a, R: Files + Input + Clock + Eprint> Sources for SystemSources<'a, R> {
    type Log = Watched<'a, R, SystemLog<R::Reader, R::File>>;

    // What the system has in its files is said by no clause.
    ghost bytes = { λ _ _. None };

    ghost arrives = { λ _ path arrival. path ≡ None → arrival ≡ Arrival.Live };

    ghost refuses = { λ _ _. Unit {0} };

    fn open(self, source: Source<'_>) -> io::Result<Opened<Self::Log>> {
        let SystemSources { rt, view, reason } = self;
        match source {
            Source::StandardInput => {
                let input = SystemLog::Input(rt.reader());
                let log = Watched::new(input, rt, view, None, reason);
                let arrival = Arrival::Live;
                Ok(Opened { log, arrival })
            }
            Source::File(path) => {
                let file = SystemLog::File(fs::open(rt, path)?);
                let size = size_of(rt, path);
                let log = Watched::new(file, rt, view, size, reason);
                let arrival = arrival_of(size);
                Ok(Opened { log, arrival })
            }
        }
    }
}
