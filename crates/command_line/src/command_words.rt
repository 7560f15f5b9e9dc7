//! The words of the command line, and how a run of the program ends.

ghost use Rattle.std.specs.Prelude.{◌≡◌, ◌⊎◌, [], IfOk, IfErr, IfSome, OnOk, Some, codes, unwrap_or};
ghost use Rattle.std.specs.Option.{option_map};
ghost use Rattle.clap.specs.Words.{fault_of, found_of, kind_of, rows_of, subcommand_of, subcommand_rows_of};
ghost use Rattle.command_line.specs.Shapes.{bohm_app, texts_of};
ghost use Rattle.command_line.specs.Words.{Asks, IsMisuse, IsWithinLimits, TellsError, TellsOneOf, asked, asked_by, explained_by, is_summarized, message_of, path_named, path_of, progress_in, status_of, stream_of, verb_named};

use crate::asking::{history_asked, holders_asked};
use crate::options::{
    Choice, Limit, MOST_PLACE, Progress, RowsAsked, has_flag, limit_of, progress_of, rows_asked,
    way_of,
};
use crate::places::places_of;
use crate::subcommands::program;
use audit_text::WorkFault;
use batched_text::Settings;
use clap::error::ErrorKind;
use clap::{ArgMatches, Error};
use model_base::Place;
use privileges_text::{HistoryAsked, HoldersAsked};
use std::alloc::{AllocError, Global};
use std::fmt;

/// Where a log is read from.
#[derive(Clone, Copy)]
pub enum Source<'a> {
    StandardInput,
    /// The file of this path.
    File(&'a str),
}

impl<'a> Source<'a> {
    /// What it is called in a message: the path of its file, and `-` of standard input.
    pub fn name(self) -> &'a str
        ensures { result.now ≡ unwrap_or (path_of self.entry) (codes "-") }
    {
        match self {
            Source::StandardInput => "-",
            Source::File(path) => path,
        }
    }
}

/// What the program is asked to do.
#[derive(Drop)]
pub enum Command<'a> {
    /// Execute a log by these settings and write its report: in order where they are one worker and one partition, while this many threads
    /// read lines ahead, and otherwise in batches.
    Run(Source<'a>, Settings, Choice),
    /// Execute a log by the slow serial run, and write its report.
    Serial(Source<'a>),
    /// Explain why the statements of these places were admitted or denied, and check that where it is asked for.
    Explain(Source<'a>, Vec<Place>, bool),
    /// Explain so each denied place, and check that where it is asked for.
    Denials(Source<'a>, bool),
    /// Write the grants in force before a place of a log, or at its end.
    Grants(Source<'a>, Limit),
    /// Write the rows that are there before a place of a log, or at its end.
    Rows(Source<'a>, RowsAsked<'a>),
    /// Write who holds a privilege before a place of a log, or at its end.
    Holders(Source<'a>, HoldersAsked<'a>),
    /// Write when a user held a privilege.
    History(Source<'a>, HistoryAsked<'a>),
    /// Execute a log, and write how many lines of its report say what.
    Summary(Source<'a>),
}

impl<'a> Command<'a> {
    ghost use Rattle.command_line.specs.Running.{path_in};

    /// The source of the log.
    pub fn source(&self) -> Source<'a>
        ensures { path_of result ≡ path_in self.now }
    {
        match self {
            Command::Run(source, _, _)
            | Command::Serial(source)
            | Command::Explain(source, _, _)
            | Command::Denials(source, _)
            | Command::Grants(source, _)
            | Command::Rows(source, _)
            | Command::Holders(source, _)
            | Command::History(source, _)
            | Command::Summary(source) => *source,
        }
    }
}

/// What the words of the command line ask for.
#[derive(Drop)]
pub struct Request<'a> {
    /// What is done.
    pub command: Command<'a>,
    /// Whether progress is shown meanwhile.
    pub progress: Progress,
    /// Whether the lines of what is written are counted by their words.
    pub is_summarized: bool,
}

/// The subcommands.
#[derive(Clone, Copy)]
pub enum Verb {
    Run,
    Serial,
    Explain,
    Grants,
    Rows,
    Holders,
    History,
    Summary,
}

/// Why the words are no command, with the text to print.
#[derive(Drop)]
pub enum Usage {
    /// The words are wrong.
    Fault(String),
    /// The words ask for help, or for the version.
    Help(String),
    /// A word isn't text.
    NotUtf8,
    /// The words of this subcommand don't go together, or one isn't what it has to be.
    Misused(Verb),
    /// A growth was refused.
    NoMemory,
}

/// Why the program ends before its work is done.
#[derive(Drop)]
pub enum ProgramFault {
    /// The words can't be had, or are no command.
    Usage(Usage),
    /// The file can't be opened, with the text to print.
    Open(String),
    /// The work on the log failed.
    Work(WorkFault),
}

/// Where a text goes.
#[derive(Clone, Copy)]
pub enum Stream {
    /// To standard output.
    Output,
    /// To standard error.
    Error,
}

/// What the words of a subcommand have to be, where they weren't.
#[derive(Clone, Copy)]
struct Misuse(Verb);

impl fmt::Display for Misuse {
    ghost use Rattle.std.specs.Prelude.{Some};
    ghost use Rattle.command_line.specs.Words.{misuse_text};

    ghost output = { λ misuse. Some (misuse_text misuse.0) };

    fn fmt<W: fmt::Write>(&self, f: &mut fmt::Formatter<W>) -> fmt::Result {
        f.write_str(match self.0 {
            Verb::Run | Verb::Serial | Verb::Summary => "bad settings",
            Verb::Explain => "explain has one PLACE or more, or --denied",
            Verb::Grants => "PLACE is 0 to 4294967294",
            Verb::Rows => "a word that begins with a digit is PLACE, 0 to 4294967295",
            Verb::Holders => "KIND is READ, INSERT, UPDATE or DELETE",
            Verb::History => "KIND is READ, INSERT, UPDATE or DELETE, and the last word OPTION",
        })
    }
}

impl fmt::Display for ProgramFault {
    ghost use Rattle.std.specs.Prelude.{Some};

    ghost output = { λ fault. Some (message_of fault) };

    fn fmt<W: fmt::Write>(&self, f: &mut fmt::Formatter<W>) -> fmt::Result {
        match self {
            ProgramFault::Usage(Usage::Fault(text)) => f.write_str(text.as_str().trim_end()),
            ProgramFault::Usage(Usage::Help(text)) => f.write_str(text.as_str().trim_end()),
            ProgramFault::Usage(Usage::NotUtf8) => {
                f.write_str("bohm: an argument isn't valid UTF-8")
            }
            ProgramFault::Usage(Usage::Misused(verb)) => {
                let misuse = Misuse(*verb);
                write!(f, "bohm: {misuse}")
            }
            ProgramFault::Usage(Usage::NoMemory) => f.write_str("bohm: out of memory"),
            ProgramFault::Open(text) => f.write_str(text.as_str()),
            ProgramFault::Work(fault) => write!(f, "bohm: {fault}"),
        }
    }
}

/// The usage fault, or the help, that the words result in.
fn usage_of(alloc: Global, error: &Error) -> Usage
    ensures memory { kind_of error.now ≡ ErrorKind.OutOfMemory → result ≡ Usage.NoMemory }
    ensures told { TellsError result (kind_of error.now) }
{
    if error.kind() == ErrorKind::OutOfMemory {
        return Usage::NoMemory;
    }
    match format!(in alloc; "{error}") {
        Ok(text) if error.use_stderr() => Usage::Fault(text),
        Ok(text) => Usage::Help(text),
        Err(_) => Usage::NoMemory,
    }
}

/// The subcommand of a name.
fn verb_of(name: &str) -> Verb
    ensures { result ≡ verb_named name.now }
{
    match name {
        "serial" => Verb::Serial,
        "explain" => Verb::Explain,
        "grants" => Verb::Grants,
        "rows" => Verb::Rows,
        "holders" => Verb::Holders,
        "history" => Verb::History,
        "summary" => Verb::Summary,
        _ => Verb::Run,
    }
}

/// Where a log is read from by the word for its file: without one, and by `-`, from standard input.
fn source_of<'a>(file: Option<&'a str>) -> Source<'a>
    ensures { path_of result ≡ path_named (option_map (λ path. path.now) file.entry) }
{
    match file {
        None | Some("-") => Source::StandardInput,
        Some(path) => Source::File(path),
    }
}

/// The command that explains the denied places, where it is asked for.
fn denials_if<'a>(source: Source<'a>, is_denied: bool, is_checked: bool) -> Option<Command<'a>>
    ensures asks { option_map asked result ≡ explained_by (path_of source.entry) is_checked is_denied (Some []) }
    ensures within { IfSome result IsWithinLimits }
{
    if is_denied {
        return Some(Command::Denials(source, is_checked));
    }
    None
}

/// The command of `explain` over the log of a source, if its words name one place or more, or ask for those that were denied, and not both.
fn explain_command<'a>(
    alloc: Global,
    source: Source<'a>,
    found: &ArgMatches<'a>,
) -> Result<Option<Command<'a>>, AllocError>
    ensures asks { IfOk result (λ told. option_map asked told
        ≡ asked_by Verb.Explain (path_of source.entry) (rows_of (found_of found.now))) }
    ensures within { IfOk result (λ told. IfSome told IsWithinLimits) }
{
    let is_checked = has_flag(found, "check");
    let is_denied = has_flag(found, "denied");
    let Some(places) = places_of(alloc, found)? else {
        return Ok(None);
    };
    if places.is_empty() {
        return Ok(denials_if(source, is_denied, is_checked));
    }
    if is_denied {
        return Ok(None);
    }
    Ok(Some(Command::Explain(source, places, is_checked)))
}

/// The command of a subcommand over the log of a source, if its words go together. An error means out of memory.
fn command_of<'a>(
    alloc: Global,
    verb: Verb,
    source: Source<'a>,
    found: &ArgMatches<'a>,
) -> Result<Option<Command<'a>>, AllocError>
    ensures asks { IfOk result (λ told. option_map asked told ≡ asked_by verb (path_of source.entry) (rows_of (found_of found.now))) }
    ensures within { IfOk result (λ told. IfSome told IsWithinLimits) }
{
    match verb {
        Verb::Run => match way_of(found) {
            Some(way) => Ok(Some(Command::Run(source, way.settings, way.ahead))),
            None => Ok(None),
        },
        Verb::Serial => Ok(Some(Command::Serial(source))),
        Verb::Explain => explain_command(alloc, source, found),
        Verb::Grants => match limit_of(found, MOST_PLACE) {
            Some(limit) => Ok(Some(Command::Grants(source, limit))),
            None => Ok(None),
        },
        Verb::Rows => match rows_asked(found) {
            Some(which) => Ok(Some(Command::Rows(source, which))),
            None => Ok(None),
        },
        Verb::Holders => match holders_asked(found) {
            Some(which) => Ok(Some(Command::Holders(source, which))),
            None => Ok(None),
        },
        Verb::History => match history_asked(found) {
            Some(which) => Ok(Some(Command::History(source, which))),
            None => Ok(None),
        },
        Verb::Summary => Ok(Some(Command::Summary(source))),
    }
}

/// The command of the subcommand that was entered. An error where its words don't go together, or out of memory.
fn command_in<'a>(alloc: Global, matches: &ArgMatches<'a>) -> Result<Command<'a>, Usage>
    ensures asks { IfOk result (λ command. Asks command (subcommand_rows_of matches.now)) }
    ensures within { IfOk result IsWithinLimits }
    ensures misused { IfErr result (λ usage. (usage ≡ Usage.NoMemory) ⊎ IsMisuse usage (subcommand_rows_of matches.now)) }
{
    let Some((name, found)) = matches.subcommand() else {
        return Err(Usage::Misused(Verb::Run));
    };
    let file = found.get_str("FILE");
    let verb = verb_of(name);
    let source = source_of(file);
    match command_of(alloc, verb, source, found) {
        Ok(Some(command)) => Ok(command),
        Ok(None) => Err(Usage::Misused(verb)),
        Err(_) => Err(Usage::NoMemory),
    }
}

/// Whether progress is shown, by the flags of the subcommand that was entered.
fn progress_in(matches: &ArgMatches<'_>) -> Progress
    ensures { result ≡ progress_in (subcommand_rows_of matches.now) }
{
    let Some((_name, found)) = matches.subcommand() else {
        return Progress::Usual;
    };
    progress_of(found)
}

/// Whether lines are counted, by the flag of the subcommand that was entered.
fn is_summarized(matches: &ArgMatches<'_>) -> bool
    ensures { result ≡ is_summarized (subcommand_rows_of matches.now) }
{
    let Some((_name, found)) = matches.subcommand() else {
        return false;
    };
    has_flag(found, "summary")
}

/// Reads the words of the command line, the program's name first, as `clap` judges them.
pub fn read_words<'a>(alloc: Global, words: &'a [&'a str]) -> Result<Request<'a>, Usage>
    ensures taken { OnOk result (fault_of bohm_app (texts_of words.entry.now) ≡ []) }
    ensures asked { IfOk result (λ request. Asks request.command (subcommand_of bohm_app (texts_of words.entry.now))) }
    ensures progress { IfOk result (λ request. request.progress ≡ progress_in (subcommand_of bohm_app (texts_of words.entry.now))) }
    ensures summarized { IfOk result (λ request. request.is_summarized
        ≡ is_summarized (subcommand_of bohm_app (texts_of words.entry.now))) }
    ensures within { IfOk result (λ request. IsWithinLimits request.command) }
    ensures fault { IfErr result (λ usage. fault_of bohm_app (texts_of words.entry.now) ≡ []
        → (usage ≡ Usage.NoMemory) ⊎ IsMisuse usage (subcommand_of bohm_app (texts_of words.entry.now))) }
    ensures told { IfErr result (λ usage. IsMisuse usage (subcommand_of bohm_app (texts_of words.entry.now))
        ⊎ TellsOneOf (fault_of bohm_app (texts_of words.entry.now)) usage) }
{
    let program = match program(alloc) {
        Ok(program) => program,
        Err(_) => return Err(Usage::NoMemory),
    };
    let matches = match program.try_get_matches_from(words) {
        Ok(matches) => matches,
        Err(error) => return Err(usage_of(alloc, &error)),
    };
    match command_in(alloc, &matches) {
        Ok(command) => Ok(Request {
            command,
            progress: progress_in(&matches),
            is_summarized: is_summarized(&matches),
        }),
        Err(usage) => Err(usage),
    }
}

/// The exit status of a fault, and where its text goes.
pub fn ending(fault: &ProgramFault) -> (u8, Stream)
    ensures status { result.0 ≡ status_of fault.now }
    ensures stream { result.1 ≡ stream_of fault.now }
{
    match fault {
        ProgramFault::Usage(Usage::Fault(_)) => (2, Stream::Error),
        ProgramFault::Usage(Usage::NotUtf8) => (2, Stream::Error),
        ProgramFault::Usage(Usage::Help(_)) => (0, Stream::Output),
        ProgramFault::Usage(Usage::Misused(Verb::Run | Verb::Serial | Verb::Summary)) => {
            (1, Stream::Error)
        }
        ProgramFault::Usage(Usage::Misused(_)) => (2, Stream::Error),
        ProgramFault::Usage(Usage::NoMemory) => (1, Stream::Error),
        ProgramFault::Open(_) | ProgramFault::Work(_) => (1, Stream::Error),
    }
}
