//! Does what a command asks for with its log, and says how that ended.

ghost use Rattle.std.specs.Prelude.{◌≡◌, ◌≤◌, ◌<◌, ◌-◌, ◌^◌, ℕ, Err, IfErr, IfOk, IfSome, IsSome, OnErr, OnOk, true};
ghost use Rattle.line_io.specs.Known.{raised};
ghost use Rattle.audit_text.specs.Texts.{BeginsText, WritesText};
ghost use Rattle.command_line.specs.Options.{IfGiven};
ghost use Rattle.command_line.specs.Running.{AnswersCommand, DoesCommand, IsOpenFault, IsTaskOf, IsUnopened, CommandLacks, path_in};
ghost use Rattle.command_line.specs.Tasks.{IsLack, TaskIsWithin};
ghost use Rattle.command_line.specs.Words.{IsWithinLimits};

use crate::command_words::{Command, ProgramFault, Source};
use crate::options::{Choice, MOST_AHEAD, is_alone};
use crate::sources::{Opened, Sources};
use crate::work::{Job, Task};
use audit_text::{PlacesAsked, WorkFault};
use batched_text::Arrival;
use line_io::{Counted, EngineFault};
use std::alloc::Global;
use std::io::{Read, Write};
use std::sync::Wait;
use std::thread::Threads;
use std::{io, thread};

/// How many threads read lines ahead where no number is given, at most: no more were measured to pay.
const USUAL_AHEAD: u64 = 3;

/// How many threads read lines ahead where no number is given: one for each processor, up to `USUAL_AHEAD`, and none where there is one
/// alone.
fn usual_ahead<R: Threads>(rt: &R) -> u64
    ensures { result ≤ MOST_AHEAD }
{
    match thread::available_parallelism(rt) {
        Ok(processors) if processors.get() > 1 => (processors.get() as u64).min(USUAL_AHEAD),
        _ => 0,
    }
}

/// How many threads read lines ahead: as many as are given, or the usual number.
fn ahead_by<R: Threads>(rt: &R, choice: Choice) -> u64
    requires { IfGiven choice (λ threads. threads ≤ MOST_AHEAD) }
    ensures given { IfGiven choice (λ threads. result ≡ threads) }
    ensures within { result ≤ MOST_AHEAD }
{
    match choice {
        Choice::Usual => usual_ahead(rt),
        Choice::Given(threads) => threads,
    }
}

/// The task that a command asks for, of a log whose bytes arrive so.
fn task_of<'a, R: Threads>(rt: &R, command: &'a Command<'a>, arrival: Arrival) -> Task<'a>
    requires { IsWithinLimits command.now }
    ensures task { IsTaskOf arrival command.entry.now result }
    ensures within { TaskIsWithin result }
{
    match command {
        Command::Run(_, settings, ahead) if is_alone(settings) => {
            Task::InOrder(ahead_by(rt, *ahead))
        }
        Command::Run(_, settings, _) => Task::InBatches(*settings, arrival),
        Command::Serial(_) => Task::Slow,
        Command::Explain(_, places, is_checked) => Task::Explain(PlacesAsked {
            places: places.as_slice(),
            is_checked: *is_checked,
        }),
        Command::Denials(_, is_checked) => Task::Denials(*is_checked),
        Command::Grants(_, limit) => Task::Picture(*limit),
        Command::Rows(_, which) => Task::List(*which),
        Command::Holders(_, which) => Task::Holders(*which),
        Command::History(_, which) => Task::History(*which),
        Command::Summary(_) => Task::Summary,
    }
}

/// The fault of a source that can't be opened. Its text names the file and the system's reason.
fn open_fault(alloc: Global, source: Source<'_>, error: &io::Error) -> ProgramFault
    ensures { IsUnopened result }
{
    let path = source.name();
    match format!(in alloc; "bohm: cannot open {path}: {error}") {
        Ok(text) => ProgramFault::Open(text),
        Err(_) => ProgramFault::Work(WorkFault::Run(EngineFault::NoMemory)),
    }
}

/// The log of the source that a command names, from its first byte on. An error where its file can't be opened.
fn open_log<L: Sources>(
    alloc: Global,
    sources: L,
    command: &Command<'_>,
) -> Result<Opened<Counted<L::Log>>, ProgramFault>
    ensures bytes { IfOk result (λ opened. L.Log.remaining opened.log.inner ≡ L.bytes sources (path_in command.now)) }
    ensures arrival { IfOk result (λ opened. L.arrives sources (path_in command.now) opened.arrival) }
    ensures refused { OnErr result (L.refuses sources (path_in command.now)) }
    ensures input { OnErr result (IsSome (path_in command.now)) }
    ensures fault { IfErr result IsUnopened }
{
    match sources.open(command.source()) {
        Ok(Opened { log, arrival }) => {
            let log = Counted::new(log);
            Ok(Opened { log, arrival })
        }
        Err(error) => Err(open_fault(alloc, command.source(), &error)),
    }
}

/// Does what a command asks for by a task of `job`: `run` in order on one thread or in batches, as its way is, `serial` by the slow run, and
/// each question by its answer.
///
/// The log is that of the source that the command names, which is opened, and no other: `sources` is used up by that. What is given goes to
/// the writer, which is flushed at the end. Where the file can't be opened nothing is written.
pub fn do_command<'a, J: Job, L: Sources, T: Threads + Wait + Sync, W: Write>(
    rt: &T,
    alloc: Global,
    job: &J,
    command: &'a Command<'a>,
    sources: L,
    told: &mut Counted<W>,
) -> Result<(), ProgramFault>
    requires within { IsWithinLimits command.now }
    ensures does { DoesCommand (J.answers job.now) (L.arrives sources (path_in command.entry.now)) command.entry.now result }

    // What was written is what answers the command about the bytes of the source that it names, and after a fault a beginning of that.
    ensures done { OnOk result (WritesText (AnswersCommand command.entry.now) (L.bytes sources (path_in command.entry.now))
        (W.contents told.old.inner) (W.contents told.new.inner)) }
    ensures begun { BeginsText (AnswersCommand command.entry.now) (L.bytes sources (path_in command.entry.now))
        (W.contents told.old.inner) (W.contents told.new.inner) }
    // NoSuchPlace comes only where the log of the source has that many places and not this one, NoSuchTable and NoSuchUser only where no
    // statement before the place names one of the name, and nothing is written then.
    ensures lacks { (fault : WorkFault) → result ≡ Err (ProgramFault.Work fault) → IsLack fault
        → (told.new ≡ told.old) × IfSome (L.bytes sources (path_in command.entry.now)) (CommandLacks command.entry.now fault) }
    // Ok says that the writer didn't fail, and that it was flushed, once, and not written to since.
    ensures whole { OnOk result (told.new.errors ≡ told.old.errors) }
    ensures flushed { OnOk result ((told.new.flushes ≡ raised told.old.flushes) × (told.new.is_flushed ≡ true)) }
    // Open comes only where the file was refused, and then the writer is as it was. Write comes only where the writer failed.
    ensures unopened { IfErr result (λ fault. IsOpenFault fault → L.refuses sources (path_in command.entry.now) × (told.new ≡ told.old)) }
    ensures write { result ≡ Err (ProgramFault.Work (WorkFault.Run EngineFault.Write)) → told.old.errors < 2 ^ 64 - 1
        → told.old.errors < told.new.errors }
    ensures settings { result ≡ Err (ProgramFault.Work (WorkFault.Run EngineFault.BadSettings)) → ⊥ }
{
    let Opened { mut log, arrival } = match open_log(alloc, sources, command) {
        Ok(opened) => opened,
        Err(fault) => return Err(fault),
    };
    let task = task_of(rt, command, arrival);
    match job.work(rt, alloc, task, &mut log, told) {
        Ok(()) => Ok(()),
        Err(fault) => Err(ProgramFault::Work(fault)),
    }
}
