//! What the program does with a log.

ghost use Rattle.std.specs.Prelude.{◌≡◌, Err, IfErr, IfSome, Result};
ghost use Rattle.std.specs.Thread.{IsSync};
ghost use Rattle.line_io.specs.Failures.{CountsFailures};
ghost use Rattle.line_io.specs.declared.fault.EngineFault.{EngineFault};
ghost use Rattle.audit_text.specs.Texts.{SaysText};
ghost use Rattle.audit_text.specs.declared.fault.WorkFault.{WorkFault};
ghost use Rattle.command_line.specs.declared.work.Task.{Task};
ghost use Rattle.command_line.specs.Tasks.{AnswersTask, IsLack, MayAnswer, TaskIsWithin, TaskLacks};

use crate::options::{Limit, RowsAsked};
use audit_text::{PlacesAsked, WorkFault, explain_denied, explain_places, grants_text, rows_text};
use batched_text::{
    Arrival, Batches, ReadingAhead, Settings, report_alone, report_in_order, report_text,
};
use bohm_base::serial_text;
use line_io::Counted;
use model_base::HashSeed;
use privileges_text::{HistoryAsked, HoldersAsked, history_text, holders_text};
use std::alloc::Global;
use std::io::{Read, Write};
use std::sync::Wait;
use std::thread::Threads;
use summary::summary_text;

/// What is to be done with a log.
#[derive(Clone, Copy)]
pub enum Task<'a> {
    /// Run it in order on one thread, while this many further threads read lines before their turn.
    InOrder(u64),
    /// Run it in batches, by placers and workers on threads, as its bytes arrive. Nothing that is finished is kept but rows and grants.
    InBatches(Settings, Arrival),
    /// Run it by the slow run, which follows the definitions one by one.
    Slow,
    /// Explain why the statements of these places were admitted or denied.
    Explain(PlacesAsked<'a>),
    /// Explain so each denied place, and check that where it is asked for.
    Denials(bool),
    /// Picture the grants in force before a place, or at the end.
    Picture(Limit),
    /// List the rows that are there before a place, or at the end.
    List(RowsAsked<'a>),
    /// Tell who holds a privilege before a place, or at the end.
    Holders(HoldersAsked<'a>),
    /// Tell when a user held a privilege.
    History(HistoryAsked<'a>),
    /// Run it in order on one thread, and tell how many lines of its report say what.
    Summary,
}

/// Work on a log by a task, from the log's bytes to those that it says. A trait, so that only the work itself can give `answers`: a command
/// that says more than its job did isn't proved.
pub trait Job {
    // What it may answer to a task. Only the work itself can give.
    ghost answers: { Self → Task → Result (Unit {0}) WorkFault → Type 0 };

    /// Reads the log, as far as it has to, and writes what it says of it. After a fault a beginning of that was written, or nothing; where
    /// the place, the table or the user isn't there, nothing.
    fn work<T: Threads + Wait + Sync, R: Read, W: Write>(
        &self,
        rt: &T,
        alloc: Global,
        task: Task<'_>,
        log: &mut Counted<R>,
        told: &mut Counted<W>,
    ) -> Result<(), WorkFault>
        requires shared { IsSync T.row }
        requires within { TaskIsWithin task }
        ensures answers { answers self.now task.entry result }
        ensures text { SaysText (AnswersTask task.entry)
            (R.remaining log.old.inner) (W.contents told.old.inner) (W.contents told.new.inner) result }
        ensures lacks { IfErr result (λ fault. IsLack fault
            → (told.new ≡ told.old) × IfSome (R.remaining log.old.inner) (TaskLacks task.entry fault)) }
        ensures settings { result ≡ Err (WorkFault.Run EngineFault.BadSettings) → ⊥ }
        ensures failures { CountsFailures (WorkFault.Run EngineFault.Read) (WorkFault.Run EngineFault.Write)
            log.old log.new told.old told.new result };
}

/// The program's own work on logs.
#[derive(Clone, Copy)]
pub struct SeededJob {
    /// The seed under which its maps find their keys.
    pub seed: HashSeed,
}

impl Job for SeededJob {
    ghost answers = { λ _. MayAnswer };

    fn work<T: Threads + Wait + Sync, R: Read, W: Write>(
        &self,
        rt: &T,
        alloc: Global,
        task: Task<'_>,
        log: &mut Counted<R>,
        told: &mut Counted<W>,
    ) -> Result<(), WorkFault> {
        match task {
            Task::InOrder(0) => match report_alone(alloc, log, told, self.seed) {
                Ok(()) => Ok(()),
                Err(fault) => Err(WorkFault::Run(fault)),
            },
            Task::InOrder(threads) => {
                let ahead = ReadingAhead::by(threads as usize);
                match report_in_order(rt, alloc, log, told, ahead, self.seed) {
                    Ok(()) => Ok(()),
                    Err(fault) => Err(WorkFault::Run(fault)),
                }
            }
            Task::InBatches(settings, arrival) => {
                let batches = Batches { settings, arrival };
                match report_text(rt, alloc, log, told, &batches, self.seed) {
                    Ok(()) => Ok(()),
                    Err(fault) => Err(WorkFault::Run(fault)),
                }
            }
            Task::Slow => match serial_text(alloc, log, told, self.seed) {
                Ok(()) => Ok(()),
                Err(fault) => Err(WorkFault::Run(fault)),
            },
            Task::Explain(which) => explain_places(alloc, log, told, &which, self.seed),
            Task::Denials(is_checked) => explain_denied(alloc, log, told, is_checked, self.seed),
            Task::Picture(limit) => grants_text(alloc, log, told, limit.place(), self.seed),
            Task::List(asked) => rows_text(
                alloc,
                log,
                told,
                asked.table,
                asked.limit.place(),
                self.seed,
            ),
            Task::Holders(which) => holders_text(alloc, log, told, &which, self.seed),
            Task::History(which) => history_text(alloc, log, told, &which, self.seed),
            Task::Summary => summary_text(alloc, log, told, self.seed),
        }
    }
}
