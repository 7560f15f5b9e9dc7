//! Lines that were read before their turn are dealt with in their turn.

ghost use Rattle.std.specs.Prelude.{◌≡◌, ◌<◌, ◌≤◌, IfErr, IfOk, MatchOption, OnErr, length};
ghost use Rattle.batched_text.specs.declared.history.Cut.{Cut};
ghost use Rattle.batched_text.specs.declared.history.History.{History};
ghost use Rattle.batched_text.specs.Batching.{TakesNothing, next_line};
ghost use Rattle.batched_text.specs.Foretold.{IsReadyAt, Runs, TakesAt, WasReadAhead, WereReadAhead, log_names};

use crate::buffered::Buffered;
use crate::history::Cut;
use crate::line_run::LineRun;
use crate::runner::{Executor, Runner};
use body::Window;
use bohm_base::EngineFault;
use line_io::cut_line;
use log_text::LineBuffers;
use model_base::{MOST_PLACES, Statement};
use read_ahead::{Ahead, Found};
use std::alloc::Global;

/// What dealing with one line after another uses again: what a line reads as, and the window of a body.
#[derive(Drop)]
pub(crate) struct Room<'a> {
    pub(crate) raw: LineBuffers<'a>,
    window: Window,
}

impl Room<'_> {
    /// Room for nothing yet. It doesn't allocate.
    pub(crate) fn new(alloc: Global) -> Self {
        Room {
            raw: LineBuffers::new(alloc),
            window: Window::new(),
        }
    }
}

/// Takes the line that begins at an index of the bytes, and returns how many of them it takes. None where no line is whole there.
fn take_next<'a>(
    run: &mut LineRun,
    bytes: &'a [u8],
    from: usize,
    raw: &mut LineBuffers<'a>,
) -> Result<Option<usize>, EngineFault>
    requires within { from ≤ length bytes.now }
    ensures ok { IfOk result (λ found. MatchOption found (run.new ≡ run.old)
        (λ count. TakesAt bytes.now from count run.old run.new)) }
    ensures still { OnErr result (TakesNothing run.old run.new) }
    ensures err { IfErr result (λ f. f ≡ EngineFault.NoMemory) }
{
    let Some((line, count)) = cut_line(&bytes[from..]) else {
        return Ok(None);
    };
    run.take(line, raw)?;
    Ok(Some(count))
}

/// Takes a line of which no statement was found before its turn, as `take_next`: with its fault if that was found, else it is read now.
fn take_ahead<'a>(
    run: &mut LineRun,
    bytes: &'a [u8],
    ahead: &Ahead,
    raw: &mut LineBuffers<'a>,
) -> Result<Option<usize>, EngineFault>
    requires begun { 1 < next_line run.old }
    requires ahead { WasReadAhead (log_names run.old) bytes.now ahead.now }
    ensures ok { IfOk result (λ found. MatchOption found (run.new ≡ run.old)
        (λ count. TakesAt bytes.now ahead.now.from count run.old run.new)) }
    ensures still { OnErr result (TakesNothing run.old run.new) }
    ensures err { IfErr result (λ f. f ≡ EngineFault.NoMemory) }
{
    match &ahead.found {
        Found::Faulty(fault) => {
            run.take_faulty(*fault)?;
            Ok(Some(ahead.count))
        }
        Found::Known(_) | Found::Unread => take_next(run, bytes, ahead.from, raw),
    }
}

/// Deals with a line that was read ahead and begins at an index of the bytes: it waits for the end of its batch, or its batch is reported.
/// Returns the index before which all is dealt with then.
fn report_taken<'a, E: Executor>(
    runner: &Runner<E>,
    run: &mut LineRun,
    buffered: &Buffered<'a>,
    ahead: &Ahead,
    raw: &mut LineBuffers<'a>,
) -> Result<usize, EngineFault>
    requires may_run { E.may_run runner.now.executor.now runner.now.plan.settings.workers }
    requires within { ahead.now.from ≤ length buffered.now.bytes.now }
    requires ready { IsReadyAt runner.now.plan run.old buffered.now ahead.now.from }
    requires ahead { WasReadAhead (log_names run.old) buffered.now.bytes.now ahead.now }
    ensures { Runs runner.now.plan buffered.now ahead.now.from run.old run.new result }
{
    let Some(count) = take_ahead(run, buffered.bytes, ahead, raw)? else {
        return Ok(ahead.from);
    };
    run.report_full(runner)?;
    Ok(ahead.from + count)
}

/// Deals with a line of which a statement was found before its turn: reports the lines that wait, then runs the statement from where it
/// stays and reports it. Returns the index before which all is dealt with then.
fn report_known<E: Executor>(
    runner: &Runner<E>,
    run: &mut LineRun,
    buffered: &Buffered<'_>,
    ahead: &Ahead,
    statement: &Statement,
    window: &mut Window,
) -> Result<usize, EngineFault>
    requires may_run { E.may_run runner.now.executor.now runner.now.plan.settings.workers }
    requires within { ahead.now.from ≤ length buffered.now.bytes.now }
    requires ready { IsReadyAt runner.now.plan run.old buffered.now ahead.now.from }
    requires cut { runner.now.plan.cut ≡ Cut.BeforeReads }
    requires dropped { runner.now.plan.history ≡ History.Dropped }
    requires place { length run.old.engine.log.statements < MOST_PLACES }
    requires ahead { WasReadAhead (log_names run.old) buffered.now.bytes.now ahead.now }
    requires known { ahead.now.found ≡ Found.Known statement.now }
    ensures { Runs runner.now.plan buffered.now ahead.now.from run.old run.new result }
{
    run.report_waiting(runner)?;
    run.report_single(runner, statement, window)?;
    Ok(ahead.from + ahead.count)
}

/// Deals with a line that was read ahead, if the lines before an index end where it begins: as `report_known` where its statement may be a
/// batch of its own and a place is left, else as `report_taken`.
fn report_one<'a, E: Executor>(
    runner: &Runner<E>,
    run: &mut LineRun,
    buffered: &Buffered<'a>,
    ahead: &Ahead,
    from: usize,
    room: &mut Room<'a>,
) -> Result<usize, EngineFault>
    requires may_run { E.may_run runner.now.executor.now runner.now.plan.settings.workers }
    requires within { from ≤ length buffered.now.bytes.now }
    requires ready { IsReadyAt runner.now.plan run.old buffered.now from }
    requires ahead { WasReadAhead (log_names run.old) buffered.now.bytes.now ahead.now }
    ensures { Runs runner.now.plan buffered.now from run.old run.new result }
{
    if ahead.from != from {
        return Ok(from);
    }
    let is_single = runner.plan.runs_singly() && run.engine.log().len() < MOST_PLACES;
    match &ahead.found {
        Found::Known(statement) if is_single => {
            report_known(runner, run, buffered, ahead, statement, &mut room.window)
        }
        _ => report_taken(runner, run, buffered, ahead, &mut room.raw),
    }
}

/// Deals with the lines that begin from one index of the bytes on and before another. Returns the index before which all is dealt with
/// then, which is before the other one where a line isn't whole.
pub(crate) fn report_until<'a, E: Executor>(
    runner: &Runner<E>,
    run: &mut LineRun,
    buffered: &Buffered<'a>,
    from: usize,
    to: usize,
    raw: &mut LineBuffers<'a>,
) -> Result<usize, EngineFault>
    requires may_run { E.may_run runner.now.executor.now runner.now.plan.settings.workers }
    requires within { from ≤ length buffered.now.bytes.now }
    requires ready { IsReadyAt runner.now.plan run.old buffered.now from }
    requires to_within { to ≤ length buffered.now.bytes.now }
    ensures { Runs runner.now.plan buffered.now from run.old run.new result }
{
    let mut at = from;
    'lines: while at < to {
        let Some(count) = take_next(run, buffered.bytes, at, raw)? else {
            return Ok(at);
        };
        run.report_full(runner)?;
        at += count;
    }
    Ok(at)
}

/// Deals with lines from an index of the bytes on, up to the last that was read ahead; one that doesn't begin where those before it end is
/// passed over. Returns the index before which all is dealt with.
pub(crate) fn report_foretold<'a, E: Executor>(
    runner: &Runner<E>,
    run: &mut LineRun,
    buffered: &Buffered<'a>,
    lines: &[Ahead],
    from: usize,
    room: &mut Room<'a>,
) -> Result<usize, EngineFault>
    requires may_run { E.may_run runner.now.executor.now runner.now.plan.settings.workers }
    requires within { from ≤ length buffered.now.bytes.now }
    requires ready { IsReadyAt runner.now.plan run.old buffered.now from }
    requires ahead { WereReadAhead (log_names run.old) buffered.now.bytes.now lines.now }
    ensures { Runs runner.now.plan buffered.now from run.old run.new result }
{
    let mut at = from;
    'turns: for ahead in lines {
        let next = report_until(runner, run, buffered, at, ahead.from, &mut room.raw)?;
        at = report_one(runner, run, buffered, ahead, next, room)?;
    }
    match runner.plan.cut {
        Cut::WhenFull => {}
        Cut::BeforeReads => run.report(runner)?,
    }
    Ok(at)
}
