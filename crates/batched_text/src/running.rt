//! A log, read, run in batches, and reported as batches finish.

ghost use Rattle.std.specs.Prelude.{◌≡◌, ◌≢◌, ◌<◌, ◌≤◌, ◌-◌, ◌^◌, ◌↔◌, ℕ, [], false, true, List, Option, IfErr, IfOk, OnErr, OnOk, Err, Ok, length};
ghost use Rattle.std.specs.Io.KnownBytes.{Keeps};
ghost use Rattle.line_io.specs.Ahead.{ahead};
ghost use Rattle.line_io.specs.Failures.{CountsFailures};
ghost use Rattle.line_io.specs.Known.{raised};
ghost use Rattle.bohm_base.specs.Faults.{IsFaultInOrder, read_errors, write_errors};
ghost use Rattle.bohm_base.specs.Pending.{HasBegunReport, HasReport};
ghost use Rattle.sequencer.specs.Catalog.{no_names};
ghost use Rattle.sequencer.specs.Foretelling.{Begins};
ghost use Rattle.engine.specs.Engine.{finished};
ghost use Rattle.batched_text.specs.Batching.{BatchedTurn, HasBegunReportOfRead, HasRunText, IsBatchReady, IsBeginning, IsLogOfText, ReportsRead, standing_at};
ghost use Rattle.batched_text.specs.Faults.{IsOfRun};
ghost use Rattle.batched_text.specs.Foretold.{log_names};
ghost use Rattle.batched_text.specs.History.{NoneWait};
ghost use Rattle.batched_text.specs.Settings.{IsTrimmed, are_within_limits};
ghost use Rattle.batched_text.specs.Sweeping.{IsSwept};

use crate::buffered::Buffered;
use crate::history::{Cut, History, Plan};
use crate::line_run::LineRun;
use crate::lookahead::{Dealer, InTurn, Lookahead, ReadingAhead};
use crate::runner::{Alone, Executor, Runner, Workers};
use crate::settings::{Batches, Settings, are_within_limits};
use engine::Engine;
use line_io::{Counted, EngineFault, LineReader, flush, write_out, write_pending};
use log_text::LineBuffers;
use model_base::HashSeed;
use std::alloc::Global;
use std::io::{Read, Write};
use std::sync::Wait;
use std::thread::Threads;

/// Takes the next line, and reports its batch if that is full. False at the end of the input. Where batches end before reads, a line is
/// reported before the reader is asked for more.
#[tactic(auto, using(crate::proofs::Faults::run_stops, crate::proofs::Faults::run_told))]
fn report_line<E: Executor, R: Read>(
    runner: &Runner<E>,
    reader: &mut Counted<R>,
    lines: &mut LineReader,
    run: &mut LineRun,
) -> Result<bool, EngineFault>
    requires may_run { E.may_run runner.now.executor.now runner.now.plan.settings.workers }
    requires ready { IsBatchReady runner.now.plan run.old (length (ahead lines.old)) reader.old.given }
    requires nothing { run.old.pending.items ≡ [] }
    requires none { NoneWait runner.now.plan.cut run.old.waiting.items }
    ensures turn { (held : Option (List ℕ)) → BatchedTurn runner.now.plan result
        (standing_at (ahead lines.old) (R.remaining reader.old.inner) reader.old.given held run.old)
        (standing_at (ahead lines.new) (R.remaining reader.new.inner) reader.new.given held run.new) }
    ensures reads { reader.new.errors ≡ read_errors result reader.old.errors }
    ensures begins { OnOk result (Begins (log_names run.old) (log_names run.new)) }
    ensures err { IfErr result (λ f. f ≢ EngineFault.Write) }
    ensures alone { IfErr result (IsOfRun runner.now.plan.settings.workers) }
{
    if !lines.next_line(reader)? {
        return Ok(false);
    }
    let mut raw = LineBuffers::new(runner.alloc);
    run.deal(runner, lines.line(), &mut raw)?;
    Ok(true)
}

/// Takes, runs and reports all lines of the input, and leaves the end of the report pending. Each turn takes a line, as `report_line`, and
/// then whole buffered lines, as `deal_at_hand`.
#[tactic(auto, using(crate::proofs::Faults::run_stops, crate::proofs::Faults::run_told))]
fn report_all<E: Executor, D: Dealer<E>, R: Read, W: Write>(
    runner: &Runner<E>,
    reader: &mut Counted<R>,
    writer: &mut Counted<W>,
    run: &mut LineRun,
    dealer: &mut D,
) -> Result<(), EngineFault>
    requires may_run { E.may_run runner.now.executor.now runner.now.plan.settings.workers }
    requires fresh { IsBeginning runner.now.plan run.old }
    requires may_deal { D.may_deal dealer.old }
    requires unnamed { D.names dealer.old ≡ no_names }
    ensures done { OnOk result (HasReport (R.remaining reader.old.inner) (W.contents writer.old.inner) (W.contents writer.new.inner)
        run.new.pending.items) }
    ensures begun { HasBegunReport (R.remaining reader.old.inner) (W.contents writer.old.inner) (W.contents writer.new.inner)
        run.new.pending.items }
    ensures begun_read { HasBegunReportOfRead (R.remaining reader.old.inner) (R.remaining reader.new.inner)
        (W.contents writer.old.inner) (W.contents writer.new.inner) run.new.pending.items }
    ensures ran { OnOk result (HasRunText runner.now.plan (R.remaining reader.old.inner) run.new.engine) }
    ensures reads { reader.new.errors ≡ read_errors result reader.old.errors }
    ensures writes { writer.new.errors ≡ write_errors result writer.old.errors }
    ensures flushes { writer.new.flushes ≡ writer.old.flushes }
    ensures alone { IfErr result (IsOfRun runner.now.plan.settings.workers) }
{
    let mut lines = dealer.reader(runner.alloc)?;
    'turns: while report_line(runner, reader, &mut lines, run)? {
        let bytes = lines.bytes_ahead();
        let buffered = Buffered {
            bytes,
            given: reader.given,
        };
        let taken = dealer.deal_at_hand(runner, run, &buffered)?;
        match runner.plan.cut {
            Cut::WhenFull => {}
            Cut::BeforeReads => run.report(runner)?,
        }
        lines.take_ahead(taken);
        write_pending(writer, &mut run.pending)?;
    }
    run.report(runner)?;
    Ok(())
}

/// Flushes the writer at the end of a report.
fn end_report<W: Write>(writer: &mut Counted<W>) -> Result<(), EngineFault>
    ensures bytes { Keeps (W.contents writer.old.inner) (W.contents writer.new.inner) }
    ensures same { OnOk result (writer.new.errors ≡ writer.old.errors) }
    ensures err { OnErr result (writer.new.errors ≡ raised writer.old.errors) }
    ensures fault { IfErr result (λ f. f ≡ EngineFault.Write) }
    ensures flushed { OnOk result ((writer.new.flushes ≡ raised writer.old.flushes) × (writer.new.is_flushed ≡ true)) }
{
    flush(writer)?;
    Ok(())
}

/// Reads a log to its end, runs it in batches, and writes its report, at a fault as much of it as was made; then the writer is flushed.
#[tactic(auto, using(crate::proofs::Faults::run_stops, crate::proofs::Faults::run_told))]
fn run_batches<E: Executor, D: Dealer<E>, R: Read, W: Write>(
    runner: &Runner<E>,
    reader: &mut Counted<R>,
    writer: &mut Counted<W>,
    run: &mut LineRun,
    dealer: &mut D,
) -> Result<(), EngineFault>
    requires may_run { E.may_run runner.now.executor.now runner.now.plan.settings.workers }
    requires fresh { IsBeginning runner.now.plan run.old }
    requires may_deal { D.may_deal dealer.old }
    requires unnamed { D.names dealer.old ≡ no_names }
    ensures report { ReportsRead (R.remaining reader.old.inner) (R.remaining reader.new.inner)
        (W.contents writer.old.inner) (W.contents writer.new.inner) result }
    ensures ran { OnOk result (HasRunText runner.now.plan (R.remaining reader.old.inner) run.new.engine) }
    ensures failures { CountsFailures EngineFault.Read EngineFault.Write reader.old reader.new writer.old writer.new result }
    ensures alone { IfErr result (IsOfRun runner.now.plan.settings.workers) }
{
    let ended = report_all(runner, reader, writer, run, dealer);
    let written = write_out(writer, &run.pending);
    ended?;
    written?;
    end_report(writer)?;
    Ok(())
}

/// Reads a log to its end, runs it in batches, and writes its report; the writer is flushed once, at the end. It returns the engine. Maps
/// find their keys under `seed`.
#[tactic(auto, using(crate::proofs::Faults::never_bad, crate::proofs::Faults::one_alone))]
pub fn run_text<T: Threads + Wait + Sync, R: Read, W: Write>(
    rt: &T,
    alloc: Global,
    reader: &mut Counted<R>,
    writer: &mut Counted<W>,
    settings: &Settings,
    seed: HashSeed,
) -> Result<Engine, EngineFault>
    // What was written is the report of what was read, and after a fault a beginning of it, which says nothing of what the reader has left.
    ensures report { ReportsRead (R.remaining reader.old.inner) (R.remaining reader.new.inner)
        (W.contents writer.old.inner) (W.contents writer.new.inner) result }
    // Read and Write come only where the reader or the writer failed. Ok says that neither of them failed, in the flush at the end neither,
    // and that the writer was flushed once and not written to since.
    ensures failures { CountsFailures EngineFault.Read EngineFault.Write reader.old reader.new writer.old writer.new result }

    // BadSettings comes exactly where a setting is outside its limits, and then nothing is done.
    ensures bad { (result ≡ Err EngineFault.BadSettings) ↔ (are_within_limits settings.now ≡ false) }
    ensures nothing { result ≡ Err EngineFault.BadSettings → (reader.new ≡ reader.old) × (writer.new ≡ writer.old) }
    // One worker starts no thread.
    ensures alone { settings.now.workers ≤ 1 → result ≢ Err EngineFault.Spawn }

    // The engine has the log of what was read, all of it finished and nothing of it dropped, and the rows before the last few batches.
    ensures log { IfOk result (λ engine. IsLogOfText (R.remaining reader.old.inner) engine.log) }
    ensures all { IfOk result (λ engine. finished engine ≡ length engine.log.statements) }
    ensures trimmed { IfOk result (λ engine. IsTrimmed settings.now engine) }
    // Of each key at most one version lies below the mark, and those of no key say nothing but that its row is absent.
    ensures swept { IfOk result (λ engine. IsSwept engine.store) }
    ensures kept { IfOk result (λ engine. engine.dropped ≡ 0) }
{
    if !are_within_limits(settings) {
        return Err(EngineFault::BadSettings);
    }
    let plan = Plan {
        settings: *settings,
        history: History::Kept,
        cut: Cut::WhenFull,
    };
    let crew = settings.crew();
    let runner = Runner {
        executor: &Workers { rt, crew },
        alloc,
        plan,
    };
    let mut run = LineRun::seeded(alloc, seed);
    run_batches(&runner, reader, writer, &mut run, &mut InTurn)?;
    Ok(run.engine)
}

/// Writes the report of a log as `run_text`, but drops what is finished. Where bytes arrive `Live` a batch ends before the reader may wait;
/// where they are `Stored` each but the last one is full.
#[tactic(auto, using(crate::proofs::Faults::never_bad, crate::proofs::Faults::one_alone))]
pub fn report_text<T: Threads + Wait + Sync, R: Read, W: Write>(
    rt: &T,
    alloc: Global,
    reader: &mut Counted<R>,
    writer: &mut Counted<W>,
    batches: &Batches,
    seed: HashSeed,
) -> Result<(), EngineFault>
    // What was written is the report of what was read, and after a fault a beginning of it, which says nothing of what the reader has left.
    ensures report { ReportsRead (R.remaining reader.old.inner) (R.remaining reader.new.inner)
        (W.contents writer.old.inner) (W.contents writer.new.inner) result }
    // Read and Write come only where the reader or the writer failed. Ok says that neither of them failed, in the flush at the end neither,
    // and that the writer was flushed once and not written to since.
    ensures failures { CountsFailures EngineFault.Read EngineFault.Write reader.old reader.new writer.old writer.new result }

    // BadSettings comes exactly where a setting is outside its limits, and then nothing is done.
    ensures bad { (result ≡ Err EngineFault.BadSettings) ↔ (are_within_limits batches.now.settings ≡ false) }
    ensures nothing { result ≡ Err EngineFault.BadSettings → (reader.new ≡ reader.old) × (writer.new ≡ writer.old) }
    // One worker starts no thread.
    ensures alone { batches.now.settings.workers ≤ 1 → result ≢ Err EngineFault.Spawn }
{
    if !are_within_limits(&batches.settings) {
        return Err(EngineFault::BadSettings);
    }
    let plan = Plan {
        settings: batches.settings,
        history: History::Dropped,
        cut: Cut::of(batches.arrival),
    };
    let crew = batches.settings.crew();
    let runner = Runner {
        executor: &Workers { rt, crew },
        alloc,
        plan,
    };
    let mut run = LineRun::seeded(alloc, seed);
    run_batches(&runner, reader, writer, &mut run, &mut InTurn)
}

/// Writes the report of a log that it runs in order on this thread, while as many more as `reading` says read lines ahead. Nothing finished
/// is kept. Before the reader is asked for more, what waits is written.
#[tactic(auto, using(crate::proofs::Faults::in_order))]
pub fn report_in_order<T: Threads + Wait + Sync, R: Read, W: Write>(
    rt: &T,
    alloc: Global,
    reader: &mut Counted<R>,
    writer: &mut Counted<W>,
    reading: ReadingAhead,
    seed: HashSeed,
) -> Result<(), EngineFault>
    // What was written is the report of what was read, and after a fault a beginning of it, which says nothing of what the reader has left.
    ensures report { ReportsRead (R.remaining reader.old.inner) (R.remaining reader.new.inner)
        (W.contents writer.old.inner) (W.contents writer.new.inner) result }
    // Read and Write come only where the reader or the writer failed. Ok says that neither of them failed, in the flush at the end neither,
    // and that the writer was flushed once and not written to since.
    ensures failures { CountsFailures EngineFault.Read EngineFault.Write reader.old reader.new writer.old writer.new result }
    // There is no setting to be bad, and a thread that reads ahead and can't be started ends no run.
    ensures alone { IfErr result IsFaultInOrder }
{
    if reading.threads == 0 {
        return report_alone(alloc, reader, writer, seed);
    }
    let runner = Runner::dropping_all(&Alone, alloc);
    let mut run = LineRun::seeded(alloc, seed);
    let mut lookahead = Lookahead::seeded(rt, alloc, reading, seed);
    run_batches(&runner, reader, writer, &mut run, &mut lookahead)
}

/// Writes the report of a log that it runs in order on this thread, as `report_in_order`, but starts no thread and waits for none. Lines
/// are written before more is read.
#[tactic(auto, using(crate::proofs::Faults::in_order))]
pub fn report_alone<R: Read, W: Write>(
    alloc: Global,
    reader: &mut Counted<R>,
    writer: &mut Counted<W>,
    seed: HashSeed,
) -> Result<(), EngineFault>
    // What was written is the report of what was read, and after a fault a beginning of it, which says nothing of what the reader has left.
    ensures report { ReportsRead (R.remaining reader.old.inner) (R.remaining reader.new.inner)
        (W.contents writer.old.inner) (W.contents writer.new.inner) result }
    // Read and Write come only where the reader or the writer failed. Ok says that neither of them failed, in the flush at the end neither,
    // and that the writer was flushed once and not written to since.
    ensures failures { CountsFailures EngineFault.Read EngineFault.Write reader.old reader.new writer.old writer.new result }
    // There is no setting to be bad, and no thread to be started.
    ensures alone { IfErr result IsFaultInOrder }
{
    let alone = Runner::dropping_all(&Alone, alloc);
    let mut run = LineRun::seeded(alloc, seed);
    run_batches(&alone, reader, writer, &mut run, &mut InTurn)
}
