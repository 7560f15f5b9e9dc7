//! A log's lines, taken, run as a batch once there are enough of them, and reported.

ghost use Rattle.std.specs.Prelude.{◌≡◌, ◌<◌, ◌≤◌, ◌+◌, ◌-◌, ◌++◌, ◌^◌, ◌↔◌, [], IfErr, IfOk, OnErr, OnOk, length, true};
ghost use Rattle.log_text.specs.Statement.{IsInGrammar, Sentence};
ghost use Rattle.sequencer.specs.Foretelling.{IsForetold};
ghost use Rattle.engine.specs.Engine.{finished};
ghost use Rattle.report.specs.Report.{faulty, read};
ghost use Rattle.batched_text.specs.declared.history.Cut.{Cut};
ghost use Rattle.batched_text.specs.declared.history.History.{History};
ghost use Rattle.batched_text.specs.Batching.{Deals, HasRoomForLine, IsFaultOfBatch, IsFilling, IsOpen, IsSteady, KeepsLines, ReportsAll, ReportsFirst, RunsBatch, Takes, next_line};
ghost use Rattle.batched_text.specs.Faults.{IsOfBatch};
ghost use Rattle.batched_text.specs.Settings.{are_within_limits, mark_behind};
ghost use Rattle.batched_text.specs.Sweeping.{IsSwept};

use crate::history::forget_finished;
use crate::reporting::KeptPlaces;
use crate::runner::{Executor, Runner};
use crate::settings::mark_behind;
use body::Window;
use bohm_base::{EngineFault, LineOutcome, put_finished, put_lines};
use engine::Engine;
use model_base::{HashSeed, MOST_PLACES, Place, Statement};
use std::alloc::{AllocError, Global};

/// An engine, the lines that wait for the end of their batch, and the report's lines for those before.
#[derive(Drop)]
pub struct LineRun {
    pub(crate) engine: Engine,
    /// What each of the waiting lines became, in the lines' order.
    pub(crate) waiting: Vec<LineOutcome>,
    /// How many lines were reported.
    pub(crate) lines: u64,
    /// How many places were reported.
    reported: Place,
    /// The report's lines that weren't written yet.
    pub pending: Vec<u8>,
    /// Where the report's lines of a batch are made.
    text: Vec<u8>,
}

/// Trims the rows to the mark, and sweeps out what says nothing.
pub(crate) fn trim_to(engine: &mut Engine, mark: Place)
    requires order { engine.old.store.mark ≤ mark }
    requires within { mark ≤ finished engine.old }
    ensures mark { engine.new.store.mark ≡ mark }
    ensures swept { IsSwept engine.new.store }
    ensures rest { engine.new ≡ record engine.old { store = engine.new.store } }
{
    let _dropped = engine.trim(mark);
    engine.sweep();
}

/// Runs the places that wait as a batch, if there are some, and trims the rows after it.
pub(crate) fn run_batch<E: Executor>(
    runner: &Runner<E>,
    engine: &mut Engine,
) -> Result<(), EngineFault>
    requires may_run { E.may_run runner.now.executor.now runner.now.plan.settings.workers }
    requires limits { are_within_limits runner.now.plan.settings ≡ true }
    requires mark { engine.old.store.mark
        ≤ mark_behind runner.now.plan.settings (finished engine.old) (length engine.old.log.statements) }
    requires swept { IsSwept engine.old.store }
    ensures ran { OnOk result (RunsBatch runner.now.plan.settings engine.old engine.new) }
    ensures dropped { engine.new.dropped ≡ engine.old.dropped }
    ensures still { OnErr result (engine.new ≡ engine.old) }
    ensures err { IfErr result (IsOfBatch runner.now.plan.settings.workers) }
{
    let start = engine.finished();
    let end = engine.log().len();
    if start < end {
        runner.executor.run_to(runner.alloc, engine, end)?;
        trim_to(engine, mark_behind(&runner.plan.settings, start, end));
    }
    Ok(())
}

impl LineRun {
    ghost use Rattle.report.specs.Report.{ParsedLine};
    ghost use Rattle.bohm_base.specs.Collecting.{ReadsAs, places_in};
    ghost use Rattle.batched_text.specs.Batching.{IsFresh, lines_text};
    ghost use Rattle.batched_text.specs.Foretold.{log_names};

    /// Before the first line, with an engine that finds its keys under this seed. It doesn't allocate.
    pub fn seeded(alloc: Global, seed: HashSeed) -> Self
        ensures { IsFresh result }
    {
        let engine = Engine::seeded(alloc, seed);
        let _dropped = engine.log().dropped();
        LineRun {
            engine,
            waiting: Vec::new(alloc),
            lines: 0,
            reported: 0,
            pending: Vec::new(alloc),
            text: Vec::new(alloc),
        }
    }

    /// The engine, with the log so far.
    pub fn engine(&self) -> &Engine
        ensures { result.now ≡ self.now.engine }
    {
        &self.engine
    }

    /// How many lines were reported, with a heading, which has no line of the report.
    pub fn lines(&self) -> u64
        ensures { result ≡ self.now.lines }
    {
        self.lines
    }

    /// How many places were reported.
    pub fn reported(&self) -> Place
        ensures { result ≡ self.now.reported }
    {
        self.reported
    }

    /// How many lines wait to be reported.
    pub fn waiting(&self) -> usize
        ensures count { result ≡ length self.now.waiting.items }
        ensures few { length self.now.waiting.items < 2 ^ 63 }
    {
        self.waiting.len()
    }

    /// Whether one line more can be counted.
    pub fn may_count(&self) -> bool
        ensures { (result ≡ true) ↔ (next_line self.now < 2 ^ 64) }
    {
        let waiting = self.waiting.len() as u64 + 1;
        self.lines <= u64::MAX - waiting
    }

    /// How many accepted statements wait to be run.
    fn unreported(&self) -> u64
        requires { self.now.reported ≤ length self.now.engine.log.statements }
        ensures { result + self.now.reported ≡ length self.now.engine.log.statements }
    {
        let _dropped = self.engine.log().dropped();
        self.engine.log().len() - self.reported
    }

    /// Appends the report's lines for the waiting lines to what is pending.
    fn put_waiting(&mut self, alloc: Global) -> Result<(), AllocError>
        requires kept { self.old.engine.dropped ≤ self.old.reported }
        requires places { self.old.reported + places_in self.old.waiting.items ≤ finished self.old.engine }
        requires number { next_line self.old ≤ 2 ^ 64 }
        ensures told { OnOk result (self.new.pending.items ≡ self.old.pending.items
            ++ lines_text self.old.engine.log (self.old.lines + 1) self.old.reported self.old.waiting.items) }
        ensures still { OnErr result (self.new.pending.items ≡ self.old.pending.items) }
        ensures rest { self.new ≡ record self.old { pending = self.new.pending; text = self.new.text } }
    {
        let LineRun {
            engine,
            waiting,
            lines,
            reported,
            pending,
            text,
        } = self;
        text.clear();
        let _finished = engine.finished();
        let kept = KeptPlaces::new(alloc, engine);
        put_lines(text, &kept, *lines, *reported, waiting)?;
        pending.extend_from_slice(text)?;
        Ok(())
    }

    /// Runs the places that wait as a batch, as `run_batch`, and appends the report's lines for the waiting lines to what is pending. Then
    /// it forgets what is finished, but for what is kept.
    pub fn report<E: Executor>(&mut self, runner: &Runner<E>) -> Result<(), EngineFault>
        requires may_run { E.may_run runner.now.executor.now runner.now.plan.settings.workers }
        requires steady { IsSteady runner.now.plan self.old }
        ensures reports { OnOk result (ReportsAll runner.now.plan self.old self.new) }
        ensures err { IfErr result (IsFaultOfBatch runner.now.plan self.old self.new) }
        ensures still { OnErr result (KeepsLines self.old self.new) }
        ensures steady { runner.now.plan.cut ≡ Cut.BeforeReads → IsSteady runner.now.plan self.new }
    {
        run_batch(runner, &mut self.engine)?;
        self.put_waiting(runner.alloc)?;
        self.lines += self.waiting.len() as u64;
        self.waiting.clear();
        self.reported = self.engine.finished();
        forget_finished(&mut self.engine, runner.plan.history);
        Ok(())
    }

    /// Reports the waiting lines, as `report`, if their batch is full.
    pub(crate) fn report_full<E: Executor>(&mut self, runner: &Runner<E>) -> Result<(), EngineFault>
        requires may_run { E.may_run runner.now.executor.now runner.now.plan.settings.workers }
        requires filling { IsFilling runner.now.plan self.old }
        ensures reports { OnOk result (ReportsFirst runner.now.plan self.old self.new) }
        ensures early { HasRoomForLine runner.now.plan self.old → self.new ≡ self.old }
        ensures err { IfErr result (IsFaultOfBatch runner.now.plan self.old self.new) }
    {
        if self.unreported() >= runner.plan.settings.batch {
            self.report(runner)?;
        }
        Ok(())
    }

    /// Reports the lines that wait, as `report`, if there are some.
    pub(crate) fn report_waiting<E: Executor>(
        &mut self,
        runner: &Runner<E>,
    ) -> Result<(), EngineFault>
        requires may_run { E.may_run runner.now.executor.now runner.now.plan.settings.workers }
        requires open { IsOpen runner.now.plan self.old }
        requires cut { runner.now.plan.cut ≡ Cut.BeforeReads }
        ensures reports { OnOk result (ReportsFirst runner.now.plan self.old self.new) }
        ensures none { OnOk result (self.new.waiting.items ≡ []) }
        ensures err { IfErr result (IsFaultOfBatch runner.now.plan self.old self.new) }
    {
        if !self.waiting.is_empty() {
            self.report(runner)?;
        }
        Ok(())
    }

    /// Whether a further line can be taken before the waiting lines are reported.
    pub fn has_room<E>(&self, runner: &Runner<E>) -> bool
        requires { IsSteady runner.now.plan self.now }
        ensures room { result ≡ true → HasRoomForLine runner.now.plan self.now }
        ensures few { result ≡ true → length self.now.waiting.items < runner.now.plan.settings.batch }
        ensures full { HasRoomForLine runner.now.plan self.now
            → length self.now.waiting.items < runner.now.plan.settings.batch → result ≡ true }
        ensures none { self.now.waiting.items ≡ [] → result ≡ true }
    {
        let batch = runner.plan.settings.batch;
        self.unreported() < batch && (self.waiting.len() as u64) < batch
    }

    /// Runs a statement that was foretold as a batch of its own, from where it stays, and appends the report's line for it to what is
    /// pending.
    pub(crate) fn report_single<E: Executor>(
        &mut self,
        runner: &Runner<E>,
        statement: &Statement,
        window: &mut Window,
    ) -> Result<(), EngineFault>
        requires open { IsOpen runner.now.plan self.old }
        requires cut { runner.now.plan.cut ≡ Cut.BeforeReads }
        requires dropped { runner.now.plan.history ≡ History.Dropped }
        requires none { self.old.waiting.items ≡ [] }
        requires number { next_line self.old < 2 ^ 64 }
        requires place { length self.old.engine.log.statements < MOST_PLACES }
        requires foretold { (sentence : Sentence) × (IsInGrammar sentence × IsForetold self.old.engine.log.names sentence statement.now) }
        ensures deals { OnOk result ((sentence : Sentence) → IsForetold self.old.engine.log.names sentence statement.now
            → Deals (read sentence) self.old self.new) }
        ensures room { OnOk result (IsOpen runner.now.plan self.new) }
        ensures err { IfErr result (IsFaultOfBatch runner.now.plan self.old self.new) }
    {
        let place = self.engine.finished();
        let outcome = self.engine.run_foretold(runner.alloc, statement, window)?;
        let mark = mark_behind(&runner.plan.settings, place, place + 1);
        trim_to(&mut self.engine, mark);
        let _dropped = self.engine.log().dropped();
        self.text.clear();
        let kept = KeptPlaces::new(runner.alloc, &self.engine);
        put_finished(&mut self.text, &kept, place, statement, &outcome)?;
        self.pending.extend_from_slice(&self.text)?;
        self.lines += 1;
        self.reported = place + 1;
        Ok(())
    }
}
