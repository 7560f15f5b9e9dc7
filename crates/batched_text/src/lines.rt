//! A line, taken into the log of a run.

ghost use Rattle.std.specs.Prelude.{◌==◌, ◌≡◌, ◌<◌, ◌^◌, IfErr, OnErr, OnOk};
ghost use Rattle.report.specs.Report.{ParsedLine, faulty};
ghost use Rattle.bohm_base.specs.Collecting.{ReadsAs};
ghost use Rattle.batched_text.specs.Batching.{Deals, IsFaultOfBatch, IsOpen, TakesNothing, Takes, next_line};
ghost use Rattle.batched_text.specs.Foretold.{log_names};

use crate::line_run::LineRun;
use crate::runner::{Executor, Runner};
use bohm_base::{EngineFault, LineOutcome, take_text};
use log_text::{LineBuffers, LineFault};
use std::alloc::Global;

impl LineRun {
    /// Whether no line was taken yet.
    fn is_first(&self) -> bool
        ensures { result ≡ (next_line self.now == 1) }
    {
        self.lines == 0 && self.waiting.is_empty()
    }

    /// Takes a line, as `take_text`, the first one as such. Then the line waits.
    pub fn take<'a>(&mut self, line: &'a [u8], raw: &mut LineBuffers<'a>) -> Result<(), EngineFault>
        ensures ok { OnOk result ((reading : ParsedLine)
            × (ReadsAs (next_line self.old == 1) (log_names self.old).version line.now reading
            × Takes reading self.old self.new)) }
        ensures still { OnErr result (TakesNothing self.old self.new) }
        ensures err { IfErr result (λ f. f ≡ EngineFault.NoMemory) }
    {
        let is_first = self.is_first();
        self.waiting.reserve(1)?;
        let line = take_text(&mut self.engine, line, is_first, raw)?;
        let _dropped = self.engine.log().dropped();
        self.waiting.push_reserved(line);
        Ok(())
    }

    /// Takes a line, as `take`, with room of its own: it may lie elsewhere than the lines after it, so that they can't share one.
    pub fn take_alone(&mut self, alloc: Global, line: &[u8]) -> Result<(), EngineFault>
        ensures ok { OnOk result ((reading : ParsedLine)
            × (ReadsAs (next_line self.old == 1) (log_names self.old).version line.now reading
            × Takes reading self.old self.new)) }
        ensures still { OnErr result (TakesNothing self.old self.new) }
        ensures err { IfErr result (λ f. f ≡ EngineFault.NoMemory) }
    {
        let mut raw = LineBuffers::new(alloc);
        self.take(line, &mut raw)
    }

    /// Takes a line with this fault, as `take`.
    pub(crate) fn take_faulty(&mut self, fault: LineFault) -> Result<(), EngineFault>
        ensures ok { OnOk result (Takes (faulty fault) self.old self.new) }
        ensures still { OnErr result (TakesNothing self.old self.new) }
        ensures err { IfErr result (λ f. f ≡ EngineFault.NoMemory) }
    {
        let _dropped = self.engine.log().dropped();
        self.waiting.push(LineOutcome::Faulty(fault))?;
        Ok(())
    }

    /// Takes a line, as `take`, and reports the waiting lines if their batch is full.
    pub(crate) fn deal<'a, E: Executor>(
        &mut self,
        runner: &Runner<E>,
        line: &'a [u8],
        raw: &mut LineBuffers<'a>,
    ) -> Result<(), EngineFault>
        requires may_run { E.may_run runner.now.executor.now runner.now.plan.settings.workers }
        requires room { IsOpen runner.now.plan self.old }
        requires number { next_line self.old < 2 ^ 64 }
        ensures dealt { OnOk result ((reading : ParsedLine)
            × (ReadsAs (next_line self.old == 1) (log_names self.old).version line.now reading
            × Deals reading self.old self.new)) }
        ensures room { OnOk result (IsOpen runner.now.plan self.new) }
        ensures err { IfErr result (IsFaultOfBatch runner.now.plan self.old self.new) }
    {
        self.take(line, raw)?;
        self.report_full(runner)?;
        Ok(())
    }
}
