//! By what a log is run.

ghost use Rattle.std.specs.Prelude.{◌≡◌, ◌≤◌, ◌<◌, ℕ, IfErr, length};
ghost use Rattle.std.specs.Thread.{IsSync};
ghost use Rattle.engine.specs.Engine.{RunsTo, finished};
ghost use Rattle.batched_text.specs.Faults.{IsOfBatch};
ghost use Rattle.batched_text.specs.History.{last_places, plan_in_order};
ghost use Rattle.batched_text.specs.Settings.{in_order};
ghost use Rattle.batched_text.specs.declared.history.Cut.{Cut};
ghost use Rattle.batched_text.specs.declared.history.History.{History};
ghost use Rattle.batched_text.specs.declared.settings.TheConstants.{QUIET_BATCH};

use crate::history::{Cut, History, Plan};
use crate::settings::{IN_ORDER_BATCH, QUIET_BATCH, Settings};
use bohm_base::EngineFault;
use engine::{Crew, Engine};
use model_base::Place;
use std::alloc::Global;
use std::sync::Wait;
use std::thread::Threads;
use workers::NoGate;

/// Who runs the places of a log that wait. `may_run` says that it may, and that it has so many workers.
pub trait Executor {
    ghost may_run: { Self → ℕ → Type 0 };

    /// Runs the next places, up to this one.
    fn run_to(&self, alloc: Global, engine: &mut Engine, end: Place) -> Result<(), EngineFault>
        requires may_run { (workers : ℕ) × may_run self.now workers }
        requires order { finished engine.old ≤ end }
        requires within { end ≤ length engine.old.log.statements }
        ensures runs { RunsTo end result engine.old engine.new }
        ensures err { (workers : ℕ) → may_run self.now workers → IfErr result (IsOfBatch workers) };
}

/// The calling thread, which runs places in order and waits for no other.
#[derive(Clone, Copy)]
pub struct Alone;

impl Executor for Alone {
    ghost may_run = { λ alone workers. workers ≡ 1 };

    fn run_to(&self, alloc: Global, engine: &mut Engine, end: Place) -> Result<(), EngineFault> {
        engine.run_alone(alloc, end)?;
        Ok(())
    }
}

/// Workers of which the first is the calling thread.
#[derive_where(Clone, Copy)]
pub(crate) struct Workers<'r, T> {
    pub(crate) rt: &'r T,
    pub(crate) crew: Crew,
}

impl<T: Threads + Wait + Sync> Executor for Workers<'_, T> {
    ghost may_run = { λ crew workers. IsSync T.row × (0 < crew.crew.partitions) × (crew.crew.workers ≡ workers) };

    fn run_to(&self, alloc: Global, engine: &mut Engine, end: Place) -> Result<(), EngineFault> {
        engine.run_to(self.rt, alloc, end, self.crew, &NoGate)?;
        Ok(())
    }
}

/// What runs a log, from its first line to its last: who runs its places, the memory, and the plan of its batches.
#[derive_where(Clone, Copy)]
pub struct Runner<'e, E> {
    pub(crate) executor: &'e E,
    pub(crate) alloc: Global,
    pub(crate) plan: Plan,
}

impl<'e> Runner<'e, Alone> {
    /// In order, in batches that may end early. So much of what is finished is kept.
    fn in_order(executor: &'e Alone, alloc: Global, history: History) -> Self
        ensures plan { result.plan ≡ plan_in_order history }
        ensures alone { result.plan.settings.workers ≡ 1 }
    {
        let plan = Plan {
            settings: Settings::in_order(IN_ORDER_BATCH),
            history,
            cut: Cut::BeforeReads,
        };
        Runner {
            executor,
            alloc,
            plan,
        }
    }

    /// In order, in batches that may end early. Nothing that is finished is kept.
    pub(crate) fn dropping_all(executor: &'e Alone, alloc: Global) -> Self
        ensures plan { result.plan ≡ plan_in_order History.Dropped }
        ensures alone { result.plan.settings.workers ≡ 1 }
    {
        Runner::in_order(executor, alloc, History::Dropped)
    }

    /// In order, in batches that may end early. Statements and outcomes of this many of the last places are kept.
    pub fn keeping_last(executor: &'e Alone, alloc: Global, places: u64) -> Self
        ensures plan { result.plan ≡ plan_in_order (last_places places) }
        ensures alone { result.plan.settings.workers ≡ 1 }
    {
        Runner::in_order(executor, alloc, History::last(places))
    }

    /// In order, in the batches of a run without a report.
    pub(crate) fn quiet(executor: &'e Alone, alloc: Global) -> Self
        ensures plan { result.plan ≡ record { settings = in_order QUIET_BATCH; history = History.Kept; cut = Cut.WhenFull } }
        ensures alone { result.plan.settings.workers ≡ 1 }
    {
        let plan = Plan {
            settings: Settings::in_order(QUIET_BATCH),
            history: History::Kept,
            cut: Cut::WhenFull,
        };
        Runner {
            executor,
            alloc,
            plan,
        }
    }
}
