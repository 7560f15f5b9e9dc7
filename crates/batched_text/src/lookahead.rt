//! By what lines are read before their turn.

ghost use Rattle.std.specs.Prelude.{◌≡◌, ◌≤◌, ⊤, [], IfOk, OnOk};
ghost use Rattle.std.specs.Thread.{IsSync};
ghost use Rattle.line_io.specs.Ahead.{ahead};
ghost use Rattle.sequencer.specs.Catalog.{Names, no_names};
ghost use Rattle.sequencer.specs.Foretelling.{Begins};
ghost use Rattle.batched_text.specs.Foretold.{IsReadyAt, Runs, log_names};

use crate::buffered::Buffered;
use crate::foretold::report_until;
use crate::line_run::LineRun;
use crate::runner::{Alone, Executor, Runner};
use crate::stretches::{Extent, Ran, run_ahead};
use bohm_base::EngineFault;
use line_io::LineReader;
use log_text::LineBuffers;
use model_base::HashSeed;
use read_ahead::Piece;
use sequencer::Catalog;
use std::alloc::{AllocError, Global};
use std::marker::Brand;
use std::mem;
use std::sync::Wait;
use std::thread::Threads;

/// Bytes that the first stretch has at most.
const FIRST_STRETCH_BYTES: usize = 65_536;

/// How lines are read before their turn.
#[derive(Clone, Copy)]
pub struct ReadingAhead {
    /// How many threads read, beside the one that runs. With 0 each line is read in its turn.
    pub threads: usize,
    /// Bytes of whole buffered lines below which each is read in its turn.
    pub least: usize,
    /// Bytes of a stretch at most: its lines are read by the names known when it began.
    pub stretch: usize,
    /// Bytes of a piece of a stretch, about, which one thread reads.
    pub piece: usize,
}

impl ReadingAhead {
    /// By this many threads, as it was measured to pay.
    pub fn by(threads: usize) -> Self {
        ReadingAhead {
            threads,
            least: 16_384,
            stretch: 1 << 19,
            piece: 16_384,
        }
    }
}

/// Who deals with whole lines that are buffered. It goes by names of earlier lines.
pub(crate) trait Dealer<E: Executor> {
    ghost names: { Self → Names };

    ghost may_deal: { Self → Type 0 };

    /// A reader of lines that buffers as much as is dealt with at once.
    fn reader(&self, alloc: Global) -> Result<LineReader, AllocError>
        ensures { IfOk result (λ lines. ahead lines ≡ []) };

    /// Deals with whole lines at the front of the bytes, and returns how many bytes those lines are.
    fn deal_at_hand(
        &mut self,
        runner: &Runner<E>,
        run: &mut LineRun,
        buffered: &Buffered,
    ) -> Result<usize, EngineFault>
        requires may_deal { may_deal self.old }
        requires may_run { E.may_run runner.now.executor.now runner.now.plan.settings.workers }
        requires begins { Begins (names self.old) (log_names run.old) }
        requires ready { IsReadyAt runner.now.plan run.old buffered.now 0 }
        ensures runs { Runs runner.now.plan buffered.now 0 run.old run.new result }
        ensures names { OnOk result (Begins (names self.new) (log_names run.new)) }
        ensures may_deal { OnOk result (may_deal self.new) };
}

/// Each line is read in its turn.
#[derive(Drop)]
pub(crate) struct InTurn;

impl<E: Executor> Dealer<E> for InTurn {
    ghost names = { λ turn. no_names };

    ghost may_deal = { λ turn. ⊤ };

    fn reader(&self, alloc: Global) -> Result<LineReader, AllocError> {
        LineReader::new(alloc)
    }

    fn deal_at_hand(
        &mut self,
        runner: &Runner<E>,
        run: &mut LineRun,
        buffered: &Buffered,
    ) -> Result<usize, EngineFault> {
        let mut raw = LineBuffers::new(runner.alloc);
        report_until(runner, run, buffered, 0, buffered.bytes.len(), &mut raw)
    }
}

/// Lines are read before their turn by further threads. What that goes by: the names of an earlier line, and how much is read.
#[derive(Drop)]
pub(crate) struct Lookahead<'r, T> {
    rt: &'r T,
    pub(crate) names: Catalog,
    ahead: ReadingAhead,
    /// Bytes that the next stretch has at most.
    stretch: usize,
    /// Pieces that are of no more use, and are filled again.
    spare: Vec<Piece>,
}

impl<'r, T> Lookahead<'r, T> {
    /// No names yet. They are found under this seed. It doesn't allocate.
    pub(crate) fn seeded(rt: &'r T, alloc: Global, ahead: ReadingAhead, seed: HashSeed) -> Self
        ensures { result.names ≡ no_names }
    {
        Lookahead {
            rt,
            names: Catalog::seeded(alloc, seed),
            ahead,
            stretch: FIRST_STRETCH_BYTES.min(ahead.stretch),
            spare: Vec::new(alloc),
        }
    }

    /// Whether some of this many bytes of whole lines are read before their turn.
    fn is_for(&self, bytes: usize) -> bool {
        self.ahead.threads > 0 && bytes >= self.ahead.least
    }

    /// How many of this many bytes the next stretch has. The one after it may have twice as many.
    fn next_stretch(&mut self, bytes: usize) -> usize
        ensures within { result ≤ bytes }
        ensures names { self.new.names ≡ self.old.names }
    {
        let stretch = self.stretch.min(bytes);
        self.stretch = self.ahead.stretch.min(self.stretch.saturating_mul(2));
        stretch
    }

    /// How many pieces a stretch of this many bytes has: some for each thread.
    fn pieces_of(&self, bytes: usize) -> usize {
        let least = self.ahead.threads.saturating_mul(2);
        (bytes / self.ahead.piece.max(1)).max(least)
    }

    /// Learns what was named. Where memory runs out it learns less.
    fn learn(&mut self, catalog: &Catalog)
        requires { Begins self.old.names catalog.now }
        ensures { Begins self.new.names catalog.now }
    {
        let _learned = self.names.catch_up(catalog);
    }
}

impl<T: Threads + Wait + Sync> Dealer<Alone> for Lookahead<'_, T> {
    ghost names = { λ lookahead. lookahead.names };

    ghost may_deal = { λ lookahead. IsSync T.row };

    fn reader(&self, alloc: Global) -> Result<LineReader, AllocError> {
        LineReader::growing(alloc)
    }

    fn deal_at_hand(
        &mut self,
        runner: &Runner<Alone>,
        run: &mut LineRun,
        buffered: &Buffered,
    ) -> Result<usize, EngineFault> {
        let len = buffered.bytes.len();
        if !self.is_for(len) {
            let mut raw = LineBuffers::new(runner.alloc);
            return report_until(runner, run, buffered, 0, len, &mut raw);
        }
        let version = run.engine.log().catalog().version();
        self.names.set_version(version);
        let to = self.next_stretch(len);
        let extent = Extent {
            to,
            pieces: self.pieces_of(to),
            threads: self.ahead.threads,
        };
        let spare = mem::replace(&mut self.spare, Vec::new(runner.alloc));
        let before = mem::replace(run, LineRun::seeded(runner.alloc, HashSeed::fixed()));
        let (ran, spare) = run_ahead::<Brand, T>(
            self.rt,
            runner,
            before,
            &self.names,
            buffered,
            &extent,
            spare,
        );
        self.spare = spare;
        let Ran { run: after, result } = ran;
        *run = after;
        let taken = result?;
        self.learn(run.engine.log().catalog());
        Ok(taken)
    }
}
