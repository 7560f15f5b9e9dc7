//! A log of which a beginning is finished.

ghost use Rattle.std.specs.Prelude.{◌≡◌, ◌≢◌, ◌<◌, ◌≤◌, ◌+◌, ◌-◌, ◌++◌, Err, IfErr, IfOk, OnErr, OnOk, false, length};
ghost use Rattle.log_batch.specs.Supplied.{log_range};
ghost use Rattle.filling.specs.Finished.{IsFinished};
ghost use Rattle.engine.specs.Known.{AreKnown, AreNamed};
ghost use Rattle.workers.specs.Faults.{IsRunFault};
ghost use Rattle.engine.specs.Running.{HasRun, IsNextRange};

use crate::commit::advance;
use crate::crew::Crew;
use crate::executing::execute;
use crate::grantees::recorded_grantees;
use crate::in_order::{run_in_order, run_next};
use crate::remembering::RememberingBook;
use crate::state::RunState;
use body::Window;
use chains::{BadMark, Chains, RowThere, Trimmed};
use filling::Finished;
use grants::Book;
use line_io::EngineFault;
use log_batch::{BatchRange, LogBatch, StateBefore};
use log_text::{LineBuffers, RawStatement, Version};
use model_base::{
    Grantee, HashSeed, Key, MOST_BATCH_STATEMENTS, MOST_PARTITIONS, MOST_PLACES, MOST_WORKERS,
    Outcome, Place, RecordName, Row, Statement, records_name_grantees,
};
use sequencer::{LogTail, Past, Refused, forget_first};
use std::alloc::{AllocError, Global};
use std::marker::Model;
use std::ops::Range;
use std::sync::Wait;
use std::thread::Threads;
use workers::{Gate, NoGate};

/// A log, the outcomes of its finished places, and what comes after these: the versions of rows and the book of grants. What was finished
/// may be forgotten, statements and outcomes both; rows and book stay.
#[derive(Drop)]
pub struct Engine {
    log: LogTail,
    state: RunState,
    past: Past<Outcome>,
    outcomes: Vec<Outcome>,
}

impl Model for Engine {
    ghost use Rattle.std.specs.Prelude.{◌++◌};
    ghost use Rattle.engine.specs.Engine.{IsRunKept, Run};

    ghost Value = { Run };

    ghost view = { λ engine. record {
      log = engine.log.log;
      store = engine.state.chains;
      book = engine.state.book;
      outcomes = engine.past.items ++ engine.outcomes.items;
      dropped = engine.log.dropped;
    } };

    ghost invariant = { λ engine. IsRunKept (record {
      log = engine.log.log;
      store = engine.state.chains;
      book = engine.state.book;
      outcomes = engine.past.items ++ engine.outcomes.items;
      dropped = engine.log.dropped;
    })
        engine.past.items };
}

/// How a batch is run.
#[derive_where(Clone, Copy)]
struct Runner<'a, T, G> {
    /// Starts the workers' threads.
    rt: &'a T,
    alloc: Global,
    crew: Crew,
    /// Is notified of each place before a worker asks for it, and by each worker once when it is done.
    gate: &'a G,
}

/// The next places of the log as a batch that isn't placed, after this state.
fn open_range<'a>(
    alloc: Global,
    log: &'a LogTail,
    state: &'a RunState,
    range: Range<Place>,
    partitions: usize,
) -> Result<LogBatch<'a>, AllocError>
    requires partitions { 0 < partitions }
    requires few { partitions ≤ MOST_PARTITIONS }
    requires next { IsNextRange log.now range.start range.end state.now }
    ensures { IfOk result (λ batch. batch ≡ log_range log.now.log range.start range.end partitions false) }
{
    let before = StateBefore {
        chains: &state.chains,
        book: state.book.book(),
    };
    let places = BatchRange {
        log,
        before,
        range,
        partitions,
    };
    LogBatch::open(alloc, places)
}

/// What the places of a range result in, which has some, after a run on shared words.
#[tactic(auto, using(crate::proofs::Executed::finished_range))]
fn execute_range<T: Threads + Wait + Sync, G: Gate + Sync>(
    runner: &Runner<'_, T, G>,
    state: &RunState,
    log: &LogTail,
    range: Range<Place>,
) -> Result<Finished, EngineFault>
    requires partitions { 0 < runner.now.crew.partitions }
    requires some { range.start < range.end }
    requires next { IsNextRange log.now range.start range.end state.now }
    requires known { AreKnown log.now.log.statements }
    ensures done { IfOk result (λ done. IsFinished log.now.log.statements range.start (range.end - range.start) state.now.book done) }
    ensures fault { IfErr result IsRunFault }
{
    let Runner {
        rt,
        alloc,
        crew,
        gate,
    } = *runner;
    let partitions = crew.partitions.min(MOST_PARTITIONS);
    let batch = open_range(alloc, log, state, range, partitions)?;
    let done = execute(rt, alloc, state.book.book(), batch, gate, crew.workers)?;
    Ok(done)
}

/// Runs the places of a range: in order, on this thread, where there is one worker, and as a batch on shared words else. Appends their
/// outcomes; the state is the one before the range's end then. After an error state and outcomes are as they were.
fn run_range<T: Threads + Wait + Sync, G: Gate + Sync>(
    runner: &Runner<'_, T, G>,
    state: &mut RunState,
    log: &LogTail,
    range: Range<Place>,
    outcomes: &mut Vec<Outcome>,
) -> Result<(), EngineFault>
    requires partitions { 0 < runner.now.crew.partitions }
    requires next { IsNextRange log.now range.start range.end state.old }
    requires known { AreKnown log.now.log.statements }
    requires named { AreNamed log.now.log.statements }
    ensures ok { OnOk result (HasRun log.now.log.statements range.start range.end state.old state.new
        outcomes.old.items outcomes.new.items) }
    ensures state { OnErr result (state.new ≡ state.old) }
    ensures outcomes { OnErr result (outcomes.new.items ≡ outcomes.old.items) }
    ensures fault { IfErr result IsRunFault }
    ensures alone { runner.now.crew.workers ≤ 1 → result ≢ Err EngineFault.Spawn }
{
    let Runner {
        rt,
        alloc,
        crew,
        gate,
    } = *runner;
    let (start, end) = (range.start, range.end);
    if crew.workers <= 1 || start == end {
        return match run_in_order(alloc, state, log, range, gate, outcomes) {
            Ok(()) => Ok(()),
            Err(_refused) => Err(EngineFault::NoMemory),
        };
    }
    let mut done = execute_range(runner, state, log, start..end)?;
    let before = outcomes.len();
    outcomes.append(&mut done.outcomes)?;
    let moved = advance(state, log, done, start..end);
    match moved {
        Ok(()) => Ok(()),
        Err(_refused) => {
            outcomes.truncate(before);
            Err(EngineFault::NoMemory)
        }
    }
}

impl Engine {
    ghost use Rattle.std.specs.Prelude.{◌↔◌, ◌⊎◌, ◌||◌, false, Option, None, Some, IfOk, OnErr, OnOk, drop, is_err, map, nat_lt};
    ghost use Rattle.std.specs.Option.{MatchOption};
    ghost use Rattle.model_base.specs.Outcomes.{deeds_before, outcome, owners, rows_before};
    ghost use Rattle.model_base.specs.RecordGrantees.{WereGranted, grantee_at};
    ghost use Rattle.chains.specs.RowsThere.{AreRowsThere};
    ghost use Rattle.chains.specs.Store.{Sweeps, Trims};
    ghost use Rattle.grants_base.specs.Book.{ShowsBook};
    ghost use Rattle.log_text.specs.LineBuffers.{sentence_of};
    ghost use Rattle.log_text.specs.Statement.{IsInGrammar, Sentence};
    ghost use Rattle.sequencer.specs.Foretelling.{IsForetold};
    ghost use Rattle.sequencer.specs.Log.{empty_log, in_version, with_accepted};
    ghost use Rattle.sequencer.specs.Pushing.{Pushes};
    ghost use Rattle.engine.specs.Engine.{IsRun, RunsNext, RunsTo, finished, may_run};

    /// An engine without places. It doesn't allocate.
    pub fn new(alloc: Global) -> Self
        ensures log { result.log ≡ empty_log }
        ensures none { finished result ≡ 0 }
        ensures mark { result.store.mark ≡ 0 }
        ensures kept { result.dropped ≡ 0 }
    {
        Engine::seeded(alloc, HashSeed::fixed())
    }

    /// An engine without places, which finds names, rows and grants under this seed. It doesn't allocate.
    pub fn seeded(alloc: Global, seed: HashSeed) -> Self
        ensures log { result.log ≡ empty_log }
        ensures none { finished result ≡ 0 }
        ensures mark { result.store.mark ≡ 0 }
        ensures kept { result.dropped ≡ 0 }
    {
        Engine {
            log: LogTail::seeded(alloc, seed),
            state: RunState {
                chains: Chains::seeded(alloc, seed),
                book: RememberingBook::seeded(alloc, seed),
            },
            past: Past::new(),
            outcomes: Vec::new(alloc),
        }
    }

    /// The log, without the statements that were dropped.
    pub fn log(&self) -> &LogTail
        ensures value { result.now.log ≡ self.now.log }
        ensures dropped { result.now.dropped ≡ self.now.dropped }
        ensures kept { self.now.dropped ≤ finished self.now }
        ensures within { finished self.now ≤ length self.now.log.statements }
    {
        &self.log
    }

    /// The book of grants: it shows the deeds before the first place that isn't finished.
    pub fn book(&self) -> &Book
        ensures value { result.now ≡ self.now.book }
        ensures shows { ShowsBook self.now.book (owners self.now.log.statements)
            (deeds_before self.now.log.statements (finished self.now)) }
    {
        self.state.book.book()
    }

    /// How many places are finished: all below this one. Outcomes, rows and book are those of the log so far.
    pub fn finished(&self) -> Place
        ensures count { result ≡ finished self.now }
        ensures run { IsRun self.now }
    {
        let _len = self.log.len();
        self.log.dropped() + self.outcomes.len() as u64
    }

    /// The first place before which the rows are kept.
    pub fn mark(&self) -> Place
        ensures value { result ≡ self.now.store.mark }
        ensures within { self.now.store.mark ≤ finished self.now }
    {
        self.state.chains.mark()
    }

    /// Sets the version of the log. The places stay as they are.
    pub fn set_version(&mut self, version: Version)
        ensures { self.new ≡ record self.old { log = in_version version self.old.log } }
    {
        self.log.set_version(version);
    }

    /// Takes a statement as the next place, as the log does. After a refusal the engine is as it was. Its accesses and steps take the
    /// memory of a statement that was forgotten, where that is enough.
    #[inline(always)]
    pub fn push(&mut self, statement: &RawStatement<'_>) -> Result<Place, Refused>
        ensures { Pushes self.old.log statement.now result self.old self.new
            (record self.old { log = with_accepted self.old.log statement.now }) }
    {
        let _dropped = self.log.dropped();
        self.log.push(statement)
    }

    /// Takes the statement that a line was read as, as `push`, from where it stays.
    #[inline(always)]
    pub fn push_read(&mut self, read: &LineBuffers<'_>) -> Result<Place, Refused>
        requires { IsInGrammar (sentence_of read.now) }
        ensures { Pushes self.old.log (sentence_of read.now) result self.old self.new
            (record self.old { log = with_accepted self.old.log (sentence_of read.now) }) }
    {
        let _dropped = self.log.dropped();
        self.log.push_read(read)
    }

    /// To whom the grants of some records were made, in order. A record that isn't in the book is passed over. The time for each grows with
    /// the logarithm of the number of grants. An error means out of memory.
    pub fn grantees_of(
        &self,
        alloc: Global,
        names: &[RecordName],
    ) -> Result<Vec<Grantee>, AllocError>
        ensures { IfOk result (λ found. WereGranted self.now.log.statements (finished self.now) names.now
            → map (grantee_at self.now.log.statements) names.now ≡ map Some found.items) }
    {
        records_name_grantees();
        let book = self.book();
        recorded_grantees(alloc, book.records(), names)
    }

    /// Runs the next places of the log, up to this one, as a batch: by one worker in order, on this thread. The gate is notified of each
    /// place, and by each worker when it is done. After an error the batch can be run again.
    pub fn run_to<T: Threads + Wait + Sync, G: Gate + Sync>(
        &mut self,
        rt: &T,
        alloc: Global,
        end: Place,
        crew: Crew,
        gate: &G,
    ) -> Result<(), EngineFault>
        requires partitions { 0 < crew.partitions }
        requires order { finished self.old ≤ end }
        requires within { end ≤ length self.old.log.statements }
        ensures runs { RunsTo end result self.old self.new }
        ensures fault { IfErr result IsRunFault }
        // One worker starts no thread.
        ensures alone { crew.workers ≤ 1 → result ≢ Err EngineFault.Spawn }
    {
        let start = self.finished();
        let _len = self.log.len();
        let runner = Runner {
            rt,
            alloc,
            crew,
            gate,
        };
        run_range(
            &runner,
            &mut self.state,
            &self.log,
            start..end,
            &mut self.outcomes,
        )?;
        Ok(())
    }

    /// Runs the next places of the log, up to this one, in order and on this thread: as `run_to` by one worker, which needs no thread. On
    /// `Err`, out of memory; the engine is as it was.
    pub fn run_alone(&mut self, alloc: Global, end: Place) -> Result<(), AllocError>
        requires order { finished self.old ≤ end }
        requires within { end ≤ length self.old.log.statements }
        ensures { RunsTo end result self.old self.new }
    {
        let start = self.finished();
        let _len = self.log.len();
        run_in_order(
            alloc,
            &mut self.state,
            &self.log,
            start..end,
            &NoGate,
            &mut self.outcomes,
        )?;
        Ok(())
    }

    /// Takes a statement that was foretold as the next place and runs it, from where it stays: neither it nor its outcome is kept. Nothing
    /// finished is kept before it, and nothing waits. On `Err`, out of memory; the engine is as it was.
    pub fn run_foretold(
        &mut self,
        alloc: Global,
        statement: &Statement,
        window: &mut Window,
    ) -> Result<Outcome, AllocError>
        requires none { self.old.dropped ≡ length self.old.log.statements }
        requires place { length self.old.log.statements < MOST_PLACES }
        requires foretold { (sentence : Sentence) × (IsInGrammar sentence × IsForetold self.old.log.names sentence statement.now) }
        ensures runs { IfOk result (λ found. (sentence : Sentence) → IsForetold self.old.log.names sentence statement.now
            → RunsNext sentence found self.old self.new) }
        ensures err { OnErr result (self.new ≡ self.old) }
    {
        let _dropped = self.log.dropped();
        let found = run_next(alloc, &mut self.state, window, &self.log, statement)?;
        self.log.pass_foretold(statement);
        self.past = self.past.with(&found);
        Ok(found)
    }

    /// Whether the range may be run as the next batch, by this many workers and placers: it begins at `finished`, lies in the log and has 1
    /// to `MOST_BATCH_STATEMENTS` places, and there are 1 to `MOST_WORKERS` workers and 1 to `MOST_PARTITIONS` partitions.
    pub fn may_run(&self, range: &Range<Place>, crew: Crew) -> bool
        ensures { result ≡ may_run self.now range.now.start range.now.end crew }
    {
        let (start, end) = (range.start, range.end);
        let len = self.log.len();
        start == self.log.dropped() + self.outcomes.len() as u64
            && (start < end && end <= len && end - start <= MOST_BATCH_STATEMENTS)
            && (1 <= crew.workers && crew.workers <= MOST_WORKERS)
            && (1 <= crew.partitions && crew.partitions <= MOST_PARTITIONS)
    }

    /// Runs the range as the next batch, as `run_to`, where `may_run` allows it. `Spawn` says that a worker's thread could not be started.
    /// After an error the batch can be run again.
    pub fn run_batch<T: Threads + Wait + Sync, G: Gate + Sync>(
        &mut self,
        rt: &T,
        alloc: Global,
        range: Range<Place>,
        crew: Crew,
        gate: &G,
    ) -> Result<(), EngineFault>
        ensures bad { (result ≡ Err EngineFault.BadSettings) ↔ (may_run self.old range.start range.end crew ≡ false) }
        ensures fault { IfErr result (λ f. (f ≡ EngineFault.BadSettings) ⊎ IsRunFault f) }
        ensures alone { crew.workers ≤ 1 → result ≢ Err EngineFault.Spawn }
        ensures runs { RunsTo range.end result self.old self.new }
    {
        if !self.may_run(&range, crew) {
            return Err(EngineFault::BadSettings);
        }
        self.run_to(rt, alloc, range.end, crew, gate)?;
        Ok(())
    }

    /// Drops the statements and the outcomes of the places that are finished. It doesn't allocate, and costs what there is to drop. Where
    /// no place is left after them, later statements take the memory of the dropped ones.
    pub fn forget(&mut self)
        ensures { self.new ≡ record self.old { dropped = finished self.old } }
    {
        let len = self.log.len();
        let count = self.outcomes.len();
        let end = self.log.dropped() + count as u64;
        if end == len {
            self.log.forget_all();
        } else {
            self.log.forget(end);
        }
        forget_first(&mut self.past, &mut self.outcomes, count);
    }

    /// Drops the statements and the outcomes of the places below this one. It doesn't allocate, and costs what there is to drop and to
    /// move.
    pub fn forget_to(&mut self, place: Place)
        requires order { self.old.dropped ≤ place }
        requires within { place ≤ finished self.old }
        ensures { self.new ≡ record self.old { dropped = place } }
    {
        let _finished = self.finished();
        let count = (place - self.log.dropped()) as usize;
        self.log.forget(place);
        forget_first(&mut self.past, &mut self.outcomes, count);
    }

    /// The outcome of a place that is finished, which is the log's; `None` exactly from `finished` on, and below the first place that
    /// wasn't forgotten.
    pub fn outcome(&self, place: Place) -> Option<&Outcome>
        ensures { MatchOption result ((finished self.now ≤ place) ⊎ (place < self.now.dropped))
            (λ found. (self.now.dropped ≤ place) × (place < finished self.now) × (outcome self.now.log.statements place ≡ Some found.now)) }
    {
        let dropped = self.log.dropped();
        if place < dropped {
            return None;
        }
        let index = (place - dropped) as usize;
        if index < self.outcomes.len() {
            Some(&self.outcomes[index])
        } else {
            None
        }
    }

    /// The outcomes that are kept, in order: the first of them is that of the first place that wasn't forgotten.
    pub fn kept_outcomes(&self) -> &[Outcome]
        ensures { result.now ≡ drop self.now.dropped self.now.outcomes }
    {
        &self.outcomes
    }

    /// The row of a key before a place that is finished, or is the next one: the log's. `Trimmed` is returned exactly where the place lies
    /// below the mark. It doesn't allocate.
    pub fn row_before(&self, place: Place, key: Key) -> Result<Option<Row>, Trimmed>
        requires { place ≤ finished self.now }
        ensures trimmed { is_err result ≡ nat_lt place self.now.store.mark }
        ensures value { IfOk result (λ row. row ≡ rows_before self.now.log.statements place key.table key.row) }
    {
        self.state.chains.row_before(place, key)
    }

    /// The rows that are there before the first place that isn't finished, by table and then by number. It costs what the store holds, and
    /// on `Err` memory was refused.
    pub fn rows_there(&self, alloc: Global) -> Result<Vec<RowThere>, AllocError>
        ensures { IfOk result (λ found. AreRowsThere (rows_before self.now.log.statements (finished self.now)) found.items) }
    {
        let _mark = self.state.chains.mark();
        self.state.chains.rows_there(alloc)
    }

    /// Drops the versions of rows that only places below the mark can read, and returns how many they were. It doesn't allocate, and costs
    /// what it drops.
    pub fn trim(&mut self, mark: Place) -> Result<usize, BadMark>
        ensures bad { is_err result ≡ (nat_lt mark self.old.store.mark || nat_lt (finished self.old) mark) }
        ensures ok { IfOk result (λ gone. Trims self.old.store self.new.store mark gone) }
        ensures rest { self.new ≡ record self.old { store = self.new.store } }
        ensures err { OnErr result (self.new ≡ self.old) }
    {
        self.state.chains.trim(mark)
    }

    /// Takes out the versions that say nothing: those below the mark that are the only ones of their keys, and in which the row is absent.
    /// It returns how many they were. What is known of rows stays the same. It doesn't allocate.
    pub fn sweep(&mut self) -> usize
        ensures swept { Sweeps self.old.store self.new.store result }
        ensures rest { self.new ≡ record self.old { store = self.new.store } }
    {
        self.state.chains.sweep()
    }
}
