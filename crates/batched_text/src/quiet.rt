//! A log that is run batch by batch, without a report, and looked at between two batches.

ghost use Rattle.std.specs.Prelude.{◌≡◌, ◌<◌, ◌≤◌, ◌+◌, ◌⊎◌, ℕ, [], Err, IfErr, IfOk, List, MatchBool, Ok, OnOk, Option, false, length, true, unwrap_or};
ghost use Rattle.std.specs.Io.KnownBytes.{prepend_known};
ghost use Rattle.line_io.specs.Ahead.{ahead};
ghost use Rattle.line_io.specs.Faults.{IsOfReading};
ghost use Rattle.line_io.specs.Known.{raised};
ghost use Rattle.sequencer.specs.Log.{empty_log};
ghost use Rattle.sequencer.specs.Whole.{IsWhole};
ghost use Rattle.engine.specs.Engine.{finished};
ghost use Rattle.batched_text.specs.Reaching.{EndsTaking, HasTaken};
ghost use Rattle.batched_text.specs.Sweeping.{IsSwept};

use crate::reaching::{run_some, take_first};
use crate::settings::QUIET_BATCH;
use engine::Engine;
use line_io::{BUFFER_BYTES, Counted, EngineFault, LineReader, MOST_GIVEN_BYTES};
use model_base::{HashSeed, MOST_PLACES, Place};
use std::alloc::Global;
use std::io::Read;

/// A log that is read and run in order, batch by batch, up to the line of a place or to its end. Statements and outcomes of a batch are kept
/// until the next one.
#[derive(Drop)]
pub struct QuietRun {
    pub(crate) engine: Engine,
    lines: LineReader,
    /// The place that the log is read up to.
    last: Place,
    /// Whether neither the place nor the end of the log was reached yet.
    goes_on: bool,
}

/// Takes the first line of a log, and then runs its first batch, as `run_some`.
fn run_first<R: Read>(
    alloc: Global,
    reader: &mut Counted<R>,
    lines: &mut LineReader,
    engine: &mut Engine,
    place: Place,
) -> Result<bool, EngineFault>
    requires first { engine.old.log ≡ empty_log }
    requires ahead { ahead lines.old ≡ [] }
    requires none { engine.old.dropped ≡ 0 }
    requires unrun { finished engine.old ≡ 0 }
    requires mark { engine.old.store.mark ≡ 0 }
    ensures taken { IfOk result (λ more. MatchBool more
        (HasTaken false (R.remaining reader.old.inner) (prepend_known (ahead lines.new) (R.remaining reader.new.inner)) place
        engine.new.log)
        (EndsTaking (R.remaining reader.old.inner) place engine.new.log)) }
    ensures more { result ≡ Ok true → finished engine.new ≤ place }
    ensures all { OnOk result (finished engine.new ≡ length engine.new.log.statements) }
    ensures kept { OnOk result (engine.new.dropped ≡ 0) }
    ensures mark { OnOk result (engine.new.store.mark ≡ finished engine.new) }
    ensures swept { OnOk result (IsSwept engine.new.store) }
    ensures few { OnOk result (finished engine.new ≤ QUIET_BATCH) }
    ensures bound { 0 < length (ahead lines.new) → reader.new.given ≤ MOST_GIVEN_BYTES + BUFFER_BYTES }
    ensures fault { IfErr result IsOfReading }
    ensures read { result ≡ Err EngineFault.Read → reader.new.errors ≡ raised reader.old.errors }
    ensures other { (result ≡ Err EngineFault.Read → ⊥) → reader.new.errors ≡ reader.old.errors }
{
    if !take_first(alloc, reader, lines, engine)? {
        return Ok(false);
    }
    run_some(alloc, reader, lines, engine, place)
}

impl QuietRun {
    ghost use Rattle.batched_text.specs.Quiet.{IsBetween, IsRunOf, left_to_run};

    /// Runs the first batch of a log that is read up to the line of a place, or to its end.
    pub fn begin<R: Read>(
        alloc: Global,
        reader: &mut Counted<R>,
        limit: Option<Place>,
        seed: HashSeed,
    ) -> Result<Self, EngineFault>
        ensures between { IfOk result (λ run. IsBetween run reader.new.given) }
        ensures of { IfOk result (λ run. IsRunOf (R.remaining reader.old.inner) (R.remaining reader.new.inner) run) }
        ensures last { IfOk result (λ run. run.last ≡ unwrap_or limit MOST_PLACES) }
        ensures kept { IfOk result (λ run. run.engine.dropped ≡ 0) }
        ensures fault { IfErr result IsOfReading }
        // Read says that the reader failed, and nothing else does.
        ensures read { result ≡ Err EngineFault.Read → reader.new.errors ≡ raised reader.old.errors }
        ensures other { (result ≡ Err EngineFault.Read → ⊥) → reader.new.errors ≡ reader.old.errors }
    {
        let last = limit.unwrap_or(MOST_PLACES);
        let mut lines = LineReader::new(alloc)?;
        let mut engine = Engine::seeded(alloc, seed);
        let goes_on = run_first(alloc, reader, &mut lines, &mut engine, last)?;
        let _len = engine.log().len();
        let _dropped = engine.log().dropped();
        Ok(QuietRun {
            engine,
            lines,
            last,
            goes_on,
        })
    }

    /// The engine, with what is kept of the log so far: all of that is finished.
    pub fn engine(&self) -> &Engine
        ensures { result.now ≡ self.now.engine }
    {
        &self.engine
    }

    /// The engine, without the run.
    pub(crate) fn into_engine(self) -> Engine
        ensures { result ≡ self.engine }
    {
        self.engine
    }

    /// Forgets the last batch and runs the next one. False where the place or the end of the log was reached.
    pub fn next<R: Read>(
        &mut self,
        alloc: Global,
        reader: &mut Counted<R>,
    ) -> Result<bool, EngineFault>
        requires between { IsBetween self.old reader.old.given }
        ensures between { OnOk result (IsBetween self.new reader.new.given) }
        ensures of { OnOk result ((input : Option (List ℕ)) → IsRunOf input (R.remaining reader.old.inner) self.old
            → IsRunOf input (R.remaining reader.new.inner) self.new) }
        ensures batch { result ≡ Ok true → self.new.engine.dropped ≡ finished self.old.engine }
        ensures order { OnOk result (finished self.old.engine ≤ finished self.new.engine) }
        ensures fewer { result ≡ Ok true → left_to_run self.new < left_to_run self.old }
        ensures ended { result ≡ Ok false → (self.new ≡ self.old) × (self.new.goes_on ≡ false) }
        ensures last { self.new.last ≡ self.old.last }
        ensures fault { IfErr result IsOfReading }
        // Read says that the reader failed, and nothing else does.
        ensures read { result ≡ Err EngineFault.Read → reader.new.errors ≡ raised reader.old.errors }
        ensures other { (result ≡ Err EngineFault.Read → ⊥) → reader.new.errors ≡ reader.old.errors }
    {
        if !self.goes_on {
            return Ok(false);
        }
        self.engine.forget();
        self.goes_on = run_some(alloc, reader, &mut self.lines, &mut self.engine, self.last)?;
        let _len = self.engine.log().len();
        let _dropped = self.engine.log().dropped();
        Ok(true)
    }

    /// Runs batches until the place is finished, or there are no more.
    pub fn reach<R: Read>(
        &mut self,
        alloc: Global,
        reader: &mut Counted<R>,
        place: Place,
    ) -> Result<(), EngineFault>
        requires between { IsBetween self.old reader.old.given }
        requires kept { self.old.engine.dropped ≤ place }
        ensures between { OnOk result (IsBetween self.new reader.new.given) }
        ensures of { OnOk result ((input : Option (List ℕ)) → IsRunOf input (R.remaining reader.old.inner) self.old
            → IsRunOf input (R.remaining reader.new.inner) self.new) }
        ensures kept { OnOk result (self.new.engine.dropped ≤ place) }
        ensures reached { OnOk result ((place < finished self.new.engine) ⊎ (self.new.goes_on ≡ false)) }
        ensures last { self.new.last ≡ self.old.last }
        ensures fault { IfErr result IsOfReading }
        // Read says that the reader failed, and nothing else does.
        ensures read { result ≡ Err EngineFault.Read → reader.new.errors ≡ raised reader.old.errors }
        ensures other { (result ≡ Err EngineFault.Read → ⊥) → reader.new.errors ≡ reader.old.errors }
    {
        'batches: while self.engine.finished() <= place {
            if !self.next(alloc, reader)? {
                return Ok(());
            }
        }
        Ok(())
    }
}
