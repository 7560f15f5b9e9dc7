//! A log that is read and run up to a place, and of which no report is made.

ghost use Rattle.std.specs.Prelude.{◌≡◌, ◌<◌, ◌≤◌, ◌+◌, ◌⊎◌, ℕ, [], Err, IfErr, IfOk, IfSome, List, MatchBool, Ok, OnOk, Option, false, length, true};
ghost use Rattle.std.specs.Io.KnownBytes.{prepend_known};
ghost use Rattle.line_io.specs.Ahead.{ahead};
ghost use Rattle.line_io.specs.Faults.{IsOfReading};
ghost use Rattle.line_io.specs.Known.{raised};
ghost use Rattle.report.specs.Report.{ParsedLine};
ghost use Rattle.sequencer.specs.Log.{empty_log};
ghost use Rattle.sequencer.specs.Whole.{IsWhole};
ghost use Rattle.bohm_base.specs.Collecting.{ReadsAs, with_reading};
ghost use Rattle.engine.specs.Engine.{finished};
ghost use Rattle.batched_text.specs.Reaching.{EndsTaking, HasTaken, IsLogUpTo};
ghost use Rattle.batched_text.specs.Sweeping.{IsSwept};

use crate::line_run::run_batch;
use crate::quiet::QuietRun;
use crate::runner::{Alone, Runner};
use crate::settings::QUIET_BATCH;
use bohm_base::take_text;
use engine::Engine;
use line_io::{BUFFER_BYTES, Counted, EngineFault, LineReader, MOST_GIVEN_BYTES};
use log_text::LineBuffers;
use model_base::{HashSeed, MOST_PLACES, Place};
use std::alloc::Global;
use std::io::Read;

/// Takes a line into the log, as `take_text`.
fn take_quietly(
    alloc: Global,
    engine: &mut Engine,
    line: &[u8],
    is_first: bool,
) -> Result<(), EngineFault>
    ensures ok { OnOk result ((reading : ParsedLine) × (ReadsAs is_first engine.old.log.names.version line.now reading
        × (engine.new ≡ record engine.old { log = with_reading engine.old.log reading }))) }
    ensures err { IfErr result (λ f. f ≡ EngineFault.NoMemory) }
{
    let mut raw = LineBuffers::new(alloc);
    take_text(engine, line, is_first, &mut raw)?;
    Ok(())
}

/// Takes the first line of a log. False where the input has none.
pub(crate) fn take_first<R: Read>(
    alloc: Global,
    reader: &mut Counted<R>,
    lines: &mut LineReader,
    engine: &mut Engine,
) -> Result<bool, EngineFault>
    requires first { engine.old.log ≡ empty_log }
    requires ahead { ahead lines.old ≡ [] }
    ensures taken { IfOk result (λ more. (place : ℕ) → MatchBool more
        (HasTaken false (R.remaining reader.old.inner) (prepend_known (ahead lines.new) (R.remaining reader.new.inner))
        place engine.new.log)
        (EndsTaking (R.remaining reader.old.inner) place engine.new.log)) }
    ensures none { result ≡ Ok false → engine.new ≡ engine.old }
    ensures one { OnOk result (length engine.new.log.statements ≤ 1) }
    ensures unrun { OnOk result (finished engine.new ≡ finished engine.old) }
    ensures kept { OnOk result (engine.new.dropped ≡ engine.old.dropped) }
    ensures store { OnOk result (engine.new.store ≡ engine.old.store) }
    ensures bound { 0 < length (ahead lines.new) → reader.new.given ≤ MOST_GIVEN_BYTES + BUFFER_BYTES }
    ensures fault { IfErr result IsOfReading }
    ensures read { result ≡ Err EngineFault.Read → reader.new.errors ≡ raised reader.old.errors }
    ensures other { (result ≡ Err EngineFault.Read → ⊥) → reader.new.errors ≡ reader.old.errors }
{
    if !lines.next_line(reader)? {
        return Ok(false);
    }
    take_quietly(alloc, engine, lines.line(), true)?;
    Ok(true)
}

/// Takes lines after the first into the log until it has a place. False where the input ended before.
fn take_until<R: Read>(
    alloc: Global,
    reader: &mut Counted<R>,
    lines: &mut LineReader,
    engine: &mut Engine,
    place: Place,
) -> Result<bool, EngineFault>
    requires { 0 < length (ahead lines.old) → reader.old.given ≤ MOST_GIVEN_BYTES + BUFFER_BYTES }
    ensures taken { IfOk result (λ more. (input : Option (List ℕ)) (end : ℕ) → place ≤ end
        → HasTaken false input (prepend_known (ahead lines.old) (R.remaining reader.old.inner)) end engine.old.log
        → MatchBool more
        ((place < length engine.new.log.statements)
        × HasTaken false input (prepend_known (ahead lines.new) (R.remaining reader.new.inner)) end engine.new.log)
        (EndsTaking input end engine.new.log)) }
    ensures more { result ≡ Ok true → place < length engine.new.log.statements }
    ensures most { OnOk result ((length engine.new.log.statements ≤ length engine.old.log.statements)
        ⊎ (length engine.new.log.statements ≤ place + 1)) }
    ensures none { OnOk result (finished engine.new ≡ finished engine.old) }
    ensures kept { OnOk result (engine.new.dropped ≡ engine.old.dropped) }
    ensures store { OnOk result (engine.new.store ≡ engine.old.store) }
    ensures bound { 0 < length (ahead lines.new) → reader.new.given ≤ MOST_GIVEN_BYTES + BUFFER_BYTES }
    ensures fault { IfErr result IsOfReading }
    ensures read { result ≡ Err EngineFault.Read → reader.new.errors ≡ raised reader.old.errors }
    ensures other { (result ≡ Err EngineFault.Read → ⊥) → reader.new.errors ≡ reader.old.errors }
{
    'lines: while engine.log().len() <= place {
        if !lines.next_line(reader)? {
            return Ok(false);
        }
        take_quietly(alloc, engine, lines.line(), false)?;
    }
    Ok(true)
}

/// Takes lines after the first until the log has a place, but no more than a batch of them, and runs the places that wait. False once the
/// log has the place, or has all lines of the input.
pub(crate) fn run_some<R: Read>(
    alloc: Global,
    reader: &mut Counted<R>,
    lines: &mut LineReader,
    engine: &mut Engine,
    place: Place,
) -> Result<bool, EngineFault>
    requires bound { 0 < length (ahead lines.old) → reader.old.given ≤ MOST_GIVEN_BYTES + BUFFER_BYTES }
    requires mark { engine.old.store.mark ≡ finished engine.old }
    requires swept { IsSwept engine.old.store }
    requires one { length engine.old.log.statements ≤ finished engine.old + 1 }
    ensures taken { IfOk result (λ more. (input : Option (List ℕ))
        → HasTaken false input (prepend_known (ahead lines.old) (R.remaining reader.old.inner)) place engine.old.log
        → MatchBool more
        (HasTaken false input (prepend_known (ahead lines.new) (R.remaining reader.new.inner)) place engine.new.log)
        (EndsTaking input place engine.new.log)) }
    ensures more { result ≡ Ok true → (finished engine.old < finished engine.new) × (finished engine.new ≤ place) }
    ensures mark { OnOk result (engine.new.store.mark ≡ finished engine.new) }
    ensures swept { OnOk result (IsSwept engine.new.store) }
    ensures few { OnOk result (finished engine.new ≤ finished engine.old + QUIET_BATCH) }
    ensures all { OnOk result (finished engine.new ≡ length engine.new.log.statements) }
    ensures kept { OnOk result (engine.new.dropped ≡ engine.old.dropped) }
    ensures bound { 0 < length (ahead lines.new) → reader.new.given ≤ MOST_GIVEN_BYTES + BUFFER_BYTES }
    ensures fault { IfErr result IsOfReading }
    ensures read { result ≡ Err EngineFault.Read → reader.new.errors ≡ raised reader.old.errors }
    ensures other { (result ≡ Err EngineFault.Read → ⊥) → reader.new.errors ≡ reader.old.errors }
{
    let last = place.min(engine.finished().saturating_add(QUIET_BATCH - 1));
    let more = take_until(alloc, reader, lines, engine, last)?;
    let _len = engine.log().len();
    run_batch(&Runner::quiet(&Alone, alloc), engine)?;
    let goes_on = engine.finished() <= place;
    Ok(more & goes_on)
}

/// Reads a log up to the line of a place, or to its end, and runs it in order in batches of 1,024 places, without a report. It starts no
/// thread. No line after the place's is taken.
pub fn run_quietly_to<R: Read>(
    alloc: Global,
    reader: &mut Counted<R>,
    limit: Option<Place>,
    seed: HashSeed,
) -> Result<Engine, EngineFault>
    // The engine has the log of what was read up to the place, or all of it, and all of that is finished.
    ensures log { IfOk result (λ engine. IsLogUpTo (R.remaining reader.old.inner) limit engine.log) }
    ensures all { IfOk result (λ engine. finished engine ≡ length engine.log.statements) }
    ensures whole { IfOk result (λ engine. IsWhole engine.log) }
    // The place's statement and outcome aren't dropped.
    ensures kept { IfOk result (λ engine. IfSome limit (λ place. engine.dropped ≤ place)) }
    // No rows before its end are kept, nor versions but those that rows come from, nor statements and outcomes of more than a batch.
    ensures trimmed { IfOk result (λ engine. engine.store.mark ≡ finished engine) }
    ensures swept { IfOk result (λ engine. IsSwept engine.store) }
    ensures few { IfOk result (λ engine. finished engine ≤ engine.dropped + QUIET_BATCH) }
    ensures fault { IfErr result IsOfReading }
    // Read says that the reader failed, and nothing else does.
    ensures read { result ≡ Err EngineFault.Read → reader.new.errors ≡ raised reader.old.errors }
    ensures other { (result ≡ Err EngineFault.Read → ⊥) → reader.new.errors ≡ reader.old.errors }
{
    let mut run = QuietRun::begin(alloc, reader, limit, seed)?;
    'batches: while run.next(alloc, reader)? {}
    let engine = run.into_engine();
    let _len = engine.log().len();
    Ok(engine)
}
