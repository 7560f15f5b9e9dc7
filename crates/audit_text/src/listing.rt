//! The rows before a place of the text of a log, listed.

ghost use Rattle.std.specs.Prelude.{◌≡◌, ◌⊎◌, ℕ, List, Err, IfErr, IfOk, IfSome, OnOk, length, option_map, true};
ghost use Rattle.std.specs.Io.KnownBytes.{Appends};
ghost use Rattle.line_io.specs.Failures.{CountsFailures};
ghost use Rattle.line_io.specs.Faults.{IsOfReading};
ghost use Rattle.line_io.specs.Known.{AppendsFront, raised};
ghost use Rattle.line_io.specs.declared.fault.EngineFault.{EngineFault};
ghost use Rattle.engine.specs.Engine.{finished};
ghost use Rattle.audit_text.specs.Faults.{IsOfAnswer};
ghost use Rattle.audit_text.specs.Picture.{EndsBefore};
ghost use Rattle.audit_text.specs.RowsBefore.{IsLogBefore, IsRows, IsRunBefore, LacksTable};
ghost use Rattle.audit_text.specs.RowsText.{HasNoTable, ListsRows};
ghost use Rattle.audit_text.specs.Texts.{SaysText};
ghost use Rattle.audit_text.specs.declared.fault.WorkFault.{WorkFault};

use crate::fault::WorkFault;
use crate::rows::put_rows_there;
use crate::writing::write_text;
use batched_text::run_quietly_to;
use engine::Engine;
use line_io::{Counted, EngineFault};
use model_base::{HashSeed, Place};
use std::alloc::Global;
use std::io::{Read, Write};

/// Runs a log up to the place before this one, or to its end. For place 0 nothing is read.
fn run_front<R: Read>(
    alloc: Global,
    reader: &mut Counted<R>,
    limit: Option<Place>,
    seed: HashSeed,
) -> Result<Engine, EngineFault>
    ensures log { IfOk result (λ engine. IsRunBefore (R.remaining reader.old.inner) limit engine.log) }
    ensures all { IfOk result (λ engine. finished engine ≡ length engine.log.statements) }
    ensures fault { IfErr result IsOfReading }
    ensures read { result ≡ Err EngineFault.Read → reader.new.errors ≡ raised reader.old.errors }
    ensures other { (result ≡ Err EngineFault.Read → ⊥) → reader.new.errors ≡ reader.old.errors }
{
    match limit {
        None => run_quietly_to(alloc, reader, None, seed),
        Some(place) => match place.checked_sub(1) {
            None => Ok(Engine::seeded(alloc, seed)),
            Some(last) => run_quietly_to(alloc, reader, Some(last), seed),
        },
    }
}

/// Runs what stands before a place of a log, or all of it. `NoSuchPlace` says that the log ends before the place.
pub fn run_before<R: Read>(
    alloc: Global,
    reader: &mut Counted<R>,
    limit: Option<Place>,
    seed: HashSeed,
) -> Result<Engine, WorkFault>
    ensures log { IfOk result (λ engine. IfSome (R.remaining reader.old.inner) (λ input. IsLogBefore input limit engine.log)) }
    ensures all { IfOk result (λ engine. finished engine ≡ length engine.log.statements) }
    ensures none { (places : ℕ) → result ≡ Err (WorkFault.NoSuchPlace places)
        → IfSome (R.remaining reader.old.inner) (λ input. EndsBefore input limit places) }
    ensures table { result ≡ Err WorkFault.NoSuchTable → ⊥ }
    ensures read { result ≡ Err (WorkFault.Run EngineFault.Read) → reader.new.errors ≡ raised reader.old.errors }
    ensures write { result ≡ Err (WorkFault.Run EngineFault.Write) → ⊥ }
    ensures other { (result ≡ Err (WorkFault.Run EngineFault.Read) → ⊥) → reader.new.errors ≡ reader.old.errors }
    ensures alone { IfErr result IsOfAnswer }
{
    let engine = run_front(alloc, reader, limit, seed)?;
    let len = engine.log().len();
    let place = limit.unwrap_or(len);
    if len < place {
        return Err(WorkFault::NoSuchPlace(len));
    }
    Ok(engine)
}

/// Writes the rows that are there at the end of a log that is run, and flushes the writer.
fn write_rows<W: Write>(
    alloc: Global,
    writer: &mut Counted<W>,
    engine: &Engine,
    name: Option<&str>,
) -> Result<(), WorkFault>
    requires all { finished engine.now ≡ length engine.now.log.statements }
    ensures done { OnOk result ((text : List ℕ) × (ListsRows engine.now.log (option_map (λ name. name.now) name.entry) text
        × Appends (W.contents writer.old.inner) (W.contents writer.new.inner) text)) }
    ensures begun { (W.contents writer.new.inner ≡ W.contents writer.old.inner) ⊎ ((text : List ℕ)
        × (ListsRows engine.now.log (option_map (λ name. name.now) name.entry) text
        × AppendsFront (W.contents writer.old.inner) (W.contents writer.new.inner) text)) }
    ensures none { result ≡ Err WorkFault.NoSuchTable → (writer.new ≡ writer.old)
        × HasNoTable engine.now.log.names.tables (option_map (λ name. name.now) name.entry) }
    ensures place { (places : ℕ) → result ≡ Err (WorkFault.NoSuchPlace places) → ⊥ }
    ensures read { result ≡ Err (WorkFault.Run EngineFault.Read) → ⊥ }
    ensures write { result ≡ Err (WorkFault.Run EngineFault.Write) → writer.new.errors ≡ raised writer.old.errors }
    ensures whole { OnOk result (writer.new.errors ≡ writer.old.errors) }
    ensures flushed { OnOk result ((writer.new.flushes ≡ raised writer.old.flushes) × (writer.new.is_flushed ≡ true)) }
    ensures alone { IfErr result IsOfAnswer }
{
    let mut text = Vec::new(alloc);
    put_rows_there(alloc, &mut text, engine, name)?;
    write_text(writer, &text)?;
    Ok(())
}

/// Writes the rows before a place of a log, or at its end: of the table of a name, or of all. What comes after the line of the place before
/// isn't taken.
pub fn rows_text<R: Read, W: Write>(
    alloc: Global,
    reader: &mut Counted<R>,
    writer: &mut Counted<W>,
    name: Option<&str>,
    limit: Option<Place>,
    seed: HashSeed,
) -> Result<(), WorkFault>
    // What was written is the rows that are there before the place. After a fault it is a beginning of them, or nothing.
    ensures text { SaysText (λ input text. IsRows input (option_map (λ name. name.now) name.entry) limit text)
        (R.remaining reader.old.inner) (W.contents writer.old.inner) (W.contents writer.new.inner) result }
    // NoSuchPlace comes only where the log of the text has that many places and ends before the place, and nothing is written then.
    ensures none { (places : ℕ) → result ≡ Err (WorkFault.NoSuchPlace places)
        → (writer.new ≡ writer.old) × IfSome (R.remaining reader.old.inner) (λ input. EndsBefore input limit places) }
    // NoSuchTable comes only where no statement before the place creates a table of the name, and nothing is written then.
    ensures table { result ≡ Err WorkFault.NoSuchTable → (writer.new ≡ writer.old)
        × IfSome (R.remaining reader.old.inner) (λ input. LacksTable input (option_map (λ name. name.now) name.entry) limit) }
    // Read and Write come only where the reader or the writer failed. Ok says that neither did, and that the writer was flushed at the end.
    ensures failures { CountsFailures (WorkFault.Run EngineFault.Read) (WorkFault.Run EngineFault.Write)
        reader.old reader.new writer.old writer.new result }
    // The run has no settings, and starts no thread.
    ensures alone { IfErr result IsOfAnswer }
{
    let engine = run_before(alloc, reader, limit, seed)?;
    write_rows(alloc, writer, &engine, name)
}
