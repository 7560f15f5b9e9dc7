//! The grants in force before a place of the text of a log, as a picture.

ghost use Rattle.std.specs.Prelude.{◌≡◌, ◌<◌, ◌⊎◌, [], ℕ, List, Err, IfErr, IfSome, OnOk, length, true};
ghost use Rattle.std.specs.Io.KnownBytes.{Appends};
ghost use Rattle.line_io.specs.Failures.{CountsFailures};
ghost use Rattle.line_io.specs.Known.{AppendsFront, raised};
ghost use Rattle.line_io.specs.declared.fault.EngineFault.{EngineFault};
ghost use Rattle.engine.specs.Engine.{finished};
ghost use Rattle.audit_text.specs.Picture.{EndsBefore, IsPicture, IsPictureOf, place_before};
ghost use Rattle.audit_text.specs.Faults.{IsOfPlace};
ghost use Rattle.audit_text.specs.Texts.{SaysText};

use crate::fault::WorkFault;
use crate::graph::put_graph;
use crate::writing::write_text;
use batched_text::run_quietly_to;
use engine::Engine;
use line_io::Counted;
use model_base::{HashSeed, Place};
use std::alloc::Global;
use std::io::{Read, Write};

/// Writes the picture of the grants before a place of a log that is run, or at its end, into an empty text.
fn put_picture(text: &mut Vec<u8>, engine: &Engine, limit: Option<Place>) -> Result<(), WorkFault>
    requires all { finished engine.now ≡ length engine.now.log.statements }
    requires empty { text.old.items ≡ [] }
    ensures picture { OnOk result (IsPictureOf engine.now.log limit text.new.items) }
    ensures none { (places : ℕ) → result ≡ Err (WorkFault.NoSuchPlace places)
        → (places ≡ length engine.now.log.statements) × (places < place_before engine.now.log.statements limit) }
    ensures err { IfErr result (λ f. (f ≡ WorkFault.Run EngineFault.NoMemory) ⊎ ((places : ℕ) × (f ≡ WorkFault.NoSuchPlace places))) }
{
    let log = engine.log();
    let place = limit.unwrap_or(log.len());
    if log.len() < place {
        return Err(WorkFault::NoSuchPlace(log.len()));
    }
    put_graph(text, log.catalog(), engine.book(), place)?;
    Ok(())
}

/// Writes the picture of the grants before a place of a log that is run, and flushes the writer.
fn write_picture<W: Write>(
    alloc: Global,
    writer: &mut Counted<W>,
    engine: &Engine,
    limit: Option<Place>,
) -> Result<(), WorkFault>
    requires all { finished engine.now ≡ length engine.now.log.statements }
    ensures done { OnOk result ((text : List ℕ)
        × (IsPictureOf engine.now.log limit text × Appends (W.contents writer.old.inner) (W.contents writer.new.inner) text)) }
    ensures begun { (W.contents writer.new.inner ≡ W.contents writer.old.inner) ⊎ ((text : List ℕ)
        × (IsPictureOf engine.now.log limit text × AppendsFront (W.contents writer.old.inner) (W.contents writer.new.inner) text)) }
    ensures none { (places : ℕ) → result ≡ Err (WorkFault.NoSuchPlace places) → (writer.new ≡ writer.old)
        × (places ≡ length engine.now.log.statements) × (places < place_before engine.now.log.statements limit) }
    ensures read { result ≡ Err (WorkFault.Run EngineFault.Read) → ⊥ }
    ensures write { result ≡ Err (WorkFault.Run EngineFault.Write) → writer.new.errors ≡ raised writer.old.errors }
    ensures whole { OnOk result (writer.new.errors ≡ writer.old.errors) }
    ensures flushed { OnOk result ((writer.new.flushes ≡ raised writer.old.flushes) × (writer.new.is_flushed ≡ true)) }
    ensures alone { IfErr result IsOfPlace }
{
    let mut text = Vec::new(alloc);
    put_picture(&mut text, engine, limit)?;
    write_text(writer, &text)?;
    Ok(())
}

/// Runs a log up to a place, or to its end, and writes the grants in force before it as a digraph of Graphviz. What comes after the place's
/// line isn't taken.
pub fn grants_text<R: Read, W: Write>(
    alloc: Global,
    reader: &mut Counted<R>,
    writer: &mut Counted<W>,
    limit: Option<Place>,
    seed: HashSeed,
) -> Result<(), WorkFault>
    // What was written is the picture of the grants before the place, by the log's beginning up to the place and with it.
    // After a fault it is a beginning of it, or nothing.
    ensures text { SaysText (λ input text. IsPicture input limit text)
        (R.remaining reader.old.inner) (W.contents writer.old.inner) (W.contents writer.new.inner) result }
    // NoSuchPlace comes only where the log of the text has that many places and ends before the place, and nothing is written then.
    ensures none { (places : ℕ) → result ≡ Err (WorkFault.NoSuchPlace places)
        → (writer.new ≡ writer.old) × IfSome (R.remaining reader.old.inner) (λ input. EndsBefore input limit places) }
    // Read and Write come only where the reader or the writer failed. Ok says that neither did, and that the writer was flushed at the end.
    ensures failures { CountsFailures (WorkFault.Run EngineFault.Read) (WorkFault.Run EngineFault.Write)
        reader.old reader.new writer.old writer.new result }
    // The run has no settings, and starts no thread.
    ensures alone { IfErr result IsOfPlace }
{
    let engine = run_quietly_to(alloc, reader, limit, seed)?;
    write_picture(alloc, writer, &engine, limit)
}
