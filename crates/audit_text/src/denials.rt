//! Why each denied place of the text of a log was denied, as the log is run.

ghost use Rattle.std.specs.Prelude.{◌≡◌, ◌<◌, ◌≤◌, ◌-◌, ◌++◌, ◌⊎◌, ℕ, List, Err, IfErr, IfSome, OnOk, Option, Some, length, true};
ghost use Rattle.std.specs.Io.KnownBytes.{Appends};
ghost use Rattle.line_io.specs.Failures.{CountsFailures};
ghost use Rattle.line_io.specs.Known.{AppendsFront, raised};
ghost use Rattle.line_io.specs.declared.fault.EngineFault.{EngineFault};
ghost use Rattle.sequencer.specs.Whole.{IsWhole};
ghost use Rattle.engine.specs.Engine.{finished};
ghost use Rattle.batched_text.specs.Quiet.{IsBetween, IsRunOf};
ghost use Rattle.audit_text.specs.Answer.{AnswersAccepted};
ghost use Rattle.audit_text.specs.Faults.{IsOfPlace};
ghost use Rattle.audit_text.specs.Places.{AreAnswers, AreDenials, denied_places_from, is_denied_at};
ghost use Rattle.audit_text.specs.Texts.{BeginsText, SaysText, WritesText};
ghost use Rattle.audit_text.specs.declared.fault.WorkFault.{WorkFault};

use crate::fault::WorkFault;
use crate::putting::put_found;
use crate::question::Question;
use batched_text::QuietRun;
use engine::Engine;
use line_io::{Counted, flush, write_out, writing_laws};
use model_base::{HashSeed, MOST_PLACES, Outcome, Place};
use std::alloc::{AllocError, Global};
use std::io::{Read, Write};

/// Whether a place that is finished and kept was denied.
fn is_denied(engine: &Engine, place: Place) -> bool
    requires kept { engine.now.dropped ≤ place }
    requires within { place < finished engine.now }
    ensures { result ≡ is_denied_at engine.now.log.statements place }
{
    match engine.outcome(place) {
        Some(Outcome::Denied { .. }) => true,
        _ => false,
    }
}

/// Appends the answer to a question about a place that is finished and kept. After an error, out of memory, some of it may be appended.
fn put_next(
    alloc: Global,
    text: &mut Vec<u8>,
    engine: &Engine,
    question: Question,
) -> Result<(), AllocError>
    requires kept { engine.now.dropped ≤ question.place }
    requires within { question.place < finished engine.now }
    ensures { OnOk result ((told : List ℕ) × (AnswersAccepted engine.now.log question told
        × (text.new.items ≡ text.old.items ++ told))) }
{
    let mut told = Vec::new(alloc);
    put_found(alloc, &mut told, engine, question)?;
    text.extend_from_slice(&told)
}

/// Appends the answers about the denied places among those that are kept. An error means out of memory.
fn put_denials(
    alloc: Global,
    text: &mut Vec<u8>,
    engine: &Engine,
    is_checked: bool,
) -> Result<(), AllocError>
    ensures { OnOk result ((told : List ℕ) × (AreAnswers engine.now.log.statements engine.now.log.names is_checked
        (denied_places_from engine.now.log.statements engine.now.dropped (finished engine.now - engine.now.dropped)) told
        × (text.new.items ≡ text.old.items ++ told))) }
{
    let first = engine.log().dropped();
    for place in first..engine.finished() {
        if is_denied(engine, place) {
            put_next(alloc, text, engine, Question { place, is_checked })?;
        }
    }
    Ok(())
}

/// Writes the answers about the denied places among those that are kept. After an error a front of them was written.
fn write_denials<W: Write>(
    alloc: Global,
    writer: &mut Counted<W>,
    engine: &Engine,
    is_checked: bool,
) -> Result<(), WorkFault>
    ensures done { OnOk result ((told : List ℕ) × (AreAnswers engine.now.log.statements engine.now.log.names is_checked
        (denied_places_from engine.now.log.statements engine.now.dropped (finished engine.now - engine.now.dropped)) told
        × Appends (W.contents writer.old.inner) (W.contents writer.new.inner) told)) }
    ensures begun { (W.contents writer.new.inner ≡ W.contents writer.old.inner)
        ⊎ ((told : List ℕ) × (AreAnswers engine.now.log.statements engine.now.log.names is_checked
        (denied_places_from engine.now.log.statements engine.now.dropped (finished engine.now - engine.now.dropped)) told
        × AppendsFront (W.contents writer.old.inner) (W.contents writer.new.inner) told)) }
    ensures read { result ≡ Err (WorkFault.Run EngineFault.Read) → ⊥ }
    ensures write { result ≡ Err (WorkFault.Run EngineFault.Write) → writer.new.errors ≡ raised writer.old.errors }
    ensures whole { OnOk result (writer.new.errors ≡ writer.old.errors) }
    ensures flushes { writer.new.flushes ≡ writer.old.flushes }
    ensures none { (places : ℕ) → result ≡ Err (WorkFault.NoSuchPlace places) → ⊥ }
    ensures alone { IfErr result IsOfPlace }
{
    let mut text = Vec::new(alloc);
    put_denials(alloc, &mut text, engine, is_checked)?;
    write_out(writer, &text)?;
    Ok(())
}

/// Runs a log to its end, and writes the answers about the denied places after each batch.
fn write_batches<R: Read, W: Write>(
    alloc: Global,
    reader: &mut Counted<R>,
    writer: &mut Counted<W>,
    run: &mut QuietRun,
    is_checked: bool,
) -> Result<(), WorkFault>
    requires between { IsBetween run.old reader.old.given }
    requires kept { run.old.engine.dropped ≡ 0 }
    requires last { run.old.last ≡ MOST_PLACES }
    ensures done { (input : List ℕ) → IsRunOf (Some input) (R.remaining reader.old.inner) run.old
        → OnOk result (WritesText (λ input text. AreDenials input is_checked text) (Some input)
        (W.contents writer.old.inner) (W.contents writer.new.inner)) }
    ensures begun { (input : List ℕ) → IsRunOf (Some input) (R.remaining reader.old.inner) run.old
        → BeginsText (λ input text. AreDenials input is_checked text) (Some input)
        (W.contents writer.old.inner) (W.contents writer.new.inner) }
    ensures read { result ≡ Err (WorkFault.Run EngineFault.Read) → reader.new.errors ≡ raised reader.old.errors }
    ensures other { (result ≡ Err (WorkFault.Run EngineFault.Read) → ⊥) → reader.new.errors ≡ reader.old.errors }
    ensures write { result ≡ Err (WorkFault.Run EngineFault.Write) → writer.new.errors ≡ raised writer.old.errors }
    ensures whole { OnOk result (writer.new.errors ≡ writer.old.errors) }
    ensures flushes { writer.new.flushes ≡ writer.old.flushes }
    ensures none { (places : ℕ) → result ≡ Err (WorkFault.NoSuchPlace places) → ⊥ }
    ensures alone { IfErr result IsOfPlace }
{
    'batches: loop {
        write_denials(alloc, writer, run.engine(), is_checked)?;
        if !run.next(alloc, reader)? {
            return Ok(());
        }
    }
}

/// Runs a log to its end, and writes of each denied place, in order, its line of the report, then one for each need that explains it, and
/// `checked` where asked. It needs memory for those of a batch.
pub fn explain_denied<R: Read, W: Write>(
    alloc: Global,
    reader: &mut Counted<R>,
    writer: &mut Counted<W>,
    is_checked: bool,
    seed: HashSeed,
) -> Result<(), WorkFault>
    // What was written is the explanation of each denied place of the log. After a fault it is a beginning of that, or nothing.
    ensures text { SaysText (λ input text. AreDenials input is_checked text)
        (R.remaining reader.old.inner) (W.contents writer.old.inner) (W.contents writer.new.inner) result }
    // No place is asked for.
    ensures none { (places : ℕ) → result ≡ Err (WorkFault.NoSuchPlace places) → ⊥ }
    // Read and Write come only where the reader or the writer failed. Ok says that neither did, and that the writer was flushed at the end.
    ensures failures { CountsFailures (WorkFault.Run EngineFault.Read) (WorkFault.Run EngineFault.Write)
        reader.old reader.new writer.old writer.new result }
    // The run has no settings, and starts no thread.
    ensures alone { IfErr result IsOfPlace }
{
    let mut run = QuietRun::begin(alloc, reader, None, seed)?;
    write_batches(alloc, reader, writer, &mut run, is_checked)?;
    flush(writer)?;
    Ok(())
}
