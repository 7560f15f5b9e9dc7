//! When a user held a privilege, by the text of a log.

ghost use Rattle.std.specs.Prelude.{◌≡◌, ◌⊎◌, ℕ, List, Err, IfErr, IfSome, None, OnOk, Some, length, true};
ghost use Rattle.std.specs.Io.KnownBytes.{Appends};
ghost use Rattle.line_io.specs.Failures.{CountsFailures};
ghost use Rattle.line_io.specs.Known.{AppendsFront, raised};
ghost use Rattle.line_io.specs.declared.fault.EngineFault.{EngineFault};
ghost use Rattle.engine.specs.Engine.{finished};
ghost use Rattle.sequencer.specs.Names.{known_number};
ghost use Rattle.audit_text.specs.Faults.{IsOfUser};
ghost use Rattle.audit_text.specs.RowsBefore.{LacksTable};
ghost use Rattle.audit_text.specs.Texts.{SaysText};
ghost use Rattle.audit_text.specs.declared.fault.WorkFault.{WorkFault};
ghost use Rattle.privileges_text.specs.HistoryText.{TellsHistory};
ghost use Rattle.privileges_text.specs.Questions.{IsHistory, LacksUser};

use crate::asking::HistoryAsked;
use crate::history::put_history;
use audit_text::{WorkFault, write_text};
use batched_text::run_quietly_to;
use engine::Engine;
use line_io::Counted;
use model_base::HashSeed;
use std::alloc::Global;
use std::io::{Read, Write};

/// Writes the answer to what is asked of a log that is run, and flushes the writer.
fn write_history<W: Write>(
    alloc: Global,
    writer: &mut Counted<W>,
    engine: &Engine,
    asked: &HistoryAsked<'_>,
) -> Result<(), WorkFault>
    requires all { finished engine.now ≡ length engine.now.log.statements }
    ensures done { OnOk result ((text : List ℕ)
        × (TellsHistory engine.now.log asked.now.user.now asked.now.kind asked.now.table.now asked.now.option text
        × Appends (W.contents writer.old.inner) (W.contents writer.new.inner) text)) }
    ensures begun { (W.contents writer.new.inner ≡ W.contents writer.old.inner) ⊎ ((text : List ℕ)
        × (TellsHistory engine.now.log asked.now.user.now asked.now.kind asked.now.table.now asked.now.option text
        × AppendsFront (W.contents writer.old.inner) (W.contents writer.new.inner) text)) }
    ensures user { result ≡ Err WorkFault.NoSuchUser → (writer.new ≡ writer.old)
        × (known_number engine.now.log.names.users asked.now.user.now ≡ None) }
    ensures table { result ≡ Err WorkFault.NoSuchTable → (writer.new ≡ writer.old)
        × (known_number engine.now.log.names.tables asked.now.table.now ≡ None) }
    ensures place { (places : ℕ) → result ≡ Err (WorkFault.NoSuchPlace places) → ⊥ }
    ensures read { result ≡ Err (WorkFault.Run EngineFault.Read) → ⊥ }
    ensures write { result ≡ Err (WorkFault.Run EngineFault.Write) → writer.new.errors ≡ raised writer.old.errors }
    ensures whole { OnOk result (writer.new.errors ≡ writer.old.errors) }
    ensures flushed { OnOk result ((writer.new.flushes ≡ raised writer.old.flushes) × (writer.new.is_flushed ≡ true)) }
    ensures alone { IfErr result IsOfUser }
{
    let mut text = Vec::new(alloc);
    put_history(alloc, &mut text, engine, asked)?;
    write_text(writer, &text)?;
    Ok(())
}

/// Writes the spans of places of a log in which a user held a kind on a table.
pub fn history_text<R: Read, W: Write>(
    alloc: Global,
    reader: &mut Counted<R>,
    writer: &mut Counted<W>,
    asked: &HistoryAsked<'_>,
    seed: HashSeed,
) -> Result<(), WorkFault>
    // What was written is when the user held the kind. After a fault it is a beginning of that, or nothing.
    ensures text { SaysText (λ input text. IsHistory input asked.now.user.now asked.now.kind asked.now.table.now asked.now.option text)
        (R.remaining reader.old.inner) (W.contents writer.old.inner) (W.contents writer.new.inner) result }
    // NoSuchUser comes only where no statement names the user, and nothing is written then.
    ensures user { result ≡ Err WorkFault.NoSuchUser → (writer.new ≡ writer.old)
        × IfSome (R.remaining reader.old.inner) (λ input. LacksUser input asked.now.user.now) }
    // NoSuchTable comes only where no statement creates a table of the name, and nothing is written then.
    ensures table { result ≡ Err WorkFault.NoSuchTable → (writer.new ≡ writer.old)
        × IfSome (R.remaining reader.old.inner) (λ input. LacksTable input (Some asked.now.table.now) None) }
    // The whole log is asked, so no place is missing.
    ensures none { (places : ℕ) → result ≡ Err (WorkFault.NoSuchPlace places) → ⊥ }
    // Read and Write come only where the reader or the writer failed. Ok says that neither did, and that the writer was flushed at the end.
    ensures failures { CountsFailures (WorkFault.Run EngineFault.Read) (WorkFault.Run EngineFault.Write)
        reader.old reader.new writer.old writer.new result }
    // The run has no settings, and starts no thread.
    ensures alone { IfErr result IsOfUser }
{
    let engine = run_quietly_to(alloc, reader, None, seed)?;
    write_history(alloc, writer, &engine, asked)
}
