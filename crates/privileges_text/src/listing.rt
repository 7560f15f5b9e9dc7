//! Who holds a privilege before a place of the text of a log.

ghost use Rattle.std.specs.Prelude.{◌≡◌, ◌⊎◌, ℕ, List, Err, IfErr, IfSome, None, OnOk, Some, length, true};
ghost use Rattle.std.specs.Io.KnownBytes.{Appends};
ghost use Rattle.line_io.specs.Failures.{CountsFailures};
ghost use Rattle.line_io.specs.Known.{AppendsFront, raised};
ghost use Rattle.line_io.specs.declared.fault.EngineFault.{EngineFault};
ghost use Rattle.engine.specs.Engine.{finished};
ghost use Rattle.sequencer.specs.Names.{known_number};
ghost use Rattle.audit_text.specs.Faults.{IsOfAnswer};
ghost use Rattle.audit_text.specs.Picture.{EndsBefore};
ghost use Rattle.audit_text.specs.RowsBefore.{LacksTable};
ghost use Rattle.audit_text.specs.Texts.{SaysText};
ghost use Rattle.audit_text.specs.declared.fault.WorkFault.{WorkFault};
ghost use Rattle.privileges_text.specs.HoldersText.{ListsHolders};
ghost use Rattle.privileges_text.specs.Questions.{IsHolders};

use crate::asking::HoldersAsked;
use crate::holding::put_holders;
use audit_text::{WorkFault, run_before, write_text};
use engine::Engine;
use line_io::Counted;
use model_base::{HashSeed, Kind};
use std::alloc::Global;
use std::io::{Read, Write};

/// Writes the holders of a kind on the table of a name, at the end of a log that is run, and flushes the writer.
fn write_holders<W: Write>(
    alloc: Global,
    writer: &mut Counted<W>,
    engine: &Engine,
    kind: Kind,
    name: &str,
) -> Result<(), WorkFault>
    requires all { finished engine.now ≡ length engine.now.log.statements }
    ensures done { OnOk result ((text : List ℕ) × (ListsHolders engine.now.log kind name.now text
        × Appends (W.contents writer.old.inner) (W.contents writer.new.inner) text)) }
    ensures begun { (W.contents writer.new.inner ≡ W.contents writer.old.inner) ⊎ ((text : List ℕ)
        × (ListsHolders engine.now.log kind name.now text
        × AppendsFront (W.contents writer.old.inner) (W.contents writer.new.inner) text)) }
    ensures none { result ≡ Err WorkFault.NoSuchTable → (writer.new ≡ writer.old)
        × (known_number engine.now.log.names.tables name.now ≡ None) }
    ensures place { (places : ℕ) → result ≡ Err (WorkFault.NoSuchPlace places) → ⊥ }
    ensures read { result ≡ Err (WorkFault.Run EngineFault.Read) → ⊥ }
    ensures write { result ≡ Err (WorkFault.Run EngineFault.Write) → writer.new.errors ≡ raised writer.old.errors }
    ensures whole { OnOk result (writer.new.errors ≡ writer.old.errors) }
    ensures flushed { OnOk result ((writer.new.flushes ≡ raised writer.old.flushes) × (writer.new.is_flushed ≡ true)) }
    ensures alone { IfErr result IsOfAnswer }
{
    let mut text = Vec::new(alloc);
    put_holders(alloc, &mut text, engine, kind, name)?;
    write_text(writer, &text)?;
    Ok(())
}

/// Writes who holds a kind on a table before a place of a log, or at its end. What comes after the line of the place before isn't taken.
pub fn holders_text<R: Read, W: Write>(
    alloc: Global,
    reader: &mut Counted<R>,
    writer: &mut Counted<W>,
    asked: &HoldersAsked<'_>,
    seed: HashSeed,
) -> Result<(), WorkFault>
    // What was written is who holds the kind before the place. After a fault it is a beginning of that, or nothing.
    ensures text { SaysText (λ input text. IsHolders input asked.now.kind asked.now.table.now asked.now.limit text)
        (R.remaining reader.old.inner) (W.contents writer.old.inner) (W.contents writer.new.inner) result }
    // NoSuchPlace comes only where the log of the text has that many places and ends before the place, and nothing is written then.
    ensures none { (places : ℕ) → result ≡ Err (WorkFault.NoSuchPlace places)
        → (writer.new ≡ writer.old) × IfSome (R.remaining reader.old.inner) (λ input. EndsBefore input asked.now.limit places) }
    // NoSuchTable comes only where no statement before the place creates a table of the name, and nothing is written then.
    ensures table { result ≡ Err WorkFault.NoSuchTable → (writer.new ≡ writer.old)
        × IfSome (R.remaining reader.old.inner) (λ input. LacksTable input (Some asked.now.table.now) asked.now.limit) }
    // Read and Write come only where the reader or the writer failed. Ok says that neither did, and that the writer was flushed at the end.
    ensures failures { CountsFailures (WorkFault.Run EngineFault.Read) (WorkFault.Run EngineFault.Write)
        reader.old reader.new writer.old writer.new result }
    // The run has no settings, and starts no thread.
    ensures alone { IfErr result IsOfAnswer }
{
    let engine = run_before(alloc, reader, asked.limit, seed)?;
    write_holders(alloc, writer, &engine, asked.kind, asked.table)
}
