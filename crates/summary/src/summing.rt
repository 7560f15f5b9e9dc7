//! The text of a log, run, and the counts of its report written.

ghost use Rattle.std.specs.Prelude.{◌≡◌, ◌⊎◌, Err, IfErr, OnErr, OnOk, true};
ghost use Rattle.line_io.specs.Failures.{CountsFailures};
ghost use Rattle.line_io.specs.Known.{AppendsFront, raised};
ghost use Rattle.std.specs.Io.KnownBytes.{Appends};
ghost use Rattle.line_io.specs.declared.fault.EngineFault.{EngineFault};
ghost use Rattle.audit_text.specs.Texts.{SaysText};
ghost use Rattle.audit_text.specs.declared.fault.WorkFault.{WorkFault};
ghost use Rattle.summary.specs.Summary.{IsOfSummary, IsSummary};
ghost use Rattle.summary.specs.Texts.{counts_text};

use crate::counts::Counts;
use crate::putting::put_counts;
use crate::running::count_report;
use audit_text::WorkFault;
use line_io::{Counted, EngineFault, WriteFault, flush, write_out, writing_laws};
use model_base::HashSeed;
use std::alloc::Global;
use std::io::{Read, Write};

/// Writes a text, and flushes the writer. After an error a front of the text was written.
fn write_text<W: Write>(writer: &mut Counted<W>, text: &[u8]) -> Result<(), WriteFault>
    ensures ok { OnOk result (Appends (W.contents writer.old.inner) (W.contents writer.new.inner) text.now) }
    ensures front { AppendsFront (W.contents writer.old.inner) (W.contents writer.new.inner) text.now }
    ensures same { OnOk result (writer.new.errors ≡ writer.old.errors) }
    ensures err { OnErr result (writer.new.errors ≡ raised writer.old.errors) }
    ensures flushed { OnOk result ((writer.new.flushes ≡ raised writer.old.flushes) × (writer.new.is_flushed ≡ true)) }
{
    writing_laws();
    write_out(writer, text)?;
    flush(writer)?;
    Ok(())
}

/// Writes the lines of the counts, and flushes the writer.
fn write_counts<W: Write>(
    alloc: Global,
    writer: &mut Counted<W>,
    counts: &Counts,
) -> Result<(), WorkFault>
    ensures done { OnOk result (Appends (W.contents writer.old.inner) (W.contents writer.new.inner) (counts_text counts.now)) }
    ensures begun { (W.contents writer.new.inner ≡ W.contents writer.old.inner)
        ⊎ AppendsFront (W.contents writer.old.inner) (W.contents writer.new.inner) (counts_text counts.now) }
    ensures read { result ≡ Err (WorkFault.Run EngineFault.Read) → ⊥ }
    ensures write { result ≡ Err (WorkFault.Run EngineFault.Write) → writer.new.errors ≡ raised writer.old.errors }
    ensures whole { OnOk result (writer.new.errors ≡ writer.old.errors) }
    ensures flushed { OnOk result ((writer.new.flushes ≡ raised writer.old.flushes) × (writer.new.is_flushed ≡ true)) }
    ensures alone { IfErr result IsOfSummary }
{
    let mut text = Vec::new(alloc);
    put_counts(&mut text, counts)?;
    write_text(writer, &text)?;
    Ok(())
}

/// The fault of a run for counts. A failure of what counts, which takes all that it is given, counts as one of the writer.
fn fault_of(fault: EngineFault, errors: &mut u64) -> WorkFault
    ensures fault { result ≡ WorkFault.Run fault }
    ensures write { fault ≡ EngineFault.Write → errors.new ≡ raised errors.old }
{
    if fault == EngineFault::Write {
        *errors = errors.saturating_add(1);
    }
    WorkFault::Run(fault)
}

/// Writes how many lines of a log's report say what. The log is run in order on this thread, and its report isn't kept.
pub fn summary_text<R: Read, W: Write>(
    alloc: Global,
    reader: &mut Counted<R>,
    writer: &mut Counted<W>,
    seed: HashSeed,
) -> Result<(), WorkFault>
    // What was written is the counts of the report. After a fault it is a beginning of them, or nothing.
    ensures text { SaysText IsSummary (R.remaining reader.old.inner) (W.contents writer.old.inner) (W.contents writer.new.inner) result }
    // Read and Write come only where the reader or the writer failed. Ok says that neither did, and that the writer was flushed at the end.
    ensures failures { CountsFailures (WorkFault.Run EngineFault.Read) (WorkFault.Run EngineFault.Write)
        reader.old reader.new writer.old writer.new result }
    // The run has no settings, and starts no thread.
    ensures alone { IfErr result IsOfSummary }
{
    match count_report(alloc, reader, seed) {
        Ok(counting) => write_counts(alloc, writer, counting.counts()),
        Err(fault) => Err(fault_of(fault, &mut writer.errors)),
    }
}
