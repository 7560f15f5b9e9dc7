//! The serial path: the whole log is read, then run place by place, and then reported line by line.

ghost use Rattle.std.specs.Prelude.{◌≡◌, ◌≢◌, ◌<◌, ◌-◌, ◌^◌, ℕ, [], IfErr, OnOk, Err, slice_get, true};
ghost use Rattle.std.specs.Io.KnownBytes.{Appends};
ghost use Rattle.line_io.specs.Failures.{CountsFailures};
ghost use Rattle.line_io.specs.Known.{AppendsFront, HasBegun, MovesOut, raised};
ghost use Rattle.model_base.specs.Outcomes.{outcome};
ghost use Rattle.bohm_base.specs.Collecting.{log_text};
ghost use Rattle.bohm_base.specs.Faults.{IsFaultInOrder, write_errors};
ghost use Rattle.bohm_base.specs.Pending.{ReportsInput};

use crate::collecting::{Collected, collect_lines};
use crate::serial_log::SerialLog;
use line_io::{Counted, EngineFault, PENDING_BYTES, flush, write_out};
use model::serial;
use model_base::{HashSeed, Outcome};
use std::alloc::Global;
use std::io::{Read, Write};

/// Lines of the report that are made at once.
const LINES_AT_ONCE: usize = 64;

/// Writes the report of a log by the outcomes of its places, the end of it still pending. After a fault whole lines are
/// pending.
fn report_lines<W: Write>(
    alloc: Global,
    writer: &mut Counted<W>,
    collected: &Collected,
    outcomes: &[Outcome],
    pending: &mut Vec<u8>,
) -> Result<(), EngineFault>
    requires outcomes { (place : ℕ) → slice_get outcomes.now place ≡ outcome collected.now.log.statements place }
    requires empty { pending.old.items ≡ [] }
    ensures done { OnOk result (MovesOut (W.contents writer.old.inner) (W.contents writer.new.inner)
        (log_text collected.now.log collected.now.lines.items) pending.new.items) }
    ensures begun { HasBegun (W.contents writer.old.inner) (W.contents writer.new.inner) pending.new.items
        (log_text collected.now.log collected.now.lines.items) }
    ensures errors { writer.new.errors ≡ write_errors result writer.old.errors }
    ensures flushes { writer.new.flushes ≡ writer.old.flushes }
    ensures err { IfErr result (λ f. f ≢ EngineFault.Read) }
    ensures alone { IfErr result IsFaultInOrder }
{
    let log = SerialLog {
        alloc,
        log: &collected.log,
        outcomes,
    };
    let lines = collected.lines.as_slice();
    let mut text = Vec::new(alloc);
    let mut place = 0;
    let mut done = 0;
    while done < lines.len() {
        let next = done + (lines.len() - done).min(LINES_AT_ONCE);
        let some = &lines[done..next];
        place = log.report_lines(writer, pending, &mut text, done as u64, place, some)?;
        done = next;
    }
    Ok(())
}

/// Runs a log that was read, by `model::serial`, and writes its report. Nothing is pending before. Where the run finds no memory nothing
/// is written, after another fault a beginning of the report.
fn run_log<W: Write>(
    alloc: Global,
    writer: &mut Counted<W>,
    collected: &Collected,
    pending: &mut Vec<u8>,
) -> Result<(), EngineFault>
    requires empty { pending.old.items ≡ [] }
    ensures done { OnOk result (Appends (W.contents writer.old.inner) (W.contents writer.new.inner)
        (log_text collected.now.log collected.now.lines.items)) }
    ensures begun { AppendsFront (W.contents writer.old.inner) (W.contents writer.new.inner)
        (log_text collected.now.log collected.now.lines.items) }
    ensures err { IfErr result (λ f. f ≢ EngineFault.Read) }
    ensures alone { IfErr result IsFaultInOrder }
    ensures write { result ≡ Err EngineFault.Write → writer.old.errors < 2 ^ 64 - 1 → writer.old.errors < writer.new.errors }
    ensures whole { OnOk result (writer.new.errors ≡ writer.old.errors) }
    ensures flushed { OnOk result ((writer.new.flushes ≡ raised writer.old.flushes) × (writer.new.is_flushed ≡ true)) }
{
    let seed = collected.log.catalog().seed();
    let outcomes = serial(alloc, collected.log.statements(), seed)?;
    let ended = report_lines(alloc, writer, collected, &outcomes, pending);
    let written = write_out(writer, pending.as_slice());
    ended?;
    written?;
    flush(writer)?;
    Ok(())
}

/// Reads a log to its end, runs it by `model::serial`, and writes its report: one line for each line but the heading of version 2. Maps
/// find their keys under `seed`.
///
/// The log's statements, their outcomes and the rows are kept in memory, and two bytes or so for each line. `NoMemory` comes where a growth
/// was refused, `Read` where the reader failed, `Write` where the writer failed, or took no byte of a piece that wasn't empty. After a
/// fault a beginning of the report is written: nothing of it where the log was not read to its end or not run, as after each
/// `Read`; the lines that were written where one found no memory; and after `Write` what the writer took.
pub fn serial_text<R: Read, W: Write>(
    alloc: Global,
    reader: &mut Counted<R>,
    writer: &mut Counted<W>,
    seed: HashSeed,
) -> Result<(), EngineFault>
    // What was written is the report of what was read, and after a fault a beginning of it.
    ensures report { ReportsInput (R.remaining reader.old.inner) (W.contents writer.old.inner) (W.contents writer.new.inner) result }
    // Read and Write come only where the reader or the writer failed. Ok says that neither of them failed, in the flush at the end neither,
    // and that the writer was flushed once and not written to since.
    ensures failures { CountsFailures EngineFault.Read EngineFault.Write reader.old reader.new writer.old writer.new result }
    // There is no setting to be bad, and no thread to be started.
    ensures alone { IfErr result IsFaultInOrder }
{
    let mut pending = Vec::with_capacity(alloc, PENDING_BYTES)?;
    let collected = collect_lines(alloc, reader, seed)?;
    run_log(alloc, writer, &collected, &mut pending)
}
