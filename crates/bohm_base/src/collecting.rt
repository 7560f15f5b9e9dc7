//! The whole log, read to its end before any of it is run.

ghost use Rattle.std.specs.Prelude.{◌≡◌, ◌≢◌, ◌≤◌, [], IfOk, IfErr, IfSome, OnOk};
ghost use Rattle.line_io.specs.Ahead.{ahead};
ghost use Rattle.sequencer.specs.Log.{empty_log};
ghost use Rattle.report.specs.Report.{ParsedLine};
ghost use Rattle.bohm_base.specs.Faults.{IsFaultInOrder, read_errors};
ghost use Rattle.bohm_base.specs.Collecting.{Collects, ReadsAs, line_outcome, places_of, with_reading};

use crate::lines::take_text;
use line_io::{Counted, EngineFault, LineReader};
use log_text::{LineBuffers, LineFault};
use model_base::HashSeed;
use sequencer::{Log, Refused};
use std::alloc::Global;
use std::io::Read;

/// What a line of the log became.
#[derive(Clone, Copy)]
pub enum LineOutcome {
    /// The heading of version 2, which is no statement.
    Heading,
    /// The next place of the log.
    Accepted,
    /// A line with this fault, which is no statement.
    Faulty(LineFault),
    /// A statement that the log refuses.
    Refused(Refused),
}

impl LineOutcome {
    /// How many places of the log the line has: one if its statement was accepted.
    pub fn places(self) -> u64
        ensures count { result ≡ places_of self }
        ensures most { result ≤ 1 }
    {
        match self {
            LineOutcome::Accepted => 1,
            LineOutcome::Heading | LineOutcome::Faulty(_) | LineOutcome::Refused(_) => 0,
        }
    }
}

/// A log that was read to its end: its statements, and two bytes or so for each of its lines.
#[derive(Drop)]
pub struct Collected {
    /// The accepted statements.
    pub log: Log,
    /// What each line became, in the lines' order.
    pub lines: Vec<LineOutcome>,
}

impl Collected {
    /// The log before its first line, whose names are found under this seed. It doesn't allocate.
    fn seeded(alloc: Global, seed: HashSeed) -> Self
        ensures log { result.log ≡ empty_log }
        ensures lines { result.lines.items ≡ [] }
    {
        let log = Log::seeded(alloc, seed);
        let lines = Vec::new(alloc);
        Collected { log, lines }
    }
}

/// What the line of a refused statement became. Out of memory is no refusal, and ends the run.
pub fn refused_line(refused: Refused) -> Result<LineOutcome, EngineFault>
    ensures ok { IfOk result (λ line. (line ≡ LineOutcome.Refused refused) × (refused ≢ Refused.NoMemory)) }
    ensures err { IfErr result (λ f. (f ≡ EngineFault.NoMemory) × (refused ≡ Refused.NoMemory)) }
{
    match refused {
        Refused::NoMemory => Err(EngineFault::NoMemory),
        other => Ok(LineOutcome::Refused(other)),
    }
}

/// What a line with a fault became. Out of memory is no line's fault, and ends the run.
pub fn faulty_line(fault: LineFault) -> Result<LineOutcome, EngineFault>
    ensures ok { IfOk result (λ line. (line ≡ LineOutcome.Faulty fault) × (fault ≢ LineFault.NoMemory)) }
    ensures err { IfErr result (λ f. (f ≡ EngineFault.NoMemory) × (fault ≡ LineFault.NoMemory)) }
{
    match fault {
        LineFault::NoMemory => Err(EngineFault::NoMemory),
        other => Ok(LineOutcome::Faulty(other)),
    }
}

/// Takes a line into the log, as `take_text`.
fn take_line(
    alloc: Global,
    log: &mut Log,
    line: &[u8],
    is_first: bool,
) -> Result<LineOutcome, EngineFault>
    ensures line { IfOk result (λ became. (reading : ParsedLine) × (ReadsAs is_first log.old.names.version line.now reading
        × ((became ≡ line_outcome log.old.names reading) × (log.new ≡ with_reading log.old reading)))) }
    ensures err { IfErr result (λ f. f ≡ EngineFault.NoMemory) }
{
    let mut raw = LineBuffers::new(alloc);
    take_text(log, line, is_first, &mut raw)
}

/// Reads lines to the end of what the reader gives, and collects them. Nothing is read or collected before.
fn collect_all<R: Read>(
    alloc: Global,
    reader: &mut Counted<R>,
    reading: &mut LineReader,
    collected: &mut Collected,
) -> Result<(), EngineFault>
    requires ahead { ahead reading.old ≡ [] }
    requires log { collected.old.log ≡ empty_log }
    requires lines { collected.old.lines.items ≡ [] }
    ensures whole { OnOk result (IfSome (R.remaining reader.old.inner)
        (λ input. Collects input collected.new.log collected.new.lines.items)) }
    ensures reads { reader.new.errors ≡ read_errors result reader.old.errors }
    ensures err { IfErr result (λ f. f ≢ EngineFault.Write) }
    ensures alone { IfErr result IsFaultInOrder }
{
    'lines: while reading.next_line(reader)? {
        let is_first = collected.lines.is_empty();
        let line = take_line(alloc, &mut collected.log, reading.line(), is_first)?;
        collected.lines.push(line)?;
    }
    Ok(())
}

/// Reads lines to the end of what the reader gives. Names are found under this seed. `NoMemory` comes where a growth was refused,
/// `Read` where the reader failed; after either what was collected is gone.
pub fn collect_lines<R: Read>(
    alloc: Global,
    reader: &mut Counted<R>,
    seed: HashSeed,
) -> Result<Collected, EngineFault>
    ensures whole { IfOk result (λ collected. IfSome (R.remaining reader.old.inner)
        (λ input. Collects input collected.log collected.lines.items)) }
    ensures reads { reader.new.errors ≡ read_errors result reader.old.errors }
    ensures err { IfErr result (λ f. f ≢ EngineFault.Write) }
    ensures alone { IfErr result IsFaultInOrder }
{
    let mut reading = LineReader::new(alloc)?;
    let mut collected = Collected::seeded(alloc, seed);
    collect_all(alloc, reader, &mut reading, &mut collected)?;
    Ok(collected)
}
