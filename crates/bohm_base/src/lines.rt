//! A line, taken into a log.

ghost use Rattle.std.specs.Prelude.{◌≡◌, ◌≢◌, Err, IfErr, IfOk, OnErr, OnOk};
ghost use Rattle.log_text.specs.LineBuffers.{sentence_of};
ghost use Rattle.log_text.specs.Statement.{IsInGrammar};
ghost use Rattle.report.specs.Report.{ParsedLine, read};
ghost use Rattle.bohm_base.specs.Collecting.{LineMayLackMemory, ReadsAs, line_outcome, reading_by, with_reading};

use crate::collecting::{LineOutcome, faulty_line, refused_line};
use line_io::EngineFault;
use log_text::{LineBuffers, LineFault, Version, is_heading_line, read_into};
use sequencer::LineLog;

/// Takes the statement that a line was read as, and returns what the line became. On `Err`, out of memory.
#[inline(always)]
fn take_statement<L: LineLog>(
    log: &mut L,
    raw: &LineBuffers<'_>,
) -> Result<LineOutcome, EngineFault>
    requires { IsInGrammar (sentence_of raw.now) }
    ensures line { IfOk result (λ line. line ≡ line_outcome (L.log log.old).names (read (sentence_of raw.now))) }
    ensures log { OnOk result (log.new ≡ L.with_log log.old (with_reading (L.log log.old) (read (sentence_of raw.now)))) }
    ensures err { IfErr result (λ f. f ≡ EngineFault.NoMemory) }
    ensures same { OnErr result (log.new ≡ log.old) }
    ensures want { OnErr result (LineMayLackMemory (line_outcome (L.log log.old).names (read (sentence_of raw.now)))) }
{
    match log.push_read(raw) {
        Ok(_) => Ok(LineOutcome::Accepted),
        Err(refused) => {
            let line = refused_line(refused)?;
            Ok(line)
        }
    }
}

/// Takes what a line was read as, a statement or a fault, and returns what the line became. On `Err`, out of memory.
#[inline(always)]
fn take_read<L: LineLog>(
    log: &mut L,
    found: Result<(), LineFault>,
    raw: &LineBuffers<'_>,
) -> Result<LineOutcome, EngineFault>
    requires { OnOk found (IsInGrammar (sentence_of raw.now)) }
    ensures line { IfOk result (λ line. line ≡ line_outcome (L.log log.old).names (reading_by found (sentence_of raw.now))) }
    ensures log { OnOk result (log.new ≡ L.with_log log.old (with_reading (L.log log.old) (reading_by found (sentence_of raw.now)))) }
    ensures told { OnOk result (found ≢ Err LineFault.NoMemory) }
    ensures err { IfErr result (λ f. f ≡ EngineFault.NoMemory) }
    ensures same { OnErr result (log.new ≡ log.old) }
    ensures want { OnErr result (LineMayLackMemory (line_outcome (L.log log.old).names (reading_by found (sentence_of raw.now)))) }
{
    match found {
        Ok(()) => {
            let line = take_statement(log, raw)?;
            Ok(line)
        }
        Err(fault) => {
            let line = faulty_line(fault)?;
            Ok(line)
        }
    }
}

/// Takes a line into the log, and returns what it became. The first line may be the heading of version 2, which sets the log's version.
/// What the line reads as stays in `raw`. On `Err`, out of memory.
#[inline(always)]
#[tactic(auto, using(crate::proofs::LinesRead::in_grammar))]
pub fn take_text<'a, L: LineLog>(
    log: &mut L,
    line: &'a [u8],
    is_first: bool,
    raw: &mut LineBuffers<'a>,
) -> Result<LineOutcome, EngineFault>
    ensures line { IfOk result (λ became. (reading : ParsedLine) × (ReadsAs is_first (L.log log.old).names.version line.now reading
        × ((became ≡ line_outcome (L.log log.old).names reading)
        × (log.new ≡ L.with_log log.old (with_reading (L.log log.old) reading))))) }
    ensures err { IfErr result (λ f. f ≡ EngineFault.NoMemory) }
    ensures same { OnErr result (log.new ≡ log.old) }
{
    if is_first && is_heading_line(line) {
        log.set_version(Version::Two);
        return Ok(LineOutcome::Heading);
    }
    let version = log.version();
    let found = read_into(version, line, raw);
    let line = take_read(log, found, raw)?;
    Ok(line)
}
