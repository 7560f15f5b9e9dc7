//! Calls of an engine.

use crate::driver::Call;
use crate::failing::failing;
use crate::gates::gated;
use crate::handed_in::explanation_of;
use audit_text::put_explanation;
use batched_text::{Settings, run_text};
use engine::{Crew, Engine, EngineFault};
use explain::{check, explain};
use line_io::Counted;
use log_text::{RawStatement, Version, parse_line, parse_line_in, print_statement};
use model::serial;
use model_base::{HashSeed, Key, Place, Table};
use std::alloc::{AllocError, Global};
use std::rt::Files;
use std::sync::Wait;
use std::thread::Threads;
use trials_base::{Attempt, TrialFault, beside, read_file, row_text};
use workers::{Gate, NoGate};

/// The statement of a line that a call is given.
fn statement_of<'a>(alloc: Global, line: &'a str) -> Attempt<RawStatement<'a>> {
    beside(parse_line(alloc, line.as_bytes()))
}

/// Whose statement a line of a version is.
fn user_of(alloc: Global, version: Version, line: &str) -> Attempt<String> {
    let statement = parse_line_in(alloc, version, line.as_bytes())?;
    beside(format!(in alloc; "by {}", statement.user()))
}

/// Whether the statement of a line is printed as that line.
fn printed(alloc: Global, line: &str) -> Attempt<String> {
    let statement = statement_of(alloc, line)?;
    let text = print_statement(alloc, &statement)?;
    let is_same = text.as_slice() == line.as_bytes();
    beside(format!(in alloc; "the line that was read: {is_same}"))
}

/// Takes the statement of a line into the log.
fn push(alloc: Global, engine: &mut Engine, line: &str) -> Attempt<String> {
    let place = engine.push(&statement_of(alloc, line)?)?;
    beside(format!(in alloc; "place {place}"))
}

/// Runs a range by workers and partitions: `START END WORKERS PARTITIONS`.
pub fn run_by<R: Threads + Wait + Sync, G: Gate + Sync>(
    rt: &R,
    alloc: Global,
    engine: &mut Engine,
    call: &Call<'_>,
    gate: &G,
) -> Attempt<String> {
    let range = call.number(0)..call.number(1);
    let crew = Crew {
        workers: call.number(2) as usize,
        partitions: call.number(3) as usize,
    };
    let ended = engine.run_batch(rt, alloc, range, crew, gate);
    if let Err(fault) = ended {
        if fault != EngineFault::BadSettings {
            return Err(TrialFault::Run(fault));
        }
    }
    let finished = engine.finished();
    beside(format!(in alloc; "{ended:?}, {finished} finished"))
}

/// The settings that words name: workers, partitions, places of a batch, and batches that are kept.
fn settings_of(call: &Call<'_>) -> Settings {
    Settings {
        workers: call.number(1) as usize,
        partitions: call.number(2) as usize,
        batch: call.number(3),
        keep: call.number(4),
    }
}

/// The engine of a run of a log in batches.
fn run_log<R: Threads + Wait + Sync>(
    rt: &R,
    alloc: Global,
    log: &[u8],
    settings: &Settings,
) -> Result<Engine, EngineFault> {
    let mut log = Counted::new(log);
    let mut report = Counted::new(Vec::new(alloc));
    let seed = HashSeed::fixed();
    run_text(rt, alloc, &mut log, &mut report, settings, seed)
}

/// Runs the log of a file in batches, and leaves the engine of that run: `FILE WORKERS PARTITIONS BATCH KEEP`.
fn run_file<R: Files + Threads + Wait + Sync>(
    rt: &R,
    alloc: Global,
    engine: &mut Engine,
    call: &Call<'_>,
) -> Attempt<String> {
    let log = read_file(rt, alloc, call.word(0))?;
    *engine = run_log(rt, alloc, log.as_slice(), &settings_of(call))?;
    beside(format!(in alloc; "mark {}, {} finished", engine.mark(), engine.finished()))
}

/// Why a place was admitted or denied, and whether that is accepted.
fn explained(alloc: Global, engine: &Engine, place: Place) -> Attempt<String> {
    let explanation = explain(alloc, engine, place)?;
    let mut text = Vec::new(alloc);
    beside(put_explanation(alloc, &mut text, engine, &explanation))?;
    let is_accepted = check(&explanation, engine.log(), engine.book());
    let text = str::from_utf8(&text).unwrap_or("no text");
    beside(format!(in alloc; "{text:?}, accepted: {is_accepted}"))
}

/// Whether an explanation that is handed in is accepted.
fn handed(alloc: Global, engine: &Engine, call: &Call<'_>) -> Attempt<String> {
    let explanation = explanation_of(alloc, call)?;
    let is_accepted = check(&explanation, engine.log(), engine.book());
    beside(format!(in alloc; "{is_accepted}"))
}

/// The outcomes of the log by the slow run.
fn slow_outcomes(alloc: Global, engine: &Engine) -> Attempt<String> {
    let log = engine.log();
    let _dropped = log.dropped();
    let outcomes = serial(alloc, log.kept_statements(), HashSeed::fixed())?;
    beside(format!(in alloc; "{outcomes:?}"))
}

/// Asks an engine: `row ROW PLACE`, of the first table; `outcome PLACE`; `explain PLACE`; `handed PLACE READ|OPTION SHOWN..`.
fn answer(alloc: Global, engine: &Engine, call: &Call<'_>) -> Attempt<String> {
    match call.verb {
        "row" => beside(row_text(alloc, engine, call.count(0), call.number(1))),
        "outcome" => beside(format!(in alloc; "{:?}", engine.outcome(call.number(0)))),
        "explain" => explained(alloc, engine, call.number(0)),
        "handed" => handed(alloc, engine, call),
        _ => Err(TrialFault::NotText),
    }
}

/// Changes an engine: `new`; `trim MARK`; `sweep`; `forget`.
fn change(alloc: Global, engine: &mut Engine, call: &Call<'_>) -> Attempt<String> {
    match call.verb {
        "new" => *engine = Engine::new(alloc),
        "trim" => {
            let trimmed = engine.trim(call.number(0));
            return beside(format!(in alloc; "{trimmed:?}"));
        }
        "sweep" => return beside(format!(in alloc; "{}", engine.sweep())),
        _ => engine.forget(),
    }
    beside(format!(in alloc; "{} places", engine.log().len()))
}

/// The finished places of an engine as text: their outcomes, the book of grants, and a row before the next place.
fn finished_text(alloc: Global, engine: &Engine) -> Result<String, AllocError> {
    let (finished, outcomes) = (engine.finished(), engine.kept_outcomes());
    let (tables, records) = (engine.book().tables(), engine.book().records());
    let row = row_text(alloc, engine, 1, finished)?;
    format!(in alloc; "{finished} {outcomes:?} {tables:?} {records:?} {row}")
}

/// `push LINE`; `run START END WORKERS PARTITIONS`; `gated START END WORKERS PARTITIONS HELD PLACE`; `log FILE WORKERS PARTITIONS
/// BATCH KEEP`; `fail READS WRITES FLUSHES`; `serial`; of a line alone `parse LINE`, `print LINE`, and by version 2 `second LINE`; or a
/// change, or a question.
pub fn make<R: Files + Threads + Wait + Sync>(
    rt: &R,
    alloc: Global,
    engine: &mut Engine,
    call: &Call<'_>,
) -> Attempt<String> {
    match call.verb {
        "push" => push(alloc, engine, call.rest),
        "run" => run_by(rt, alloc, engine, call, &NoGate),
        "gated" => gated(rt, alloc, engine, call),
        "log" => run_file(rt, alloc, engine, call),
        "fail" => failing(rt, alloc, call),
        "serial" => slow_outcomes(alloc, engine),
        "parse" => user_of(alloc, Version::One, call.rest),
        "second" => user_of(alloc, Version::Two, call.rest),
        "print" => printed(alloc, call.rest),
        "new" | "trim" | "sweep" | "forget" => change(alloc, engine, call),
        _ => answer(alloc, engine, call),
    }
}

/// All that calls have made of an engine, as text.
pub fn picture(alloc: Global, engine: &Engine) -> Result<String, AllocError> {
    let (statements, catalog) = (engine.log().kept_statements(), engine.log().catalog());
    let (users, tables) = (catalog.users().len(), catalog.tables().len());
    let finished = finished_text(alloc, engine)?;
    format!(in alloc; "{users} users, {tables} tables, {statements:?} {finished}")
}
