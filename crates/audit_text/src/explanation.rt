//! An explanation as text.

ghost use Rattle.std.specs.Prelude.{◌≡◌, ◌<◌, ◌++◌, OnOk, length};
ghost use Rattle.engine.specs.Engine.{finished};
ghost use Rattle.explain.specs.Explained.{LinesAreNamed};
ghost use Rattle.explain.specs.Lines.{ranks_shown};
ghost use Rattle.audit_text.specs.Explanation.{LinesMayBeSpelled, RecordsMayBeSpelled, explanation_text, grants_text, need_line_text, shown_text};

use batched_text::named_grantees;
use engine::Engine;
use explain::{Explanation, Line, Shown};
use model_base::{Cause, RecordName};
use report::{put_cause, put_need, put_records};
use std::alloc::{AllocError, Global};

/// Writes the records of a chain of grants.
fn put_grants(
    alloc: Global,
    text: &mut Vec<u8>,
    engine: &Engine,
    names: &[RecordName],
) -> Result<(), AllocError>
    ensures { OnOk result (RecordsMayBeSpelled engine.now.log (finished engine.now) names.now
        → text.new.items ≡ text.old.items ++ grants_text engine.now.log.statements engine.now.log.names names.now) }
{
    let grantees = named_grantees(alloc, engine, names)?;
    text.extend_from_slice(b" grants")?;
    put_records(text, engine.log().catalog(), names, &grantees)
}

/// Appends how a need is held, or since when it isn't and by which grants it was held until then. After an error, out of memory, some of it
/// may be appended.
pub fn put_shown(
    alloc: Global,
    text: &mut Vec<u8>,
    engine: &Engine,
    shown: &Shown,
) -> Result<(), AllocError>
    ensures { OnOk result (RecordsMayBeSpelled engine.now.log (finished engine.now) (ranks_shown shown.now)
        → text.new.items ≡ text.old.items ++ shown_text engine.now.log.statements engine.now.log.names shown.now) }
{
    match shown {
        Shown::Owner => text.extend_from_slice(b" owner"),
        Shown::Grants(names) => put_grants(alloc, text, engine, names.as_slice()),
        Shown::Never => put_cause(text, Cause::Never),
        Shown::Taken(lost, names) => {
            put_cause(text, Cause::Taken(*lost))?;
            put_grants(alloc, text, engine, names.as_slice())
        }
    }
}

/// Writes a need and what is shown of it.
fn put_line(
    alloc: Global,
    text: &mut Vec<u8>,
    engine: &Engine,
    line: &Line,
) -> Result<(), AllocError>
    requires { line.now.need.table < length engine.now.log.names.tables }
    ensures { OnOk result (RecordsMayBeSpelled engine.now.log (finished engine.now) (ranks_shown line.now.shown)
        → text.new.items ≡ text.old.items ++ need_line_text engine.now.log.statements engine.now.log.names line.now) }
{
    text.extend_from_slice(b"need ")?;
    put_need(text, engine.log().catalog().tables(), &line.need)?;
    put_shown(alloc, text, engine, &line.shown)?;
    text.extend_from_slice(b"\n")
}

/// Appends an explanation of a place of the log, a line for each need, in the words of the report. After an error, out of memory, some of
/// it may be appended.
pub fn put_explanation(
    alloc: Global,
    text: &mut Vec<u8>,
    engine: &Engine,
    explanation: &Explanation,
) -> Result<(), AllocError>
    requires { LinesAreNamed (length engine.now.log.names.tables) explanation.now.lines.items }
    ensures { OnOk result (LinesMayBeSpelled engine.now.log (finished engine.now) explanation.now.lines.items
        → text.new.items ≡ text.old.items
        ++ explanation_text engine.now.log.statements engine.now.log.names explanation.now.lines.items) }
{
    for line in &explanation.lines {
        put_line(alloc, text, engine, line)?;
    }
    Ok(())
}
