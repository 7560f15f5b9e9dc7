//! The explanation of a place.

ghost use Rattle.std.specs.Prelude.{◌≡◌, ◌<◌, ◌≤◌, ◌↔◌, Err, Some, IfOk, length};
ghost use Rattle.model_base.specs.Outcomes.{needs};
ghost use Rattle.engine.specs.Engine.{finished};
ghost use Rattle.explain.specs.Explained.{LinesAreNamed, explained};

use crate::explained::explain_needs;
use crate::explanation::Explanation;
use crate::fault::ExplainFault;
use crate::line::Line;
use crate::needs::need_at;
use engine::Engine;
use model_base::{Form, Need, Place};
use std::alloc::{AllocError, Global};

/// What a statement's user must hold, in order. An error means out of memory.
fn needs_of(alloc: Global, form: &Form) -> Result<Vec<Need>, AllocError>
    ensures { IfOk result (λ found. found.items ≡ needs form.now) }
{
    let mut found = Vec::new(alloc);
    while let Some(need) = need_at(form, found.len()) {
        found.push(need)?;
    }
    Ok(found)
}

/// The lines that explain a place which is finished, and whose statement is kept. An error means out of memory.
fn lines_at(alloc: Global, engine: &Engine, place: Place) -> Result<Vec<Line>, AllocError>
    requires kept { engine.now.dropped ≤ place }
    requires finished { place < finished engine.now }
    ensures lines { IfOk result (λ lines. explained engine.now.log.statements place ≡ Some lines.items) }
    ensures named { IfOk result (λ lines. LinesAreNamed (length engine.now.log.names.tables) lines.items) }
{
    let _finished = engine.finished();
    let statement = engine.log().statement(place);
    let needs = needs_of(alloc, &statement.form)?;
    explain_needs(alloc, engine.book(), place, statement.user, &needs)
}

/// Why the statement of a place was admitted or denied: for each of its needs in order, up to and with the first that isn't held, by which
/// grants it is held or when it was lost. `NoSuchPlace` is returned exactly where the log has no such place, `NotFinished` exactly where it
/// has, but it isn't finished, and `Forgotten` exactly where the engine dropped its statement; `NoMemory` means out of memory, and says
/// nothing else.
pub fn explain(alloc: Global, engine: &Engine, place: Place) -> Result<Explanation, ExplainFault>
    ensures place { IfOk result (λ found. found.place ≡ place) }
    ensures lines { IfOk result (λ found. explained engine.now.log.statements place ≡ Some found.lines.items) }
    ensures named { IfOk result (λ found. LinesAreNamed (length engine.now.log.names.tables) found.lines.items) }

    ensures none { (result ≡ Err ExplainFault.NoSuchPlace) ↔ (length engine.now.log.statements ≤ place) }
    ensures unfinished { (result ≡ Err ExplainFault.NotFinished) ↔ ((finished engine.now ≤ place)
        × (place < length engine.now.log.statements)) }
    ensures forgotten { (result ≡ Err ExplainFault.Forgotten) ↔ (place < engine.now.dropped) }
{
    let log = engine.log();
    if log.len() <= place {
        return Err(ExplainFault::NoSuchPlace);
    }
    if engine.finished() <= place {
        return Err(ExplainFault::NotFinished);
    }
    if place < log.dropped() {
        return Err(ExplainFault::Forgotten);
    }
    let lines = lines_at(alloc, engine, place)?;
    Ok(Explanation { place, lines })
}
