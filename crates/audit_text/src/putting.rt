//! The answer to a question about a place of a log that is run.

ghost use Rattle.std.specs.Prelude.{◌≡◌, ◌<◌, ◌≤◌, ◌++◌, ◌⊎◌, [], ℕ, Decides, Err, IfErr, IfOk, OnOk, Some, codes, length, true};
ghost use Rattle.line_io.specs.declared.fault.EngineFault.{EngineFault};
ghost use Rattle.engine.specs.Engine.{finished};
ghost use Rattle.report.specs.Report.{place_text};
ghost use Rattle.explain.specs.Explained.{IsExplainedBy, LinesAreNamed, explained};
ghost use Rattle.audit_text.specs.Explanation.{LinesMayBeSpelled, explanation_text};
ghost use Rattle.audit_text.specs.Answer.{AnswersAccepted};

use crate::explanation::put_explanation;
use crate::fault::WorkFault;
use crate::question::Question;
use batched_text::put_place;
use engine::Engine;
use explain::{
    ExplainFault, Explanation, check, explain, explanations_are_sound,
    explanations_name_earlier_grants,
};
use model_base::Place;
use std::alloc::{AllocError, Global};

/// Why the statement of a place that is finished and kept was admitted or denied. An error means out of memory.
fn explain_place(alloc: Global, engine: &Engine, place: Place) -> Result<Explanation, AllocError>
    requires kept { engine.now.dropped ≤ place }
    requires within { place < finished engine.now }
    ensures place { IfOk result (λ found. found.place ≡ place) }
    ensures lines { IfOk result (λ found. explained engine.now.log.statements place ≡ Some found.lines.items) }
    ensures named { IfOk result (λ found. LinesAreNamed (length engine.now.log.names.tables) found.lines.items) }
{
    let _finished = engine.finished();
    match explain(alloc, engine, place) {
        Ok(found) => Ok(found),
        Err(ExplainFault::NoMemory) => Err(AllocError),
        Err(ExplainFault::NoSuchPlace | ExplainFault::NotFinished | ExplainFault::Forgotten) => {
            unreachable!()
        }
    }
}

/// Whether the check accepts the explanation of a place that is finished and kept.
fn is_accepted(engine: &Engine, explanation: &Explanation) -> bool
    requires kept { engine.now.dropped ≤ explanation.now.place }
    requires within { explanation.now.place < finished engine.now }
    ensures { Decides result (IsExplainedBy engine.now.log.statements explanation.now.place explanation.now.lines.items) }
{
    let _finished = engine.finished();
    check(explanation, engine.log(), engine.book())
}

/// Appends `checked` to the text, for an explanation that the check accepted. An error means out of memory.
fn put_checked(text: &mut Vec<u8>, is_accepted: bool) -> Result<(), AllocError>
    requires { is_accepted ≡ true }
    ensures { OnOk result (text.new.items ≡ text.old.items ++ codes "checked\n") }
{
    if !is_accepted {
        return Ok(());
    }
    text.extend_from_slice(b"checked\n")
}

/// Writes the report's line for a place, and then a line for each need that explains it.
fn put_explained(
    alloc: Global,
    text: &mut Vec<u8>,
    engine: &Engine,
    explanation: &Explanation,
) -> Result<(), AllocError>
    requires kept { engine.now.dropped ≤ explanation.now.place }
    requires within { explanation.now.place < finished engine.now }
    requires named { LinesAreNamed (length engine.now.log.names.tables) explanation.now.lines.items }
    requires granted { LinesMayBeSpelled engine.now.log (finished engine.now) explanation.now.lines.items }
    ensures { OnOk result (text.new.items ≡ text.old.items
        ++ place_text engine.now.log.statements engine.now.log.names explanation.now.place
        ++ explanation_text engine.now.log.statements engine.now.log.names explanation.now.lines.items) }
{
    put_place(alloc, text, engine, explanation.place)?;
    put_explanation(alloc, text, engine, explanation)
}

/// Appends the answer to a question about a place of the log to the text. An error means out of memory.
pub(crate) fn put_found(
    alloc: Global,
    text: &mut Vec<u8>,
    engine: &Engine,
    question: Question,
) -> Result<(), AllocError>
    requires kept { engine.now.dropped ≤ question.place }
    requires within { question.place < finished engine.now }
    requires empty { text.old.items ≡ [] }
    ensures { OnOk result (AnswersAccepted engine.now.log question text.new.items) }
{
    explanations_are_sound();
    explanations_name_earlier_grants();
    let found = explain_place(alloc, engine, question.place)?;
    put_explained(alloc, text, engine, &found)?;
    if !question.is_checked {
        return Ok(());
    }
    let is_accepted = is_accepted(engine, &found);
    put_checked(text, is_accepted)
}

/// Writes the answer to a question about a log that is run into an empty text.
pub(crate) fn put_answer(
    alloc: Global,
    text: &mut Vec<u8>,
    engine: &Engine,
    question: Question,
) -> Result<(), WorkFault>
    requires kept { engine.now.dropped ≤ question.place }
    requires all { finished engine.now ≡ length engine.now.log.statements }
    requires empty { text.old.items ≡ [] }
    ensures answer { OnOk result (AnswersAccepted engine.now.log question text.new.items) }
    ensures none { (places : ℕ) → result ≡ Err (WorkFault.NoSuchPlace places)
        → (places ≡ length engine.now.log.statements) × (places ≤ question.place) }
    ensures err { IfErr result (λ f. (f ≡ WorkFault.Run EngineFault.NoMemory) ⊎ ((places : ℕ) × (f ≡ WorkFault.NoSuchPlace places))) }
{
    if engine.log().len() <= question.place {
        return Err(WorkFault::NoSuchPlace(engine.log().len()));
    }
    put_found(alloc, text, engine, question)?;
    Ok(())
}
