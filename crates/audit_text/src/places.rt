//! Why some places of the text of a log were admitted or denied.

ghost use Rattle.std.specs.Prelude.{◌≡◌, ◌<◌, ◌≤◌, ◌++◌, ◌⊎◌, ℕ, Bool, Contains, List, Err, IfErr, IfOk, IfSome, OnOk, Option, Some, length, slice_index, true};
ghost use Rattle.std.specs.List.Sorted.{IsNonDecreasing, IsPermutation};
ghost use Rattle.std.specs.Io.KnownBytes.{Appends};
ghost use Rattle.line_io.specs.Failures.{CountsFailures};
ghost use Rattle.line_io.specs.Known.{AppendsFront, raised};
ghost use Rattle.line_io.specs.Lines.{lines_of};
ghost use Rattle.line_io.specs.declared.fault.EngineFault.{EngineFault};
ghost use Rattle.model_base.specs.declared.statement.Statement.{Statement};
ghost use Rattle.sequencer.specs.Catalog.{Names, no_names};
ghost use Rattle.report.specs.Report.{AreParsedLines, ParsedLine, log_of, names_after};
ghost use Rattle.engine.specs.Engine.{finished};
ghost use Rattle.batched_text.specs.Quiet.{IsBetween, IsRunOf};
ghost use Rattle.audit_text.specs.Answer.{Answers, AnswersAccepted, HasNoPlace};
ghost use Rattle.audit_text.specs.Faults.{IsOfPlace};
ghost use Rattle.audit_text.specs.Places.{AreAnswered, AreAnswers, AreExplanations, LacksPlaceOf};
ghost use Rattle.audit_text.specs.Texts.{SaysText};
ghost use Rattle.audit_text.specs.declared.fault.WorkFault.{WorkFault};

use crate::fault::WorkFault;
use crate::putting::put_answer;
use crate::question::Question;
use crate::writing::write_text;
use batched_text::QuietRun;
use engine::Engine;
use line_io::Counted;
use model_base::{HashSeed, Place};
use std::alloc::{AllocError, Global};
use std::io::{Read, Write};

/// What is asked about some places of a log, one or several.
#[derive(Clone, Copy)]
pub struct PlacesAsked<'a> {
    /// The places, in the order in which they are answered.
    pub places: &'a [Place],
    /// Whether each answer is checked, as in `Question`.
    pub is_checked: bool,
}

/// The places in ascending order.
fn sorted_places(alloc: Global, places: &[Place]) -> Result<Vec<Place>, AllocError>
    ensures permutation { IfOk result (λ sorted. IsPermutation places.now sorted.items) }
    ensures order { IfOk result (λ sorted. IsNonDecreasing sorted.items) }
{
    let mut sorted = Vec::from_slice(alloc, places)?;
    sorted.sort_unstable();
    Ok(sorted)
}

/// The greatest of the places, or 0.
fn greatest(sorted: &[Place]) -> Place
    requires { IsNonDecreasing sorted.now }
    ensures { (k : ℕ) → k < length sorted.now → slice_index sorted.now k ≤ result }
{
    match sorted {
        [] => 0,
        [.., last] => *last,
    }
}

/// The answer to a question about a log that is run.
fn answer_to(alloc: Global, engine: &Engine, question: Question) -> Result<Vec<u8>, WorkFault>
    requires kept { engine.now.dropped ≤ question.place }
    requires all { finished engine.now ≡ length engine.now.log.statements }
    ensures answer { IfOk result (λ text. AnswersAccepted engine.now.log question text.items) }
    ensures none { (places : ℕ) → result ≡ Err (WorkFault.NoSuchPlace places)
        → (places ≡ length engine.now.log.statements) × (places ≤ question.place) }
    ensures err { IfErr result (λ f. (f ≡ WorkFault.Run EngineFault.NoMemory) ⊎ ((places : ℕ) × (f ≡ WorkFault.NoSuchPlace places))) }
{
    let mut text = Vec::new(alloc);
    put_answer(alloc, &mut text, engine, question)?;
    Ok(text)
}

/// Runs a log on until the place is finished, and answers the question about it.
fn answer_next<R: Read>(
    alloc: Global,
    reader: &mut Counted<R>,
    run: &mut QuietRun,
    question: Question,
) -> Result<Vec<u8>, WorkFault>
    requires between { IsBetween run.old reader.old.given }
    requires kept { run.old.engine.dropped ≤ question.place }
    requires last { question.place ≤ run.old.last }
    ensures between { OnOk result (IsBetween run.new reader.new.given) }
    ensures of { OnOk result ((input : Option (List ℕ)) → IsRunOf input (R.remaining reader.old.inner) run.old
        → IsRunOf input (R.remaining reader.new.inner) run.new) }
    ensures kept { OnOk result (run.new.engine.dropped ≤ question.place) }
    ensures last { run.new.last ≡ run.old.last }
    ensures answer { IfOk result (λ text. (input : List ℕ) (readings : List ParsedLine) → AreParsedLines (lines_of input) readings
        → IsRunOf (Some input) (R.remaining reader.old.inner) run.old
        → Answers (log_of no_names readings) (names_after no_names readings) question text.items) }
    ensures none { (places : ℕ) → result ≡ Err (WorkFault.NoSuchPlace places)
        → (input : List ℕ) → IsRunOf (Some input) (R.remaining reader.old.inner) run.old → HasNoPlace input question.place places }
    ensures read { result ≡ Err (WorkFault.Run EngineFault.Read) → reader.new.errors ≡ raised reader.old.errors }
    ensures write { result ≡ Err (WorkFault.Run EngineFault.Write) → ⊥ }
    ensures other { (result ≡ Err (WorkFault.Run EngineFault.Read) → ⊥) → reader.new.errors ≡ reader.old.errors }
    ensures alone { IfErr result IsOfPlace }
{
    run.reach(alloc, reader, question.place)?;
    answer_to(alloc, run.engine(), question)
}

/// Runs a log on, and answers about each of the places as it is finished.
fn answer_each<R: Read>(
    alloc: Global,
    reader: &mut Counted<R>,
    run: &mut QuietRun,
    sorted: &[Place],
    is_checked: bool,
) -> Result<Vec<Vec<u8>>, WorkFault>
    requires between { IsBetween run.old reader.old.given }
    requires kept { run.old.engine.dropped ≡ 0 }
    requires order { IsNonDecreasing sorted.now }
    requires last { (k : ℕ) → k < length sorted.now → slice_index sorted.now k ≤ run.old.last }
    ensures count { IfOk result (λ texts. length texts.items ≡ length sorted.now) }
    ensures answers { IfOk result (λ texts. (input : List ℕ) (readings : List ParsedLine) → AreParsedLines (lines_of input) readings
        → IsRunOf (Some input) (R.remaining reader.old.inner) run.old
        → AreAnswered (log_of no_names readings) (names_after no_names readings) is_checked sorted.now texts.items) }
    ensures none { (places : ℕ) → result ≡ Err (WorkFault.NoSuchPlace places)
        → (input : List ℕ) → IsRunOf (Some input) (R.remaining reader.old.inner) run.old → LacksPlaceOf input sorted.now places }
    ensures read { result ≡ Err (WorkFault.Run EngineFault.Read) → reader.new.errors ≡ raised reader.old.errors }
    ensures write { result ≡ Err (WorkFault.Run EngineFault.Write) → ⊥ }
    ensures other { (result ≡ Err (WorkFault.Run EngineFault.Read) → ⊥) → reader.new.errors ≡ reader.old.errors }
    ensures alone { IfErr result IsOfPlace }
{
    let mut texts = Vec::new(alloc);
    for place in sorted {
        texts.reserve(1)?;
        let question = Question {
            place: *place,
            is_checked,
        };
        let text = answer_next(alloc, reader, run, question)?;
        texts.push_reserved(text);
    }
    Ok(texts)
}

/// Runs a log up to the greatest of the places, and answers about each.
fn run_places<R: Read>(
    alloc: Global,
    reader: &mut Counted<R>,
    sorted: &[Place],
    is_checked: bool,
    seed: HashSeed,
) -> Result<Vec<Vec<u8>>, WorkFault>
    requires order { IsNonDecreasing sorted.now }
    ensures count { IfOk result (λ texts. length texts.items ≡ length sorted.now) }
    ensures answers { IfOk result (λ texts. IfSome (R.remaining reader.old.inner) (λ input. (readings : List ParsedLine)
        → AreParsedLines (lines_of input) readings
        → AreAnswered (log_of no_names readings) (names_after no_names readings) is_checked sorted.now texts.items)) }
    ensures none { (places : ℕ) → result ≡ Err (WorkFault.NoSuchPlace places)
        → IfSome (R.remaining reader.old.inner) (λ input. LacksPlaceOf input sorted.now places) }
    ensures read { result ≡ Err (WorkFault.Run EngineFault.Read) → reader.new.errors ≡ raised reader.old.errors }
    ensures write { result ≡ Err (WorkFault.Run EngineFault.Write) → ⊥ }
    ensures other { (result ≡ Err (WorkFault.Run EngineFault.Read) → ⊥) → reader.new.errors ≡ reader.old.errors }
    ensures alone { IfErr result IsOfPlace }
{
    let mut run = QuietRun::begin(alloc, reader, Some(greatest(sorted)), seed)?;
    answer_each(alloc, reader, &mut run, sorted, is_checked)
}

/// The index of a place among places in order, one of which it is.
fn index_of(sorted: &[Place], place: Place) -> usize
    requires order { IsNonDecreasing sorted.now }
    requires there { Contains sorted.now place }
    ensures within { result < length sorted.now }
    ensures at { slice_index sorted.now result ≡ place }
{
    match sorted.binary_search(&place) {
        Ok(index) => index,
        Err(_) => unreachable!(),
    }
}

/// Appends the answers about the places, in their order, to the text. An error means out of memory.
fn put_answers(
    text: &mut Vec<u8>,
    places: &[Place],
    sorted: &[Place],
    texts: &[Vec<u8>],
) -> Result<(), AllocError>
    requires order { IsNonDecreasing sorted.now }
    requires permutation { IsPermutation places.now sorted.now }
    requires count { length texts.now ≡ length sorted.now }
    ensures { OnOk result ((log : List Statement) (names : Names) (checked : Bool) → AreAnswered log names checked sorted.now texts.now
        → (told : List ℕ) × (AreAnswers log names checked places.now told × (text.new.items ≡ text.old.items ++ told))) }
{
    for place in places {
        let index = index_of(sorted, *place);
        text.extend_from_slice(&texts[index])?;
    }
    Ok(())
}

/// Writes the answers about the places, in their order, and flushes the writer.
fn write_answers<W: Write>(
    alloc: Global,
    writer: &mut Counted<W>,
    places: &[Place],
    sorted: &[Place],
    texts: &[Vec<u8>],
) -> Result<(), WorkFault>
    requires order { IsNonDecreasing sorted.now }
    requires permutation { IsPermutation places.now sorted.now }
    requires count { length texts.now ≡ length sorted.now }
    ensures done { OnOk result ((log : List Statement) (names : Names) (checked : Bool) → AreAnswered log names checked sorted.now texts.now
        → (told : List ℕ) × (AreAnswers log names checked places.now told
        × Appends (W.contents writer.old.inner) (W.contents writer.new.inner) told)) }
    ensures begun { (W.contents writer.new.inner ≡ W.contents writer.old.inner)
        ⊎ ((log : List Statement) (names : Names) (checked : Bool) → AreAnswered log names checked sorted.now texts.now
        → (told : List ℕ) × (AreAnswers log names checked places.now told
        × AppendsFront (W.contents writer.old.inner) (W.contents writer.new.inner) told)) }
    ensures read { result ≡ Err (WorkFault.Run EngineFault.Read) → ⊥ }
    ensures write { result ≡ Err (WorkFault.Run EngineFault.Write) → writer.new.errors ≡ raised writer.old.errors }
    ensures whole { OnOk result (writer.new.errors ≡ writer.old.errors) }
    ensures flushed { OnOk result ((writer.new.flushes ≡ raised writer.old.flushes) × (writer.new.is_flushed ≡ true)) }
    ensures none { (places : ℕ) → result ≡ Err (WorkFault.NoSuchPlace places) → ⊥ }
    ensures alone { IfErr result IsOfPlace }
{
    let mut text = Vec::new(alloc);
    put_answers(&mut text, places, sorted, texts)?;
    write_text(writer, &text)?;
    Ok(())
}

/// Runs a log up to the greatest of some places, and writes of each, in the order asked, its line of the report, then one for each need
/// that explains it, and `checked` where asked. No later line is taken.
pub fn explain_places<R: Read, W: Write>(
    alloc: Global,
    reader: &mut Counted<R>,
    writer: &mut Counted<W>,
    asked: &PlacesAsked<'_>,
    seed: HashSeed,
) -> Result<(), WorkFault>
    // What was written is the explanation of each place of the whole log, of which only the lines up to the greatest were taken.
    // After a fault it is a beginning of that, or nothing.
    ensures text { SaysText (λ input text. AreExplanations input asked.now.places.now asked.now.is_checked text)
        (R.remaining reader.old.inner) (W.contents writer.old.inner) (W.contents writer.new.inner) result }
    // NoSuchPlace comes only where the log of the text has that many places and not each of these, and nothing is written then.
    ensures none { (places : ℕ) → result ≡ Err (WorkFault.NoSuchPlace places)
        → (writer.new ≡ writer.old) × IfSome (R.remaining reader.old.inner) (λ input. LacksPlaceOf input asked.now.places.now places) }
    // Read and Write come only where the reader or the writer failed. Ok says that neither did, and that the writer was flushed at the end.
    ensures failures { CountsFailures (WorkFault.Run EngineFault.Read) (WorkFault.Run EngineFault.Write)
        reader.old reader.new writer.old writer.new result }
    // The run has no settings, and starts no thread.
    ensures alone { IfErr result IsOfPlace }
{
    let PlacesAsked { places, is_checked } = *asked;
    let sorted = sorted_places(alloc, places)?;
    let texts = run_places(alloc, reader, &sorted, is_checked, seed)?;
    write_answers(alloc, writer, places, &sorted, &texts)
}
