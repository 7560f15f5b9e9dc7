//! The steps of a RUN, and the deed after them.
ghost use Rattle.std.specs.Prelude.{◌≡◌, ◌∷◌, ◌+◌, ◌≤◌, ◌<◌, ◌++◌, ℕ, [], Some, None, IfOk, IfErr, IfSome, MatchOption, OnOk, codes, length, take, true, vec_capacity};
ghost use Rattle.log_text.specs.Statement.{body_words, last_deed, IsLastDeed, IsLastDeedOf, IsStep, outs_of};
ghost use Rattle.line_words.specs.StepWords.{step_name, step_word};
ghost use Rattle.line_words.specs.Faults.{IsFault};
ghost use Rattle.line_words.specs.Words.{first_word};
ghost use Rattle.log_text.specs.Fault.{OfStep, expected_in, step_fault, fault_from};
ghost use Rattle.log_text.specs.Versions.{version_number};
ghost use Rattle.log_text.specs.Parsing.{IsBodyOf, TakesStep, fault_behind};

use super::computing::{check, compute, constant, out, skip};
use super::deeds::{begins_deed, deed};
use super::touching::{delete, has, insert, load, store};
use crate::statement::{RawDeed, RawStep};
use crate::version::Version;
use line_words::{LineFault, Name, StepName, Words};
use model_base::{MOST_OUTPUTS, MOST_STEPS, Register};
use std::alloc::AllocError;

/// Takes the word of a step, if the next word is one; otherwise the words stay as they are.
#[tactic(auto, using(line_words::proofs::StepNames::named_word))]
#[inline(always)]
fn next_name(words: &mut Words<'_>) -> Option<StepName>
    ensures { MatchOption result ((step_name (first_word words.old) ≡ None) × (words.new ≡ words.old))
        (λ s. words.old ≡ step_word s ∷ words.new) }
{
    if let Some(name) = words.next_step() {
        return Some(name);
    }
    let name = StepName::of(words.first()?)?;
    words.next();
    Some(name)
}

/// A step of this name fits after this many outs, where any step does.
#[tactic(auto, using(crate::proofs::StepNames::no_step_fault))]
#[inline(always)]
fn one_more(name: StepName, outs: usize) -> Result<(), LineFault>
    ensures ok { OnOk result ((steps : ℕ) → steps < MOST_STEPS → step_fault (Some name) steps outs ≡ None) }
    ensures fault { IfErr result (λ f. (steps : ℕ) → steps < MOST_STEPS → step_fault (Some name) steps outs ≡ Some f) }
{
    if matches!(name, StepName::Out) && outs >= MOST_OUTPUTS {
        return Err(LineFault::TooManySteps);
    }
    Ok(())
}

/// Takes what is after the word of an operation, and the bar after it, where it is as in most lines; otherwise the words stay as they are.
/// Most steps of a long body are operations.
#[tactic(auto, using(line_words::proofs::Plain::plain_of_decimal, crate::proofs::StepNames::no_step_fault))]
#[inline(always)]
fn computing<'a>(name: StepName, words: &mut Words<'a>) -> Option<RawStep<'a>>
    ensures step { MatchOption result (words.new ≡ words.old) (λ s. TakesStep (step_word name ∷ words.old) s true words.new
        × IsStep s × (outs_of s ≡ 0)) }
    ensures fits { IfSome result (λ s. (version steps outs : ℕ)
        → fault_from (expected_in (Some name) version steps outs) words.old ≡ fault_from (OfStep version (steps + 1) outs ∷ []) words.new) }
    ensures free { IfSome result (λ s. (steps outs : ℕ) → steps < MOST_STEPS → step_fault (Some name) steps outs ≡ None) }
{
    let StepName::Compute(operation) = name else {
        return None;
    };
    let (to, left, right) = words.next_operands()?;
    Some(RawStep::Compute {
        operation,
        to,
        left,
        right,
    })
}

/// What is after the word of a step, up to the next one or the end, when there are this many steps and outs before it. The step goes where
/// it is to stay.
#[inline(always)]
fn step<'a>(
    name: StepName,
    words: &mut Words<'a>,
    near: &Name<'a>,
    found: &mut RawStep<'a>,
    steps: usize,
    outs: usize,
) -> Result<bool, LineFault>
    requires few { outs ≤ MOST_OUTPUTS }
    requires fits { step_fault (Some name) steps outs ≡ None }
    ensures ok { IfOk result (λ more. TakesStep (step_word name ∷ words.old) found.new more words.new × IsStep found.new
        × (steps < MOST_STEPS) × (outs + outs_of found.new ≤ MOST_OUTPUTS)) }
    ensures fits { IfOk result (λ more. (version : ℕ) → fault_from (OfStep version steps outs ∷ []) (step_word name ∷ words.old)
        ≡ fault_behind more version (steps + 1) (outs + outs_of found.new) words.new) }
    ensures fault { IfErr result (λ f. (version : ℕ)
        → IsFault f (fault_from (OfStep version steps outs ∷ []) (step_word name ∷ words.old))) }
{
    match name {
        StepName::Const => constant(words, found),
        StepName::Compute(operation) => compute(operation, words, found),
        StepName::Has => has(words, near, found),
        StepName::Load => load(words, near, found),
        StepName::Store => store(words, near, found),
        StepName::Insert => insert(words, near, found),
        StepName::Delete => delete(words, near, found),
        StepName::Check => check(words, found),
        StepName::Skip => skip(words, found),
        StepName::Out => out(words, found),
    }
}

/// Takes the deed with which a line ends, where no step begins.
#[inline(never)]
fn ending<'a>(version: Version, words: &mut Words<'a>) -> Result<RawDeed<'a>, LineFault>
    requires { step_name (first_word words.old) ≡ None }
    ensures ok { IfOk result (λ deed. (codes "|" ∷ words.old ≡ last_deed (Some deed)) × IsLastDeed (Some deed)
        × IsLastDeedOf (version_number version) (Some deed)) }
    ensures fault { IfErr result (λ f. (steps outs : ℕ) → fault_from (OfStep (version_number version) steps outs ∷ []) words.old ≡ Some f) }
{
    let Some(word) = words.next() else {
        return Err(LineFault::UnknownWord);
    };
    if !begins_deed(word) {
        return Err(LineFault::UnknownWord);
    }
    deed(version, word, words)
}

/// How many outputs a step makes.
fn out_count(step: &RawStep<'_>) -> usize
    ensures { result ≡ outs_of step.now }
{
    match step {
        RawStep::Out { .. } => 1,
        _ => 0,
    }
}

/// Puts a step at an index of a list, before which others stay.
#[inline(always)]
fn put_step<'a>(found: &mut Vec<RawStep<'a>>, place: usize, step: RawStep<'a>)
    requires within { place ≤ length found.old.items }
    requires room { place < vec_capacity found.old }
    ensures taken { take (place + 1) found.new.items ≡ take place found.old.items ++ step.entry ∷ [] }
    ensures within { place < length found.new.items }
    ensures room { vec_capacity found.new ≡ vec_capacity found.old }
{
    if place < found.len() {
        found[place] = step;
    } else {
        found.push_reserved(step);
    }
}

/// Makes an index of a list one where a step may be put, before which others stay.
#[inline(always)]
fn make_place(found: &mut Vec<RawStep<'_>>, place: usize)
    requires within { place ≤ length found.old.items }
    requires room { place < vec_capacity found.old }
    ensures taken { take place found.new.items ≡ take place found.old.items }
    ensures within { place < length found.new.items }
    ensures room { vec_capacity found.new ≡ vec_capacity found.old }
{
    if place >= found.len() {
        found.push_reserved(RawStep::Check {
            of: Register::new(0),
        });
    }
}

/// Makes room for all steps that a line may have.
#[inline(always)]
fn make_room(found: &mut Vec<RawStep<'_>>) -> Result<(), AllocError>
    ensures { OnOk result (MOST_STEPS ≤ vec_capacity found.new) }
{
    if found.capacity() < MOST_STEPS {
        found.clear();
        found.reserve(MOST_STEPS)?;
    }
    Ok(())
}

/// Whether one more step of whatever name fits after this many.
#[inline(always)]
fn any_more(steps: usize) -> Result<(), LineFault>
    ensures ok { OnOk result (steps < MOST_STEPS) }
    ensures fault { IfErr result (λ f. (name : StepName) (outs : ℕ) → step_fault (Some name) steps outs ≡ Some f) }
{
    if steps >= MOST_STEPS {
        return Err(LineFault::TooManySteps);
    }
    Ok(())
}

/// Takes the steps and the deed after the first bar, to the end of the line. The steps go where room is, and after an error some of them
/// may be there. Those of the line before are written over, and what is left of them is cut off at the end. Most steps of a line are on one
/// table: the near name is compared first.
pub(crate) fn steps<'a>(
    version: Version,
    words: &mut Words<'a>,
    near: &Name<'a>,
    found: &mut Vec<RawStep<'a>>,
    deed: &mut Option<RawDeed<'a>>,
) -> Result<(), LineFault>
    requires { deed.old ≡ None }
    ensures ok { OnOk result ((codes "|" ∷ words.old ≡ body_words found.new.items deed.new)
        × IsBodyOf (version_number version) found.new deed.new) }
    ensures fault { IfErr result (λ f. IsFault f (fault_from (OfStep (version_number version) 0 0 ∷ []) words.old)) }
{
    // The steps are taken from a copy of the words, so that the place in the line is kept in a register.
    let mut left = words.same();
    make_room(found)?;
    let mut outs = 0;
    let mut place = 0;
    'steps: loop {
        let Some(name) = next_name(&mut left) else {
            found.truncate(place);
            *words = left;
            *deed = Some(ending(version, words)?);
            return Ok(());
        };
        any_more(place)?;
        if let Some(step) = computing(name, &mut left) {
            put_step(found, place, step);
            place += 1;
            continue 'steps;
        }
        one_more(name, outs)?;
        make_place(found, place);
        let more = step(name, &mut left, near, &mut found[place], place, outs)?;
        outs += out_count(&found[place]);
        place += 1;
        if !more {
            found.truncate(place);
            return Ok(());
        }
    }
}
