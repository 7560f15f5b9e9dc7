//! Calls on a batch, and what they result in.

ghost use Rattle.std.specs.Prelude.{◌≡◌, ◌<◌, IfOk};
ghost use Rattle.words.specs.Passes.{IsPassOf};

use crate::places::Places;
use crate::telling::Teller;
use filling::Ran;
use filling_base::{Batch, Fills, Tried};
use model_base::{Outcome, Place};
use std::alloc::AllocError;
use trials_base::{Attempt, TrialFault, number_of};
use words::{BatchData, Claimed, Holding, Pass, Seen, passes_keep_what_they_know};

/// What a step asks for.
#[derive(Clone, Copy)]
pub enum Verb {
    /// To run the place of an index.
    Ask,
    /// To run a place of the log, and its outcome.
    Run,
    /// The outcome of an index.
    Outcome,
    /// What another pass finds of an index.
    Look,
    /// What another pass finds that claims an index, and gives it back.
    Claim,
    /// The same of one that is dropped while it holds the place.
    Drop,
    /// Whether all is placed.
    All,
    /// How many bodies the pass has run.
    Bodies,
}

/// What a step results in.
#[derive(Drop)]
pub enum Said {
    Tried(Result<Tried, AllocError>),
    Ran(Result<Ran, AllocError>),
    Outcome(Result<Option<Outcome>, AllocError>),
    Seen(Seen),
    /// The place is done, with its first word and the first listed end.
    Stored(u64, Option<Place>),
    Claimed(Claimed),
    GivenBack,
    Placed(bool),
    Bodies(u64),
}

/// The verb of a word.
fn verb_of(word: &str) -> Attempt<Verb> {
    match word {
        "ask" => Ok(Verb::Ask),
        "run" => Ok(Verb::Run),
        "outcome" => Ok(Verb::Outcome),
        "look" => Ok(Verb::Look),
        "claim" => Ok(Verb::Claim),
        "drop" => Ok(Verb::Drop),
        "all" => Ok(Verb::All),
        "bodies" => Ok(Verb::Bodies),
        _ => Err(TrialFault::NotText),
    }
}

/// Reads a step: a verb, and the number of a place or 0.
pub fn parse_step(words: &[&str]) -> Attempt<(Verb, u64)> {
    let verb = verb_of(words.get(0).copied().unwrap_or(""))?;
    let number = if words.len() > 1 {
        number_of(words, 1)?
    } else {
        0
    };
    Ok((verb, number))
}

/// Prints what a step results in.
pub fn print_said(rt: &impl Print, number: u64, said: &Said) -> Attempt<()> {
    match said {
        Said::Tried(Ok(tried)) => println!(rt; "asked for {number}: {tried:?}")?,
        Said::Ran(Ok(ran)) => println!(rt; "asked for {number}: {ran:?}")?,
        Said::Tried(Err(_)) | Said::Ran(Err(_)) => println!(rt; "asked for {number}: NoMemory")?,
        Said::Outcome(found) => println!(rt; "the outcome of {number}: {found:?}")?,
        Said::Seen(seen) => println!(rt; "  another pass looks at {number}: {seen:?}")?,
        Said::Stored(word, end) => println!(rt;
            "  another pass looks at {number}: Done, with {word}, and the end {end:?}"
        )?,
        Said::Claimed(found) => println!(rt; "  another pass claims {number}: {found:?}")?,
        Said::GivenBack => println!(rt; "  another pass claims {number}: Won, and gives it back")?,
        Said::Placed(all) => println!(rt; "all is placed: {all}")?,
        Said::Bodies(bodies) => println!(rt; "{bodies} bodies were run")?,
    }
    Ok(())
}

/// The call that was refused memory, if it was.
fn refused_call(said: &Said) -> Option<&'static str> {
    match said {
        Said::Tried(Err(_)) => Some("Batch::try_run"),
        Said::Ran(Err(_)) => Some("run_place"),
        Said::Outcome(Err(_)) => Some("outcome"),
        _ => None,
    }
}

/// How many places a pass finds held.
pub fn count_held<K: Fills>(batch: &Batch<K>, pass: Pass) -> usize
    requires { IsPassOf batch.now pass }
{
    let mut holding = Holding::begin(pass);
    let mut held = 0usize;
    for index in 0..batch.key().places() {
        if batch.words().look(&mut holding, index) == Seen::Held {
            held = held.saturating_add(1);
        }
    }
    held
}

/// Claims a place. What the pass wins it gives back, if it isn't dropped before.
fn claimed<K: Fills>(batch: &Batch<K>, pass: Pass, index: usize, is_dropped: bool) -> Said
    requires pass { IsPassOf batch.now pass }
    requires within { index < (K.batch batch.now.key).size }
{
    let mut holding = Holding::begin(pass);
    if !holding.knows_placed() {
        return Said::Placed(false);
    }
    match batch.words().claim(&mut holding, index) {
        Claimed::Won if !is_dropped => {
            batch.words().give_back(&mut holding, index);
            Said::GivenBack
        }
        found => Said::Claimed(found),
    }
}

/// Looks at a place.
fn looked<K: Fills>(batch: &Batch<K>, pass: Pass, index: usize) -> Said
    requires pass { IsPassOf batch.now pass }
    requires within { index < (K.batch batch.now.key).size }
{
    passes_keep_what_they_know();
    let key = batch.key();
    let (words, ends) = (key.words_length(index), key.ends());
    let mut holding = Holding::begin(pass);
    match batch.words().look(&mut holding, index) {
        Seen::Done if words > 0 && ends > 0 => {
            let word = batch.words().own(&mut holding, index, 0);
            let end = batch.words().end(&mut holding, 0);
            Said::Stored(word, end)
        }
        seen => Said::Seen(seen),
    }
}

/// Makes a step.
fn made<K: Places>(batch: &Batch<K>, pass: Pass, verb: Verb, index: usize) -> (Pass, Said)
    requires pass { IsPassOf batch.now pass }
    requires within { index < (K.batch batch.now.key).size }
    ensures { IsPassOf batch.now result.0 }
{
    match verb {
        Verb::Ask => {
            let (pass, tried) = batch.try_run(pass, index);
            (pass, Said::Tried(tried))
        }
        Verb::Run => {
            let (pass, ran) = K::run(batch, pass, index);
            (pass, Said::Ran(ran))
        }
        Verb::Outcome => {
            let (pass, found) = K::outcome(batch, pass, index);
            (pass, Said::Outcome(found))
        }
        Verb::All => {
            let (pass, all) = batch.all_placed(pass);
            (pass, Said::Placed(all))
        }
        Verb::Bodies => {
            let bodies = pass.bodies();
            (pass, Said::Bodies(bodies))
        }
        Verb::Look => {
            let (pass, other) = batch.split(pass);
            (pass, looked(batch, other, index))
        }
        Verb::Claim | Verb::Drop => {
            let (pass, other) = batch.split(pass);
            (pass, claimed(batch, other, index, verb == Verb::Drop))
        }
    }
}

/// Makes a step, again if it was refused memory, after which as many places are held as before, and prints what it results in.
pub fn print_made<K: Places, R: Print>(
    teller: &Teller<'_, R>,
    batch: &Batch<K>,
    pass: Pass,
    verb: Verb,
    number: u64,
) -> Attempt<Pass>
    requires { IsPassOf batch.now pass }
    ensures { IfOk result (λ pass. IsPassOf batch.now pass) }
{
    let key = batch.key();
    let skipped = if verb == Verb::Run { key.first() } else { 0 };
    if number < skipped || number - skipped >= key.places() as u64 {
        return Err(TrialFault::Call);
    }
    let index = (number - skipped) as usize;
    let (pass, other) = batch.split(pass);
    let held = count_held(batch, other);
    let (pass, said) = made(batch, pass, verb, index);
    let Some(call) = refused_call(&said) else {
        print_said(teller.rt, number, &said)?;
        return Ok(pass);
    };
    let (pass, other) = batch.split(pass);
    teller.refused(call, "as before", count_held(batch, other) == held)?;
    let (pass, said) = made(batch, pass, verb, index);
    print_said(teller.rt, number, &said)?;
    Ok(pass)
}
