//! Rows of steps on a batch, a line for each.

ghost use Rattle.std.specs.Prelude.{◌≡◌, ◌<◌, ◌≤◌, ◌+◌, ◌∷◌, [], IfOk};
ghost use Rattle.bohm_core_base.specs.declared.event.Event.TheVariants.{Claim};
ghost use Rattle.words.specs.Passes.{IsPassOf};
ghost use Rattle.workers.specs.Placing.{HavePlaced};

use crate::calls::{parse_step, print_made};
use crate::places::Places;
use crate::telling::Teller;
use filling_base::{Batch, BatchPlacer};
use model_base::Place;
use std::alloc::AllocError;
use trials_base::{Attempt, TrialFault, number_of, words_of};
use words::{BatchData, Claimed, Holding, Pass};

/// Makes the steps one after another.
pub fn print_steps<K: Places, R: Print>(
    teller: &Teller<'_, R>,
    batch: &Batch<K>,
    pass: Pass,
    steps: &str,
) -> Attempt<Pass>
    requires { IsPassOf batch.now pass }
    ensures { IfOk result (λ pass. IsPassOf batch.now pass) }
{
    let mut last = pass;
    for step in steps.split('\n') {
        let words = words_of(teller.alloc, step)?;
        if !words.is_empty() {
            let (verb, number) = parse_step(words.as_slice())?;
            last = print_made(teller, batch, last, verb, number)?;
        }
    }
    Ok(last)
}

/// Takes a place by another pass, and prints that it is held.
pub fn print_hold<K: Places, R: Print>(
    teller: &Teller<'_, R>,
    batch: &Batch<K>,
    pass: Pass,
    index: usize,
) -> Attempt<(Pass, Holding)>
    requires { IsPassOf batch.now pass }
    ensures within { IfOk result (λ made. index < (K.batch batch.now.key).size) }
    ensures pass { IfOk result (λ made. IsPassOf batch.now made.0) }
    ensures holder { IfOk result (λ made. IsPassOf batch.now made.1) }
    ensures holds { IfOk result (λ made. made.1.view.events ≡ Claim made.1.number index ∷ []) }
{
    let (pass, holder) = batch.split(pass);
    let mut holding = Holding::begin(holder);
    if index >= batch.key().places() || !holding.knows_placed() {
        return Err(TrialFault::Call);
    }
    if batch.words().claim(&mut holding, index) != Claimed::Won {
        return Err(TrialFault::Call);
    }
    println!(teller.rt; "hold {index}")?;
    Ok((pass, holding))
}

/// Looks at a place by a pass that holds another, and prints what it finds.
fn print_look<K: Places, R: Print>(
    teller: &Teller<'_, R>,
    batch: &Batch<K>,
    holding: &mut Holding,
    number: &str,
) -> Attempt<()>
    requires { IsPassOf batch.now holding.old }
    ensures same { IsPassOf batch.now holding.new }
    ensures number { holding.new.number ≡ holding.old.number }
    ensures events { holding.new.view.events ≡ holding.old.view.events }
{
    let index = number_of([number].as_slice(), 0)? as usize;
    if index >= batch.key().places() {
        return Err(TrialFault::Call);
    }
    let seen = batch.words().look(holding, index);
    println!(teller.rt; "  the holder looks at {index}: {seen:?}")?;
    Ok(())
}

/// Makes the steps while another pass holds the place of an index, with nothing stored, and gives it back then. A line `holder look INDEX`
/// is that pass's own. Returns both.
fn print_held<K: Places, R: Print>(
    teller: &Teller<'_, R>,
    batch: &Batch<K>,
    pass: Pass,
    index: usize,
    steps: &str,
) -> Attempt<(Pass, Pass)>
    requires { IsPassOf batch.now pass }
    ensures pass { IfOk result (λ made. IsPassOf batch.now made.0) }
    ensures holder { IfOk result (λ made. IsPassOf batch.now made.1) }
{
    let (pass, mut holding) = print_hold(teller, batch, pass, index)?;
    let mut last = pass;
    for step in steps.split('\n') {
        match step.strip_prefix("holder look ") {
            Some(number) => print_look(teller, batch, &mut holding, number)?,
            None => last = print_steps(teller, batch, last, step)?,
        }
    }
    batch.words().give_back(&mut holding, index);
    println!(teller.rt; "back")?;
    Ok((last, holding.end()))
}

/// The index on the first line of a text, and the lines after it.
pub fn index_line(text: &str) -> Attempt<(usize, &str)> {
    let (index, lines) = text.split_once('\n').ok_or(TrialFault::NotText)?;
    let index = number_of([index].as_slice(), 0)?;
    Ok((index as usize, lines))
}

/// Makes the steps of a row on a batch that is placed: some of them between the lines `hold INDEX` and `back`, and those after a line
/// `holder` by the pass that held that place.
pub fn print_row<K: Places, R: Print>(
    teller: &Teller<'_, R>,
    batch: &Batch<K>,
    pass: Pass,
    steps: &str,
) -> Attempt<Pass>
    requires { IsPassOf batch.now pass }
    ensures { IfOk result (λ pass. IsPassOf batch.now pass) }
{
    let Some((before, rest)) = steps.split_once("hold ") else {
        return print_steps(teller, batch, pass, steps);
    };
    let (held, after) = rest.split_once("back\n").ok_or(TrialFault::NotText)?;
    let (index, during) = index_line(held)?;
    let (after, own) = after.split_once("holder\n").unwrap_or((after, ""));
    let pass = print_steps(teller, batch, pass, before)?;
    let (pass, holder) = print_held(teller, batch, pass, index, during)?;
    let pass = print_steps(teller, batch, pass, after)?;
    if !own.is_empty() {
        println!(teller.rt; "holder")?;
        let _holder = print_steps(teller, batch, holder, own)?;
    }
    Ok(pass)
}

/// Prints the place that a placer placed, if it did.
fn print_advanced(
    rt: &impl Print,
    partition: usize,
    advanced: Result<Option<Place>, AllocError>,
) -> Attempt<()> {
    match advanced {
        Ok(Some(place)) => println!(rt; "partition {partition}: Next({place})")?,
        Ok(None) => println!(rt; "partition {partition}: End")?,
        Err(_) => println!(rt; "partition {partition}: NoMemory")?,
    }
    Ok(())
}

/// Makes a step of a placer, again if it was refused memory, after which its partition has placed as much as before.
fn print_placing<K: Places, P: BatchPlacer<K>, R: Print>(
    teller: &Teller<'_, R>,
    batch: &Batch<K>,
    pass: Pass,
    placer: &mut P,
) -> Attempt<Pass>
    requires placer { P.is_of batch.now placer.old }
    requires pass { IsPassOf batch.now pass }
    ensures placer { P.is_of batch.now placer.new }
    ensures pass { IfOk result (λ pass. IsPassOf batch.now pass) }
{
    let partition = placer.partition();
    if partition >= batch.key().partitions() {
        return Err(TrialFault::Call);
    }
    let (pass, reader) = batch.split(pass);
    let mut reader = Holding::begin(reader);
    let front = batch.words().front(&mut reader, partition);
    let mut advanced = placer.advance(batch);
    if advanced.is_err() {
        let left = batch.words().front(&mut reader, partition);
        teller.refused("Placer::place_next", "as before", left == front)?;
        advanced = placer.advance(batch);
    }
    print_advanced(teller.rt, partition, advanced)?;
    Ok(pass)
}

/// Makes steps between those of placing by the last two partitions of a batch, a place of the log for each line `first` or `second`.
pub fn print_turns<K: Places, P: BatchPlacer<K>, R: Print>(
    teller: &Teller<'_, R>,
    batch: &Batch<K>,
    pass: Pass,
    mut placers: Vec<P>,
    steps: &str,
) -> Attempt<()>
    requires pass { IsPassOf batch.now pass }
    requires placers { HavePlaced P.is_of P.front batch.now 0 placers.items }
{
    let Some(mut second) = placers.pop() else {
        return Err(TrialFault::Call);
    };
    let Some(mut first) = placers.pop() else {
        return Err(TrialFault::Call);
    };
    let mut last = pass;
    for step in steps.split('\n') {
        match step {
            "first" => last = print_placing(teller, batch, last, &mut first)?,
            "second" => last = print_placing(teller, batch, last, &mut second)?,
            _ => last = print_steps(teller, batch, last, step)?,
        }
    }
    Ok(())
}
