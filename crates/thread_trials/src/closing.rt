//! What is left when words are closed and their batch is finished.

ghost use Rattle.std.specs.Prelude.{◌<◌, ℕ, length, slice_index};
ghost use Rattle.words.specs.Passes.{IsPassOf};
ghost use Rattle.engine.specs.Known.{AreKnown};
ghost use Rattle.engine.specs.RunState.{IsRunState};

use crate::opening::Call;
use crate::steps::print_row;
use crate::telling::{NO_MEMORY, Teller};
use engine::RunState;
use filling::{Finished, RangeKey, finish};
use filling_base::Batch;
use trials_base::{Attempt, TrialFault};
use words::{BatchData, Closed, Pass};

/// Prints the claims of this many places when their words are closed.
fn print_claims(rt: &impl Print, closed: &Closed, places: usize) -> Attempt<()>
    requires begins { (index : ℕ) → index < places → index < length closed.now.begins }
    requires claims { (index : ℕ) → index < places → slice_index closed.now.begins index < length closed.now.words }
{
    for index in 0..places {
        let claim = closed.claim(index);
        println!(rt; "closed, the claim of {index} is {claim}")?;
    }
    Ok(())
}

/// Prints the outcome of each place of a finished batch.
fn print_outcomes(rt: &impl Print, done: &Finished) -> Attempt<()> {
    for (index, outcome) in done.outcomes.iter().enumerate() {
        println!(rt; "finished, {index} is {outcome:?}")?;
    }
    Ok(())
}

/// Prints the rows that the places of a finished batch leave.
fn print_versions(rt: &impl Print, done: &Finished) -> Attempt<()> {
    for version in &done.versions {
        let (place, key, row) = (version.place, version.key, version.row);
        println!(rt; "{place} leaves {row:?} at {key:?}")?;
    }
    Ok(())
}

/// Prints the claims of the places of a closed batch, and what they are when it is finished.
fn print_finished(rt: &impl Print, closed: &Closed, done: &Finished, places: usize) -> Attempt<()>
    requires begins { (index : ℕ) → index < places → index < length closed.now.begins }
    requires claims { (index : ℕ) → index < places → slice_index closed.now.begins index < length closed.now.words }
{
    print_claims(rt, closed, places)?;
    print_outcomes(rt, done)?;
    print_versions(rt, done)
}

/// Makes the steps of a row, closes the words and finishes the batch, and prints the claims and what each place is then. An error is that
/// finishing was refused memory where nothing was printed.
pub fn try_closed<R: Print>(
    teller: &Teller<'_, R>,
    before: &RunState,
    batch: Batch<RangeKey<'_>>,
    pass: Pass,
    steps: &str,
) -> Result<Attempt<()>, Call>
    requires pass { IsPassOf batch pass }
    requires known { AreKnown batch.key.batch.log.statements }
    requires before { IsRunState batch.key.batch.log.statements batch.key.batch.first before.now.chains before.now.book }
{
    let pass = match print_row(teller, &batch, pass, steps) {
        Ok(pass) => pass,
        Err(fault) => return Ok(Err(fault)),
    };
    if !pass.knows_placed() {
        return Ok(Err(TrialFault::Call));
    }
    let (key, closed) = batch.close(pass);
    let places = key.places();
    match finish(teller.alloc, before.book.book(), &key, &closed) {
        Ok(done) => Ok(print_finished(teller.rt, &closed, &done, places)),
        Err(_) if steps.is_empty() => Err(Call::Finish),
        Err(_) => Ok(Err(NO_MEMORY)),
    }
}
