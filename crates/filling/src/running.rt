//! Runs a place, and says what it resulted in.

ghost use Rattle.std.specs.Prelude.{◌≡◌, ◌+◌, ◌-◌, ◌<◌, ◌≤◌};
ghost use Rattle.words.specs.Passes.{IsPassOf};
ghost use Rattle.words.specs.Views.{In};
ghost use Rattle.filling_base.specs.Counting.{CountsBodies};
ghost use Rattle.filling_base.specs.Extending.{IsSamePass, OnlyLearns};
ghost use Rattle.filling.specs.Bodies.{runs_at};
ghost use Rattle.filling.specs.Runs.{DoneMeans, RanMeans};

use crate::key::RangeKey;
use crate::outcomes::outcome;
use filling_base::{Batch, Tried};
use model_base::{Outcome, Place};
use std::alloc::AllocError;
use words::Pass;

/// The outcome of a place that was to be run.
#[derive(Debug, Drop)]
pub enum Ran {
    /// The place is done, and resulted in this.
    Done(Outcome),
    /// This place was held by another pass.
    Busy(Place),
    /// This partition hasn't placed the place.
    NotPlaced(usize),
}

// What a place resulted in that the pass knows done.
fn done_outcome(
    batch: &Batch<RangeKey<'_>>,
    pass: Pass,
    index: usize,
) -> (Pass, Result<Outcome, AllocError>)
    requires same_table { IsPassOf batch.now pass }
    requires within { index < batch.now.key.batch.size }
    requires known { In index pass.view.known }
    ensures same { IsSamePass pass result.0 }
    ensures bodies { result.0.bodies ≡ pass.bodies }
    ensures learns { OnlyLearns pass.view result.0.view }
    ensures tells { DoneMeans batch.now.key.batch index result.1 }
{
    let (pass, told) = outcome(batch, pass, index);
    match told {
        Ok(Some(found)) => (pass, Ok(found)),
        Ok(None) => unreachable!(),
        Err(error) => (pass, Err(error)),
    }
}

// Runs the place of an index, as `run_place`.
fn run_index(
    batch: &Batch<RangeKey<'_>>,
    pass: Pass,
    index: usize,
) -> (Pass, Result<Ran, AllocError>)
    requires same_table { IsPassOf batch.now pass }
    requires within { index < batch.now.key.batch.size }
    ensures same { IsSamePass pass result.0 }
    ensures bodies { CountsBodies (runs_at batch.now.key.batch) pass result.0 }
    ensures tells { RanMeans batch.now.key.batch index pass.view result.1 result.0.view }
{
    let (pass, tried) = batch.try_run(pass, index);
    let Ok(came) = tried else {
        return (pass, Err(AllocError));
    };
    match came {
        Tried::Done => {
            let (pass, told) = done_outcome(batch, pass, index);
            match told {
                Ok(found) => (pass, Ok(Ran::Done(found))),
                Err(error) => (pass, Err(error)),
            }
        }
        Tried::Busy(other) => {
            let place = batch.key().batch().first_place() + other as u64;
            (pass, Ok(Ran::Busy(place)))
        }
        Tried::NotPlaced(partition) => (pass, Ok(Ran::NotPlaced(partition))),
    }
}

/// Runs a place of the batch, and before it those that it is referred to and that aren't done, and returns its outcome. The pass holds no
/// place afterwards. On `Err`, out of memory, also where the place is done.
pub fn run_place(
    batch: &Batch<RangeKey<'_>>,
    pass: Pass,
    place: Place,
) -> (Pass, Result<Ran, AllocError>)
    requires same_table { IsPassOf batch.now pass }
    requires begins { batch.now.key.batch.first ≤ place }
    requires within { place < batch.now.key.batch.first + batch.now.key.batch.size }
    ensures same { IsSamePass pass result.0 }
    ensures bodies { CountsBodies (runs_at batch.now.key.batch) pass result.0 }
    ensures tells { RanMeans batch.now.key.batch (place - batch.now.key.batch.first) pass.view result.1 result.0.view }
{
    let first = batch.key().batch().first_place();
    run_index(batch, pass, (place - first) as usize)
}
