//! What steps ask of a place beside what any batch says.

ghost use Rattle.std.specs.Prelude.{◌≡◌, ◌<◌};
ghost use Rattle.words.specs.Passes.{IsPassOf};

use filling::{Ran, RangeKey, outcome, run_place};
use filling_base::{Batch, Fills};
use model_base::{Outcome, Place};
use std::alloc::AllocError;
use words::Pass;

/// A batch of places of a log.
pub trait Places: Fills {
    /// The place of the log of index 0.
    fn first(&self) -> Place
        ensures { result ≡ (Self.batch self.now).first };

    /// The outcome of a place, if it is done.
    fn outcome(
        batch: &Batch<Self>,
        pass: Pass,
        index: usize,
    ) -> (Pass, Result<Option<Outcome>, AllocError>)
        requires pass { IsPassOf batch.now pass }
        requires within { index < (Self.batch batch.now.key).size }
        ensures { IsPassOf batch.now result.0 };

    /// Runs a place.
    fn run(batch: &Batch<Self>, pass: Pass, index: usize) -> (Pass, Result<Ran, AllocError>)
        requires pass { IsPassOf batch.now pass }
        requires within { index < (Self.batch batch.now.key).size }
        ensures { IsPassOf batch.now result.0 };
}

impl Places for RangeKey<'_> {
    fn first(&self) -> Place {
        self.batch().first_place()
    }

    fn outcome(
        batch: &Batch<Self>,
        pass: Pass,
        index: usize,
    ) -> (Pass, Result<Option<Outcome>, AllocError>) {
        outcome(batch, pass, index)
    }

    fn run(batch: &Batch<Self>, pass: Pass, index: usize) -> (Pass, Result<Ran, AllocError>) {
        run_place(
            batch,
            pass,
            batch.key().batch().first_place() + index as u64,
        )
    }
}
