//! How far a batch is completed.

use crate::completion::ends::Ends;
use crate::completion::lists::Lists;
use log_batch::LogBatch;
use std::alloc::Global;
use words::Closed;

/// A batch that is completed from what its words had as they were closed.
#[derive(Clone, Copy)]
pub(crate) struct Completion<'a> {
    pub(crate) alloc: Global,
    pub(crate) batch: &'a LogBatch<'a>,
    pub(crate) closed: &'a Closed,
}

/// The own words of the first places of a batch, and the ends of records that are known.
#[derive(Drop)]
pub(crate) struct BatchProgress {
    pub(crate) words: Lists,
    pub(crate) ends: Ends,
}

impl BatchProgress {
    ghost use Rattle.std.specs.Prelude.{◌≡◌, ℕ, None};
    ghost use Rattle.bohm_core_base.specs.Batch.{Batch};
    ghost use Rattle.filling.specs.Ends.{noted_end};
    ghost use Rattle.filling.specs.BatchProgress.{IsDoneTo};

    /// Nothing of any batch. It doesn't allocate.
    pub(crate) fn new(alloc: Global) -> Self
        ensures stands { (batch : Batch) → IsDoneTo batch 0 result }
        ensures none { (slot : ℕ) → noted_end result.ends slot ≡ None }
    {
        BatchProgress {
            words: Lists::new(alloc),
            ends: Ends::new(alloc),
        }
    }
}
