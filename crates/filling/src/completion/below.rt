//! What a place of a batch is shown by the places below it.

ghost use Rattle.std.specs.Prelude.{◌≡◌};
ghost use Rattle.log_batch.specs.Supplied.{batch_of};

use crate::completion::batch_progress::BatchProgress;
use evaluation::{ReadSource, was_done};
use log_batch::LogBatch;
use model_base::Place;
use own_words::word_at;
use std::marker::Model;
use words::Closed;

/// A place of a closed batch of which all places below it are completed.
#[derive(Drop)]
pub(crate) struct Below<'a> {
    batch: &'a LogBatch<'a>,
    closed: &'a Closed,
    progress: &'a BatchProgress,
    index: usize,
}

impl<'a> Model for Below<'a> {
    ghost use Rattle.std.specs.Prelude.{◌<◌};
    ghost use Rattle.log_batch.specs.Laws.{IsOfLog};
    ghost use Rattle.log_batch.specs.Supplied.{batch_of, range_of};
    ghost use Rattle.evaluation.specs.ReadSource.{RangePlace};
    ghost use Rattle.words.specs.Closing.{HasItsReferences};
    ghost use Rattle.filling.specs.BatchProgress.{IsDoneTo};

    ghost Value = { RangePlace };

    ghost view = { λ place. record { ranged = place.batch.now; index = place.index } };

    ghost invariant = { λ place. IsDoneTo (batch_of place.batch.now) place.index place.progress.now
        × (place.index < place.batch.now.size) × IsOfLog (range_of place.batch.now)
        × HasItsReferences (batch_of place.batch.now) place.closed.now };
}

impl<'a> Below<'a> {
    ghost use Rattle.filling.specs.BatchProgress.{ComesNext};

    /// The place of an index, as a reader of what is below it.
    pub(crate) fn new(
        batch: &'a LogBatch<'a>,
        closed: &'a Closed,
        progress: &'a BatchProgress,
        index: usize,
    ) -> Self
        requires { ComesNext (batch_of batch.now) closed.now index progress.now }
        ensures { result ≡ record { ranged = batch.now; index = index } }
    {
        let _log = batch.log();
        Below {
            batch,
            closed,
            progress,
            index,
        }
    }
}

impl ReadSource for Below<'_> {
    ghost use Rattle.evaluation.specs.ReadSource.{reader_of};
    ghost use Rattle.evaluation.specs.ReadSource.{no_work};

    ghost as_reader = { reader_of };

    ghost work = { λ _. no_work };

    fn reader(&self) -> usize {
        self.index
    }

    fn reference(&mut self, number: usize) -> Option<usize> {
        self.closed.reference(self.index, number)
    }

    fn own(&mut self, index: usize, number: usize) -> u64 {
        word_at(self.progress.words.at(index), number)
    }

    fn was_done(&mut self, index: usize) -> bool {
        was_done(self.progress.words.at(index))
    }

    fn end(&mut self, slot: usize) -> Option<Place> {
        match self.progress.ends.of(slot) {
            Some(end) => Some(end),
            None => self.batch.end_at_first(slot),
        }
    }
}
