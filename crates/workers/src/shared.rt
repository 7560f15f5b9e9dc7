//! What the workers of a batch share.

use crate::stop::Stop;
use filling_base::{Batch, Fills};
use model_base::Place;
use std::alloc::Global;
use std::marker::Model;

/// What the workers of a batch share. Contracts see the words of the batch.
pub(crate) struct Shared<'a, K: Fills, G> {
    pub(crate) alloc: Global,
    pub(crate) batch: &'a Batch<K>,
    /// Who is notified of its places.
    pub(crate) gate: &'a G,
    /// By which the workers are told to stop.
    pub(crate) stop: &'a Stop,
    /// Its first place in the log.
    pub(crate) start: Place,
}

impl<'a, K: Fills, G> Model for Shared<'a, K, G> {
    ghost use Rattle.std.specs.Prelude.{◌<◌, ◌+◌, ◌^◌};
    ghost use Rattle.words.specs.Passes.{Words};

    ghost Value = { Words K };

    ghost view = { λ shared. shared.batch.now };

    ghost invariant = { λ shared. shared.start + (K.batch shared.batch.now.key).size < 2 ^ 64 };
}

impl<K: Fills, G> Shared<'_, K, G> {
    ghost use Rattle.std.specs.Prelude.{◌≡◌};

    /// How many places the batch has.
    pub(crate) fn places(&self) -> usize
        ensures { result ≡ (K.batch self.now.key).size }
    {
        self.batch.key().places()
    }
}

impl<K: Fills, G> Drop for Shared<'_, K, G> {
    fn drop(self) {
        let Shared {
            alloc: _,
            batch: _,
            gate: _,
            stop: _,
            start: _,
        } = self;
    }
}
