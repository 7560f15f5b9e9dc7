//! A pass, as it reads for a place that it is about to fill.

ghost use Rattle.std.specs.Prelude.{[], ℕ, List, None, Option};
ghost use Rattle.filling.specs.Keys.{Key};
ghost use Rattle.words.specs.Passes.{Words};

use crate::key::RangeKey;
use crate::loads::{deed_was_done, end_at};
use evaluation::ReadSource;
use model_base::Place;
use std::marker::{Brand, Model, PhantomData};
use words::{BatchData, BatchWords, Holding};

/// Which words a pass reads, and what it knew as it began, whoever has it as `&mut` meanwhile: a call picks both.
pub(crate) trait Named {
    ghost words: { Option (Words Key) };

    ghost known: { List ℕ };
}

impl Named for Brand {
    ghost words = { None };

    ghost known = { [] };
}

/// A pass that knows a place placed and all done that it is referred to, and reads for it.
pub(crate) struct PassReader<'b, 'a, N: Named> {
    pub(crate) key: &'b RangeKey<'a>,
    pub(crate) words: &'b BatchWords<RangeKey<'a>>,
    pub(crate) holding: Holding,
    pub(crate) index: usize,
    pub(crate) named: PhantomData<N>,
}

impl<'b, 'a, N: Named> Model for PassReader<'b, 'a, N> {
    ghost use Rattle.filling.specs.Readings.{IsReadingPass, PlaceReading, work_of};

    ghost Value = { PlaceReading };

    ghost view = { λ reader. record { ranged = reader.key.now.batch; index = reader.index; work = work_of reader.holding } };

    ghost invariant = { λ reader. IsReadingPass reader.words.now reader.key.now reader.holding reader.index N.words N.known };
}

impl<N: Named> ReadSource for PassReader<'_, '_, N> {
    ghost use Rattle.filling.specs.Readings.{PlaceReading, reader_in};

    ghost as_reader = { reader_in };

    ghost work = { λ (reading : PlaceReading). reading.work };

    fn reader(&self) -> usize {
        let _places = self.key.places();
        self.index
    }

    fn reference(&mut self, number: usize) -> Option<usize> {
        let _places = self.key.places();
        self.words.reference(&mut self.holding, self.index, number)
    }

    fn own(&mut self, index: usize, number: usize) -> u64 {
        self.words.own(&mut self.holding, index, number)
    }

    fn was_done(&mut self, index: usize) -> bool {
        deed_was_done(self.key, self.words, &mut self.holding, self.index, index)
    }

    fn end(&mut self, slot: usize) -> Option<Place> {
        end_at(self.key, self.words, &mut self.holding, slot)
    }
}
