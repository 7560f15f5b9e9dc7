//! What of a batch is placed, and what its places are referred to.

ghost use Rattle.std.specs.Prelude.{◌≡◌, ◌<◌, ◌+◌, None, false, length, true};
ghost use Rattle.std.specs.Option.{MatchOption};
ghost use Rattle.bohm_core_base.specs.Batch.{reference_words};
ghost use Rattle.words.specs.Passes.{IsPassOf, gone_on};
ghost use Rattle.words.specs.Views.{HoldsNone, KnowsPast};
ghost use Rattle.filling_base.specs.Extending.{IsSamePass, OnlyLearns};
ghost use Rattle.filling_base.specs.References.{reference, reference_word};
ghost use Rattle.filling_base.specs.Tries.{MeetsUnplaced, PlacedMeans, UnplacedMeans};

use crate::batch::Batch;
use crate::fills::Fills;
use words::{Holding, Pass};

impl<K: Fills> Batch<K> {
    // The place that a reference of a placed place names, or none for what was there before the batch: one load.
    pub(crate) fn referred(
        &self,
        holding: &mut Holding,
        index: usize,
        number: usize,
    ) -> Option<usize>
        requires same_table { IsPassOf self.now holding.old }
        requires within { index < (K.batch self.now.key).size }
        requires number { number < length (reference_words (K.batch self.now.key) index) }
        requires past { KnowsPast (K.batch self.now.key) holding.old.view index }
        ensures same { holding.new ≡ holding.old }
        ensures value { reference_word result ≡ reference (K.batch self.now.key) index number }
    {
        let _places = self.key.places();
        self.words.reference(holding, index, number)
    }

    // A partition that was found not to have placed the place, if any: one load of each front, or none where the pass knows that
    // all is placed.
    pub(crate) fn unplaced(&self, holding: &mut Holding, index: usize) -> Option<usize>
        requires same_table { IsPassOf self.now holding.old }
        requires within { index < (K.batch self.now.key).size }
        ensures same { holding.new ≡ gone_on holding.old holding.new.view }
        ensures learns { OnlyLearns holding.old.view holding.new.view }
        ensures known { holding.old.view.placed ≡ true → holding.new ≡ holding.old }
        ensures found { MatchOption result (KnowsPast (K.batch self.now.key) holding.new.view index)
            (λ partition. MeetsUnplaced (K.batch self.now.key) index partition holding.old.view holding.new.view) }
    {
        if holding.knows_placed() {
            return None;
        }
        for partition in 0..self.key.partitions() {
            if self.words.front(holding, partition) <= index as u64 {
                return Some(partition);
            }
        }
        None
    }

    /// Whether every partition has placed every place: one load of each front until one is found that hasn't. A pass that found it so knows
    /// it from then on, and looks at no front again. It also returns true if the pass knows the last place done.
    pub fn all_placed(&self, pass: Pass) -> (Pass, bool)
        requires same_table { IsPassOf self.now pass }
        ensures same { IsSamePass pass result.0 }
        ensures all { result.1 ≡ true → PlacedMeans (K.batch self.now.key) pass.view result.0.view }
        ensures short { result.1 ≡ false → UnplacedMeans (K.batch self.now.key) pass.view result.0.view }
    {
        let last = self.key.places() - 1;
        let mut holding = Holding::begin(pass);
        match self.unplaced(&mut holding, last) {
            Some(_partition) => (holding.end(), false),
            None => (self.settled(holding, last), true),
        }
    }

    // The pass, which knows the fronts past the last place, and knows so from now on without them.
    fn settled(&self, mut holding: Holding, last: usize) -> Pass
        requires same_table { IsPassOf self.now holding }
        requires last { last + 1 ≡ (K.batch self.now.key).size }
        requires idle { HoldsNone holding.view }
        requires past { KnowsPast (K.batch self.now.key) holding.view last }
        ensures same { IsSamePass holding result }
        ensures learns { OnlyLearns holding.view result.view }
        ensures placed { 0 < (K.batch self.now.key).partitions → result.view.placed ≡ true }
    {
        if self.key.partitions() > 0 {
            self.words.settle_fronts(&mut holding, last);
        }
        holding.end()
    }
}
