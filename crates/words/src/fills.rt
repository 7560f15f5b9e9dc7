//! What is stored of a place: own words, ends, and that it is done; and what is read of it.

ghost use Rattle.std.specs.Prelude.{◌≡◌, ◌<◌, ◌+◌, ◌^◌, true, length, slice_index_or};
ghost use Rattle.bohm_core_base.specs.declared.event.Event.TheVariants.{End, Fill, Finish};
ghost use Rattle.bohm_core_base.specs.Batch.{words_length};
ghost use Rattle.bohm_core_base.specs.Serial.{serial_ends, serial_words};
ghost use Rattle.words.specs.Layout.{listed_slot_at};
ghost use Rattle.words.specs.Passes.{IsPassOf, gone_on};
ghost use Rattle.words.specs.Meanings.{EndMeans, HoldsWhole};
ghost use Rattle.words.specs.Views.{Holds, In, KnowsReferences, with_event, with_known};

use crate::batch_data::BatchData;
use crate::claims::DONE;
use crate::optional::number_in;
use crate::table::{BatchWords, Holding};
use model_base::Place;
use std::marker::Brand;

impl<K: BatchData> BatchWords<K> {
    /// Stores the next own word of a place that the pass holds and of which it knows all references done: one store. The word
    /// is the serial run's.
    pub fn fill(&self, pass: &mut Holding, index: usize, number: usize, word: u64)
        requires same_table { IsPassOf self.now pass.old }
        requires within { index < (K.batch self.now.key).size }
        requires missing { number < words_length (K.batch self.now.key) index }
        requires held { (ended : _) × Holds pass.old.view index number ended }
        requires ready { KnowsReferences (K.batch self.now.key) pass.old.view index }
        requires right { word ≡ slice_index_or (serial_words (K.batch self.now.key) index) number 0 }
        ensures { pass.new ≡ gone_on pass.old (with_event pass.old.view (Fill pass.old.number index)) }
    {
        let at = self.own_at(index, number);
        self.put::<Brand>(&mut pass.seat, at, word, index, 0);
    }

    /// Stores a listed end, not yet set, of a record that the place ends by the serial run: one store. The pass holds the place, has stored
    /// all its own words, and knows all its references done. `place` is where it is in the log.
    pub fn set_end(&self, pass: &mut Holding, index: usize, end: usize, place: Place)
        requires same_table { IsPassOf self.now pass.old }
        requires within { index < (K.batch self.now.key).size }
        requires listed { end < length (K.listed self.now.key) }
        requires held { (ended : _)
            × Holds pass.old.view index (words_length (K.batch self.now.key) index) ended
            × ¬ (In (listed_slot_at (K.listed self.now.key) end) ended) }
        requires ready { KnowsReferences (K.batch self.now.key) pass.old.view index }
        requires right { serial_ends (K.batch self.now.key) index (listed_slot_at (K.listed self.now.key) end) ≡ true }
        requires place { place ≡ (K.batch self.now.key).first + index }
        requires small { place < 2 ^ 63 }
        ensures { pass.new ≡ gone_on pass.old (with_event pass.old.view
            (End pass.old.number index (listed_slot_at (K.listed self.now.key) end))) }
    {
        let at = self.end_at(end);
        self.put::<Brand>(&mut pass.seat, at, place + 1, index, end);
    }

    /// Sets the claim of a place to done: one store. The pass holds the place, and has stored all own words and all ends that
    /// the place sets by the serial run.
    pub fn finish_place(&self, pass: &mut Holding, index: usize)
        requires same_table { IsPassOf self.now pass.old }
        requires within { index < (K.batch self.now.key).size }
        requires whole { HoldsWhole (K.batch self.now.key) pass.old.view index }
        ensures { pass.new ≡ gone_on pass.old (with_known (with_event pass.old.view (Finish pass.old.number index)) index) }
    {
        let at = self.claim_at(index);
        self.put::<Brand>(&mut pass.seat, at, DONE, index, 0);
    }

    /// The own word of a number of a place that the pass knows done: one load. It is the serial run's.
    pub fn own(&self, pass: &mut Holding, index: usize, number: usize) -> u64
        requires same_table { IsPassOf self.now pass.old }
        requires within { (index < (K.batch self.now.key).size) × (number < words_length (K.batch self.now.key) index) }
        requires known { In index pass.old.view.known }
        ensures same { pass.new ≡ pass.old }
        ensures value { result ≡ slice_index_or (serial_words (K.batch self.now.key) index) number 0 }
    {
        let at = self.own_at(index, number);
        self.get::<Brand>(&mut pass.seat, at, index, number)
    }

    /// A listed end, if it is set: the place that ends the record by the serial run. One load. It is set where the pass knows the ending
    /// place done; and for a place of which the pass knows all references done, and on one of whose tables the grant is, the end that is
    /// read shows below the place what the serial run's does.
    pub fn end(&self, pass: &mut Holding, end: usize) -> Option<Place>
        requires same_table { IsPassOf self.now pass.old }
        requires listed { end < length (K.listed self.now.key) }
        ensures same { pass.new ≡ pass.old }
        ensures tells { EndMeans (K.batch self.now.key) (listed_slot_at (K.listed self.now.key) end) pass.old.view result }
    {
        let at = self.end_at(end);
        let word = self.get::<Brand>(&mut pass.seat, at, 0, end);
        number_in(word)
    }
}
