//! By what a place of a batch is judged.

ghost use Rattle.std.specs.Prelude.{◌≡◌, ◌<◌, ◌+◌, true, length, slice_index_or};
ghost use Rattle.model_base.specs.Records.{end_below};
ghost use Rattle.bohm_core_base.specs.Batch.{IsSoundBatch, is_listed, batch_slots, reference_words, table_at, was_done, words_length};
ghost use Rattle.bohm_core_base.specs.Serial.{serial_words, whole_end};
ghost use Rattle.evaluation.specs.ReadSource.{IsDeedBefore, IsReferred, Reader, PassWork, referred_word};

use model_base::Place;

/// What a place of a batch, the reader, may read of others before it is judged, of which the serial run of the batch has the
/// same. Indices are those of places in the batch, from 0. Others may still store words while the reader reads; so a reading
/// may change what the reader knows, but neither which place it is nor what it did itself.
pub trait ReadSource {
    ghost as_reader: { Self → Reader };

    ghost work: { Self → PassWork };

    /// The reader's index.
    fn reader(&self) -> usize
        ensures value { result ≡ (as_reader self.now).index }
        ensures within { result < (as_reader self.now).batch.size }
        ensures sound { IsSoundBatch (as_reader self.now).batch };

    /// The index of the place that the reader's reference of a number is to, or none where it is to what was there before the batch.
    fn reference(&mut self, number: usize) -> Option<usize>
        requires { number < length (reference_words (as_reader self.old).batch (as_reader self.old).index) }
        ensures value { referred_word result ≡ slice_index_or
            (reference_words (as_reader self.old).batch (as_reader self.old).index) number 0 }
        ensures same { (as_reader self.new ≡ as_reader self.old) × (work self.new ≡ work self.old) };

    /// The own word of a number of a place that the reader refers to.
    fn own(&mut self, index: usize, number: usize) -> u64
        requires referred { IsReferred (as_reader self.old) index }
        requires number { number < words_length (as_reader self.old).batch index }
        ensures value { result ≡ slice_index_or (serial_words (as_reader self.old).batch index) number 0 }
        ensures same { (as_reader self.new ≡ as_reader self.old) × (work self.new ≡ work self.old) };

    /// Whether an earlier place with a deed on a table of the reader was done.
    fn was_done(&mut self, index: usize) -> bool
        requires deed { IsDeedBefore (as_reader self.old) index }
        ensures value { result ≡ was_done (serial_words (as_reader self.old).batch index) }
        ensures same { (as_reader self.new ≡ as_reader self.old) × (work self.new ≡ work self.old) };

    /// The place of the log at which the record of a slot ended whose grant is on a table of the reader. Below the reader it is
    /// that of the serial run; from the reader's place on, it may be known or not.
    fn end(&mut self, slot: usize) -> Option<Place>
        requires slot { slot < length (batch_slots (as_reader self.old).batch) }
        requires listed { is_listed ((as_reader self.old).batch.tables (as_reader self.old).index)
            (table_at (as_reader self.old).batch slot) ≡ true }
        ensures value { end_below ((as_reader self.old).batch.first + (as_reader self.old).index) result
            ≡ end_below ((as_reader self.old).batch.first + (as_reader self.old).index)
            (whole_end (as_reader self.old).batch slot) }
        ensures same { (as_reader self.new ≡ as_reader self.old) × (work self.new ≡ work self.old) };
}
