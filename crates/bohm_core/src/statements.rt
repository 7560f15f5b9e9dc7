//! What the statements of a batch answer to what they are shown.

ghost use Rattle.std.specs.Prelude.{◌≡◌, ◌<◌, ◌^◌, IfOk, length};
ghost use Rattle.bohm_core_base.specs.Batch.{Batch, IsSoundBatch, reference_words, batch_slots, words_length};
ghost use Rattle.bohm_core_base.specs.Laws.{ShowsSerial};
ghost use Rattle.bohm_core_base.specs.Machine.{end_of, front_of, must_end, next_word, placed_references, start};

use crate::state::State;
use model_base::Place;
use std::alloc::AllocError;

/// The statements of a batch, and what is before it. An index is that of a place in the batch, from 0, and a slot that of a grant that was
/// made before the batch or that the batch may make. What a place stores and ends is only asked where the state shows it what the serial
/// run shows it. A trait, so that the machine and its law know nothing of logs.
pub trait Statements {
    ghost batch: { Self → Batch };

    /// How many places the batch has. The batch is one that the machine's law speaks of.
    fn places(&self) -> usize
        ensures value { result ≡ (batch self.now).size }
        ensures sound { IsSoundBatch (batch self.now) };

    /// How many partitions there are.
    fn partitions(&self) -> usize
        ensures { result ≡ (batch self.now).partitions };

    /// The place of the log of the batch's first statement. Fewer than 2^63 statements are before a batch, so that the place of every index
    /// fits 64 bits.
    fn first(&self) -> Place
        ensures value { result ≡ (batch self.now).first }
        ensures small { result < 2 ^ 63 };

    /// How many slots there are.
    fn slots(&self) -> usize
        ensures { result ≡ length (batch_slots (batch self.now)) };

    /// The place of the log that ended the record of a slot before the batch, if one did.
    fn end_before(&self, slot: usize) -> Option<Place>
        requires { slot < length (batch_slots (batch self.now)) }
        ensures { result ≡ end_of (start (batch self.now)) slot };

    /// How many references a place has: one for each access, and one for each table of its needs and deeds.
    fn references_length(&self, index: usize) -> usize
        requires { index < (batch self.now).size }
        ensures { result ≡ length (reference_words (batch self.now) index) };

    /// How many own words a place has.
    fn words_length(&self, index: usize) -> usize
        requires { index < (batch self.now).size }
        ensures { result ≡ words_length (batch self.now) index };

    /// The next own word of a place, by what the state shows it.
    fn next_word(&self, state: &State, index: usize) -> Result<u64, AllocError>
        requires within { index < (batch self.now).size }
        requires shown { ShowsSerial (batch self.now) state.now index }
        ensures { IfOk result (λ word. word ≡ next_word (batch self.now) state.now index) };

    /// Whether a place must end the record of a slot, by what the state shows it.
    fn must_end(&self, state: &State, index: usize, slot: usize) -> Result<bool, AllocError>
        requires within { index < (batch self.now).size }
        requires slot { slot < length (batch_slots (batch self.now)) }
        requires shown { ShowsSerial (batch self.now) state.now index }
        ensures { IfOk result (λ must. must ≡ must_end (batch self.now) state.now index slot) };

    /// The references of a partition's next place, with those into the partition stored.
    fn stored(&self, state: &State, partition: usize) -> Result<Vec<usize>, AllocError>
        requires { front_of state.now partition < (batch self.now).size }
        ensures { IfOk result (λ references. references.items
            ≡ placed_references (batch self.now) state.now partition (front_of state.now partition)) };
}
