//! The batch whose words are shared.

ghost use Rattle.std.specs.Prelude.{◌*◌, ◌≡◌, ◌<◌, ◌≤◌, ℕ, Bool, List, length, true};
ghost use Rattle.bohm_core_base.specs.Batch.{Batch, IsSoundBatch, reference_words, words_length};
ghost use Rattle.words.specs.Layout.{IsListed, reference_at};

use model_base::{MOST_GRANTEES, MOST_PARTITIONS, MOST_PLACES};

/// How many own words a place has at most. With its claim they are a block of at most 256 words.
pub const MOST_WORDS_OF_A_PLACE: usize = 255;

/// How many references a place has at most.
pub const MOST_REFERENCES_OF_A_PLACE: usize = 255;

/// How many grants a place makes at most: one of each of the four kinds to each of its grantees.
pub const MOST_GRANTS_OF_A_PLACE: usize = 4 * MOST_GRANTEES;

/// The constant data of a batch: which batch it is, whether all is placed before its words are made, and which slots have a word for their
/// record's end. These are slots without an end before the batch, and every slot whose record a place of the batch ends by the serial run
/// is among them. Each number has a limit, so a batch has fewer than 2^43 words. A trait, since the words of a batch are read and stored by
/// these numbers alone, whatever its statements are.
pub trait BatchData {
    ghost batch: { Self → Batch };

    ghost listed: { Self → List ℕ };

    ghost placed: { Self → Bool };

    /// How many places the batch has: one at least, and at most `MOST_PLACES`. The batch is one that the machine's law speaks of.
    fn places(&self) -> usize
        ensures value { result ≡ (batch self.now).size }
        ensures some { 0 < result }
        ensures few { result ≤ MOST_PLACES }
        ensures sound { IsSoundBatch (batch self.now) };

    /// How many own words a place has: at most `MOST_WORDS_OF_A_PLACE`.
    fn words_length(&self, index: usize) -> usize
        requires { index < (batch self.now).size }
        ensures value { result ≡ words_length (batch self.now) index }
        ensures few { result ≤ MOST_WORDS_OF_A_PLACE };

    /// How many partitions there are: at most `MOST_PARTITIONS`.
    fn partitions(&self) -> usize
        ensures value { result ≡ (batch self.now).partitions }
        ensures few { result ≤ MOST_PARTITIONS };

    /// How many references a place has: at most `MOST_REFERENCES_OF_A_PLACE`.
    fn references_length(&self, index: usize) -> usize
        requires { index < (batch self.now).size }
        ensures value { result ≡ length (reference_words (batch self.now) index) }
        ensures few { result ≤ MOST_REFERENCES_OF_A_PLACE };

    /// A reference of a place, if all is placed: 0 for what was there before the batch, or one more than the index of a place.
    fn reference_word(&self, index: usize, number: usize) -> u64
        requires placed { placed self.now ≡ true }
        requires within { index < (batch self.now).size }
        requires number { number < length (reference_words (batch self.now) index) }
        ensures { result ≡ reference_at (batch self.now) index number };

    /// How many slots have a word for their record's end: at most `MOST_GRANTS_OF_A_PLACE` of each of `MOST_PLACES` places, since each has
    /// another grant. Each of them has no end before the batch, none is listed twice, and all whose records the batch ends are among them.
    fn ends(&self) -> usize
        ensures value { result ≡ length (listed self.now) }
        ensures few { result ≤ MOST_GRANTS_OF_A_PLACE * MOST_PLACES }
        ensures listed { IsListed (batch self.now) (listed self.now) };
}
