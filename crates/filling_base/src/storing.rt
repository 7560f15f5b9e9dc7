//! Stores what one place has to store.

ghost use Rattle.std.specs.Prelude.{◌≡◌, ◌<◌, ◌+◌, ◌^◌, [], length};
ghost use Rattle.bohm_core_base.specs.Batch.{words_length};
ghost use Rattle.bohm_core_base.specs.Serial.{serial_words};
ghost use Rattle.words.specs.Passes.{IsPassOf};
ghost use Rattle.words.specs.Views.{Holds, KnowsReferences};
ghost use Rattle.filling_base.specs.Extending.{Finishes, IsSamePass};
ghost use Rattle.filling_base.specs.Storing.{IsEnding, Stores, ended_below};

use model_base::Place;
use words::{BatchData, BatchWords, Holding};

// Stores the own words of a place that is held with nothing stored.
fn store_words<K: BatchData>(
    words: &BatchWords<K>,
    holding: &mut Holding,
    index: usize,
    own: &[u64],
)
    requires same_table { IsPassOf words.now holding.old }
    requires within { index < (K.batch words.now.key).size }
    requires held { Holds holding.old.view index 0 [] }
    requires ready { KnowsReferences (K.batch words.now.key) holding.old.view index }
    requires own { own.now ≡ serial_words (K.batch words.now.key) index }
    requires long { length own.now ≡ words_length (K.batch words.now.key) index }
    ensures same { IsSamePass holding.old holding.new }
    ensures bodies { holding.new.bodies ≡ holding.old.bodies }
    ensures stores { Stores index holding.old.view holding.new.view (length own.now) [] }
{
    for number in 0..own.len() {
        words.fill(holding, index, number, own[number]);
    }
}

// Sets ends of a place that is held and has all its own words.
fn store_ends<K: BatchData>(
    words: &BatchWords<K>,
    holding: &mut Holding,
    index: usize,
    place: Place,
    ends: &[usize],
)
    requires same_table { IsPassOf words.now holding.old }
    requires within { index < (K.batch words.now.key).size }
    requires held { Holds holding.old.view index (words_length (K.batch words.now.key) index) [] }
    requires ready { KnowsReferences (K.batch words.now.key) holding.old.view index }
    requires place { place ≡ (K.batch words.now.key).first + index }
    requires small { place < 2 ^ 63 }
    requires ends { IsEnding (K.batch words.now.key) (K.listed words.now.key) index ends.now }
    ensures same { IsSamePass holding.old holding.new }
    ensures bodies { holding.new.bodies ≡ holding.old.bodies }
    ensures stores { Stores index holding.old.view holding.new.view (words_length (K.batch words.now.key) index)
        (ended_below (K.listed words.now.key) ends.now (length ends.now)) }
{
    for number in 0..ends.len() {
        words.set_end(holding, index, ends[number], place);
    }
}

/// Stores the own words of a place that is held with nothing stored, sets the ends of the records that it ends, each by its number in the
/// list, and finishes the place. It counts no body. `place` is where it is in the log.
pub fn store<K: BatchData>(
    words: &BatchWords<K>,
    holding: &mut Holding,
    index: usize,
    place: Place,
    own: &[u64],
    ends: &[usize],
)
    requires same_table { IsPassOf words.now holding.old }
    requires within { index < (K.batch words.now.key).size }
    requires held { Holds holding.old.view index 0 [] }
    requires ready { KnowsReferences (K.batch words.now.key) holding.old.view index }
    requires place { place ≡ (K.batch words.now.key).first + index }
    requires small { place < 2 ^ 63 }
    requires own { own.now ≡ serial_words (K.batch words.now.key) index }
    requires long { length own.now ≡ words_length (K.batch words.now.key) index }
    requires ends { IsEnding (K.batch words.now.key) (K.listed words.now.key) index ends.now }
    ensures same { IsSamePass holding.old holding.new }
    ensures bodies { holding.new.bodies ≡ holding.old.bodies }
    ensures finishes { Finishes index holding.old.view holding.new.view }
{
    store_words(words, holding, index, own);
    store_ends(words, holding, index, place, ends);
    words.finish_place(holding, index);
}
