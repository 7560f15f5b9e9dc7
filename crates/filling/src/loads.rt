//! What a pass loads of others for a place of which it knows all references done.

ghost use Rattle.std.specs.Prelude.{◌≡◌, ◌<◌, None, length};
ghost use Rattle.bohm_core_base.specs.Batch.{batch_slots, was_done};
ghost use Rattle.bohm_core_base.specs.Machine.{end_of, start};
ghost use Rattle.bohm_core_base.specs.Serial.{serial_words};
ghost use Rattle.log_batch.specs.Supplied.{batch_of};
ghost use Rattle.evaluation.specs.ReadSource.{IsDeedBefore};
ghost use Rattle.words.specs.Passes.{gone_on};
ghost use Rattle.words.specs.Views.{KnowsReferences, with_known};
ghost use Rattle.filling.specs.Readings.{IsEndBelow, IsPassIn};

use crate::key::RangeKey;
use bohm_core_base::{done_places_are_serial, other_records_keep_their_ends};
use model_base::Place;
use own_words::DONE;
use words::{BatchData, BatchWords, Holding, passes_keep_what_they_know};

// Whether a place with a deed on a table of the reader was done, where it lies before the reader. By its claim the pass knows
// it done from then on.
pub(crate) fn deed_was_done<K: BatchData>(
    key: &K,
    words: &BatchWords<K>,
    holding: &mut Holding,
    reader: usize,
    index: usize,
) -> bool
    requires pass { IsPassIn words.now key.now holding.old }
    requires within { reader < (K.batch words.now.key).size }
    requires ready { KnowsReferences (K.batch words.now.key) holding.old.view reader }
    requires deed { IsDeedBefore (record { batch = K.batch words.now.key; index = reader }) index }
    ensures same { holding.new ≡ gone_on holding.old (with_known holding.old.view index) }
    ensures value { result ≡ was_done (serial_words (K.batch words.now.key) index) }
{
    passes_keep_what_they_know();
    let _places = key.places();
    let _seen = words.look(holding, index);
    words.own(holding, index, 0) == DONE
}

// The end of the record of a slot that has none before the batch, as its end word gives it; without such a word it has none. For a place of
// which the pass knows all references done, and on one of whose tables the grant is, it says below the place what the serial run does.
fn end_by_word<'a>(
    key: &RangeKey<'a>,
    words: &BatchWords<RangeKey<'a>>,
    holding: &mut Holding,
    slot: usize,
) -> Option<Place>
    requires pass { IsPassIn words.now key.now holding.old }
    requires slot { slot < length (batch_slots (batch_of key.now.batch)) }
    requires open { end_of (start (batch_of key.now.batch)) slot ≡ None }
    ensures same { holding.new ≡ holding.old }
    ensures told { IsEndBelow (batch_of key.now.batch) holding.old.view slot result }
{
    other_records_keep_their_ends();
    let _places = key.places();
    let _ends = key.ends();
    match key.number_of(slot) {
        Some(end) => words.end(holding, end),
        None => None,
    }
}

// The end of the record of a slot: that before the batch if it has one, or else as its end word gives it.
pub(crate) fn end_at<'a>(
    key: &RangeKey<'a>,
    words: &BatchWords<RangeKey<'a>>,
    holding: &mut Holding,
    slot: usize,
) -> Option<Place>
    requires pass { IsPassIn words.now key.now holding.old }
    requires slot { slot < length (batch_slots (batch_of key.now.batch)) }
    ensures same { holding.new ≡ holding.old }
    ensures told { IsEndBelow (batch_of key.now.batch) holding.old.view slot result }
{
    done_places_are_serial();
    let _places = key.places();
    match key.batch().end_at_first(slot) {
        Some(end) => Some(end),
        None => end_by_word(key, words, holding, slot),
    }
}
