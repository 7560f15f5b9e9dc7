//! What a place of a batch of a log resulted in.

ghost use Rattle.std.specs.Prelude.{◌≡◌, ◌<◌, ◌≤◌, ◌++◌, ◌∷◌, [], IfOk, OnErr, OnOk, Some, length, take};
ghost use Rattle.bohm_core_base.specs.Batch.{words_length};
ghost use Rattle.bohm_core_base.specs.Serial.{serial_ends, serial_words};
ghost use Rattle.log_batch.specs.Supplied.{batch_of};
ghost use Rattle.words.specs.Layout.{listed_slot_at};
ghost use Rattle.words.specs.Passes.{IsPassOf};
ghost use Rattle.words.specs.Views.{In};
ghost use Rattle.filling_base.specs.Extending.{IsSamePass};
ghost use Rattle.filling_base.specs.References.{IsRevocation};
ghost use Rattle.filling.specs.Outcomes.{IsEndedList, OutcomeMeans, ended_ranks_at, outcome_in};
ghost use Rattle.filling.specs.Readings.{IsPassIn, KnowsDone};

use crate::ends::has_revocation;
use crate::key::RangeKey;
use bohm_core_base::slots_stand_in_order;
use evaluation::words_tell_outcomes;
use filling_base::Batch;
use log_batch::words_length;
use model_base::{Items, Outcome, RecordName};
use own_words::{MOST_OWN_WORDS, decoded};
use std::alloc::AllocError;
use words::{BatchData, BatchWords, Holding, Pass, Seen};

// The own words of a place that the pass knows done: this many, and 0 after them.
fn load_own<K: BatchData>(
    key: &K,
    words: &BatchWords<K>,
    holding: &mut Holding,
    index: usize,
    count: usize,
) -> [u64; MOST_OWN_WORDS]
    requires pass { IsPassIn words.now key.now holding.old }
    requires within { index < (K.batch words.now.key).size }
    requires known { In index holding.old.view.known }
    requires count { count ≡ words_length (K.batch words.now.key) index }
    requires few { count ≤ MOST_OWN_WORDS }
    ensures same { holding.new ≡ holding.old }
    ensures value { take count result ≡ serial_words (K.batch words.now.key) index }
{
    let _places = key.places();
    let mut own = [0u64; MOST_OWN_WORDS];
    for number in 0..count {
        own[number] = words.own(holding, index, number);
    }
    own
}

// Whether the place ended the record of a listed slot, by its end word.
fn ended_record<'a>(
    key: &RangeKey<'a>,
    words: &BatchWords<RangeKey<'a>>,
    holding: &mut Holding,
    index: usize,
    number: usize,
) -> bool
    requires done { KnowsDone words.now key.now holding.old index }
    requires listed { number < length key.now.slots }
    ensures same { holding.new ≡ holding.old }
    ensures value { result ≡ serial_ends (batch_of key.now.batch) index (listed_slot_at key.now.slots number) }
{
    let place = key.batch().first_place() + index as u64;
    match words.end(holding, number) {
        Some(end) => end == place,
        None => false,
    }
}

// One more name, if the place ended the record of the listed slot.
fn put_ended<'a>(
    key: &RangeKey<'a>,
    words: &BatchWords<RangeKey<'a>>,
    holding: &mut Holding,
    index: usize,
    number: usize,
    names: &mut Vec<RecordName>,
) -> Result<(), AllocError>
    requires done { KnowsDone words.now key.now holding.old index }
    requires listed { number < length key.now.slots }
    ensures same { holding.new ≡ holding.old }
    ensures put { OnOk result
        (names.new.items ≡ names.old.items ++ ended_ranks_at (batch_of key.now.batch) (listed_slot_at key.now.slots number ∷ []) index) }
{
    let _ends = key.ends();
    if !ended_record(key, words, holding, index, number) {
        return Ok(());
    }
    let grant = key.batch().grant(key.slots()[number]);
    names.push(grant.name())?;
    Ok(())
}

// The outcome that the own words of a place give, which the pass knows done. Of a revocation the records are given that it ended.
fn outcome_told<'a>(
    key: &RangeKey<'a>,
    words: &BatchWords<RangeKey<'a>>,
    holding: &mut Holding,
    index: usize,
    ended: Items<RecordName>,
) -> Outcome
    requires done { KnowsDone words.now key.now holding.old index }
    requires ended { IsEndedList key.now.batch index ended }
    ensures same { holding.new ≡ holding.old }
    ensures value { outcome_in key.now.batch index ≡ Some result }
{
    words_tell_outcomes();
    let batch = key.batch();
    let _first = batch.first_place();
    let statement = batch.statement(index);
    let count = words_length(batch, index);
    let own = load_own(key, words, holding, index, count);
    decoded(&statement.form, &own[..count], ended)
}

// The names of the records that a place ended, if it has a revocation, as far as its outcome gives them. The pass knows it done. An error
// means out of memory, which only a revocation may have.
fn ended_list<'a>(
    key: &RangeKey<'a>,
    words: &BatchWords<RangeKey<'a>>,
    holding: &mut Holding,
    index: usize,
) -> Result<Items<RecordName>, AllocError>
    requires done { KnowsDone words.now key.now holding.old index }
    ensures same { holding.new ≡ holding.old }
    ensures value { IfOk result (λ ended. IsEndedList key.now.batch index ended) }
    ensures revokes { OnErr result (IsRevocation (batch_of key.now.batch) index) }
{
    slots_stand_in_order();
    let batch = key.batch();
    if !has_revocation(batch, index) {
        return Ok(Items::empty(batch.alloc()));
    }
    let _statement = batch.statement(index);
    let _slots = key.slots();
    let _ends = key.ends();
    let mut names = Vec::new(batch.alloc());
    for number in 0..key.slots().len() {
        put_ended(key, words, holding, index, number, &mut names)?;
    }
    Ok(Items::new(names))
}

// The outcome of a place that the pass knows done. An error means out of memory, which only a revocation may have.
fn outcome_known<'a>(
    key: &RangeKey<'a>,
    words: &BatchWords<RangeKey<'a>>,
    holding: &mut Holding,
    index: usize,
) -> Result<Outcome, AllocError>
    requires done { KnowsDone words.now key.now holding.old index }
    ensures same { holding.new ≡ holding.old }
    ensures value { IfOk result (λ found. outcome_in key.now.batch index ≡ Some found) }
    ensures revokes { OnErr result (IsRevocation (batch_of key.now.batch) index) }
{
    let ended = ended_list(key, words, holding, index)?;
    Ok(outcome_told(key, words, holding, index, ended))
}

/// The outcome of a place, if it is done: one load of its claim, its own words, and for a revocation the end words of the batch. It is
/// returned for each place that the pass knows done, and of one that the load finds done, which the pass knows from then on. There is none
/// of a place that was free or that another pass held. An error means out of memory for the list of what a revocation ended; the pass knows
/// the place done then too.
pub fn outcome(
    batch: &Batch<RangeKey<'_>>,
    pass: Pass,
    index: usize,
) -> (Pass, Result<Option<Outcome>, AllocError>)
    requires same_table { IsPassOf batch.now pass }
    requires within { index < batch.now.key.batch.size }
    ensures same { IsSamePass pass result.0 }
    ensures bodies { result.0.bodies ≡ pass.bodies }
    ensures tells { OutcomeMeans batch.now.key.batch index pass.view result.1 result.0.view }
{
    let mut holding = Holding::begin(pass);
    match batch.words().look(&mut holding, index) {
        Seen::Done => match outcome_known(batch.key(), batch.words(), &mut holding, index) {
            Ok(found) => (holding.end(), Ok(Some(found))),
            Err(fault) => (holding.end(), Err(fault)),
        },
        Seen::Free => (holding.end(), Ok(None)),
        Seen::Held => (holding.end(), Ok(None)),
    }
}
