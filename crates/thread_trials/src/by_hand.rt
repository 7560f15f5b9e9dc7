//! What a pass stores of a place that it holds, by a call for each word, end and claim.

ghost use Rattle.std.specs.Prelude.{◌≡◌, ◌<◌, ◌≤◌, ◌+◌, ◌^◌, ◌∷◌, [], ℕ, suc, IfOk, IsTrue, length, true};
ghost use Rattle.bohm_core_base.specs.declared.event.Event.TheVariants.{Claim};
ghost use Rattle.bohm_core_base.specs.Batch.{reference_words, words_length};
ghost use Rattle.words.specs.Layout.{IsListed};
ghost use Rattle.words.specs.Passes.{IsPassOf};
ghost use Rattle.words.specs.Views.{Holds, In};

use crate::places::Places;
use crate::steps::{index_line, print_hold, print_steps};
use crate::telling::Teller;
use filling_base::Batch;
use model_base::{MOST_PLACES, Place};
use trials_base::{Attempt, TrialFault};
use words::{
    BatchData, BatchWords, Holding, Pass, Seen, own_events_tell_what_is_held,
    passes_keep_what_they_know,
};

/// A row in which another pass holds a place, while some steps are made, and then stores so many of its words.
#[derive(Clone, Copy)]
pub struct Storing<'a> {
    pub index: usize,
    pub steps: &'a str,
    pub count: usize,
}

/// Reads such a row: lines `hold INDEX` and `fill COUNT` with steps between them. Returns the steps after them too.
pub fn parse_storing(text: &str) -> Attempt<(Storing<'_>, &str)> {
    let (_, rest) = text.split_once("hold ").ok_or(TrialFault::NotText)?;
    let (held, rest) = rest.split_once("fill ").ok_or(TrialFault::NotText)?;
    let (index, steps) = index_line(held)?;
    let (count, after) = index_line(rest)?;
    let storing = Storing {
        index,
        steps,
        count,
    };
    Ok((storing, after))
}

/// Whether a place refers to none of its batch.
fn refers_to_none<K: BatchData>(key: &K, index: usize) -> bool
    requires placed { K.placed key.now ≡ true }
    requires within { index < (K.batch key.now).size }
    ensures { IsTrue result → (other : ℕ) → ¬ (In (suc other) (reference_words (K.batch key.now) index)) }
{
    for number in 0..key.references_length(index) {
        if key.reference_word(index, number) != 0 {
            return false;
        }
    }
    true
}

/// Stores the first words of a place, as other words of the same batch have them.
fn fill_words<K: BatchData>(
    words: &BatchWords<K>,
    holding: &mut Holding,
    index: usize,
    count: usize,
    other: &BatchWords<K>,
    known: &mut Holding,
)
    requires pass { IsPassOf words.now holding.old }
    requires within { index < (K.batch words.now.key).size }
    requires few { count ≤ words_length (K.batch words.now.key) index }
    requires held { Holds holding.old.view index 0 [] }
    requires ready { (other : ℕ) → ¬ (In (suc other) (reference_words (K.batch words.now.key) index)) }
    requires done { IsPassOf other.now known.old × In index known.old.view.known }
    requires same { K.batch other.now.key ≡ K.batch words.now.key }
    ensures pass { IsPassOf words.now holding.new }
    ensures held { Holds holding.new.view index count [] }
    ensures done { IsPassOf other.now known.new × In index known.new.view.known }
{
    own_events_tell_what_is_held();
    for number in 0..count {
        let word = other.own(known, index, number);
        words.fill(holding, index, number, word);
    }
}

/// Sets the one end of a place that has all its words, as other words of the same batch have it, and finishes the place. Returns whether
/// it could.
fn end_and_finish<K: BatchData>(
    words: &BatchWords<K>,
    holding: &mut Holding,
    index: usize,
    place: Place,
    other: &BatchWords<K>,
    known: &mut Holding,
) -> bool
    requires pass { IsPassOf words.now holding.old }
    requires within { index < (K.batch words.now.key).size }
    requires held { Holds holding.old.view index (words_length (K.batch words.now.key) index) [] }
    requires ready { (other : ℕ) → ¬ (In (suc other) (reference_words (K.batch words.now.key) index)) }
    requires done { IsPassOf other.now known.old × In index known.old.view.known }
    requires same { K.batch other.now.key ≡ K.batch words.now.key }
    requires listed { K.listed other.now.key ≡ K.listed words.now.key }
    requires one { (length (K.listed words.now.key) ≡ 1) × IsListed (K.batch words.now.key) (K.listed words.now.key) }
    requires place { (place ≡ (K.batch words.now.key).first + index) × (place < 2 ^ 63) }
{
    own_events_tell_what_is_held();
    let Some(end) = other.end(known, 0) else {
        return false;
    };
    if end != place {
        return false;
    }
    words.set_end(holding, index, 0, place);
    words.finish_place(holding, index);
    true
}

/// Stores the first words of a place that a pass holds, and if these are all, its one end and that it is done. The pass is dropped. Returns
/// whether it could, for a place that refers to none of its batch.
fn stored<K: Places>(
    batch: &Batch<K>,
    mut holding: Holding,
    index: usize,
    count: usize,
    other: &Batch<K>,
    done: Pass,
) -> bool
    requires pass { IsPassOf batch.now holding }
    requires within { index < (K.batch batch.now.key).size }
    requires held { holding.view.events ≡ Claim holding.number index ∷ [] }
    requires placed { K.placed batch.now.key ≡ true }
    requires done { IsPassOf other.now done }
    requires same { K.batch other.now.key ≡ K.batch batch.now.key }
    requires listed { K.listed other.now.key ≡ K.listed batch.now.key }
{
    passes_keep_what_they_know();
    let (done, _tried) = other.try_run(done, index);
    let mut known = Holding::begin(done);
    let (key, words, others) = (batch.key(), batch.words(), other.words());
    let all = key.words_length(index);
    if count > all || !refers_to_none(key, index) || others.look(&mut known, index) != Seen::Done {
        return false;
    }
    fill_words(words, &mut holding, index, count, others, &mut known);
    let place = key.first().saturating_add(index as u64);
    if count < all || key.ends() != 1 || place > MOST_PLACES {
        return count < all;
    }
    end_and_finish(words, &mut holding, index, place, others, &mut known)
}

/// Makes the steps of a row while another pass holds a place, of which that pass then stores the first words, or all that it has to store,
/// as another batch of the same places has them.
pub fn print_storing<K: Places, R: Print>(
    teller: &Teller<'_, R>,
    batch: &Batch<K>,
    pass: Pass,
    other: &Batch<K>,
    done: Pass,
    row: &Storing<'_>,
) -> Attempt<Pass>
    requires pass { IsPassOf batch.now pass }
    requires placed { K.placed batch.now.key ≡ true }
    requires done { IsPassOf other.now done }
    requires same { K.batch other.now.key ≡ K.batch batch.now.key }
    requires listed { K.listed other.now.key ≡ K.listed batch.now.key }
    ensures { IfOk result (λ pass. IsPassOf batch.now pass) }
{
    let (index, count) = (row.index, row.count);
    let (pass, holding) = print_hold(teller, batch, pass, index)?;
    let pass = print_steps(teller, batch, pass, row.steps)?;
    if !stored(batch, holding, index, count, other, done) {
        return Err(TrialFault::Call);
    }
    println!(teller.rt; "fill {count}")?;
    Ok(pass)
}
