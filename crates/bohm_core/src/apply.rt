//! What one event does.

ghost use Rattle.std.specs.Prelude.{◌≡◌, ◌<◌, ◌^◌, ℕ, ◌+◌, Bool, true, false, nat_lt, not, IfOk, IsTrue, OnErr, length, if◌then◌else◌};
ghost use Rattle.bohm_core_base.specs.Batch.{batch_slots, words_length};
ghost use Rattle.bohm_core_base.specs.Laws.{ShowsSerial};
ghost use Rattle.bohm_core_base.specs.Machine.{all_below, all_ended, all_filled, can_claim, can_give_back, end_of, hold_of, is_held_by, own_of, with_hold};
ghost use Rattle.bohm_core_base.specs.Serial.{is_end};
ghost use Rattle.bohm_core.specs.Running.{Applies, IsReached};
ghost use Rattle.bohm_core.specs.Storage.{takes_memory};

use crate::state::State;
use crate::statements::Statements;
use bohm_core_base::{Event, Hold};
use model_base::Place;
use std::alloc::AllocError;

/// An actor, and the place at which it has its turn.
#[derive(Clone, Copy)]
struct Turn {
    actor: u64,
    index: usize,
}

/// Whether the actor holds the place.
fn is_held(state: &State, turn: Turn) -> bool
    ensures value { result ≡ is_held_by turn.actor (hold_of state.now turn.index) }
    ensures within { IsTrue result → turn.index < length state.now.holds }
    ensures small { IsTrue result → turn.index < 2 ^ 63 }
{
    if turn.index < state.places() {
        match state.hold(turn.index) {
            Hold::Held { actor } => actor == turn.actor,
            _ => false,
        }
    } else {
        false
    }
}

/// Whether the place has all its own words.
fn is_filled<S: Statements>(statements: &S, state: &State, index: usize) -> bool
    requires { index < (S.batch statements.now).size }
    ensures { result ≡ all_filled (S.batch statements.now) state.now index }
{
    state.own(index).len() == statements.words_length(index)
}

/// Whether a further own word of the place is due.
fn is_due<S: Statements>(statements: &S, state: &State, index: usize) -> bool
    requires { index < (S.batch statements.now).size }
    ensures { result ≡ nat_lt (length (own_of state.now index)) (words_length (S.batch statements.now) index) }
{
    state.own(index).len() < statements.words_length(index)
}

/// Whether all ends that the place must set are set; `place` is where it is in the log.
fn has_ended<S: Statements>(
    statements: &S,
    state: &State,
    index: usize,
    place: Place,
) -> Result<bool, AllocError>
    requires place { place ≡ (S.batch statements.now).first + index }
    requires within { index < (S.batch statements.now).size }
    requires slots { length state.now.ends ≡ length (batch_slots (S.batch statements.now)) }
    requires shown { ShowsSerial (S.batch statements.now) state.now index }
    ensures { IfOk result (λ ended. ended ≡ all_ended (S.batch statements.now) state.now index) }
{
    for slot in 0..state.slots() {
        if !state.is_ended_by(slot, place) && statements.must_end(state, index, slot)? {
            return Ok(false);
        }
    }
    Ok(true)
}

/// Whether no record is ended by the place of the log.
fn has_none(state: &State, place: Place) -> bool
    ensures { result ≡ all_below (λ slot. not (is_end place (end_of state.now slot))) (length state.now.ends) }
{
    for slot in 0..state.slots() {
        if state.is_ended_by(slot, place) {
            return false;
        }
    }
    true
}

/// The partition stores the references into it of its next place.
fn place_next<S: Statements>(
    statements: &S,
    state: &mut State,
    partition: usize,
) -> Result<(), AllocError>
    requires { IsReached (S.batch statements.now) state.old }
    ensures { Applies (S.batch statements.now) (Event.Place partition) result state.old state.new }
{
    if state.has_next(partition) {
        let references = statements.stored(state, partition)?;
        state.place_next(partition, references);
    }
    Ok(())
}

/// The actor takes the place.
fn claim(state: &mut State, actor: u64, index: usize)
    ensures { state.new ≡ (if can_claim state.old index then with_hold state.old index (Hold.Held actor) else state.old) }
{
    let is_free = matches!(state.hold(index), Hold::Free);
    if is_free && index < state.places() && state.all_past(index) {
        state.set_hold(index, Hold::Held { actor });
    }
}

/// The actor stores the next own word of the place.
fn fill<S: Statements>(statements: &S, state: &mut State, turn: Turn) -> Result<(), AllocError>
    requires { IsReached (S.batch statements.now) state.old }
    ensures { Applies (S.batch statements.now) (Event.Fill turn.actor turn.index) result state.old state.new }
{
    let index = turn.index;
    if is_held(state, turn) && state.all_ready(index) && is_due(statements, state, index) {
        let word = statements.next_word(state, index)?;
        state.push_word(index, word)?;
    }
    Ok(())
}

/// The actor ends the record of the slot by the place.
fn end<S: Statements>(
    statements: &S,
    state: &mut State,
    turn: Turn,
    slot: usize,
) -> Result<(), AllocError>
    requires { IsReached (S.batch statements.now) state.old }
    ensures { Applies (S.batch statements.now) (Event.End turn.actor turn.index slot) result state.old state.new }
{
    let index = turn.index;
    if is_held(state, turn)
        && state.all_ready(index)
        && is_filled(statements, state, index)
        && slot < state.slots()
    {
        let must = statements.must_end(state, index, slot)?;
        if must && state.end(slot).is_none() {
            state.set_end(slot, statements.first() + index as u64);
        }
    }
    Ok(())
}

/// The actor is done with the place.
#[tactic(auto, using(crate::proofs::Reached::one_end_each))]
fn finish<S: Statements>(statements: &S, state: &mut State, turn: Turn) -> Result<(), AllocError>
    requires { IsReached (S.batch statements.now) state.old }
    ensures { Applies (S.batch statements.now) (Event.Finish turn.actor turn.index) result state.old state.new }
{
    let index = turn.index;
    if is_held(state, turn) && is_filled(statements, state, index) {
        let place = statements.first() + index as u64;
        if has_ended(statements, state, index, place)? {
            state.set_hold(index, Hold::Done);
        }
    }
    Ok(())
}

/// The actor gives the place back.
fn give_back<S: Statements>(statements: &S, state: &mut State, turn: Turn)
    ensures { state.new ≡ (if can_give_back (S.batch statements.now) state.old turn.actor turn.index
        then with_hold state.old turn.index Hold.Free else state.old) }
{
    if is_held(state, turn) && state.own(turn.index).is_empty() {
        let place = statements.first() + turn.index as u64;
        if has_none(state, place) {
            state.set_hold(turn.index, Hold::Free);
        }
    }
}

/// Makes one event; one whose guard fails changes nothing. An error means out of memory, after which the state is as it was; an actor takes
/// a place and gives it back without any.
pub(crate) fn apply<S: Statements>(
    statements: &S,
    state: &mut State,
    event: &Event,
) -> Result<(), AllocError>
    requires { IsReached (S.batch statements.now) state.old }
    ensures applied { Applies (S.batch statements.now) event.now result state.old state.new }
    ensures memory { OnErr result (takes_memory event.now ≡ true) }
{
    match *event {
        Event::Place { partition } => place_next(statements, state, partition),
        Event::Claim { actor, index } => {
            claim(state, actor, index);
            Ok(())
        }
        Event::Fill { actor, index } => fill(statements, state, Turn { actor, index }),
        Event::End { actor, index, slot } => end(statements, state, Turn { actor, index }, slot),
        Event::Finish { actor, index } => finish(statements, state, Turn { actor, index }),
        Event::GiveBack { actor, index } => {
            give_back(statements, state, Turn { actor, index });
            Ok(())
        }
    }
}
