//! How a worker places its partitions, and which these are.

ghost use Rattle.std.specs.Prelude.{◌≡◌, ◌<◌, ◌≤◌, [], ℕ, IfOk, OnOk, Some, length, slice_get, suc};
ghost use Rattle.workers.specs.Placing.{AreDealt, HavePlaced, IsGiven};

use crate::gate::Gate;
use crate::shared::Shared;
use crate::stop::Stopped;
use filling_base::{BatchPlacer, Fills};
use std::alloc::{AllocError, Global};
use std::collections::VecDeque;

/// Places one place more, if there is one. On `Err`, memory ran out.
fn place_one<K: Fills, P: BatchPlacer<K>, G: Gate>(
    shared: &Shared<'_, K, G>,
    placer: &mut P,
) -> Result<(), Stopped>
    requires same_table { P.is_of shared.now placer.old }
    ensures same_table { P.is_of shared.now placer.new }
    ensures further { OnOk result ((count : ℕ) → count < (K.batch shared.now.key).size → count ≤ P.front placer.old
        → suc count ≤ P.front placer.new) }
{
    match placer.advance(shared.batch) {
        Ok(Some(place)) => {
            shared.gate.placed(placer.partition(), place);
            Ok(())
        }
        Ok(None) => Ok(()),
        Err(_) => Err(shared.stop.tell()),
    }
}

/// Places one place more for each partition. On `Err`, the workers were stopped.
fn place_round<K: Fills, P: BatchPlacer<K>, G: Gate>(
    shared: &Shared<'_, K, G>,
    placers: &mut [P],
    count: usize,
) -> Result<(), Stopped>
    requires within { count < (K.batch shared.now.key).size }
    requires placed { HavePlaced P.is_of P.front shared.now count placers.old }
    ensures { OnOk result (HavePlaced P.is_of P.front shared.now (suc count) placers.new) }
{
    shared.stop.ask()?;
    for placer in placers.iter_mut() {
        place_one(shared, placer)?;
    }
    Ok(())
}

/// Places the whole batch for these partitions, one place for each by turns. On `Err`, the workers were stopped.
pub(crate) fn place_all<K: Fills, P: BatchPlacer<K>, G: Gate>(
    shared: &Shared<'_, K, G>,
    placers: &mut [P],
) -> Result<(), Stopped>
    requires placed { HavePlaced P.is_of P.front shared.now 0 placers.old }
    ensures { OnOk result (HavePlaced P.is_of P.front shared.now (K.batch shared.now.key).size placers.new) }
{
    for count in 0..shared.places() {
        place_round(shared, placers, count)?;
    }
    Ok(())
}

/// No placer for each of this many workers. An error is out of memory.
fn no_placers<P: Drop>(alloc: Global, workers: usize) -> Result<Vec<Vec<P>>, AllocError>
    ensures len { IfOk result (λ hands. length hands.items ≡ workers) }
    ensures none { IfOk result (λ hands. (worker : ℕ) (hand : _) → slice_get hands.items worker ≡ Some hand → hand.items ≡ []) }
{
    let mut hands = Vec::with_capacity(alloc, workers)?;
    for _ in 0..workers {
        hands.push_reserved(Vec::new(alloc));
    }
    Ok(hands)
}

/// Gives a worker one placer more. On `Err`, out of memory.
fn give<P: Drop>(hands: &mut Vec<Vec<P>>, worker: usize, placer: P) -> Result<(), AllocError>
    requires { worker < length hands.old.items }
    ensures len { length hands.new.items ≡ length hands.old.items }
    ensures given { OnOk result (IsGiven (λ hand. hand.items) worker placer hands.old.items hands.new.items) }
{
    let hand: &mut Vec<P> = &mut hands[worker];
    hand.push(placer)?;
    Ok(())
}

/// The placers of each of this many workers: worker w has those whose numbers have the remainder w. An error is out of memory.
pub(crate) fn deal<P: Drop>(
    alloc: Global,
    placers: Vec<P>,
    workers: usize,
) -> Result<Vec<Vec<P>>, AllocError>
    requires { 0 < workers }
    ensures len { IfOk result (λ hands. length hands.items ≡ workers) }
    ensures dealt { IfOk result (λ hands. AreDealt (λ hand. hand.items) workers placers.items hands.items) }
{
    let mut hands = no_placers(alloc, workers)?;
    let mut rest = VecDeque::from_vec(placers);
    for number in 0..rest.len() {
        let Some(placer) = rest.pop_front() else {
            return Ok(hands);
        };
        give(&mut hands, number % workers, placer)?;
    }
    Ok(hands)
}
