//! The rounds of one worker over the places that it has not found done.

ghost use Rattle.std.specs.Prelude.{◌≡◌, ◌⊎◌, ◌<◌, ◌≤◌, ◌+◌, ◌-◌, [], ℕ, IfOk, OnErr, OnOk};
ghost use Rattle.std.specs.VecDeque.{deque_capacity, deque_len};
ghost use Rattle.words.specs.Passes.{IsPassOf};
ghost use Rattle.words.specs.Views.{In};
ghost use Rattle.workers.specs.Working.{AreLeft, GoesOn, HasAsked, IsStopped};

use crate::gate::Gate;
use crate::shared::Shared;
use crate::stop::Stopped;
use filling_base::{Batch, Fills, Tried};
use std::alloc::{AllocError, Global};
use std::collections::VecDeque;
use std::ops::Range;
use words::Pass;

/// Looks whether all is placed. Once that is found, no front is looked at any more.
pub(crate) fn look<K: Fills>(batch: &Batch<K>, pass: Pass) -> Pass
    requires { IsPassOf batch.now pass }
    ensures { GoesOn pass result }
{
    let (looked, _is_placed) = batch.all_placed(pass);
    looked
}

/// Asks once for each place of the rest, in order: one that is done leaves the rest, and any other goes to its end.
/// On `Err`, memory ran out or the workers were stopped.
pub(crate) fn go_round<K: Fills, G: Gate>(
    shared: &Shared<'_, K, G>,
    pass: Pass,
    rest: &mut VecDeque<usize>,
) -> (Pass, Result<(), Stopped>)
    requires same_table { IsPassOf shared.now pass }
    requires left { AreLeft (K.batch shared.now.key).size pass.view.known rest.old.items }
    ensures on { GoesOn pass result.0 }
    ensures left { OnOk result.1 (AreLeft (K.batch shared.now.key).size result.0.view.known rest.new.items) }
    ensures asked { OnOk result.1 (HasAsked (K.batch shared.now.key) pass rest.old.items result.0 rest.new.items) }
    ensures stopped { OnErr result.1 (IsStopped (K.batch shared.now.key) pass rest.old.items result.0 rest.new.items) }
{
    let mut last = pass;
    for _ in 0..rest.len() {
        if let Err(stopped) = shared.stop.ask() {
            return (last, Err(stopped));
        }
        let Some(index) = rest.pop_front() else {
            break;
        };
        let place = shared.start + index as u64;
        shared.gate.before(place);
        let (next, tried) = shared.batch.try_run(last, index);
        last = next;
        let Ok(found) = tried else {
            return (last, Err(shared.stop.tell()));
        };
        match found {
            Tried::Done => shared.gate.after(place),
            Tried::Busy(_) => rest.push_back_reserved(index),
            Tried::NotPlaced(_) => rest.push_back_reserved(index),
        }
    }
    (last, Ok(()))
}

/// Adds the indices of a range, for which there is room.
fn add_range(rest: &mut VecDeque<usize>, range: Range<usize>)
    requires order { range.start ≤ range.end }
    requires room { deque_len rest.old + (range.end - range.start) ≤ deque_capacity rest.old }
    ensures capacity { deque_capacity rest.new ≡ deque_capacity rest.old }
    ensures len { deque_len rest.new ≡ deque_len rest.old + (range.end - range.start) }
    ensures keeps { (index : ℕ) → In index rest.old.items → In index rest.new.items }
    ensures adds { (index : ℕ) → range.start ≤ index → index < range.end → In index rest.new.items }
    ensures within { (index : ℕ) → In index rest.new.items → In index rest.old.items ⊎ (index < range.end) }
{
    for index in range.start..range.end {
        rest.push_back_reserved(index);
    }
}

/// All of this many places, from one on and then round. An error is out of memory.
pub(crate) fn all_places(
    alloc: Global,
    first: usize,
    size: usize,
) -> Result<VecDeque<usize>, AllocError>
    requires { first ≤ size }
    ensures { IfOk result (λ rest. AreLeft size [] rest.items) }
{
    let mut rest = VecDeque::with_capacity(alloc, size)?;
    add_range(&mut rest, first..size);
    add_range(&mut rest, 0..first);
    Ok(rest)
}
