//! One step of a walk.

ghost use Rattle.std.specs.Prelude.{◌≡◌, ◌<◌, suc, length};
ghost use Rattle.bohm_core_base.specs.Batch.{reference_words};
ghost use Rattle.words.specs.Passes.{IsPassOf};
ghost use Rattle.filling_base.specs.Counting.{CountsBodies};
ghost use Rattle.filling_base.specs.Extending.{IsSamePass};
ghost use Rattle.filling_base.specs.References.{reference};
ghost use Rattle.filling_base.specs.Tries.{IsKnownDone};
ghost use Rattle.filling_base.specs.Walks.{IsWalk, StepDone, asked_place, spot};

use crate::batch::Batch;
use crate::fills::Fills;
use crate::walk::{Frame, Step, Walk};
use std::alloc::AllocError;
use words::{Claimed, Seen};

impl<K: Fills> Batch<K> {
    // Goes on with a place that the current one is referred to, if it can be claimed. Room to wait for it is made first.
    fn enter(&self, walk: &mut Walk, index: usize, next: usize) -> Result<Step, AllocError>
        requires same_table { IsPassOf self.now walk.old.holding }
        requires within { asked_place (spot walk.old) < (K.batch self.now.key).size }
        requires walks { IsWalk (K.batch self.now.key) (spot walk.old) }
        requires short { walk.old.next < length (reference_words (K.batch self.now.key) walk.old.at) }
        requires next { next ≡ suc walk.old.next }
        requires names { reference (K.batch self.now.key) walk.old.at walk.old.next ≡ suc index }
        requires untold { ¬ (IsKnownDone (K.batch self.now.key) walk.old.holding.view index) }
        ensures same { IsSamePass walk.old.holding walk.new.holding }
        ensures stepped { StepDone (K.batch self.now.key) (spot walk.old) result (spot walk.new) }
        ensures bodies { CountsBodies (K.runs self.now.key) walk.old.holding walk.new.holding }
    {
        let frame = Frame {
            index: walk.at,
            next,
        };
        if walk.stack.push(frame).is_err() {
            return Err(AllocError);
        }
        match self.words.claim(&mut walk.holding, index) {
            Claimed::Won => {
                walk.at = index;
                walk.next = 0;
                Ok(Step::Went)
            }
            Claimed::Held => {
                let _ = walk.stack.pop();
                Ok(Step::Busy(index))
            }
            Claimed::Done => {
                let _ = walk.stack.pop();
                walk.next = next;
                Ok(Step::Went)
            }
        }
    }

    // Looks at the next reference of the current place, after which this one is the next.
    pub(crate) fn step(&self, walk: &mut Walk, next: usize) -> Result<Step, AllocError>
        requires same_table { IsPassOf self.now walk.old.holding }
        requires within { asked_place (spot walk.old) < (K.batch self.now.key).size }
        requires walks { IsWalk (K.batch self.now.key) (spot walk.old) }
        requires short { walk.old.next < length (reference_words (K.batch self.now.key) walk.old.at) }
        requires next { next ≡ suc walk.old.next }
        ensures same { IsSamePass walk.old.holding walk.new.holding }
        ensures stepped { StepDone (K.batch self.now.key) (spot walk.old) result (spot walk.new) }
        ensures bodies { CountsBodies (K.runs self.now.key) walk.old.holding walk.new.holding }
    {
        match self.referred(&mut walk.holding, walk.at, walk.next) {
            None => {
                walk.next = next;
                Ok(Step::Went)
            }
            Some(index) => match self.words.look(&mut walk.holding, index) {
                Seen::Free => self.enter(walk, index, next),
                Seen::Held => Ok(Step::Busy(index)),
                Seen::Done => {
                    walk.next = next;
                    Ok(Step::Went)
                }
            },
        }
    }
}
