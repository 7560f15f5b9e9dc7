//! Runs a place that is asked for.

ghost use Rattle.std.specs.Prelude.{◌≡◌, ◌<◌, Ok};
ghost use Rattle.std.specs.Option.{MatchOption};
ghost use Rattle.words.specs.Passes.{IsPassOf};
ghost use Rattle.words.specs.Views.{HoldsNone};
ghost use Rattle.filling_base.specs.Counting.{CountsBodies};
ghost use Rattle.filling_base.specs.Extending.{IsSamePass};
ghost use Rattle.filling_base.specs.Tries.{IsKnownDone, StopsWith, TakesPlaced, TriedMeans};

use crate::batch::Batch;
use crate::fills::Fills;
use crate::walk::{Step, Walk};
use std::alloc::AllocError;
use words::{Claimed, Holding, Pass, Seen};

/// The outcome of a place that was asked for.
#[derive(Clone, Copy, Debug)]
pub enum Tried {
    /// The place is done.
    Done,
    /// The place of this index was held by another pass.
    Busy(usize),
    /// The partition hasn't placed the place.
    NotPlaced(usize),
}

impl<K: Fills> Batch<K> {
    // Claims the place for a pass that holds none, if it is free and every partition has placed it. Else returns what the call found.
    fn claim_placed(&self, holding: &mut Holding, index: usize) -> Option<Tried>
        requires same_table { IsPassOf self.now holding.old }
        requires within { index < (K.batch self.now.key).size }
        requires idle { HoldsNone holding.old.view }
        ensures same { IsSamePass holding.old holding.new }
        ensures tells { MatchOption result (TakesPlaced (K.batch self.now.key) index holding.old.view holding.new.view)
            (λ answer. StopsWith (K.batch self.now.key) index holding.old.view answer holding.new.view) }
        ensures bodies { CountsBodies (K.runs self.now.key) holding.old holding.new }
    {
        match self.words.look(holding, index) {
            Seen::Done => Some(Tried::Done),
            Seen::Held => Some(Tried::Busy(index)),
            Seen::Free => match self.unplaced(holding, index) {
                Some(partition) => Some(Tried::NotPlaced(partition)),
                None => match self.words.claim(holding, index) {
                    Claimed::Done => Some(Tried::Done),
                    Claimed::Held => Some(Tried::Busy(index)),
                    Claimed::Won => None,
                },
            },
        }
    }

    /// Runs a place, and before it those that it is referred to and that aren't done. What was finished on the way stays finished, whatever
    /// is returned. `Busy` gives a place that another pass held. On `Err`, out of memory.
    pub fn try_run(&self, pass: Pass, index: usize) -> (Pass, Result<Tried, AllocError>)
        requires same_table { IsPassOf self.now pass }
        requires within { index < (K.batch self.now.key).size }
        ensures same { IsSamePass pass result.0 }
        ensures tells { TriedMeans (K.batch self.now.key) index pass.view result.1 result.0.view }
        ensures bodies { CountsBodies (K.runs self.now.key) pass result.0 }
        // What the pass knows done is returned so, and what is settled by that.
        ensures told { IsKnownDone (K.batch self.now.key) pass.view index → result.1 ≡ Ok Tried.Done }
    {
        let mut holding = Holding::begin(pass);
        if let Some(answer) = self.claim_placed(&mut holding, index) {
            return (holding.end(), Ok(answer));
        }
        let mut walk = Walk {
            holding,
            at: index,
            next: 0,
            stack: Vec::new(self.alloc),
        };
        'steps: loop {
            if walk.next < self.key.references_length(walk.at) {
                let next = walk.next + 1;
                match self.step(&mut walk, next) {
                    Ok(Step::Went) => continue,
                    Ok(Step::Busy(other)) => return (self.release(walk), Ok(Tried::Busy(other))),
                    Err(error) => return (self.release(walk), Err(error)),
                }
            }
            let (holding, filled) = self.key.fill(&self.words, walk.holding, walk.at);
            walk.holding = holding;
            if filled.is_err() {
                return (self.release(walk), Err(AllocError));
            }
            match walk.stack.pop() {
                Some(frame) => {
                    walk.at = frame.index;
                    walk.next = frame.next;
                }
                None => return (walk.holding.end(), Ok(Tried::Done)),
            }
        }
    }
}
