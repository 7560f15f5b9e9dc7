//! How a call ends before it is done.

ghost use Rattle.std.specs.Prelude.{◌<◌};
ghost use Rattle.words.specs.Passes.{IsPassOf};
ghost use Rattle.filling_base.specs.Counting.{CountsBodies};
ghost use Rattle.filling_base.specs.Extending.{IsSamePass};
ghost use Rattle.filling_base.specs.Walks.{IsWalk, Released, asked_place, held, spot};

use crate::batch::Batch;
use crate::fills::Fills;
use crate::walk::Walk;
use words::Pass;

impl<K: Fills> Batch<K> {
    // Gives back all that a call holds, from the current place to the one asked for.
    pub(crate) fn release(&self, walk: Walk) -> Pass
        requires same_table { IsPassOf self.now walk.holding }
        requires within { asked_place (spot walk) < (K.batch self.now.key).size }
        requires walks { IsWalk (K.batch self.now.key) (spot walk) }
        ensures same { IsSamePass walk.holding result }
        ensures released { Released (held (spot walk)) walk.holding.view result.view }
        ensures bodies { CountsBodies (K.runs self.now.key) walk.holding result }
    {
        let Walk {
            mut holding,
            at,
            next: _,
            mut stack,
        } = walk;
        self.words.give_back(&mut holding, at);
        while let Some(frame) = stack.pop() {
            self.words.give_back(&mut holding, frame.index);
        }
        holding.end()
    }
}
