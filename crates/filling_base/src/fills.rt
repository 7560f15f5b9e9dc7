//! How one place is filled.

ghost use Rattle.std.specs.Prelude.{◌≡◌, ◌<◌, ℕ, []};
ghost use Rattle.words.specs.Passes.{IsPassOf};
ghost use Rattle.words.specs.Views.{Holds, KnowsPast, KnowsReferences};
ghost use Rattle.filling_base.specs.Counting.{FillCounts};
ghost use Rattle.filling_base.specs.Extending.{IsSamePass};
ghost use Rattle.filling_base.specs.Tries.{FillMeans};

use std::alloc::AllocError;
use words::{BatchData, BatchWords, Holding};

/// A batch whose places can be filled one at a time. `runs` says how many bodies are run to fill a place. A trait, so that what is proved
/// of passes and threads holds however a place is judged and run, which crates above say.
pub trait Fills: BatchData {
    ghost runs: { Self → ℕ → ℕ };

    /// Stores all that a place has to store, and finishes it: the pass holds it, with nothing stored, knows that every partition has placed
    /// it, and knows done all that it is referred to. It counts the bodies that are run for the place. The pass may learn of further places
    /// that they are done. An error means out of memory, which only a revocation may have, and then nothing was stored or counted.
    fn fill(
        &self,
        words: &BatchWords<Self>,
        holding: Holding,
        index: usize,
    ) -> (Holding, Result<(), AllocError>)
        requires same_table { IsPassOf words.now holding }
        requires key { words.now.key ≡ self.now }
        requires within { index < (Self.batch self.now).size }
        requires held { Holds holding.view index 0 [] }
        requires past { KnowsPast (Self.batch self.now) holding.view index }
        requires ready { KnowsReferences (Self.batch self.now) holding.view index }
        ensures same { IsSamePass holding result.0 }
        ensures tells { FillMeans (Self.batch self.now) index holding.view result.1 result.0.view }
        ensures bodies { FillCounts (runs self.now index) holding.bodies result.1 result.0.bodies };
}
