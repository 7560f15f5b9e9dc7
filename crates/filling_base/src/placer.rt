//! Who places a batch for one of its partitions.

ghost use Rattle.std.specs.Prelude.{ℕ};
ghost use Rattle.words.specs.Passes.{Words};
ghost use Rattle.filling_base.specs.Advances.{Advances};

use crate::batch::Batch;
use crate::fills::Fills;
use model_base::Place;
use std::alloc::AllocError;

/// Who places a batch for one of its partitions, one place after another. `is_of` says whether it is a placer of these words, and `front`
/// how many places it has placed, which is the index of the one that it places next. A trait, since what a place refers to is known above.
pub trait BatchPlacer<K: Fills>: Drop {
    ghost is_of: { Words K → Self → Type 0 };

    ghost front: { Self → ℕ };

    /// Its partition.
    fn partition(&self) -> usize;

    /// Places the next place of the batch, and returns it, or `None` after the last. On `Err`, out of memory: nothing is placed, and the
    /// next call places the same place.
    fn advance(&mut self, batch: &Batch<K>) -> Result<Option<Place>, AllocError>
        requires same_table { is_of batch.now self.old }
        ensures same_table { is_of batch.now self.new }
        ensures advances { Advances (K.batch batch.now.key) (front self.old) result (front self.new) };
}
