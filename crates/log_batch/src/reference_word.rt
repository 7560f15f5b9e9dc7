//! A reference as a word of a batch.

ghost use Rattle.std.specs.Prelude.{◌≡◌, ◌<◌, ◌^◌};
ghost use Rattle.log_batch.specs.Laws.{word_of};

use model_base::{Place, Reference};

/// A reference as a word of the batch that begins here: 0 for what was before it, or one more than the index of the place.
pub fn word_of(first: Place, reference: Reference) -> u64
    requires { word_of first reference < 2 ^ 64 }
    ensures { result ≡ word_of first reference }
{
    match reference {
        Reference::Base => 0,
        Reference::At(place) => place.saturating_sub(first) + 1,
    }
}
