//! Records in force before a place.

ghost use Rattle.std.specs.Prelude.{◌≡◌};
ghost use Rattle.model_base.specs.Records.{is_in_force_at};

use model_base::{Place, Record};

/// Whether the grant of the record was made below the place, and no end lies below it.
pub(crate) fn is_in_force_at(entry: &Record, place: Place) -> bool
    ensures { result ≡ is_in_force_at place entry.now }
{
    entry.grant.place < place && entry.end.is_none_or(|end| place <= end)
}
