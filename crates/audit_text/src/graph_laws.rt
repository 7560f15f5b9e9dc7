//! What holds of all pictures of grants.

ghost use Rattle.std.specs.Prelude.{◌≡◌, ◌≢◌, ℕ, List, [], Contains};
ghost use Rattle.model_base.specs.declared.deed.Deed.{Deed};
ghost use Rattle.model_base.specs.declared.deed.Deed.TheVariants.{Revoking};
ghost use Rattle.model_base.specs.declared.deed.Revocation.{Revocation};
ghost use Rattle.model_base.specs.Privileges.{deeds_below, ended_by, kept};
ghost use Rattle.model_base.specs.Records.{recorded};
ghost use Rattle.grants_base.specs.Book.{Entries, ShowsBook};
ghost use Rattle.audit_text.specs.Drawn.{drawn, fallen};

use model_base::{
    earlier_records_are_cut, ends_are_losses, ends_are_revocations, unended_records_are_in_force,
};

/// Of which grants a picture of a book has edges, and of which dashed ones. The function does nothing but name the laws that it rests on.
pub fn edges_are_grants_in_force()
    ensures edges { (book : Entries) (owners : List ℕ) (deeds : List Deed) (place : ℕ) → ShowsBook book owners deeds
        → recorded (drawn place book.records) ≡ kept owners (deeds_below place deeds) }
    ensures dashed { (book : Entries) (owners : List ℕ) (deeds : List Deed) (revocation : Revocation) → ShowsBook book owners deeds
        → Contains deeds (Revoking revocation)
        → fallen revocation.place book.records ≡ ended_by owners (deeds_below revocation.place deeds) revocation }
    ensures plain { (book : Entries) (owners : List ℕ) (deeds : List Deed) (place : ℕ) → ShowsBook book owners deeds
        → ((revocation : Revocation) → Contains deeds (Revoking revocation) → revocation.place ≢ place)
        → fallen place book.records ≡ [] }
{
    earlier_records_are_cut();
    unended_records_are_in_force();
    ends_are_losses();
    ends_are_revocations();
}
