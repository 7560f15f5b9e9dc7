//! The first need of a statement that its user doesn't hold.

ghost use Rattle.std.specs.Prelude.{◌≡◌, ◌∷◌, [], not};
ghost use Rattle.std.specs.List.{find};
ghost use Rattle.model_base.specs.declared.deed.Need.{Need};
ghost use Rattle.model_base.specs.Outcomes.{needs};
ghost use Rattle.model_base.specs.Privileges.{has};

use crate::replay::has;
use model_base::{Form, Grant, Need, Needs, User};

/// The need, if the user doesn't have it, as a table's owner or by one of the grants.
fn missing_need(owners: &[User], grants: &[Grant], user: User, need: &Need) -> Option<Need>
    ensures { result ≡ find (λ (need : Need). not (has owners.now grants.now user need)) (need.now ∷ []) }
{
    if has(owners, grants, user, *need) {
        None
    } else {
        Some(*need)
    }
}

/// The first need of a statement's form that the user doesn't have, as a table's owner or by one of the grants.
pub(crate) fn first_missing(
    owners: &[User],
    grants: &[Grant],
    user: User,
    form: &Form,
) -> Option<Need>
    ensures { result ≡ find (λ (need : Need). not (has owners.now grants.now user need)) (needs form.now) }
{
    let mut needs = Needs::of(form);
    'needs: while let Some(need) = needs.next() {
        let missing = missing_need(owners, grants, user, &need);
        if missing.is_some() {
            return missing;
        }
    }
    None
}
