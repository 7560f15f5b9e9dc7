//! Whether a statement is admitted.

ghost use Rattle.std.specs.Prelude.{◌≡◌, ℕ, List, All, true};
ghost use Rattle.model_base.specs.Outcomes.{needs};
ghost use Rattle.model_base.specs.declared.deed.Deed.{Deed};
ghost use Rattle.model_base.specs.declared.deed.Need.{Need};
ghost use Rattle.grants_base.specs.View.{ShowsDeeds, holds_in};
ghost use Rattle.checker.specs.Admission.{admission, told_if};
ghost use Rattle.checker.specs.Missing.{Covers, first_lacking};
ghost use Rattle.checker.specs.declared.admission.Admission.TheVariants.{Admitted};

use crate::missing::first_lack;
use grants::{Records, shown_views_tell_causes};
use model_base::{Cause, Need, Statement};

/// Whether a statement may run.
#[derive(Clone, Copy)]
pub enum Admission {
    /// Its user holds each privilege that it needs.
    Admitted,
    /// Its user doesn't hold this one, the first in the order in which they are checked.
    Denied {
        need: Need,
        /// The revocation that last took it, or that it never was held.
        cause: Cause,
    },
}

/// Whether the statement's user holds each privilege that it needs, at the view's place: the kinds of each access in order, and for a grant
/// its kinds with the option. The first that isn't held denies, with its cause. A need that is listed twice is looked up as it is. It
/// doesn't allocate. Where the view doesn't know what is in force, each need costs one look at each slot that asks for a grant of its kind
/// on its table to the user, up to one in force that gives it.
pub fn admit<V: Records>(statement: &Statement, view: &mut V) -> Admission
    requires covered { Covers (V.shown view.old) (needs statement.now.form) }
    ensures value { (owners : List ℕ) (deeds : List Deed) → ShowsDeeds (V.shown view.old) owners deeds
        → result ≡ admission owners deeds statement.now.user statement.now.form }
    ensures told { result ≡ told_if (V.shown view.old) statement.now.user
        (first_lacking (V.shown view.old) statement.now.user (needs statement.now.form)) }
    ensures held { result ≡ Admitted
        → All (λ (need : Need). holds_in (V.shown view.old) statement.now.user need ≡ true) (needs statement.now.form) }
    ensures same { V.shown view.new ≡ V.shown view.old }
{
    // The cause of what a view doesn't say as held.
    shown_views_tell_causes();
    match first_lack(view, statement.user, &statement.form) {
        Some(lack) => Admission::Denied {
            need: lack.need,
            cause: lack.cause,
        },
        None => Admission::Admitted,
    }
}
