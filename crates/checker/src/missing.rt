//! The first need of a statement that its user doesn't hold, with its cause.

ghost use Rattle.std.specs.Prelude.{◌≡◌, ◌∷◌, []};
ghost use Rattle.model_base.specs.Outcomes.{needs};
ghost use Rattle.checker.specs.Missing.{Covers, first_lack};

use grants::{Records, denial};
use model_base::{Cause, Form, Need, Needs, User};

/// A need that a user doesn't hold, with its cause.
#[derive(Clone, Copy)]
pub(crate) struct Lack {
    pub need: Need,
    pub cause: Cause,
}

/// The need, if the user doesn't hold it, with its cause.
fn lack_of<V: Records>(view: &mut V, user: User, need: Need) -> Option<Lack>
    requires { Covers (V.shown view.old) (need ∷ []) }
    ensures lack { result ≡ first_lack (V.shown view.old) user (need ∷ []) }
    ensures same { V.shown view.new ≡ V.shown view.old }
{
    match denial(view, user, &need) {
        Some(cause) => Some(Lack { need, cause }),
        None => None,
    }
}

/// The first need of a statement's form that the user doesn't hold.
pub(crate) fn first_lack<V: Records>(view: &mut V, user: User, form: &Form) -> Option<Lack>
    requires { Covers (V.shown view.old) (needs form.now) }
    ensures lack { result ≡ first_lack (V.shown view.old) user (needs form.now) }
    ensures same { V.shown view.new ≡ V.shown view.old }
{
    let mut needs = Needs::of(form);
    'needs: while let Some(need) = needs.next() {
        let lack = lack_of(view, user, need);
        if lack.is_some() {
            return lack;
        }
    }
    None
}
