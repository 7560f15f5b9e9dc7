//! What the revocation of a place takes out of force.

ghost use Rattle.std.specs.Prelude.{◌≡◌, ℕ, All, IfOk, IsSome, List};
ghost use Rattle.model_base.specs.declared.deed.Deed.{Deed};
ghost use Rattle.model_base.specs.Outcomes.{deeds_of};
ghost use Rattle.model_base.specs.References.{deed_tables};
ghost use Rattle.grants_base.specs.View.{ShowsDeeds};
ghost use Rattle.evaluation.specs.Answering.{ended_by_deeds};

use grants::{Records, to_end};
use model_base::{RecordName, Statement};
use std::alloc::{AllocError, Global};

/// The names of the records of the grants that the statement's revocation takes out of force, if it has one, in order; a
/// statement with grants or without a deed ends none. Whether the statement is done isn't asked. A revocation costs what `to_end`
/// costs. On `Err`, out of memory. What the view shows stays in any case.
pub fn ended<V: Records>(
    alloc: Global,
    statement: &Statement,
    view: &mut V,
) -> Result<Vec<RecordName>, AllocError>
    requires covered { All (λ table. IsSome ((V.shown view.old).owner table)) (deed_tables statement.now.form) }
    ensures value { IfOk result (λ ended. (owners : List ℕ) (deeds : List Deed) → ShowsDeeds (V.shown view.old) owners deeds
        → ended.items ≡ ended_by_deeds owners deeds (deeds_of (V.shown view.old).place statement.now.user statement.now.form)) }
    ensures same { V.shown view.new ≡ V.shown view.old }
{
    match statement.revocation_at(view.at()) {
        Some(revocation) => to_end(alloc, view, &revocation),
        None => Ok(Vec::new(alloc)),
    }
}
