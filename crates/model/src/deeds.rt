//! What the deeds of a statement result in.

ghost use Rattle.std.specs.Prelude.{◌≡◌, ◌++◌, ◌∷◌, [], List, IfOk, OnOk};
ghost use Rattle.model_base.specs.Outcomes.{deed_done};
ghost use Rattle.model_base.specs.Privileges.{is_among, kept, lost};
ghost use Rattle.model_base.specs.Rows.{Rows};
ghost use Rattle.model_base.specs.declared.deed.Deed.{Deed};

use crate::replay::kept;
use model_base::{Deed, DeedDone, Deeds, Grant, Items, RecordName, User};
use std::alloc::{AllocError, Global};

/// Whether the grant of this record is among the grants.
fn is_among(name: RecordName, grants: &[Grant]) -> bool
    ensures { result ≡ is_among name grants.now }
{
    grants.iter().any(|grant| grant.name().is_same(name))
}

/// The records, in order, of the grants of the first list that the second no longer has.
fn lost(alloc: Global, before: &[Grant], after: &[Grant]) -> Result<Vec<RecordName>, AllocError>
    ensures { IfOk result (λ names. names.items ≡ lost before.now after.now) }
{
    let mut names = Vec::new(alloc);
    for grant in before {
        if !is_among(grant.name(), after) {
            names.push(grant.name())?;
        }
    }
    Ok(names)
}

/// Appends the first deed of a completed statement after those made so far, after which the grants are in force. Says what the statement's
/// deeds result in.
fn make_first(
    alloc: Global,
    owners: &[User],
    grants: &[Grant],
    deeds: &mut Vec<Deed>,
    first: &Deed,
) -> Result<DeedDone, AllocError>
    requires { grants.now ≡ kept owners.now deeds.old.items }
    ensures done { IfOk result (λ done. (rows : Rows) (later : List Deed)
        → done ≡ deed_done owners.now (record { rows = rows; deeds = deeds.old.items }) (first.now ∷ later)) }
    ensures deeds { OnOk result (deeds.new.items ≡ deeds.old.items ++ first.now ∷ []) }
{
    deeds.push(*first)?;
    match first {
        Deed::Granting(_) => Ok(DeedDone::Granted),
        Deed::Revoking(_) => {
            let after = kept(alloc, owners, deeds)?;
            let names = lost(alloc, grants, &after)?;
            Ok(DeedDone::Revoked(Items::new(names)))
        }
    }
}

/// Appends the deeds that are left, one after another.
fn make_rest(deeds: &mut Vec<Deed>, rest: &mut Deeds<'_>) -> Result<(), AllocError>
    ensures { OnOk result (deeds.new.items ≡ deeds.old.items ++ rest.old) }
{
    'deeds: while let Some(deed) = rest.next() {
        deeds.extend_from_slice(&[deed])?;
    }
    Ok(())
}

/// Appends the deeds of a completed statement, one after another, after those made so far, after which the grants are in force. Says what
/// they resulted in.
pub(crate) fn make(
    alloc: Global,
    owners: &[User],
    grants: &[Grant],
    deeds: &mut Vec<Deed>,
    made: &mut Deeds<'_>,
) -> Result<DeedDone, AllocError>
    requires { grants.now ≡ kept owners.now deeds.old.items }
    ensures done { IfOk result (λ done. (rows : Rows)
        → done ≡ deed_done owners.now (record { rows = rows; deeds = deeds.old.items }) made.old) }
    ensures deeds { OnOk result (deeds.new.items ≡ deeds.old.items ++ made.old) }
{
    let Some(first) = made.next() else {
        return Ok(DeedDone::None);
    };
    let done = make_first(alloc, owners, grants, deeds, &first)?;
    make_rest(deeds, made)?;
    Ok(done)
}
