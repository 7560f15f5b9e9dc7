//! Who holds what, found by making all deeds again.

ghost use Rattle.std.specs.Prelude.{◌≡◌, ◌++◌, [], IfOk, OnOk};
ghost use Rattle.std.specs.List.{list_any};
ghost use Rattle.model_base.specs.declared.deed.Grant.{Grant};
ghost use Rattle.model_base.specs.Outcomes.{cause, creator, owners};
ghost use Rattle.model_base.specs.Privileges.{erased, gives, has, holds, kept, option_of, owns, place_of, replayed, revokes};
ghost use Rattle.model.specs.Replay.{unerased};

use model_base::{Cause, Deed, Form, Grant, Need, Place, Statement, Table, User};
use std::alloc::{AllocError, Global};

/// The owner of each table of a log, in the tables' order.
pub(crate) fn owners(alloc: Global, statements: &[Statement]) -> Result<Vec<User>, AllocError>
    ensures { IfOk result (λ found. found.items ≡ owners statements.now) }
{
    let mut found = Vec::new(alloc);
    for statement in statements {
        if let Form::Create { .. } = &statement.form {
            found.push(statement.user)?;
        }
    }
    Ok(found)
}

/// Whether the user created the table.
fn owns(owners: &[User], user: User, table: Table) -> bool
    ensures { result ≡ owns owners.now user table }
{
    let index = table.0 as usize;
    index < owners.len() && owners[index] == user
}

/// Whether one of the grants gives the user what is needed.
fn is_given(grants: &[Grant], user: User, need: Need) -> bool
    ensures { result ≡ list_any (λ (grant : Grant). gives grant user need) grants.now }
{
    grants.iter().any(|grant| grant.gives(user, &need))
}

/// Whether the user has what is needed as the table's owner, or by one of the grants.
#[tactic(auto, unfolding(model_base::specs::Privileges::has))]
pub(crate) fn has(owners: &[User], grants: &[Grant], user: User, need: Need) -> bool
    ensures { result ≡ has owners.now grants.now user need }
{
    owns(owners, user, need.table) || is_given(grants, user, need)
}

/// What the grantor of a grant needs for it.
fn option_of(grant: &Grant) -> Need
    ensures { result ≡ option_of grant.now }
{
    Need {
        table: grant.table,
        kind: grant.kind,
        option: true,
    }
}

/// Whether the deed is a revocation that names the grant.
fn revokes(deed: &Deed, grant: &Grant) -> bool
    ensures { result ≡ revokes deed.now grant.now }
{
    match deed {
        Deed::Granting(_) => false,
        Deed::Revoking(revocation) => revocation.names(grant),
    }
}

/// Whether a later deed is a revocation that names the grant.
fn is_erased(grant: &Grant, later: &[Deed]) -> bool
    ensures { result ≡ list_any (λ deed. revokes deed grant.now) later.now }
{
    later.iter().any(|deed| revokes(deed, grant))
}

/// The deed's grant, if it has one that no later deed names.
fn unerased(deed: &Deed, later: &[Deed]) -> Option<Grant>
    ensures { result ≡ unerased deed.now later.now }
{
    match deed {
        Deed::Granting(grant) if !is_erased(grant, later) => Some(*grant),
        _ => None,
    }
}

/// The grants of the deeds, in order, without each that a later revocation names.
#[tactic(auto, using(crate::proofs::Steps::erased_step))]
fn erased(alloc: Global, deeds: &[Deed]) -> Result<Vec<Grant>, AllocError>
    ensures { IfOk result (λ grants. grants.items ≡ erased deeds.now) }
{
    let mut grants = Vec::new(alloc);
    for (i, deed) in deeds.iter().enumerate() {
        if let Some(grant) = unerased(deed, &deeds[i + 1..]) {
            grants.push(grant)?;
        }
    }
    Ok(grants)
}

/// The grants made again, in order: each is in force if its grantor has the option as owner, or by a grant that is before it.
fn replayed(alloc: Global, owners: &[User], grants: &[Grant]) -> Result<Vec<Grant>, AllocError>
    ensures { IfOk result (λ standing. standing.items ≡ replayed owners.now [] grants.now) }
{
    let mut standing = Vec::new(alloc);
    for grant in grants {
        if has(owners, &standing, grant.grantor, option_of(grant)) {
            standing.push(*grant)?;
        }
    }
    Ok(standing)
}

/// The grants in force after the deeds.
pub(crate) fn kept(alloc: Global, owners: &[User], deeds: &[Deed]) -> Result<Vec<Grant>, AllocError>
    ensures { IfOk result (λ grants. grants.items ≡ kept owners.now deeds.now) }
{
    let grants = erased(alloc, deeds)?;
    replayed(alloc, owners, &grants)
}

/// Whether the user holds what is needed after the deeds.
fn holds(
    alloc: Global,
    owners: &[User],
    deeds: &[Deed],
    user: User,
    need: Need,
) -> Result<bool, AllocError>
    ensures { IfOk result (λ is_held. is_held ≡ holds owners.now deeds.now user need) }
{
    let grants = kept(alloc, owners, deeds)?;
    Ok(has(owners, &grants, user, need))
}

/// The place of the transaction that made the deed.
fn place_of(deed: &Deed) -> Place
    ensures { result ≡ place_of deed.now }
{
    match deed {
        Deed::Granting(grant) => grant.place,
        Deed::Revoking(revocation) => revocation.place,
    }
}

/// Why the user doesn't hold what is needed after the deeds: the last deed before which it was held and after which it
/// wasn't, or that there is none.
pub(crate) fn cause(
    alloc: Global,
    owners: &[User],
    deeds: &[Deed],
    user: User,
    need: &Need,
) -> Result<Cause, AllocError>
    ensures { IfOk result (λ found. found ≡ cause owners.now deeds.now user need.now) }
{
    let mut found = Cause::Never;
    let mut was_held = holds(alloc, owners, &deeds[..0], user, *need)?;
    for (i, deed) in deeds.iter().enumerate() {
        let is_held = holds(alloc, owners, &deeds[..i + 1], user, *need)?;
        if was_held && !is_held {
            found = Cause::Taken(place_of(deed));
        }
        was_held = is_held;
    }
    Ok(found)
}
