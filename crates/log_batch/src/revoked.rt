//! Which grants revocations name.

ghost use Rattle.std.specs.Prelude.{◌≡◌, ◌||◌, not, false, IfOk, OnOk};
ghost use Rattle.model_base.specs.declared.deed.Grant.{Grant};
ghost use Rattle.log_batch.specs.Revoked.{has_named, is_between, is_named_by, named_by, named_with};

use crate::holders::{HolderKey, holder_of};
use model_base::{Grant, Grantee, Kind, Revocation, User};
use std::alloc::{AllocError, Global};
use std::collections::BTreeSet;

/// The grants by a user to a grantee, of a kind on a table: those of the kind to the grantee that a revocation names.
#[derive(Clone, Copy, PartialEq, Eq, PartialOrd, Ord)]
pub(crate) struct Named {
    grantor: User,
    holder: HolderKey,
}

/// The grants of a kind to a grantee that a revocation names if it speaks of both.
fn named_by(revocation: &Revocation, grantee: &Grantee, kind: Kind) -> Named
    ensures { result ≡ named_by revocation.now grantee.now kind }
{
    Named {
        grantor: revocation.grantor,
        holder: holder_of(*grantee, kind, revocation.table),
    }
}

/// The grants that a revocation of this one names.
fn named_with(grant: &Grant) -> Named
    ensures { result ≡ named_with grant.now }
{
    Named {
        grantor: grant.grantor,
        holder: holder_of(grant.grantee, grant.kind, grant.table),
    }
}

/// What some revocations name.
#[derive(Drop)]
pub(crate) struct Revoked {
    named: BTreeSet<Named>,
}

impl Revoked {
    /// What no revocation names.
    pub(crate) fn new(alloc: Global) -> Self
        ensures { (grant : Grant) → is_named_by result grant ≡ false }
    {
        Revoked {
            named: BTreeSet::new(alloc),
        }
    }

    /// Whether one of them names the grant.
    pub(crate) fn names(&self, grant: &Grant) -> bool
        ensures { result ≡ is_named_by self.now grant.now }
    {
        self.named.contains(&named_with(grant))
    }

    /// One more revocation, which speaks of the grantee and the kind; returns whether none of them named the same of both. On `Err`, out of
    /// memory.
    pub(crate) fn put(
        &mut self,
        revocation: &Revocation,
        grantee: &Grantee,
        kind: Kind,
    ) -> Result<bool, AllocError>
        ensures put { OnOk result ((grant : Grant)
            → is_named_by self.new grant ≡ (is_between revocation.now grantee.now kind grant || is_named_by self.old grant)) }
        ensures was { IfOk result (λ is_new. is_new ≡ not (has_named self.old (named_by revocation.now grantee.now kind))) }
    {
        let named = named_by(revocation, grantee, kind);
        let is_new = self.named.insert(named)?;
        Ok(is_new)
    }
}
