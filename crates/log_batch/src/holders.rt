//! Users, and PUBLIC, each with a kind on a table.

ghost use Rattle.std.specs.Prelude.{◌≡◌, ◌||◌, not, false, IfOk, OnOk};
ghost use Rattle.log_batch.specs.Holders.{has_holder, holder_of, same_holder};
ghost use Rattle.log_batch.specs.declared.holders.HolderKey.{HolderKey};

use grants_base::holder_code;
use model_base::{Grantee, Kind, Table};
use std::alloc::{AllocError, Global};
use std::collections::BTreeSet;

/// The code of a grantee, and so of a user, with a table and the code of a kind.
#[derive(Clone, Copy, PartialEq, Eq, PartialOrd, Ord)]
pub(crate) struct HolderKey {
    holder: u64,
    table: Table,
    kind: u8,
}

/// A grantee with a kind on a table. A grantor is the user that it is.
pub(crate) fn holder_of(holder: Grantee, kind: Kind, table: Table) -> HolderKey
    ensures { result ≡ holder_of holder kind table }
{
    HolderKey {
        holder: holder_code(holder),
        table,
        kind: kind.code(),
    }
}

/// A set of users, and PUBLIC, each with a kind on a table.
#[derive(Drop)]
pub(crate) struct Holders {
    holders: BTreeSet<HolderKey>,
}

impl Holders {
    /// Nobody.
    pub(crate) fn new(alloc: Global) -> Self
        ensures { (holder : HolderKey) → has_holder result holder ≡ false }
    {
        Holders {
            holders: BTreeSet::new(alloc),
        }
    }

    /// Whether it is among them.
    pub(crate) fn has(&self, holder: HolderKey) -> bool
        ensures { result ≡ has_holder self.now holder }
    {
        self.holders.contains(&holder)
    }

    /// One more, if it isn't among them; returns whether it wasn't. On `Err`, out of memory.
    pub(crate) fn put(&mut self, holder: HolderKey) -> Result<bool, AllocError>
        ensures put { OnOk result
            ((other : HolderKey) → has_holder self.new other ≡ (same_holder holder other || has_holder self.old other)) }
        ensures was { IfOk result (λ is_new. is_new ≡ not (has_holder self.old holder)) }
    {
        let is_new = self.holders.insert(holder)?;
        Ok(is_new)
    }
}
