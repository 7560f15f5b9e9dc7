//! Grants that are found by their grantees and by their grantors.

ghost use Rattle.std.specs.Prelude.{◌≡◌, ◌<◌, ◌^◌, ◌++◌, ◌∷◌, [], Some, OnErr, OnOk, length, slice_get};
ghost use Rattle.grants_base.specs.Index.{IsNext, is_by, is_to};

use crate::indexed::IndexedRecords;
use crate::records::Holder;
use model_base::{Grant, HashSeed, Kind, Table, User};
use std::alloc::{AllocError, Global};
use std::marker::Model;

/// Grants, made or not, in the order in which they were added, each by its slot from 0. Those of one user are found by an
/// index, so that nothing goes through all of them.
#[derive(Drop)]
pub struct IndexedGrants {
    records: IndexedRecords,
}

impl Model for IndexedGrants {
    ghost use Rattle.std.specs.Prelude.{List};
    ghost use Rattle.model_base.specs.declared.deed.Grant.{Grant};
    ghost use Rattle.model_base.specs.Records.{recorded};

    ghost Value = { List Grant };

    ghost view = { λ grants. recorded grants.records };
}

impl IndexedGrants {
    /// No grants. It doesn't allocate.
    pub fn new(alloc: Global) -> Self
        ensures { result ≡ [] }
    {
        IndexedGrants::seeded(alloc, HashSeed::fixed())
    }

    /// No grants, which are found under this seed. It doesn't allocate.
    pub fn seeded(alloc: Global, seed: HashSeed) -> Self
        ensures { result ≡ [] }
    {
        IndexedGrants {
            records: IndexedRecords::plain(alloc, seed),
        }
    }

    /// Adds a grant last. On `Err`, out of memory, the grants are as they were.
    pub fn push(&mut self, grant: Grant) -> Result<(), AllocError>
        ensures ok { OnOk result (self.new ≡ self.old ++ grant ∷ []) }
        ensures err { OnErr result (self.new ≡ self.old) }
    {
        self.records.push(grant)
    }

    /// How many there are.
    pub fn len(&self) -> usize
        ensures value { result ≡ length self.now }
        ensures small { result < 2 ^ 63 }
    {
        self.records.as_slice().len()
    }

    /// The grant of a slot.
    pub fn grant(&self, slot: usize) -> Grant
        requires { slot < length self.now }
        ensures { slice_get self.now slot ≡ Some result }
    {
        self.records.as_slice()[slot].grant
    }

    /// The least slot at or above this one whose grant is to the holder's grantee, of its kind on its table. It doesn't allocate, and takes
    /// a time that grows with the logarithm of the number of such grants.
    pub fn next_to(&self, holder: Holder, from: usize) -> Option<usize>
        ensures { IsNext (is_to holder.grantee holder.kind holder.table) self.now from result }
    {
        self.records.next_to(holder, from)
    }

    /// The least slot at or above this one whose grant is by the user, of the kind on the table. It doesn't allocate, and takes a time that
    /// grows with the logarithm of the number of such grants.
    pub fn next_by(&self, user: User, kind: Kind, table: Table, from: usize) -> Option<usize>
        ensures { IsNext (is_by user kind table) self.now from result }
    {
        self.records.next_by(user, kind, table, from)
    }
}
