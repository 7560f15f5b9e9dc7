//! The slots of a batch by the names of their records, and by whom their grants are to, and by whom.

ghost use Rattle.std.specs.Prelude.{◌≡◌, ◌≢◌, ◌<◌, ◌≤◌, ℕ, Some, length, slice_get};
ghost use Rattle.std.specs.Option.{MatchOption};
ghost use Rattle.model_base.specs.declared.deed.Grant.{Grant};
ghost use Rattle.model_base.specs.Ranks.{rank};
ghost use Rattle.grants_base.specs.Index.{IsNext, is_by, is_to};
ghost use Rattle.bohm_core_base.specs.Batch.{batch_slots};
ghost use Rattle.log_batch.specs.Earlier.{earlier_count};
ghost use Rattle.log_batch.specs.Supplied.{batch_of};

use crate::batch::LogBatch;
use bohm_core_base::slots_stand_in_order;
use grants::Holder;
use model_base::{Kind, RecordName, Table, User};

impl LogBatch<'_> {
    /// The first slot whose record isn't before this one. It doesn't allocate, and takes a time that grows with the logarithm of the number
    /// of slots.
    fn slot_from(&self, name: RecordName) -> usize
        ensures below { (slot : ℕ) (grant : Grant)
            → slot < result → slice_get (batch_slots (batch_of self.now)) slot ≡ Some grant → rank grant < name }
        ensures from { (slot : ℕ) (grant : Grant)
            → result ≤ slot → slice_get (batch_slots (batch_of self.now)) slot ≡ Some grant → name ≤ rank grant }
    {
        slots_stand_in_order();
        let mut low = 0;
        let mut high = self.slot_count();
        while low < high {
            let middle = low + (high - low) / 2;
            let here = self.grant(middle).name();
            if here.is_before(name) {
                low = middle + 1;
            } else {
                high = middle;
            }
        }
        low
    }

    /// The slot of a record, if there is one. It doesn't allocate, and takes a time that grows with the logarithm of the number of slots.
    pub fn slot_of(&self, name: RecordName) -> Option<usize>
        ensures found { MatchOption result
            ((slot : ℕ) (grant : Grant) → slice_get (batch_slots (batch_of self.now)) slot ≡ Some grant → rank grant ≢ name)
            (λ slot. (grant : Grant) × (slice_get (batch_slots (batch_of self.now)) slot ≡ Some grant) × (rank grant ≡ name)) }
        ensures only { (slot : ℕ) (grant : Grant)
            → slice_get (batch_slots (batch_of self.now)) slot ≡ Some grant
            → rank grant ≡ name → result ≡ Some slot }
    {
        slots_stand_in_order();
        let slot = self.slot_from(name);
        if slot < self.slot_count() && self.grant(slot).name().is_same(name) {
            Some(slot)
        } else {
            None
        }
    }

    /// The least slot at or above this one whose grant, made or not, is to this holder, in force or not. It doesn't allocate, and takes a
    /// time that grows with the logarithm of the number of such grants.
    pub fn next_to(&self, holder: &Holder, from: usize) -> Option<usize>
        ensures { IsNext (is_to holder.now.grantee holder.now.kind holder.now.table) (batch_slots (batch_of self.now)) from result }
    {
        if let Some(slot) = self.earlier_to(holder, from) {
            return Some(slot);
        }
        let earlier = self.earlier_count();
        match self.own_to(holder, from.saturating_sub(earlier)) {
            Some(slot) => Some(earlier + slot),
            None => None,
        }
    }

    /// The least slot at or above this one, which is one of the batch's own grants or above, whose grant, made or not, is to this holder. It
    /// doesn't allocate, and takes a time that grows with the logarithm of the number of such grants of the batch.
    pub fn next_own_to(&self, holder: &Holder, from: usize) -> Option<usize>
        requires { earlier_count (batch_of self.now) ≤ from }
        ensures { IsNext (is_to holder.now.grantee holder.now.kind holder.now.table) (batch_slots (batch_of self.now)) from result }
    {
        let earlier = self.earlier_count();
        match self.own_to(holder, from - earlier) {
            Some(slot) => Some(earlier + slot),
            None => None,
        }
    }

    /// The least slot at or above this one whose grant, made or not, is by this user, of this kind on this table, in force or not. It
    /// doesn't allocate, and takes a time that grows with the logarithm of the number of such grants.
    pub fn next_by(&self, user: User, kind: Kind, table: Table, from: usize) -> Option<usize>
        ensures { IsNext (is_by user kind table) (batch_slots (batch_of self.now)) from result }
    {
        if let Some(slot) = self.earlier_by(user, kind, table, from) {
            return Some(slot);
        }
        let earlier = self.earlier_count();
        match self.own_by(user, kind, table, from.saturating_sub(earlier)) {
            Some(slot) => Some(earlier + slot),
            None => None,
        }
    }
}
