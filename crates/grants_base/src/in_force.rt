//! The grants under each grantee, kind and table, those in force, and when those that left force did last.

ghost use Rattle.std.specs.Prelude.{◌≡◌, ◌++◌, ◌∷◌, [], true, List, IfSome, Ok, OnErr, OnOk, Some, slice_get, length};
ghost use Rattle.model_base.specs.declared.deed.Record.{Record};
ghost use Rattle.grants_base.specs.Book.{end_slot, unended};
ghost use Rattle.grants_base.specs.Force.{IsGranted, IsWithdrawn, force_of};
ghost use Rattle.grants_base.specs.GrantorSet.{has_by};
ghost use Rattle.grants_base.specs.InForce.{IsChanged, KeepsInForce, made_under, privilege_under, side_under};
ghost use Rattle.grants_base.specs.Index.{IsFirst, IsOnly, is_one_of};
ghost use Rattle.grants_base.specs.Sides.{AreAscending, IsEmpty, IsPopped, IsPushed, IsSame, to_side};
ghost use Rattle.grants_base.specs.declared.index.HolderKey.{HolderKey};

use crate::force::{NextBy, NextInForce};
use crate::grantor_set::Granted;
use crate::index::{HolderKey, to_side};
use crate::side::Side;
use model_base::{Grant, HashSeed, Place, Record, User};
use std::alloc::{AllocError, Global};
use std::collections::HashMap;

/// The grants under each grantee, kind and table, and what is in force of them. Where memory ran out, or grants and ends were taken back,
/// that isn't whole any more: then it says nothing of what is in force.
#[derive(Drop)]
pub(crate) struct GranteeIndex {
    alloc: Global,
    sides: HashMap<HolderKey, Side, HashSeed>,
    is_whole: bool,
}

/// The slot of a grant with its grantor.
fn granted_at(grant: &Grant, slot: usize) -> Granted
    ensures { result ≡ record { grantor = grant.now.grantor; slot = slot } }
{
    Granted {
        grantor: grant.grantor,
        slot,
    }
}

impl GranteeIndex {
    /// No grants, and sides are found under this seed. It says what is in force, if that is asked for. It doesn't allocate.
    pub fn seeded(alloc: Global, seed: HashSeed, is_whole: bool) -> Self
        ensures none { IsEmpty (made_under result) }
        ensures kept { KeepsInForce result [] }
    {
        GranteeIndex {
            alloc,
            sides: HashMap::with_hasher(alloc, seed),
            is_whole,
        }
    }

    /// Says nothing of what is in force from now on.
    pub fn forget(&mut self)
        ensures made { IsSame (made_under self.old) (made_under self.new) }
        ensures kept { (entries : List Record) → KeepsInForce self.new entries }
    {
        self.is_whole = false;
    }

    /// Adds the slot of a grant under its side, and returns whether it stands among those in force too. On `Err`, out of memory, nothing has
    /// changed.
    fn put(&mut self, key: HolderKey, granted: Granted, option: bool) -> Result<bool, AllocError>
        ensures whole { self.new.is_whole ≡ self.old.is_whole }
        ensures made { OnOk result (IsPushed key granted.slot (made_under self.old) (made_under self.new)) }
        ensures kept { result ≡ Ok true → IsChanged key (IsGranted granted option) self.old self.new }
        ensures err { OnErr result ((other : HolderKey) → side_under self.new other ≡ side_under self.old other) }
    {
        let side = self.sides.entry(key)?.or_insert(Side::new());
        side.push(self.alloc, granted, option, self.is_whole)
    }

    /// Takes away the slot of a grant that left force at a place, and returns whether it was known under its side.
    fn take(&mut self, key: &HolderKey, granted: &Granted, place: Place, option: bool) -> bool
        ensures whole { self.new.is_whole ≡ self.old.is_whole }
        ensures made { IsSame (made_under self.old) (made_under self.new) }
        ensures taken { result ≡ true → IsChanged key.now (IsWithdrawn granted.now place option) self.old self.new }
    {
        match self.sides.get_mut(key) {
            Some(side) => side.end(granted, place, option),
            None => false,
        }
    }

    /// Adds the record of a grant, without an end, after all others. On `Err`, out of memory, nothing has changed.
    pub fn push(&mut self, grant: &Grant, slot: usize) -> Result<(), AllocError>
        ensures made { OnOk result (IsPushed (to_side grant.now) slot (made_under self.old) (made_under self.new)) }
        ensures kept { OnOk result ((entries : List Record) → slot ≡ length entries → KeepsInForce self.old entries
            → KeepsInForce self.new (entries ++ unended grant.now ∷ [])) }
        ensures err { OnErr result (IsSame (made_under self.old) (made_under self.new)) }
        ensures err_kept { OnErr result ((entries : List Record) → KeepsInForce self.old entries → KeepsInForce self.new entries) }
    {
        let is_kept = self.put(to_side(grant), granted_at(grant, slot), grant.option)?;
        if !is_kept {
            self.forget();
        }
        Ok(())
    }

    /// Takes the last slot under the side of a grant away, and says nothing of what is in force from now on.
    pub fn pop(&mut self, grant: &Grant)
        ensures made { IsPopped (to_side grant.now) (made_under self.old) (made_under self.new) }
        ensures kept { (entries : List Record) → KeepsInForce self.new entries }
    {
        self.is_whole = false;
        if let Some(side) = self.sides.get_mut(&to_side(grant)) {
            side.pop();
        }
    }

    /// Ends the record of a slot.
    pub fn end(&mut self, entry: &Record, slot: usize, place: Place)
        ensures made { IsSame (made_under self.old) (made_under self.new) }
        ensures kept { (entries : List Record) → slice_get entries slot ≡ Some entry.now → KeepsInForce self.old entries
            → KeepsInForce self.new (end_slot entries slot place) }
    {
        let grant = &entry.grant;
        if entry.end.is_some()
            || !self.take(
                &to_side(grant),
                &granted_at(grant, slot),
                place,
                grant.option,
            )
        {
            self.forget();
        }
    }

    /// The least slot at or above this one, under a side whose slots rise.
    pub fn next_made(&self, key: &HolderKey, from: usize) -> Option<usize>
        requires { AreAscending (made_under self.now key.now) }
        ensures { IsFirst (is_one_of (made_under self.now key.now)) from result }
    {
        match self.sides.get(key) {
            Some(side) => side.next_made(from),
            None => None,
        }
    }

    /// The least slot at or above this one of a grant in force under a side, and the last place at which one of them left force; with the
    /// option, where one is asked for. None where the index isn't whole.
    pub fn next(&self, key: &HolderKey, option: bool, from: usize) -> Option<NextInForce>
        ensures whole { IfSome result (λ _. self.now.is_whole ≡ true) }
        ensures slot { IfSome result (λ next.
            IsFirst (is_one_of (force_of option (privilege_under self.now key.now)).slots) from next.slot) }
        ensures lost { IfSome result (λ next. next.lost ≡ (force_of option (privilege_under self.now key.now)).lost) }
    {
        if !self.is_whole {
            return None;
        }
        match self.sides.get(key) {
            Some(side) => Some(side.next(option, from)),
            None => Some(NextInForce {
                slot: None,
                lost: None,
            }),
        }
    }

    /// The slot of the only grant in force under a side, where it is known that there is one at most. None where the index isn't whole.
    pub fn only(&self, key: &HolderKey) -> Option<usize>
        ensures whole { IfSome result (λ _. self.now.is_whole ≡ true) }
        ensures slot { IfSome result (IsOnly (is_one_of (privilege_under self.now key.now).plain.slots)) }
    {
        if !self.is_whole {
            return None;
        }
        match self.sides.get(key) {
            Some(side) => side.only(),
            None => None,
        }
    }

    /// The least slot at or above this one of a grant in force under a side by a user. None where the index isn't whole.
    pub fn next_by(&self, key: &HolderKey, grantor: User, from: usize) -> Option<NextBy>
        ensures whole { IfSome result (λ _. self.now.is_whole ≡ true) }
        ensures slot { IfSome result (λ next. IsFirst (has_by (privilege_under self.now key.now).by grantor) from next.slot) }
    {
        if !self.is_whole {
            return None;
        }
        match self.sides.get(key) {
            Some(side) => Some(side.next_by(grantor, from)),
            None => Some(NextBy { slot: None }),
        }
    }
}
