//! Slots under grantees or grantors, kinds and tables.

ghost use Rattle.std.specs.Prelude.{◌≡◌, ◌-◌, ◌++◌, ◌∷◌, [], ℕ, false, OnErr, OnOk, length, slice_get, take, if◌then◌else◌};
ghost use Rattle.std.proofs.Common.{rules};
ghost use Rattle.std.specs.Cmp.Rules.{hashing};
ghost use Rattle.std.specs.Hash as fed;
ghost use Rattle.grants_base.specs.Index.{is_one_of, IsFirst};
ghost use Rattle.grants_base.specs.Sides.{AreAscending, IsEmpty, IsPopped, IsPushed, IsSame, holder_code, side_of, side_word, slots_under, to_side};
ghost use Rattle.model_base.specs.Ranks.{kind_code};

use crate::records::Holder;
use model_base::{Grant, Grantee, HashSeed, Table};
use std::alloc::{AllocError, Global};
use std::collections::HashMap;
use std::hash::{Hash, Hasher};
use std::marker::Model;

/// The code of a grantee, and so of a user, with a table and the code of a kind.
#[derive(Clone, Copy, PartialEq, Eq)]
pub(crate) struct HolderKey {
    holder: u64,
    table: Table,
    kind: u8,
}

impl HolderKey {
    /// The number that is hashed. Those of two sides differ: a holder's code has 33 bits, and a log has at most 2^16 tables.
    #[inline(always)]
    fn word(&self) -> u64
        ensures { result ≡ side_word self.now }
    {
        self.holder ^ ((self.table.0 as u64) << 34) ^ ((self.kind as u64) << 50)
    }
}

impl Hash for HolderKey {
    ghost hash_input = { λ side. fed.u64 (side_word side) };

    ghost respects_eq = { Prim.search (hashing, rules) };

    #[inline(always)]
    fn hash<H: Hasher>(&self, state: &mut H) {
        state.write_u64(self.word());
    }
}

/// The code of a grantee: 0 for PUBLIC, else one more than the user's number.
pub fn holder_code(grantee: Grantee) -> u64
    ensures { result ≡ holder_code grantee }
{
    match grantee {
        Grantee::User(user) => user.0 as u64 + 1,
        Grantee::Public => 0,
    }
}

/// What is looked up for a grantee, a kind and a table.
pub(crate) fn side_of(holder: Holder) -> HolderKey
    ensures { result ≡ side_of holder.grantee holder.kind holder.table }
{
    HolderKey {
        holder: holder_code(holder.grantee),
        table: holder.table,
        kind: holder.kind.code(),
    }
}

/// The side of a grant's grantee.
pub(crate) fn to_side(grant: &Grant) -> HolderKey
    ensures { result ≡ to_side grant.now }
{
    side_of(Holder {
        grantee: grant.grantee,
        kind: grant.kind,
        table: grant.table,
    })
}

/// The slot of an index among these, if there is one.
fn slot_at(slots: &[usize], i: usize) -> Option<usize>
    ensures { result ≡ slice_get slots.now i }
{
    slots.get(i).copied()
}

/// The least of the slots, which rise, that isn't below this one. It takes a time that grows with the logarithm of their number.
pub(crate) fn next_slot(slots: &[usize], from: usize) -> Option<usize>
    requires { AreAscending slots.now }
    ensures { IsFirst (is_one_of slots.now) from result }
{
    let i = slots.partition_point(|slot| *slot < from);
    slot_at(slots, i)
}

/// Some slots in the order in which they were added. A single one takes no heap block.
#[derive(Drop)]
pub(crate) struct Slots {
    first: Option<usize>,
    later: Vec<usize>,
}

impl Model for Slots {
    ghost use Rattle.std.specs.Prelude.{List, ℕ, ◌++◌};
    ghost use Rattle.std.specs.Option.{option_to_list};

    ghost Value = { List ℕ };

    ghost view = { λ slots. option_to_list slots.first ++ slots.later.items };
}

impl Slots {
    /// No slots. It doesn't allocate.
    pub fn new(alloc: Global) -> Self
        ensures { result ≡ [] }
    {
        Slots {
            first: None,
            later: Vec::new(alloc),
        }
    }

    /// A single slot. It doesn't allocate.
    pub fn of(alloc: Global, slot: usize) -> Self
        ensures { result ≡ slot ∷ [] }
    {
        Slots {
            first: Some(slot),
            later: Vec::new(alloc),
        }
    }

    /// Adds a slot last. On `Err`, out of memory, the slots are as they were.
    #[inline(always)]
    pub fn push(&mut self, slot: usize) -> Result<(), AllocError>
        ensures ok { OnOk result (self.new ≡ self.old ++ slot ∷ []) }
        ensures err { OnErr result (self.new ≡ self.old) }
    {
        if self.first.is_none() && self.later.is_empty() {
            self.first = Some(slot);
        } else {
            self.later.push(slot)?;
        }
        Ok(())
    }

    /// Takes the last slot away, if there is one.
    pub fn pop(&mut self)
        ensures { self.new ≡ take (length self.old - 1) self.old }
    {
        if self.later.pop().is_none() {
            self.first = None;
        }
    }

    /// The least slot at or above this one, in a time that grows with the logarithm of their number.
    pub fn next(&self, from: usize) -> Option<usize>
        requires { AreAscending self.now }
        ensures { IsFirst (is_one_of self.now) from result }
    {
        match self.first {
            Some(first) if from <= first => Some(first),
            Some(_) => next_slot(self.later.as_slice(), from),
            None => next_slot(self.later.as_slice(), from),
        }
    }
}

/// The slots under each grantor, kind and table. A side is found in a time that doesn't grow with their number, on average.
#[derive(Drop)]
pub(crate) struct Index {
    alloc: Global,
    sides: HashMap<HolderKey, Slots, HashSeed>,
}

impl Index {
    /// No slots, and sides are found under this seed. It doesn't allocate.
    pub fn seeded(alloc: Global, seed: HashSeed) -> Self
        ensures { IsEmpty (slots_under result) }
    {
        Index {
            alloc,
            sides: HashMap::with_hasher(alloc, seed),
        }
    }

    /// Adds a slot last under a side. On `Err`, out of memory, the slots are as they were.
    pub fn push(&mut self, side: HolderKey, slot: usize) -> Result<(), AllocError>
        ensures ok { OnOk result (IsPushed side slot (slots_under self.old) (slots_under self.new)) }
        ensures err { OnErr result (IsSame (slots_under self.old) (slots_under self.new)) }
    {
        let slots = self.sides.entry(side)?.or_insert(Slots::new(self.alloc));
        slots.push(slot)
    }

    /// Takes the last slot under a side away, if there is one.
    pub fn pop(&mut self, side: &HolderKey)
        ensures { IsPopped side.now (slots_under self.old) (slots_under self.new) }
    {
        if let Some(slots) = self.sides.get_mut(side) {
            slots.pop();
        }
    }

    /// The least slot at or above this one, under a side whose slots rise.
    pub fn next(&self, side: &HolderKey, from: usize) -> Option<usize>
        requires { AreAscending (slots_under self.now side.now) }
        ensures { IsFirst (is_one_of (slots_under self.now side.now)) from result }
    {
        match self.sides.get(side) {
            Some(slots) => slots.next(from),
            None => None,
        }
    }
}
