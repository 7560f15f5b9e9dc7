//! The options that users lost by a revocation.

ghost use Rattle.std.specs.Prelude.{◌≡◌, ◌<◌, ℕ, List, IfSome, None, OnOk, length, slice_index_or, true, unwrap_or};
ghost use Rattle.std.specs.BTreeMap.{get};
ghost use Rattle.model_base.specs.declared.deed.Revocation.{Revocation};
ghost use Rattle.grants_base.specs.View.{View};
ghost use Rattle.grants.specs.Work.{AllPassed, ArePassed, MayBe, kind_holder_cmp, kind_holder_key, passed_slot};

use model_base::{Kind, User};
use std::alloc::{AllocError, Global};
use std::collections::BTreeMap;

/// How many take no heap block. Few revocations end more options.
const FEW: usize = 5;

/// A user who has the option of a kind, or had it.
#[derive(Clone, Copy)]
pub(crate) struct KindHolder {
    pub user: User,
    pub kind: Kind,
}

/// The user of a holder, with the code of its kind.
#[derive(Clone, Copy, PartialEq, Eq, PartialOrd, Ord)]
pub(crate) struct KindHolderKey {
    user: User,
    kind: u8,
}

impl KindHolder {
    /// What is looked up for it.
    fn key(&self) -> KindHolderKey
        ensures { result ≡ kind_holder_key self.now.user self.now.kind }
    {
        KindHolderKey {
            user: self.user,
            kind: self.kind.code(),
        }
    }
}

impl KindHolder {
    /// The holder, with a slot.
    fn passed(&self, slot: usize) -> Passed
        ensures { result ≡ record { key = kind_holder_key self.now.user self.now.kind; slot = slot } }
    {
        Passed {
            key: self.key(),
            slot,
        }
    }
}

/// A holder, by its key, and the slot below which none gives it the option any more, as far as it was looked at.
#[derive(Clone, Copy)]
struct Passed {
    key: KindHolderKey,
    slot: usize,
}

/// Whether the entry is free, or the key's.
fn may_be(entry: &Option<Passed>, key: &KindHolderKey) -> bool
    ensures { result ≡ true → MayBe key.now entry.now }
{
    match entry {
        Some(passed) => passed.key == *key,
        None => true,
    }
}

/// The slot of the entry, or the first one.
fn passed_slot(entry: &Option<Passed>) -> usize
    ensures { result ≡ passed_slot entry.now }
{
    match entry {
        Some(passed) => passed.slot,
        None => 0,
    }
}

/// The first entry that is free, or the key's.
fn find(few: &[Option<Passed>; FEW], key: &KindHolderKey) -> Option<usize>
    ensures within { IfSome result (λ i. i < FEW) }
    ensures there { IfSome result (λ i. i < length few.now) }
    ensures found { IfSome result (λ i. MayBe key.now (slice_index_or few.now i None)) }
{
    for i in 0..FEW {
        if may_be(&few[i], key) {
            return Some(i);
        }
    }
    None
}

/// The slot of the key, or the first one.
fn passed_other(others: &BTreeMap<KindHolderKey, usize>, key: &KindHolderKey) -> usize
    ensures { result ≡ unwrap_or (get kind_holder_cmp others.now key.now) 0 }
{
    others.get(key).copied().unwrap_or(0)
}

/// Users who lost an option, each with its kind and the slot below which none gives it any more, as far as it was looked at.
#[derive(Drop)]
pub(crate) struct LostOptions {
    few: [Option<Passed>; FEW],
    others: BTreeMap<KindHolderKey, usize>,
}

impl LostOptions {
    /// None. It doesn't allocate.
    pub fn new(alloc: Global) -> Self
        ensures { (revocation : Revocation) (view : View) (ended : List ℕ) → AllPassed revocation view ended result }
    {
        LostOptions {
            few: [None; FEW],
            others: BTreeMap::new(alloc),
        }
    }

    /// A slot below which none gives the holder the option of its kind any more.
    pub fn passed_by(&self, holder: &KindHolder) -> usize
        ensures { (revocation : Revocation) (view : View) (ended : List ℕ) → AllPassed revocation view ended self.now
            → ArePassed revocation view ended holder.now.user holder.now.kind result }
    {
        let key = holder.key();
        match find(&self.few, &key) {
            Some(i) => passed_slot(&self.few[i]),
            None => passed_other(&self.others, &key),
        }
    }

    /// Keeps such a slot for the holder. On `Err`, out of memory.
    pub fn put(&mut self, holder: &KindHolder, slot: usize) -> Result<(), AllocError>
        ensures { OnOk result ((revocation : Revocation) (view : View) (ended : List ℕ)
            → ArePassed revocation view ended holder.now.user holder.now.kind slot
            → AllPassed revocation view ended self.old → AllPassed revocation view ended self.new) }
    {
        let key = holder.key();
        match find(&self.few, &key) {
            Some(i) => self.few[i] = Some(holder.passed(slot)),
            None => {
                self.others.insert(key, slot)?;
            }
        }
        Ok(())
    }
}
