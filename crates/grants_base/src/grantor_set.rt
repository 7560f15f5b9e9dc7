//! Slots under their grantors.

ghost use Rattle.std.specs.Prelude.{◌≡◌, ◌||◌, [], ℕ, Bool, OnErr, OnOk};
ghost use Rattle.std.specs.Option.{option_to_list};
ghost use Rattle.grants_base.specs.GrantorSet.{HasGainedBy, HasLostBy, has_by};
ghost use Rattle.grants_base.specs.Index.{IsFirst};

use model_base::User;
use std::alloc::{AllocError, Global};
use std::collections::BTreeSet;
use std::marker::Model;

/// That a user made the grant of a slot. Those of one user follow one another, by their slots.
#[derive(Clone, Copy, PartialEq, Eq, PartialOrd, Ord)]
pub(crate) struct Granted {
    pub grantor: User,
    pub slot: usize,
}

/// Slots, each with the user who made its grant. A single one takes no heap block. To add one, to remove one and to find the next of a
/// user takes a time that grows with the logarithm of their number.
#[derive(Drop)]
pub(crate) struct GrantorSet {
    one: Option<Granted>,
    others: BTreeSet<Granted>,
}

impl Model for GrantorSet {
    ghost use Rattle.std.specs.Prelude.{List, ◌++◌};
    ghost use Rattle.std.specs.Option.{option_to_list};
    ghost use Rattle.grants_base.specs.declared.grantor_set.Granted.{Granted};

    ghost Value = { List Granted };

    ghost view = { λ set. option_to_list set.one ++ set.others.keys };
}

/// What is found by one of two searches: the lesser slot, where both find one.
pub(crate) fn lesser(slot: Option<usize>, other: Option<usize>) -> Option<usize>
    ensures { (p q : ℕ → Bool) (from : ℕ) → IsFirst p from slot → IsFirst q from other → IsFirst (λ k. p k || q k) from result }
{
    match (slot, other) {
        (Some(first), Some(second)) if second < first => other,
        (None, _) => other,
        _ => slot,
    }
}

/// The slot of a grant by the user, at or above this one, if there is one.
fn slot_by(granted: Option<Granted>, grantor: User, from: usize) -> Option<usize>
    ensures { IsFirst (has_by (option_to_list granted) grantor) from result }
{
    match granted {
        Some(it) if it.grantor == grantor && from <= it.slot => Some(it.slot),
        _ => None,
    }
}

/// The least slot of a grant by the user, at or above this one.
fn next_by(granted: &BTreeSet<Granted>, grantor: User, from: usize) -> Option<usize>
    ensures { IsFirst (has_by granted.now.keys grantor) from result }
{
    let start = Granted {
        grantor,
        slot: from,
    };
    slot_by(granted.range(start..).next().copied(), grantor, from)
}

/// The slot, unless it is this one.
fn without(one: Option<Granted>, granted: &Granted) -> Option<Granted>
    ensures { HasLostBy granted.now (option_to_list one) (option_to_list result) }
{
    match one {
        Some(it) if it == *granted => None,
        _ => one,
    }
}

impl GrantorSet {
    /// No slots. It doesn't allocate.
    pub fn new(alloc: Global) -> Self
        ensures { result ≡ [] }
    {
        GrantorSet {
            one: None,
            others: BTreeSet::new(alloc),
        }
    }

    /// Adds a slot. On `Err`, out of memory, nothing has changed.
    pub fn insert(&mut self, granted: Granted) -> Result<(), AllocError>
        ensures ok { OnOk result (HasGainedBy granted self.old self.new) }
        ensures err { OnErr result (self.new ≡ self.old) }
    {
        if self.one.is_none() {
            self.one = Some(granted);
        } else {
            self.others.insert(granted)?;
        }
        Ok(())
    }

    /// Removes a slot, if it is there.
    pub fn remove(&mut self, granted: &Granted)
        ensures { HasLostBy granted.now self.old self.new }
    {
        self.one = without(self.one, granted);
        self.others.remove(granted);
    }

    /// The least slot of a grant by the user, at or above this one.
    pub fn next(&self, grantor: User, from: usize) -> Option<usize>
        ensures { IsFirst (has_by self.now grantor) from result }
    {
        lesser(
            slot_by(self.one, grantor, from),
            next_by(&self.others, grantor, from),
        )
    }
}
