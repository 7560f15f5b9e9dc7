//! A set of slots that has one as a rule.

ghost use Rattle.std.specs.Prelude.{◌≡◌, ◌<◌, ◌∷◌, [], All, IfNone, IfSome, OnErr, OnOk};
ghost use Rattle.grants_base.specs.Index.{IsFirst, is_one_of};
ghost use Rattle.grants_base.specs.SlotSet.{HasGained, HasLost};

use std::alloc::{AllocError, Global};
use std::collections::BTreeSet;
use std::marker::Model;

/// A set of slots. A single one takes no heap block. To add one, to take one away and to find the next takes a time that grows with the
/// logarithm of their number.
#[derive(Drop)]
pub struct SlotSet {
    least: Option<usize>,
    others: BTreeSet<usize>,
}

impl Model for SlotSet {
    ghost use Rattle.std.specs.Prelude.{List, ℕ, ◌++◌};
    ghost use Rattle.std.specs.Option.{option_to_list};
    ghost use Rattle.grants_base.specs.SlotSet.{AreAbove};

    ghost Value = { List ℕ };

    ghost view = { λ set. option_to_list set.least ++ set.others.keys };

    ghost invariant = { λ set. AreAbove set.least set.others.keys };
}

impl SlotSet {
    /// No slots. It doesn't allocate.
    pub fn new(alloc: Global) -> Self
        ensures { result ≡ [] }
    {
        SlotSet {
            least: None,
            others: BTreeSet::new(alloc),
        }
    }

    /// Adds a slot. On `Err`, out of memory, nothing has changed.
    pub fn insert(&mut self, slot: usize) -> Result<(), AllocError>
        ensures ok { OnOk result (HasGained slot self.old self.new) }
        ensures err { OnErr result (self.new ≡ self.old) }
    {
        match self.least {
            Some(least) if slot < least => {
                self.others.insert(least)?;
                self.least = Some(slot);
            }
            Some(least) if least < slot => {
                self.others.insert(slot)?;
            }
            _ => self.least = Some(slot),
        }
        Ok(())
    }

    /// Takes a slot away, if it is there.
    pub fn remove(&mut self, slot: usize)
        ensures { HasLost slot self.old self.new }
    {
        if self.least == Some(slot) {
            self.least = self.others.pop_first();
        } else {
            self.others.remove(&slot);
        }
    }

    /// Takes the least slot away, if there is one.
    pub fn pop_first(&mut self) -> Option<usize>
        ensures removal { IfSome result (λ slot. self.old ≡ slot ∷ self.new) }
        ensures above { IfSome result (λ slot. All (λ other. slot < other) self.new) }
        ensures none { IfNone result (self.old ≡ []) }
        ensures same { IfNone result (self.new ≡ []) }
    {
        match self.least {
            Some(slot) => {
                self.least = self.others.pop_first();
                Some(slot)
            }
            None => None,
        }
    }

    /// The least slot at or above this one.
    pub fn next(&self, from: usize) -> Option<usize>
        ensures { IsFirst (is_one_of self.now) from result }
    {
        match self.least {
            Some(least) if least < from => self.others.range(from..).next().copied(),
            Some(least) => Some(least),
            None => None,
        }
    }
}
