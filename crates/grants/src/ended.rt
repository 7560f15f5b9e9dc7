//! What a revocation has ended so far.

ghost use Rattle.std.specs.Prelude.{◌==◌, ◌≡◌, ◌<◌, ◌++◌, ◌∷◌, [], ℕ, false, true, IfOk, OnOk, slice_get};
ghost use Rattle.std.specs.Option.{option_map_or};
ghost use Rattle.grants_base.specs.Index.{is_one_of};
ghost use Rattle.grants_base.specs.Sides.{AreAscending};
ghost use Rattle.grants.specs.Work.{slots_of};
ghost use Rattle.grants_base.specs.declared.entries.End.{End};

use grants_base::End;
use model_base::{Place, RecordName};
use std::alloc::{AllocError, Global};
use std::marker::Model;

/// For how many ends there is room at first: few revocations end more grants.
const ROOM: usize = 16;

/// Whether the end of an index, if there is one, is of the slot.
fn is_of(ends: &[End], i: usize, slot: usize) -> bool
    ensures { result ≡ option_map_or (λ (end : End). end.slot == slot) (slice_get ends.now i) false }
{
    match ends.get(i) {
        Some(end) => end.slot == slot,
        None => false,
    }
}

/// Whether one of the ends, whose slots rise, is of the slot. It takes a time that grows with the logarithm of their number.
fn has_end(ends: &[End], slot: usize) -> bool
    requires { AreAscending (slots_of ends.now) }
    ensures { result ≡ is_one_of (slots_of ends.now) slot }
{
    let i = ends.partition_point(|end| end.slot < slot);
    is_of(ends, i, slot)
}

/// The ends of some slots, which rise, and the names of the records of their grants.
#[derive(Drop)]
pub(crate) struct Ended {
    ends: Vec<End>,
    names: Vec<RecordName>,
}

impl Model for Ended {
    ghost use Rattle.grants_base.specs.Sides.{AreAscending};
    ghost use Rattle.grants.specs.Work.{Ends, slots_of};

    ghost Value = { Ends };

    ghost view = { λ ended. record { ends = ended.ends.items; ranks = ended.names.items } };

    ghost invariant = { λ ended. AreAscending (slots_of ended.ends.items) };
}

impl Ended {
    /// No ends, and room for some. On `Err`, out of memory.
    pub fn with_room(alloc: Global) -> Result<Self, AllocError>
        ensures ends { IfOk result (λ ended. ended.ends ≡ []) }
        ensures ranks { IfOk result (λ ended. ended.ranks ≡ []) }
    {
        Ok(Ended {
            ends: Vec::with_capacity(alloc, ROOM)?,
            names: Vec::with_capacity(alloc, ROOM)?,
        })
    }

    /// Adds the end of a slot above the others at a place, and the name of its record. On `Err`, out of memory.
    pub fn push(&mut self, slot: usize, place: Place, name: RecordName) -> Result<(), AllocError>
        requires { (other : ℕ) → is_one_of (slots_of self.old.ends) other ≡ true → other < slot }
        ensures ends { OnOk result (self.new.ends ≡ self.old.ends ++ record { slot = slot; place = place } ∷ []) }
        ensures ranks { OnOk result (self.new.ranks ≡ self.old.ranks ++ name ∷ []) }
    {
        self.names.push(name)?;
        self.ends.push(End { slot, place })?;
        Ok(())
    }

    /// Whether the slot has an end.
    pub fn contains(&self, slot: usize) -> bool
        ensures { result ≡ is_one_of (slots_of self.now.ends) slot }
    {
        has_end(self.ends.as_slice(), slot)
    }

    /// The ends.
    pub fn ends(&self) -> &[End]
        ensures { result.now ≡ self.now.ends }
    {
        &self.ends
    }

    /// The names of the records.
    pub fn into_names(self) -> Vec<RecordName>
        ensures { result.items ≡ self.ranks }
    {
        self.names
    }
}
