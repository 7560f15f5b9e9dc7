//! What is kept under a grantee, kind and table.

ghost use Rattle.std.specs.Prelude.{◌-◌, ◌≡◌, ◌++◌, ◌∷◌, [], true, IfSome, Ok, OnErr, OnOk, length, take};
ghost use Rattle.grants_base.specs.Force.{IsGranted, IsWithdrawn, force_of};
ghost use Rattle.grants_base.specs.GrantorSet.{has_by};
ghost use Rattle.grants_base.specs.Index.{IsFirst, IsOnly, is_one_of};
ghost use Rattle.grants_base.specs.Kept.{IsWide, lost_with_option, no_side, one_in_force, several_of, several_of_one};
ghost use Rattle.grants_base.specs.Sides.{AreAscending};

use crate::force::{Given, NextBy, NextInForce, Privilege, slot_by, slot_of};
use crate::grantor_set::Granted;
use crate::index::Slots;
use model_base::{Place, User};
use std::alloc::{AllocError, Global};
use std::marker::Model;

/// The only grant that was made, and where it left force, if it did.
#[derive(Clone, Copy)]
struct Only {
    given: Given,
    lost: Option<Place>,
}

/// What is kept where several grants were made: the slots of all, and what is in force of them.
#[derive(Drop)]
pub(crate) struct Several {
    made: Slots,
    privilege: Privilege,
}

/// What is kept of as many grants as were made.
#[derive(Drop)]
enum Kept {
    Nothing,
    One(Only),
    Many(Box<Several>),
}

/// What is kept under a grantee, kind and table: the slots of all grants, and what is in force of them. A single grant takes no heap
/// block.
#[derive(Drop)]
pub(crate) struct Side {
    kept: Kept,
}

impl Model for Side {
    ghost use Rattle.grants_base.specs.Kept.{several_of};
    ghost use Rattle.grants_base.specs.declared.side.Several.{Several};

    ghost Value = { Several };

    ghost view = { λ side. several_of side.kept };
}

impl Only {
    /// The grant, if it is in force.
    fn standing(&self) -> Option<Given>
        ensures { result ≡ one_in_force self.now }
    {
        match self.lost {
            Some(_) => None,
            None => Some(self.given),
        }
    }

    /// The place at which it left force, if it did and has the option.
    fn lost_with_option(&self) -> Option<Place>
        ensures { result ≡ lost_with_option self.now }
    {
        if self.given.option { self.lost } else { None }
    }

    /// Takes it away at a place, and returns whether what was known of it is the same.
    fn end(&mut self, granted: &Granted, place: Place, option: bool) -> bool
        ensures made { (several_of_one self.new).made ≡ (several_of_one self.old).made }
        ensures taken { result ≡ true
            → IsWithdrawn granted.now place option (several_of_one self.old).privilege (several_of_one self.new).privilege }
    {
        let given = self.given;
        let is_known = self.lost.is_none()
            && given.slot == granted.slot
            && given.grantor == granted.grantor
            && given.option == option;
        if is_known {
            self.lost = Some(place);
        }
        is_known
    }

    /// The next slot at or above this one, and the last loss; of grants with the option, where it is asked for.
    fn next(&self, option: bool, from: usize) -> NextInForce
        ensures slot { IsFirst (is_one_of (force_of option (several_of_one self.now).privilege).slots) from result.slot }
        ensures lost { result.lost ≡ (force_of option (several_of_one self.now).privilege).lost }
    {
        let slot = slot_of(self.standing(), option, from);
        let lost = if option {
            self.lost_with_option()
        } else {
            self.lost
        };
        NextInForce { slot, lost }
    }

    /// The next slot at or above this one of a grant by the user.
    fn next_by(&self, grantor: User, from: usize) -> NextBy
        ensures { IsFirst (has_by (several_of_one self.now).privilege.by grantor) from result.slot }
    {
        NextBy {
            slot: slot_by(self.standing(), grantor, from),
        }
    }

    /// Its slot.
    #[tactic(auto, using(crate::proofs::KeptLaws::only_standing))]
    fn slot(&self) -> usize
        ensures { IsOnly (is_one_of (several_of_one self.now).privilege.plain.slots) result }
    {
        self.given.slot
    }

    /// Its slot, if that isn't below another.
    fn next_made(&self, from: usize) -> Option<usize>
        ensures { IsFirst (is_one_of (several_of_one self.now).made) from result }
    {
        let slot = self.given.slot;
        if from <= slot { Some(slot) } else { None }
    }
}

impl Several {
    /// What is kept of a single grant. It doesn't allocate.
    fn of(alloc: Global, only: &Only) -> Self
        ensures { result ≡ several_of_one only.now }
    {
        Several {
            made: Slots::of(alloc, only.given.slot),
            privilege: Privilege::of(only.standing(), only.lost, only.lost_with_option()),
        }
    }

    /// Adds the slot of a grant, and, where that is asked for, to those in force, if there is memory for it: then it returns true. On `Err`,
    /// out of memory, nothing has changed.
    fn push(
        &mut self,
        alloc: Global,
        granted: Granted,
        option: bool,
        is_whole: bool,
    ) -> Result<bool, AllocError>
        ensures made { OnOk result (self.new.made ≡ self.old.made ++ granted.slot ∷ []) }
        ensures kept { result ≡ Ok true → IsGranted granted option self.old.privilege self.new.privilege }
        ensures err { OnErr result (self.new ≡ self.old) }
    {
        self.made.push(granted.slot)?;
        Ok(is_whole && self.privilege.push(alloc, granted, option).is_ok())
    }
}

/// What is kept of one grant, as it is of several. On `Err`, out of memory, nothing has changed.
fn widen(kept: &mut Kept, alloc: Global) -> Result<(), AllocError>
    ensures same { several_of kept.new ≡ several_of kept.old }
    ensures wide { OnOk result (IsWide kept.new) }
{
    if let Kept::One(only) = kept {
        let several = Box::new(alloc, Several::of(alloc, only))?;
        *kept = Kept::Many(several);
    }
    Ok(())
}

impl Side {
    /// No grants. It doesn't allocate.
    pub fn new() -> Self
        ensures { result ≡ no_side }
    {
        Side {
            kept: Kept::Nothing,
        }
    }

    /// Adds the slot of a grant, and, where that is asked for, to those in force, if there is memory for it: then it returns true. On `Err`,
    /// out of memory, nothing has changed.
    #[inline(always)]
    pub fn push(
        &mut self,
        alloc: Global,
        granted: Granted,
        option: bool,
        is_whole: bool,
    ) -> Result<bool, AllocError>
        ensures made { OnOk result (self.new.made ≡ self.old.made ++ granted.slot ∷ []) }
        ensures kept { result ≡ Ok true → IsGranted granted option self.old.privilege self.new.privilege }
        ensures err { OnErr result (self.new ≡ self.old) }
    {
        widen(&mut self.kept, alloc)?;
        if let Kept::Many(several) = &mut self.kept {
            return several.push(alloc, granted, option, is_whole);
        }
        let given = Given {
            slot: granted.slot,
            grantor: granted.grantor,
            option,
        };
        self.kept = Kept::One(Only { given, lost: None });
        Ok(is_whole)
    }

    /// Takes the last slot away, if there is one.
    pub fn pop(&mut self)
        ensures { self.new.made ≡ take (length self.old.made - 1) self.old.made }
    {
        if let Kept::Many(several) = &mut self.kept {
            several.made.pop();
        } else {
            self.kept = Kept::Nothing;
        }
    }

    /// Takes away the slot of a grant that left force at a place, and returns whether what was known of the slot is the same.
    pub fn end(&mut self, granted: &Granted, place: Place, option: bool) -> bool
        ensures made { self.new.made ≡ self.old.made }
        ensures taken { result ≡ true → IsWithdrawn granted.now place option self.old.privilege self.new.privilege }
    {
        match &mut self.kept {
            Kept::Nothing => false,
            Kept::One(only) => only.end(granted, place, option),
            Kept::Many(several) => several.privilege.end(granted, place, option),
        }
    }

    /// The least slot at or above this one, of slots that rise.
    pub fn next_made(&self, from: usize) -> Option<usize>
        requires { AreAscending self.now.made }
        ensures { IsFirst (is_one_of self.now.made) from result }
    {
        match &self.kept {
            Kept::Nothing => None,
            Kept::One(only) => only.next_made(from),
            Kept::Many(several) => several.made.next(from),
        }
    }

    /// The least slot at or above this one of a grant in force, and the last loss; of grants with the option, where it is asked for.
    pub fn next(&self, option: bool, from: usize) -> NextInForce
        ensures slot { IsFirst (is_one_of (force_of option self.now.privilege).slots) from result.slot }
        ensures lost { result.lost ≡ (force_of option self.now.privilege).lost }
    {
        match &self.kept {
            Kept::Nothing => NextInForce {
                slot: None,
                lost: None,
            },
            Kept::One(only) => only.next(option, from),
            Kept::Many(several) => several.privilege.next(option, from),
        }
    }

    /// The slot of the only grant in force, where it is known that there is one at most.
    pub fn only(&self) -> Option<usize>
        ensures { IfSome result (IsOnly (is_one_of self.now.privilege.plain.slots)) }
    {
        match &self.kept {
            Kept::Nothing => None,
            Kept::One(only) => Some(only.slot()),
            Kept::Many(several) => several.privilege.only(),
        }
    }

    /// The least slot at or above this one of a grant in force by the user.
    pub fn next_by(&self, grantor: User, from: usize) -> NextBy
        ensures { IsFirst (has_by self.now.privilege.by grantor) from result.slot }
    {
        match &self.kept {
            Kept::Nothing => NextBy { slot: None },
            Kept::One(only) => only.next_by(grantor, from),
            Kept::Many(several) => several.privilege.next_by(grantor, from),
        }
    }
}
