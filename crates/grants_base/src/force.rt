//! What is in force of a privilege, and when it was lost last.

ghost use Rattle.std.specs.Prelude.{◌≡◌, true, IfSome, OnOk};
ghost use Rattle.grants_base.specs.Force.{HasGainedGrant, HasLostGrant, IsGranted, IsWithdrawn, force_of, held_by_one, held_by_others, later_of, no_grant_slots, privilege_of, slots_given};
ghost use Rattle.grants_base.specs.GrantorSet.{has_by};
ghost use Rattle.grants_base.specs.Index.{IsFirst, IsOnly, is_one_of};

use crate::grantor_set::{Granted, GrantorSet, lesser};
use crate::slot_set::SlotSet;
use model_base::{Place, User};
use std::alloc::{AllocError, Global};
use std::marker::Model;

/// The later of two places, of which either may be missing.
pub fn later(place: Option<Place>, other: Option<Place>) -> Option<Place>
    ensures { result ≡ later_of place other }
{
    match (place, other) {
        (Some(first), Some(second)) if first < second => other,
        (None, _) => other,
        _ => place,
    }
}

/// The next slot of a grant in force, if there is one, and the last place at which a grant of its side left force.
#[derive(Clone, Copy)]
pub struct NextInForce {
    pub slot: Option<usize>,
    pub lost: Option<Place>,
}

/// The next slot of a grant in force, if there is one.
#[derive(Clone, Copy)]
pub struct NextBy {
    pub slot: Option<usize>,
}

/// A grant in force: its slot, who made it, and whether it gives the option.
#[derive(Clone, Copy)]
pub(crate) struct Given {
    pub slot: usize,
    pub grantor: User,
    pub option: bool,
}

/// The slot of the grant, if it isn't below another, nor without the option where that is asked for.
pub(crate) fn slot_of(one: Option<Given>, option: bool, from: usize) -> Option<usize>
    ensures { IsFirst (is_one_of (slots_given option (held_by_one one))) from result }
{
    match one {
        Some(given) if from <= given.slot && (given.option || !option) => Some(given.slot),
        _ => None,
    }
}

/// The slot of the grant, if it isn't below another and the user made it.
pub(crate) fn slot_by(one: Option<Given>, grantor: User, from: usize) -> Option<usize>
    ensures { IsFirst (has_by (held_by_one one).by grantor) from result }
{
    match one {
        Some(given) if from <= given.slot && given.grantor == grantor => Some(given.slot),
        _ => None,
    }
}

/// Some grants in force of a privilege: their slots, those of grants with the option, and all under the users who made them.
#[derive(Drop)]
struct Others {
    plain: SlotSet,
    with_option: SlotSet,
    by: GrantorSet,
}

impl Model for Others {
    ghost use Rattle.grants_base.specs.Force.{GrantSlots};

    ghost Value = { GrantSlots };

    ghost view = { λ others. record { plain = others.plain; with_option = others.with_option; by = others.by } };
}

impl Others {
    /// No grants. It doesn't allocate.
    fn new(alloc: Global) -> Self
        ensures { result ≡ no_grant_slots }
    {
        Others {
            plain: SlotSet::new(alloc),
            with_option: SlotSet::new(alloc),
            by: GrantorSet::new(alloc),
        }
    }

    /// Adds the slot of a grant. On `Err`, out of memory.
    fn push(&mut self, granted: Granted, option: bool) -> Result<(), AllocError>
        ensures { OnOk result (HasGainedGrant granted option self.old self.new) }
    {
        let slot = granted.slot;
        self.by.insert(granted)?;
        self.plain.insert(slot)?;
        if option {
            self.with_option.insert(slot)?;
        }
        Ok(())
    }

    /// Removes the slot of a grant.
    fn remove(&mut self, granted: &Granted, option: bool)
        ensures { HasLostGrant granted.now option self.old self.new }
    {
        let slot = granted.slot;
        self.by.remove(granted);
        self.plain.remove(slot);
        if option {
            self.with_option.remove(slot);
        }
    }

    /// The least slot at or above this one, of grants with the option where that is asked for.
    fn next(&self, option: bool, from: usize) -> Option<usize>
        ensures { IsFirst (is_one_of (slots_given option self.now)) from result }
    {
        if option {
            self.with_option.next(from)
        } else {
            self.plain.next(from)
        }
    }

    /// The least slot at or above this one of a grant by the user.
    fn next_by(&self, grantor: User, from: usize) -> Option<usize>
        ensures { IsFirst (has_by self.now.by grantor) from result }
    {
        self.by.next(grantor, from)
    }
}

/// Takes the grant away, if it is of this slot, and returns whether all that is said of it is the same.
fn take_one(one: &mut Option<Given>, granted: &Granted, option: bool) -> bool
    ensures { result ≡ true → HasLostGrant granted.now option (held_by_one one.old) (held_by_one one.new) }
{
    match *one {
        Some(given) if given.slot == granted.slot => {
            *one = None;
            given.grantor == granted.grantor && given.option == option
        }
        _ => true,
    }
}

/// Adds the slot of a grant to the others, which take a heap block from the first on. On `Err`, out of memory.
fn push_other(
    others: &mut Option<Box<Others>>,
    alloc: Global,
    granted: Granted,
    option: bool,
) -> Result<(), AllocError>
    ensures { OnOk result (HasGainedGrant granted option (held_by_others others.old) (held_by_others others.new)) }
{
    if let Some(held) = others {
        return held.push(granted, option);
    }
    let mut first = Others::new(alloc);
    first.push(granted, option)?;
    *others = Some(Box::new(alloc, first)?);
    Ok(())
}

/// Removes the slot of a grant from the others.
fn remove_other(others: &mut Option<Box<Others>>, granted: &Granted, option: bool)
    ensures { HasLostGrant granted.now option (held_by_others others.old) (held_by_others others.new) }
{
    if let Some(held) = others {
        held.remove(granted, option);
    }
}

/// The least slot of the others at or above this one, of grants with the option where that is asked for.
fn next_other(others: &Option<Box<Others>>, option: bool, from: usize) -> Option<usize>
    ensures { IsFirst (is_one_of (slots_given option (held_by_others others.now))) from result }
{
    match others {
        Some(held) => held.next(option, from),
        None => None,
    }
}

/// The least slot of the others at or above this one of a grant by the user.
fn next_other_by(others: &Option<Box<Others>>, grantor: User, from: usize) -> Option<usize>
    ensures { IsFirst (has_by (held_by_others others.now).by grantor) from result }
{
    match others {
        Some(held) => held.next_by(grantor, from),
        None => None,
    }
}

/// What is in force of one privilege, and the last places at which one of its grants, and one with the option, left force. A single grant
/// takes no heap block.
#[derive(Drop)]
pub(crate) struct Privilege {
    one: Option<Given>,
    others: Option<Box<Others>>,
    lost: Option<Place>,
    lost_with_option: Option<Place>,
}

impl Model for Privilege {
    ghost use Rattle.grants_base.specs.Force.{Privilege, held_by_one, held_by_others, privilege_of};

    ghost Value = { Privilege };

    ghost view = { λ it. privilege_of (held_by_one it.one) (held_by_others it.others) it.lost it.lost_with_option };
}

impl Privilege {
    /// At most one grant, and these last losses. It doesn't allocate.
    pub fn of(one: Option<Given>, lost: Option<Place>, lost_with_option: Option<Place>) -> Self
        ensures { result ≡ privilege_of (held_by_one one) no_grant_slots lost lost_with_option }
    {
        Privilege {
            one,
            others: None,
            lost,
            lost_with_option,
        }
    }

    /// Adds the slot of a grant. On `Err`, out of memory.
    #[inline(always)]
    pub fn push(&mut self, alloc: Global, granted: Granted, option: bool) -> Result<(), AllocError>
        ensures { OnOk result (IsGranted granted option self.old self.new) }
    {
        if self.one.is_none() {
            self.one = Some(Given {
                slot: granted.slot,
                grantor: granted.grantor,
                option,
            });
            return Ok(());
        }
        push_other(&mut self.others, alloc, granted, option)
    }

    /// Takes away the slot of a grant that left force at a place, and returns whether what was known of the slot is the same.
    pub fn end(&mut self, granted: &Granted, place: Place, option: bool) -> bool
        ensures { result ≡ true → IsWithdrawn granted.now place option self.old self.new }
    {
        if !take_one(&mut self.one, granted, option) {
            return false;
        }
        remove_other(&mut self.others, granted, option);
        self.lost = later(self.lost, Some(place));
        if option {
            self.lost_with_option = later(self.lost_with_option, Some(place));
        }
        true
    }

    /// The next slot at or above this one, and the last loss; of grants with the option, where it is asked for.
    pub fn next(&self, option: bool, from: usize) -> NextInForce
        ensures slot { IsFirst (is_one_of (force_of option self.now).slots) from result.slot }
        ensures lost { result.lost ≡ (force_of option self.now).lost }
    {
        let slot = lesser(
            slot_of(self.one, option, from),
            next_other(&self.others, option, from),
        );
        let lost = if option {
            self.lost_with_option
        } else {
            self.lost
        };
        NextInForce { slot, lost }
    }

    /// The slot of the only grant, where it is known that there is one at most.
    pub fn only(&self) -> Option<usize>
        ensures { IfSome result (IsOnly (is_one_of self.now.plain.slots)) }
    {
        match (self.one, &self.others) {
            (Some(given), None) => Some(given.slot),
            _ => None,
        }
    }

    /// The next slot at or above this one of a grant by the user.
    pub fn next_by(&self, grantor: User, from: usize) -> NextBy
        ensures { IsFirst (has_by self.now.by grantor) from result.slot }
    {
        NextBy {
            slot: lesser(
                slot_by(self.one, grantor, from),
                next_other_by(&self.others, grantor, from),
            ),
        }
    }
}
