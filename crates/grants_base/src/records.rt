//! Views of the records of grants at a place.

ghost use Rattle.std.specs.Prelude.{◌≡◌, ◌<◌, List, Some, IfSome, IsSome, false, is_some, length};
ghost use Rattle.model_base.specs.declared.deed.Grant.{Grant};
ghost use Rattle.grants_base.specs.Force.{gives_by, gives_to, is_in_force};
ghost use Rattle.grants_base.specs.InForce.{ShowsNextInForce, ShowsNextSlot};
ghost use Rattle.grants_base.specs.Index.{AreAsked, IsNext, IsOnly, is_about, is_by, is_to};
ghost use Rattle.grants_base.specs.View.{View, IsLawful, end_in, grant_in, slot_at};

use crate::force::{NextBy, NextInForce};
use model_base::{Grant, Grantee, Kind, Place, Table, User};

/// A grantee, with a kind on a table.
#[derive(Clone, Copy)]
pub struct Holder {
    pub grantee: Grantee,
    pub kind: Kind,
    pub table: Table,
}

/// The records of grants as they are at a place: those of the grants below it, on the tables that the view covers, each with its end if
/// that lies below. A slot has one record or none. A reader of words that others fill makes steps when it reads, and so a read may change
/// the view; what it shows stays. `asked` has one grant for each slot, whether it was made or not: that which the slot shows if it shows
/// one.
pub trait Records {
    ghost shown: { Self → View };

    ghost asked: { Self → List Grant };

    /// The place of the view.
    fn at(&self) -> Place
        ensures value { result ≡ (shown self.now).place }
        ensures lawful { IsLawful (shown self.now) };

    /// Whether the view covers the grants on this table.
    fn covers(&self, table: Table) -> bool
        ensures { result ≡ is_some ((shown self.now).owner table) };

    /// The user who created the table.
    fn owner(&self, table: Table) -> User
        requires covered { IsSome ((shown self.now).owner table) }
        ensures { (shown self.now).owner table ≡ Some result };

    /// How many slots there are.
    fn slots(&self) -> usize
        ensures { result ≡ length (shown self.now).slots };

    /// The grant in a slot, if there is one.
    fn grant(&mut self, i: usize) -> Option<Grant>
        requires within { i < length (shown self.old).slots }
        ensures value { result ≡ grant_in (slot_at (shown self.old) i) }
        ensures same { shown self.new ≡ shown self.old }
        ensures still { asked self.new ≡ asked self.old };

    /// The end of the grant in a slot, if it has one.
    fn end(&mut self, i: usize) -> Option<Place>
        requires within { i < length (shown self.old).slots }
        ensures value { result ≡ end_in (slot_at (shown self.old) i) }
        ensures same { shown self.new ≡ shown self.old }
        ensures still { asked self.new ≡ asked self.old };

    /// The least slot at or above this one whose grant, made or not, is to the holder's grantee, a user or PUBLIC, of its kind on its
    /// table, in force or not. It doesn't allocate.
    fn next_to(&mut self, holder: Holder, from: usize) -> Option<usize>
        ensures next { IsNext (is_to holder.grantee holder.kind holder.table) (asked self.old) from result }
        ensures asked { AreAsked (shown self.old) (asked self.old) }
        ensures same { shown self.new ≡ shown self.old }
        ensures still { asked self.new ≡ asked self.old };

    /// The least slot at or above this one whose grant, made or not, is by this user, of this kind on this table, in force or not. It
    /// doesn't allocate.
    fn next_by(&mut self, user: User, kind: Kind, table: Table, from: usize) -> Option<usize>
        ensures next { IsNext (is_by user kind table) (asked self.old) from result }
        ensures asked { AreAsked (shown self.old) (asked self.old) }
        ensures same { shown self.new ≡ shown self.old }
        ensures still { asked self.new ≡ asked self.old };

    /// The least slot at or above this one of a grant in force to the holder's grantee, of its kind on its table, and the last end of such
    /// a grant; of grants with the option, where it is asked for. None where that isn't known unless one goes through the slots. It
    /// doesn't allocate.
    fn next_in_force(&mut self, holder: Holder, option: bool, from: usize) -> Option<NextInForce>
        ensures next { IfSome result (λ next.
            ShowsNextInForce (gives_to holder.grantee holder.kind holder.table option) (shown self.old) from next) }
        ensures same { shown self.new ≡ shown self.old }
        ensures still { asked self.new ≡ asked self.old }
    {
        let _asked = (holder, option, from);
        None
    }

    /// What `next_in_force` finds from the first slot on, if the view keeps it. None where it has to be sought. It doesn't allocate.
    fn kept_in_force(&mut self, holder: Holder, option: bool) -> Option<NextInForce>
        ensures next { IfSome result (λ next.
            ShowsNextInForce (gives_to holder.grantee holder.kind holder.table option) (shown self.old) 0 next) }
        ensures same { shown self.new ≡ shown self.old }
        ensures still { asked self.new ≡ asked self.old }
    {
        let _asked = (holder, option);
        None
    }

    /// The slot that `next_in_force` finds, without the last end. None where that isn't known unless one goes through the slots. It doesn't
    /// allocate.
    fn next_slot_in_force(&mut self, holder: Holder, option: bool, from: usize) -> Option<NextBy>
        ensures next { IfSome result (λ next.
            ShowsNextSlot (gives_to holder.grantee holder.kind holder.table option) (shown self.old) from next) }
        ensures same { shown self.new ≡ shown self.old }
        ensures still { asked self.new ≡ asked self.old }
    {
        match self.next_in_force(holder, option, from) {
            Some(next) => Some(NextBy { slot: next.slot }),
            None => None,
        }
    }

    /// A slot such that no other has a grant in force to the holder's grantee, of its kind on its table. None where that isn't known, or
    /// where several may have one. It doesn't allocate.
    fn only_in_force(&mut self, holder: Holder) -> Option<usize>
        ensures only { IfSome result (λ only. IsOnly (λ k.
            is_in_force (gives_to holder.grantee holder.kind holder.table false) (slot_at (shown self.old) k)) only) }
        ensures same { shown self.new ≡ shown self.old }
        ensures still { asked self.new ≡ asked self.old }
    {
        let _asked = holder;
        None
    }

    /// The least slot at or above this one of a grant in force by this user to the holder's grantee, of its kind on its table. None where
    /// that isn't known unless one goes through the slots. It doesn't allocate.
    fn next_in_force_by(&mut self, user: User, holder: Holder, from: usize) -> Option<NextBy>
        ensures next { IfSome result (λ next.
            ShowsNextSlot (gives_by user holder.grantee holder.kind holder.table) (shown self.old) from next) }
        ensures same { shown self.new ≡ shown self.old }
        ensures still { asked self.new ≡ asked self.old }
    {
        let _asked = (user, holder, from);
        None
    }
}

/// Whether the grant is of this kind on this table.
fn is_about(grant: &Grant, kind: Kind, table: Table) -> bool
    ensures { result ≡ is_about kind table grant.now }
{
    kind == grant.kind && table == grant.table
}

/// Whether the grant is to the holder's grantee, of its kind on its table.
pub fn is_to(grant: &Grant, holder: Holder) -> bool
    ensures { result ≡ is_to holder.grantee holder.kind holder.table grant.now }
{
    grant.grantee.is_same(holder.grantee) && is_about(grant, holder.kind, holder.table)
}

/// Whether the grant is by this user, of this kind on this table.
pub fn is_by(grant: &Grant, user: User, kind: Kind, table: Table) -> bool
    ensures { result ≡ is_by user kind table grant.now }
{
    grant.grantor == user && is_about(grant, kind, table)
}
