//! The path of a need: by which grants its user got it.

ghost use Rattle.std.specs.Prelude.{◌≡◌, ◌<◌, ◌≤◌, ℕ, List, IfOk, IfSome, IsSome, Some, length, slice_get};
ghost use Rattle.model_base.specs.Paths.{path};
ghost use Rattle.model_base.specs.Privileges.{option_of};
ghost use Rattle.model_base.specs.Records.{in_force};
ghost use Rattle.model_base.specs.declared.deed.Deed.{Deed};
ghost use Rattle.grants_base.specs.Book.{ShowsBook};
ghost use Rattle.grants_base.specs.View.{entries, slot_at};
ghost use Rattle.explain.specs.Lines.{path_before, ranks_of};
ghost use Rattle.grants.specs.Loss.{narrowed};
ghost use Rattle.explain.specs.Steps.{IsFirstGiving, IsLastOfPath, giving_in, slot_or};
ghost use Rattle.explain.specs.declared.paths.Giving.{Giving};

use grants::{Book, Holder, Records};
use model_base::{Grant, Grantee, Items, Need, Place, RecordName, User};
use std::alloc::{AllocError, Global};

/// A grant that gives what is needed, and its slot.
#[derive(Clone, Copy)]
pub(crate) struct Giving {
    pub slot: usize,
    pub grant: Grant,
}

/// What the grantor of a grant needs: its kind on its table, with the option.
pub(crate) fn option_of(grant: &Grant) -> Need
    ensures { result ≡ option_of grant.now }
{
    Need {
        table: grant.table,
        kind: grant.kind,
        option: true,
    }
}

/// The grant of a slot, if it is in force and gives the user what is needed.
fn giving_in<V: Records>(view: &mut V, slot: usize, user: User, need: &Need) -> Option<Grant>
    requires within { slot < length (V.shown view.old).slots }
    ensures value { result ≡ giving_in (slot_at (V.shown view.old) slot) user need.now }
    ensures same { V.shown view.new ≡ V.shown view.old }
{
    let grant = view.grant(slot);
    let end = view.end(slot);
    match grant {
        Some(grant) if end.is_none() && grant.gives(user, need) => Some(grant),
        _ => None,
    }
}

/// The first slot, of this many, whose grant is to a grantee, is in force and gives the user what is needed. It looks once at each slot
/// that asks for a grant of this kind on this table to the grantee, up to that.
fn first_giving_to<V: Records>(
    view: &mut V,
    grantee: &Grantee,
    user: User,
    need: &Need,
    end: usize,
) -> Option<Giving>
    requires within { end ≤ length (V.shown view.old).slots }
    ensures first { IsFirstGiving (narrowed grantee.now (V.shown view.old)) user need.now end result }
    ensures same { V.shown view.new ≡ V.shown view.old }
{
    let holder = &Holder {
        grantee: *grantee,
        kind: need.kind,
        table: need.table,
    };
    let mut from = 0;
    while from < end {
        match view.next_to(*holder, from) {
            Some(slot) if slot < end => {
                if let Some(grant) = giving_in(view, slot, user, need) {
                    return Some(Giving { slot, grant });
                }
                from = slot + 1;
            }
            _ => return None,
        }
    }
    None
}

/// The slot that was found, or another.
fn slot_or(found: &Option<Giving>, other: usize) -> usize
    ensures { result ≡ slot_or other found.now }
{
    match found {
        Some(giving) => giving.slot,
        None => other,
    }
}

/// The first slot, of this many, whose grant is in force and gives the user what is needed. It looks once at each slot that asks for a
/// grant of this kind on this table to the user, up to that, and then, where no option is needed, at each below it that asks for one to
/// PUBLIC.
fn first_giving<V: Records>(view: &mut V, user: User, need: &Need, end: usize) -> Option<Giving>
    requires within { end ≤ length (V.shown view.old).slots }
    ensures first { IsFirstGiving (V.shown view.old) user need.now end result }
    ensures same { V.shown view.new ≡ V.shown view.old }
{
    let own = first_giving_to(view, &Grantee::User(user), user, need, end);
    if need.option {
        return own;
    }
    let below = slot_or(&own, end);
    match first_giving_to(view, &Grantee::Public, user, need, below) {
        Some(giving) => Some(giving),
        None => own,
    }
}

/// The last grant of the path of what a user needs, by the grants of this many slots: the first that gives it. There is none for the
/// table's owner, nor where it isn't given.
fn last_of_path<V: Records>(
    view: &mut V,
    owner: User,
    user: User,
    need: Need,
    end: usize,
) -> Option<Giving>
    requires within { end ≤ length (V.shown view.old).slots }
    ensures last { (owners : List ℕ) → slice_get owners need.table ≡ Some owner
        → IsLastOfPath (V.shown view.old) owners user need end result }
    ensures below { IfSome result (λ found. (found.slot < end) × (found.grant.table ≡ need.table)) }
    ensures same { V.shown view.new ≡ V.shown view.old }
{
    if owner == user {
        None
    } else {
        first_giving(view, user, &need, end)
    }
}

/// The records on the path of what a user needs, by the grants in force of a view.
fn path_in<V: Records>(
    alloc: Global,
    view: &mut V,
    user: User,
    need: &Need,
) -> Result<Items<RecordName>, AllocError>
    requires covered { IsSome ((V.shown view.old).owner need.now.table) }
    ensures value { IfOk result (λ names. (owners : List ℕ) → slice_get owners need.now.table ≡ (V.shown view.old).owner need.now.table
        → names ≡ ranks_of (path owners (in_force (entries (V.shown view.old))) user need.now)) }
{
    let owner = view.owner(need.table);
    let mut names = Vec::new(alloc);
    let mut end = view.slots();
    let mut holder = user;
    let mut needed = *need;
    while let Some(giving) = last_of_path(view, owner, holder, needed, end) {
        let Giving { slot, grant } = giving;
        names.push(grant.name())?;
        needed = option_of(&grant);
        holder = grant.grantor;
        end = slot;
    }
    names.reverse();
    Ok(Items::new(names))
}

/// The records on the path by which a user holds what is needed before a place: the earliest grant in force that gives it, before that the
/// earliest that gave its grantor the option, and so on, down to a grant by the table's owner. It is empty for the owner, and where the
/// need isn't held. It looks once at each grant of this kind on this table to the users on the path, and at its end to PUBLIC, up to the
/// one on the path, and at no other grant. An error means out of memory.
pub fn path_at(
    alloc: Global,
    book: &Book,
    place: Place,
    user: User,
    need: &Need,
) -> Result<Items<RecordName>, AllocError>
    requires covered { need.now.table < length book.now.tables }
    ensures { IfOk result (λ names. (owners : List ℕ) (deeds : List Deed) → ShowsBook book.now owners deeds
        → names ≡ path_before owners deeds place user need.now) }
{
    let mut view = book.at(place);
    let names = path_in(alloc, &mut view, user, need)?;
    Ok(names)
}
