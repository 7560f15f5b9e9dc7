//! What a revocation takes with it.

ghost use Rattle.std.specs.Prelude.{◌⊎◌, ◌&&◌, ◌==◌, not, false, ◌≡◌, ◌<◌, ◌≤◌, ◌+◌, ℕ, List, Some, IfOk, IsSome, OnOk, length, true, is_some};
ghost use Rattle.std.specs.Option.{option_map_or};
ghost use Rattle.model_base.specs.Privileges.{concerns, ended_by, names};
ghost use Rattle.model_base.specs.declared.deed.Deed.{Deed};
ghost use Rattle.model_base.specs.declared.deed.Grant.{Grant};
ghost use Rattle.grants.specs.Pass.{concerned, keeps, outlasts};
ghost use Rattle.grants_base.specs.Index.{is_one_of};
ghost use Rattle.grants.specs.Work.{AllPassed, AreDue, AreDueOrBorne, AreEnds, ArePassed, IsNextCandidate, IsNextNamed, IsOnlyBearer, IsOnlySlot, bears, ended_in_all, slots_of, staying};
ghost use Rattle.grants_base.specs.View.{ShowsDeeds, slot_at};

use crate::ended::Ended;
use crate::lost_options::{KindHolder, LostOptions};
use grants_base::{Holder, Records, SlotSet};
use model_base::{Grant, Grantee, Kind, RecordName, Revocation, User};
use std::alloc::{AllocError, Global};

/// The grant of the slot, if it is in force and the revocation speaks of its kind and table.
fn concerned<V: Records>(view: &mut V, i: usize, revocation: &Revocation) -> Option<Grant>
    requires within { i < length (V.shown view.old).slots }
    ensures value { result ≡ concerned (slot_at (V.shown view.old) i) revocation.now }
    ensures same { V.shown view.new ≡ V.shown view.old }
{
    if view.end(i).is_some() {
        return None;
    }
    match view.grant(i) {
        Some(grant) if revocation.concerns(&grant) => Some(grant),
        _ => None,
    }
}

/// Whether the slot has a grant in force, which the revocation speaks of, that gives the holder the option of its kind.
fn bears<V: Records>(view: &mut V, i: usize, revocation: &Revocation, holder: &KindHolder) -> bool
    requires within { i < length (V.shown view.old).slots }
    ensures value { result ≡ bears revocation.now holder.now.user holder.now.kind (slot_at (V.shown view.old) i) }
    ensures same { V.shown view.new ≡ V.shown view.old }
{
    match concerned(view, i, revocation) {
        Some(grant) => holder.kind == grant.kind && grant.lends_to(holder.user),
        None => false,
    }
}

/// Whether the slot has such a grant and hasn't ended.
fn stands<V: Records>(
    view: &mut V,
    i: usize,
    revocation: &Revocation,
    ended: &Ended,
    holder: &KindHolder,
) -> bool
    requires within { i < length (V.shown view.old).slots }
    ensures value { result ≡ (bears revocation.now holder.now.user holder.now.kind (slot_at (V.shown view.old) i)
        && not (is_one_of (slots_of ended.now.ends) i)) }
    ensures same { V.shown view.new ≡ V.shown view.old }
{
    !ended.contains(i) && bears(view, i, revocation, holder)
}

/// A slot at or above another such that no slot from that one on and before it has a grant in force, of the kind on the revocation's
/// table, to the grantee and with the option. None where no later slot has. It goes through the slots only where the view doesn't
/// know which grants are in force.
fn next_candidate<V: Records>(
    view: &mut V,
    revocation: &Revocation,
    grantee: &Grantee,
    kind: Kind,
    from: usize,
) -> Option<usize>
    ensures next { IsNextCandidate revocation.now grantee.now kind true (V.shown view.old) from result }
    ensures same { V.shown view.new ≡ V.shown view.old }
{
    let holder = &Holder {
        grantee: *grantee,
        kind,
        table: revocation.table,
    };
    match view.next_slot_in_force(*holder, true, from) {
        Some(next) => next.slot,
        None => view.next_to(*holder, from),
    }
}

/// A slot at or above another such that no slot from that one on and before it has a grant in force to the grantee, of the kind, that the
/// revocation names. None where no later slot has. It goes through the slots only where the view doesn't know which grants are in force.
fn next_named<V: Records>(
    view: &mut V,
    revocation: &Revocation,
    grantee: &Grantee,
    kind: Kind,
    from: usize,
) -> Option<usize>
    ensures next { IsNextNamed revocation.now grantee.now kind (V.shown view.old) from result }
    ensures same { V.shown view.new ≡ V.shown view.old }
{
    let holder = &Holder {
        grantee: *grantee,
        kind,
        table: revocation.table,
    };
    match view.next_in_force_by(revocation.grantor, *holder, from) {
        Some(next) => next.slot,
        None => view.next_to(*holder, from),
    }
}

/// The first slot below another that gives the holder the option of its kind and hasn't ended, where none below `start` does. It is not
/// below the other where there is none.
fn next_bearer<V: Records>(
    view: &mut V,
    revocation: &Revocation,
    ended: &Ended,
    holder: &KindHolder,
    start: usize,
    below: usize,
) -> usize
    requires within { below ≤ length (V.shown view.old).slots }
    requires passed { ArePassed revocation.now (V.shown view.old) (slots_of ended.now.ends) holder.now.user holder.now.kind start }
    ensures passed { ArePassed revocation.now (V.shown view.old) (slots_of ended.now.ends) holder.now.user holder.now.kind result }
    ensures found { result < below → (bears revocation.now holder.now.user holder.now.kind (slot_at (V.shown view.old) result)
        && not (is_one_of (slots_of ended.now.ends) result)) ≡ true }
    ensures same { V.shown view.new ≡ V.shown view.old }
{
    let grantee = Grantee::User(holder.user);
    let mut from = start;
    while from < below {
        match next_candidate(view, revocation, &grantee, holder.kind, from) {
            Some(i) if i < below => {
                if stands(view, i, revocation, ended, holder) {
                    return i;
                }
                from = i + 1;
            }
            _ => return below,
        }
    }
    from
}

/// The same where no slot but one has a grant of the kind in force to the holder.
fn only_bearer<V: Records>(
    view: &mut V,
    revocation: &Revocation,
    ended: &Ended,
    holder: &KindHolder,
    slot: usize,
    below: usize,
) -> usize
    requires within { below ≤ length (V.shown view.old).slots }
    requires only { IsOnlyBearer revocation.now holder.now.user holder.now.kind (V.shown view.old) slot }
    ensures passed { ArePassed revocation.now (V.shown view.old) (slots_of ended.now.ends) holder.now.user holder.now.kind result }
    ensures found { result < below → (bears revocation.now holder.now.user holder.now.kind (slot_at (V.shown view.old) result)
        && not (is_one_of (slots_of ended.now.ends) result)) ≡ true }
    ensures same { V.shown view.new ≡ V.shown view.old }
{
    if slot < below && stands(view, slot, revocation, ended, holder) {
        slot
    } else {
        below
    }
}

/// The same as `next_bearer`. It looks once where the view knows the only slot with such a grant in force.
#[inline(always)]
fn first_bearer<V: Records>(
    view: &mut V,
    revocation: &Revocation,
    ended: &Ended,
    holder: &KindHolder,
    start: usize,
    below: usize,
) -> usize
    requires within { below ≤ length (V.shown view.old).slots }
    requires passed { ArePassed revocation.now (V.shown view.old) (slots_of ended.now.ends) holder.now.user holder.now.kind start }
    ensures passed { ArePassed revocation.now (V.shown view.old) (slots_of ended.now.ends) holder.now.user holder.now.kind result }
    ensures found { result < below → (bears revocation.now holder.now.user holder.now.kind (slot_at (V.shown view.old) result)
        && not (is_one_of (slots_of ended.now.ends) result)) ≡ true }
    ensures same { V.shown view.new ≡ V.shown view.old }
{
    let only = view.only_in_force(Holder {
        grantee: Grantee::User(holder.user),
        kind: holder.kind,
        table: revocation.table,
    });
    match only {
        Some(slot) => only_bearer(view, revocation, ended, holder, slot, below),
        None => next_bearer(view, revocation, ended, holder, start, below),
    }
}

/// Whether the holder keeps the option of its kind by a slot below this one that hasn't ended. For one who lost it, it goes on where
/// that one's loss was looked at last.
fn keeps<V: Records>(
    view: &mut V,
    revocation: &Revocation,
    ended: &Ended,
    lost: &LostOptions,
    holder: &KindHolder,
    below: usize,
) -> bool
    requires within { below ≤ length (V.shown view.old).slots }
    requires passed { AllPassed revocation.now (V.shown view.old) (slots_of ended.now.ends) lost.now }
    ensures value { result ≡ keeps (staying revocation.now (V.shown view.old) (slots_of ended.now.ends) below)
        holder.now.user holder.now.kind }
    ensures same { V.shown view.new ≡ V.shown view.old }
{
    let start = lost.passed_by(holder);
    if below <= start {
        return false;
    }
    let first = first_bearer(view, revocation, ended, holder, start, below);
    first < below
}

/// A grant that is to be judged, with its slot.
#[derive(Clone, Copy)]
struct DueGrant {
    slot: usize,
    grant: Grant,
}

/// Whether the grant outlasts the revocation, of which these slots below its own have ended.
#[tactic(auto, unfolding(crate::specs::Pass::outlasts))]
fn stays<V: Records>(
    view: &mut V,
    owner: User,
    revocation: &Revocation,
    ended: &Ended,
    lost: &LostOptions,
    due: &DueGrant,
) -> bool
    requires within { due.now.slot ≤ length (V.shown view.old).slots }
    requires passed { AllPassed revocation.now (V.shown view.old) (slots_of ended.now.ends) lost.now }
    ensures value { result ≡ outlasts owner
        (staying revocation.now (V.shown view.old) (slots_of ended.now.ends) due.now.slot) revocation.now due.now.grant }
    ensures same { V.shown view.new ≡ V.shown view.old }
{
    let grant = &due.grant;
    if revocation.names(grant) {
        return false;
    }
    let grantor = KindHolder {
        user: grant.grantor,
        kind: grant.kind,
    };
    owner == grant.grantor || keeps(view, revocation, ended, lost, &grantor, due.slot)
}

/// Whether the slot has a grant in force that the revocation names.
fn is_named<V: Records>(view: &mut V, i: usize, revocation: &Revocation) -> bool
    requires within { i < length (V.shown view.old).slots }
    ensures value { result ≡ option_map_or (names revocation.now) (concerned (slot_at (V.shown view.old) i) revocation.now) false }
    ensures same { V.shown view.new ≡ V.shown view.old }
{
    match concerned(view, i, revocation) {
        Some(grant) => revocation.names(&grant),
        None => false,
    }
}

/// Adds the slots whose grants are to the grantee, of the kind, and the revocation names.
fn add_each_named<V: Records>(
    view: &mut V,
    revocation: &Revocation,
    grantee: &Grantee,
    kind: Kind,
    due: &mut SlotSet,
) -> Result<(), AllocError>
    ensures found { OnOk result ((j : ℕ) (grant : Grant) → concerned (slot_at (V.shown view.old) j) revocation.now ≡ Some grant
        → grant.grantee ≡ grantee.now → grant.kind ≡ kind → names revocation.now grant ≡ true → is_one_of due.new j ≡ true) }
    ensures kept { OnOk result ((j : ℕ) → is_one_of due.old j ≡ true → is_one_of due.new j ≡ true) }
    ensures within { OnOk result ((j : ℕ) → is_one_of due.new j ≡ true
        → (is_one_of due.old j ≡ true) ⊎ (j < length (V.shown view.old).slots)) }
    ensures same { V.shown view.new ≡ V.shown view.old }
{
    let end = view.slots();
    let mut from = 0;
    while from < end {
        match next_named(view, revocation, grantee, kind, from) {
            Some(i) => {
                if is_named(view, i, revocation) {
                    due.insert(i)?;
                }
                from = i + 1;
            }
            None => return Ok(()),
        }
    }
    Ok(())
}

/// The same where no slot but one has a grant of the kind in force to the grantee.
fn add_only_named<V: Records>(
    view: &mut V,
    revocation: &Revocation,
    grantee: &Grantee,
    kind: Kind,
    slot: usize,
    due: &mut SlotSet,
) -> Result<(), AllocError>
    requires only { IsOnlySlot revocation.now grantee.now kind (V.shown view.old) slot }
    ensures found { OnOk result ((j : ℕ) (grant : Grant) → concerned (slot_at (V.shown view.old) j) revocation.now ≡ Some grant
        → grant.grantee ≡ grantee.now → grant.kind ≡ kind → names revocation.now grant ≡ true → is_one_of due.new j ≡ true) }
    ensures kept { OnOk result ((j : ℕ) → is_one_of due.old j ≡ true → is_one_of due.new j ≡ true) }
    ensures within { OnOk result ((j : ℕ) → is_one_of due.new j ≡ true
        → (is_one_of due.old j ≡ true) ⊎ (j < length (V.shown view.old).slots)) }
    ensures same { V.shown view.new ≡ V.shown view.old }
{
    if slot < view.slots() && is_named(view, slot, revocation) {
        due.insert(slot)?;
    }
    Ok(())
}

/// The same as `add_each_named`. It looks once where the view knows the only slot with such a grant in force.
#[inline(always)]
fn add_named<V: Records>(
    view: &mut V,
    revocation: &Revocation,
    grantee: &Grantee,
    kind: Kind,
    due: &mut SlotSet,
) -> Result<(), AllocError>
    ensures found { OnOk result ((j : ℕ) (grant : Grant) → concerned (slot_at (V.shown view.old) j) revocation.now ≡ Some grant
        → grant.grantee ≡ grantee.now → grant.kind ≡ kind → names revocation.now grant ≡ true → is_one_of due.new j ≡ true) }
    ensures kept { OnOk result ((j : ℕ) → is_one_of due.old j ≡ true → is_one_of due.new j ≡ true) }
    ensures within { OnOk result ((j : ℕ) → is_one_of due.new j ≡ true
        → (is_one_of due.old j ≡ true) ⊎ (j < length (V.shown view.old).slots)) }
    ensures same { V.shown view.new ≡ V.shown view.old }
{
    if !revocation.kinds.contains(kind) {
        return Ok(());
    }
    let only = view.only_in_force(Holder {
        grantee: *grantee,
        kind,
        table: revocation.table,
    });
    match only {
        Some(slot) => add_only_named(view, revocation, grantee, kind, slot, due),
        None => add_each_named(view, revocation, grantee, kind, due),
    }
}

/// Adds the slots whose grants are to the grantee and the revocation names.
fn add_named_to<V: Records>(
    view: &mut V,
    revocation: &Revocation,
    grantee: &Grantee,
    due: &mut SlotSet,
) -> Result<(), AllocError>
    ensures found { OnOk result ((j : ℕ) (grant : Grant) → concerned (slot_at (V.shown view.old) j) revocation.now ≡ Some grant
        → grant.grantee ≡ grantee.now → names revocation.now grant ≡ true → is_one_of due.new j ≡ true) }
    ensures kept { OnOk result ((j : ℕ) → is_one_of due.old j ≡ true → is_one_of due.new j ≡ true) }
    ensures within { OnOk result ((j : ℕ) → is_one_of due.new j ≡ true
        → (is_one_of due.old j ≡ true) ⊎ (j < length (V.shown view.old).slots)) }
    ensures same { V.shown view.new ≡ V.shown view.old }
{
    add_named(view, revocation, grantee, Kind::Read, due)?;
    add_named(view, revocation, grantee, Kind::Insert, due)?;
    add_named(view, revocation, grantee, Kind::Update, due)?;
    add_named(view, revocation, grantee, Kind::Delete, due)?;
    Ok(())
}

/// The slots whose grants the revocation names.
fn named<V: Records>(
    alloc: Global,
    view: &mut V,
    revocation: &Revocation,
) -> Result<SlotSet, AllocError>
    ensures found { IfOk result (λ due. (j : ℕ) (grant : Grant) → concerned (slot_at (V.shown view.old) j) revocation.now ≡ Some grant
        → names revocation.now grant ≡ true → is_one_of due j ≡ true) }
    ensures within { IfOk result (λ due. (j : ℕ) → is_one_of due j ≡ true → j < length (V.shown view.old).slots) }
    ensures same { V.shown view.new ≡ V.shown view.old }
{
    let mut due = SlotSet::new(alloc);
    for index in 0..revocation.grantees.len() {
        let grantee = revocation.grantees.at(index);
        add_named_to(view, revocation, &grantee, &mut due)?;
    }
    Ok(due)
}

/// Adds the slots from one on to the last one whose grants are by the holder, of its kind on the revocation's table.
fn add_grants_by<V: Records>(
    view: &mut V,
    revocation: &Revocation,
    holder: &KindHolder,
    start: usize,
    last: usize,
    due: &mut SlotSet,
) -> Result<(), AllocError>
    ensures found { OnOk result ((j : ℕ) (grant : Grant) → start ≤ j → j ≤ last
        → concerned (slot_at (V.shown view.old) j) revocation.now ≡ Some grant
        → grant.grantor ≡ holder.now.user → grant.kind ≡ holder.now.kind → is_one_of due.new j ≡ true) }
    ensures kept { OnOk result ((j : ℕ) → is_one_of due.old j ≡ true → is_one_of due.new j ≡ true) }
    ensures within { OnOk result ((j : ℕ) → is_one_of due.new j ≡ true
        → (is_one_of due.old j ≡ true) ⊎ ((start ≤ j) × (j < length (V.shown view.old).slots))) }
    ensures same { V.shown view.new ≡ V.shown view.old }
{
    if last < start {
        return Ok(());
    }
    let end = view.slots();
    let mut from = start;
    while from < end {
        match view.next_by(holder.user, holder.kind, revocation.table, from) {
            Some(i) if i <= last => {
                due.insert(i)?;
                from = i + 1;
            }
            _ => return Ok(()),
        }
    }
    Ok(())
}

/// The slots that are still to be judged, the options that users lost, and the slots that have ended.
#[derive(Drop)]
struct CascadeWork {
    due: SlotSet,
    lost: LostOptions,
    ended: Ended,
}

/// The holder lost the option of its kind: the slots from this one on whose grants are by it, of its kind on the revocation's table, are
/// due, up to the first slot that still gives it the option. What lies above that one isn't looked at: it stays, unless that one ends too.
fn lose<V: Records>(
    view: &mut V,
    revocation: &Revocation,
    holder: &KindHolder,
    start: usize,
    work: &mut CascadeWork,
) -> Result<(), AllocError>
    requires { AllPassed revocation.now (V.shown view.old) (slots_of work.old.ended.ends) work.old.lost }
    ensures found { OnOk result (AreDueOrBorne revocation.now (V.shown view.old) work.new.due (slots_of work.old.ended.ends)
        holder.now.user holder.now.kind start) }
    ensures kept { OnOk result ((j : ℕ) → is_one_of work.old.due j ≡ true → is_one_of work.new.due j ≡ true) }
    ensures within { OnOk result ((j : ℕ) → is_one_of work.new.due j ≡ true
        → (is_one_of work.old.due j ≡ true) ⊎ ((start ≤ j) × (j < length (V.shown view.old).slots))) }
    ensures passed { OnOk result (AllPassed revocation.now (V.shown view.old) (slots_of work.old.ended.ends) work.new.lost) }
    ensures ended { work.new.ended ≡ work.old.ended }
    ensures same { V.shown view.new ≡ V.shown view.old }
{
    let end = view.slots();
    let passed = work.lost.passed_by(holder);
    let first = first_bearer(view, revocation, &work.ended, holder, passed, end);
    work.lost.put(holder, first)?;
    add_grants_by(view, revocation, holder, start, first, &mut work.due)?;
    Ok(())
}

/// One slot that is due: either its grant ends, or its grantee keeps what it gives. With a grant that ends, the later
/// grants of the user to whom it gave the option are due, up to the first slot that still gives it.
fn judge<V: Records>(
    view: &mut V,
    owner: User,
    revocation: &Revocation,
    slot: usize,
    next: usize,
    work: &mut CascadeWork,
) -> Result<(), AllocError>
    requires within { slot < length (V.shown view.old).slots }
    requires next { next ≡ slot + 1 }
    requires due { AreDue revocation.now (V.shown view.old) work.old.due (slots_of work.old.ended.ends) next }
    requires passed { AllPassed revocation.now (V.shown view.old) (slots_of work.old.ended.ends) work.old.lost }
    requires behind { (e : ℕ) → is_one_of (slots_of work.old.ended.ends) e ≡ true → e < slot }
    requires ends { AreEnds revocation.now (V.shown view.old) work.old.ended.ends work.old.ended.ranks }
    ensures due { OnOk result (AreDue revocation.now (V.shown view.old) work.new.due (slots_of work.new.ended.ends) next) }
    ensures passed { OnOk result (AllPassed revocation.now (V.shown view.old) (slots_of work.new.ended.ends) work.new.lost) }
    ensures whole { OnOk result (ended_in_all owner revocation.now (V.shown view.old) work.new.ended next
        ≡ ended_in_all owner revocation.now (V.shown view.old) work.old.ended slot) }
    ensures ends { OnOk result (AreEnds revocation.now (V.shown view.old) work.new.ended.ends work.new.ended.ranks) }
    ensures same { V.shown view.new ≡ V.shown view.old }
{
    let Some(grant) = concerned(view, slot, revocation) else {
        return Ok(());
    };
    let due = DueGrant { slot, grant };
    if stays(view, owner, revocation, &work.ended, &work.lost, &due) {
        return Ok(());
    }
    work.ended.push(slot, revocation.place, due.grant.name())?;
    if let Some(user) = due.grant.option_holder() {
        let kind = due.grant.kind;
        lose(view, revocation, &KindHolder { user, kind }, next, work)?;
    }
    Ok(())
}

/// What the revocation takes out of force: the ends of these grants, and the names of their records, in order.
pub(crate) fn cascade<V: Records>(
    alloc: Global,
    view: &mut V,
    revocation: &Revocation,
) -> Result<Ended, AllocError>
    requires covered { IsSome ((V.shown view.old).owner revocation.now.table) }
    requires now { revocation.now.place ≡ (V.shown view.old).place }
    ensures ended { IfOk result (λ ended. (owners : List ℕ) (deeds : List Deed) → ShowsDeeds (V.shown view.old) owners deeds
        → ended.ranks ≡ ended_by owners deeds revocation.now) }
    ensures ends { IfOk result (λ ended. AreEnds revocation.now (V.shown view.old) ended.ends ended.ranks) }
    ensures same { V.shown view.new ≡ V.shown view.old }
{
    let owner = view.owner(revocation.table);
    // That there are this many slots bounds the next one.
    let _slots = view.slots();
    let due = named(alloc, view, revocation)?;
    let mut work = CascadeWork {
        due,
        lost: LostOptions::new(alloc),
        ended: Ended::with_room(alloc)?,
    };
    let mut next = 0;
    while let Some(slot) = work.due.pop_first() {
        next = slot + 1;
        judge(view, owner, revocation, slot, next, &mut work)?;
    }
    Ok(work.ended)
}

/// The names of the records of the grants that the revocation takes out of force, in order: of those that the deeds of the view's place
/// give, and without the revoked grants no longer do. It is the recursive revocation of Griffiths and Wade: a grant in force
/// of one of its kinds on its table ends if the revocation names it, or if its grantor isn't the owner and has the option of its kind
/// by no earlier grant that stays. So a cycle of grants doesn't bear itself, and a grant that an earlier way bears stays. Of each of
/// its kinds on its table it goes through the grants by the revocation's grantor to each of its grantees, where the view knows which are in
/// force, and else through all to that grantee. For each user whose option ends it goes through the grants that gave it, each once,
/// and through those by the user up to the first that still gives it. The slots to be judged are kept in a set, in a time that grows
/// with the logarithm of their number. Besides that it takes memory for its answer. On `Err`, out of memory. What the view shows stays
/// in any case.
pub fn to_end<V: Records>(
    alloc: Global,
    view: &mut V,
    revocation: &Revocation,
) -> Result<Vec<RecordName>, AllocError>
    requires covered { IsSome ((V.shown view.old).owner revocation.now.table) }
    requires now { revocation.now.place ≡ (V.shown view.old).place }
    ensures ended { IfOk result (λ ends. (owners : List ℕ) (deeds : List Deed) → ShowsDeeds (V.shown view.old) owners deeds
        → ends.items ≡ ended_by owners deeds revocation.now) }
    ensures same { V.shown view.new ≡ V.shown view.old }
{
    let ended = cascade(alloc, view, revocation)?;
    Ok(ended.into_names())
}
