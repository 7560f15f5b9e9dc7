//! Which slots the revocations of a batch may reach.

ghost use Rattle.std.specs.Prelude.{◌≡◌, ◌<◌, ◌≤◌, ◌+◌, ◌++◌, ◌∷◌, ◌||◌, ◌&&◌, ◌==◌, [], ℕ, suc, not, true, IfOk, IfSome, OnOk, length, slice_get, Some};
ghost use Rattle.model_base.specs.declared.deed.Grant.{Grant};
ghost use Rattle.grants_base.specs.Force.{gives_by, is_in_force};
ghost use Rattle.grants_base.specs.Index.{IsFirst, IsNext, is_by};
ghost use Rattle.model_base.specs.DeedsLeft.{revocation_of};
ghost use Rattle.model_base.specs.Privileges.{option_holder};
ghost use Rattle.bohm_core_base.specs.Batch.{batch_slots};
ghost use Rattle.log_batch.specs.Earlier.{earlier_count, earlier_grants, records_before};
ghost use Rattle.log_batch.specs.Supplied.{batch_of};
ghost use Rattle.log_batch.specs.Holders.{grantor_of, has_holder, new_holder};
ghost use Rattle.log_batch.specs.Listing.{is_open, is_reached, is_revoked, lends};
ghost use Rattle.log_batch.specs.Reach.{Adds, AddsGrantees, AddsKind, AreSeeds, IsDue, IsNextOpen, IsReach, has_party};
ghost use Rattle.log_batch.specs.Revoked.{is_named_by};
ghost use Rattle.grants_base.specs.Index.{is_one_of};

use crate::batch::LogBatch;
use crate::holders::{Holders, holder_of};
use crate::revoked::Revoked;
use grants::{Holder, NextBy};
use model_base::{Grant, Grantee, Kind, Revocation, Table, User};
use std::alloc::{AllocError, Global};
use std::collections::BTreeSet;

/// Whose grants are looked for: those by a user to a holder, or all by a user of a kind on a table.
#[derive(Clone, Copy)]
enum Party {
    Between(User, Holder),
    By(User, Kind, Table),
}

/// The slots that are found, to whom they give an option, and what the revocations of the batch name.
#[derive(Drop)]
pub(crate) struct Reach {
    slots: Vec<usize>,
    lent: Holders,
    revoked: Revoked,
}

/// The least slot at or above this one whose grant was made before the batch, by the user to the holder, in force or not. It goes through
/// those of others to the holder up to it.
fn next_between(batch: &LogBatch<'_>, user: User, holder: &Holder, start: usize) -> Option<usize>
    ensures { IsNext (gives_by user holder.now.grantee holder.now.kind holder.now.table)
        (earlier_grants (batch_of batch.now)) start result }
{
    let _count = batch.earlier_count();
    let mut from = start;
    while let Some(slot) = batch.earlier_to(holder, from) {
        if batch.grant(slot).grantor == user {
            return Some(slot);
        }
        from = slot + 1;
    }
    None
}

/// The least slot at or above this one whose grant was made before the batch and is one of this party, in force or not.
fn next_made(batch: &LogBatch<'_>, party: &Party, from: usize) -> Option<usize>
    ensures { IsNext (has_party party.now) (earlier_grants (batch_of batch.now)) from result }
{
    match party {
        Party::Between(user, holder) => next_between(batch, *user, holder, from),
        Party::By(user, kind, table) => batch.earlier_by(*user, *kind, *table, from),
    }
}

/// The least slot at or above this one of a grant in force before the batch of this party. None where that isn't known, as of all by
/// a user.
fn next_in_force(batch: &LogBatch<'_>, party: &Party, from: usize) -> Option<NextBy>
    ensures { IfSome result (λ next.
        IsFirst (λ k. is_in_force (has_party party.now) (slice_get (records_before (batch_of batch.now)) k)) from next.slot) }
{
    match party {
        Party::Between(user, holder) => batch.earlier_in_force_by(*user, *holder, from),
        Party::By(_, _, _) => None,
    }
}

/// A slot at or above this one of a grant of this party such that none from this one on and before it is in force before the batch;
/// none where there is no later one. It goes through those that aren't in force only where all by a user are looked for, or the book
/// doesn't know which are.
fn next_of(batch: &LogBatch<'_>, party: &Party, from: usize) -> Option<usize>
    ensures { IsNextOpen (batch_of batch.now) (has_party party.now) from result }
{
    let _log = batch.log();
    match next_in_force(batch, party, from) {
        Some(next) => next.slot,
        None => next_made(batch, party, from),
    }
}

/// The slot is due, if its record has no end before the batch.
fn add_slot(batch: &LogBatch<'_>, slot: usize, due: &mut BTreeSet<usize>) -> Result<(), AllocError>
    requires { slot < length (batch_slots (batch_of batch.now)) }
    ensures { OnOk result ((j : ℕ) → is_one_of due.new.keys j
        ≡ ((is_open (batch_of batch.now) slot && (slot == j)) || is_one_of due.old.keys j)) }
{
    let unended = batch.end_at_first(slot).is_none();
    if unended {
        due.insert(slot)?;
    }
    Ok(())
}

/// The slots from this one on are due, as `add_slot` says, whose grants were made before the batch and are this party's.
fn add_grants(
    batch: &LogBatch<'_>,
    party: &Party,
    start: usize,
    due: &mut BTreeSet<usize>,
) -> Result<(), AllocError>
    ensures { OnOk result (Adds (batch_of batch.now) (has_party party.now) start
        (earlier_count (batch_of batch.now)) due.old.keys due.new.keys) }
{
    let end = batch.earlier_count();
    let mut from = start;
    while from < end {
        let Some(slot) = next_of(batch, party, from) else {
            return Ok(());
        };
        add_slot(batch, slot, due)?;
        from = slot + 1;
    }
    Ok(())
}

/// The grants from before the batch to the grantee that the revocation names are due, those of a kind. They are looked up once for all
/// revocations that name the same.
fn put_kind(
    batch: &LogBatch<'_>,
    revocation: &Revocation,
    grantee: &Grantee,
    kind: Kind,
    revoked: &mut Revoked,
    due: &mut BTreeSet<usize>,
) -> Result<(), AllocError>
    ensures { OnOk result (AddsKind (batch_of batch.now) revocation.now grantee.now kind
        revoked.old revoked.new due.old.keys due.new.keys) }
{
    if !revocation.kinds.contains(kind) {
        return Ok(());
    }
    if revoked.put(revocation, grantee, kind)? {
        let holder = Holder {
            grantee: *grantee,
            kind,
            table: revocation.table,
        };
        let party = Party::Between(revocation.grantor, holder);
        add_grants(batch, &party, 0, due)?;
    }
    Ok(())
}

/// The grants from before the batch to the grantee that the revocation names are due, kind by kind.
fn put_grantee(
    batch: &LogBatch<'_>,
    revocation: &Revocation,
    grantee: &Grantee,
    revoked: &mut Revoked,
    due: &mut BTreeSet<usize>,
) -> Result<(), AllocError>
    ensures { OnOk result (AddsGrantees (batch_of batch.now) revocation.now (grantee.now ∷ [])
        revoked.old revoked.new due.old.keys due.new.keys) }
{
    put_kind(batch, revocation, grantee, Kind::Read, revoked, due)?;
    put_kind(batch, revocation, grantee, Kind::Insert, revoked, due)?;
    put_kind(batch, revocation, grantee, Kind::Update, revoked, due)?;
    put_kind(batch, revocation, grantee, Kind::Delete, revoked, due)?;
    Ok(())
}

/// The grants from before the batch that the revocation names are due, grantee by grantee.
fn put_revocation(
    batch: &LogBatch<'_>,
    revocation: &Revocation,
    revoked: &mut Revoked,
    due: &mut BTreeSet<usize>,
) -> Result<(), AllocError>
    ensures { OnOk result (AddsGrantees (batch_of batch.now) revocation.now revocation.now.grantees
        revoked.old revoked.new due.old.keys due.new.keys) }
{
    for index in 0..revocation.grantees.len() {
        let grantee = revocation.grantees.at(index);
        put_grantee(batch, revocation, &grantee, revoked, due)?;
    }
    Ok(())
}

/// The revocation of a place, if it may make one: the grants from before the batch that it names are due.
fn put_deed(
    batch: &LogBatch<'_>,
    index: usize,
    revocation: Option<Revocation>,
    revoked: &mut Revoked,
    due: &mut BTreeSet<usize>,
) -> Result<(), AllocError>
    requires deed { revocation ≡ revocation_of ((batch_of batch.now).deeds index) }
    requires seeds { AreSeeds (batch_of batch.now) (is_revoked (batch_of batch.now) index) revoked.old due.old.keys }
    ensures { OnOk result (AreSeeds (batch_of batch.now) (is_revoked (batch_of batch.now) (suc index)) revoked.new due.new.keys) }
{
    let Some(revocation) = revocation else {
        return Ok(());
    };
    put_revocation(batch, &revocation, revoked, due)?;
    Ok(())
}

/// The revocations that the batch may make.
fn put_deeds(
    batch: &LogBatch<'_>,
    revoked: &mut Revoked,
    due: &mut BTreeSet<usize>,
) -> Result<(), AllocError>
    requires { AreSeeds (batch_of batch.now) (is_revoked (batch_of batch.now) 0) revoked.old due.old.keys }
    ensures { OnOk result (AreSeeds (batch_of batch.now) (is_revoked (batch_of batch.now) batch.now.size) revoked.new due.new.keys) }
{
    let first = batch.first_place();
    for index in 0..batch.size() {
        let statement = batch.statement(index);
        let revocation = statement.revocation_at(first + index as u64);
        put_deed(batch, index, revocation, revoked, due)?;
    }
    Ok(())
}

impl Reach {
    /// The user has the option by a grant. Returns the user, if none of the grants before gave it.
    #[tactic(auto, using(crate::proofs::HolderSets::by_holder))]
    fn lend(&mut self, user: User, grant: &Grant) -> Result<Option<User>, AllocError>
        ensures slots { self.new.slots.items ≡ self.old.slots.items }
        ensures lent { OnOk result ((other : Grant)
            → has_holder self.new.lent (grantor_of other)
            ≡ (is_by user grant.now.kind grant.now.table other || has_holder self.old.lent (grantor_of other))) }
        ensures revoked { (other : Grant) → is_named_by self.new.revoked other ≡ is_named_by self.old.revoked other }
        ensures was { IfOk result (λ found. found ≡ new_holder self.old.lent grant.now (Some user)) }
    {
        let holder = holder_of(Grantee::User(user), grant.kind, grant.table);
        let is_new = self.lent.put(holder)?;
        if is_new { Ok(Some(user)) } else { Ok(None) }
    }

    /// One more slot. Returns to whom its grant gives the option, if none of the slots before it did.
    fn take(&mut self, slot: usize, grant: &Grant) -> Result<Option<User>, AllocError>
        ensures slots { OnOk result (self.new.slots.items ≡ self.old.slots.items ++ slot ∷ []) }
        ensures lent { OnOk result ((other : Grant)
            → has_holder self.new.lent (grantor_of other)
            ≡ (lends grant.now other || has_holder self.old.lent (grantor_of other))) }
        ensures revoked { OnOk result ((other : Grant) → is_named_by self.new.revoked other ≡ is_named_by self.old.revoked other) }
        ensures was { IfOk result (λ found. found ≡ new_holder self.old.lent grant.now (option_holder grant.now)) }
    {
        self.slots.push(slot)?;
        match grant.option_holder() {
            Some(user) => self.lend(user, grant),
            None => Ok(None),
        }
    }

    /// A slot before the batch that it may reach, and the next: with the slot, the later ones are due by whom its grant gives
    /// the option. They are looked up once for each user.
    fn take_earlier(
        &mut self,
        batch: &LogBatch<'_>,
        slot: usize,
        next: usize,
        due: &mut BTreeSet<usize>,
    ) -> Result<(), AllocError>
        requires within { slot < earlier_count (batch_of batch.now) }
        requires next { next ≡ suc slot }
        requires reached { is_reached (batch_of batch.now) self.old.slots.items slot ≡ true }
        requires reach { IsReach (batch_of batch.now) slot self.old }
        requires due { IsDue (batch_of batch.now) next self.old.slots.items due.old.keys }
        ensures reach { OnOk result (IsReach (batch_of batch.now) next self.new) }
        ensures due { OnOk result (IsDue (batch_of batch.now) next self.new.slots.items due.new.keys) }
    {
        let _slots = batch.earlier_count();
        let grant = batch.grant(slot);
        if let Some(user) = self.take(slot, &grant)? {
            let party = Party::By(user, grant.kind, grant.table);
            add_grants(batch, &party, next, due)?;
        }
        Ok(())
    }

    /// All slots before the batch that it may reach, from those on that are due by its revocations.
    fn take_all_earlier(
        &mut self,
        batch: &LogBatch<'_>,
        due: &mut BTreeSet<usize>,
    ) -> Result<(), AllocError>
        requires reach { IsReach (batch_of batch.now) 0 self.old }
        requires due { IsDue (batch_of batch.now) 0 self.old.slots.items due.old.keys }
        ensures { OnOk result (IsReach (batch_of batch.now) (earlier_count (batch_of batch.now)) self.new) }
    {
        let _slots = batch.earlier_count();
        let mut low = 0;
        while let Some(slot) = due.pop_first() {
            low = slot + 1;
            self.take_earlier(batch, slot, low, due)?;
        }
        Ok(())
    }

    /// A slot of a grant that the batch may make, if it may reach it.
    fn judge_own(&mut self, batch: &LogBatch<'_>, slot: usize) -> Result<(), AllocError>
        requires within { slot < length (batch_slots (batch_of batch.now)) }
        requires reach { IsReach (batch_of batch.now) slot self.old }
        ensures { OnOk result (IsReach (batch_of batch.now) (suc slot) self.new) }
    {
        let grant = batch.grant(slot);
        let is_open = batch.end_at_first(slot).is_none();
        let is_revoked = self.revoked.names(&grant);
        let is_lent = self.lent.has(holder_of(
            Grantee::User(grant.grantor),
            grant.kind,
            grant.table,
        ));
        if is_open && (is_revoked || is_lent) {
            let _found = self.take(slot, &grant)?;
        }
        Ok(())
    }

    /// All slots that the batch may reach. An error means out of memory.
    pub(crate) fn of(alloc: Global, batch: &LogBatch<'_>) -> Result<Reach, AllocError>
        ensures { IfOk result (λ reach. IsReach (batch_of batch.now) (length (batch_slots (batch_of batch.now))) reach) }
    {
        let mut revoked = Revoked::new(alloc);
        let mut due = BTreeSet::new(alloc);
        put_deeds(batch, &mut revoked, &mut due)?;
        let mut reach = Reach {
            slots: Vec::new(alloc),
            lent: Holders::new(alloc),
            revoked,
        };
        reach.take_all_earlier(batch, &mut due)?;
        for slot in batch.earlier_count()..batch.slot_count() {
            reach.judge_own(batch, slot)?;
        }
        Ok(reach)
    }

    /// The slots.
    pub(crate) fn into_slots(self) -> Vec<usize>
        ensures { result ≡ self.slots }
    {
        let Reach {
            slots,
            lent: _,
            revoked: _,
        } = self;
        slots
    }
}
