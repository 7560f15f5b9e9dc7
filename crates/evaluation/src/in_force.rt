//! The grants in force at a place of a batch: those in force as the batch began that no place of it ended since, and those that
//! places of it made and none of them ended.

ghost use Rattle.std.specs.Prelude.{◌≡◌, ◌<◌, ◌≤◌, ◌&&◌, nat_lt, true, IfSome, length, slice_get};
ghost use Rattle.grants_base.specs.Force.{greatest_end, is_in_force};
ghost use Rattle.grants_base.specs.InForce.{ShowsNextSlot};
ghost use Rattle.grants_base.specs.Index.{IsFirst};
ghost use Rattle.grants_base.specs.View.{entries, slot_at};
ghost use Rattle.bohm_core_base.specs.Batch.{batch_slots, is_listed};
ghost use Rattle.log_batch.specs.Earlier.{earlier_count, records_before};
ghost use Rattle.log_batch.specs.Supplied.{batch_of};
ghost use Rattle.evaluation.specs.Seen.{shown_to};
ghost use Rattle.evaluation.specs.declared.in_force.Wanted.TheVariants.{By, Giving};
ghost use Rattle.evaluation.specs.Sought.{IsLastEnd, is_sought, is_wanted, open_grant, slot_end, sought_end};

use crate::read_source::ReadSource;
use crate::records::record_shown;
use grants::{Holder, NextBy, is_to};
use grants_base::later;
use log_batch::LogBatch;
use model_base::{Grant, Place, User};

/// Which grants to a holder are looked for.
#[derive(Clone, Copy)]
enum Wanted {
    /// All, or those with the option alone.
    Giving(bool),
    /// Those by a user.
    By(User),
}

/// The grants that are looked for: such grants to a holder.
#[derive(Clone, Copy)]
pub(crate) struct Sought {
    pub(crate) holder: Holder,
    wanted: Wanted,
}

impl Sought {
    /// The grants to a holder: all, or those with the option alone.
    pub(crate) fn giving(holder: Holder, option: bool) -> Self
        ensures { result ≡ record { holder = holder; wanted = Giving option } }
    {
        Sought {
            holder,
            wanted: Wanted::Giving(option),
        }
    }

    /// The grants by a user to a holder.
    pub(crate) fn by(user: User, holder: Holder) -> Self
        ensures { result ≡ record { holder = holder; wanted = By user } }
    {
        Sought {
            holder,
            wanted: Wanted::By(user),
        }
    }
}

/// The last end of a grant, if one has ended.
#[derive(Clone, Copy)]
pub(crate) struct LastEnd {
    pub(crate) place: Option<Place>,
}

/// Whether the grant is one of those that are wanted.
fn is_wanted(wanted: &Wanted, grant: &Grant) -> bool
    ensures { result ≡ is_wanted wanted.now grant.now }
{
    match wanted {
        Wanted::Giving(option) => grant.option || !*option,
        Wanted::By(user) => grant.grantor == *user,
    }
}

/// Whether the grant is one of those that are looked for.
fn is_sought(sought: &Sought, grant: &Grant) -> bool
    ensures { result ≡ is_sought sought.now grant.now }
{
    is_to(grant, sought.holder) && is_wanted(&sought.wanted, grant)
}

/// Whether there is a grant, which is one of these and has no end.
fn is_open(sought: &Sought, grant: &Option<Grant>, end: Option<Place>) -> bool
    ensures { result ≡ open_grant (is_sought sought.now) grant.now end }
{
    match grant {
        Some(grant) => end.is_none() && is_sought(sought, grant),
        None => false,
    }
}

/// The end, if there is a grant and it is one of these.
fn end_if_sought(sought: &Sought, grant: &Option<Grant>, end: Option<Place>) -> Option<Place>
    ensures { result ≡ sought_end (is_sought sought.now) grant.now end }
{
    match grant {
        Some(grant) => { if is_sought(sought, grant) { end } else { None } }
        None => None,
    }
}

/// The least slot at or above this one of a grant in force as the batch began. None where that isn't known.
fn next_at_start(batch: &LogBatch, sought: &Sought, from: usize) -> Option<NextBy>
    ensures { IfSome result (λ next.
        IsFirst (λ k. is_in_force (is_sought sought.now) (slice_get (records_before (batch_of batch.now)) k)) from next.slot) }
{
    match &sought.wanted {
        Wanted::Giving(option) => {
            match batch.earlier_in_force(sought.holder, *option, from) {
                Some(next) => Some(NextBy { slot: next.slot }),
                None => None,
            }
        }
        Wanted::By(user) => batch.earlier_in_force_by(*user, sought.holder, from),
    }
}

/// The last end before the batch of such a grant, of those that give something. None where that isn't known.
fn lost_at_start(batch: &LogBatch, sought: &Sought) -> Option<LastEnd>
    ensures { IfSome result (λ last. last.place ≡ greatest_end (is_sought sought.now) (records_before (batch_of batch.now))) }
{
    match &sought.wanted {
        Wanted::Giving(option) => {
            match batch.earlier_in_force(sought.holder, *option, 0) {
                Some(next) => Some(LastEnd { place: next.lost }),
                None => None,
            }
        }
        Wanted::By(_) => None,
    }
}

/// The least slot at or above this one of such a grant from before the batch that the reader is shown in force. It goes through
/// those in force as the batch began up to it. None where these aren't known.
fn next_earlier<T: ReadSource>(
    batch: &LogBatch,
    source: &mut T,
    sought: &Sought,
    start: usize,
) -> Option<NextBy>
    requires { (T.as_reader source.old).batch ≡ batch_of batch.now }
    ensures next { IfSome result (λ next.
        IsFirst (λ k. nat_lt k (earlier_count (batch_of batch.now))
        && is_in_force (is_sought sought.now) (slot_at (shown_to batch.now (T.as_reader source.old)) k)) start next.slot) }
    ensures same { (T.as_reader source.new ≡ T.as_reader source.old) × (T.work source.new ≡ T.work source.old) }
{
    let count = batch.earlier_count();
    let mut from = start;
    while from < count {
        let Some(next) = next_at_start(batch, sought, from) else {
            return None;
        };
        let Some(slot) = next.slot else {
            return Some(NextBy { slot: None });
        };
        let (grant, end) = record_shown(batch, source, slot);
        if is_open(sought, &grant, end) {
            return Some(NextBy { slot: Some(slot) });
        }
        from = slot + 1;
    }
    Some(NextBy { slot: None })
}

/// The least slot at or above this one, which is none of a grant from before the batch, of such a grant that the reader is shown in
/// force. It goes through the batch's own grants to the holder up to it.
fn next_own<T: ReadSource>(
    batch: &LogBatch,
    source: &mut T,
    sought: &Sought,
    start: usize,
) -> Option<usize>
    requires batch { (T.as_reader source.old).batch ≡ batch_of batch.now }
    requires own { earlier_count (batch_of batch.now) ≤ start }
    ensures next { IsFirst
        (λ k. is_in_force (is_sought sought.now) (slot_at (shown_to batch.now (T.as_reader source.old)) k))
        start result }
    ensures same { (T.as_reader source.new ≡ T.as_reader source.old) × (T.work source.new ≡ T.work source.old) }
{
    let count = batch.slot_count();
    let mut from = start;
    while from < count {
        let Some(slot) = batch.next_own_to(&sought.holder, from) else {
            return None;
        };
        let (grant, end) = record_shown(batch, source, slot);
        if is_open(sought, &grant, end) {
            return Some(slot);
        }
        from = slot + 1;
    }
    None
}

/// The least slot at or above this one of such a grant that the reader is shown in force. It goes through those in force as the
/// batch began and then through the batch's own. None where the former aren't known.
pub(crate) fn next_shown<T: ReadSource>(
    batch: &LogBatch,
    source: &mut T,
    sought: &Sought,
    from: usize,
) -> Option<NextBy>
    requires { (T.as_reader source.old).batch ≡ batch_of batch.now }
    ensures next { IfSome result (λ next.
        ShowsNextSlot (is_sought sought.now) (shown_to batch.now (T.as_reader source.old)) from next) }
    ensures same { (T.as_reader source.new ≡ T.as_reader source.old) × (T.work source.new ≡ T.work source.old) }
{
    let _log = batch.log();
    let Some(next) = next_earlier(batch, source, sought, from) else {
        return None;
    };
    if next.slot.is_some() {
        return Some(next);
    }
    let own = from.max(batch.earlier_count());
    let slot = next_own(batch, source, sought, own);
    Some(NextBy { slot })
}

/// The last end of such a grant from before the batch that the reader is shown. It goes through those in force as the batch began. None
/// where these, or the last end before the batch, aren't known.
fn last_earlier<T: ReadSource>(batch: &LogBatch, source: &mut T, sought: &Sought) -> Option<LastEnd>
    requires batch { (T.as_reader source.old).batch ≡ batch_of batch.now }
    requires listed { is_listed ((batch_of batch.now).tables (T.as_reader source.old).index) sought.now.holder.table ≡ true }
    ensures last { IfSome result (λ last. IsLastEnd (is_sought sought.now) (shown_to batch.now (T.as_reader source.old))
        (λ k. nat_lt k (earlier_count (batch_of batch.now))) last.place) }
    ensures same { (T.as_reader source.new ≡ T.as_reader source.old) × (T.work source.new ≡ T.work source.old) }
{
    let Some(before) = lost_at_start(batch, sought) else {
        return None;
    };
    let count = batch.earlier_count();
    let mut place = before.place;
    let mut from = 0;
    while from < count {
        let Some(next) = next_at_start(batch, sought, from) else {
            return None;
        };
        let Some(slot) = next.slot else {
            return Some(LastEnd { place });
        };
        let (grant, end) = record_shown(batch, source, slot);
        place = later(place, end_if_sought(sought, &grant, end));
        from = slot + 1;
    }
    Some(LastEnd { place })
}

/// The last end of such a grant that the reader is shown, where that of those from before the batch is known. It goes through the
/// batch's own grants to the holder.
fn last_own<T: ReadSource>(
    batch: &LogBatch,
    source: &mut T,
    sought: &Sought,
    before: LastEnd,
) -> Option<Place>
    requires batch { (T.as_reader source.old).batch ≡ batch_of batch.now }
    requires before { IsLastEnd (is_sought sought.now) (shown_to batch.now (T.as_reader source.old))
        (λ k. nat_lt k (earlier_count (batch_of batch.now))) before.place }
    ensures last { result ≡ greatest_end (is_sought sought.now) (entries (shown_to batch.now (T.as_reader source.old))) }
    ensures same { (T.as_reader source.new ≡ T.as_reader source.old) × (T.work source.new ≡ T.work source.old) }
{
    let count = batch.slot_count();
    let mut place = before.place;
    let mut from = batch.earlier_count();
    while from < count {
        let Some(slot) = batch.next_own_to(&sought.holder, from) else {
            return place;
        };
        let (grant, end) = record_shown(batch, source, slot);
        place = later(place, end_if_sought(sought, &grant, end));
        from = slot + 1;
    }
    place
}

/// The last end of such a grant that the reader is shown. It goes through those in force as the batch began and then through the
/// batch's own. None where `last_earlier` returns none.
pub(crate) fn last_shown<T: ReadSource>(
    batch: &LogBatch,
    source: &mut T,
    sought: &Sought,
) -> Option<LastEnd>
    requires batch { (T.as_reader source.old).batch ≡ batch_of batch.now }
    requires listed { is_listed ((batch_of batch.now).tables (T.as_reader source.old).index) sought.now.holder.table ≡ true }
    ensures last { IfSome result (λ last.
        last.place ≡ greatest_end (is_sought sought.now) (entries (shown_to batch.now (T.as_reader source.old)))) }
    ensures same { (T.as_reader source.new ≡ T.as_reader source.old) × (T.work source.new ≡ T.work source.old) }
{
    let Some(earlier) = last_earlier(batch, source, sought) else {
        return None;
    };
    let place = last_own(batch, source, sought, earlier);
    Some(LastEnd { place })
}
