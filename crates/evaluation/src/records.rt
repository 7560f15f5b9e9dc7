//! The records of grants that a place of a batch is shown.

ghost use Rattle.std.specs.Prelude.{◌≡◌, ◌<◌, IfSome, None, Option, Some, length};
ghost use Rattle.model_base.specs.Records.{end_below};
ghost use Rattle.grants_base.specs.InForce.{ShowsNextInForce};
ghost use Rattle.grants_base.specs.View.{end_in, grant_in, slot_at};
ghost use Rattle.bohm_core_base.specs.Batch.{batch_slots};
ghost use Rattle.log_batch.specs.Supplied.{batch_of};
ghost use Rattle.evaluation.specs.Seen.{shown_to};
ghost use Rattle.evaluation.specs.Sought.{is_sought};
ghost use Rattle.evaluation.specs.ReadSource.{Reader, PassWork};

use crate::in_force::{Sought, last_shown, next_shown};
use crate::read_source::ReadSource;
use crate::tables::is_on;
use grants::{Holder, NextBy, NextInForce, Records};
use log_batch::LogBatch;
use model_base::{Grant, Kind, Place, Table, User};
use std::marker::{Brand, PhantomData};

/// Which reader something is, and what it did itself, whoever has it as `&mut` meanwhile: a call picks both.
pub(crate) trait Pinned {
    ghost as_reader: { Option Reader };

    ghost work: { Option PassWork };
}

impl Pinned for Brand {
    ghost as_reader = { None };

    ghost work = { None };
}

/// The records of grants that a place of the batch is shown: of the grants on the tables of its needs and of its deed, those
/// that were made below it, each with its end if that lies below it too. A slot is looked up when it is asked for, and no
/// memory is taken.
pub(crate) struct ShownRecords<'a, T: ReadSource, P: Pinned> {
    pub(crate) batch: &'a LogBatch<'a>,
    pub(crate) source: T,
    pub(crate) pinned: PhantomData<P>,
    ghost same: { (T.as_reader source).batch ≡ batch_of batch.now },
    ghost place: { Some (T.as_reader source) ≡ P.as_reader },
    ghost kept: { Some (T.work source) ≡ P.work },
}

/// The end, if it lies below the place.
fn end_below(end: Option<Place>, place: Place) -> Option<Place>
    ensures { result ≡ end_below place end }
{
    end.filter(|end| *end < place)
}

/// The grant of a slot, if the reader is shown it: it is on one of its tables, lies below it, and was made, before the batch
/// or by a place that was done.
fn grant_shown<T: ReadSource>(batch: &LogBatch, source: &mut T, slot: usize) -> Option<Grant>
    requires batch { (T.as_reader source.old).batch ≡ batch_of batch.now }
    requires within { slot < length (batch_slots (batch_of batch.now)) }
    ensures value { result ≡ grant_in (slot_at (shown_to batch.now (T.as_reader source.old)) slot) }
    ensures same { (T.as_reader source.new ≡ T.as_reader source.old) × (T.work source.new ≡ T.work source.old) }
{
    let index = source.reader();
    let first = batch.first_place();
    let grant = batch.grant(slot);
    if !is_on(batch.statement(index), grant.table) || grant.place >= first + index as u64 {
        return None;
    }
    if grant.place < first || source.was_done((grant.place - first) as usize) {
        Some(grant)
    } else {
        None
    }
}

/// The end of the record of a slot whose grant the reader is shown, if it is, and if the end lies below the reader.
fn end_of_shown<T: ReadSource>(
    batch: &LogBatch,
    source: &mut T,
    slot: usize,
    grant: &Option<Grant>,
) -> Option<Place>
    requires batch { (T.as_reader source.old).batch ≡ batch_of batch.now }
    requires within { slot < length (batch_slots (batch_of batch.now)) }
    requires shown { grant.now ≡ grant_in (slot_at (shown_to batch.now (T.as_reader source.old)) slot) }
    ensures value { result ≡ end_in (slot_at (shown_to batch.now (T.as_reader source.old)) slot) }
    ensures same { (T.as_reader source.new ≡ T.as_reader source.old) × (T.work source.new ≡ T.work source.old) }
{
    let _log = batch.log();
    let _grant = batch.grant(slot);
    match grant {
        Some(_) => {
            let place = batch.first_place() + source.reader() as u64;
            end_below(source.end(slot), place)
        }
        None => None,
    }
}

/// The grant of a slot, if the reader is shown it, and its end, if it lies below the reader.
pub(crate) fn record_shown<T: ReadSource>(
    batch: &LogBatch,
    source: &mut T,
    slot: usize,
) -> (Option<Grant>, Option<Place>)
    requires batch { (T.as_reader source.old).batch ≡ batch_of batch.now }
    requires within { slot < length (batch_slots (batch_of batch.now)) }
    ensures grant { result.0 ≡ grant_in (slot_at (shown_to batch.now (T.as_reader source.old)) slot) }
    ensures end { result.1 ≡ end_in (slot_at (shown_to batch.now (T.as_reader source.old)) slot) }
    ensures same { (T.as_reader source.new ≡ T.as_reader source.old) × (T.work source.new ≡ T.work source.old) }
{
    let grant = grant_shown(batch, source, slot);
    let end = end_of_shown(batch, source, slot, &grant);
    (grant, end)
}

/// The least slot at or above this one of a grant that the reader is shown in force and that is looked for, and the last end of
/// such a grant. None where it isn't known what was in force as the batch began, or the table is none of the reader's.
fn shown_next<T: ReadSource>(
    batch: &LogBatch,
    source: &mut T,
    sought: &Sought,
    from: usize,
) -> Option<NextInForce>
    requires batch { (T.as_reader source.old).batch ≡ batch_of batch.now }
    ensures next { IfSome result (λ next.
        ShowsNextInForce (is_sought sought.now) (shown_to batch.now (T.as_reader source.old)) from next) }
    ensures same { (T.as_reader source.new ≡ T.as_reader source.old) × (T.work source.new ≡ T.work source.old) }
{
    let statement = batch.statement(source.reader());
    if !is_on(statement, sought.holder.table) {
        return None;
    }
    let Some(next) = next_shown(batch, source, sought, from) else {
        return None;
    };
    let Some(last) = last_shown(batch, source, sought) else {
        return None;
    };
    Some(NextInForce {
        slot: next.slot,
        lost: last.place,
    })
}

impl<T: ReadSource, P: Pinned> Records for ShownRecords<'_, T, P> {
    ghost use Rattle.bohm_core_base.specs.Batch.{batch_slots};
    ghost use Rattle.log_batch.specs.Supplied.{batch_of};
    ghost use Rattle.evaluation.specs.Seen.{shown_to};

    ghost shown = { λ records. shown_to records.batch.now (T.as_reader records.source) };

    ghost asked = { λ records. batch_slots (batch_of records.batch.now) };

    fn at(&self) -> Place {
        self.batch.first_place() + self.source.reader() as u64
    }

    fn covers(&self, table: Table) -> bool {
        is_on(self.batch.statement(self.source.reader()), table)
    }

    fn owner(&self, table: Table) -> User {
        let _statement = self.batch.statement(self.source.reader());
        self.batch.log().owner(table)
    }

    fn slots(&self) -> usize {
        self.batch.slot_count()
    }

    fn grant(&mut self, i: usize) -> Option<Grant> {
        let _log = self.batch.log();
        grant_shown(self.batch, &mut self.source, i)
    }

    fn end(&mut self, i: usize) -> Option<Place> {
        let _log = self.batch.log();
        let (_, end) = record_shown(self.batch, &mut self.source, i);
        end
    }

    fn next_to(&mut self, holder: Holder, from: usize) -> Option<usize> {
        let _log = self.batch.log();
        self.batch.next_to(&holder, from)
    }

    fn next_by(&mut self, user: User, kind: Kind, table: Table, from: usize) -> Option<usize> {
        let _log = self.batch.log();
        self.batch.next_by(user, kind, table, from)
    }

    fn next_in_force(&mut self, holder: Holder, option: bool, from: usize) -> Option<NextInForce> {
        let sought = Sought::giving(holder, option);
        shown_next(self.batch, &mut self.source, &sought, from)
    }

    fn next_slot_in_force(&mut self, holder: Holder, option: bool, from: usize) -> Option<NextBy> {
        let sought = Sought::giving(holder, option);
        next_shown(self.batch, &mut self.source, &sought, from)
    }

    fn next_in_force_by(&mut self, user: User, holder: Holder, from: usize) -> Option<NextBy> {
        let sought = Sought::by(user, holder);
        next_shown(self.batch, &mut self.source, &sought, from)
    }
}
