//! A range of a log as a batch.

ghost use Rattle.std.specs.Prelude.{◌≡◌, ◌<◌, ◌≤◌, ◌+◌, ◌*◌, ◌-◌, ◌++◌, ◌∷◌, [], ℕ, List, None, Some, length, slice_get, slice_index_or, ◌^◌, IfOk, IfSome, OnOk, false, true};
ghost use Rattle.std.specs.Option.{MatchOption};
ghost use Rattle.model_base.specs.Records.{grants_of};
ghost use Rattle.model_base.specs.Outcomes.{rows_before};
ghost use Rattle.model_base.specs.References.{batch_references, references};
ghost use Rattle.grants_base.specs.Force.{gives_by, gives_to, is_in_force};
ghost use Rattle.grants_base.specs.InForce.{IsNextInForce};
ghost use Rattle.grants_base.specs.Index.{IsFirst, IsNext, is_by, is_to};
ghost use Rattle.sequencer.specs.Whole.{IsAccepted, IsWhole};
ghost use Rattle.bohm_core_base.specs.Batch.{batch_slots, reference_words};
ghost use Rattle.bohm_core_base.specs.Machine.{end_of, start};
ghost use Rattle.log_batch.specs.Laws.{IsOfLog};
ghost use Rattle.log_batch.specs.Earlier.{earlier_count, earlier_grants, own_grants, records_before};
ghost use Rattle.log_batch.specs.Named.{grants_named};

use crate::batch_range::BatchRange;
use crate::referred::{References, reference_counts};
use crate::state_before::StateBefore;
use grants::{Holder, IndexedGrants, NextBy, NextInForce, Records};
use model_base::{
    Deed, Deeds, Grant, Key, Kind, MOST_ACCESSES, MOST_PARTITIONS, MOST_PLACES, Place, Reference,
    Row, Statement, Table, User,
};
use placing::Refs;
use sequencer::LogTail;
use std::alloc::{AllocError, Global};
use std::marker::Model;
use std::ops::Range;

/// The places of a range of a log as a batch, by an index from 0: its statements with their references, the rows and the book
/// of grants before it, and the grants that it may make.
#[derive(Drop)]
pub struct LogBatch<'a> {
    alloc: Global,
    log: &'a LogTail,
    before: StateBefore<'a>,
    references: References,
    named: IndexedGrants,
    first: Place,
    size: usize,
    partitions: usize,
}

impl<'a> Model for LogBatch<'a> {
    ghost use Rattle.log_batch.specs.Referred.{is_found};
    ghost use Rattle.log_batch.specs.Supplied.{IsSupplied, LogRange};

    ghost Value = { LogRange };

    ghost view = { λ batch. record {
      log = batch.log.now.log;
      first = batch.first;
      size = batch.size;
      partitions = batch.partitions;
      placed = is_found batch.references;
    } };

    ghost invariant = { λ batch. IsSupplied
        (record {
          log = batch.log.now.log;
          first = batch.first;
          size = batch.size;
          partitions = batch.partitions;
          placed = is_found batch.references;
        })
        batch.log.now.dropped batch.before batch.references batch.named };
}

/// Appends the grant to the others, if the deed is one.
fn push_grant(grants: &mut IndexedGrants, deed: Deed) -> Result<(), AllocError>
    ensures { OnOk result (grants.new ≡ grants.old ++ grants_of (deed ∷ [])) }
{
    if let Deed::Granting(grant) = deed {
        grants.push(grant)?;
    }
    Ok(())
}

/// Appends the grants among the deeds that are left.
fn push_grants(grants: &mut IndexedGrants, deeds: &mut Deeds<'_>) -> Result<(), AllocError>
    ensures { OnOk result (grants.new ≡ grants.old ++ grants_of deeds.old) }
{
    'deeds: while let Some(deed) = deeds.next() {
        push_grant(grants, deed)?;
    }
    Ok(())
}

/// The grants that the statements of the places may make, in order.
fn named_grants(
    alloc: Global,
    log: &LogTail,
    range: Range<Place>,
) -> Result<IndexedGrants, AllocError>
    requires kept { log.now.dropped ≤ range.start }
    requires order { range.start ≤ range.end }
    requires within { range.end ≤ length log.now.log.statements }
    ensures { IfOk result (λ grants. grants ≡ grants_named log.now.log.statements range.start (range.end - range.start)) }
{
    let mut grants = IndexedGrants::seeded(alloc, log.catalog().seed());
    for place in range.start..range.end {
        let mut deeds = log.statement(place).deeds_at(place);
        push_grants(&mut grants, &mut deeds)?;
    }
    Ok(grants)
}

impl<'a> LogBatch<'a> {
    ghost use Rattle.log_batch.specs.Referred.{AreAtHand, is_found};
    ghost use Rattle.log_batch.specs.BatchRange.{IsBatchRange, range_given};
    ghost use Rattle.log_batch.specs.Supplied.{batch_of, range_of};

    // The places of the range as a batch, with what is available of their references.
    fn of(alloc: Global, places: BatchRange<'a>, references: References) -> Result<Self, AllocError>
        requires places { IsBatchRange places }
        requires references { AreAtHand places.log.now.log.statements places.range.start
            (places.range.end - places.range.start) references }
        ensures { IfOk result (λ batch. batch ≡ range_given places.entry (is_found references)) }
    {
        let BatchRange {
            log,
            before,
            range,
            partitions,
        } = places;
        let _dropped = log.dropped();
        let _len = log.len();
        let _mark = before.chains.mark();
        let named = named_grants(alloc, log, range.start..range.end)?;
        Ok(LogBatch {
            alloc,
            log,
            before,
            references,
            named,
            first: range.start,
            size: (range.end - range.start) as usize,
            partitions,
        })
    }

    /// The places of the range as a batch, which are placed: the references are `merge`'s for the range. An error means out of memory.
    pub fn new(alloc: Global, places: BatchRange<'a>, references: Refs) -> Result<Self, AllocError>
        requires places { IsBatchRange places }
        requires references { references ≡ batch_references places.log.now.log.statements places.range.start places.range.end }
        ensures { IfOk result (λ batch. batch ≡ range_given places.entry true) }
    {
        Self::of(alloc, places, References::Found(references))
    }

    /// The places of the range as a batch that isn't placed: no reference is looked for, and of each place only the number of
    /// its references is kept. An error means out of memory.
    pub fn open(alloc: Global, places: BatchRange<'a>) -> Result<Self, AllocError>
        requires { IsBatchRange places }
        ensures { IfOk result (λ batch. batch ≡ range_given places.entry false) }
    {
        let range = places.range.start..places.range.end;
        let counts = reference_counts(alloc, places.log, range)?;
        Self::of(alloc, places, References::Counted(counts))
    }

    /// The log.
    pub fn log(&self) -> &LogTail
        ensures value { result.now.log ≡ self.now.log }
        ensures whole { IsWhole self.now.log }
        ensures of_log { IsOfLog (range_of self.now) }
        ensures within { self.now.first + self.now.size ≤ length self.now.log.statements }
    {
        self.log
    }

    /// How many places the batch has.
    pub fn size(&self) -> usize
        ensures { result ≡ self.now.size }
    {
        self.size
    }

    /// The number of partitions: 1 to `MOST_PARTITIONS`.
    pub fn partition_count(&self) -> usize
        ensures value { result ≡ self.now.partitions }
        ensures some { 0 < result }
        ensures few { result ≤ MOST_PARTITIONS }
    {
        self.partitions
    }

    /// The first place.
    pub fn first_place(&self) -> Place
        ensures value { result ≡ self.now.first }
        ensures small { self.now.first + self.now.size ≤ MOST_PLACES }
        ensures of_log { IsOfLog (range_of self.now) }
    {
        self.first
    }

    /// The allocator of the batch.
    pub fn alloc(&self) -> Global {
        self.alloc
    }

    /// The statement of an index.
    pub fn statement(&self, index: usize) -> &Statement
        requires { index < self.now.size }
        ensures at { slice_get self.now.log.statements (self.now.first + index) ≡ Some result.now }
        ensures taken { IsAccepted self.now.log.names result.now }
        ensures whole { IsWhole self.now.log }
        ensures of_log { IsOfLog (range_of self.now) }
    {
        self.log.statement(self.first + index as u64)
    }

    /// The statement of an index, also past the batch, if the log has one there.
    pub fn find(&self, index: usize) -> Option<&Statement>
        ensures { MatchOption result (slice_get self.now.log.statements (self.now.first + index) ≡ None)
            (λ found. (slice_get self.now.log.statements (self.now.first + index) ≡ Some found.now)
            × IsAccepted self.now.log.names found.now) }
    {
        let behind = self.log.len() - self.first;
        if (index as u64) < behind {
            Some(self.log.statement(self.first + index as u64))
        } else {
            None
        }
    }

    /// What an index is referred to, if the batch was placed.
    pub fn references_at(&self, index: usize) -> &[Reference]
        requires placed { self.now.placed ≡ true }
        requires within { index < self.now.size }
        ensures { result.now ≡ references self.now.log.statements self.now.first (self.now.first + index) }
    {
        match &self.references {
            References::Found(references) => references.of(index),
            References::Counted(_) => unreachable!(),
        }
    }

    /// How many references an index has, whether the batch was placed or not: at most one for each access, one for the table of each, and
    /// one for that of the deed.
    pub fn references_length(&self, index: usize) -> usize
        requires { index < self.now.size }
        ensures value { result ≡ length (reference_words (batch_of self.now) index) }
        ensures few { result ≤ 2 * MOST_ACCESSES + 1 }
    {
        self.references.count(index)
    }

    /// The row of a key before the batch.
    pub fn row_before(&self, key: Key) -> Option<Row>
        ensures { result ≡ rows_before self.now.log.statements self.now.first key.table key.row }
    {
        match self.before.chains.row_before(self.first, key) {
            Ok(row) => row,
            Err(_) => None,
        }
    }

    /// How many slots there are: one for each grant that was made before the batch, and then for each that it may make, of each kind to
    /// each grantee of a statement.
    pub fn slot_count(&self) -> usize
        ensures value { result ≡ length (batch_slots (batch_of self.now)) }
        ensures of_log { IsOfLog (range_of self.now) }
    {
        self.before.book.records().len() + self.named.len()
    }

    /// The grant of a slot.
    pub fn grant(&self, slot: usize) -> Grant
        requires { slot < length (batch_slots (batch_of self.now)) }
        ensures { slice_get (batch_slots (batch_of self.now)) slot ≡ Some result }
    {
        let records = self.before.book.records();
        if slot < records.len() {
            records[slot].grant
        } else {
            self.named.grant(slot - records.len())
        }
    }

    /// The end before the batch of the record of a slot, if it has one.
    pub fn end_at_first(&self, slot: usize) -> Option<Place>
        requires { slot < length (batch_slots (batch_of self.now)) }
        ensures { result ≡ end_of (start (batch_of self.now)) slot }
    {
        let records = self.before.book.records();
        if slot < records.len() {
            records[slot].end
        } else {
            None
        }
    }

    /// How many slots there are of grants that were made before the batch. They come first.
    pub fn earlier_count(&self) -> usize
        ensures value { result ≡ earlier_count (batch_of self.now) }
        ensures within { result ≤ length (batch_slots (batch_of self.now)) }
        ensures of_log { IsOfLog (range_of self.now) }
    {
        self.before.book.records().len()
    }

    /// The least slot at or above this one whose grant was made before the batch and is to the holder, in force or not. It doesn't allocate,
    /// and takes what the book's index takes: the logarithm of the number of such grants.
    pub fn earlier_to(&self, holder: &Holder, from: usize) -> Option<usize>
        ensures { IsNext (is_to holder.now.grantee holder.now.kind holder.now.table) (earlier_grants (batch_of self.now)) from result }
    {
        let mut view = self.before.book.at(self.first);
        view.next_to(*holder, from)
    }

    /// The least slot at or above this one whose grant was made before the batch and is by the user, of the kind on the table, in force or
    /// not. It doesn't allocate, and takes what the book's index takes: the logarithm of the number of such grants.
    pub fn earlier_by(&self, user: User, kind: Kind, table: Table, from: usize) -> Option<usize>
        ensures { IsNext (is_by user kind table) (earlier_grants (batch_of self.now)) from result }
    {
        let mut view = self.before.book.at(self.first);
        view.next_by(user, kind, table, from)
    }

    /// The least slot at or above this one of a grant in force before the batch to the holder, and the last end before the batch of such a
    /// grant; of grants with the option, where it is asked for. It doesn't allocate, and takes the logarithm of the number of those in
    /// force. None where the book doesn't know what is in force.
    pub fn earlier_in_force(&self, holder: Holder, option: bool, from: usize) -> Option<NextInForce>
        ensures { IfSome result (λ next.
            IsNextInForce (gives_to holder.grantee holder.kind holder.table option) (records_before (batch_of self.now)) from next) }
    {
        let mut view = self.before.book.at(self.first);
        view.next_in_force(holder, option, from)
    }

    /// The least slot at or above this one of a grant in force before the batch by the user to the holder. It doesn't allocate, and takes
    /// the logarithm of the number of those in force to the holder. None as in `earlier_in_force`.
    pub fn earlier_in_force_by(&self, user: User, holder: Holder, from: usize) -> Option<NextBy>
        ensures { IfSome result (λ next.
            IsFirst (λ k. is_in_force (gives_by user holder.grantee holder.kind holder.table)
            (slice_get (records_before (batch_of self.now)) k)) from next.slot) }
    {
        let mut view = self.before.book.at(self.first);
        view.next_in_force_by(user, holder, from)
    }

    /// The least of the grants that the batch may make, counted from 0, at or above this one that is to the holder. It doesn't allocate, and
    /// takes the logarithm of the number of such grants.
    pub(crate) fn own_to(&self, holder: &Holder, from: usize) -> Option<usize>
        ensures next { IsNext (is_to holder.now.grantee holder.now.kind holder.now.table) (own_grants (batch_of self.now)) from result }
        ensures within { IfSome result (λ slot. earlier_count (batch_of self.now) + slot < 2 ^ 64) }
    {
        let _count = self.slot_count();
        self.named.next_to(*holder, from)
    }

    /// The least of the grants that the batch may make, counted from 0, at or above this one that is by the user, of the kind on the table.
    /// It doesn't allocate, and takes the logarithm of the number of such grants.
    pub(crate) fn own_by(&self, user: User, kind: Kind, table: Table, from: usize) -> Option<usize>
        ensures next { IsNext (is_by user kind table) (own_grants (batch_of self.now)) from result }
        ensures within { IfSome result (λ slot. earlier_count (batch_of self.now) + slot < 2 ^ 64) }
    {
        let _count = self.slot_count();
        self.named.next_by(user, kind, table, from)
    }
}
