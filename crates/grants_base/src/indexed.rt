//! Records that are found by their grantees and by their grantors.

ghost use Rattle.std.specs.Prelude.{◌+◌, ◌-◌, ◌≡◌, ◌<◌, ◌≤◌, ◌++◌, ◌∷◌, [], false, true, ℕ, All, IfSome, IsSomeAnd, List, OnErr, OnOk, Some, length, map, slice_get, take};
ghost use Rattle.model_base.specs.Records.{recorded};
ghost use Rattle.grants_base.specs.Book.{end_slot, end_slots, lies_below, reopened, unended};
ghost use Rattle.grants_base.specs.Force.{gives_by, gives_to, is_in_force};
ghost use Rattle.grants_base.specs.InForce.{IsNextInForce, KeepsInForce, made_under};
ghost use Rattle.model_base.specs.Laws.{IsRising};
ghost use Rattle.model_base.specs.declared.deed.Record.{Record};
ghost use Rattle.grants_base.specs.Index.{IsFirst, IsNext, IsOnly, is_by, is_to};
ghost use Rattle.grants_base.specs.Marks.{EndBy};
ghost use Rattle.grants_base.specs.Sides.{IsPushed, IsSame, by_side, side_by, slots_under, to_side};
ghost use Rattle.grants_base.specs.declared.entries.End.{End};

use crate::entries::{End, reopened, set_end};
use crate::force::{NextBy, NextInForce, later};
use crate::in_force::GranteeIndex;
use crate::index::{HolderKey, Index, side_of};
use crate::records::Holder;
use model_base::{Grant, Grantee, HashSeed, Kind, Place, Record, Table, User};
use std::alloc::{AllocError, Global};
use std::marker::Model;

/// Records in the order in which they were added, each by its slot. Those by one user are found by an index, and those to one, with those
/// in force, by another, so that no search goes through all of them. No record ends after `last_end`.
#[derive(Drop)]
pub struct IndexedRecords {
    records: Vec<Record>,
    by: Index,
    last_end: Option<Place>,
    in_force: GranteeIndex,
}

impl Model for IndexedRecords {
    ghost use Rattle.std.specs.Prelude.{List};
    ghost use Rattle.model_base.specs.declared.deed.Record.{Record};
    ghost use Rattle.grants_base.specs.Marks.{AreIndexed};

    ghost Value = { List Record };

    ghost view = { λ indexed. indexed.records.items };

    ghost invariant = { λ indexed. AreIndexed indexed.records.items indexed.by indexed.last_end indexed.in_force };
}

/// What is looked up for a grantor, a kind and a table: a grantor is looked up as the user that it is.
fn side_by(grantor: User, kind: Kind, table: Table) -> HolderKey
    ensures { result ≡ side_by grantor kind table }
{
    side_of(Holder {
        grantee: Grantee::User(grantor),
        kind,
        table,
    })
}

/// The side of a grant's grantor.
fn by_side(grant: &Grant) -> HolderKey
    ensures { result ≡ by_side grant.now }
{
    side_by(grant.grantor, grant.kind, grant.table)
}

/// Adds the slot of a grant last under its grantor and its grantee, or under neither: then memory ran out.
fn push_slot(
    by: &mut Index,
    in_force: &mut GranteeIndex,
    grant: &Grant,
    slot: usize,
) -> Result<(), AllocError>
    ensures to { OnOk result (IsPushed (to_side grant.now) slot (made_under in_force.old) (made_under in_force.new)) }
    ensures by { OnOk result (IsPushed (by_side grant.now) slot (slots_under by.old) (slots_under by.new)) }
    ensures kept { OnOk result ((entries : List Record) → slot ≡ length entries → KeepsInForce in_force.old entries
        → KeepsInForce in_force.new (entries ++ unended grant.now ∷ [])) }
    ensures err_to { OnErr result (IsSame (made_under in_force.old) (made_under in_force.new)) }
    ensures err_by { OnErr result (IsSame (slots_under by.old) (slots_under by.new)) }
    ensures err_kept { OnErr result ((entries : List Record) → KeepsInForce in_force.old entries → KeepsInForce in_force.new entries) }
{
    let side = by_side(grant);
    by.push(side, slot)?;
    if let Err(refused) = in_force.push(grant, slot) {
        by.pop(&side);
        return Err(refused);
    }
    Ok(())
}

/// Forgets the ends that don't lie below the place.
fn reopen(records: &mut [Record], place: Place)
    ensures { records.new ≡ map (reopened place) records.old }
{
    for entry in records.iter_mut() {
        *entry = reopened(*entry, place);
    }
}

/// Ends the record of a slot.
fn end_one(
    records: &mut [Record],
    in_force: &mut GranteeIndex,
    last_end: &mut Option<Place>,
    end: &End,
)
    requires slot { end.now.slot < length records.old }
    requires kept { KeepsInForce in_force.old records.old }
    requires last { EndBy last_end.old records.old }
    ensures ended { records.new ≡ end_slot records.old end.now.slot end.now.place }
    ensures made { IsSame (made_under in_force.old) (made_under in_force.new) }
    ensures kept { KeepsInForce in_force.new records.new }
    ensures last { EndBy last_end.new records.new }
{
    in_force.end(&records[end.slot], end.slot, end.place);
    set_end(records, end.slot, end.place);
    *last_end = later(*last_end, Some(end.place));
}

/// Ends the records of the slots, one after the other.
fn end_each(
    records: &mut [Record],
    in_force: &mut GranteeIndex,
    last_end: &mut Option<Place>,
    ends: &[End],
)
    requires slots { All (λ (end : End). end.slot < length records.old) ends.now }
    requires kept { KeepsInForce in_force.old records.old }
    requires last { EndBy last_end.old records.old }
    ensures ended { records.new ≡ end_slots records.old ends.now }
    ensures made { IsSame (made_under in_force.old) (made_under in_force.new) }
    ensures kept { KeepsInForce in_force.new records.new }
    ensures last { EndBy last_end.new records.new }
{
    for end in ends {
        end_one(records, in_force, last_end, end);
    }
}

/// Whether the place, if there is one, lies below another.
fn ended_below(last_end: Option<Place>, place: Place) -> bool
    ensures { result ≡ true → (end : ℕ) → IsSomeAnd last_end (λ last. end ≤ last) → end < place }
{
    match last_end {
        Some(end) => end < place,
        None => true,
    }
}

/// Whether the last of the records, which are in order, is of a grant that was made below a place, or there is none.
fn made_below(records: &[Record], place: Place) -> bool
    requires { IsRising (recorded records.now) }
    ensures { result ≡ true → (slot : ℕ) (entry : Record) → slice_get records.now slot ≡ Some entry → entry.grant.place < place }
{
    match records.last() {
        Some(last) => last.grant.place < place,
        None => true,
    }
}

impl IndexedRecords {
    /// No records. It doesn't allocate.
    pub fn new(alloc: Global) -> Self
        ensures { result ≡ [] }
    {
        IndexedRecords::seeded(alloc, HashSeed::fixed())
    }

    /// No records, which are found under this seed. It doesn't allocate.
    pub fn seeded(alloc: Global, seed: HashSeed) -> Self
        ensures { result ≡ [] }
    {
        IndexedRecords::begun(alloc, seed, true)
    }

    /// No records, which are found under this seed. Those in force are not kept by themselves. It doesn't allocate.
    pub(crate) fn plain(alloc: Global, seed: HashSeed) -> Self
        ensures { result ≡ [] }
    {
        IndexedRecords::begun(alloc, seed, false)
    }

    /// No records, with or without an index of those in force.
    fn begun(alloc: Global, seed: HashSeed, is_whole: bool) -> Self
        ensures { result ≡ [] }
    {
        IndexedRecords {
            records: Vec::new(alloc),
            by: Index::seeded(alloc, seed),
            last_end: None,
            in_force: GranteeIndex::seeded(alloc, seed, is_whole),
        }
    }

    /// The records.
    pub fn as_slice(&self) -> &[Record]
        ensures { result.now ≡ self.now }
    {
        &self.records
    }

    /// Adds the record of a grant last, without an end. On `Err`, out of memory, the records are as they were.
    pub fn push(&mut self, grant: Grant) -> Result<(), AllocError>
        ensures ok { OnOk result (self.new ≡ self.old ++ unended grant ∷ []) }
        ensures err { OnErr result (self.new ≡ self.old) }
    {
        self.records.reserve(1)?;
        let slot = self.records.len();
        push_slot(&mut self.by, &mut self.in_force, &grant, slot)?;
        self.records.push_reserved(Record { grant, end: None });
        Ok(())
    }

    /// Ends records by their slots, one after the other.
    pub fn end(&mut self, ends: &[End])
        requires { All (λ (end : End). end.slot < length self.old) ends.now }
        ensures { self.new ≡ end_slots self.old ends.now }
    {
        end_each(
            &mut self.records,
            &mut self.in_force,
            &mut self.last_end,
            ends,
        );
    }

    /// Adds the records of grants last, and then ends records by their slots. On `Err`, out of memory, more records may be after
    /// those that were there.
    fn put(&mut self, grants: &[Grant], ends: &[End]) -> Result<(), AllocError>
        requires { All (λ (end : End). end.slot < length self.old + length grants.now) ends.now }
        ensures ok { OnOk result (self.new ≡ end_slots (self.old ++ map unended grants.now) ends.now) }
        ensures err { OnErr result (take (length self.old) self.new ≡ self.old) }
    {
        for grant in grants {
            self.push(*grant)?;
        }
        self.end(ends);
        Ok(())
    }

    /// Adds the records of grants last, without an end, and then ends records by their slots, one after the other. On `Err`
    /// memory ran out, and the records are as they were.
    pub fn extend(&mut self, grants: &[Grant], ends: &[End]) -> Result<(), AllocError>
        requires { All (λ (end : End). end.slot < length self.old + length grants.now) ends.now }
        ensures ok { OnOk result (self.new ≡ end_slots (self.old ++ map unended grants.now) ends.now) }
        ensures err { OnErr result (self.new ≡ self.old) }
    {
        let len = self.as_slice().len();
        match self.put(grants, ends) {
            Ok(()) => Ok(()),
            Err(refused) => {
                self.truncate(len);
                Err(refused)
            }
        }
    }

    /// Forgets the ends that don't lie below the place. It goes once through the records.
    pub fn reopen(&mut self, place: Place)
        ensures { self.new ≡ map (reopened place) self.old }
    {
        self.in_force.forget();
        reopen(&mut self.records, place);
    }

    /// Takes the last record away, if there is one.
    fn pop(&mut self)
        ensures shorter { self.new ≡ take (length self.old - 1) self.old }
    {
        if let Some(record) = self.records.pop() {
            self.in_force.pop(&record.grant);
            self.by.pop(&by_side(&record.grant));
        }
    }

    /// Takes the last records away, so that at most this many stay.
    pub fn truncate(&mut self, len: usize)
        ensures { self.new ≡ take len self.old }
    {
        while self.as_slice().len() > len {
            self.pop();
        }
    }

    /// The least slot at or above this one of a grant in force to the holder's grantee, of its kind on its table, and the last end of such
    /// a grant; of grants with the option, where it is asked for. It takes a time that grows with the logarithm of the number of those
    /// in force. None where that isn't known: after records or ends were taken back, or where memory ran out.
    pub fn next_in_force(&self, holder: Holder, option: bool, from: usize) -> Option<NextInForce>
        ensures { IfSome result (λ next.
            IsNextInForce (gives_to holder.grantee holder.kind holder.table option) self.now from next) }
    {
        self.in_force.next(&side_of(holder), option, from)
    }

    /// A slot such that no other has a grant in force to the holder's grantee, of its kind on its table. None where that isn't known, as in
    /// `next_in_force`, or where several may have one.
    pub fn only_in_force(&self, holder: Holder) -> Option<usize>
        ensures { IfSome result (λ only. IsOnly (λ k.
            is_in_force (gives_to holder.grantee holder.kind holder.table false) (slice_get self.now k)) only) }
    {
        self.in_force.only(&side_of(holder))
    }

    /// The least slot at or above this one of a grant in force by the user to the holder's grantee, of its kind on its table. It takes a
    /// time that grows with the logarithm of the number of those in force to the grantee. None where that isn't known, as in
    /// `next_in_force`.
    pub fn next_in_force_by(&self, user: User, holder: Holder, from: usize) -> Option<NextBy>
        ensures { IfSome result (λ next. IsFirst
            (λ k. is_in_force (gives_by user holder.grantee holder.kind holder.table) (slice_get self.now k)) from next.slot) }
    {
        self.in_force.next_by(&side_of(holder), user, from)
    }

    /// Whether each grant and each end of the records, which are in order, lies below a place. It looks at the last of each alone. Where it
    /// says no, some may not.
    pub fn lie_below(&self, place: Place) -> bool
        requires { IsRising (recorded self.now) }
        ensures { result ≡ true → (slot : ℕ) (entry : Record) → slice_get self.now slot ≡ Some entry → lies_below place entry ≡ true }
    {
        made_below(&self.records, place) && ended_below(self.last_end, place)
    }

    /// The least slot at or above this one whose grant is to the holder's grantee, of its kind on its table.
    pub fn next_to(&self, holder: Holder, from: usize) -> Option<usize>
        ensures { IsNext (is_to holder.grantee holder.kind holder.table) (recorded self.now) from result }
    {
        self.in_force.next_made(&side_of(holder), from)
    }

    /// The least slot at or above this one whose grant is by the user, of the kind on the table.
    pub fn next_by(&self, user: User, kind: Kind, table: Table, from: usize) -> Option<usize>
        ensures { IsNext (is_by user kind table) (recorded self.now) from result }
    {
        self.by.next(&side_by(user, kind, table), from)
    }
}
