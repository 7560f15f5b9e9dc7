//! The book of grants as two plain lists, without indexes: to compare the book with.

ghost use Rattle.std.specs.Prelude.{◌==◌, filter, nat_lt, ◌≡◌, ◌<◌, [], ℕ, List, All, IfOk, OnErr, OnOk, length, map};
ghost use Rattle.std.specs.List.{list_any};
ghost use Rattle.model_base.specs.declared.deed.Deed.{Deed};
ghost use Rattle.model_base.specs.Privileges.{deeds_below, ended_by, place_of};
ghost use Rattle.model_base.specs.Records.{ended_at, recorded};
ghost use Rattle.grants_base.specs.Index.{IsNext, is_by, is_to};
ghost use Rattle.grants_base.specs.Book.{reopened};
ghost use Rattle.grants_base.specs.declared.entries.Creation.{Creation};
ghost use Rattle.model_base.specs.declared.deed.Record.{Record};

use crate::deeds::{is_later, may_come};
use crate::fault::{Attempt, TrialFault};
use grants::{Creation, Holder, RecordBook, ViewOf, is_by, is_to, to_end};
use grants_base::reopened;
use model_base::{Grant, Kind, Place, Record, RecordName, Revocation, Table, User};
use std::alloc::{AllocError, Global};
use std::marker::Model;

/// What a `Book` has, as two plain lists. Its calls go through the lists, and refuse a deed that a `Book` may not be given.
#[derive(Drop)]
pub struct PlainBook {
    tables: Vec<Creation>,
    records: Vec<Record>,
}

impl Model for PlainBook {
    ghost use Rattle.grants_base.specs.Book.{Entries, IsSoundBook};

    ghost Value = { Entries };

    ghost view = { λ book. record { tables = book.tables.items; records = book.records.items } };

    ghost invariant = { λ book. IsSoundBook (record { tables = book.tables.items; records = book.records.items }) };
}

impl PlainBook {
    ghost use Rattle.grants_base.specs.Book.{ShowsBook, cut_book, view_of, with_ends, with_grant, with_table};
    ghost use Rattle.grants_base.specs.View.{ShowsDeeds};

    /// A book without tables and grants.
    #[tactic(auto, using(grants::proofs::BookLaws::sound_empty))]
    pub fn new(alloc: Global) -> Self
        ensures tables { result.tables ≡ [] }
        ensures records { result.records ≡ [] }
    {
        PlainBook {
            tables: Vec::new(alloc),
            records: Vec::new(alloc),
        }
    }

    /// The book at a place: the grants made below it, with the ends that lie below it, on all tables of the book.
    #[tactic(auto, using(grants::proofs::SeenLaws::shows_view))]
    pub fn at(&self, place: Place) -> ViewOf<'_, PlainBook>
        ensures book { result.book.now ≡ self.now }
        ensures place { result.place ≡ place }
        ensures shows { (owners : List ℕ) (deeds : List Deed) → ShowsBook self.now owners deeds
            → ShowsDeeds (view_of self.now place) owners (deeds_below place deeds) }
    {
        ViewOf { book: self, place }
    }

    /// Adds a table last, which its creator owns.
    #[tactic(auto, using(grants::proofs::BookLaws::sound_table))]
    pub fn add_table(&mut self, owner: User, place: Place) -> Attempt<()>
        ensures ok { OnOk result (self.new ≡ with_table self.old (record { owner = owner; place = place })) }
        ensures err { OnErr result (self.new ≡ self.old) }
    {
        if !is_later(self, place) || self.tables.len() >= 65_536 {
            return Err(TrialFault::Call);
        }
        self.tables.push(Creation { owner, place })?;
        Ok(())
    }

    /// Adds a grant last, whose grantor holds the option.
    pub fn grant(&mut self, grant: Grant) -> Attempt<()>
        ensures ok { OnOk result (self.new ≡ with_grant self.old grant) }
        ensures err { OnErr result (self.new ≡ self.old) }
    {
        if !may_come(self, &grant) {
            return Err(TrialFault::Call);
        }
        self.records.push(Record { grant, end: None })?;
        Ok(())
    }

    /// The names of the records that the revocation takes out of force.
    fn to_end(&self, alloc: Global, revocation: &Revocation) -> Result<Vec<RecordName>, AllocError>
        requires table { revocation.now.table < length self.now.tables }
        ensures { IfOk result (λ ends. (owners : List ℕ) (deeds : List Deed) → ShowsBook self.now owners deeds
            → All (λ deed. place_of deed < revocation.now.place) deeds → ends.items ≡ ended_by owners deeds revocation.now) }
    {
        let ended = to_end(alloc, &mut self.at(revocation.place), revocation)?;
        Ok(ended)
    }

    /// Ends the grants that the revocation takes out of force, at its place, and returns the names of their records in order.
    pub fn revoke(&mut self, alloc: Global, revocation: &Revocation) -> Attempt<Vec<RecordName>>
        ensures ended { IfOk result (λ ends. (owners : List ℕ) (deeds : List Deed) → ShowsBook self.old owners deeds
            → All (λ deed. place_of deed < revocation.now.place) deeds → ends.items ≡ ended_by owners deeds revocation.now) }
        ensures ok { IfOk result (λ ends. self.new ≡ with_ends self.old revocation.now.place ends.items) }
        ensures err { OnErr result (self.new ≡ self.old) }
    {
        if !is_later(self, revocation.place) || self.tables.len() <= revocation.table.0 as usize {
            return Err(TrialFault::Call);
        }
        let ended = self.to_end(alloc, revocation)?;
        close(&mut self.records, revocation.place, &ended);
        Ok(ended)
    }

    /// Forgets the tables, grants and ends of the place and of later ones.
    pub fn cut(&mut self, place: Place)
        ensures { self.new ≡ cut_book place self.old }
    {
        retain_tables(&mut self.tables, place);
        retain_records(&mut self.records, place);
        reopen(&mut self.records, place);
    }
}

/// Keeps the tables that were created below the place.
fn retain_tables(tables: &mut Vec<Creation>, place: Place)
    ensures { tables.new.items ≡ filter (λ (creation : Creation). nat_lt creation.place place) tables.old.items }
{
    tables.retain(|creation| creation.place < place);
}

/// Keeps the records of the grants that were made below the place.
fn retain_records(records: &mut Vec<Record>, place: Place)
    ensures { records.new.items ≡ filter (λ (entry : Record). nat_lt entry.grant.place place) records.old.items }
{
    records.retain(|record| record.grant.place < place);
}

/// Forgets the ends that don't lie below the place.
fn reopen(records: &mut [Record], place: Place)
    ensures { records.new ≡ map (reopened place) records.old }
{
    for entry in records.iter_mut() {
        *entry = reopened(*entry, place);
    }
}

/// Whether the name is one of these.
fn is_listed(names: &[RecordName], own: RecordName) -> bool
    ensures { result ≡ list_any (λ ranked. ranked == own) names.now }
{
    names.iter().any(|name| name.is_same(own))
}

/// The record, ended at this place if it has no end and is one of these.
fn ended_at(entry: Record, place: Place, ended: &[RecordName]) -> Record
    ensures { result ≡ ended_at place ended.now entry }
{
    if entry.end.is_some() {
        return entry;
    }
    if !is_listed(ended, entry.grant.name()) {
        return entry;
    }
    Record {
        grant: entry.grant,
        end: Some(place),
    }
}

/// Ends those of these records that have no end.
fn close(records: &mut [Record], place: Place, ended: &[RecordName])
    ensures { records.new ≡ map (ended_at place ended.now) records.old }
{
    for entry in records.iter_mut() {
        *entry = ended_at(*entry, place, ended);
    }
}

/// The least index at or above this one whose record is of a grant to the holder's grantee, of its kind on its table.
fn first_to(records: &[Record], holder: &Holder, from: usize) -> Option<usize>
    ensures { IsNext (is_to holder.now.grantee holder.now.kind holder.now.table) (recorded records.now) from result }
{
    for i in from..records.len() {
        if is_to(&records[i].grant, *holder) {
            return Some(i);
        }
    }
    None
}

/// The least index at or above this one whose record is of a grant by this user, of this kind on this table.
fn first_by(records: &[Record], user: User, kind: Kind, table: Table, from: usize) -> Option<usize>
    ensures { IsNext (is_by user kind table) (recorded records.now) from result }
{
    for i in from..records.len() {
        if is_by(&records[i].grant, user, kind, table) {
            return Some(i);
        }
    }
    None
}

impl RecordBook for PlainBook {
    ghost contents = { λ book. book };

    fn tables(&self) -> &[Creation] {
        &self.tables
    }

    fn records(&self) -> &[Record] {
        &self.records
    }

    fn next_to(&self, holder: Holder, from: usize) -> Option<usize> {
        first_to(&self.records, &holder, from)
    }

    fn next_by(&self, user: User, kind: Kind, table: Table, from: usize) -> Option<usize> {
        first_by(&self.records, user, kind, table, from)
    }
}
