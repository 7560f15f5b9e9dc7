//! The book of grants: each grant that was made, with its end.

ghost use Rattle.std.specs.Prelude.{Decides, ◌+◌, ◌≡◌, ◌<◌, ◌++◌, ◌∷◌, [], true, ℕ, List, All, IfOk, IsTrue, OnErr, OnOk, Some, length, map, slice_get};
ghost use Rattle.model_base.specs.declared.deed.Deed.TheVariants.{Granting, Revoking};
ghost use Rattle.model_base.specs.declared.deed.Deed.{Deed};
ghost use Rattle.model_base.specs.declared.deed.Grant.{Grant};
ghost use Rattle.model_base.specs.Privileges.{deeds_below, ended_by, option_of, place_of};
ghost use Rattle.model_base.specs.Ranks.{deed_number, rank};
ghost use Rattle.model_base.specs.Records.{ended_at, recorded};
ghost use Rattle.model_base.specs.declared.deed.Record.{Record};
ghost use Rattle.grants_base.specs.declared.entries.End.{End};
ghost use Rattle.grants_base.specs.declared.entries.Creation.{Creation};

use crate::cascade::cascade;
use crate::ended::Ended;
use crate::view::{BookView, RecordBook, ViewOf};
use grants_base::{
    Creation, End, Holder, IndexedRecords, append_tables, lies_below, records_below, tables_below,
};
use model_base::{
    Grant, HashSeed, Kind, MOST_NAMES, Place, Record, RecordName, Revocation, Table, User,
};
use std::alloc::{AllocError, Global};
use std::marker::Model;

/// The tables in the order of their creation, and a record of each grant that was made on them, with its end, in order. No grant is
/// dropped and none is kept twice: a repeated grant is kept with its own place, as R. Fagin found that it must ("On an Authorization
/// Mechanism", ACM TODS 3, 1978). The grants of a user are found by an index, so no call goes through those of others.
#[derive(Drop)]
pub struct Book {
    tables: Vec<Creation>,
    records: IndexedRecords,
}

impl Model for Book {
    ghost use Rattle.grants_base.specs.Book.{Entries, IsSoundBook};

    ghost Value = { Entries };

    ghost view = { λ book. record { tables = book.tables.items; records = book.records } };

    ghost invariant = { λ book. IsSoundBook (record { tables = book.tables.items; records = book.records }) };
}

impl Book {
    ghost use Rattle.grants_base.specs.Book.{Continues, IsLater, IsNextRecord, IsSoundBook, ShowsBook, cut_book, end_slots, extended, lies_below, owners_of, table_of_deed, view_of, with_ends, with_grant, with_table};
    ghost use Rattle.grants_base.specs.View.{ShowsDeeds, holds_in};

    /// A book without tables and grants. It doesn't allocate.
    pub fn new(alloc: Global) -> Self
        ensures tables { result.tables ≡ [] }
        ensures records { result.records ≡ [] }
    {
        Book::seeded(alloc, HashSeed::fixed())
    }

    /// A book without tables and grants, whose grants are found under this seed. It doesn't allocate.
    #[tactic(auto, using(crate::proofs::BookLaws::sound_empty))]
    pub fn seeded(alloc: Global, seed: HashSeed) -> Self
        ensures tables { result.tables ≡ [] }
        ensures records { result.records ≡ [] }
    {
        Book {
            tables: Vec::new(alloc),
            records: IndexedRecords::seeded(alloc, seed),
        }
    }

    /// The tables, each with its owner and the place of its creation.
    pub fn tables(&self) -> &[Creation]
        ensures tables { result.now ≡ self.now.tables }
        ensures sound { IsSoundBook self.now }
    {
        &self.tables
    }

    /// The records of the grants that were made, each with its end, in order.
    pub fn records(&self) -> &[Record]
        ensures records { result.now ≡ self.now.records }
        ensures sound { IsSoundBook self.now }
    {
        self.records.as_slice()
    }

    /// Adds a table last, which its creator owns, and returns its number. The place has to lie above all of the book. On `Err` memory was
    /// refused, and the book is as it was.
    #[tactic(auto, using(crate::proofs::BookLaws::sound_table, crate::proofs::LaterLaws::later_table))]
    pub fn add_table(&mut self, owner: User, place: Place) -> Result<Table, AllocError>
        requires room { length self.old.tables < MOST_NAMES }
        requires later { IsLater self.old place }
        ensures number { IfOk result (λ table. table ≡ length self.old.tables) }
        ensures ok { OnOk result (self.new ≡ with_table self.old (record { owner = owner; place = place })) }
        ensures after { OnOk result ((owners more : List ℕ) (deeds : List Deed) → ShowsBook self.old owners deeds
            → owners ≡ owners_of self.new.tables ++ more → ShowsBook self.new owners deeds) }
        ensures later { OnOk result ((next : ℕ) → place < next → IsLater self.new next) }
        ensures err { OnErr result (self.new ≡ self.old) }
    {
        let number = self.tables.len();
        self.tables.push(Creation { owner, place })?;
        Ok(Table(number as u32))
    }

    /// Adds a grant last. The rank has to lie above those of all grants of the book, which may have its place, and the place above all
    /// tables and ends; the table has to be one of the book's, and the grantor to hold the kind with the option by what was made below the
    /// place, as `holds_option` says by the book's view. It takes a time that grows with the logarithm of the number of grants in force of
    /// its kind on its table to its grantee, on average. On `Err`, out of memory, the book is as it was.
    #[tactic(auto, using(crate::proofs::GrantLaws::shows_grant))]
    pub fn grant(&mut self, grant: Grant) -> Result<(), AllocError>
        requires later { IsNextRecord self.old grant }
        requires table { grant.table < length self.old.tables }
        requires held { IsTrue (holds_in (view_of self.old grant.place) grant.grantor (option_of grant)) }
        ensures ok { OnOk result (self.new ≡ with_grant self.old grant) }
        ensures after { OnOk result ((owners : List ℕ) (deeds : List Deed) → ShowsBook self.old owners deeds
            → All (λ deed. deed_number deed < rank grant) deeds → ShowsBook self.new owners (deeds ++ Granting grant ∷ [])) }
        ensures next { OnOk result ((next : Grant) → rank grant < rank next → IsNextRecord self.new next) }
        ensures later { OnOk result ((next : ℕ) → grant.place < next → IsLater self.new next) }
        ensures err { OnErr result (self.new ≡ self.old) }
    {
        self.records.push(grant)?;
        Ok(())
    }

    /// The book at a place: the grants made below it, with the ends that lie below it, on all tables of the book. It doesn't allocate.
    #[tactic(auto, using(crate::proofs::SeenLaws::shows_view))]
    pub fn at(&self, place: Place) -> BookView<'_>
        ensures book { result.book.now ≡ self.now }
        ensures place { result.place ≡ place }
        ensures shows { (owners : List ℕ) (deeds : List Deed) → ShowsBook self.now owners deeds
            → ShowsDeeds (view_of self.now place) owners (deeds_below place deeds) }
    {
        ViewOf { book: self, place }
    }

    /// What the revocation takes out of force: the ends of these grants, and the names of their records.
    fn cascade(&self, alloc: Global, revocation: &Revocation) -> Result<Ended, AllocError>
        requires later { IsLater self.now revocation.now.place }
        requires table { revocation.now.table < length self.now.tables }
        ensures ended { IfOk result (λ ended. (owners : List ℕ) (deeds : List Deed) → ShowsBook self.now owners deeds
            → All (λ deed. place_of deed < revocation.now.place) deeds → ended.ranks ≡ ended_by owners deeds revocation.now) }
        ensures slots { IfOk result (λ ended. All (λ (end : End). end.slot < length self.now.records) ended.ends) }
        ensures value { IfOk result (λ ended. end_slots self.now.records ended.ends
            ≡ map (ended_at revocation.now.place ended.ranks) self.now.records) }
    {
        // A book is sound, as its accessors say, and so each rank has one record.
        let _tables = self.tables();
        let mut view = self.at(revocation.place);
        let ended = cascade(alloc, &mut view, revocation)?;
        Ok(ended)
    }

    /// Ends the grants that the revocation takes out of force, at its place, and returns the names of their records in order. The place has
    /// to lie above all of the book, and the table to be one of its tables. It costs what `to_end` does on the book's view, and for each
    /// grant that ends the logarithm of the number of these and of the grants in force of its kind on its table to its grantee. On `Err`
    /// memory ran out, and the book is as it was.
    pub fn revoke(
        &mut self,
        alloc: Global,
        revocation: &Revocation,
    ) -> Result<Vec<RecordName>, AllocError>
        requires later { IsLater self.old revocation.now.place }
        requires table { revocation.now.table < length self.old.tables }
        ensures ended { IfOk result (λ ends. (owners : List ℕ) (deeds : List Deed) → ShowsBook self.old owners deeds
            → All (λ deed. place_of deed < revocation.now.place) deeds → ends.items ≡ ended_by owners deeds revocation.now) }
        ensures ok { IfOk result (λ ends. self.new ≡ with_ends self.old revocation.now.place ends.items) }
        ensures after { OnOk result ((owners : List ℕ) (deeds : List Deed) → ShowsBook self.old owners deeds
            → All (λ deed. place_of deed < revocation.now.place) deeds
            → ShowsBook self.new owners (deeds ++ Revoking revocation.now ∷ [])) }
        ensures later { OnOk result ((next : ℕ) → revocation.now.place < next → IsLater self.new next) }
        ensures err { OnErr result (self.new ≡ self.old) }
    {
        let ended = self.cascade(alloc, revocation)?;
        self.records.end(ended.ends());
        Ok(ended.into_names())
    }

    /// Whether the place lies above those of all tables, grants and ends of the book. It looks once at each, so it is there for who can't
    /// know it otherwise: after `add_table`, `grant` and `revoke` their clauses `later` say it.
    #[tactic(auto, using(crate::proofs::LaterLaws::decides_later))]
    pub fn is_later(&self, place: Place) -> bool
        ensures { Decides result (IsLater self.now place) }
    {
        self.tables().iter().all(|creation| creation.place < place)
            && self
                .records()
                .iter()
                .all(|record| lies_below(record, place))
    }

    /// Adds tables and grants after the others, the grants without an end, and then ends records by their slots. What is so built
    /// has to be a book. Where the book showed some deeds, and the grants and ends are what more deeds make of their records, it then shows
    /// them all. Each table costs a time that doesn't grow with their number, on average, each grant and each end the logarithm of the number
    /// of grants in force of its kind on its table to its grantee. On `Err`, out of memory, the book is as it was.
    pub fn extend(
        &mut self,
        tables: &[Creation],
        grants: &[Grant],
        ends: &[End],
    ) -> Result<(), AllocError>
        requires slots { All (λ (end : End). end.slot < length self.old.records + length grants.now) ends.now }
        requires sound { IsSoundBook (extended self.old tables.now grants.now ends.now) }
        ensures ok { OnOk result (self.new ≡ extended self.old tables.now grants.now ends.now) }
        ensures shows { OnOk result ((owners others : List ℕ) (deeds more : List Deed) → ShowsBook self.old owners deeds
            → Continues others deeds more (self.old.tables ++ tables.now) grants.now ends.now → ShowsBook self.new others (deeds ++ more)) }
        ensures err { OnErr result (self.new ≡ self.old) }
    {
        self.tables.reserve(tables.len())?;
        self.records.extend(grants, ends)?;
        append_tables(&mut self.tables, tables);
        Ok(())
    }

    /// Forgets the tables, grants and ends of the place and of later ones. It doesn't allocate, and goes once through the records.
    pub fn cut(&mut self, place: Place)
        ensures cut { self.new ≡ cut_book place self.old }
        ensures after { (owners others more : List ℕ) (deeds : List Deed) → ShowsBook self.old owners deeds
            → All (λ deed. table_of_deed deed < length self.new.tables) (deeds_below place deeds)
            → others ≡ owners_of self.new.tables ++ more → ShowsBook self.new others (deeds_below place deeds) }
    {
        let tables = tables_below(&self.tables, place);
        let records = records_below(self.records.as_slice(), place);
        self.records.reopen(place);
        self.records.truncate(records);
        self.tables.truncate(tables);
    }
}

impl RecordBook for Book {
    ghost contents = { λ book. book };

    fn tables(&self) -> &[Creation] {
        &self.tables
    }

    fn records(&self) -> &[Record] {
        self.records.as_slice()
    }

    fn next_to(&self, holder: Holder, from: usize) -> Option<usize> {
        self.records.next_to(holder, from)
    }

    fn next_by(&self, user: User, kind: Kind, table: Table, from: usize) -> Option<usize> {
        self.records.next_by(user, kind, table, from)
    }

    fn indexed_below(&self, place: Place) -> Option<&IndexedRecords> {
        // A book is sound, as its accessors say, and so its records are in order.
        let _tables = self.tables();
        if self.records.lie_below(place) {
            Some(&self.records)
        } else {
            None
        }
    }
}
