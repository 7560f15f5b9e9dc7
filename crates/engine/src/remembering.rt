//! A book of grants that remembers what it was asked for.

ghost use Rattle.std.specs.Prelude.{◌≡◌, ◌<◌, ◌++◌, ◌∷◌, [], ℕ, List, All, IfOk, IsTrue, OnErr, OnOk, length, ◌+◌};
ghost use Rattle.model_base.specs.declared.deed.Deed.TheVariants.{Granting, Revoking};
ghost use Rattle.model_base.specs.declared.deed.Deed.{Deed};
ghost use Rattle.model_base.specs.declared.deed.Grant.{Grant};
ghost use Rattle.model_base.specs.Outcomes.{needs};
ghost use Rattle.model_base.specs.Privileges.{ended_by, option_of, place_of};
ghost use Rattle.model_base.specs.Ranks.{deed_number, rank};
ghost use Rattle.grants_base.specs.declared.entries.End.{End};
ghost use Rattle.checker.specs.Admission.{admission};
ghost use Rattle.checker.specs.Missing.{Covers};

use crate::held::HeldNeeds;
use checker::{Admission, admit};
use grants::Book;
use grants_base::{Creation, End};
use model_base::{
    Grant, HashSeed, MOST_NAMES, Place, RecordName, Revocation, Statement, Table, User,
};
use std::alloc::{AllocError, Global};
use std::marker::Model;

/// A book of grants, with needs that were found held by it. As long as no grant is ended they needn't be looked up again.
#[derive(Drop)]
pub struct RememberingBook {
    book: Book,
    held: HeldNeeds,
}

impl Model for RememberingBook {
    ghost use Rattle.grants_base.specs.Book.{Entries};
    ghost use Rattle.engine.specs.Held.{AreHeld};

    ghost Value = { Entries };

    ghost view = { λ remembering. remembering.book };

    ghost invariant = { λ remembering. AreHeld remembering.book remembering.held };
}

impl RememberingBook {
    ghost use Rattle.grants_base.specs.Book.{IsLater, IsNextRecord, IsSoundBook, ShowsBook, cut_book, extended, owners_of, view_of, with_ends, with_grant, with_table};
    ghost use Rattle.grants_base.specs.View.{ShowsDeeds, holds_in};

    /// A book without tables and grants, of which nothing is remembered. It doesn't allocate.
    pub fn new(alloc: Global) -> Self
        ensures tables { result.tables ≡ [] }
        ensures records { result.records ≡ [] }
    {
        RememberingBook::seeded(alloc, HashSeed::fixed())
    }

    /// The same book, whose grants are found under this seed.
    pub fn seeded(alloc: Global, seed: HashSeed) -> Self
        ensures tables { result.tables ≡ [] }
        ensures records { result.records ≡ [] }
    {
        RememberingBook {
            book: Book::seeded(alloc, seed),
            held: HeldNeeds::new(alloc),
        }
    }

    /// The book itself.
    pub fn book(&self) -> &Book
        ensures { result.now ≡ self.now }
    {
        &self.book
    }

    /// Whether the statement is admitted at a place above all of the book, as `admit` gives by the book's view there. What is remembered as
    /// held isn't looked up. Where memory runs out nothing more is remembered.
    #[inline(always)]
    pub(crate) fn admit(&mut self, statement: &Statement, place: Place) -> Admission
        requires later { IsLater self.old place }
        requires covered { Covers (view_of self.old place) (needs statement.now.form) }
        ensures value { (owners : List ℕ) (deeds : List Deed) → ShowsDeeds (view_of self.old place) owners deeds
            → result ≡ admission owners deeds statement.now.user statement.now.form }
        ensures same { self.new ≡ self.old }
    {
        if self.held.has_all(statement) {
            return Admission::Admitted;
        }
        let admission = admit(statement, &mut self.book.at(place));
        if let Admission::Admitted = admission {
            self.held.remember(statement);
        }
        admission
    }

    /// Adds a table last, as `Book::add_table`.
    pub(crate) fn add_table(&mut self, owner: User, place: Place) -> Result<Table, AllocError>
        requires room { length self.old.tables < MOST_NAMES }
        requires later { IsLater self.old place }
        ensures ok { OnOk result (self.new ≡ with_table self.old (record { owner = owner; place = place })) }
        ensures after { OnOk result ((owners more : List ℕ) (deeds : List Deed) → ShowsBook self.old owners deeds
            → owners ≡ owners_of self.new.tables ++ more → ShowsBook self.new owners deeds) }
        ensures later { OnOk result ((next : ℕ) → place < next → IsLater self.new next) }
        ensures err { OnErr result (self.new ≡ self.old) }
    {
        self.book.add_table(owner, place)
    }

    /// Adds a grant last, as `Book::grant`. What is remembered stays held.
    pub(crate) fn grant(&mut self, grant: Grant) -> Result<(), AllocError>
        requires later { IsNextRecord self.old grant }
        requires table { grant.table < length self.old.tables }
        requires held { IsTrue (holds_in (view_of self.old grant.place) grant.grantor (option_of grant)) }
        ensures ok { OnOk result (self.new ≡ with_grant self.old grant) }
        ensures after { OnOk result ((owners : List ℕ) (deeds : List Deed) → ShowsBook self.old owners deeds
            → All (λ deed. deed_number deed < rank grant) deeds → ShowsBook self.new owners (deeds ++ Granting grant ∷ [])) }
        ensures next { OnOk result ((next : Grant) → rank grant < rank next → IsNextRecord self.new next) }
        ensures later { OnOk result ((next : ℕ) → grant.place < next → IsLater self.new next) }
        ensures err { OnErr result (self.new ≡ self.old) }
    {
        self.book.grant(grant)
    }

    /// Ends the grants that the revocation takes out of force, as `Book::revoke`. Nothing is remembered then.
    pub(crate) fn revoke(
        &mut self,
        alloc: Global,
        revocation: &Revocation,
    ) -> Result<Vec<RecordName>, AllocError>
        requires later { IsLater self.old revocation.now.place }
        requires table { revocation.now.table < length self.old.tables }
        ensures ended { IfOk result (λ ends. (owners : List ℕ) (deeds : List Deed) → ShowsBook self.old owners deeds
            → All (λ deed. place_of deed < revocation.now.place) deeds → ends.items ≡ ended_by owners deeds revocation.now) }
        ensures ok { IfOk result (λ ends. self.new ≡ with_ends self.old revocation.now.place ends.items) }
        ensures after { OnOk result ((owners : List ℕ) (deeds : List Deed) → ShowsBook self.old owners deeds
            → All (λ deed. place_of deed < revocation.now.place) deeds
            → ShowsBook self.new owners (deeds ++ Revoking revocation.now ∷ [])) }
        ensures later { OnOk result ((next : ℕ) → revocation.now.place < next → IsLater self.new next) }
        ensures err { OnErr result (self.new ≡ self.old) }
    {
        self.held.forget();
        self.book.revoke(alloc, revocation)
    }

    /// Appends tables and grants, and ends grants by their slots, as `Book::extend`. Nothing is remembered then.
    pub(crate) fn extend(
        &mut self,
        tables: &[Creation],
        grants: &[Grant],
        ends: &[End],
    ) -> Result<(), AllocError>
        requires slots { All (λ (end : End). end.slot < length self.old.records + length grants.now) ends.now }
        requires sound { IsSoundBook (extended self.old tables.now grants.now ends.now) }
        ensures ok { OnOk result (self.new ≡ extended self.old tables.now grants.now ends.now) }
        ensures err { OnErr result (self.new ≡ self.old) }
    {
        HeldNeeds::forget(&mut self.held);
        self.book.extend(tables, grants, ends)
    }

    /// Forgets the tables, grants and ends of the place and of later ones, as `Book::cut`, and all that is remembered.
    pub(crate) fn cut(&mut self, place: Place)
        ensures cut { self.new ≡ cut_book place self.old }
    {
        self.held.clear();
        self.book.cut(place);
    }
}
