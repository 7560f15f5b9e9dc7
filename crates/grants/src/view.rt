//! Views of a book at a place.

ghost use Rattle.std.specs.Prelude.{◌≡◌, ℕ, IfSome, Some, slice_get, true};
ghost use Rattle.model_base.specs.Records.{recorded};
ghost use Rattle.model_base.specs.declared.deed.Record.{Record};
ghost use Rattle.grants_base.specs.Book.{Entries, IsSoundBook, lies_below};
ghost use Rattle.grants_base.specs.Index.{IsNext, is_by, is_to};

use crate::book::Book;
use grants_base::{Creation, Holder, IndexedRecords, NextBy, NextInForce, Records};
use model_base::{Grant, Kind, Place, Record, Table, User};

/// What a view of a book at a place reads: the tables, the records, and how these are found.
pub trait RecordBook {
    ghost contents: { Self → Entries };

    /// The tables, each with its owner and the place of its creation.
    fn tables(&self) -> &[Creation]
        ensures tables { result.now ≡ (contents self.now).tables }
        ensures sound { IsSoundBook (contents self.now) };

    /// The records of the grants that were made, each with its end, in order.
    fn records(&self) -> &[Record]
        ensures { result.now ≡ (contents self.now).records };

    /// The least slot at or above this one whose grant is to the holder's grantee, of its kind on its table.
    fn next_to(&self, holder: Holder, from: usize) -> Option<usize>
        ensures { IsNext (is_to holder.grantee holder.kind holder.table) (recorded (contents self.now).records) from result };

    /// The least slot at or above this one whose grant is by the user, of the kind on the table.
    fn next_by(&self, user: User, kind: Kind, table: Table, from: usize) -> Option<usize>
        ensures { IsNext (is_by user kind table) (recorded (contents self.now).records) from result };

    /// The records with their indexes, if the book keeps any, and each grant and each end lies below the place. It looks at the last of
    /// each alone, and so there may be none where they do.
    fn indexed_below(&self, place: Place) -> Option<&IndexedRecords>
        ensures { IfSome result (λ indexed. (indexed.now ≡ (contents self.now).records)
            × ((slot : ℕ) (entry : Record) → slice_get (contents self.now).records slot ≡ Some entry → lies_below place entry ≡ true)) }
    {
        let _place = place;
        None
    }
}

/// A book at a place.
#[derive_where(Clone, Copy)]
pub struct ViewOf<'a, B: RecordBook> {
    pub book: &'a B,
    pub place: Place,
}

/// A `Book` at a place.
pub type BookView<'a> = ViewOf<'a, Book>;

impl<B: RecordBook> Records for ViewOf<'_, B> {
    ghost use Rattle.grants_base.specs.Book.{view_of};

    ghost shown = { λ view. view_of (B.contents view.book.now) view.place };

    ghost asked = { λ view. recorded (B.contents view.book.now).records };

    #[tactic(auto, using(crate::proofs::SeenLaws::lawful_view))]
    fn at(&self) -> Place {
        // A book is sound, as its accessors say, and so its view is lawful.
        let _tables = self.book.tables();
        self.place
    }

    fn covers(&self, table: Table) -> bool {
        (table.0 as usize) < self.book.tables().len()
    }

    fn owner(&self, table: Table) -> User {
        self.book.tables()[table.0 as usize].owner
    }

    fn slots(&self) -> usize {
        self.book.records().len()
    }

    fn grant(&mut self, i: usize) -> Option<Grant> {
        let record = &self.book.records()[i];
        (record.grant.place < self.place).then_some(record.grant)
    }

    fn end(&mut self, i: usize) -> Option<Place> {
        let record = &self.book.records()[i];
        record
            .end
            .filter(|end| record.grant.place < self.place && *end < self.place)
    }

    fn next_to(&mut self, holder: Holder, from: usize) -> Option<usize> {
        self.book.next_to(holder, from)
    }

    fn next_by(&mut self, user: User, kind: Kind, table: Table, from: usize) -> Option<usize> {
        self.book.next_by(user, kind, table, from)
    }

    fn next_in_force(&mut self, holder: Holder, option: bool, from: usize) -> Option<NextInForce> {
        match self.book.indexed_below(self.place) {
            Some(records) => records.next_in_force(holder, option, from),
            None => None,
        }
    }

    fn kept_in_force(&mut self, holder: Holder, option: bool) -> Option<NextInForce> {
        self.next_in_force(holder, option, 0)
    }

    fn only_in_force(&mut self, holder: Holder) -> Option<usize> {
        match self.book.indexed_below(self.place) {
            Some(records) => records.only_in_force(holder),
            None => None,
        }
    }

    fn next_in_force_by(&mut self, user: User, holder: Holder, from: usize) -> Option<NextBy> {
        match self.book.indexed_below(self.place) {
            Some(records) => records.next_in_force_by(user, holder, from),
            None => None,
        }
    }
}
