//! A book of grants, and the plain one in which the same is done.

use crate::driver::is_refused;
use crate::extending::extend;
use grants::{Book, RecordBook};
use model_base::{Grant, Place, RecordName, Revocation, Table, User};
use std::alloc::Global;
use trials_base::{
    Attempt, PlainBook, TrialFault, beside, enter, give, grant_of, revocation_of, take,
};

/// A book, and the plain one in which the same is done.
#[derive(Drop)]
pub struct Both {
    pub book: Book,
    pub plain: PlainBook,
}

/// What the books say has to be the same.
pub fn expect(same: bool) -> Attempt<()> {
    same.then_some(()).ok_or(TrialFault::Differs)
}

/// Makes the deeds of an extension.
fn enter_and_take(alloc: Global, plain: &mut PlainBook, place: Place) -> Attempt<()> {
    let table = Table(plain.tables().len() as u32);
    plain.add_table(User(0), place)?;
    let grant = Grant {
        table,
        ..grant_of(place.saturating_add(1), (0, 1), true)
    };
    plain.grant(grant)?;
    let taken = Revocation {
        table,
        ..revocation_of(place.saturating_add(2), (0, 1))
    };
    plain.revoke(alloc, &taken)?;
    Ok(())
}

/// What both books made of a deed, of which the plain one isn't what is tried.
fn agreed(made: Attempt<()>, other: Attempt<()>) -> Attempt<()> {
    if is_refused(&other) {
        return Err(TrialFault::Beside);
    }
    expect(made.is_ok() == other.is_ok())?;
    made
}

/// The names of records as text.
fn names_text(alloc: Global, names: &[RecordName]) -> Attempt<String> {
    beside(format!(in alloc; "{names:?}"))
}

/// The places of records, whose names have to be those that the plain book ends.
pub fn agreed_names(alloc: Global, names: &[RecordName], others: &[RecordName]) -> Attempt<String> {
    expect(names_text(alloc, names)? == names_text(alloc, others)?)?;
    let places = names.iter().map(|name| name.place);
    let places = beside(places.collect::<Vec<Place>>(alloc))?;
    beside(format!(in alloc; "{places:?}"))
}

impl Both {
    /// Two books without tables.
    pub fn new(alloc: Global) -> Self {
        Both {
            book: Book::new(alloc),
            plain: PlainBook::new(alloc),
        }
    }

    /// Whether both have the same tables and records.
    pub fn are_same(&self) -> bool {
        self.book.tables() == self.plain.tables() && self.book.records() == self.plain.records()
    }

    /// Adds a table of user 0.
    pub fn enter(&mut self, place: Place) -> Attempt<()> {
        let made = enter(&mut self.book, place);
        if is_refused(&made) {
            return made;
        }
        agreed(made, self.plain.add_table(User(0), place))
    }

    /// Makes a grant, whose grantor holds the option.
    pub fn give(&mut self, grant: &Grant) -> Attempt<()> {
        let made = give(&mut self.book, *grant);
        if is_refused(&made) {
            return made;
        }
        agreed(made, self.plain.grant(*grant))
    }

    /// Makes a revocation, and says which records end.
    pub fn take(&mut self, alloc: Global, taken: &Revocation) -> Attempt<String> {
        let ended = take(alloc, &mut self.book, taken)?;
        let others = beside(self.plain.revoke(alloc, taken))?;
        agreed_names(alloc, &ended, &others)
    }

    /// Adds a table with a grant on it and the end of the grant: in the plain book by three deeds.
    pub fn extend(&mut self, alloc: Global, place: Place) -> Attempt<()> {
        extend(&mut self.book, place)?;
        beside(enter_and_take(alloc, &mut self.plain, place))
    }

    /// Forgets what was done from a place on.
    pub fn cut(&mut self, place: Place) {
        self.book.cut(place);
        self.plain.cut(place);
    }
}
