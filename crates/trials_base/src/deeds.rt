//! Deeds on table 0, which are made in a book once each condition was tested.

ghost use Rattle.std.specs.Prelude.{◌≡◌, ◌<◌, Decides, IsTrue, length};
ghost use Rattle.model_base.specs.Privileges.{option_of};
ghost use Rattle.grants_base.specs.Book.{IsLater, view_of};
ghost use Rattle.grants_base.specs.View.{holds_in};

use crate::fault::{Attempt, TrialFault};
use grants::{Book, RecordBook, Records, ViewOf, holds_option};
use grants_base::lies_below;
use model_base::{
    Grant, Grantee, Grantees, Kind, Kinds, Place, Position, RecordName, Revocation, Table, User,
};
use std::alloc::Global;

pub const TABLE: Table = Table(0);

/// A grant of READ on the table at a place, by the first user to the second.
pub fn grant_of(place: Place, users: (u32, u32), option: bool) -> Grant
    ensures place { result.place ≡ place }
    ensures grantor { result.grantor ≡ users.0 }
{
    let (grantor, grantee) = users;
    Grant {
        place,
        grantor: User(grantor),
        grantee: Grantee::User(User(grantee)),
        position: Position::First,
        kind: Kind::Read,
        table: TABLE,
        option,
    }
}

/// The revocation of such grants.
pub fn revocation_of(place: Place, users: (u32, u32)) -> Revocation {
    let (grantor, grantee) = users;
    Revocation {
        place,
        grantor: User(grantor),
        grantees: Grantees::of(Grantee::User(User(grantee))),
        kinds: Kinds::only(Kind::Read),
        table: TABLE,
    }
}

/// Whether the place lies above those of all tables, grants and ends of a book.
#[tactic(auto, using(grants::proofs::LaterLaws::decides_later))]
pub(crate) fn is_later<B: RecordBook>(book: &B, place: Place) -> bool
    ensures { Decides result (IsLater (B.contents book.now) place) }
{
    book.tables().iter().all(|creation| creation.place < place)
        && book
            .records()
            .iter()
            .all(|record| lies_below(record, place))
}

/// Whether a grant may come last in a book: its grantor holds the option.
pub(crate) fn may_come<B: RecordBook>(book: &B, grant: &Grant) -> bool
    ensures later { IsTrue result → IsLater (B.contents book.now) grant.now.place }
    ensures table { IsTrue result → grant.now.table < length (B.contents book.now).tables }
    ensures held { IsTrue result
        → IsTrue (holds_in (view_of (B.contents book.now) grant.now.place) grant.now.grantor (option_of grant.now)) }
{
    let place = grant.place;
    let mut view = ViewOf { book, place };
    is_later(book, place)
        && view.covers(grant.table)
        && holds_option(&mut view, grant.grantor, grant.kind, grant.table)
}

/// Adds a table of user 0.
pub fn enter(book: &mut Book, place: Place) -> Attempt<()> {
    if !book.is_later(place) || book.tables().len() >= 65_536 {
        return Err(TrialFault::Call);
    }
    book.add_table(User(0), place)?;
    Ok(())
}

/// Makes a grant, whose grantor holds the option.
pub fn give(book: &mut Book, grant: Grant) -> Attempt<()> {
    if !may_come(book, &grant) {
        return Err(TrialFault::Call);
    }
    Ok(book.grant(grant)?)
}

/// Makes a revocation, and returns the records that end.
pub fn take(alloc: Global, book: &mut Book, taken: &Revocation) -> Attempt<Vec<RecordName>> {
    if !book.is_later(taken.place) || book.tables().len() <= taken.table.0 as usize {
        return Err(TrialFault::Call);
    }
    Ok(book.revoke(alloc, taken)?)
}
