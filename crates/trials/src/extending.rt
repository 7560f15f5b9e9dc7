//! A book of grants extended at once.

ghost use Rattle.std.specs.Prelude.{◌≡◌, ◌<◌, OnErr, length};
ghost use Rattle.grants_base.specs.Book.{IsLater};

use grants::{Book, Creation, End};
use model_base::{Grant, MOST_PLACES, Place, Table, User};
use std::alloc::AllocError;
use trials_base::{Attempt, TrialFault, grant_of};

/// Appends a table and a grant of its owner to the others, and ends the grant at a place.
fn extended(
    book: &mut Book,
    creation: &Creation,
    grant: &Grant,
    place: Place,
) -> Result<(), AllocError>
    requires later { IsLater book.old creation.now.place }
    requires room { length book.old.tables < 65536 }
    requires table { grant.now.table ≡ length book.old.tables }
    requires grantor { grant.now.grantor ≡ creation.now.owner }
    requires place { creation.now.place < grant.now.place }
    requires end { grant.now.place < place }
    ensures { OnErr result (book.new ≡ book.old) }
{
    // A book is sound, as its accessors say.
    let _tables = book.tables();
    let slot = book.records().len();
    book.extend(&[*creation], &[*grant], &[End { slot, place }])
}

/// Appends to a book a table of user 0 at a place, its grant of READ to user 1 at the next, and the end of the grant at the one after.
pub fn extend(book: &mut Book, place: Place) -> Attempt<()> {
    let number = book.tables().len();
    if !book.is_later(place) || number >= 65_536 || place >= MOST_PLACES {
        return Err(TrialFault::Call);
    }
    let creation = Creation {
        owner: User(0),
        place,
    };
    let grant = Grant {
        table: Table(number as u32),
        ..grant_of(place + 1, (0, 1), true)
    };
    Ok(extended(book, &creation, &grant, place + 2)?)
}
