//! The own words of a place.

ghost use Rattle.std.specs.Prelude.{◌≡◌, ◌<◌, ◌≤◌, ◌+◌, ◌*◌, ◌++◌, All, [], length};
ghost use Rattle.model_base.specs.declared.statement.Access.{Access};
ghost use Rattle.model_base.specs.Rows.{Rows};
ghost use Rattle.body.specs.Shown.{WindowShows};
ghost use Rattle.own_words.specs.Places.{own_words};
ghost use Rattle.evaluation.specs.Answering.{IsInput, IsShaped, columns_in};
ghost use Rattle.evaluation.specs.Judged.{ForShown, cells_at};

use crate::judging::judged;
use body::Window;
use grants::Records;
use log_batch::columns_in;
use model_base::{Access, MOST_ACCESSES, MOST_COLUMNS, Statement};
use own_words::OwnWords;

/// Appends the version cells to the other words: the window's row of each access that may change its row, in order.
fn push_cells(words: &mut OwnWords, columns: &[u8], accesses: &[Access], window: &Window)
    requires places { length accesses.now ≤ MOST_ACCESSES }
    requires room { length words.old ≤ 12 }
    requires narrow { All (λ count. count ≤ MOST_COLUMNS) columns.now }
    requires tables { All (λ (access : Access). access.key.table < length columns.now) accesses.now }
    requires shaped { IsShaped (columns_in columns.now) accesses.now window.now }
    ensures { (rows : Rows) → WindowShows accesses.now window.now rows
        → words.new ≡ words.old ++ cells_at (columns_in columns.now) accesses.now rows }
{
    for (place, access) in accesses.iter().enumerate() {
        if access.is_writing() {
            let count = columns_in(columns, access.key.table);
            words.push_row(count, window.row(place).as_ref());
        }
    }
}

/// Appends all own words of the statement of the view's place in the place of those that were there: those of its outcome, and after them
/// its version cells. The window shows the rows that the place finds, and the view the grants by which it is judged, for whatever log shows
/// these: its words are those that the serial run gives the place. The statement is judged by its user's privileges; if each is held its
/// body runs over the window, and the cells have the rows after a completed body. A place that isn't done leaves the rows that it found, so
/// its cells have these. Afterwards the window is of no further use. It doesn't allocate. No two accesses may name one key.
pub fn own_words<V: Records>(
    statement: &Statement,
    columns: &[u8],
    window: &mut Window,
    view: &mut V,
    words: &mut OwnWords,
)
    requires { IsInput statement.now columns.now window.old (V.shown view.old) }
    ensures value { ForShown statement.now window.old (V.shown view.old)
        (λ found. words.new ≡ own_words (columns_in columns.now) statement.now.form found) }
    ensures same { V.shown view.new ≡ V.shown view.old }
{
    let outcome = judged(statement, window, view);
    words.clear();
    words.put_header(&statement.form, &outcome);
    push_cells(words, columns, statement.accesses(), window);
}
