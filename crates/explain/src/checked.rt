//! Whether lines explain needs.

ghost use Rattle.std.specs.Prelude.{◌≡◌, ◌<◌, ℕ, All, Decides, List, length};
ghost use Rattle.model_base.specs.declared.deed.Deed.{Deed};
ghost use Rattle.model_base.specs.declared.deed.Need.{Need};
ghost use Rattle.grants_base.specs.Book.{ShowsBook};
ghost use Rattle.explain.specs.ExplainedNeeds.{AreSound, Explains};

use crate::explained::tells_held;
use crate::line::Line;
use crate::shown::is_sound;
use grants::Book;
use model_base::{Need, Place, User};

/// Whether the line is of the need, and what it shows holds. It doesn't allocate.
pub fn explains(book: &Book, place: Place, user: User, need: &Need, line: &Line) -> bool
    requires covered { need.now.table < length book.now.tables }
    ensures { (owners : List ℕ) (deeds : List Deed) → ShowsBook book.now owners deeds
        → Decides result (Explains owners deeds place user need.now line.now) }
{
    line.need == *need && is_sound(book, place, user, need, &line.shown)
}

/// Whether the lines explain needs of a user before a place: they are of these needs in order, all if all are held, else up to and with the
/// first that isn't, and what each shows holds, whether or not the chains of grants that it names are the paths. It doesn't allocate.
pub fn are_sound(book: &Book, place: Place, user: User, needs: &[Need], lines: &[Line]) -> bool
    requires covered { All (λ (need : Need). need.table < length book.now.tables) needs.now }
    ensures { (owners : List ℕ) (deeds : List Deed) → ShowsBook book.now owners deeds
        → Decides result (AreSound owners deeds place user needs.now lines.now) }
{
    for i in 0..needs.len() {
        if lines.len() <= i {
            return false;
        }
        let line = &lines[i];
        if !explains(book, place, user, &needs[i], line) {
            return false;
        }
        if !tells_held(&line.shown) {
            return lines.len() == i + 1;
        }
    }
    lines.len() == needs.len()
}
