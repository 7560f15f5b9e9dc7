//! The lines that explain needs.

ghost use Rattle.std.specs.Prelude.{◌≡◌, ◌<◌, ℕ, All, IfOk, List, length};
ghost use Rattle.model_base.specs.declared.deed.Deed.{Deed};
ghost use Rattle.model_base.specs.declared.deed.Need.{Need};
ghost use Rattle.grants_base.specs.Book.{ShowsBook};
ghost use Rattle.explain.specs.ExplainedNeeds.{explaining_lines, tells_held};

use crate::line::{Line, Shown};
use crate::shown::explain_need;
use grants::Book;
use model_base::{Need, Place, User};
use std::alloc::{AllocError, Global};

/// Whether it is shown that the need is held.
pub fn tells_held(shown: &Shown) -> bool
    ensures { result ≡ tells_held shown.now }
{
    match shown {
        Shown::Owner | Shown::Grants(_) => true,
        Shown::Never | Shown::Taken(..) => false,
    }
}

/// The lines that explain needs of a user before a place, in order: one for each, up to and with the first that isn't held. Each costs what
/// `explain_need` does. An error means out of memory.
pub fn explain_needs(
    alloc: Global,
    book: &Book,
    place: Place,
    user: User,
    needs: &[Need],
) -> Result<Vec<Line>, AllocError>
    requires covered { All (λ (need : Need). need.table < length book.now.tables) needs.now }
    ensures { IfOk result (λ lines. (owners : List ℕ) (deeds : List Deed) → ShowsBook book.now owners deeds
        → lines.items ≡ explaining_lines owners deeds place user needs.now) }
{
    let mut lines = Vec::new(alloc);
    for need in needs {
        let shown = explain_need(alloc, book, place, user, need)?;
        let held = tells_held(&shown);
        lines.push(Line { need: *need, shown })?;
        if !held {
            return Ok(lines);
        }
    }
    Ok(lines)
}
