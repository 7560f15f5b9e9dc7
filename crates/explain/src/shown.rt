//! What there is to show of a need, and whether what is shown holds.

ghost use Rattle.std.specs.Prelude.{◌≡◌, ◌<◌, ℕ, Decides, IfOk, List, None, Some, length, if◌then◌else◌};
ghost use Rattle.model_base.specs.Privileges.{owns};
ghost use Rattle.model_base.specs.declared.deed.Deed.{Deed};
ghost use Rattle.grants_base.specs.Book.{ShowsBook};
ghost use Rattle.explain.specs.Lines.{IsSound, cause_before, holds_before, shown_of};

use crate::grant_chains::{is_chain, owner_of};
use crate::line::{Line, Shown};
use crate::paths::path_at;
use grants::{Book, denial};
use model_base::{Cause, Need, Place, Table, User};
use std::alloc::{AllocError, Global};

/// Whether the user owns the table.
fn owns(book: &Book, user: User, table: Table) -> bool
    requires covered { table < length book.now.tables }
    ensures { (owners : List ℕ) (deeds : List Deed) → ShowsBook book.now owners deeds → result ≡ owns owners user table }
{
    owner_of(book, table) == user
}

/// Why the user doesn't hold what is needed before a place, or `None` where it is held.
fn denial_at(book: &Book, place: Place, user: User, need: &Need) -> Option<Cause>
    requires covered { need.now.table < length book.now.tables }
    ensures { (owners : List ℕ) (deeds : List Deed) → ShowsBook book.now owners deeds
        → result ≡ (if holds_before owners deeds place user need.now then None else Some (cause_before owners deeds place user need.now)) }
{
    let mut view = book.at(place);
    denial(&mut view, user, need)
}

/// What there is to show of a need before a place: that its user owns the table; else the path by which the need is held; else when it was
/// lost last, and the path by which it was held until then, or that it never was held. It takes the time of `denial` and of `path_at`. An
/// error means out of memory.
pub fn explain_need(
    alloc: Global,
    book: &Book,
    place: Place,
    user: User,
    need: &Need,
) -> Result<Shown, AllocError>
    requires covered { need.now.table < length book.now.tables }
    ensures { IfOk result (λ shown. (owners : List ℕ) (deeds : List Deed) → ShowsBook book.now owners deeds
        → shown ≡ shown_of owners deeds place user need.now) }
{
    if owns(book, user, need.table) {
        return Ok(Shown::Owner);
    }
    match denial_at(book, place, user, need) {
        None => {
            let path = path_at(alloc, book, place, user, need)?;
            Ok(Shown::Grants(path))
        }
        Some(Cause::Never) => Ok(Shown::Never),
        Some(Cause::Taken(lost)) => {
            let path = path_at(alloc, book, lost, user, need)?;
            Ok(Shown::Taken(lost, path))
        }
    }
}

/// Whether what is shown of the need before a place holds, whether or not the chains that it names are the paths. It doesn't allocate.
pub fn is_sound(book: &Book, place: Place, user: User, need: &Need, shown: &Shown) -> bool
    requires covered { need.now.table < length book.now.tables }
    ensures { (owners : List ℕ) (deeds : List Deed) → ShowsBook book.now owners deeds
        → Decides result (IsSound owners deeds place user need.now shown.now) }
{
    match shown {
        Shown::Owner => owns(book, user, need.table),
        Shown::Grants(names) => is_chain(book, place, user, need, names.as_slice()),
        Shown::Never => denial_at(book, place, user, need) == Some(Cause::Never),
        Shown::Taken(lost, names) => {
            denial_at(book, place, user, need) == Some(Cause::Taken(*lost))
                && is_chain(book, *lost, user, need, names.as_slice())
        }
    }
}
