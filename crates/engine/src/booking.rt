//! The book of grants, moved on over a place that is run.

ghost use Rattle.std.specs.Prelude.{◌≡◌, ◌≤◌, ◌+◌, ℕ, IfOk, OnOk};
ghost use Rattle.model_base.specs.Outcomes.{deed_done, deeds_of, owners, world_before};
ghost use Rattle.sequencer.specs.Log.{Accepted};
ghost use Rattle.grants_base.specs.Book.{cut_book};
ghost use Rattle.engine.specs.RunState.{AreOwnDeeds, IsBookState, IsCreating, IsMaking};

use crate::remembering::RememberingBook;
use model_base::{Deed, DeedDone, Deeds, Items, Place, Statement};
use std::alloc::{AllocError, Global};

/// Makes the grants of a place that are left in the book, one after another. On `Err`, out of memory.
#[inline(always)]
fn make_grants(
    book: &mut RememberingBook,
    place: Place,
    rest: &mut Deeds<'_>,
) -> Result<(), AllocError>
    ghost log: { Accepted }
    requires { IsMaking log.statements place rest.old book.old }
    ensures ok { OnOk result (IsBookState log.statements (place + 1) book.new) }
    ensures cut { (first : ℕ) → first ≤ place → cut_book first book.new ≡ cut_book first book.old }
{
    'grants: while let Some(Deed::Granting(grant)) = rest.next() {
        book.grant(grant)?;
    }
    Ok(())
}

/// Makes the deeds of a place in the book, one after another: its grants, or its one revocation. Returns what they resulted in. On `Err`,
/// out of memory.
#[inline(always)]
fn make(
    alloc: Global,
    book: &mut RememberingBook,
    place: Place,
    deeds: &mut Deeds<'_>,
) -> Result<DeedDone, AllocError>
    ghost log: { Accepted }
    requires { AreOwnDeeds log.statements place deeds.old book.old }
    ensures ok { OnOk result (IsBookState log.statements (place + 1) book.new) }
    ensures told { IfOk result (λ done. done
        ≡ deed_done (owners log.statements) (world_before log.statements place) deeds.old) }
    ensures cut { (first : ℕ) → first ≤ place → cut_book first book.new ≡ cut_book first book.old }
{
    match deeds.next() {
        None => Ok(DeedDone::None),
        Some(Deed::Granting(grant)) => {
            book.grant(grant)?;
            make_grants(book, place, deeds)?;
            Ok(DeedDone::Granted)
        }
        Some(Deed::Revoking(revocation)) => {
            let ended = book.revoke(alloc, &revocation)?;
            Ok(DeedDone::Revoked(Items::new(ended)))
        }
    }
}

/// Makes the deeds of a statement whose body completed in the book. Returns what they resulted in: at once, if it names none. On `Err`, out
/// of memory.
#[inline(always)]
pub(crate) fn make_deeds(
    alloc: Global,
    book: &mut RememberingBook,
    place: Place,
    statement: &Statement,
) -> Result<DeedDone, AllocError>
    ghost log: { Accepted }
    requires { AreOwnDeeds log.statements place (deeds_of place statement.now.user statement.now.form) book.old }
    ensures ok { OnOk result (IsBookState log.statements (place + 1) book.new) }
    ensures told { IfOk result (λ done. done ≡ deed_done (owners log.statements) (world_before log.statements place)
        (deeds_of place statement.now.user statement.now.form)) }
    ensures cut { (first : ℕ) → first ≤ place → cut_book first book.new ≡ cut_book first book.old }
{
    make(alloc, book, place, &mut statement.deeds_at(place))
}

/// Adds the table that a place creates to the book. On `Err`, out of memory.
pub(crate) fn create(
    book: &mut RememberingBook,
    place: Place,
    statement: &Statement,
) -> Result<(), AllocError>
    ghost log: { Accepted }
    requires { IsCreating log.statements place statement.now book.old }
    ensures ok { OnOk result (IsBookState log.statements (place + 1) book.new) }
    ensures cut { (first : ℕ) → first ≤ place → cut_book first book.new ≡ cut_book first book.old }
{
    book.add_table(statement.user, place)?;
    Ok(())
}
