//! What the places of a finished batch change in a book of grants.

ghost use Rattle.std.specs.Prelude.{◌≡◌, ◌<◌, ◌+◌, ◌++◌, [], true, All, OnOk, Some, length, map};
ghost use Rattle.model_base.specs.Outcomes.{outcome};
ghost use Rattle.model_base.specs.Privileges.{is_among};
ghost use Rattle.model_base.specs.Laws.{IsGranting, IsRising};
ghost use Rattle.model_base.specs.Records.{ended_at, grants_of, in_force, recorded};
ghost use Rattle.grants_base.specs.Book.{extended};
ghost use Rattle.grants_base.specs.declared.entries.End.{End};
ghost use Rattle.own_words.specs.Words.{creates, ended_in, ranks_ended_by};
ghost use Rattle.filling.specs.BookState.{is_completed};
ghost use Rattle.filling.specs.Changes.{AreChanges};
ghost use Rattle.filling.specs.Known.{AreKnown};

use crate::completion::finished::Finished;
use crate::slots::slot_of;
use grants::Book;
use grants_base::{Creation, End};
use log_batch::LogBatch;
use model_base::{Deed, DeedDone, Deeds, Form, Grant, Outcome, Place, RecordName};
use std::alloc::AllocError;

/// Whether the statement creates a table.
pub fn creates(form: &Form) -> bool
    ensures { result ≡ creates form.now }
{
    matches!(form, Form::Create { .. })
}

/// Whether the outcome is that of a completed transaction.
fn is_done(outcome: &Outcome) -> bool
    ensures { result ≡ is_completed outcome.now }
{
    matches!(outcome, Outcome::Done { .. })
}

/// The records of the grants that deeds ended.
fn ended_by(deed: &DeedDone) -> &[RecordName]
    ensures { result.now ≡ ranks_ended_by deed.now }
{
    match deed {
        DeedDone::Revoked(names) => names.as_slice(),
        DeedDone::None | DeedDone::Granted => &[],
    }
}

/// The records of the grants that a place ended.
fn ended_in(outcome: &Outcome) -> &[RecordName]
    ensures { result.now ≡ ended_in outcome.now }
{
    match outcome {
        Outcome::Done { deed, .. } => ended_by(deed),
        _ => &[],
    }
}

/// Appends the ends, at a place, of some records, whose grants are in force until then.
fn push_ends(
    ends: &mut Vec<End>,
    book: &Book,
    grants: &[Grant],
    ended: &[RecordName],
    place: Place,
) -> Result<(), AllocError>
    requires rising { IsRising (recorded book.now.records ++ grants.now) }
    requires open { All (λ ranked. is_among ranked (in_force (extended book.now [] grants.now ends.old.items).records) ≡ true) ended.now }
    ensures ends { OnOk result ((extended book.now [] grants.now ends.new.items).records
        ≡ map (ended_at place ended.now) (extended book.now [] grants.now ends.old.items).records) }
    ensures slots { OnOk result (All (λ (end : End). end.slot < length book.now.records + length grants.now) ends.old.items
        → All (λ (end : End). end.slot < length book.now.records + length grants.now) ends.new.items) }
{
    for name in ended {
        let slot = slot_of(book, grants, *name);
        ends.push(End { slot, place })?;
    }
    Ok(())
}

/// Appends the grants that are left, in order.
fn push_grants(grants: &mut Vec<Grant>, rest: &mut Deeds<'_>) -> Result<(), AllocError>
    requires { All IsGranting rest.old }
    ensures { OnOk result (grants.new.items ≡ grants.old.items ++ grants_of rest.old) }
{
    'grants: while let Some(Deed::Granting(grant)) = rest.next() {
        grants.push(grant)?;
    }
    Ok(())
}

/// Appends what a place of the batch changes in the book before the batch, after the changes of the places before it. On `Err`, out
/// of memory.
pub(crate) fn push_changes(
    done: &mut Finished,
    book: &Book,
    batch: &LogBatch<'_>,
    index: usize,
    came: &Outcome,
) -> Result<(), AllocError>
    requires within { index < batch.now.size }
    requires known { AreKnown batch.now.log.statements }
    requires came { outcome batch.now.log.statements (batch.now.first + index) ≡ Some came.now }
    requires before { AreChanges batch.now.log.statements batch.now.first index book.now
        done.old.tables.items done.old.grants.items done.old.ends.items }
    ensures changes { OnOk result (AreChanges batch.now.log.statements batch.now.first (index + 1) book.now
        done.new.tables.items done.new.grants.items done.new.ends.items) }
    ensures outcomes { OnOk result (done.new.outcomes ≡ done.old.outcomes) }
    ensures versions { OnOk result (done.new.versions ≡ done.old.versions) }
{
    let place = batch.first_place() + index as u64;
    let statement = batch.statement(index);
    if creates(&statement.form) {
        let owner = statement.user;
        done.tables.push(Creation { owner, place })?;
        return Ok(());
    }
    if !is_done(came) {
        return Ok(());
    }
    if statement.deed_table().is_none() {
        return Ok(());
    }
    match statement.revocation_at(place) {
        None => push_grants(&mut done.grants, &mut statement.deeds_at(place)),
        Some(revocation) => {
            let ended = ended_in(came);
            push_ends(
                &mut done.ends,
                book,
                done.grants.as_slice(),
                ended,
                revocation.place,
            )
        }
    }
}
