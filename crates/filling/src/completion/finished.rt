//! What the places of a finished batch result in.

ghost use Rattle.std.specs.Prelude.{◌≡◌, ◌<◌, ◌+◌, ◌++◌, IfOk, OnOk, Some};
ghost use Rattle.model_base.specs.declared.outcome.Outcome.{Outcome};
ghost use Rattle.model_base.specs.Outcomes.{outcome};
ghost use Rattle.chains.specs.Store.{versions_at};
ghost use Rattle.own_words.specs.Places.{words_at};
ghost use Rattle.own_words.specs.Words.{ended_in};
ghost use Rattle.sequencer.specs.Whole.{columns_by};
ghost use Rattle.log_batch.specs.Supplied.{batch_of};
ghost use Rattle.filling.specs.BatchProgress.{IsDoneTo};

use crate::completion::batch_progress::BatchProgress;
use crate::completion::cells::push_versions;
use crate::completion::changes::push_changes;
use chains::Version;
use grants::Book;
use grants_base::{Creation, End};
use log_batch::{LogBatch, serial_ends_are_of_the_log, serial_words_are_of_the_log};
use model_base::{Grant, Items, Outcome, RecordName};
use own_words::{decoded, outputs_of, words_after};
use std::alloc::{AllocError, Global};

/// What the places of a batch result in: their outcomes, the versions of rows that they leave, the tables that they create, the
/// grants that they make, and the ends of grants, by slots in the book with the new grants appended. All are in order.
#[derive(Drop)]
pub struct Finished {
    pub outcomes: Vec<Outcome>,
    pub versions: Vec<Version>,
    pub tables: Vec<Creation>,
    pub grants: Vec<Grant>,
    pub ends: Vec<End>,
}

/// The outcome that the own words of a place give, with the records that its revocation ended.
#[tactic(auto, using(crate::proofs::Told::outcome_told))]
fn outcome_of(batch: &LogBatch<'_>, index: usize, own: &[u64], ended: Vec<RecordName>) -> Outcome
    requires within { index < batch.now.size }
    requires words { own.now ≡ words_at (columns_by batch.now.log.names) batch.now.log.statements (batch.now.first + index) }
    requires ended { (found : Outcome)
        → outcome batch.now.log.statements (batch.now.first + index) ≡ Some found → ended.items ≡ ended_in found }
    ensures { outcome batch.now.log.statements (batch.now.first + index) ≡ Some result }
{
    let _first = batch.first_place();
    let statement = batch.statement(index);
    decoded(&statement.form, own, Items::new(ended))
}

/// Appends the versions that a place leaves to the others, by its own words.
fn push_left(
    versions: &mut Vec<Version>,
    batch: &LogBatch<'_>,
    index: usize,
    own: &[u64],
) -> Result<(), AllocError>
    requires within { index < batch.now.size }
    requires words { own.now ≡ words_at (columns_by batch.now.log.names) batch.now.log.statements (batch.now.first + index) }
    ensures { OnOk result (versions.new.items
        ≡ versions.old.items ++ versions_at batch.now.log.statements (batch.now.first + index)) }
{
    let place = batch.first_place() + index as u64;
    let statement = batch.statement(index);
    let cells = words_after(own, 4 + outputs_of(&statement.form));
    push_versions(
        versions,
        batch.log().all_columns(),
        place,
        statement.accesses(),
        cells,
    )
}

impl Finished {
    ghost use Rattle.std.specs.Prelude.{ℕ, List, []};
    ghost use Rattle.model_base.specs.declared.statement.Statement.{Statement};
    ghost use Rattle.grants_base.specs.Book.{Entries, IsSoundBook};
    ghost use Rattle.filling.specs.BookState.{IsBookState};
    ghost use Rattle.filling.specs.Finished.{IsFinished};
    ghost use Rattle.filling.specs.Known.{AreKnown};

    /// What no place results in. It doesn't allocate.
    fn new(alloc: Global) -> Self
        ensures { (log : List Statement) (first : ℕ) (book : Entries) → IsBookState log first book → IsSoundBook book
            → IsFinished log first 0 book result }
    {
        Finished {
            outcomes: Vec::new(alloc),
            versions: Vec::new(alloc),
            tables: Vec::new(alloc),
            grants: Vec::new(alloc),
            ends: Vec::new(alloc),
        }
    }

    /// What the places of a completed batch result in, after the book before it. An error means out of memory.
    pub(crate) fn of(
        alloc: Global,
        book: &Book,
        batch: &LogBatch<'_>,
        progress: &BatchProgress,
    ) -> Result<Self, AllocError>
        requires known { AreKnown batch.now.log.statements }
        requires stands { IsBookState batch.now.log.statements batch.now.first book.now }
        requires done { IsDoneTo (batch_of batch.now) batch.now.size progress.now }
        ensures { IfOk result (λ done. IsFinished batch.now.log.statements batch.now.first batch.now.size book.now done) }
    {
        serial_words_are_of_the_log();
        serial_ends_are_of_the_log();
        // A book is sound, as its accessors say.
        let _tables = book.tables();
        let _log = batch.log();
        let ended = progress.ends.by_place(alloc, batch)?;
        let mut done = Finished::new(alloc);
        for index in 0..batch.size() {
            let own = progress.words.at(index);
            let names = Vec::from_slice(alloc, ended.at(index))?;
            let came = outcome_of(batch, index, own, names);
            push_changes(&mut done, book, batch, index, &came)?;
            push_left(&mut done.versions, batch, index, own)?;
            done.outcomes.push(came)?;
        }
        Ok(done)
    }
}
