//! The places that workers left, one after another.

ghost use Rattle.std.specs.Prelude.{◌≡◌, IfOk, OnOk};
ghost use Rattle.log_batch.specs.Supplied.{batch_of};
ghost use Rattle.words.specs.Closing.{HasItsReferences, IsSettledBy};
ghost use Rattle.filling.specs.BatchProgress.{HasDone, IsDoneTo, NotesEndsOfDone};
ghost use Rattle.filling.specs.BookState.{IsBookState};
ghost use Rattle.filling.specs.Finished.{IsFinished};
ghost use Rattle.filling.specs.Known.{AreKnown};

use crate::completion::batch_progress::{BatchProgress, Completion};
use crate::completion::copying::{complete, take_ends};
use crate::completion::finished::Finished;
use crate::key::RangeKey;
use grants::Book;
use own_words::OwnWords;
use std::alloc::{AllocError, Global};
use words::Closed;

/// Completes all places, after what a closed batch has of those that are done.
fn complete_all(completion: &Completion<'_>, progress: &mut BatchProgress) -> Result<(), AllocError>
    requires closed { HasDone (batch_of completion.now.batch.now) completion.now.closed.now }
    requires references { HasItsReferences (batch_of completion.now.batch.now) completion.now.closed.now }
    requires done { NotesEndsOfDone (batch_of completion.now.batch.now) completion.now.closed.now progress.old.ends }
    requires stands { IsDoneTo (batch_of completion.now.batch.now) 0 progress.old }
    ensures { OnOk result (IsDoneTo (batch_of completion.now.batch.now) completion.now.batch.now.size progress.new) }
{
    let mut words = OwnWords::new();
    for index in 0..completion.batch.size() {
        complete(completion, index, progress, &mut words)?;
    }
    Ok(())
}

/// What a closed batch has of the places that are done.
fn taken(alloc: Global, key: &RangeKey<'_>, closed: &Closed) -> Result<BatchProgress, AllocError>
    requires { IsSettledBy (batch_of key.now.batch) key.now.slots closed.now }
    ensures done { IfOk result (λ progress. NotesEndsOfDone (batch_of key.now.batch) closed.now progress.ends) }
    ensures stands { IfOk result (λ progress. IsDoneTo (batch_of key.now.batch) 0 progress) }
{
    let mut progress = BatchProgress::new(alloc);
    take_ends(key, closed, &mut progress.ends)?;
    Ok(progress)
}

/// Completes a batch that no worker can reach any more, on this thread: what its words have of each place that is done is kept, and the
/// others are run, those among them that a worker held when it was dropped. All of it is placed, and the book is the one before it. An
/// error means out of memory.
pub fn finish(
    alloc: Global,
    book: &Book,
    key: &RangeKey<'_>,
    closed: &Closed,
) -> Result<Finished, AllocError>
    requires known { AreKnown key.now.batch.log.statements }
    requires stands { IsBookState key.now.batch.log.statements key.now.batch.first book.now }
    requires settled { IsSettledBy (batch_of key.now.batch) key.now.slots closed.now }
    requires references { HasItsReferences (batch_of key.now.batch) closed.now }
    ensures { IfOk result (λ done. IsFinished key.now.batch.log.statements key.now.batch.first key.now.batch.size
        book.now done) }
{
    let mut progress = taken(alloc, key, closed)?;
    let batch = key.batch();
    let completion = Completion {
        alloc,
        batch,
        closed,
    };
    complete_all(&completion, &mut progress)?;
    Finished::of(alloc, book, batch, &progress)
}
