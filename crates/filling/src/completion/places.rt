//! A place of a batch run after those below it.

ghost use Rattle.std.specs.Prelude.{◌≡◌, ◌<◌, ◌+◌, ℕ, suc, true, IfOk, OnOk, Some, slice_get};
ghost use Rattle.model_base.specs.declared.deed.Grant.{Grant};
ghost use Rattle.model_base.specs.Ranks.{rank};
ghost use Rattle.bohm_core_base.specs.Batch.{batch_slots, was_done};
ghost use Rattle.bohm_core_base.specs.Serial.{serial_ends, serial_words};
ghost use Rattle.log_batch.specs.Supplied.{batch_of};
ghost use Rattle.filling.specs.Ends.{AreEndedBy, AreSerialEnds, KeepsNoted, NotesEndsOf, noted_end};
ghost use Rattle.filling.specs.BatchProgress.{ComesNext, IsDoneTo};

use crate::completion::batch_progress::{BatchProgress, Completion};
use crate::completion::below::Below;
use crate::completion::ends::Ends;
use bohm_core_base::records_end_by_done_places;
use evaluation::{ends_by_source, was_done, words_by_source};
use log_batch::LogBatch;
use model_base::RecordName;
use own_words::OwnWords;
use std::alloc::AllocError;

/// Writes the own words of a place in the place of those that were there.
fn judge_words(
    completion: &Completion<'_>,
    index: usize,
    progress: &BatchProgress,
    words: &mut OwnWords,
)
    requires next { ComesNext (batch_of completion.now.batch.now) completion.now.closed.now index progress.now }
    ensures { words.new ≡ serial_words (batch_of completion.now.batch.now) index }
{
    let place = Below::new(completion.batch, completion.closed, progress, index);
    let _ = words_by_source(completion.batch, place, words);
}

/// The names of the records that a place ends that was done.
fn judged_ends(
    completion: &Completion<'_>,
    index: usize,
    progress: &BatchProgress,
) -> Result<Vec<RecordName>, AllocError>
    requires next { ComesNext (batch_of completion.now.batch.now) completion.now.closed.now index progress.now }
    requires done { was_done (serial_words (batch_of completion.now.batch.now) index) ≡ true }
    ensures { IfOk result (λ names. AreEndedBy (batch_of completion.now.batch.now) index names.items) }
{
    let place = Below::new(completion.batch, completion.closed, progress, index);
    let (_, names) = ends_by_source(completion.alloc, completion.batch, place);
    names
}

/// Tells that a record ended at the place of an index.
fn note_end(
    batch: &LogBatch<'_>,
    name: RecordName,
    index: usize,
    ends: &mut Ends,
) -> Result<(), AllocError>
    requires within { index < batch.now.size }
    requires ends { (slot : ℕ) (grant : Grant) → slice_get (batch_slots (batch_of batch.now)) slot ≡ Some grant
        → rank grant ≡ name → serial_ends (batch_of batch.now) index slot ≡ true }
    requires told { AreSerialEnds (batch_of batch.now) ends.old }
    ensures told { OnOk result (AreSerialEnds (batch_of batch.now) ends.new) }
    ensures kept { OnOk result (KeepsNoted ends.old ends.new) }
    ensures found { OnOk result ((slot : ℕ) (grant : Grant) → slice_get (batch_slots (batch_of batch.now)) slot ≡ Some grant
        → rank grant ≡ name → noted_end ends.new slot ≡ Some (batch.now.first + index)) }
{
    let end = batch.first_place() + index as u64;
    if let Some(slot) = batch.slot_of(name) {
        ends.tell(slot, end)?;
    }
    Ok(())
}

/// Tells all ends that a place of an index sets: those of these records.
fn note_ends(
    batch: &LogBatch<'_>,
    names: &[RecordName],
    index: usize,
    ends: &mut Ends,
) -> Result<(), AllocError>
    requires within { index < batch.now.size }
    requires ends { AreEndedBy (batch_of batch.now) index names.now }
    requires told { AreSerialEnds (batch_of batch.now) ends.old }
    ensures told { OnOk result (AreSerialEnds (batch_of batch.now) ends.new) }
    ensures kept { OnOk result (KeepsNoted ends.old ends.new) }
    ensures all { OnOk result (NotesEndsOf (batch_of batch.now) index ends.new) }
{
    for name in names {
        note_end(batch, *name, index, ends)?;
    }
    Ok(())
}

/// Tells the ends that a place with these own words sets.
fn judge_ends(
    completion: &Completion<'_>,
    index: usize,
    progress: &mut BatchProgress,
    words: &[u64],
) -> Result<(), AllocError>
    requires next { ComesNext (batch_of completion.now.batch.now) completion.now.closed.now index progress.old }
    requires words { words.now ≡ serial_words (batch_of completion.now.batch.now) index }
    ensures told { OnOk result (AreSerialEnds (batch_of completion.now.batch.now) progress.new.ends) }
    ensures kept { OnOk result (KeepsNoted progress.old.ends progress.new.ends) }
    ensures all { OnOk result (NotesEndsOf (batch_of completion.now.batch.now) index progress.new.ends) }
    ensures words { OnOk result (progress.new.words ≡ progress.old.words) }
{
    records_end_by_done_places();
    let batch = completion.batch;
    let _log = batch.log();
    if was_done(words) {
        let names = judged_ends(completion, index, progress)?;
        note_ends(batch, names.as_slice(), index, &mut progress.ends)?;
    }
    Ok(())
}

/// Runs a place after those below it. Its own words are gathered together in the room that is lent. An error means out of memory.
pub(crate) fn judge(
    completion: &Completion<'_>,
    index: usize,
    progress: &mut BatchProgress,
    words: &mut OwnWords,
) -> Result<(), AllocError>
    requires next { ComesNext (batch_of completion.now.batch.now) completion.now.closed.now index progress.old }
    ensures stands { OnOk result (IsDoneTo (batch_of completion.now.batch.now) (suc index) progress.new) }
    ensures kept { OnOk result (KeepsNoted progress.old.ends progress.new.ends) }
{
    judge_words(completion, index, progress, words);
    judge_ends(completion, index, progress, words.as_slice())?;
    progress.words.push(words.as_slice())?;
    Ok(())
}
