//! What a closed batch has of the places that are done.

ghost use Rattle.std.specs.Prelude.{◌≡◌, ◌<◌, ℕ, None, suc, IfOk, OnOk, length};
ghost use Rattle.bohm_core_base.specs.Batch.{batch_slots};
ghost use Rattle.bohm_core_base.specs.Serial.{serial_words};
ghost use Rattle.log_batch.specs.Supplied.{batch_of};
ghost use Rattle.words.specs.Layout.{optional_word};
ghost use Rattle.words.specs.Closing.{IsSettledBy, claim_in};
ghost use Rattle.filling.specs.Ends.{AreSerialEnds, NotesWord, noted_end};
ghost use Rattle.filling.specs.BatchProgress.{ComesNext, HasDone, IsDoneTo, NotesEndsOfDone};

use crate::completion::batch_progress::{BatchProgress, Completion};
use crate::completion::ends::Ends;
use crate::completion::places::judge;
use crate::key::RangeKey;
use log_batch::{LogBatch, words_length};
use model_base::Place;
use own_words::OwnWords;
use std::alloc::AllocError;
use words::{BatchData, Closed, DONE};

/// Tells the end of a slot's record, if it has one.
fn take_end(slot: usize, end: Option<Place>, ends: &mut Ends) -> Result<(), AllocError>
    ensures { OnOk result (NotesWord slot (optional_word end) ends.old ends.new) }
{
    if let Some(end) = end {
        ends.tell(slot, end)?;
    }
    Ok(())
}

/// Tells all ends that a closed batch has.
pub(crate) fn take_ends(
    key: &RangeKey<'_>,
    closed: &Closed,
    ends: &mut Ends,
) -> Result<(), AllocError>
    requires settled { IsSettledBy (batch_of key.now.batch) key.now.slots closed.now }
    requires none { (slot : ℕ) → noted_end ends.old slot ≡ None }
    ensures told { OnOk result (AreSerialEnds (batch_of key.now.batch) ends.new) }
    ensures done { OnOk result (NotesEndsOfDone (batch_of key.now.batch) closed.now ends.new) }
{
    let _listed = key.ends();
    for (number, slot) in key.slots().iter().enumerate() {
        take_end(*slot, closed.end(number), ends)?;
    }
    Ok(())
}

/// Writes the own words of a place that is done in a closed batch in the place of those that were there. It doesn't allocate.
fn copy_words(batch: &LogBatch<'_>, closed: &Closed, index: usize, words: &mut OwnWords)
    requires within { index < batch.now.size }
    requires closed { HasDone (batch_of batch.now) closed.now }
    requires done { claim_in closed.now index ≡ DONE }
    ensures { words.new ≡ serial_words (batch_of batch.now) index }
{
    let _log = batch.log();
    let count = words_length(batch, index);
    words.clear();
    for number in 0..count {
        words.push(closed.own(index, number));
    }
}

/// Completes a place after those below it: what a closed batch has of it if it is done there, or else it is run. Its own words are gathered
/// together in the room that is lent. An error means out of memory.
pub(crate) fn complete(
    completion: &Completion<'_>,
    index: usize,
    progress: &mut BatchProgress,
    words: &mut OwnWords,
) -> Result<(), AllocError>
    requires next { ComesNext (batch_of completion.now.batch.now) completion.now.closed.now index progress.old }
    requires closed { HasDone (batch_of completion.now.batch.now) completion.now.closed.now }
    requires done { NotesEndsOfDone (batch_of completion.now.batch.now) completion.now.closed.now progress.old.ends }
    ensures done { OnOk result (NotesEndsOfDone (batch_of completion.now.batch.now) completion.now.closed.now progress.new.ends) }
    ensures stands { OnOk result (IsDoneTo (batch_of completion.now.batch.now) (suc index) progress.new) }
{
    let closed = completion.closed;
    if closed.claim(index) != DONE {
        return judge(completion, index, progress, words);
    }
    copy_words(completion.batch, closed, index, words);
    progress.words.push(words.as_slice())?;
    Ok(())
}
