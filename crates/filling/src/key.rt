//! The constant data of a batch of a log, by which its places are filled.

ghost use Rattle.std.specs.Prelude.{◌≡◌, ◌<◌, IfOk, length, slice_index_or, true};
ghost use Rattle.std.specs.List.Sorted.{IsStrictlyIncreasing};
ghost use Rattle.std.specs.Option.{MatchOption};
ghost use Rattle.words.specs.Layout.{listed_slot_at};
ghost use Rattle.words.specs.Views.{In};
ghost use Rattle.model_base.specs.declared.reference.Reference.TheVariants.{Base};
ghost use Rattle.log_batch.specs.Supplied.{batch_of};
ghost use Rattle.log_batch.specs.Listing.{listed_slots};
ghost use Rattle.filling.specs.Numbers.{number_at};

use log_batch::{LogBatch, batches_of_logs_are_sound, ended_slots, word_of, words_length};
use model_base::{RecordName, Reference};
use std::alloc::{AllocError, Global};
use std::marker::Model;
use words::BatchData;

/// A range of a log as a batch, and in rising order the slots whose ends have words.
#[derive(Drop)]
pub struct RangeKey<'a> {
    batch: LogBatch<'a>,
    slots: Vec<usize>,
}

impl<'a> Model for RangeKey<'a> {
    ghost use Rattle.filling.specs.Keys.{IsKey, Key};

    ghost Value = { Key };

    ghost view = { λ key. record { batch = key.batch; slots = key.slots.items } };

    ghost invariant = { λ key. IsKey key.batch key.slots.items };
}

impl<'a> RangeKey<'a> {
    /// The key of a batch that has a place: its end words are those of the slots that it may end. An error means out of memory.
    pub fn of(alloc: Global, batch: LogBatch<'a>) -> Result<RangeKey<'a>, AllocError>
        requires { 0 < batch.size }
        ensures batch { IfOk result (λ key. key.batch ≡ batch.entry) }
        ensures slots { IfOk result (λ key. key.slots ≡ listed_slots (batch_of batch.entry)) }
    {
        let slots = ended_slots(alloc, &batch)?;
        Ok(RangeKey { batch, slots })
    }

    /// The batch.
    pub fn batch(&self) -> &LogBatch<'a>
        ensures { result.now ≡ self.now.batch }
    {
        &self.batch
    }

    /// The slots whose ends have words, in rising order.
    pub fn slots(&self) -> &[usize]
        ensures value { result.now ≡ self.now.slots }
        ensures order { IsStrictlyIncreasing self.now.slots }
    {
        self.slots.as_slice()
    }

    // The number of a slot in the list, if it is there. It doesn't allocate, and takes a time that grows with the logarithm of the length
    // of the list.
    pub(crate) fn number_of(&self, slot: usize) -> Option<usize>
        ensures { MatchOption result (¬ (In slot self.now.slots))
            (λ number. (number < length self.now.slots) × (listed_slot_at self.now.slots number ≡ slot)) }
    {
        self.slots().binary_search(&slot).ok()
    }

    // The number of the listed end of a record, if there is one, in such a time.
    pub(crate) fn number_at(&self, name: RecordName) -> Option<usize>
        ensures { result ≡ number_at (batch_of self.now.batch) self.now.slots name }
    {
        let _ends = self.ends();
        match self.batch().slot_of(name) {
            Some(slot) => self.number_of(slot),
            None => None,
        }
    }
}

// The reference of this number.
fn reference_at(references: &[Reference], number: usize) -> Reference
    requires { number < length references.now }
    ensures { result ≡ slice_index_or references.now number Base }
{
    references[number]
}

impl BatchData for RangeKey<'_> {
    ghost batch = { λ key. batch_of key.batch };

    ghost listed = { λ key. key.slots };

    ghost placed = { λ key. key.batch.placed };

    fn places(&self) -> usize {
        // A range of a log is a batch that the machine's law speaks of.
        batches_of_logs_are_sound();
        let _log = self.batch.log();
        let _first = self.batch.first_place();
        self.batch.size()
    }

    fn words_length(&self, index: usize) -> usize {
        words_length(&self.batch, index)
    }

    fn partitions(&self) -> usize {
        self.batch.partition_count()
    }

    fn references_length(&self, index: usize) -> usize {
        self.batch.references_length(index)
    }

    fn reference_word(&self, index: usize, number: usize) -> u64 {
        let references = self.batch.references_at(index);
        let first = self.batch.first_place();
        word_of(first, reference_at(references, number))
    }

    fn ends(&self) -> usize {
        // The grants of the slots are of places below the end of the batch, and a place makes few.
        let _first = self.batch.first_place();
        self.slots.len()
    }
}
