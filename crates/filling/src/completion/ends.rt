//! Which records of grants a batch has ended so far, and at which of its places.

ghost use Rattle.std.specs.Prelude.{◌≡◌, ◌==◌, ◌<◌, ◌+◌, ◌++◌, ◌∷◌, [], ℕ, IfOk, None, OnOk, Some, length, slice_index_or, if◌then◌else◌};
ghost use Rattle.bohm_core_base.specs.Batch.{rank_at, batch_slots};
ghost use Rattle.bohm_core_base.specs.Serial.{serial_ends};
ghost use Rattle.log_batch.specs.Laws.{ranks_that};
ghost use Rattle.log_batch.specs.Supplied.{batch_of};

use log_batch::LogBatch;
use model_base::{Place, RecordName};
use std::alloc::{AllocError, Global};
use std::collections::BTreeMap;
use std::marker::Model;

/// Lists of names of records, one for each place of a batch by its index.
#[derive(Drop)]
pub(crate) struct Groups {
    lists: Vec<Vec<RecordName>>,
}

impl Model for Groups {
    ghost use Rattle.std.specs.Prelude.{List, ℕ};
    ghost use Rattle.filling.specs.Ends.{ended_lists};

    ghost Value = { List (List ℕ) };

    ghost view = { λ groups. ended_lists groups.lists.items };
}

impl Groups {
    ghost use Rattle.std.specs.Prelude.{replicate, slice_set};

    /// This many lists, each of them empty.
    fn new(alloc: Global, count: usize) -> Result<Self, AllocError>
        ensures { IfOk result (λ groups. groups ≡ replicate count []) }
    {
        let mut lists = Vec::with_capacity(alloc, count)?;
        for index in 0..count {
            lists.push(Vec::new(alloc))?;
        }
        Ok(Groups { lists })
    }

    /// The list of an index; past the last it is empty.
    pub(crate) fn at(&self, index: usize) -> &[RecordName]
        ensures { result.now ≡ slice_index_or self.now index [] }
    {
        if index < self.lists.len() {
            self.lists[index].as_slice()
        } else {
            &[]
        }
    }

    /// Appends the name to the others of an index, if there is a list for it. On `Err`, out of memory.
    fn push(&mut self, index: usize, name: RecordName) -> Result<(), AllocError>
        ensures { OnOk result (self.new ≡ slice_set self.old index (slice_index_or self.old index [] ++ name ∷ [])) }
    {
        if index < self.lists.len() {
            let list = &mut self.lists[index];
            list.push(name)?;
        }
        Ok(())
    }
}

/// The ends that are known of the records of slots.
#[derive(Drop)]
pub(crate) struct Ends {
    places: BTreeMap<usize, Place>,
}

/// Appends the name of a slot's record to the others that ended at the same place, if that is one of the batch.
fn put_ended(
    batch: &LogBatch<'_>,
    slot: usize,
    end: Place,
    groups: &mut Groups,
) -> Result<(), AllocError>
    requires { slot < length (batch_slots (batch_of batch.now)) }
    ensures put { OnOk result ((index : ℕ) → index < length groups.old
        → slice_index_or groups.new index [] ≡ slice_index_or groups.old index []
        ++ (if end == batch.now.first + index then rank_at (batch_of batch.now) slot ∷ [] else [])) }
    ensures many { OnOk result (length groups.new ≡ length groups.old) }
{
    let first = batch.first_place();
    if end >= first {
        groups.push((end - first) as usize, batch.grant(slot).name())?;
    }
    Ok(())
}

impl Ends {
    ghost use Rattle.filling.specs.Ends.{AreSerialEnds, NotesOneMore, NotesEndsOf, noted_end};

    /// None. It doesn't allocate.
    pub(crate) fn new(alloc: Global) -> Self
        ensures { (slot : ℕ) → noted_end result slot ≡ None }
    {
        Ends {
            places: BTreeMap::new(alloc),
        }
    }

    /// The end that is known of a slot's record.
    pub(crate) fn of(&self, slot: usize) -> Option<Place>
        ensures { result ≡ noted_end self.now slot }
    {
        self.places.get(&slot).copied()
    }

    /// Tells the end of a slot's record. On `Err`, out of memory.
    pub(crate) fn tell(&mut self, slot: usize, end: Place) -> Result<(), AllocError>
        ensures { OnOk result (NotesOneMore slot end self.old self.new) }
    {
        self.places.insert(slot, end)?;
        Ok(())
    }

    /// For each place of the batch the names of the records that ended there, in the order of their slots. An error means out of
    /// memory.
    pub(crate) fn by_place(&self, alloc: Global, batch: &LogBatch<'_>) -> Result<Groups, AllocError>
        requires told { AreSerialEnds (batch_of batch.now) self.now }
        requires all { (index : ℕ) → index < batch.now.size → NotesEndsOf (batch_of batch.now) index self.now }
        ensures { IfOk result (λ groups. (index : ℕ) → index < batch.now.size
            → slice_index_or groups index [] ≡ ranks_that (serial_ends (batch_of batch.now) index) 0 (batch_slots (batch_of batch.now))) }
    {
        let mut groups = Groups::new(alloc, batch.size())?;
        for (slot, end) in self.places.iter() {
            put_ended(batch, *slot, *end, &mut groups)?;
        }
        Ok(groups)
    }
}
