//! Which places end records by the serial run.

ghost use Rattle.std.specs.Prelude.{◌≡◌, ◌<◌, ℕ, Some, false, true, length, slice_get};
ghost use Rattle.model_base.specs.Ranks.{rank};
ghost use Rattle.model_base.specs.declared.deed.Grant.{Grant};
ghost use Rattle.bohm_core_base.specs.Batch.{Batch, IsSoundBatch, batch_slots, was_done};
ghost use Rattle.bohm_core_base.specs.Laws.{EndsByRevocation};
ghost use Rattle.bohm_core_base.specs.Machine.{end_of, start};
ghost use Rattle.bohm_core_base.specs.Serial.{serial_ends, serial_words, whole_end};

/// A place that ends a record by the serial run has a revocation of the kind and on the table of the record's grant.
pub fn records_end_by_revocations()
    ensures { (batch : Batch) (index slot : ℕ)
        → IsSoundBatch batch → slot < length (batch_slots batch) → serial_ends batch index slot ≡ true → EndsByRevocation batch index slot }
{}

/// A record that no place of the batch ends by the serial run has after it the end that it has before the batch.
pub fn other_records_keep_their_ends()
    ensures { (batch : Batch) (slot : ℕ)
        → IsSoundBatch batch → slot < length (batch_slots batch) → ((index : ℕ) → serial_ends batch index slot ≡ false)
        → whole_end batch slot ≡ end_of (start batch) slot }
{}

/// A place that ends a record by the serial run is in the batch, and was done.
pub fn records_end_by_done_places()
    ensures { (batch : Batch) (index slot : ℕ)
        → IsSoundBatch batch → slot < length (batch_slots batch) → serial_ends batch index slot ≡ true
        → (index < batch.size) × (was_done (serial_words batch index) ≡ true) }
{}

/// The grants of slots are in the order of their ranks.
pub fn slots_stand_in_order()
    ensures { (batch : Batch) (slot other : ℕ) (grant later : Grant)
        → IsSoundBatch batch → slot < other → slice_get (batch_slots batch) slot ≡ Some grant
        → slice_get (batch_slots batch) other ≡ Some later
        → rank grant < rank later }
{}
