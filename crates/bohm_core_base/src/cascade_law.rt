//! With which grants the grants of a batch fall.

ghost use Rattle.std.specs.Prelude.{◌≡◌, ◌<◌, ℕ, true, length};
ghost use Rattle.bohm_core_base.specs.Batch.{Batch, IsSoundBatch, batch_slots};
ghost use Rattle.bohm_core_base.specs.Cascades.{EndsByCascade};
ghost use Rattle.bohm_core_base.specs.Serial.{serial_ends};

/// A place that ends a record by the serial run has a revocation that names the record's grant, or it ends the record of an
/// earlier slot too, whose grant gave this one's grantor the option.
pub fn records_end_by_cascades()
    ensures { (batch : Batch) (index slot : ℕ)
        → IsSoundBatch batch → slot < length (batch_slots batch) → serial_ends batch index slot ≡ true → EndsByCascade batch index slot }
{}
