//! Which grants a batch may end.

ghost use Rattle.std.specs.Prelude.{◌≡◌, IfOk};
ghost use Rattle.words.specs.Layout.{IsListed};
ghost use Rattle.log_batch.specs.Supplied.{batch_of};
ghost use Rattle.log_batch.specs.Listing.{listed_slots};

use crate::batch::LogBatch;
use crate::laws::batches_of_logs_are_sound;
use crate::reach::Reach;
use bohm_core_base::{done_places_are_serial, records_end_by_cascades};
use std::alloc::{AllocError, Global};

/// The slots whose records the batch may end, in order, its own grants among them: those without an end before it that a revocation of it
/// names, or whose grantor has the option by an earlier such slot. So they may have the end words of the batch. An error means out of
/// memory. It looks once at each statement of the batch and at each grant that it may make; of the grants before it once at those in force
/// that its revocations name, and once at those by each user to whom a slot that it returns gives the option, which lie above that slot, in
/// force or not. Each costs a time that grows with the logarithm of the number of grants. Where the book doesn't know which grants are in
/// force, it looks for each grantor and grantee of its revocations at all to the grantee.
pub fn ended_slots(alloc: Global, batch: &LogBatch<'_>) -> Result<Vec<usize>, AllocError>
    ensures value { IfOk result (λ slots. slots.items ≡ listed_slots (batch_of batch.now)) }
    ensures listed { IfOk result (λ slots. IsListed (batch_of batch.now) slots.items) }
{
    done_places_are_serial();
    records_end_by_cascades();
    batches_of_logs_are_sound();
    let _log = batch.log();
    let reach = Reach::of(alloc, batch)?;
    Ok(reach.into_slots())
}
