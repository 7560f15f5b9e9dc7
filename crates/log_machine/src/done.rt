//! What the machine over a log says of a place that is done.

ghost use Rattle.std.specs.Prelude.{◌≡◌, ◌≢◌, ◌+◌, ◌++◌, ◌∷◌, [], IfOk, IfSome, IsTrue, OnErr, OnOk, Some, if◌then◌else◌};
ghost use Rattle.std.specs.Option.{MatchOption};
ghost use Rattle.model_base.specs.Ranks.{rank};
ghost use Rattle.model_base.specs.declared.outcome.Outcome.{Outcome};
ghost use Rattle.own_words.specs.Words.{ended_in};
ghost use Rattle.bohm_core_base.specs.Batch.{batch_slots};
ghost use Rattle.bohm_core_base.specs.Machine.{hold_of};
ghost use Rattle.bohm_core_base.specs.declared.hold.Hold.TheVariants.{Done};
ghost use Rattle.log_batch.specs.Laws.{EndsRecords, ended_ranks};
ghost use Rattle.log_batch.specs.LogBatch.{outcome_at, own_words_at};
ghost use Rattle.log_batch.specs.Supplied.{batch_of, range_of};

use crate::of_log::OfLog;
use bohm_core::{Hold, Machine, State};
use log_batch::LogBatch;
use model_base::{Grant, Items, Outcome, Place, RecordName};
use own_words::decoded;
use std::alloc::{AllocError, Global};

/// The own words of a place that is done, whatever the events were: those of its outcome in the log, and its version cells.
pub fn done_words<'a>(machine: &'a Machine<OfLog<'_>>, index: usize) -> Option<&'a [u64]>
    ensures { MatchOption result (hold_of machine.now.state index ≢ Done) (λ words.
        words.now ≡ own_words_at (range_of machine.now.statements) index) }
{
    let _log = machine.statements().batch().log();
    let state = machine.state();
    match state.hold(index) {
        Hold::Done => Some(state.own(index)),
        _ => None,
    }
}

/// Appends the name of the grant's record to the others, if that ended. Otherwise it doesn't allocate.
fn push_ended(names: &mut Vec<RecordName>, ended: bool, grant: &Grant) -> Result<(), AllocError>
    ensures pushed { OnOk result (names.new.items ≡ names.old.items ++ (if ended then rank grant.now ∷ [] else [])) }
    ensures memory { OnErr result (IsTrue ended) }
{
    if ended {
        names.push(grant.name())?;
    }
    Ok(())
}

/// The names of the records of slots that ended at the place of the log, in order. Where there are none it doesn't allocate.
fn ended_at(
    alloc: Global,
    batch: &LogBatch<'_>,
    state: &State,
    place: Place,
) -> Result<Vec<RecordName>, AllocError>
    ensures value { IfOk result (λ names. names.items ≡ ended_ranks (batch_slots (batch_of batch.now)) state.now.ends place) }
    ensures memory { OnErr result (ended_ranks (batch_slots (batch_of batch.now)) state.now.ends place ≢ []) }
{
    let mut names = Vec::new(alloc);
    for slot in 0..batch.slot_count().min(state.slots()) {
        push_ended(
            &mut names,
            state.is_ended_by(slot, place),
            &batch.grant(slot),
        )?;
    }
    Ok(names)
}

/// The names of the records that the revocation of a place ended, if the place is done: those of its outcome in the log, and none where it
/// has no revocation, or wasn't done. An error means out of memory, and comes only where there are some.
pub fn done_ends(
    alloc: Global,
    machine: &Machine<OfLog<'_>>,
    index: usize,
) -> Result<Option<Vec<RecordName>>, AllocError>
    ensures told { IfOk result (λ told. MatchOption told (hold_of machine.now.state index ≢ Done) (λ names. (found : Outcome)
        → outcome_at (range_of machine.now.statements) index ≡ Some found → names.items ≡ ended_in found)) }
    ensures done { IfOk result (λ told. IfSome told (λ _. hold_of machine.now.state index ≡ Done)) }
    ensures memory { OnErr result (EndsRecords (range_of machine.now.statements) index) }
{
    let state = machine.state();
    let batch = machine.statements().batch();
    let _log = batch.log();
    match state.hold(index) {
        Hold::Done => {
            let place = batch.first_place() + index as u64;
            let names = ended_at(alloc, batch, state, place)?;
            Ok(Some(names))
        }
        _ => Ok(None),
    }
}

/// The outcome of a place that is done, whatever the events were: what its own words give, with the records that its revocation ended. The
/// list of their names is all that takes memory, so an error comes only where there are some.
pub fn done_outcome(
    alloc: Global,
    machine: &Machine<OfLog<'_>>,
    index: usize,
) -> Result<Option<Outcome>, AllocError>
    ensures told { IfOk result (λ told. MatchOption told (hold_of machine.now.state index ≢ Done) (λ found.
        (hold_of machine.now.state index ≡ Done) × (outcome_at (range_of machine.now.statements) index ≡ Some found))) }
    ensures memory { OnErr result (EndsRecords (range_of machine.now.statements) index) }
{
    let state = machine.state();
    let batch = machine.statements().batch();
    let _log = batch.log();
    let _first = batch.first_place();
    match done_ends(alloc, machine, index)? {
        Some(ended) => {
            let form = &batch.statement(index).form;
            Ok(Some(decoded(form, state.own(index), Items::new(ended))))
        }
        None => Ok(None),
    }
}
