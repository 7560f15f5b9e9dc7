//! What is before a place of a log once the places before it are run.

ghost use Rattle.std.specs.Prelude.{◌≡◌, ◌≤◌, IfOk, length};
ghost use Rattle.engine.specs.RunState.{IsRunState};

use crate::logs::WholeLog;
use chains::Chains;
use engine::{RememberingBook, RunState, run_in_order};
use model_base::Place;
use std::alloc::{AllocError, Global};
use workers::NoGate;

/// Nothing is before a log.
fn nothing(alloc: Global, log: &WholeLog) -> RunState
    ensures { IsRunState log.now.statements 0 result.chains result.book }
{
    let _log = log;
    RunState {
        chains: Chains::new(alloc),
        book: RememberingBook::new(alloc),
    }
}

/// What is before a place of a log: the places before it are run in order. An error means out of memory.
pub fn before_place(alloc: Global, log: &WholeLog, place: Place) -> Result<RunState, AllocError>
    requires within { place ≤ length log.now.statements }
    ensures { IfOk result (λ before. IsRunState log.now.statements place before.chains before.book) }
{
    let mut before = nothing(alloc, log);
    let mut outcomes = Vec::new(alloc);
    run_in_order(
        alloc,
        &mut before,
        log.tail(),
        0..place,
        &NoGate,
        &mut outcomes,
    )?;
    Ok(before)
}
