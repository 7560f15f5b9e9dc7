//! Places of a log as a batch on shared words.

ghost use Rattle.std.specs.Prelude.{◌≡◌, ◌<◌, ◌≤◌, ◌-◌, IfOk, length, true};
ghost use Rattle.log_batch.specs.Listing.{listed_slots};
ghost use Rattle.log_batch.specs.Supplied.{batch_of};
ghost use Rattle.words.specs.Passes.{IsPassOf};
ghost use Rattle.filling.specs.Placers.{IsPlacerIn, placer_front};
ghost use Rattle.workers.specs.Placing.{HavePlaced};
ghost use Rattle.engine.specs.RunState.{IsRunState};

use engine::RunState;
use filling::{Placer, RangeKey, open};
use filling_base::Batch;
use log_batch::{BatchRange, LogBatch, StateBefore};
use model_base::{MOST_PARTITIONS, Place};
use std::alloc::Global;
use trials_base::{WholeLog, new_batch};
use words::Pass;

/// The calls that make a batch and end it.
#[derive(Clone, Copy)]
pub enum Call {
    Place,
    Key,
    Words,
    OpenBatch,
    Open,
    Machine,
    Finish,
}

impl Call {
    /// Its name.
    pub fn name(self) -> &'static str {
        match self {
            Call::Place => "place, merge, LogBatch::new",
            Call::Key => "RangeKey::of",
            Call::Words => "BatchWords::new",
            Call::OpenBatch => "LogBatch::open",
            Call::Open => "open",
            Call::Machine => "Machine::new",
            Call::Finish => "finish",
        }
    }
}

/// The words of the places of a log from one on, of which all is placed, and their first pass. An error is the call that was refused memory.
pub fn placed<'a>(
    alloc: Global,
    log: &'a WholeLog,
    before: &'a RunState,
    first: Place,
    partitions: usize,
) -> Result<(Batch<RangeKey<'a>>, Pass), Call>
    requires partitions { 0 < partitions }
    requires few { partitions ≤ MOST_PARTITIONS }
    requires within { first < length log.now.statements }
    requires before { IsRunState log.now.statements first before.now.chains before.now.book }
    ensures pass { IfOk result (λ made. IsPassOf made.0 made.1) }
    ensures batch { IfOk result (λ made. made.0.key.batch ≡ record {
      log = log.now;
      first = first;
      size = length log.now.statements - first;
      partitions = partitions;
      placed = true;
    }) }
    ensures slots { IfOk result (λ made. made.0.key.slots ≡ listed_slots (batch_of made.0.key.batch)) }
{
    let Ok(batch) = new_batch(alloc, log, before, first..log.len(), partitions) else {
        return Err(Call::Place);
    };
    let Ok(key) = RangeKey::of(alloc, batch) else {
        return Err(Call::Key);
    };
    match Batch::new(alloc, key) {
        Ok(made) => Ok(made),
        Err(_) => Err(Call::Words),
    }
}

/// The words of the places of a log from one on, of which nothing is placed, with their first pass and their placers. An error is the call
/// that was refused memory.
pub fn opened<'a>(
    alloc: Global,
    log: &'a WholeLog,
    before: &'a RunState,
    first: Place,
    partitions: usize,
) -> Result<(Batch<RangeKey<'a>>, Pass, Vec<Placer>), Call>
    requires partitions { 0 < partitions }
    requires few { partitions ≤ MOST_PARTITIONS }
    requires within { first < length log.now.statements }
    requires before { IsRunState log.now.statements first before.now.chains before.now.book }
    ensures pass { IfOk result (λ made. IsPassOf made.0 made.1) }
    ensures placers { IfOk result (λ made. HavePlaced IsPlacerIn placer_front made.0 0 made.2.items) }
{
    let places = BatchRange {
        log: log.tail(),
        before: StateBefore {
            chains: &before.chains,
            book: before.book.book(),
        },
        range: first..log.len(),
        partitions,
    };
    let Ok(batch) = LogBatch::open(alloc, places) else {
        return Err(Call::OpenBatch);
    };
    match open(alloc, batch) {
        Ok(made) => Ok(made),
        Err(_) => Err(Call::Open),
    }
}
