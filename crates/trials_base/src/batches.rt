//! Ranges of logs as batches of which all is placed.

ghost use Rattle.std.specs.Prelude.{◌≡◌, ◌<◌, ◌≤◌, ◌-◌, IfOk, length, map, true};
ghost use Rattle.std.specs.List.{range_with_len};
ghost use Rattle.model_base.specs.References.{batch_references};
ghost use Rattle.placing.specs.Parts.{part_of};
ghost use Rattle.engine.specs.RunState.{IsRunState};

use crate::logs::WholeLog;
use engine::RunState;
use log_batch::{BatchRange, LogBatch, StateBefore};
use model_base::{MOST_PARTITIONS, Place};
use placing::{Part, Refs, merge, place};
use std::alloc::{AllocError, Global};
use std::ops::Range;

/// What the placers of this many partitions find in a range of the log.
fn parts_of(
    alloc: Global,
    log: &WholeLog,
    range: Range<Place>,
    partitions: usize,
) -> Result<Vec<Part>, AllocError>
    requires partitions { 0 < partitions }
    requires within { range.end ≤ length log.now.statements }
    ensures { IfOk result (λ parts. parts.items
        ≡ map (part_of partitions log.now.statements range.start (range.end - range.start)) (range_with_len 0 partitions)) }
{
    let mut parts = Vec::new(alloc);
    for partition in 0..partitions {
        let range = range.start..range.end;
        parts.push(place(alloc, log.tail(), range, partition, partitions)?)?;
    }
    Ok(parts)
}

/// What the places of a range of the log refer to, as the placers of this many partitions find it together.
pub fn references_of(
    alloc: Global,
    log: &WholeLog,
    range: Range<Place>,
    partitions: usize,
) -> Result<Refs, AllocError>
    requires partitions { 0 < partitions }
    requires order { range.start ≤ range.end }
    requires within { range.end ≤ length log.now.statements }
    ensures { IfOk result (λ refs. refs ≡ batch_references log.now.statements range.start range.end) }
{
    let parts = parts_of(alloc, log, range, partitions)?;
    merge(alloc, parts)
}

/// A range of the log as a batch that this many partitions place.
pub fn new_batch<'a>(
    alloc: Global,
    log: &'a WholeLog,
    before: &'a RunState,
    range: Range<Place>,
    partitions: usize,
) -> Result<LogBatch<'a>, AllocError>
    requires partitions { 0 < partitions }
    requires few { partitions ≤ MOST_PARTITIONS }
    requires order { range.start ≤ range.end }
    requires within { range.end ≤ length log.now.statements }
    requires before { IsRunState log.now.statements range.start before.now.chains before.now.book }
    ensures { IfOk result (λ batch. batch ≡ record {
      log = log.now;
      first = range.start;
      size = range.end - range.start;
      partitions = partitions;
      placed = true;
    }) }
{
    let references = references_of(alloc, log, range.start..range.end, partitions)?;
    let before = StateBefore {
        chains: &before.chains,
        book: before.book.book(),
    };
    let places = BatchRange {
        log: log.tail(),
        before,
        range,
        partitions,
    };
    LogBatch::new(alloc, places, references)
}
