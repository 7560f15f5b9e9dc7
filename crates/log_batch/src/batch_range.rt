//! A range of a log that becomes a batch.

use crate::state_before::StateBefore;
use model_base::Place;
use sequencer::LogTail;
use std::ops::Range;

/// The places of a range of a log, the state before them, and how many partitions are to place them, 1 to `MOST_PARTITIONS`. The versions
/// of rows end where the range begins and are those of the log, and the book has the deeds before the range.
#[derive(Drop)]
pub struct BatchRange<'a> {
    pub log: &'a LogTail,
    pub before: StateBefore<'a>,
    pub range: Range<Place>,
    pub partitions: usize,
}
