//! How a log is cut into batches.

ghost use Rattle.std.specs.Prelude.{◌≡◌, ◌≤◌, ◌<◌, true};
ghost use Rattle.batched_text.specs.Settings.{are_within_limits, mark_behind};

use engine::Crew;
use model_base::{MOST_BATCH_STATEMENTS, MOST_KEPT_BATCHES, MOST_PARTITIONS, MOST_WORKERS, Place};

/// How many statements a batch has that is run in order.
pub const IN_ORDER_BATCH: u64 = 64;

/// How many places a batch of a run without a report has, but for the last one.
pub const QUIET_BATCH: u64 = 1024;

/// How a log is cut into batches, how each is placed and run, and of how many the rows before them are kept.
#[derive(Clone, Copy)]
pub struct Settings {
    /// How many workers run a batch: 1 to `MOST_WORKERS`. The caller's thread is the first, each other has a thread of its own.
    pub workers: usize,
    /// By how many partitions a batch is placed, each by a placer of its own: 1 to `MOST_PARTITIONS`.
    pub partitions: usize,
    /// How many accepted statements a batch has: 1 to `MOST_BATCH_STATEMENTS`. The last one may have fewer, and of a log that arrives `Live`
    /// any may that ends before a read.
    pub batch: u64,
    /// Before how many of the last batches the rows are kept: 0 to `MOST_KEPT_BATCHES`.
    pub keep: u64,
}

impl Settings {
    ghost use Rattle.batched_text.specs.Settings.{in_order};

    /// By whom a batch is run.
    pub(crate) fn crew(&self) -> Crew
        ensures { result ≡ record { workers = self.now.workers; partitions = self.now.partitions } }
    {
        Crew {
            workers: self.workers,
            partitions: self.partitions,
        }
    }

    /// One worker, which runs batches of this size in order, and keeps no rows before them.
    pub(crate) fn in_order(batch: u64) -> Self
        ensures { result ≡ in_order batch }
    {
        Settings {
            workers: 1,
            partitions: 1,
            batch,
            keep: 0,
        }
    }
}

/// How the bytes of a log arrive.
#[derive(Clone, Copy)]
pub enum Arrival {
    /// As they are written: the reader may wait for the next ones, as that of a pipe or a terminal.
    Live,
    /// All of them are there, as in a regular file: the reader never waits.
    Stored,
}

/// By which settings a log is run in batches, and how its bytes arrive.
#[derive(Clone, Copy)]
pub struct Batches {
    pub settings: Settings,
    pub arrival: Arrival,
}

/// Whether each setting is within its limits.
pub(crate) fn are_within_limits(settings: &Settings) -> bool
    ensures { result ≡ are_within_limits settings.now }
{
    (1 <= settings.workers && settings.workers <= MOST_WORKERS)
        && (1 <= settings.partitions && settings.partitions <= MOST_PARTITIONS)
        && (1 <= settings.batch && settings.batch <= MOST_BATCH_STATEMENTS)
        && settings.keep <= MOST_KEPT_BATCHES
}

/// The mark once a batch of these places is finished.
pub(crate) fn mark_behind(settings: &Settings, start: Place, end: Place) -> Place
    requires { are_within_limits settings.now ≡ true }
    ensures { result ≡ mark_behind settings.now start end }
{
    let keep = settings.keep;
    if keep == 0 {
        end
    } else {
        start.saturating_sub(settings.batch * (keep - 1))
    }
}
