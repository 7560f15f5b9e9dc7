//! By whom a batch is run.

/// By how many workers a batch is run, and by how many placers it is placed.
#[derive(Clone, Copy)]
pub struct Crew {
    /// How many workers run its places: 1 to `MOST_WORKERS`. The caller's thread is the first, each other has a thread of its own.
    pub workers: usize,
    /// By how many partitions it is placed, each by a placer of its own: 1 to `MOST_PARTITIONS`.
    pub partitions: usize,
}
