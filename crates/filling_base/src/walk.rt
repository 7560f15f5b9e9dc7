//! What one call is doing.

use words::Holding;

/// A place that waits for one that it is referred to, with the number of the reference that comes after that.
#[derive(Clone, Copy)]
pub(crate) struct Frame {
    pub(crate) index: usize,
    pub(crate) next: usize,
}

/// The current place, how many of its references are known done, and the places that wait, the one asked for at the bottom.
#[derive(Drop)]
pub(crate) struct Walk {
    pub(crate) holding: Holding,
    pub(crate) at: usize,
    pub(crate) next: usize,
    pub(crate) stack: Vec<Frame>,
}

/// How a step of a walk ended.
#[derive(Clone, Copy)]
pub(crate) enum Step {
    /// The walk goes on.
    Went,
    /// The place of this index was held by another pass.
    Busy(usize),
}
