//! Who prints, and what is said of a refusal.

use std::alloc::{AllocError, Global};
use trials_base::{Attempt, TrialFault};

/// Out of memory.
pub const NO_MEMORY: TrialFault = TrialFault::NoMemory(AllocError);

/// Prints by a runtime.
#[derive_where(Clone, Copy)]
pub struct Teller<'a, R> {
    pub rt: &'a R,
    pub alloc: Global,
    /// Whether a call that is refused memory is made again.
    pub again: bool,
}

impl<R: Print> Teller<'_, R> {
    /// Prints that a call was refused memory, and whether what is left is as it has to be. It is made again then, or else it is a fault.
    pub fn refused(&self, call: &str, left: &str, is_left: bool) -> Attempt<()> {
        if !self.again {
            return Err(NO_MEMORY);
        }
        println!(self.rt; "{call}: refused, {left}: {is_left}")?;
        Ok(())
    }
}
